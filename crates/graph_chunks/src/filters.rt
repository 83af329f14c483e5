//! The changed-path filters of a layer that was opened, and those of a graph.

ghost use Rattle.std.specs.Prelude.{◌≡◌, ◌≢◌, ◌↔◌, ◌⊎◌, ◌+◌, ◌<◌, ◌^◌, ℕ, List, length, Some, None};
ghost use Rattle.std.specs.Prelude.{IfErr, IfOk, IfSome, IfNone, count_by, option_map, slice_get};
ghost use Rattle.std.specs.Option.{option_or};
ghost use Rattle.changed_paths.specs.Filters.{version_of, filters_of};
ghost use Rattle.changed_paths.specs.declared.filters.Answer.TheVariants as answer;
ghost use Rattle.graph_format.specs.Reports.{Reports};
ghost use Rattle.graph_format.specs.Integers.{word_in};
ghost use Rattle.gix_commitgraph.specs.Graph.{total};
ghost use Rattle.graph_format.specs.OptionalChunks.{index_in, data_in};
ghost use Rattle.graph_chunks.specs.StoredFilters.{layer_filters_refusal};
ghost use Rattle.graph_chunks.specs.GraphFilters.{settings_in, settings_of, graph_filters};
ghost use Rattle.graph_chunks.specs.GraphFilters.{is_computed, filters_in_graph, differ, fault_in};
ghost use Rattle.graph_chunks.specs.GraphFilters.{graph_filters_refusal, MayRefuseGraphFilters};
ghost use Rattle.graph_chunks.specs.GraphFilters.{IsPossibleBy, IsAbsentBy};
ghost use Rattle.graph_chunks.specs.KeptFilters.{NamesFilterOf, settings_by, IsKept, IsFilterAt};

use changed_paths::filters::{Answer, HashVersion, LayerFiltersError, PathFilters};
use changed_paths::key::PathKey;
use gix_commitgraph::file::{self, File};
use gix_commitgraph::{Graph, Position};
use std::alloc::Global;
use std::marker::Model;
use thiserror::Error;

/// The chunk of the section "Bloom Filter Index".
const BLOOM_INDEX_CHUNK_ID: [u8; 4] = *b"BIDX";

/// The chunk of the section "Bloom Filter Data".
const BLOOM_DATA_CHUNK_ID: [u8; 4] = *b"BDAT";

/// The filters of a layer, one for each of its commits, and `None` where one of the two chunks is
/// missing.
///
/// # Errors
///
/// The first of [`LayerFiltersError`] that holds of the two chunks.
#[tactic(auto, unfolding(crate::specs::StoredFilters::layer_filters_refusal))]
pub fn layer_filters(file: &File) -> Result<Option<PathFilters<'_>>, LayerFiltersError>
    ensures refusal { Reports result (layer_filters_refusal file.now) }
    ensures none { IfOk result (λ found. IfNone found
        ((index_in file.now ≡ None) ⊎ (data_in file.now ≡ None))) }
    ensures some { IfOk result (λ found. IfSome found (λ _.
        (index_in file.now ≢ None) × (data_in file.now ≢ None))) }
    ensures version { IfOk result (λ found. IfSome found (λ filters. (body : List ℕ)
        → data_in file.now ≡ Some body → version_of (word_in body 0) ≡ Some filters.version)) }
    ensures hashes { IfOk result (λ found. IfSome found (λ filters. (body : List ℕ)
        → data_in file.now ≡ Some body → filters.hashes ≡ word_in body 1)) }
    ensures filters { IfOk result (λ found. IfSome found (λ filters. (index body : List ℕ)
        → index_in file.now ≡ Some index → data_in file.now ≡ Some body
        → filters.filters ≡ filters_of index body)) }
    ensures commits { IfOk result (λ found. IfSome found (λ filters.
        length filters.filters ≡ length file.now.ids)) }
{
    let (Some(index), Some(body)) = (
        file.chunk(BLOOM_INDEX_CHUNK_ID),
        file.chunk(BLOOM_DATA_CHUNK_ID),
    ) else {
        return Ok(None);
    };
    match PathFilters::from_chunks(file.num_commits(), index, body) {
        Ok(filters) => Ok(Some(filters)),
        Err(error) => Err(error),
    }
}

/// How the filters of a graph are asked: the same in each layer that has filters.
#[derive(Clone, Copy, Debug, PartialEq, Eq)]
pub struct FilterSettings {
    /// The version of the hash.
    pub version: HashVersion,
    /// How many probes a path has.
    pub hashes: u32,
}

/// Why the filters of a graph are refused: the first of these that holds of the lowest layer whose
/// filters are refused, where `Falls` and `PastEnd` are looked for together, commit by commit. Its
/// text is the name of the variant alone.
#[derive(Clone, Copy, Debug, PartialEq, Eq, Error)]
pub enum FiltersError {
    /// The index of this layer has not four bytes for each commit ("Bloom Filter Index").
    #[error("IndexSize")]
    IndexSize { layer: usize },
    /// The data of this layer has fewer than twelve bytes ("Bloom Filter Data").
    #[error("DataSize")]
    DataSize { layer: usize },
    /// The version of the hash is neither 1 nor 2.
    #[error("Version")]
    Version { layer: usize, version: u32 },
    /// The number of hashes is 0, or more than 65535.
    #[error("Hashes")]
    Hashes { layer: usize, hashes: u32 },
    /// The number of bits per entry is 0.
    #[error("NoBits")]
    NoBits { layer: usize },
    /// The filter of this commit ends before it begins.
    #[error("Falls")]
    Falls { pos: Position },
    /// The filter of this commit ends past the end of the data of its layer.
    #[error("PastEnd")]
    PastEnd { pos: Position },
    /// There are bytes after the last filter of this layer.
    #[error("LeftOver")]
    LeftOver { layer: usize },
    /// The version or the number of hashes of this layer is not that of the lowest layer with
    /// filters.
    #[error("Settings")]
    Settings { layer: usize },
    /// An allocation failed.
    #[error("OutOfMemory")]
    OutOfMemory,
}

/// The filters of a layer, and how many commits stand before it.
#[derive(Drop)]
struct LayerFilters<'g> {
    before: u32,
    filters: Option<PathFilters<'g>>,
}

/// The filters of a graph, lent by the chunks of its layers, which were not refused. A contract
/// sees the filters one by one, in the order of the commits, and the settings by which they are
/// asked.
#[derive(Drop)]
pub struct GraphFilters<'g> {
    graph: &'g Graph,
    settings: Option<FilterSettings>,
    layers: Vec<LayerFilters<'g>>,
}

impl<'g> Model for GraphFilters<'g> {
    ghost use Rattle.std.specs.Prelude.{◌≡◌, length};
    ghost use Rattle.graph_chunks.specs.GraphFilters.{FiltersOfGraph, graph_filters};
    ghost use Rattle.graph_chunks.specs.KeptFilters.{AreKept};

    ghost Value = { FiltersOfGraph };

    ghost view = { λ a. record {
      settings = a.settings;
      filters = graph_filters a.graph.now;
    } };

    ghost invariant = { λ a.
        AreKept a.graph.now a.settings (length a.graph.now) a.layers.items };
}

/// The error of a layer, before which so many commits stand, as one of the graph.
fn in_graph(layer: usize, before: u32, error: LayerFiltersError, commits: u32) -> FiltersError
    requires place { NamesFilterOf commits error }
    requires fits { before + commits < 2 ^ 32 }
    ensures { result ≡ filters_in_graph layer before error }
{
    let _commits = commits;
    match error {
        LayerFiltersError::IndexSize => FiltersError::IndexSize { layer },
        LayerFiltersError::DataSize => FiltersError::DataSize { layer },
        LayerFiltersError::Version(version) => FiltersError::Version { layer, version },
        LayerFiltersError::Hashes(hashes) => FiltersError::Hashes { layer, hashes },
        LayerFiltersError::NoBits => FiltersError::NoBits { layer },
        LayerFiltersError::Falls(place) => FiltersError::Falls {
            pos: Position(before + place.0),
        },
        LayerFiltersError::PastEnd(place) => FiltersError::PastEnd {
            pos: Position(before + place.0),
        },
        LayerFiltersError::LeftOver => FiltersError::LeftOver { layer },
    }
}

/// The settings of the filters of a layer, where it has filters.
fn settings_by(filters: &Option<PathFilters<'_>>) -> Option<FilterSettings>
    ensures { result ≡ option_map settings_by filters.now }
{
    match filters {
        Some(filters) => Some(FilterSettings {
            version: filters.version(),
            hashes: filters.hashes(),
        }),
        None => None,
    }
}

/// Whether both have settings, and not the same.
fn differ(lowest: Option<FilterSettings>, own: Option<FilterSettings>) -> bool
    ensures { result ≡ differ lowest own }
{
    match (lowest, own) {
        (Some(lowest), Some(own)) => {
            lowest.version != own.version || lowest.hashes != own.hashes
        }
        _ => false,
    }
}

/// The filters of a layer, before which so many commits stand. The settings are those of the lowest
/// layer with filters, if that is one of those below it.
fn read_layer<'g>(
    file: &'g File,
    layer: usize,
    before: u32,
    lowest: Option<FilterSettings>,
) -> Result<LayerFilters<'g>, FiltersError>
    requires fits { before + length file.now.ids < 2 ^ 32 }
    ensures refusal { Reports result
        (fault_in layer before (option_or lowest (settings_in file.now)) file.now) }
    ensures kept { IfOk result
        (IsKept (option_or lowest (settings_in file.now)) before file.now) }
    ensures settings { IfOk result (λ kept.
        option_map settings_by kept.filters ≡ settings_in file.now) }
{
    let filters = match layer_filters(file) {
        Ok(filters) => filters,
        Err(error) => return Err(in_graph(layer, before, error, file.num_commits())),
    };
    let own = settings_by(&filters);
    if differ(lowest.or(own), own) {
        return Err(FiltersError::Settings { layer });
    }
    Ok(LayerFilters { before, filters })
}

impl<'g> GraphFilters<'g> {
    /// The filters that the layers of a graph store. A layer has filters where it has both chunks;
    /// where it has none, no filter of its commits was computed.
    ///
    /// # Errors
    ///
    /// The first of [`FiltersError`] that holds, layer by layer; and `OutOfMemory` only where no
    /// other does.
    pub fn of_graph(alloc: Global, graph: &'g Graph) -> Result<GraphFilters<'g>, FiltersError>
        ensures accepted { IfOk result (λ _. graph_filters_refusal graph.now ≡ None) }
        ensures settings { IfOk result (λ found. found.settings ≡ settings_of graph.now) }
        ensures filters { IfOk result (λ found. found.filters ≡ graph_filters graph.now) }
        ensures commits { IfOk result (λ found. length found.filters ≡ total graph.now) }
        ensures refusal { IfErr result (MayRefuseGraphFilters graph.now) }
    {
        let mut layers = Vec::new(alloc);
        let mut settings = None;
        let mut before = 0;
        let mut kept_all = true;
        let _commits = graph.num_commits();
        for layer in 0..graph.layers().len() {
            let file = &graph.layers()[layer];
            let kept = match read_layer(file, layer, before, settings) {
                Ok(kept) => kept,
                Err(error) => return Err(error),
            };
            settings = settings.or(settings_by(&kept.filters));
            kept_all &= layers.push(kept).is_ok();
            before += file.num_commits();
        }
        if !kept_all {
            return Err(FiltersError::OutOfMemory);
        }
        Ok(GraphFilters {
            graph,
            settings,
            layers,
        })
    }

    /// How the filters are asked, `None` where no layer has filters.
    pub fn settings(&self) -> Option<FilterSettings>
        ensures { result ≡ self.now.settings }
    {
        self.settings
    }

    /// The filters of the layer of a commit, and the commit's position there.
    fn layer_of(&self, pos: Position) -> (&LayerFilters<'g>, file::Position)
        requires { pos.0 < length self.now.filters }
        ensures { IsFilterAt self.now pos.0 result.0.now.filters result.1.0 }
    {
        let (layer, _) = self.graph.layer_of_counted(pos);
        let kept = &self.layers[layer];
        (kept, file::Position(pos.0 - kept.before))
    }

    /// The bytes of the filter of the commit at a position. There are none where it was not
    /// computed.
    pub fn filter_at(&self, pos: Position) -> &'g [u8]
        requires { pos.0 < length self.now.filters }
        ensures { slice_get self.now.filters pos.0 ≡ Some result.now }
    {
        let (kept, place) = self.layer_of(pos);
        match &kept.filters {
            Some(filters) => filters.filter_at(place),
            None => &[],
        }
    }

    /// What the filter of the commit at a position says of a path: `Absent` only where the path is
    /// none of those for which the filter's bits were set, whichever way version 1 read their
    /// bytes.
    pub fn probe(&self, pos: Position, path: &PathKey<'_>) -> Answer
        requires { pos.0 < length self.now.filters }
        ensures not_computed { (filter : List _) → slice_get self.now.filters pos.0 ≡ Some filter
            → (result ≡ answer.NotComputed) ↔ (length filter ≡ 0) }
        ensures possible { (filter : List _) → slice_get self.now.filters pos.0 ≡ Some filter
            → result ≡ answer.Possible → IsPossibleBy self.now.settings filter path.now }
        ensures absent { (filter : List _) → slice_get self.now.filters pos.0 ≡ Some filter
            → result ≡ answer.Absent → IsAbsentBy self.now.settings filter path.now }
    {
        let (kept, place) = self.layer_of(pos);
        match &kept.filters {
            Some(filters) => filters.probe(place, path),
            None => Answer::NotComputed,
        }
    }

    /// How many commits have a filter that was computed.
    pub fn computed(&self) -> u32
        ensures { result ≡ count_by is_computed self.now.filters }
    {
        let mut computed = 0;
        for pos in 0..self.graph.num_commits() {
            if !self.filter_at(Position(pos)).is_empty() {
                computed += 1;
            }
        }
        computed
    }
}
