//! Accessors of a graph.

ghost use Rattle.std.specs.Prelude.{◌≡◌, ◌+◌, ◌^◌, ◌<◌, ◌≤◌, All, length, slice_get, option_map};
ghost use Rattle.std.specs.Prelude.{Some, IfSome, drop, take};
ghost use Rattle.gix_hash_core.specs.Kind.{id_len};
ghost use Rattle.gix_hash_core.specs.Oid.{oid_bytes};
ghost use Rattle.graph_layer.specs.Commit.{commit_layer, commit_pos, layer_and_position};
ghost use Rattle.gix_commitgraph.specs.Graph.{IsGraph, graph_ids, graph_commits, start, stop};
ghost use Rattle.gix_commitgraph.specs.Graph.{total};
ghost use Rattle.graph_format.specs.Lookup.{digits};
ghost use Rattle.gix_commitgraph.specs.GraphLookup.{FoundIn, CommitFoundIn, position_number};
ghost use Rattle.gix_commitgraph.specs.GraphRemaining.{graph_ids_left, graph_commits_left};

use crate::Position;
use crate::file::{self, Commit, File};
use crate::graph::Graph;
use crate::iter::{GraphCommits, GraphIds};
use gix_hash_core::{Kind, oid};
use graph_layer::lookups::lookup_of_kind;

/// Where an id was found: the layer, how many commits stand before it, and the position there.
#[derive(Clone, Copy)]
pub(crate) struct LookupByIdResult<'a> {
    pub(crate) file: &'a File,
    pub(crate) start: u32,
    pub(crate) pos: file::Position,
}

impl Graph {
    /// The kind of the ids of all layers.
    #[tactic(auto, using(crate::proofs::layers::LayerListLemmas::kind_laws))]
    pub fn object_hash(&self) -> Kind
        ensures kind { All (λ layer. layer.kind ≡ result) self.now }
        ensures some { 0 < length self.now }
    {
        self.files[0].object_hash()
    }

    /// The number of commits that the layers have together, at most `MAX_COMMITS`.
    pub fn num_commits(&self) -> u32
        ensures commits { result ≡ total self.now }

        // There is a layer, all are of one kind, and each is that of a file that was opened.
        ensures graph { IsGraph self.now }
    {
        let last = self.files.len() - 1;
        self.starts[last] + self.files[last].num_commits()
    }

    /// The layers, from the lowest on.
    pub fn layers(&self) -> &[File]
        ensures same { result.now ≡ self.now }
        ensures graph { IsGraph self.now }
    {
        self.files.as_slice()
    }

    /// The id at a position, which is below `num_commits()`. The positions of a graph are those of
    /// its layers, one layer after another.
    pub fn id_at(&self, pos: Position) -> oid<'_>
        requires { pos.0 < total self.now }
        ensures { slice_get (graph_ids self.now) pos.0 ≡ Some (oid_bytes result) }
    {
        let (file, layer_pos) = self.layer_at(pos);
        file.id_at(layer_pos)
    }

    /// The commit at a position, which is below `num_commits()`.
    pub fn commit_at(&self, pos: Position) -> Commit<'_>
        requires { pos.0 < total self.now }
        ensures { slice_get (graph_commits self.now) pos.0 ≡ Some (layer_and_position result) }
    {
        let (file, layer_pos) = self.layer_at(pos);
        file.commit_at(layer_pos)
    }

    /// The ids, in order.
    pub fn iter_ids(&self) -> GraphIds<'_>
        ensures { graph_ids_left result ≡ graph_ids self.now }
    {
        GraphIds::new(self)
    }

    /// The commits, in order.
    pub fn iter_commits(&self) -> GraphCommits<'_>
        ensures { graph_commits_left result ≡ graph_commits self.now }
    {
        GraphCommits::new(self)
    }

    /// The commits from a position on, in order; none where the position is not below
    /// `num_commits()`.
    pub fn iter_commits_from(&self, first: Position) -> GraphCommits<'_>
        ensures { graph_commits_left result ≡ drop first.0 (graph_commits self.now) }
    {
        GraphCommits::from(self, first)
    }

    /// The position of an id. The layers are searched from the lowest on, each as `File::lookup`
    /// does, and the first that finds the id decides.
    ///
    /// A position that is answered always holds the id. Where in each layer the ids strictly ascend
    /// and the fan is exact, the answer is the least position that holds the id, and `None` only
    /// where none does. In a damaged file, an id that is there may be missed.
    #[inline(always)]
    pub fn lookup(&self, id: oid<'_>) -> Option<Position>
        ensures found { FoundIn self.now (oid_bytes id.entry) (position_number result) }
        ensures holds { IfSome result (λ pos.
            slice_get (graph_ids self.now) pos.0 ≡ Some (oid_bytes id.entry)) }
    {
        let layers = self.files.len();
        let found = match id.kind() {
            Kind::Sha1 => self.find(id, Kind::Sha1, layers),
            Kind::Sha256 => self.find(id, Kind::Sha256, layers),
        }?;
        Some(Position(found.start + found.pos.0))
    }

    /// The commit with an id: the one at a position that `lookup` may answer, or `None`.
    pub fn commit_by_id(&self, id: oid<'_>) -> Option<Commit<'_>>
        ensures found { CommitFoundIn self.now (oid_bytes id.entry) result }
        ensures holds { IfSome result (λ commit.
            slice_get (commit_layer commit).ids (commit_pos commit) ≡ Some (oid_bytes id.entry)) }
    {
        let found = self.find(id, id.kind(), self.files.len())?;
        Some(found.file.commit_at(found.pos))
    }

    /// The layer in which a position lies, which is below `num_commits()`, and how many starts were
    /// compared with the position. Layers count from 0, and the start of one is the number of
    /// commits before it. A layer without commits has no position.
    pub fn layer_of_counted(&self, pos: Position) -> (usize, u32)
        requires { pos.0 < total self.now }
        ensures layer { result.0 < length self.now }
        ensures from { start self.now result.0 ≤ pos.0 }
        ensures below { pos.0 < stop self.now result.0 }

        // As many comparisons as the number of layers has binary digits, or one fewer.
        ensures most { result.1 ≤ digits (length self.now) }
        ensures least { digits (length self.now) ≤ result.1 + 1 }
    {
        let (mut low, mut high) = (0, self.starts.len());
        let mut comparisons = 0;
        while high - low > 1 {
            let middle = low + (high - low) / 2;
            comparisons += 1;
            if self.starts[middle] <= pos.0 {
                low = middle;
            } else {
                high = middle;
            }
        }
        (low, comparisons)
    }

    /// The layer of a position, and the position there.
    fn layer_at(&self, pos: Position) -> (&File, file::Position)
        requires { pos.0 < total self.now }
        ensures commit { slice_get (graph_commits self.now) pos.0
            ≡ Some (result.0.now, result.1.0) }
        ensures id { slice_get (graph_ids self.now) pos.0 ≡ slice_get result.0.now.ids result.1.0 }
        ensures within { result.1.0 < length result.0.now.ids }
    {
        let (layer, _) = self.layer_of_counted(pos);
        let layer_pos = file::Position(pos.0 - self.starts[layer]);
        (&self.files[layer], layer_pos)
    }

    /// The first layer below this one that finds an id of this kind, and where. It is compiled into
    /// its callers: where these name the kind, the number of an id's bytes is a constant.
    #[inline(always)]
    pub(crate) fn find(&self, id: oid<'_>, kind: Kind, layer: usize) -> Option<LookupByIdResult<'_>>
        requires kind { length (oid_bytes id) ≡ id_len kind }
        requires layer { layer ≤ length self.now }
        ensures found { FoundIn (take layer self.now) (oid_bytes id.entry)
            (option_map (λ f. f.start + f.pos.0) result) }
        ensures commit { IfSome result (λ f.
            slice_get (graph_commits self.now) (f.start + f.pos.0) ≡ Some (f.file.now, f.pos.0)) }
        ensures id { IfSome result (λ f.
            slice_get (graph_ids self.now) (f.start + f.pos.0) ≡ Some (oid_bytes id.entry)) }
        ensures holds { IfSome result (λ f.
            slice_get f.file.now.ids f.pos.0 ≡ Some (oid_bytes id.entry)) }
        ensures within { IfSome result (λ f. f.pos.0 < length f.file.now.ids) }
        ensures few { IfSome result (λ f. f.start + f.pos.0 < 2 ^ 32) }
    {
        for below in 0..layer {
            let file = &self.files[below];
            if let Some(pos) = lookup_of_kind(file, id, kind) {
                let start = self.starts[below];
                return Some(LookupByIdResult { file, start, pos });
            }
        }
        None
    }
}
