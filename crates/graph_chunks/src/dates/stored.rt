//! Reading the corrected dates that layers store.

ghost use Rattle.std.specs.Prelude.{◌≡◌, ◌+◌, ◌<◌, ◌^◌, ◌++◌, All, None, IsTrue, length};
ghost use Rattle.std.specs.Bool.{OnTrue, OnFalse};
ghost use Rattle.std.specs.Prelude.{IfOk, IfErr, IfSome};
ghost use Rattle.gix_chunk_core.specs.FirstFault.{first_below};
ghost use Rattle.graph_chunks.specs.StoredDates.{NamesOneOf};
ghost use Rattle.graph_format.specs.OptionalChunks.{HasDates, dates_in, offsets_in, overflow_in};
ghost use Rattle.graph_chunks.specs.GraphStoredDates.{dates_of, layer_dates_refusal};
ghost use Rattle.graph_chunks.specs.GraphDates.{in_graph, reading_fault, AreReadable, MayNotRead};

use crate::dates::DatesError;
use crate::dates::layer::{LayerDatesError, decode_dates, refusal_of};
use gix_commitgraph::file::File;
use gix_commitgraph::{Graph, Position};
use graph_layer::fields::times;
use std::alloc::Global;

/// The chunk of the section "Generation Data".
const GENERATION_DATA_CHUNK_ID: [u8; 4] = *b"GDA2";

/// The chunk of the section "Generation Data Overflow".
const GENERATION_OVERFLOW_CHUNK_ID: [u8; 4] = *b"GDO2";

/// Whether each layer has corrected dates.
pub(super) fn has_dates(graph: &Graph) -> bool
    ensures yes { OnTrue result (All HasDates graph.now) }
    ensures no { OnFalse result (¬ All HasDates graph.now) }
{
    let layers = graph.layers();
    for layer in 0..layers.len() {
        if layers[layer].chunk(GENERATION_DATA_CHUNK_ID).is_none() {
            return false;
        }
    }
    true
}

/// The offsets of a layer's commits.
fn offsets_of(file: &File) -> &[u8]
    ensures { result.now ≡ offsets_in file.now }
{
    file.chunk(GENERATION_DATA_CHUNK_ID).unwrap_or(&[])
}

/// Those offsets of a layer's commits that do not fit a word.
fn overflow_of(file: &File) -> &[u8]
    ensures { result.now ≡ overflow_in file.now }
{
    file.chunk(GENERATION_OVERFLOW_CHUNK_ID).unwrap_or(&[])
}

/// Puts the dates of a layer after those of the layers below it.
#[tactic(auto, unfolding(graph_format::specs::OptionalChunks::dates_in, crate::specs::GraphStoredDates::layer_dates_refusal))]
fn read_layer(dates: &mut Vec<u64>, file: &File) -> Result<(), LayerDatesError>
    ensures dates { IfOk result (λ _. dates.new.items ≡ dates.old.items ++ dates_in file.now) }
    ensures small { IfOk result (λ _. All (λ date. date < 2 ^ 63) dates.old.items
        → All (λ date. date < 2 ^ 63) dates.new.items) }
    ensures none { IfOk result (λ _. layer_dates_refusal file.now ≡ None) }
{
    let _commits = file.num_commits();
    decode_dates(dates, offsets_of(file), overflow_of(file), times(file))
}

/// Why the dates of a layer cannot be read.
#[tactic(auto, unfolding(crate::specs::GraphStoredDates::layer_dates_refusal))]
fn refusal_of_layer(file: &File) -> Option<LayerDatesError>
    ensures refusal { result ≡ layer_dates_refusal file.now }
    ensures place { IfSome result (NamesOneOf (length file.now.ids)) }
{
    let _commits = file.num_commits();
    refusal_of(offsets_of(file), overflow_of(file), times(file))
}

/// The error of a layer, before which so many commits stand, as one of the graph.
fn in_graph(layer: usize, before: u32, error: LayerDatesError, commits: u32) -> DatesError
    requires place { NamesOneOf commits error }
    requires fits { before + commits < 2 ^ 32 }
    ensures { result ≡ in_graph layer before error }
{
    let _commits = commits;
    match error {
        LayerDatesError::DataSize => DatesError::DataSize { layer },
        LayerDatesError::OverflowSize => DatesError::OverflowSize { layer },
        LayerDatesError::OverflowIndex(place) => DatesError::OverflowIndex {
            pos: Position(before + place.0),
        },
        LayerDatesError::TooLarge(place) => DatesError::TooLarge {
            pos: Position(before + place.0),
        },
        LayerDatesError::OutOfMemory => DatesError::OutOfMemory,
    }
}

/// Why the dates of a graph cannot be read. It takes no memory.
#[tactic(auto, using(crate::proofs::StoredDateLemmas::reading_laws))]
fn reading_refusal(graph: &Graph) -> Option<DatesError>
    ensures { result ≡ first_below (reading_fault graph.now) (length graph.now) }
{
    let _commits = graph.num_commits();
    let layers = graph.layers();
    let mut before = 0;
    for layer in 0..layers.len() {
        let commits = layers[layer].num_commits();
        if let Some(error) = refusal_of_layer(&layers[layer]) {
            return Some(in_graph(layer, before, error, commits));
        }
        before += commits;
    }
    None
}

/// Why the dates of a graph were not read, and `OutOfMemory` where all of them can be.
fn why_not_read(graph: &Graph) -> DatesError
    ensures { MayNotRead graph.now result }
{
    match reading_refusal(graph) {
        Some(error) => error,
        None => DatesError::OutOfMemory,
    }
}

/// The dates that the layers of a graph store.
#[tactic(auto, using(crate::proofs::StoredDateLemmas::reading_laws))]
pub(super) fn read_dates(alloc: Global, graph: &Graph) -> Result<Vec<u64>, DatesError>
    ensures dates { IfOk result (λ dates. dates.items ≡ dates_of graph.now) }
    ensures small { IfOk result (λ dates. All (λ date. date < 2 ^ 63) dates.items) }
    ensures none { IfOk result (λ _. AreReadable graph.now) }
    ensures fault { IfErr result (MayNotRead graph.now) }
{
    let Ok(mut dates) = Vec::with_capacity(alloc, graph.num_commits() as usize) else {
        return Err(why_not_read(graph));
    };
    let layers = graph.layers();
    for layer in 0..layers.len() {
        if read_layer(&mut dates, &layers[layer]).is_err() {
            return Err(why_not_read(graph));
        }
    }
    Ok(dates)
}
