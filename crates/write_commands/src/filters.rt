//! The changed-path filters of a graph, as a new file is to have them.

ghost use Rattle.std.specs.Prelude.{◌≡◌, ◌≢◌, ◌+◌, ◌<◌, ◌≤◌, ◌^◌, ◌-◌, ◌↔◌, ℕ, List, IsTrue, IfOk};
ghost use Rattle.std.specs.Prelude.{IfSome, IfNone, OnErr, Some, None, All, length, slice_index_or};
ghost use Rattle.std.specs.List.{sum_by};
ghost use Rattle.gix_commitgraph.specs.Graph.{total};
ghost use Rattle.graph_encoder.specs.StoredNumbers.{stored_filter_numbers, numbers_at_head};
ghost use Rattle.write_commands.specs.CarriedFilters.{AreCarried, HoldFilters};

use gix_commitgraph::{File, Graph, Position};
use graph_chunks::filters::{FiltersError, GraphFilters};
use graph_encoder::FilterNumbers;
use graph_format::integers::word_at;
use graph_history::Checked;
use graph_writer::NewFilters;
use std::alloc::{AllocError, Global};

/// The bytes of the three numbers that stand before filters.
const NUMBERS_LEN: usize = 12;

/// The filters of the commits of a right graph, by position, where all of its layers have filters
/// by the same settings, which nothing refuses, and one file has room for all of them. The error is
/// that an allocation failed; it comes only where there are commits.
pub(crate) fn filters_of(
    alloc: Global,
    graph: &Checked<'_>,
) -> Result<Option<NewFilters>, AllocError>
    ensures filters { IfOk result (AreCarried graph.now.layers) }
    ensures some { OnErr result (0 < total graph.now.layers) }
{
    if graph.num_commits() == 0 || !all_have_filters(graph.graph().layers()) {
        return Ok(None);
    }
    match GraphFilters::of_graph(alloc, graph.graph()) {
        Ok(filters) => gathered(alloc, graph.graph(), &filters),
        Err(FiltersError::OutOfMemory) => Err(AllocError),
        Err(_) => Ok(None),
    }
}

/// Whether all of these layers have filters.
fn all_have_filters(layers: &[File]) -> bool
    ensures { IsTrue result ↔ All (λ layer. stored_filter_numbers layer ≢ None) layers.now }
{
    layers.iter().all(|layer| filter_numbers(layer).is_some())
}

/// The numbers before the filters of a layer, `None` where it has no filters, or where their body
/// is too short.
fn filter_numbers(file: &File) -> Option<FilterNumbers>
    ensures { result ≡ stored_filter_numbers file.now }
{
    match (file.chunk(*b"BIDX"), file.chunk(*b"BDAT")) {
        (Some(_index), Some(body)) => numbers_at(body),
        _ => None,
    }
}

/// The numbers at the head of these bytes, if there are enough.
fn numbers_at(body: &[u8]) -> Option<FilterNumbers>
    ensures { result ≡ numbers_at_head body.now }
{
    if body.len() < NUMBERS_LEN {
        return None;
    }
    Some(FilterNumbers {
        version: word_at(body, 0),
        hashes: word_at(body, 4),
        bits_per_entry: word_at(body, 8),
    })
}

/// The filters of a graph, if one file has room for all of them. Before them stand the numbers of
/// the highest layer.
fn gathered(
    alloc: Global,
    graph: &Graph,
    filters: &GraphFilters<'_>,
) -> Result<Option<NewFilters>, AllocError>
    requires commits { length filters.now.filters ≡ total graph.now }
    requires layers { All (λ layer. stored_filter_numbers layer ≢ None) graph.now }
    ensures some { IfOk result (λ found. IfSome found
        (HoldFilters graph.now filters.now.filters)) }
    ensures room { IfOk result (λ found. IfSome found
        (λ _. sum_by length filters.now.filters < 2 ^ 32)) }
    ensures none { IfOk result (λ found.
        IfNone found (2 ^ 32 ≤ sum_by length filters.now.filters)) }
{
    let layers = graph.layers();
    let Some(numbers) = filter_numbers(&layers[layers.len() - 1]) else {
        return Ok(None);
    };
    let mut gathered = NewFilters::new(alloc, numbers);
    for number in 0..graph.num_commits() {
        let filter = filters.filter_at(Position(number));
        if !gathered.has_room(filter.len()) {
            return Ok(None);
        }
        gathered.push(filter)?;
    }
    Ok(Some(gathered))
}
