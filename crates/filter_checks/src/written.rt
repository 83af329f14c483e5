//! The filters of a graph against those that Git writes.

ghost use Rattle.std.specs.Prelude.{◌≡◌, ◌<◌, ◌↔◌, All, IfErr, IsTrue, OnOk, length};
ghost use Rattle.gix_commitgraph.specs.Graph.{total};
ghost use Rattle.gix_commitgraph.specs.Sound.{Sound};
ghost use Rattle.tree_changes.specs.Stands.{World};
ghost use Rattle.filter_checks.specs.RightFilters.{IsComputedAt, root_tree_at, parent_tree_at};
ghost use Rattle.filter_checks.specs.Written.{AreWritten, IsWrittenAt, IsFirstOther};
ghost use Rattle.filter_checks.specs.Written.{IsOtherThanWritten};

use crate::commit::{parent_tree, root_tree};
use crate::refusal::{FilterRefusal, RefusedFilter};
use gix_commitgraph::{Graph, Position};
use graph_chunks::filters::GraphFilters;
use path_filters::{Bounds, Settings, path_filter};
use std::alloc::Global;
use tree_changes::TreeSource;

/// Checks the filters of a right graph: whether each that was computed is, to the last bit, the one
/// that Git writes by these settings for what its commit changes. A filter of another writer may be
/// right, and another one.
///
/// The commits are gone through in the order of their positions. For each whose filter was
/// computed, trees are read; the bounds hold for each commit by itself.
///
/// # Errors
///
/// The first commit whose filter is refused: `Differs` where Git writes another one; `Trees` where
/// a bound ends the way, or the source refuses a tree that has to be read, or memory ran out.
pub fn check_written_filters<S: TreeSource>(
    alloc: Global,
    graph: &Graph,
    filters: &GraphFilters<'_>,
    source: &mut S,
    settings: Settings,
    bounds: Bounds,
) -> Result<(), RefusedFilter<S::Error>>
    requires sound { Sound graph.now }
    requires filters { length filters.now.filters ≡ total graph.now }
    ensures kind { S.kind_is source.new ≡ S.kind_is source.old }
    ensures kept { (world : World) → S.says source.new world → S.says source.old world }
    ensures written { OnOk result ((world : World) → S.says source.new world
        → AreWritten settings world graph.now filters.now) }
    ensures refused { IfErr result (λ fault. (world : World) → S.says source.new world
        → IsFirstOther (S.has_refused source.new) settings bounds world graph.now filters.now
        fault) }
{
    for number in 0..graph.num_commits() {
        let pos = Position(number);
        if let Err(why) = check_one(alloc, graph, filters, pos, source, settings, bounds) {
            return Err(RefusedFilter { pos, why });
        }
    }
    Ok(())
}

/// Whether the filter of a commit is the one that Git writes, if it was computed.
fn check_one<S: TreeSource>(
    alloc: Global,
    graph: &Graph,
    filters: &GraphFilters<'_>,
    pos: Position,
    source: &mut S,
    settings: Settings,
    bounds: Bounds,
) -> Result<(), FilterRefusal<S::Error>>
    requires sound { Sound graph.now }
    requires within { pos.0 < total graph.now }
    requires filters { length filters.now.filters ≡ total graph.now }
    ensures kind { S.kind_is source.new ≡ S.kind_is source.old }
    ensures kept { (world : World) → S.says source.new world → S.says source.old world }
    ensures written { OnOk result ((world : World) → S.says source.new world
        → IsWrittenAt settings world graph.now filters.now pos.0) }
    ensures computed { IfErr result (λ _. IsComputedAt filters.now pos.0) }
    ensures refused { IfErr result (λ why. (world : World) → S.says source.new world
        → IsOtherThanWritten (S.has_refused source.new) settings bounds world
        (parent_tree_at graph.now pos.0) (root_tree_at graph.now pos.0) filters.now pos.0 why) }
{
    let filter = filters.filter_at(pos);
    if filter.is_empty() {
        return Ok(());
    }
    let old = parent_tree(graph, pos);
    let new = root_tree(graph, pos);
    let made = match path_filter(alloc, source, old, new, settings, bounds) {
        Ok(made) => made,
        Err(refusal) => return Err(FilterRefusal::Trees(refusal)),
    };
    let written = made.as_slice();
    if are_same(written, filter) {
        return Ok(());
    }
    Err(FilterRefusal::Differs)
}

/// Whether two filters are the same, which are bytes.
fn are_same(one: &[u8], other: &[u8]) -> bool
    requires one { All (λ byte. byte < 256) one.now }
    requires other { All (λ byte. byte < 256) other.now }
    ensures same { IsTrue result ↔ (one.now ≡ other.now) }
    ensures one { All (λ byte. byte < 256) one.now }
    ensures other { All (λ byte. byte < 256) other.now }
{
    one == other
}
