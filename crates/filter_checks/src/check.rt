//! The filters of a graph against the trees of its commits.

ghost use Rattle.std.specs.Prelude.{◌≡◌, IfErr, OnOk, length};
ghost use Rattle.gix_commitgraph.specs.Graph.{total};
ghost use Rattle.gix_commitgraph.specs.Sound.{Sound};
ghost use Rattle.tree_changes.specs.Stands.{World};
ghost use Rattle.filter_checks.specs.RightFilters.{AreRightFilters};
ghost use Rattle.filter_checks.specs.Refused.{IsFirstRefused};

use crate::commit::check_commit;
use crate::refusal::RefusedFilter;
use gix_commitgraph::{Graph, Position};
use graph_chunks::filters::GraphFilters;
use std::alloc::Global;
use tree_changes::{Limits, TreeSource};

/// Checks the filters of a right graph: whether each that was computed answers each path as
/// possible that its commit touches, which are those that it changes from the tree of its first
/// parent on, and the directories that lead to these.
///
/// The commits are gone through in the order of their positions. Trees are read only for a filter
/// that has a bit which is not set, as [`ChangesInTurn`](tree_changes::ChangesInTurn) reads them;
/// the limits hold for each commit by itself.
///
/// # Errors
///
/// The first commit whose filter is refused: `Lacks` with the first path that it lacks, of the
/// changed paths in the order of their bytes, and of the directories that lead to each before it;
/// `Trees` where a limit ends the way, or the source refuses a tree that has to be read, or memory
/// ran out.
pub fn check_filters<S: TreeSource>(
    alloc: Global,
    graph: &Graph,
    filters: &GraphFilters<'_>,
    source: &mut S,
    limits: Limits,
) -> Result<(), RefusedFilter<S::Error>>
    requires sound { Sound graph.now }
    requires filters { length filters.now.filters ≡ total graph.now }
    ensures kind { S.kind_is source.new ≡ S.kind_is source.old }
    ensures kept { (world : World) → S.says source.new world → S.says source.old world }
    ensures right { OnOk result ((world : World) → S.says source.new world
        → AreRightFilters world graph.now filters.now) }
    ensures refused { IfErr result (λ fault. (world : World) → S.says source.new world
        → IsFirstRefused (S.has_refused source.new) limits world graph.now filters.now fault) }
{
    for number in 0..graph.num_commits() {
        let pos = Position(number);
        if let Err(why) = check_commit(alloc, graph, filters, pos, source, limits) {
            return Err(RefusedFilter { pos, why });
        }
    }
    Ok(())
}
