//! Searches that a limit stops.

ghost use Rattle.std.specs.Prelude.{◌≡◌, ◌≢◌, ◌↔◌, ◌*◌, ◌<◌, ◌≤◌, ◌⊎◌, false, Any, IsSomeAnd};
ghost use Rattle.std.specs.Prelude.{IsTrue, None};
ghost use Rattle.graph_walks.specs.Walks.{Reaches};
ghost use Rattle.graph_format.specs.StoredHistory.{history_of};
ghost use Rattle.gix_commitgraph.specs.Graph.{total};
ghost use Rattle.commit_search.specs.WalkAnswer.{MayLead};
ghost use Rattle.graph_history.specs.GraphComparison.{IsComparisonOf};
ghost use Rattle.graph_history.specs.Limits.{IsToldWithin, MayBeStopped, SearchMayBeStopped};
ghost use Rattle.commitgraph_c.specs.QueryAnswers.{IsChecked, TellsAnswer, TellsBases};
ghost use Rattle.commitgraph_c.specs.QueryAnswers.{TellsNoBases};
ghost use Rattle.c_opening.specs.Codes.{closed_graph, no_such_position, not_checked, stopped};
ghost use Rattle.c_opening.specs.Codes.{out_of_memory};
ghost use Rattle.c_opening.specs.ToldLimit.{told_bound};

use crate::bases::{self, CgBases};
use crate::positions::{are_below, positions_of};
use crate::query::{self, CgLeads, CgReached};
use c_opening::codes::{CLOSED_GRAPH, NO_SUCH_POSITION, NOT_CHECKED, OUT_OF_MEMORY, STOPPED};
use c_opening::{CgGraph, CgLimit};
use gix_commitgraph::Position;
use graph_history::LimitError;
use std::alloc::Global;

/// Looks for a shortest walk as `cg_ancestor_walk` does, unless the limit stops it.
pub fn cg_ancestor_walk_within(
    alloc: Global,
    graph: CgGraph,
    from: u32,
    to: u32,
    limit: CgLimit,
    out: &mut [u32],
) -> CgReached
    ensures answer { result.code ≡ 0 → IsSomeAnd graph.address.held (λ held.
        TellsAnswer held.0 from to result out.old out.new) }
    ensures within { result.code ≡ 0 → result.visits ≤ limit.visits }
    ensures stopped { result.code ≡ stopped → IsChecked graph.address.held (λ layers.
        SearchMayBeStopped (told_bound limit) (history_of layers) from to) }
    ensures nowhere { result.code ≡ no_such_position ↔ IsChecked graph.address.held (λ layers.
        (total layers ≤ from) ⊎ (total layers ≤ to)) }
    ensures unchecked { result.code ≡ not_checked ↔ IsSomeAnd graph.address.held (λ held.
        held.1 ≡ false) }
    ensures closed { result.code ≡ closed_graph ↔ graph.address.held ≡ None }
    ensures memory { result.code ≡ out_of_memory → IsChecked graph.address.held (λ layers.
        (from ≡ to) ⊎ MayLead (history_of layers) from to) }
    ensures codes { (result.code ≤ 4) ⊎ (result.code ≡ stopped) }
    ensures kept { result.code ≢ 0 → out.new ≡ out.old }
    ensures nothing { result.code ≢ 0 → (result.visits ≡ 0) × (result.length ≡ 0) }
{
    let Some(opened) = graph.opened() else {
        return query::refused(CLOSED_GRAPH);
    };
    let Some(checked) = opened.as_checked() else {
        return query::refused(NOT_CHECKED);
    };
    let commits = checked.graph().num_commits();
    if from >= commits || to >= commits {
        return query::refused(NO_SUCH_POSITION);
    }
    match checked.ancestor_walk_within(alloc, Position(from), Position(to), limit.limit()) {
        Ok(reached) => query::tell(&reached, out),
        Err(LimitError::Stopped) => query::refused(STOPPED),
        Err(LimitError::Source(_)) => query::refused(OUT_OF_MEMORY),
    }
}

/// Looks whether a commit is an ancestor of another as `cg_is_ancestor` does, unless the limit
/// stops it.
pub fn cg_is_ancestor_within(
    alloc: Global,
    graph: CgGraph,
    ancestor: u32,
    descendant: u32,
    limit: CgLimit,
) -> CgLeads
    ensures answer { result.code ≡ 0 → IsSomeAnd graph.address.held (λ held.
        IsTrue result.found ↔ Reaches (history_of held.0) descendant ancestor) }
    ensures within { result.code ≡ 0 → IsSomeAnd graph.address.held (λ held.
        IsToldWithin limit.visits (history_of held.0) descendant ancestor result.found) }
    ensures stopped { result.code ≡ stopped → IsChecked graph.address.held (λ layers.
        SearchMayBeStopped (told_bound limit) (history_of layers) descendant ancestor) }
    ensures nowhere { result.code ≡ no_such_position ↔ IsChecked graph.address.held (λ layers.
        (total layers ≤ ancestor) ⊎ (total layers ≤ descendant)) }
    ensures unchecked { result.code ≡ not_checked ↔ IsSomeAnd graph.address.held (λ held.
        held.1 ≡ false) }
    ensures closed { result.code ≡ closed_graph ↔ graph.address.held ≡ None }
    ensures memory { result.code ≡ out_of_memory → IsChecked graph.address.held (λ layers.
        (descendant ≢ ancestor) × MayLead (history_of layers) descendant ancestor) }
    ensures codes { (result.code ≤ 4) ⊎ (result.code ≡ stopped) }
    ensures nothing { result.code ≢ 0 → result.found ≡ false }
{
    let Some(opened) = graph.opened() else {
        return query::untold(CLOSED_GRAPH);
    };
    let Some(checked) = opened.as_checked() else {
        return query::untold(NOT_CHECKED);
    };
    let commits = checked.graph().num_commits();
    if ancestor >= commits || descendant >= commits {
        return query::untold(NO_SUCH_POSITION);
    }
    let (ancestor, descendant) = (Position(ancestor), Position(descendant));
    match checked.is_ancestor_within(alloc, ancestor, descendant, limit.limit()) {
        Ok(found) => CgLeads { code: 0, found },
        Err(LimitError::Stopped) => query::untold(STOPPED),
        Err(LimitError::Source(_)) => query::untold(OUT_OF_MEMORY),
    }
}

/// Looks for merge bases as `cg_merge_bases` does, unless the limit stops it. The search goes by
/// generation numbers.
pub fn cg_merge_bases_within(
    alloc: Global,
    graph: CgGraph,
    first: u32,
    others: &[u32],
    limit: CgLimit,
    out: &mut [u32],
) -> CgBases
    ensures answer { result.code ≡ 0 → IsSomeAnd graph.address.held (λ held.
        TellsBases (IsComparisonOf held.0 first others.now) result out.old out.new) }
    ensures within { result.code ≡ 0 → result.visits ≤ limit.visits }
    ensures stopped { result.code ≡ stopped → IsChecked graph.address.held (λ layers.
        MayBeStopped (told_bound limit) (3 * total layers)) }
    ensures nowhere { result.code ≡ no_such_position ↔ IsChecked graph.address.held (λ layers.
        (total layers ≤ first) ⊎ Any (λ other. total layers ≤ other) others.now) }
    ensures unchecked { result.code ≡ not_checked ↔ IsSomeAnd graph.address.held (λ held.
        held.1 ≡ false) }
    ensures closed { result.code ≡ closed_graph ↔ graph.address.held ≡ None }
    ensures codes { (result.code ≤ 4) ⊎ (result.code ≡ stopped) }
    ensures kept { result.code ≢ 0 → out.new ≡ out.old }
    ensures nothing { result.code ≢ 0 → TellsNoBases result }
{
    let Some(opened) = graph.opened() else {
        return bases::refused(CLOSED_GRAPH);
    };
    let Some(checked) = opened.as_checked() else {
        return bases::refused(NOT_CHECKED);
    };
    let commits = checked.graph().num_commits();
    if first >= commits || !are_below(others, commits) {
        return bases::refused(NO_SUCH_POSITION);
    }
    let Ok(others) = positions_of(alloc, others) else {
        return bases::refused(OUT_OF_MEMORY);
    };
    match checked.compare_within(alloc, Position(first), &others, limit.limit()) {
        Ok(comparison) => bases::tell(&comparison, out),
        Err(LimitError::Stopped) => bases::refused(STOPPED),
        Err(LimitError::Source(_)) => bases::refused(OUT_OF_MEMORY),
    }
}
