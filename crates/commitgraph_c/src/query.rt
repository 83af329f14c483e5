//! Walks to ancestors, in a graph that was checked.

ghost use Rattle.std.specs.Prelude.{◌≡◌, ◌≢◌, ◌↔◌, ◌≤◌, ◌⊎◌, false, IsSomeAnd, IsTrue, None};
ghost use Rattle.graph_walks.specs.Walks.{Reaches};
ghost use Rattle.graph_format.specs.StoredHistory.{history_of};
ghost use Rattle.gix_commitgraph.specs.Graph.{total};
ghost use Rattle.commit_search.specs.WalkAnswer.{MayLead};
ghost use Rattle.commitgraph_c.specs.QueryAnswers.{IsChecked, TellsAnswer, TellsWalk};
ghost use Rattle.c_opening.specs.Codes.{closed_graph, no_such_position, not_checked};
ghost use Rattle.c_opening.specs.Codes.{out_of_memory};

use crate::positions::write_positions;
use c_opening::CgGraph;
use c_opening::codes::{CLOSED_GRAPH, NO_SUCH_POSITION, NOT_CHECKED, OUT_OF_MEMORY};
use gix_commitgraph::Position;
use graph_history::Reached;
use std::alloc::Global;

/// The answer to a query: how many positions the walk has, 0 where there is none.
#[repr(C)]
#[derive(Clone, Copy)]
pub struct CgReached {
    /// 0 where the question was answered, else why not: that no graph is open comes first, then
    /// that it was not checked, then that a position is none of its, and then want of memory.
    pub code: u32,
    pub visits: u32,
    pub length: u64,
}

/// Looks for a shortest walk, and writes its positions, as many as there is room for. The
/// graph has to be one that `cg_open_checked` opened.
pub fn cg_ancestor_walk(
    alloc: Global,
    graph: CgGraph,
    from: u32,
    to: u32,
    out: &mut [u32],
) -> CgReached
    ensures answer { result.code ≡ 0 → IsSomeAnd graph.address.held (λ held.
        TellsAnswer held.0 from to result out.old out.new) }
    ensures nowhere { result.code ≡ no_such_position ↔ IsChecked graph.address.held (λ layers.
        (total layers ≤ from) ⊎ (total layers ≤ to)) }
    ensures unchecked { result.code ≡ not_checked ↔ IsSomeAnd graph.address.held (λ held.
        held.1 ≡ false) }
    ensures closed { result.code ≡ closed_graph ↔ graph.address.held ≡ None }
    ensures memory { result.code ≡ out_of_memory → IsChecked graph.address.held (λ layers.
        (from ≡ to) ⊎ MayLead (history_of layers) from to) }
    ensures codes { result.code ≤ 4 }
    ensures kept { result.code ≢ 0 → out.new ≡ out.old }
    ensures nothing { result.code ≢ 0 → (result.visits ≡ 0) × (result.length ≡ 0) }
{
    let Some(opened) = graph.opened() else {
        return refused(CLOSED_GRAPH);
    };
    let Some(checked) = opened.as_checked() else {
        return refused(NOT_CHECKED);
    };
    let commits = checked.graph().num_commits();
    if from >= commits || to >= commits {
        return refused(NO_SUCH_POSITION);
    }
    match opened.ancestor_walk(alloc, Position(from), Position(to)) {
        Ok(reached) => tell(&reached, out),
        Err(_) => refused(OUT_OF_MEMORY),
    }
}

/// Whether a commit is an ancestor of another: `found` says so where the code is 0.
#[repr(C)]
#[derive(Clone, Copy)]
pub struct CgLeads {
    /// As that of `cg_ancestor_walk`.
    pub code: u32,
    pub found: bool,
}

/// Looks whether the commit at `ancestor` is an ancestor of the one at `descendant`, which then
/// leads to it along parents, as each commit leads to itself. The graph has to be one that
/// `cg_open_checked` opened.
pub fn cg_is_ancestor(alloc: Global, graph: CgGraph, ancestor: u32, descendant: u32) -> CgLeads
    ensures answer { result.code ≡ 0 → IsSomeAnd graph.address.held (λ held.
        IsTrue result.found ↔ Reaches (history_of held.0) descendant ancestor) }
    ensures nowhere { result.code ≡ no_such_position ↔ IsChecked graph.address.held (λ layers.
        (total layers ≤ ancestor) ⊎ (total layers ≤ descendant)) }
    ensures unchecked { result.code ≡ not_checked ↔ IsSomeAnd graph.address.held (λ held.
        held.1 ≡ false) }
    ensures closed { result.code ≡ closed_graph ↔ graph.address.held ≡ None }
    ensures memory { result.code ≡ out_of_memory → IsChecked graph.address.held (λ layers.
        (descendant ≢ ancestor) × MayLead (history_of layers) descendant ancestor) }
    ensures codes { result.code ≤ 4 }
    ensures nothing { result.code ≢ 0 → result.found ≡ false }
{
    let Some(opened) = graph.opened() else {
        return untold(CLOSED_GRAPH);
    };
    let Some(checked) = opened.as_checked() else {
        return untold(NOT_CHECKED);
    };
    let commits = checked.graph().num_commits();
    if ancestor >= commits || descendant >= commits {
        return untold(NO_SUCH_POSITION);
    }
    match opened.is_ancestor(alloc, Position(ancestor), Position(descendant)) {
        Ok(found) => CgLeads { code: 0, found },
        Err(_) => untold(OUT_OF_MEMORY),
    }
}

/// Tells an answer, and writes the positions of its walk.
pub(crate) fn tell(reached: &Reached, out: &mut [u32]) -> CgReached
    ensures code { result.code ≡ 0 }
    ensures tells { TellsWalk reached.now result out.old out.new }
{
    let length = match &reached.walk {
        Some(walk) => {
            write_positions(walk.as_slice(), out);
            walk.len() as u64
        }
        None => 0,
    };
    CgReached {
        code: 0,
        visits: reached.visits,
        length,
    }
}

/// An answer that tells of no walk.
pub(crate) fn refused(code: u32) -> CgReached
    ensures code { result.code ≡ code }
    ensures nothing { (result.visits ≡ 0) × (result.length ≡ 0) }
{
    CgReached {
        code,
        visits: 0,
        length: 0,
    }
}

/// An answer that tells nothing.
pub(crate) fn untold(code: u32) -> CgLeads
    ensures code { result.code ≡ code }
    ensures nothing { result.found ≡ false }
{
    CgLeads { code, found: false }
}
