//! Merge bases, and how far commits have come apart, in a graph that was checked.

ghost use Rattle.std.specs.Prelude.{◌≡◌, ◌≢◌, ◌↔◌, ◌<◌, ◌≤◌, ◌⊎◌, false, All, Any, IsSomeAnd};
ghost use Rattle.std.specs.Prelude.{None};
ghost use Rattle.gix_commitgraph.specs.Graph.{total};
ghost use Rattle.commitgraph_c.specs.QueryAnswers.{IsChecked, TellsBases, TellsComparison};
ghost use Rattle.commitgraph_c.specs.QueryAnswers.{TellsNoBases};
ghost use Rattle.c_opening.specs.Codes.{closed_graph, no_such_position, not_checked};
ghost use Rattle.c_opening.specs.ComparisonOrder.{IsOrderedComparison};

use crate::positions::{are_below, positions_of, write_positions};
use c_opening::CgGraph;
use c_opening::codes::{CLOSED_GRAPH, NO_SUCH_POSITION, NOT_CHECKED, OUT_OF_MEMORY};
use gix_commitgraph::Position;
use graph_history::{Checked, Comparer, Comparison};
use std::alloc::Global;

/// The merge bases of a commit and some others, and how far they have come apart.
#[repr(C)]
#[derive(Clone, Copy)]
pub struct CgBases {
    /// As that of `cg_ancestor_walk`.
    pub code: u32,
    pub ahead: u32,
    pub behind: u32,
    pub visits: u64,
    /// How many merge bases there are.
    pub length: u64,
}

/// Looks for the merge bases of a commit and some others, and writes their positions, the least
/// first, as many as there is room for. The graph has to be one that `cg_open_checked` opened.
pub fn cg_merge_bases(
    alloc: Global,
    graph: CgGraph,
    first: u32,
    others: &[u32],
    out: &mut [u32],
) -> CgBases
    ensures answer { result.code ≡ 0 → IsSomeAnd graph.address.held (λ held.
        TellsBases (IsOrderedComparison held.0 first others.now) result out.old out.new) }
    ensures nowhere { result.code ≡ no_such_position ↔ IsChecked graph.address.held (λ layers.
        (total layers ≤ first) ⊎ Any (λ other. total layers ≤ other) others.now) }
    ensures within { result.code ≡ 0 → IsChecked graph.address.held (λ layers.
        (first < total layers) × All (λ other. other < total layers) others.now) }
    ensures unchecked { result.code ≡ not_checked ↔ IsSomeAnd graph.address.held (λ held.
        held.1 ≡ false) }
    ensures closed { result.code ≡ closed_graph ↔ graph.address.held ≡ None }
    ensures codes { result.code ≤ 4 }
    ensures kept { result.code ≢ 0 → out.new ≡ out.old }
    ensures nothing { result.code ≢ 0 → TellsNoBases result }
{
    let Some(opened) = graph.opened() else {
        return refused(CLOSED_GRAPH);
    };
    let Some(checked) = opened.as_checked() else {
        return refused(NOT_CHECKED);
    };
    let commits = checked.graph().num_commits();
    if first >= commits || !are_below(others, commits) {
        return refused(NO_SUCH_POSITION);
    }
    let Ok(others) = positions_of(alloc, others) else {
        return refused(OUT_OF_MEMORY);
    };
    let mut comparer = Comparer::new(alloc, &checked);
    match opened.compare(alloc, &mut comparer, Position(first), &others) {
        Ok(comparison) => tell(&comparison, out),
        Err(_) => refused(OUT_OF_MEMORY),
    }
}

/// Tells a comparison, and writes the positions of the merge bases.
pub(crate) fn tell(comparison: &Comparison, out: &mut [u32]) -> CgBases
    ensures code { result.code ≡ 0 }
    ensures tells { TellsComparison comparison.now result out.old out.new }
{
    let bases = comparison.bases.positions.as_slice();
    write_positions(bases, out);
    CgBases {
        code: 0,
        ahead: comparison.divergence.ahead,
        behind: comparison.divergence.behind,
        visits: comparison.bases.visits,
        length: bases.len() as u64,
    }
}

/// An answer that tells of no merge base.
pub(crate) fn refused(code: u32) -> CgBases
    ensures code { result.code ≡ code }
    ensures nothing { TellsNoBases result }
{
    CgBases {
        code,
        ahead: 0,
        behind: 0,
        visits: 0,
        length: 0,
    }
}
