//! Merge bases of many pairs of commits, in one call, in a graph that was checked.

ghost use Rattle.std.specs.Prelude.{◌≡◌, ◌↔◌, ◌<◌, ◌≤◌, ◌⊎◌, ◌∷◌, [], false, true, length, min};
ghost use Rattle.std.specs.Prelude.{IfErr, IfOk, IfSome, IsSomeAnd, None, slice_get, take};
ghost use Rattle.gix_commitgraph.specs.Graph.{total};
ghost use Rattle.commitgraph_c.specs.QueryAnswers.{IsChecked};
ghost use Rattle.c_opening.specs.Codes.{closed_graph, no_such_position, not_checked};
ghost use Rattle.c_opening.specs.Codes.{out_of_memory};
ghost use Rattle.c_opening.specs.ComparisonOrder.{IsOrderedComparison};
ghost use Rattle.commitgraph_c.specs.Compared.{AreNotTwo, AreTwo, TellsCompared};

use crate::bases::{CgBases, tell};
use c_opening::codes::{CLOSED_GRAPH, NO_SUCH_POSITION, NOT_CHECKED, OUT_OF_MEMORY};
use c_opening::{CgGraph, Opened};
use gix_commitgraph::Position;
use graph_history::{Checked, Comparer, Comparison};
use std::alloc::Global;

/// Two commits of a graph, by their positions.
#[repr(C)]
#[derive(Clone, Copy)]
pub struct CgTwo {
    pub first: u32,
    pub other: u32,
}

/// How many pairs were compared.
#[repr(C)]
#[derive(Clone, Copy)]
pub struct CgCompared {
    /// 0 where all pairs were compared for which there is room; else why not the next one, or any.
    pub code: u32,
    pub answered: u64,
    /// How many merge bases these have together.
    pub length: u64,
}

/// Compares each of these pairs as `cg_merge_bases` does, as long as `answers` has room, and writes
/// the positions of the merge bases, one pair's after another's, as many as there is room for.
/// The graph has to be one that `cg_open_checked` opened.
pub fn cg_merge_bases_of(
    alloc: Global,
    graph: CgGraph,
    pairs: &[CgTwo],
    answers: &mut [CgBases],
    out: &mut [u32],
) -> CgCompared
    ensures answers { IfSome graph.address.held (λ held. held.1 ≡ true
        → TellsCompared held.0 (take result.answered pairs.now) result.length answers.old
        answers.new out.old out.new) }
    ensures all { result.code ≡ 0
        → result.answered ≡ min (length pairs.now) (length answers.old) }
    ensures left { (result.code ≡ no_such_position) ⊎ (result.code ≡ out_of_memory)
        → result.answered < min (length pairs.now) (length answers.old) }
    ensures nowhere { result.code ≡ no_such_position → IsChecked graph.address.held (λ layers.
        IsSomeAnd (slice_get pairs.now result.answered) (AreNotTwo layers)) }
    ensures memory { result.code ≡ out_of_memory → IsChecked graph.address.held (λ layers.
        IsSomeAnd (slice_get pairs.now result.answered) (AreTwo layers)) }
    ensures unchecked { result.code ≡ not_checked ↔ IsSomeAnd graph.address.held (λ held.
        held.1 ≡ false) }
    ensures closed { result.code ≡ closed_graph ↔ graph.address.held ≡ None }
    ensures codes { result.code ≤ 4 }
    ensures kept { (result.code ≡ not_checked) ⊎ (result.code ≡ closed_graph)
        → (result.answered ≡ 0) × (result.length ≡ 0)
        × (answers.new ≡ answers.old) × (out.new ≡ out.old) }
{
    let Some(opened) = graph.opened() else {
        return uncompared(CLOSED_GRAPH);
    };
    match opened.as_checked() {
        Some(checked) => compare_pairs(alloc, opened, &checked, pairs, answers, out),
        None => uncompared(NOT_CHECKED),
    }
}

/// Compares pairs of commits of an open graph that is right, one after another, by one comparer.
fn compare_pairs(
    alloc: Global,
    opened: &Opened,
    graph: &Checked<'_>,
    pairs: &[CgTwo],
    answers: &mut [CgBases],
    out: &mut [u32],
) -> CgCompared
    requires { graph.now.layers ≡ opened.now.0 }
    ensures answers { TellsCompared graph.now.layers (take result.answered pairs.now) result.length
        answers.old answers.new out.old out.new }
    ensures all { result.code ≡ 0
        → result.answered ≡ min (length pairs.now) (length answers.old) }
    ensures left { (result.code ≡ no_such_position) ⊎ (result.code ≡ out_of_memory)
        → result.answered < min (length pairs.now) (length answers.old) }
    ensures nowhere { result.code ≡ no_such_position
        → IsSomeAnd (slice_get pairs.now result.answered) (AreNotTwo graph.now.layers) }
    ensures memory { result.code ≡ out_of_memory
        → IsSomeAnd (slice_get pairs.now result.answered) (AreTwo graph.now.layers) }
    ensures codes { (result.code ≡ 0) ⊎ ((result.code ≡ no_such_position)
        ⊎ (result.code ≡ out_of_memory)) }
{
    let places = pairs.len().min(answers.len());
    let mut comparer = Comparer::new(alloc, graph);
    let mut length: u64 = 0;
    for place in 0..places {
        match compare_two(alloc, opened, &mut comparer, pairs[place]) {
            Ok(comparison) => {
                let used = length.min(out.len() as u64) as usize;
                let answer = tell(&comparison, &mut out[used..]);
                answers[place] = answer;
                length = length.saturating_add(answer.length);
            }
            Err(code) => {
                return CgCompared {
                    code,
                    answered: place as u64,
                    length,
                };
            }
        }
    }
    CgCompared {
        code: 0,
        answered: places as u64,
        length,
    }
}

/// Compares two commits; or why not, where a position is none of the graph's, or memory ran out.
fn compare_two(
    alloc: Global,
    opened: &Opened,
    comparer: &mut Comparer<'_, '_>,
    two: CgTwo,
) -> Result<Comparison, u32>
    requires { comparer.old.layers ≡ opened.now.0 }
    ensures graph { comparer.new ≡ comparer.old }
    ensures exact { IfOk result (IsOrderedComparison comparer.old.layers two.first
        (two.other ∷ [])) }
    ensures refused { IfErr result (λ code.
        ((code ≡ no_such_position) × AreNotTwo comparer.old.layers two)
        ⊎ ((code ≡ out_of_memory) × AreTwo comparer.old.layers two)) }
{
    let commits = comparer.graph().num_commits();
    if two.first >= commits || two.other >= commits {
        return Err(NO_SUCH_POSITION);
    }
    let (first, other) = (Position(two.first), Position(two.other));
    match opened.compare(alloc, comparer, first, &[other]) {
        Ok(comparison) => Ok(comparison),
        Err(_) => Err(OUT_OF_MEMORY),
    }
}

/// An answer that tells of no pair.
fn uncompared(code: u32) -> CgCompared
    ensures { result ≡ record { code = code; answered = 0; length = 0 } }
{
    CgCompared {
        code,
        answered: 0,
        length: 0,
    }
}
