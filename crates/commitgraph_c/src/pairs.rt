//! Whether commits lead to others, many pairs in one call, in a graph that was checked.

ghost use Rattle.std.specs.Prelude.{◌≡◌, ◌↔◌, ◌<◌, ◌≤◌, ◌⊎◌, false, true, length, min, None};
ghost use Rattle.std.specs.Prelude.{IfErr, IfOk, IfSome, IsSomeAnd, slice_get};
ghost use Rattle.gix_commitgraph.specs.Graph.{total};
ghost use Rattle.commitgraph_c.specs.QueryAnswers.{IsChecked};
ghost use Rattle.commitgraph_c.specs.Many.{AnswersFirst, AnswersPair, IsNoPair, IsPair};
ghost use Rattle.c_opening.specs.Codes.{closed_graph, no_such_position, not_checked};
ghost use Rattle.c_opening.specs.Codes.{out_of_memory};

use c_opening::CgGraph;
use c_opening::codes::{CLOSED_GRAPH, NO_SUCH_POSITION, NOT_CHECKED, OUT_OF_MEMORY};
use gix_commitgraph::Position;
use graph_history::{Checked, Searcher};
use std::alloc::Global;

/// Two commits of a graph, by their positions: it is asked whether the first is an ancestor of the
/// second.
#[repr(C)]
#[derive(Clone, Copy)]
pub struct CgPair {
    pub ancestor: u32,
    pub descendant: u32,
}

/// How many pairs were answered.
#[repr(C)]
#[derive(Clone, Copy)]
pub struct CgAnswered {
    /// 0 where all pairs were answered for which there is room; else why not the next one, or any.
    pub code: u32,
    pub answered: u64,
}

/// Looks for each of these pairs whether the first commit is an ancestor of the second, as each is
/// of itself, and writes 1 or 0, in the order of the pairs, as long as there is room.
/// The graph has to be one that `cg_open_checked` opened.
pub fn cg_are_ancestors(
    alloc: Global,
    graph: CgGraph,
    pairs: &[CgPair],
    out: &mut [u8],
) -> CgAnswered
    ensures answers { IfSome graph.address.held (λ held. held.1 ≡ true
        → AnswersFirst (AnswersPair held.0) pairs.now result.answered out.old out.new) }
    ensures all { result.code ≡ 0
        → result.answered ≡ min (length pairs.now) (length out.old) }
    ensures left { (result.code ≡ no_such_position) ⊎ (result.code ≡ out_of_memory)
        → result.answered < min (length pairs.now) (length out.old) }
    ensures nowhere { result.code ≡ no_such_position → IsChecked graph.address.held (λ layers.
        IsSomeAnd (slice_get pairs.now result.answered) (IsNoPair layers)) }
    ensures memory { result.code ≡ out_of_memory → IsChecked graph.address.held (λ layers.
        IsSomeAnd (slice_get pairs.now result.answered) (IsPair layers)) }
    ensures unchecked { result.code ≡ not_checked ↔ IsSomeAnd graph.address.held (λ held.
        held.1 ≡ false) }
    ensures closed { result.code ≡ closed_graph ↔ graph.address.held ≡ None }
    ensures codes { result.code ≤ 4 }
    ensures kept { (result.code ≡ not_checked) ⊎ (result.code ≡ closed_graph)
        → (result.answered ≡ 0) × (out.new ≡ out.old) }
{
    let Some(opened) = graph.opened() else {
        return CgAnswered {
            code: CLOSED_GRAPH,
            answered: 0,
        };
    };
    match opened.as_checked() {
        Some(checked) => answer_pairs(alloc, &checked, pairs, out),
        None => CgAnswered {
            code: NOT_CHECKED,
            answered: 0,
        },
    }
}

/// Answers pairs of commits of a right graph, one after another, by one searcher.
#[tactic(auto, using(crate::proofs::ManyRoom::answer_laws))]
fn answer_pairs(alloc: Global, graph: &Checked<'_>, pairs: &[CgPair], out: &mut [u8]) -> CgAnswered
    ensures answers { AnswersFirst (AnswersPair graph.now.layers) pairs.now result.answered out.old
        out.new }
    ensures all { result.code ≡ 0
        → result.answered ≡ min (length pairs.now) (length out.old) }
    ensures left { (result.code ≡ no_such_position) ⊎ (result.code ≡ out_of_memory)
        → result.answered < min (length pairs.now) (length out.old) }
    ensures nowhere { result.code ≡ no_such_position
        → IsSomeAnd (slice_get pairs.now result.answered) (IsNoPair graph.now.layers) }
    ensures memory { result.code ≡ out_of_memory
        → IsSomeAnd (slice_get pairs.now result.answered) (IsPair graph.now.layers) }
    ensures codes { (result.code ≡ 0) ⊎ ((result.code ≡ no_such_position)
        ⊎ (result.code ≡ out_of_memory)) }
{
    let places = pairs.len().min(out.len());
    let mut searcher = graph.searcher(alloc);
    for place in 0..places {
        match answer_pair(&mut searcher, pairs[place]) {
            Ok(answer) => out[place] = answer,
            Err(code) => {
                return CgAnswered {
                    code,
                    answered: place as u64,
                };
            }
        }
    }
    CgAnswered {
        code: 0,
        answered: places as u64,
    }
}

/// Answers a pair with 1 or 0; or why not, where a position is none of the graph's, or memory ran
/// out.
fn answer_pair(searcher: &mut Searcher<'_>, pair: CgPair) -> Result<u8, u32>
    ensures graph { searcher.new ≡ searcher.old }
    ensures answer { IfOk result (AnswersPair searcher.old pair) }
    ensures refused { IfErr result (λ code. ((code ≡ no_such_position) × IsNoPair searcher.old pair)
        ⊎ ((code ≡ out_of_memory) × IsPair searcher.old pair)) }
{
    let commits = searcher.graph().num_commits();
    if pair.ancestor >= commits || pair.descendant >= commits {
        return Err(NO_SUCH_POSITION);
    }
    match searcher.is_ancestor(Position(pair.ancestor), Position(pair.descendant)) {
        Ok(true) => Ok(1),
        Ok(false) => Ok(0),
        Err(_) => Err(OUT_OF_MEMORY),
    }
}
