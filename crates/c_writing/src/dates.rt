//! The corrected commit dates of a graph.

ghost use Rattle.std.specs.Prelude.{◌≡◌, ◌≢◌, ◌↔◌, ◌⊎◌, All, IsSomeAnd, None, length};
ghost use Rattle.graph_format.specs.OptionalChunks.{HasDates};
ghost use Rattle.c_opening.specs.Answers.{layers_of, written};
ghost use Rattle.c_opening.specs.Codes.{closed_graph, no_dates};
ghost use Rattle.c_writing.specs.ToldDates.{RefusesDates, TellsDates, told_date_fault};
ghost use Rattle.c_writing.specs.ToldDates.{without_dates};

use c_opening::CgGraph;
use c_opening::codes::{CLOSED_GRAPH, NO_DATES, OUT_OF_MEMORY};
use gix_commitgraph::Position;
use graph_chunks::dates::{CorrectedDates, DatesError};
use std::alloc::Global;

/// How many corrected dates there are, or why there are none.
#[repr(C)]
#[derive(Clone, Copy)]
pub struct CgDates {
    /// 0 where there are dates, else the number of why there are none.
    pub code: u32,
    /// The commit whose date is refused.
    pub position: u32,
    /// The layer whose dates are refused.
    pub layer: u64,
    /// The date that is expected of the commit.
    pub expected: u64,
    /// The number of commits, each of which has a date.
    pub length: u64,
}

/// Writes the corrected dates of all commits, in order, as many as there is room for.
pub fn cg_corrected_dates(alloc: Global, graph: CgGraph, out: &mut [u64]) -> CgDates
    ensures found { result.code ≡ 0 → IsSomeAnd (layers_of graph.address.held) (λ layers.
        TellsDates layers result out.old out.new) }
    ensures refused { result.code ≢ 0 → result.code ≢ no_dates → result.code ≢ closed_graph
        → IsSomeAnd (layers_of graph.address.held) (λ layers. RefusesDates layers result) }
    ensures none { result.code ≡ no_dates ↔ IsSomeAnd (layers_of graph.address.held) (λ layers.
        ¬ All HasDates layers) }
    ensures closed { result.code ≡ closed_graph ↔ layers_of graph.address.held ≡ None }
    ensures nothing { (result.code ≡ no_dates) ⊎ (result.code ≡ closed_graph)
        → result ≡ without_dates result.code 0 0 0 }
    ensures kept { result.code ≢ 0 → out.new ≡ out.old }
{
    let Some(graph) = graph.graph() else {
        return without_dates(CLOSED_GRAPH);
    };
    match CorrectedDates::of_graph(alloc, graph) {
        Ok(Some(dates)) => tell(&dates, graph.num_commits(), out),
        Ok(None) => without_dates(NO_DATES),
        Err(error) => refused(error),
    }
}

/// Tells how many dates there are, and writes as many as there is room for.
#[tactic(auto, using(crate::proofs::DateRoom::next_date, crate::proofs::DateRoom::all_that_fit))]
fn tell(dates: &CorrectedDates, commits: u32, out: &mut [u64]) -> CgDates
    requires { length dates.now ≡ commits }
    ensures count { result
        ≡ record { code = 0; position = 0; layer = 0; expected = 0; length = commits } }
    ensures room { out.new ≡ written dates.now out.old }
{
    for place in 0..out.len().min(commits as usize) {
        out[place] = dates.of(Position(place as u32));
    }
    CgDates {
        length: commits as u64,
        ..without_dates(0)
    }
}

/// Tells that there are no dates, and nothing else.
fn without_dates(code: u32) -> CgDates
    ensures { result ≡ without_dates code 0 0 0 }
{
    CgDates {
        code,
        position: 0,
        layer: 0,
        expected: 0,
        length: 0,
    }
}

/// Tells that the dates of a layer are refused.
fn in_layer(code: u32, layer: usize) -> CgDates
    ensures { result ≡ without_dates code 0 layer 0 }
{
    CgDates {
        layer: layer as u64,
        ..without_dates(code)
    }
}

/// Tells that the date of a commit is refused.
fn in_commit(code: u32, pos: Position, expected: u64) -> CgDates
    ensures { result ≡ without_dates code pos.0 0 expected }
{
    CgDates {
        position: pos.0,
        expected,
        ..without_dates(code)
    }
}

/// Tells why dates are refused.
pub(crate) fn refused(error: DatesError) -> CgDates
    ensures { result ≡ told_date_fault error }
{
    match error {
        DatesError::DataSize { layer } => in_layer(401, layer),
        DatesError::OverflowSize { layer } => in_layer(402, layer),
        DatesError::OverflowIndex { pos } => in_commit(403, pos, 0),
        DatesError::TooLarge { pos } => in_commit(404, pos, 0),
        DatesError::Date { pos, expected } => in_commit(405, pos, expected),
        DatesError::OutOfMemory => without_dates(OUT_OF_MEMORY),
    }
}
