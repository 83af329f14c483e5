//! Whether the record of a commit says what the bytes of the commit's object say.

ghost use Rattle.std.specs.Prelude.{◌≡◌, ◌≢◌, ◌↔◌, ◌≤◌, ◌⊎◌, IsSomeAnd, None};
ghost use Rattle.gix_commitgraph.specs.Graph.{total};
ghost use Rattle.graph_objects.specs.Matching.{MatchesAt};
ghost use Rattle.c_opening.specs.Answers.{layers_of};
ghost use Rattle.c_opening.specs.Codes.{closed_graph, no_such_position};
ghost use Rattle.commitgraph_c.specs.Matched.{TellsMismatch, matched_code, told_mismatch};

use c_opening::CgGraph;
use c_opening::codes::{CLOSED_GRAPH, NO_SUCH_POSITION};
use gix_commitgraph::Position;
use graph_objects::{Mismatch, matches};

/// What differs first between a record and the bytes of its commit, if anything does.
#[repr(C)]
#[derive(Clone, Copy)]
pub struct CgMatched {
    /// 0 where nothing differs, else the number of what does, or of why nothing was compared.
    pub code: u32,
    /// The parent that differs.
    pub parent: u64,
}

/// Compares what the graph says of the commit at a position with the contents of a commit object,
/// whose digest has to be the commit's id.
pub fn cg_matches(graph: CgGraph, pos: u32, contents: &[u8]) -> CgMatched
    ensures matches { result.code ≡ 0 → IsSomeAnd (layers_of graph.address.held) (λ layers.
        MatchesAt layers pos contents.now) }
    ensures differs { result.code ≢ 0 → result.code ≢ no_such_position
        → result.code ≢ closed_graph → IsSomeAnd (layers_of graph.address.held) (λ layers.
        TellsMismatch layers pos contents.now result) }
    ensures nowhere { result.code ≡ no_such_position
        ↔ IsSomeAnd (layers_of graph.address.held) (λ layers. total layers ≤ pos) }
    ensures closed { result.code ≡ closed_graph ↔ layers_of graph.address.held ≡ None }
    ensures nothing { (result.code ≡ 0) ⊎ ((result.code ≡ no_such_position)
        ⊎ (result.code ≡ closed_graph)) → result ≡ matched_code result.code }
{
    let Some(graph) = graph.graph() else {
        return told(CLOSED_GRAPH);
    };
    if pos >= graph.num_commits() {
        return told(NO_SUCH_POSITION);
    }
    match matches(graph, Position(pos), contents) {
        Ok(()) => told(0),
        Err(mismatch) => differs(mismatch),
    }
}

/// Tells a code alone.
fn told(code: u32) -> CgMatched
    ensures { result ≡ matched_code code }
{
    CgMatched { code, parent: 0 }
}

/// Tells what differs.
fn differs(mismatch: Mismatch) -> CgMatched
    ensures { result ≡ told_mismatch mismatch }
{
    match mismatch {
        Mismatch::OtherContents => told(606),
        Mismatch::Unreadable => told(607),
        Mismatch::Tree => told(608),
        Mismatch::Parent { index } => CgMatched {
            code: 609,
            parent: index,
        },
        Mismatch::Time => told(610),
    }
}
