//! Looking ahead to the parents of the commits that are compared next. Their ids stand anywhere in
//! memory, and to wait for many places of it at once takes hardly longer than for one.
//!
//! It is a hint alone: no answer depends on it, so no contract speaks of what comes back.

ghost use Rattle.std.specs.Prelude.{◌≤◌};
ghost use Rattle.gix_commitgraph.specs.Graph.{total};

use gix_commitgraph::{Graph, Position};

/// For how many commits it is done together.
pub(crate) const COMMITS: u32 = 64;

/// For how many parents it is done together: two of each commit, as many may share one long list.
const PARENTS: usize = 128;

/// Reads the ends of the id of each parent of some commits, those at the positions from `from` up
/// to and without `to`, and answers something made of all of these. The parents are known before
/// the first of their ids is read, so that no read waits for another one.
pub(crate) fn look_at_parents(graph: &Graph, from: u32, to: u32) -> u8
    requires { to ≤ total graph.now }
{
    let mut parents = [Position(0); PARENTS];
    let mut count = 0;
    for number in from..to {
        for item in graph.commit_at(Position(number)).iter_parents().take(2) {
            if let Ok(pos) = item {
                if count < PARENTS {
                    parents[count] = pos;
                    count += 1;
                }
            }
        }
    }
    let mut seen = 0;
    for pos in &parents[..count] {
        seen ^= ends_at(graph, *pos);
    }
    seen
}

/// The first and the last byte of the id at a position in one, or 0 where there is none.
fn ends_at(graph: &Graph, pos: Position) -> u8 {
    if pos.0 < graph.num_commits() {
        let id = graph.id_at(pos).as_bytes();
        id[0] ^ id[id.len() - 1]
    } else {
        0
    }
}
