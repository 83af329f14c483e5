//! Whether a commit-graph says of its commits what the commits themselves say: of one commit, by
//! the bytes of its object; and of all, by a stream of objects as `git cat-file --batch` writes it.
#![tactic(auto)]

ghost use Rattle.std.specs.Prelude.{◌<◌, MatchResult};
ghost use Rattle.gix_commitgraph.specs.Graph.{total};
ghost use Rattle.graph_objects.specs.Matching.{MatchesAt};
ghost use Rattle.graph_objects.specs.Mismatches.{MismatchesAt};

mod ahead;
mod commit;
mod error;
pub mod law;
mod parents;
mod stream;

use commit_objects::object_id;
pub use error::ObjectsError;
use gix_commitgraph::{Graph, Position};
pub use stream::check_objects;
use thiserror::Error;

/// Why what a graph says of a commit is not what some bytes say. Its text is the name of the
/// variant alone.
#[derive(Clone, Copy, Debug, PartialEq, Eq, Error)]
pub enum Mismatch {
    /// The commit's id is not that of the bytes.
    #[error("OtherContents")]
    OtherContents,
    /// The bytes are no commit that Git could read.
    #[error("Unreadable")]
    Unreadable,
    /// The root tree is another.
    #[error("Tree")]
    Tree,
    /// The parent with this number, counted from 0, is another, or only one of both has it.
    #[error("Parent")]
    Parent {
        /// The least number at which the parents differ.
        index: u64,
    },
    /// The time is another.
    #[error("Time")]
    Time,
}

/// Compares what the graph says of the commit at a position, which is below `num_commits()`, with
/// the contents of a commit object. The first thing that differs is the answer, in the order of the
/// variants of [`Mismatch`]. Nothing is allocated.
pub fn matches(graph: &Graph, pos: Position, contents: &[u8]) -> Result<(), Mismatch>
    requires { pos.0 < total graph.now }
    ensures { MatchResult result (λ _. MatchesAt graph.now pos.0 contents.now)
        (MismatchesAt graph.now pos.0 contents.now) }
{
    let kind = graph.object_hash();
    let id = object_id(kind, contents);
    commit::matches_commit(graph, kind, graph.commit_at(pos), &id, contents)
}
