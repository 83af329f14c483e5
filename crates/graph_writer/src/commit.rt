//! What is handed in, and why it is refused.

use gix_commitgraph::Position;
use gix_hash_core::ObjectId;
use graph_chunks::dates::DatesError;
use std::alloc::AllocError;
use thiserror::Error;

/// A commit that a layer is to have.
#[derive(Debug, Drop)]
pub struct NewCommit {
    /// The commit's own id.
    pub id: ObjectId,
    /// The id of its root tree.
    pub tree: ObjectId,
    /// The ids of its parents, first parent first.
    pub parents: Vec<ObjectId>,
    /// The committer's time, in seconds since 1970-01-01 00:00:00 UTC.
    pub time: u64,
}

/// Why no layer is written: the first of these that holds. The first four are looked for together,
/// commit by commit, and each of the others over all commits. Commits are named by their numbers
/// among those handed in, and a commit's parents by their numbers among its own; both count from 0.
/// Displayed as the name of the variant.
#[derive(Clone, Copy, Debug, PartialEq, Eq, Error)]
pub enum WriteError {
    /// An id of this commit, its own or that of its tree or of a parent, is of another kind than
    /// the first commit's, or than the graph below.
    #[error("Kind")]
    Kind(usize),
    /// The id of this commit is null.
    #[error("NullId")]
    NullId(usize),
    /// The id of this commit's root tree is null.
    #[error("NullTree")]
    NullTree(usize),
    /// The time of this commit is 2^34 or more. Git would store its low bits.
    #[error("Time")]
    Time(usize),
    /// The id of this commit is that of the second, an earlier one.
    #[error("Twice")]
    Twice(usize, usize),
    /// The id of this commit stands in the graph below, first at this position.
    #[error("Below")]
    Below(usize, Position),
    /// With the graph below there are more than 1,879,048,191 commits.
    #[error("TooManyCommits")]
    TooManyCommits,
    /// The parent of this number of this commit is neither handed in nor in the graph below.
    #[error("Parent")]
    Parent(usize, usize),
    /// No commit is handed in. Git writes no file then.
    #[error("Nothing")]
    Nothing,
    /// The corrected dates of the graph below are wrong, or cannot be read.
    #[error("Dates")]
    Dates(DatesError),
    /// This commit is its own proper ancestor. Where several are, it may be any of them.
    #[error("Cycle")]
    Cycle(usize),
    /// The graph below has 256 layers, so that no file can name all of them ("HEADER").
    #[error("TooManyLayers")]
    TooManyLayers,
    /// The parents from the second on of commits with more than two are 2^31 or more, so that no
    /// record can name all of their places ("Extra Edge List").
    #[error("TooManyEdges")]
    TooManyEdges,
    /// An allocation failed.
    #[error("OutOfMemory")]
    OutOfMemory,
}

impl From<AllocError> for WriteError {
    ghost use Rattle.std.specs.Prelude.{◌≡◌};
    ghost use Rattle.graph_writer.specs.declared.commit.WriteError.TheVariants.{OutOfMemory};

    ghost from_gives = { λ _ error. error ≡ OutOfMemory };

    fn from(_: AllocError) -> WriteError {
        WriteError::OutOfMemory
    }
}
