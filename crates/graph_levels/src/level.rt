//! What is computed of a commit.

use std::alloc::AllocError;

/// The generation number and the corrected date of a commit.
#[derive(Clone, Copy, Debug, Drop, PartialEq, Eq)]
pub struct Level {
    /// How many commits the longest walk along parents has, up to 1,073,741,823.
    pub generation: u32,
    /// The corrected date, in seconds since 1970-01-01 00:00:00 UTC.
    pub date: u64,
}

/// Why there are no levels.
#[derive(Clone, Copy, Debug, PartialEq, Eq, Drop)]
pub enum LevelsError {
    /// The commit at this position is its own proper ancestor.
    Cycle(u32),
    /// An allocation failed.
    OutOfMemory,
}

impl From<AllocError> for LevelsError {
    ghost use Rattle.std.specs.Prelude.{◌≡◌};
    ghost use Rattle.graph_levels.specs.declared.level.LevelsError.TheVariants.{OutOfMemory};

    ghost from_gives = { λ _ error. error ≡ OutOfMemory };

    fn from(_error: AllocError) -> LevelsError {
        LevelsError::OutOfMemory
    }
}

/// What a search knows of a commit.
#[derive(Clone, Copy, Debug, Drop)]
pub(crate) enum State {
    /// Nothing yet.
    Unseen,
    /// Its parents are being gone through.
    Open,
    /// Its level.
    Done(Level),
}

/// A commit whose parents are being gone through.
#[derive(Clone, Copy, Debug, Drop)]
pub(crate) struct Frame {
    /// The number of the commit among the new ones.
    pub(crate) commit: usize,
    /// The number of its parent that is looked at next: those before have their levels.
    pub(crate) next: usize,
}

/// A commit to which a visit is made, and what the visit reads of it.
#[derive(Clone, Copy, Debug, Drop)]
pub(crate) struct Visit<'a> {
    /// The number of the commit among the new ones.
    pub(crate) commit: usize,
    /// The positions of its parents.
    pub(crate) parents: &'a [u32],
    /// Its time.
    pub(crate) time: u64,
}
