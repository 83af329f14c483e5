//! What a commit and some others have in common, and how far they have come apart.

use graph_format::Position;

/// The merge bases of a commit and some others.
#[derive(Debug, Drop)]
pub struct Bases {
    /// Each once, the least position first.
    pub positions: Vec<Position>,
    /// How many commits were visited: taken from the queue of the search. A commit at the cap may
    /// have been visited up to three times.
    pub visits: u64,
}

/// How far a commit and some others have come apart.
#[derive(Clone, Copy, Debug, PartialEq, Eq)]
pub struct Divergence {
    /// How many commits the first leads to, and none of the others does.
    pub ahead: u32,
    /// How many commits some of the others leads to, and the first does not.
    pub behind: u32,
}

/// What a commit and some others have in common, and how far they have come apart.
#[derive(Debug, Drop)]
pub struct Comparison {
    /// The merge bases.
    pub bases: Bases,
    /// How many commits are on one side alone.
    pub divergence: Divergence,
}
