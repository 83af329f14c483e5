//! Why filters are refused.

use gix_commitgraph::Position;
use tree_changes::Refusal;

/// Why the filter of a commit is refused.
#[derive(Debug, Drop)]
pub enum FilterRefusal<E> {
    /// The filter answers this path as absent, and the commit touches it.
    Lacks(Vec<u8>),
    /// What the commit changes is not told.
    Trees(Refusal<E>),
    /// Git writes another filter for what the commit changes.
    Differs,
}

/// A filter that is refused.
#[derive(Debug, Drop)]
pub struct RefusedFilter<E> {
    /// The position of its commit.
    pub pos: Position,
    /// Why.
    pub why: FilterRefusal<E>,
}
