//! What a search by parts answers.

/// A commit of a graph.
#[derive(Clone, Copy, Debug, PartialEq, Eq)]
pub struct FoundCommit {
    /// Its position in the graph.
    pub pos: u32,
    /// Its generation number.
    pub generation: u32,
    /// Its time, in seconds since 1970-01-01 00:00:00 UTC.
    pub time: u64,
}

/// What a search by parts answers.
#[derive(Clone, Copy, Debug, PartialEq, Eq)]
pub enum SearchAnswer {
    /// The commit that has the id.
    Found(FoundCommit),
    /// No commit with the id is found.
    Missing,
    /// The graph is to be opened whole: it is refused, or not read by parts, or the parts of a file
    /// stand in another order than Git writes them.
    NotByParts,
}
