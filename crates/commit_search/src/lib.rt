//! Walks along parents to ancestors, over any source of commits.
//!
//! A [`CommitSource`] says what the commits of a commit-graph say, by their positions. A graph in
//! memory is one, and so may be files of which parts are read as a search goes on. What it says may
//! be wrong, and its reads may fail.
//!
//! An [`AnySearcher`] looks for walks from one commit to another, over any source. It leaves out
//! each commit whose generation number is too low to lead to the one that is looked for
//! ("topological level" in Git's commit-graph design). Where the numbers are right, its answers are
//! exact. Where they are not, it ends all the same, and a walk that it answers is there. By other
//! numbers too, its [`Ranks`], it leaves out a commit where either is too low.
#![tactic(auto)]

mod ahead;
mod ancestor;
mod any;
mod bits;
mod by;
pub mod edges;
mod few;
mod hash_table;
pub mod law;
mod lists;
mod marks;
mod places;
mod ranked;
mod ranks;
mod search;
mod source;
mod walk;
mod within;
mod words;

pub use any::{AnySearcher, FewSearcher, MarkSearcher};
pub use bits::BitMarks;
pub use few::FewMarks;
use graph_format::Position;
pub use marks::{Marked, Marks};
pub use places::Places;
pub use ranks::{GenerationNumbers, Ranks};
pub use source::{CommitSource, SteadySource};

/// The answer of a query for a walk from one commit to another.
#[derive(Debug, Drop)]
pub struct Reached {
    /// A shortest walk, both commits included, or `None` where there is no walk.
    pub walk: Option<Vec<Position>>,
    /// How many commits were visited: taken from the queue of the search.
    pub visits: u32,
}
