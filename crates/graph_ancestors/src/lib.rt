//! Walks along parents to ancestors, in a graph in memory.
//!
//! [`InMemory`] is a graph in memory as a source of commits, over which an [`AnySearcher`] looks
//! for walks from one commit to another. A [`Searcher`] does so in a graph that [`check`] accepts.
//! The generation numbers of such a graph are right, so its answers are exact.
#![tactic(auto)]

mod checking;
pub mod commits;
mod in_memory;
mod searcher;

pub use checking::{NoFault, check};
pub use commit_search::{AnySearcher, CommitSource, Reached, law};
pub use in_memory::InMemory;
pub use searcher::Searcher;
