//! Commits newer than a commit-graph, on top of it.
//!
//! A [`Base`] is a source of commits in which these can be found by their ids, as a right graph in
//! memory is. A [`Newer`] is a base with commits on top that it lacks, each added after its parents
//! by the contents of its object. It is a source of commits itself, over which every search runs
//! that runs over the base ("generation number" in Git's commit-graph design).
#![tactic(auto)]

mod add;
mod base;
mod base_or_none;
mod commits;
mod error;
mod found;
mod graph;
mod joined;
pub mod law;
mod lent;
mod newer;
mod parents;
mod ranks;

pub use base::Base;
pub use base_or_none::BaseOrNone;
pub use commits::NewerCommits;
pub use error::AddError;
pub use lent::Lent;
pub use newer::Newer;
pub use ranks::RanksOnTop;
