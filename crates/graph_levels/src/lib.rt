//! Generation numbers and corrected dates of new commits on top of others ("topological level" and
//! "corrected commit date" in Git's commit-graph design).
//!
//! [`levels`] computes both in linear time, whatever the order in which the commits come, or names
//! a commit that lies on a cycle.
#![tactic(auto)]

mod level;
mod lists;
mod oldest;
mod search;

pub use level::{Level, LevelsError};
pub use lists::ParentLists;
pub use search::levels;
