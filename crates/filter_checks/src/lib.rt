//! Whether the changed-path filters of a graph are right ("Bloom Filter Data" of Git's commit-graph
//! format), by the trees of its commits.
//!
//! By a filter, Git passes over a commit that does not touch a path. Where a filter lacks a path
//! that its commit touches, Git leaves the commit out, and says nothing.
#![tactic(auto)]

mod check;
mod commit;
mod lack;
pub mod law;
mod refusal;
mod written;

pub use check::check_filters;
pub use refusal::{FilterRefusal, RefusedFilter};
pub use written::check_written_filters;
