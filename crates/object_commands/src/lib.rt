//! The commands of `historytool` that hold a commit-graph against its commits, over any folder,
//! reader and writer: [`run_ids`] writes the ids to ask `git cat-file --batch` for, and
//! [`run_objects`] compares the graph with what that writes.
//!
//! The contract of each says what it may write, and with which exit status.
#![tactic(auto)]

mod ids;
mod objects;
mod range;
mod refusal;

pub use ids::run_ids;
pub use objects::run_objects;
pub use range::{PositionRange, number_in};
pub use refusal::ObjectsRefusal;
