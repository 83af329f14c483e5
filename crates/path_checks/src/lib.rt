//! Whether the changed-path filters of a graph are right, by trees that are asked for while the
//! check runs: ids out, a line each, and entries in, as `git cat-file --batch` reads and writes
//! them.
//!
//! A tree that is read has the id that was asked for, and each write but one that failed is a line
//! that asks.
#![tactic(auto)]

mod check;
mod error;
mod lent;
mod settings;
mod told;
mod written;

pub use check::check_by_requests;
pub use error::{PathsError, PathsFault};
pub use written::check_written_by_requests;
