//! Writing a layer for C, and the corrected commit dates of a graph, which a layer that is written
//! on top of one goes by.
#![tactic(auto)]

mod dates;
mod new_commits;
mod write;

pub use dates::{CgDates, cg_corrected_dates};
pub use new_commits::CgNewCommit;
pub use write::{CgWriteError, cg_bytes_copy, cg_bytes_free, cg_write};
