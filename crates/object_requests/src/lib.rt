//! Objects that are asked for while they are read: ids out, a line each, and entries in, as
//! `git cat-file --batch` reads and writes them ("BATCH OUTPUT" of its manual).
//!
//! No id is asked for twice that was not forgotten, at most 64 are asked for ahead, and the
//! contents of each entry that is taken have the id that was asked for.
#![tactic(auto)]

mod error;
mod requests;

pub use error::{AskError, RequestError};
pub use requests::Requests;
