//! Commits that a base and the newer commits lack, asked for by their ids: `git cat-file --batch`
//! reads the ids and writes the commits ("BATCH OUTPUT" of its manual).
//!
//! [`complete`] goes on to the parents that are lacking, until none is, and adds each commit after
//! its parents. No id is asked for twice.
#![tactic(auto)]

mod add;
mod completing;
mod error;
mod gather;
mod held;
mod lists;
mod order;

pub use completing::complete;
pub use error::CompleteError;
