//! Where commit-graph files are read from: folders on disk and in memory, whole reads, and the
//! lines of a chain file.
#![tactic(auto)]

pub mod chain;
pub mod folder;
mod law;

pub use law::texts_are_cut_into_lines;
