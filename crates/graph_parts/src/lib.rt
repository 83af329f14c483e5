//! The commits of commit-graph files of which only parts are read: of each layer its first bytes,
//! and ids, records and words of the extra edge list, which are kept.
#![tactic(auto)]

mod guesses;
mod layer;
mod lookup;
mod offsets;
pub mod opening;
pub mod parts;
mod pieces;
