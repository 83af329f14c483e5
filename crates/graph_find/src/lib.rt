//! The search for an id in commit-graph files of which only parts are read: of each layer its first
//! bytes, the ids that begin with the same byte, and the record of the commit that is found.
#![tactic(auto)]

mod answer;
mod bucket;
pub mod chain;
pub mod head;
mod layer;
pub mod reading;
pub mod search;
