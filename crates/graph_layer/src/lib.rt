//! One layer of a commit-graph: opening it, reading what it says, finding its commits, and checking
//! it by itself.
#![tactic(auto)]

pub mod counts;
pub mod faults;
pub mod fields;
pub mod file;
pub mod law;
pub mod lookups;
pub mod opening;
