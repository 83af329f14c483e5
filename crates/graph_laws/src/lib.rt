//! What the bytes of a commit-graph file follow from. The crate has no code but its laws, each a
//! function that does nothing, whose contract is what holds.
#![tactic(auto)]

pub mod law;
