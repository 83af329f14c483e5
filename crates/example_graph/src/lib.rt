//! A commit-graph of five commits, for which the definitions of a file, of a right graph and of a
//! refusal hold. Each function is a law: it does nothing, and its contract is what holds.
#![tactic(auto)]

pub mod dates;
pub mod digests;
pub mod layer;
pub mod stream;
