//! The command `show` of `historytool`, over any folder and writer: what the layers of a
//! commit-graph say of themselves, and whether the whole is right.
#![tactic(auto)]

mod checking;
mod layer;
pub mod run;
