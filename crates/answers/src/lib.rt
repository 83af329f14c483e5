//! What is found of the commits with some ids: the first id that is missing, or what is known of
//! them all.
#![tactic(auto)]

mod answer;
mod comparison;

pub use answer::Answer;
pub use comparison::IdComparison;
