//! The commands of `historytool` about commits of a checked graph, or of none, and of newer ones,
//! which are asked for while the command runs, over any folder, reader and writer.
//!
//! [`run`] has the commands: the contract of each says what it may write, and with which exit
//! status. What is asked for goes to `git cat-file --batch`, which answers into the reader; an
//! empty line ends it, and then the answer comes ("BATCH OUTPUT" of its manual). [`verdict`] tells
//! what was found, or why nothing is told.
#![tactic(auto)]

mod answer;
mod ids;
mod refusal;
pub mod run;
pub mod verdict;

pub use refusal::NewerRefusal;
