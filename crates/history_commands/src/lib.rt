//! The commands of `historytool` about graphs that are checked, over any folder and writer: what is
//! asked of the history of a commit-graph, by the ids of two commits or more; and the check of its
//! dates and filters.
//!
//! [`run`] has the commands: the contract of each says what it may write, and with which exit
//! status. [`asker`] answers questions over one graph, and a [`SpelledQuestion`] is one that the
//! words of a command ask. A refusal of a question is one that `graphtool ancestor` may give, in
//! the same line.
#![tactic(auto)]

pub mod asker;
mod check;
mod dates;
mod found;
pub mod opening;
pub mod run;
mod spelled;
mod words;

pub use check::{CheckRefusal, ChunksFound, check_chunks};
pub use spelled::SpelledQuestion;
