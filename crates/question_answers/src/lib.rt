//! Answers to questions, one a line, whoever gives them.
//!
//! An [`asker::Asker`] answers questions about a graph. [`answering`] goes over the lines of an
//! input, up to one that asks for the graph to be opened anew, and [`turn`] has what stands around
//! the answers.
#![tactic(auto)]

pub mod answering;
pub mod asker;
pub mod turn;
