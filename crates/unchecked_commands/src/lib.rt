//! The questions of `historytool` about a graph that is trusted, over any folder and writer: its
//! files are read by parts, and not checked. What shows a graph that is not right is answered by
//! the command that checks it.
//!
//! [`run`] has the commands, and [`by_parts`] answers questions over one graph.
#![tactic(auto)]

pub mod by_parts;
pub mod law;
pub mod run;
