//! The commands of `historytool` about commits of a graph that is trusted, of whose files parts are
//! read, and of newer ones, which are asked for while the command runs, over any folder, reader and
//! writer.
//!
//! [`run`] has the commands. Where parts do not suffice to begin, the command of `newer_commands`
//! answers that checks the graph.
#![tactic(auto)]

mod by_parts;
pub mod run;
