//! The commands of `graphtool`, over any folder, reader and writer.
//!
//! [`command`] has the words that ask for each command, and [`program`] what both programs do with
//! it. [`run`] has the commands: the contract of each says what it may write, and with which exit
//! [`status`]. [`refusal`] has the line that says why a command was refused, [`report`] the lines
//! of what a check and a search found, [`line`] writes a line whole, and [`buffer`] gathers many.
#![tactic(auto)]

mod ancestor;
pub mod buffer;
mod bytes;
pub mod command;
pub mod find;
mod input_error_numbers;
pub mod line;
mod listing;
pub mod program;
pub mod refusal;
pub mod report;
pub mod run;
pub mod status;
