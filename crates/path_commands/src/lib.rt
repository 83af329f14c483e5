//! The command of `historytool` that holds the changed-path filters of a graph against the trees of
//! its commits, which are asked for while the command runs, over any folder, reader and writer.
//!
//! [`run_paths`] is the command: its contract says what it may write, and with which exit status.
//! What is asked for goes to `git cat-file --batch`, which answers into the reader; an empty line
//! ends it, and then the answer comes ("BATCH OUTPUT" of its manual).
#![tactic(auto)]

mod quoted;
mod refusal;
mod run;
mod standard;

pub use refusal::PathsRefusal;
pub use run::run_paths;
pub use standard::Standard;
