//! Questions about a graph that is trusted, one a line: its files are read by parts, and not
//! checked.
//!
//! [`trusting`] has the command: its contract says what it may write. The private module `asker`
//! has what answers a question. What shows a graph that is
//! not right is answered by a check of it.
#![tactic(auto)]

mod asker;
pub mod trusting;
