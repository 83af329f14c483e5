//! What is answered to a question about commits, whoever answers it: its lines and its exit status.
//!
//! [`reply`] has the answers, and how they are told at once. [`push`] adds their lines to a buffer.
#![tactic(auto)]

pub mod push;
pub mod reply;
