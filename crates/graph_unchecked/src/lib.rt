//! Questions about commits of a graph that is trusted: its files are read by parts, unchecked.
#![tactic(auto)]

mod base;
mod dates;
mod fields;
mod ids;
pub mod law;
mod lookup;
mod reads;
mod record;
mod search;
pub mod source;
pub mod trusted;
pub mod unread;
