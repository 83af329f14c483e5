//! Commit objects: what the bytes of one say (its root tree, its parents, its time), and its id.
//!
//! Nothing here allocates.
#![tactic(auto)]

mod digest;
mod hex_id;
pub mod law;
mod line;
mod parents;
mod parse;
mod time;
mod written;

pub use digest::object_id;
pub use parents::Parents;
pub use parse::{CommitObject, Unreadable};
pub use time::{leading_number, older_time};
pub use written::{behind_line, spells};
