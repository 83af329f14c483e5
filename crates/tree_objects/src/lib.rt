//! Tree objects: the entries that the bytes of one are, and their order.
//!
//! Nothing here allocates.
#![tactic(auto)]

mod check;
mod entry;
pub mod law;
mod mode;

pub use check::{TreeError, check_tree};
pub use entry::{Entry, SplitEntry, order, split_entry};
pub use mode::EntryKind;
