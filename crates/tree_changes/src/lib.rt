//! What changes from one tree to another: the paths whose leaves are not alike.
//!
//! Trees are read from a source, by their ids, and only where both sides differ. Nothing here
//! calls itself: the trees that lead to a path lie on the heap.
#![tactic(auto)]

mod changes;
mod in_turn;
mod level;
mod source;
mod trees;
mod walk;

pub use changes::{Limits, Refusal, changed_paths};
pub use in_turn::ChangesInTurn;
pub use source::TreeSource;
