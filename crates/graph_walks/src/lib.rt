//! Walks along the parents of commits, and what generation numbers and corrected dates say of them.
//!
//! A history is a list of commits, each with its generation number and the positions of its
//! parents. It need not come from a file, and may have cycles. The only code is laws, which join
//! what each number says beside those of the parents and what it says of whole walks.
#![tactic(auto)]

pub mod law;

/// The greatest generation number that a commit-graph file can hold. Commits with longer walks
/// along parents have it too.
pub const GENERATION_NUMBER_MAX: u32 = 0x3fff_ffff;
