//! Merge bases, over any source of commits.
//!
//! An [`AnyComparer`] says which merge bases some commits have, and how far they have come apart: a
//! [`Comparison`] is both. It visits commits with the highest generation numbers first, or those
//! with the highest corrected dates, or any other [`Ranks`]. Where these fall along parents, its
//! answers are exact. Where they do not, it ends all the same, and each base that it answers is a
//! common ancestor.
#![tactic(auto)]

mod any;
mod bases;
pub mod law;
mod paint;
mod painting;
mod passing;
mod sheet;
mod tables;
mod trails;

pub use any::{AnyComparer, CoatComparer, FewComparer};
pub use bases::{Bases, Comparison, Divergence};
pub use commit_search::{GenerationNumbers, Ranks};
pub use paint::{Coat, Paint};
pub use sheet::CoatTable;
pub use tables::{AllCoats, FewCoats};
