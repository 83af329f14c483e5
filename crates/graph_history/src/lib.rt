//! Commit-graphs that were checked and are right, as types, and what may be asked of them.
//!
//! A [`Checked`] borrows a graph, and a [`CheckedGraph`] owns it. Both are made by a check alone.
//! Where the files were written anew, [`Checked::reload`] checks only the layers that are new. A
//! checked graph says of each of its commits what the file says, and whether one commit is an
//! ancestor of another, and by which shortest walk along parents. A [`Searcher`] answers many such
//! queries over one memory. A checked graph also says which merge bases some commits have, and how
//! far they have come apart: a [`Comparison`] is both, and a [`Comparer`] makes many of them over
//! one memory; an [`AnyComparer`] over any source of commits. Queries rely on the generation
//! numbers, which the check has found right, and leave out each commit whose number is too low to
//! lead to the one that is looked for ("topological level" in Git's commit-graph design).
//! Comparisons may also go by corrected dates, where a graph has right ones.
#![tactic(auto)]

mod access;
mod bases;
mod checked;
mod dates;
pub mod law;
mod limit;
mod limited;
mod lower;
mod owned;
mod parents;
mod reload;
mod shared;
mod within;

pub use bases::Comparer;
pub use checked::Checked;
pub use graph_ancestors::{NoFault, Reached, Searcher};
pub use graph_bases::{AnyComparer, Bases, Comparison, Divergence};
pub use limit::{Flag, Limit, LimitError, Stopped};
pub use owned::{CheckedGraph, PushError};
pub use parents::ParentPositions;
pub use reload::Reloaded;
