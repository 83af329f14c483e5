//! Answers about the commits of a base and of newer ones on top of it, found by their ids.
//!
//! A [`Newer`] is a source of commits, so the searches run over it that run over its base: for
//! walks to ancestors, and for merge bases. Where the generation numbers of the base count walks,
//! each answer is exact. Where they do not, a search ends all the same, and what it names is there.
//!
//! [`Newer`]: newer_commits::Newer
#![tactic(auto)]

mod ancestor;
mod bases;
mod ids;
mod lookup;
mod walk;

pub use ancestor::is_ancestor;
pub use bases::compare;
pub use walk::ancestor_walk;
