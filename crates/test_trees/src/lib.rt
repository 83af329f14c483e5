//! Tests of trees, of the paths that change between two, and of the filters of these paths, by what
//! Git answers of the same bytes.
//!
//! The module `tables` has the trees, and what Git says of them; `known` a source of trees in
//! memory.
#![tactic(auto)]

#[cfg(test)]
mod changes;
#[cfg(test)]
mod entries;
#[cfg(test)]
mod fixtures;
pub mod known;
#[cfg(test)]
mod tables;
