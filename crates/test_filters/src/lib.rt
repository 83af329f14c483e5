//! Tests of changed-path filters, by those that Git writes for the same trees, and of their check
//! against the trees.
//!
//! The module `tables` has trees and filters, and `graphs` a history with filters.
#![tactic(auto)]

#[cfg(test)]
mod asking;
#[cfg(test)]
mod checks;
#[cfg(test)]
mod filters;
#[cfg(test)]
mod fixtures;
#[cfg(test)]
mod graphs;
#[cfg(test)]
mod tables;
