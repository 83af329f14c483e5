//! Tests of graphs of layers, of their checks, and of queries for ancestors, in small histories
//! whose answers are known.
//!
//! The module `fixtures` has what several tests share.
#![tactic(auto)]

#[cfg(test)]
mod ancestors;
#[cfg(test)]
mod distinct;
#[cfg(test)]
mod fixtures;
#[cfg(test)]
mod graphs;
#[cfg(test)]
mod starts;
#[cfg(test)]
mod verifying;
