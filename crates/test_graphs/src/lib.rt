//! Tests of what no contract says of ids, commits' bytes, layers, graphs and the examples of calls:
//! texts, that calls succeed, and how long one takes.
//!
//! The module `fixtures` has what several tests share.
#![tactic(auto)]

#[cfg(test)]
mod digests;
#[cfg(test)]
mod examples;
#[cfg(test)]
mod fixtures;
#[cfg(test)]
mod pushing;
#[cfg(test)]
mod texts;
