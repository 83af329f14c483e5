//! Tests of ids, of tables of chunks and of one layer, by values that the formats and arithmetic
//! give: which files open, what is read of them and of their commits, where their ids are found,
//! and what a check of one layer answers.
//!
//! The module `fixtures` has what several tests share.
#![tactic(auto)]

#[cfg(test)]
mod building;
#[cfg(test)]
mod chunk_tables;
#[cfg(test)]
mod commits;
#[cfg(test)]
mod fixtures;
#[cfg(test)]
mod ids;
#[cfg(test)]
mod lookups;
#[cfg(test)]
mod opening;
#[cfg(test)]
mod parents;
#[cfg(test)]
mod positions;
#[cfg(test)]
mod reading;
#[cfg(test)]
mod traversing;
