//! Tests of objects and commits that are asked for, that no contract can say: entries that Git
//! wrote, readers that give little at a time, end early or fail, writers that are flushed or fail,
//! and questions about the commits.
#![tactic(auto)]

#[cfg(test)]
mod answering;
#[cfg(test)]
mod asking;
#[cfg(test)]
mod completing;
#[cfg(test)]
mod fixtures;
#[cfg(test)]
mod history;
#[cfg(test)]
mod tables;
#[cfg(test)]
mod telling;
#[cfg(test)]
mod trees;
