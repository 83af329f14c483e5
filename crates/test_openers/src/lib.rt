//! Tests of what no contract says of folders, of the lines of a chain file, and of the openers:
//! that they succeed where nothing is in the way, and what they answer of files on disk.
//!
//! The module `fixtures` has what several tests share.
#![tactic(auto)]

#[cfg(test)]
mod changing;
#[cfg(test)]
mod failing;
#[cfg(test)]
mod fixtures;
#[cfg(test)]
mod folders;
#[cfg(test)]
mod kinds;
#[cfg(test)]
mod lines;
#[cfg(test)]
mod on_disk;
#[cfg(test)]
mod reads;
#[cfg(test)]
mod starved;
