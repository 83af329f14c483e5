//! Tests of commands that no run of a program can be: folders and memory that fail at one call,
//! files that change between two reads, and reads that are counted.
//!
//! What the programs answer is tested by the tables of `suites/real_data`. [`fixtures`] has the
//! folder of graphs that the commands are asked about, and [`watched`] folders that count what is
//! asked of them, that change, and that find no memory.
#![tactic(auto)]

#[cfg(test)]
mod failing;
#[cfg(test)]
mod fixtures;
#[cfg(test)]
mod lines;
#[cfg(test)]
mod near;
#[cfg(test)]
mod reads;
#[cfg(test)]
mod watched;
