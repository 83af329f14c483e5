//! Tests of questions, one a line, that no run of a program can be: writers that are flushed, and
//! reads of a folder that fail.
//!
//! What the programs answer is tested by the tables of `suites/real_data`. [`fixtures`] has the
//! folder of graphs that are asked about.
#![tactic(auto)]

#[cfg(test)]
mod asking;
#[cfg(test)]
mod fixtures;
