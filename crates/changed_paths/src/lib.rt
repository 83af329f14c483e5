//! Changed-path filters: for each commit the paths that it changed, as a Bloom filter ("Bloom
//! Filter Index" and "Bloom Filter Data" of Git's commit-graph format), and the hash by which they
//! are asked.
//!
//! A filter can say that a path was not changed. It never says so of a path whose bits were set.
#![tactic(auto)]

pub mod filters;
pub mod key;
pub mod law;
pub mod murmur3;
