//! The optional chunks of a graph: corrected commit dates ("Generation Data" of Git's commit-graph
//! format), and changed-path filters ("Bloom Filter Data").
#![tactic(auto)]

pub mod dates;
pub mod filters;
