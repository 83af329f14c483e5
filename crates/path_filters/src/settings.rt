//! How filters are made.

use changed_paths::filters::HashVersion;

/// How the filters of a commit-graph are made.
#[derive(Clone, Copy, Debug)]
pub struct Settings {
    /// The version of the hash. For version 1 the bytes of paths are read as on x86-64, where
    /// `char` has a sign.
    pub version: HashVersion,
    /// How many bits a filter has for each path. (Git writes 10.)
    pub bits: u32,
    /// How many probes a path has. (Git writes 7.)
    pub hashes: u32,
    /// For how many paths a filter is made at most. (For Git 512.)
    pub most: u32,
}
