//! The changed-path filters that Git writes ("Bloom Filter Data" of its commit-graph format): for
//! which paths they have bits, and which bits.
#![tactic(auto)]

mod bits;
mod filter;
pub mod law;
mod settings;
mod touched;

pub use filter::{Bounds, filter_of_paths, path_filter};
pub use settings::Settings;
pub use touched::touched_paths;
