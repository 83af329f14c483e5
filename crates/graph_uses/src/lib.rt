//! How a Rattle program uses the crates for commit-graphs: it opens a graph and checks it, finds a
//! commit, goes over parents and ancestors, asks several questions of one graph, asks what two
//! commits have in common, and opens a file that it has in memory. `docs/CALLING.md` explains each
//! of these uses with this code.
//!
//! What a question needs, the type of a checked graph brings.
#![tactic(auto)]

pub mod checked;
pub mod comparing;
pub mod error;
pub mod finding;
mod ids;
pub mod in_memory;
pub mod parents;
pub mod query;
pub mod reaching;
pub mod right;
pub mod walking;
