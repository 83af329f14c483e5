//! The commands of `historytool` that write the file of a layer, over any folder, reader and
//! writer. [`read_commits`] reads the commits that `git cat-file --batch` wrote, and [`run_write`]
//! makes a layer of them; [`run_merge`] writes the commits of a graph as one file.
//!
//! The contract of each says what it may answer.
#![tactic(auto)]

mod commit;
mod error;
mod filters;
mod graph_commits;
pub mod law;
mod line;
mod merge;
mod read;
mod refusal;
mod write;

pub use error::CommitsError;
pub use merge::run_merge;
pub use read::read_commits;
pub use refusal::LayerRefusal;
pub use write::run_write;
