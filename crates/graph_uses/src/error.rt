//! Why a question about a commit-graph has no answer.

use gix_commitgraph::opening::OpenError;
use gix_commitgraph::verify::VerifyError;
use gix_hash_core::IdError;
use graph_history::NoFault;
use std::alloc::AllocError;
use thiserror::Error;

/// Why a question about the commit-graph at a path has no answer.
#[derive(Debug, Drop, PartialEq, Eq, Error)]
pub enum QueryError {
    /// No graph was opened.
    #[error("the graph was not opened: {0}")]
    Open(OpenError),
    /// The graph failed its check.
    #[error("the graph failed its check: {0}")]
    Check(VerifyError<NoFault>),
    /// The text spells no id.
    #[error("the text spells no id: {0}")]
    Id(IdError),
    /// An allocation failed.
    #[error("out of memory")]
    OutOfMemory(AllocError),
}
