//! The numbers by which programs tell errors and faults.

ghost use Rattle.std.specs.Prelude.{◌≡◌};
ghost use Rattle.graph_format.specs.ErrorNumbers.{chunk_number, file_number, graph_number};
ghost use Rattle.graph_format.specs.ErrorNumbers.{commit_number, parent_number};

use crate::error::{FileError, GraphError};
use crate::fault::CommitFault;
use crate::parents::ParentError;
use gix_chunk_core::ChunkError;

/// The number of a fault of a table of chunks.
pub fn chunk_number(error: &ChunkError) -> u8
    ensures { result ≡ chunk_number error.now }
{
    match error {
        ChunkError::NoChunks => 1,
        ChunkError::TableTooSmall => 2,
        ChunkError::EarlyEnd { .. } => 3,
        ChunkError::Duplicate { .. } => 4,
        ChunkError::OutOfFile { .. } => 5,
        ChunkError::Falling { .. } => 6,
        ChunkError::NoEnd { .. } => 7,
    }
}

/// The number of the reason for which bytes are no layer.
pub fn file_number(error: &FileError) -> u8
    ensures { result ≡ file_number error.now }
{
    match error {
        FileError::TooSmall => 1,
        FileError::Signature => 2,
        FileError::Version(_) => 3,
        FileError::Hash(_) => 4,
        FileError::Chunks(_) => 5,
        FileError::BaseSize => 6,
        FileError::BaseCount => 7,
        FileError::NoCommitData => 8,
        FileError::CommitDataSize => 9,
        FileError::NoFan => 10,
        FileError::FanSize => 11,
        FileError::NoIds => 12,
        FileError::IdsSize => 13,
        FileError::TooManyEdges => 14,
        FileError::Trailer => 15,
        FileError::BaseMissing => 16,
        FileError::FanFalls { .. } => 17,
        FileError::IdCount => 18,
        FileError::RecordCount => 19,
        FileError::OutOfMemory => 20,
    }
}

/// The number of the reason for which layers are no graph.
pub fn graph_number(error: &GraphError) -> u8
    ensures { result ≡ graph_number error.now }
{
    match error {
        GraphError::NoFiles => 1,
        GraphError::TooManyCommits(_) => 2,
        GraphError::HashMismatch { .. } => 3,
        GraphError::OutOfMemory => 4,
    }
}

/// The number of what is wrong with the ids of a commit.
pub fn commit_number(fault: CommitFault) -> u8
    ensures { result ≡ commit_number fault }
{
    match fault {
        CommitFault::NullId => 1,
        CommitFault::Order => 2,
        CommitFault::NullTree => 3,
    }
}

/// The number of a fault of a commit's parents.
pub fn parent_number(error: ParentError) -> u8
    ensures { result ≡ parent_number error }
{
    match error {
        ParentError::SecondWithoutFirst => 1,
        ParentError::FirstIsEdgeIndex => 2,
        ParentError::NoEdgeList => 3,
        ParentError::EdgeOverflow => 4,
    }
}
