//! The numbers by which the library tells causes: each cause has one, the same in all calls.

ghost use Rattle.std.specs.Prelude.{◌≡◌};
ghost use Rattle.c_opening.specs.Codes.{chunk_code, commit_code, fan_byte, file_code};
ghost use Rattle.c_opening.specs.Codes.{graph_code, layer_code, open_code, parent_code};

use gix_chunk_core::ChunkError;
use gix_commitgraph::opening::OpenError;
use gix_commitgraph::verify::{CommitFault, LayerFault};
use gix_commitgraph::{FileError, GraphError};
use graph_format::parents::ParentError;

pub const OUT_OF_MEMORY: u32 = 1;

pub const CLOSED_GRAPH: u32 = 2;

pub const NOT_CHECKED: u32 = 3;

pub const NO_SUCH_POSITION: u32 = 4;

pub const PATH_NOT_UTF8: u32 = 5;

pub const NO_DATES: u32 = 6;

pub const MORE_PARENTS: u32 = 7;

pub const PATH_WANTED: u32 = 8;

pub const NO_SUCH_LAYER: u32 = 9;

pub const STOPPED: u32 = 10;

pub const NO_IDS: u32 = 712;

/// Why the table of chunks is refused.
pub fn chunk_code(error: &ChunkError) -> u32
    ensures { result ≡ chunk_code error.now }
{
    match error {
        ChunkError::NoChunks => 151,
        ChunkError::TableTooSmall => 152,
        ChunkError::EarlyEnd { .. } => 153,
        ChunkError::Duplicate { .. } => 154,
        ChunkError::OutOfFile { .. } => 155,
        ChunkError::Falling { .. } => 156,
        ChunkError::NoEnd { .. } => 157,
    }
}

/// Why bytes are no layer.
pub fn file_code(error: &FileError) -> u32
    ensures { result ≡ file_code error.now }
{
    match error {
        FileError::TooSmall => 101,
        FileError::Signature => 102,
        FileError::Version(_) => 103,
        FileError::Hash(_) => 104,
        FileError::Chunks(error) => chunk_code(error),
        FileError::BaseSize => 106,
        FileError::BaseCount => 107,
        FileError::NoCommitData => 108,
        FileError::CommitDataSize => 109,
        FileError::NoFan => 110,
        FileError::FanSize => 111,
        FileError::NoIds => 112,
        FileError::IdsSize => 113,
        FileError::TooManyEdges => 114,
        FileError::Trailer => 115,
        FileError::BaseMissing => 116,
        FileError::FanFalls { .. } => 117,
        FileError::IdCount => 118,
        FileError::RecordCount => 119,
        FileError::OutOfMemory => OUT_OF_MEMORY,
    }
}

/// Why layers make no graph.
pub fn graph_code(error: &GraphError) -> u32
    ensures { result ≡ graph_code error.now }
{
    match error {
        GraphError::NoFiles => 201,
        GraphError::TooManyCommits(_) => 202,
        GraphError::HashMismatch { .. } => 203,
        GraphError::OutOfMemory => OUT_OF_MEMORY,
    }
}

/// Why no graph was opened at a path.
pub fn open_code(error: &OpenError) -> u32
    ensures { result ≡ open_code error.now }
{
    match error {
        OpenError::NothingFound => 21,
        OpenError::NotOpened => 22,
        OpenError::Device => 23,
        OpenError::ChainNotText { .. } => 24,
        OpenError::Layer { error, .. } => file_code(error),
        OpenError::Graph(error) => graph_code(error),
        OpenError::OutOfMemory => OUT_OF_MEMORY,
    }
}

/// What is wrong with a layer as a whole.
pub fn layer_code(fault: LayerFault) -> u32
    ensures { result ≡ layer_code fault }
{
    match fault {
        LayerFault::Checksum => 341,
        LayerFault::FileName => 342,
        LayerFault::Fan { .. } => 343,
    }
}

/// What is wrong with the ids of a commit.
pub fn commit_code(fault: CommitFault) -> u32
    ensures { result ≡ commit_code fault }
{
    match fault {
        CommitFault::NullId => 351,
        CommitFault::Order => 352,
        CommitFault::NullTree => 353,
    }
}

/// Why the parents of a commit, or the rest of them, cannot be decoded.
pub fn parent_code(error: ParentError) -> u32
    ensures { result ≡ parent_code error }
{
    match error {
        ParentError::SecondWithoutFirst => 361,
        ParentError::FirstIsEdgeIndex => 362,
        ParentError::NoEdgeList => 363,
        ParentError::EdgeOverflow => 364,
    }
}

/// The byte at which the fan of a layer is wrong, or 0 where something else is.
pub fn fan_byte(fault: LayerFault) -> u8
    ensures { result ≡ fan_byte fault }
{
    match fault {
        LayerFault::Fan { byte } => byte,
        _ => 0,
    }
}
