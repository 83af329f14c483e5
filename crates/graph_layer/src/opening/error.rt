//! Why no graph was opened.

ghost use Rattle.std.specs.Prelude.{◌≡◌};
ghost use Rattle.graph_layer.specs.OpenRefusals.{layer_refused, OutOfMemoryStandsAlone};

use graph_folder::folder::ReadError;
use graph_format::error::{FileError, GraphError};
use std::alloc::{AllocError, AllocFailed};
use thiserror::Error;

/// Why an opener answers no graph: the first of its steps that fails. Lines of a chain file and
/// layers count from 0. Its text is the name of the variant alone.
#[derive(Debug, PartialEq, Eq, Drop, Error)]
pub enum OpenError {
    /// Neither a file nor a folder stands at the path.
    #[error("NothingFound")]
    NothingFound,
    /// A file that is to be read does not stand at its path, or may not be read.
    #[error("NotOpened")]
    NotOpened,
    /// A read of a file failed.
    #[error("Device")]
    Device,
    /// This line of the chain file is not UTF-8, so it names no file ("Commit-Graphs Chains" of
    /// Git's commit-graph design).
    #[error("ChainNotText")]
    ChainNotText { line: usize },
    /// The file of this layer is refused for this reason, which is never `OutOfMemory`.
    #[error("Layer")]
    Layer { layer: usize, error: FileError },
    /// The layers are refused as a graph for this reason, which is never `OutOfMemory`.
    #[error("Graph")]
    Graph(GraphError),
    /// An allocation failed, at whichever step.
    #[error("OutOfMemory")]
    OutOfMemory,
}

impl From<AllocError> for OpenError {
    ghost use Rattle.graph_layer.specs.declared.opening.error.OpenError.TheVariants.{OutOfMemory};

    ghost from_gives = { λ _ error. error ≡ OutOfMemory };

    fn from(_: AllocError) -> OpenError {
        OpenError::OutOfMemory
    }
}

impl<T: Drop> From<AllocFailed<T>> for OpenError {
    ghost use Rattle.graph_layer.specs.declared.opening.error.OpenError.TheVariants.{OutOfMemory};

    ghost from_gives = { λ _ error. error ≡ OutOfMemory };

    fn from(_: AllocFailed<T>) -> OpenError {
        OpenError::OutOfMemory
    }
}

impl From<ReadError> for OpenError {
    ghost use Rattle.graph_layer.specs.OpenRefusals.{read_refused};

    ghost from_gives = { λ refusal error. error ≡ read_refused refusal };

    fn from(error: ReadError) -> OpenError {
        match error {
            ReadError::NotOpened => OpenError::NotOpened,
            ReadError::Device => OpenError::Device,
            ReadError::OutOfMemory => OpenError::OutOfMemory,
        }
    }
}

impl From<GraphError> for OpenError {
    ghost use Rattle.graph_layer.specs.OpenRefusals.{graph_refused};

    ghost from_gives = { λ refusal error. error ≡ graph_refused refusal };

    fn from(error: GraphError) -> OpenError {
        match error {
            GraphError::OutOfMemory => OpenError::OutOfMemory,
            error => OpenError::Graph(error),
        }
    }
}

/// The refusal of the file that is to be this layer.
pub(crate) fn refused_layer(layer: usize, error: FileError) -> OpenError
    ensures error { result ≡ layer_refused layer error }
    ensures memory { OutOfMemoryStandsAlone result }
{
    match error {
        FileError::OutOfMemory => OpenError::OutOfMemory,
        error => OpenError::Layer { layer, error },
    }
}
