//! Why a stream is not that of a graph's commits.

use crate::Mismatch;
use gix_commitgraph::Position;
use object_stream::{EntryError, ReadFailure};
use thiserror::Error;

/// Why a stream is not that of a graph's commits, or could not be read. Its text is the name of the
/// variant alone.
#[derive(Clone, Copy, Debug, PartialEq, Eq, Error)]
pub enum ObjectsError {
    /// The entries before that of this position match, and this one is not there.
    #[error("Entry")]
    Entry(Position, EntryError),
    /// The entries before that of this position match, and this one does not, though the id of the
    /// commit is that of its contents.
    #[error("Mismatch")]
    Mismatch(Position, Mismatch),
    /// Bytes are left after the last entry.
    #[error("LeftOver")]
    LeftOver,
    /// A read failed.
    #[error("Device")]
    Device,
    /// An allocation failed.
    #[error("OutOfMemory")]
    OutOfMemory,
}

impl From<ReadFailure> for ObjectsError {
    ghost use Rattle.std.specs.Prelude.{◌≡◌};
    ghost use Rattle.graph_objects.specs.Taking.{error_of_failure};

    ghost from_gives = { λ failure error. error ≡ error_of_failure failure };

    fn from(failure: ReadFailure) -> ObjectsError {
        match failure {
            ReadFailure::Device => ObjectsError::Device,
            ReadFailure::OutOfMemory => ObjectsError::OutOfMemory,
        }
    }
}
