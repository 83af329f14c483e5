//! Why nothing was asked for, or nothing taken.

use gix_hash_core::ObjectId;
use object_stream::{EntryError, ReadFailure};
use thiserror::Error;

/// Why an object was not asked for. Its text is the name of the variant alone.
#[derive(Clone, Copy, Debug, PartialEq, Eq, Error)]
pub enum AskError {
    /// An allocation failed. Nothing has changed.
    #[error("OutOfMemory")]
    OutOfMemory,
    /// A write failed. The id counts as asked for.
    #[error("WriteFailed")]
    WriteFailed,
}

/// Why no entry was taken. Its text is the name of the variant alone.
#[derive(Clone, Copy, Debug, PartialEq, Eq, Error)]
pub enum RequestError {
    /// What answers the request for this id is not its entry.
    #[error("Entry")]
    Entry(ObjectId, EntryError),
    /// A read failed.
    #[error("Device")]
    Device,
    /// An allocation failed.
    #[error("OutOfMemory")]
    OutOfMemory,
    /// The lines that ask could not be passed on.
    #[error("WriteFailed")]
    WriteFailed,
}

impl From<ReadFailure> for RequestError {
    ghost use Rattle.std.specs.Prelude.{◌≡◌};
    ghost use Rattle.object_requests.specs.TakenEntry.{request_error_of};

    ghost from_gives = { λ failure error. error ≡ request_error_of failure };

    fn from(failure: ReadFailure) -> RequestError {
        match failure {
            ReadFailure::Device => RequestError::Device,
            ReadFailure::OutOfMemory => RequestError::OutOfMemory,
        }
    }
}
