//! Why a stream says no commits.

use object_stream::{EntryError, ReadFailure};
use std::alloc::AllocError;
use thiserror::Error;

/// Why a stream says no commits, or could not be read. Its text is the name of the variant alone.
#[derive(Clone, Copy, Debug, PartialEq, Eq, Error)]
pub enum CommitsError {
    /// The entries before that of this number are those of commits, and this one is not. Entries
    /// are counted from 0.
    #[error("Entry")]
    Entry(usize, EntryError),
    /// The entries before that of this number are those of commits, and the contents of this one
    /// are no commit that Git could read.
    #[error("Unreadable")]
    Unreadable(usize),
    /// A read failed.
    #[error("Device")]
    Device,
    /// An allocation failed.
    #[error("OutOfMemory")]
    OutOfMemory,
}

impl From<AllocError> for CommitsError {
    ghost use Rattle.std.specs.Prelude.{◌≡◌};
    ghost use Rattle.write_commands.specs.declared.error.CommitsError.TheVariants.{OutOfMemory};

    ghost from_gives = { λ _ error. error ≡ OutOfMemory };

    fn from(_: AllocError) -> CommitsError {
        CommitsError::OutOfMemory
    }
}

impl From<ReadFailure> for CommitsError {
    ghost use Rattle.std.specs.Prelude.{◌≡◌};
    ghost use Rattle.write_commands.specs.NewEntries.{commits_error_of};

    ghost from_gives = { λ failure error. error ≡ commits_error_of failure };

    fn from(failure: ReadFailure) -> CommitsError {
        match failure {
            ReadFailure::Device => CommitsError::Device,
            ReadFailure::OutOfMemory => CommitsError::OutOfMemory,
        }
    }
}
