//! Why an answer is not read by parts.

ghost use Rattle.std.specs.Prelude.{◌≡◌};

use graph_folder::folder::ReadError;
use std::alloc::AllocError;

/// Why an answer is not read by parts.
#[derive(Debug, PartialEq, Eq, Drop)]
pub enum Unread {
    /// A read of a file failed.
    Device,
    /// An allocation failed.
    OutOfMemory,
    /// The graph is to be opened whole, and checked: nothing stands at the path, or a file is not
    /// opened, is refused or is to be read whole; or it no longer has its length; or the parents of
    /// a commit that was read are not those of a commit of a right graph.
    NotByParts,
}

impl From<ReadError> for Unread {
    ghost use Rattle.graph_unchecked.specs.Unread.{unread_of};

    ghost from_gives = { λ error unread. unread ≡ unread_of error };

    fn from(error: ReadError) -> Unread {
        match error {
            ReadError::NotOpened => Unread::NotByParts,
            ReadError::Device => Unread::Device,
            ReadError::OutOfMemory => Unread::OutOfMemory,
        }
    }
}

impl From<AllocError> for Unread {
    ghost use Rattle.graph_unchecked.specs.declared.unread.Unread.TheVariants.{OutOfMemory};

    ghost from_gives = { λ _ unread. unread ≡ OutOfMemory };

    fn from(_: AllocError) -> Unread {
        Unread::OutOfMemory
    }
}
