//! Why a table of chunks is refused.

use thiserror::Error;

/// The first condition that refuses a table of chunks, as [`Index::from_bytes`] lists them. Entries
/// count from 0, and the last one, which ends the table, has the number of chunks as its number.
///
/// It is displayed as the name of the variant.
///
/// [`Index::from_bytes`]: crate::Index::from_bytes
#[derive(Clone, Copy, Debug, PartialEq, Eq, Error)]
pub enum ChunkError {
    /// The number of chunks is 0.
    #[error("NoChunks")]
    NoChunks,
    /// The table does not end within the file.
    #[error("TableTooSmall")]
    TableTooSmall,
    /// An entry before the last has the id 0, which ends a table.
    #[error("EarlyEnd")]
    EarlyEnd { entry: usize },
    /// Two chunks have this id.
    #[error("Duplicate")]
    Duplicate { id: [u8; 4] },
    /// An entry's offset lies past the end of the file.
    #[error("OutOfFile")]
    OutOfFile { entry: usize },
    /// An entry's offset is less than that of the entry before it.
    #[error("Falling")]
    Falling { entry: usize },
    /// The last entry has this id, in place of the id 0, which ends a table.
    #[error("NoEnd")]
    NoEnd { id: [u8; 4] },
}
