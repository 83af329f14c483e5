//! Why no entry was read.

use thiserror::Error;

/// Why what stands in a stream is not the entry of an object of the type that is asked for, the
/// expected one where one is: the first of these that holds. Its text is the name of the variant
/// alone.
#[derive(Clone, Copy, Debug, PartialEq, Eq, Error)]
pub enum EntryError {
    /// The stream ends before the entry is whole.
    #[error("Ends")]
    Ends,
    /// There is no entry: the line before the contents is none of such a stream, or no line feed
    /// follows the contents.
    #[error("NoEntry")]
    NoEntry,
    /// The line names another id than the expected one.
    #[error("OtherId")]
    OtherId,
    /// The line says that the object is not there.
    #[error("Missing")]
    Missing,
    /// The line says that the object is of another type.
    #[error("OtherType")]
    OtherType,
    /// The id in the line is not that of the contents.
    #[error("OtherContents")]
    OtherContents,
}

/// Why bytes could not be read. Its text is the name of the variant alone.
#[derive(Clone, Copy, Debug, PartialEq, Eq, Error)]
pub enum ReadFailure {
    /// A read failed.
    #[error("Device")]
    Device,
    /// An allocation failed.
    #[error("OutOfMemory")]
    OutOfMemory,
}

/// Why no entry was read from a stream. Its text is the name of the variant alone.
#[derive(Clone, Copy, Debug, PartialEq, Eq, Error)]
pub enum StreamError {
    /// What stands there is not the entry.
    #[error("Entry")]
    Entry(EntryError),
    /// The stream could not be read.
    #[error("Read")]
    Read(ReadFailure),
}

impl From<ReadFailure> for StreamError {
    ghost use Rattle.std.specs.Prelude.{◌≡◌};
    ghost use Rattle.object_stream.specs.declared.error.StreamError.TheVariants.{Read};

    ghost from_gives = { λ failure found. found ≡ Read failure };

    fn from(failure: ReadFailure) -> StreamError {
        StreamError::Read(failure)
    }
}
