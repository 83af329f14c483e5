//! Why commits are not all there.

use gix_hash_core::ObjectId;
use object_stream::EntryError;

/// Why commits that were asked for are not all there.
#[derive(Debug, Drop, PartialEq, Eq)]
pub enum CompleteError<E> {
    /// There is no object with the id of the question that has this number, counted from 0.
    Unknown(usize),
    /// What answers the request for this id is not the entry of a commit with it. Where that is
    /// `Missing`, it is no id of the question.
    Entry(ObjectId, EntryError),
    /// The contents of the object with this id are no commit that Git could read.
    Unreadable(ObjectId),
    /// The commit with this id is its own ancestor. No digest is known that allows it.
    Cycle(ObjectId),
    /// There are more commits than a graph has positions, or the words of listed parents have no
    /// room.
    Full,
    /// An allocation failed.
    OutOfMemory,
    /// A read of entries failed.
    Device,
    /// The lines that ask could not be passed on.
    WriteFailed,
    /// The base has the commit with this id, and answered later that it has not.
    Lost(ObjectId),
    /// The error of the base. It may come at any time.
    Source(E),
}
