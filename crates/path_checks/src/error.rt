//! Why the filters of a graph are not found right.

use gix_commitgraph::Position;
use gix_hash_core::ObjectId;
use object_stream::EntryError;

/// Why the filters of a graph are not found right.
#[derive(Debug, Drop)]
pub enum PathsError {
    /// The filter of the commit at this position is the first that is refused, and why.
    Filter(Position, PathsFault),
    /// A read failed.
    Device,
    /// Memory ran out.
    OutOfMemory,
    /// A line that asks for a tree could not be passed on.
    WriteFailed,
}

/// Why the filter of a commit is refused.
#[derive(Debug, Drop)]
pub enum PathsFault {
    /// What answers the request for this id is not the entry of a tree with it.
    Entry(ObjectId, EntryError),
    /// The contents of the tree with this id have no entry where the one with this number has to
    /// stand. Numbers count from 0.
    Unreadable(ObjectId, usize),
    /// In the tree with this id, the entry with this number does not stand behind the one before
    /// it.
    Order(ObjectId, usize),
    /// A path that the commit changes has more than 2,048 names.
    TooDeep,
    /// More trees have to be read for the commit than may be.
    TooMuch,
    /// The filter answers this path as absent, and the commit touches it.
    Lacks(Vec<u8>),
    /// Git writes another filter for what the commit changes.
    Differs,
    /// Another one, to which no repository comes: the commit changes 2^64 paths or more, or the id
    /// of a tree has neither 20 bytes nor 32.
    Other,
}
