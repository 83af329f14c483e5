//! Why a commit is not added.

use gix_hash_core::ObjectId;
use graph_format::Position;

/// Why a commit is not added: the first of these that holds. Nothing has changed.
#[derive(Debug, Drop, PartialEq, Eq)]
pub enum AddError<E> {
    /// The bytes are no commit that Git could read.
    Unreadable,
    /// A commit with this id is there, at this position.
    Known(Position),
    /// A parent is not there.
    Parent {
        /// Its number among the parents, counted from 0.
        index: usize,
        /// Its id.
        id: ObjectId,
    },
    /// There are as many commits as a graph has positions, or the words of listed parents have no
    /// room.
    Full,
    /// An allocation failed.
    OutOfMemory,
    /// The error of the base. It may come at any time.
    Source(E),
}
