//! Streams of objects as `git cat-file --batch` writes them: the bytes that were read and not yet
//! looked at, and the next entry, whose contents have the id that its line names.
//!
//! An entry is that of an object of one type; those of other types are known by their lines.
#![tactic(auto)]

mod buffer;
mod entry;
mod error;
mod heading;
pub mod law;
mod line;
mod object_type;
mod own_line;

pub use buffer::Buffer;
pub use entry::{Entry, next_entry};
pub use error::{EntryError, ReadFailure, StreamError};
pub use line::are_digits;
pub use object_type::ObjectType;
