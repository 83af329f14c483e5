//! The table of chunks of a file in Git's chunk format (gitformat-chunk, "DESCRIPTION").
#![tactic(auto)]

mod error;
mod index;
mod law;

pub use error::ChunkError;
pub use index::Index;
pub use law::{chunks_are_found_by_id, first_is_at_the_least_number, tables_are_read_or_refused};
