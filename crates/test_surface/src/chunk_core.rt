//! The table of chunks.

ghost use Rattle.std.specs.Prelude.{◌+◌, ◌*◌, ◌≤◌, length, min};

use crate::bounds;
use gix_chunk_core::{ChunkError, Index};
use std::ops::Range;

fn tables() {
    bounds::droppable::<Index<'_>>();
}

fn from_bytes<'a>(bytes: &'a [u8], at: usize, count: u32) -> Result<Index<'a>, ChunkError> {
    Index::from_bytes(bytes, at, count)
}

fn from_head<'a>(
    front: &'a [u8],
    len: usize,
    at: usize,
    count: u32,
) -> Result<Index<'a>, ChunkError>
    requires len { length front.now ≤ len }
    requires table { min len (at + 12 * (count + 1)) ≤ length front.now }
{
    Index::from_head(front, len, at, count)
}

fn range_by_id(table: &Index<'_>, id: [u8; 4]) -> Option<Range<usize>> {
    Index::range_by_id(table, id)
}

fn highest_offset(table: &Index<'_>) -> usize {
    Index::highest_offset(table)
}

fn chunk_errors(error: &ChunkError) {
    bounds::plain_error::<ChunkError>();
    match error {
        ChunkError::NoChunks | ChunkError::TableTooSmall => {}
        ChunkError::EarlyEnd { entry }
        | ChunkError::OutOfFile { entry }
        | ChunkError::Falling { entry } => bounds::of_type::<usize>(entry),
        ChunkError::Duplicate { id } | ChunkError::NoEnd { id } => bounds::of_type::<[u8; 4]>(id),
    }
}
