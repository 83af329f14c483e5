//! What refuses the table of chunks of a file, tried one rule after another.

use gix_chunk_core::ChunkError;

/// The byte at a place, or 0 where there is none.
pub fn byte(bytes: &[u8], place: usize) -> u8 {
    match bytes.get(place) {
        Some(byte) => *byte,
        None => 0,
    }
}

/// The number that so many bytes from a place on are, the first of them the highest. There are at
/// most eight.
pub fn number(bytes: &[u8], from: usize, count: usize) -> usize {
    let mut number = 0usize;
    for place in from..from.saturating_add(count) {
        number = number
            .wrapping_mul(256)
            .wrapping_add(byte(bytes, place) as usize);
    }
    number
}

/// How many chunks the header tells.
fn count(bytes: &[u8]) -> usize {
    byte(bytes, 6) as usize
}

/// Where an entry of the table begins. The table begins after the header of 8 bytes, and each entry
/// has 12: four of an id, and eight of an offset.
fn place(entry: usize) -> usize {
    entry.saturating_mul(12).saturating_add(8)
}

/// The id of an entry.
fn id(bytes: &[u8], entry: usize) -> [u8; 4] {
    let from = place(entry);
    [
        byte(bytes, from),
        byte(bytes, from.saturating_add(1)),
        byte(bytes, from.saturating_add(2)),
        byte(bytes, from.saturating_add(3)),
    ]
}

/// The offset of an entry.
pub fn offset(bytes: &[u8], entry: usize) -> usize {
    number(bytes, place(entry).saturating_add(4), 8)
}

/// What is wrong with the offset of an entry: it lies past the end of the file, or before that of
/// the entry before.
fn offset_fault(bytes: &[u8], entry: usize) -> Option<ChunkError> {
    if offset(bytes, entry) > bytes.len() {
        return Some(ChunkError::OutOfFile { entry });
    }
    if entry > 0 && offset(bytes, entry) < offset(bytes, entry.saturating_sub(1)) {
        return Some(ChunkError::Falling { entry });
    }
    None
}

/// What is wrong with the entry of a chunk: its id is 0 or that of an earlier one, or its offset is
/// wrong.
fn entry_fault(bytes: &[u8], entry: usize) -> Option<ChunkError> {
    let own = id(bytes, entry);
    if own == [0; 4] {
        return Some(ChunkError::EarlyEnd { entry });
    }
    for earlier in 0..entry {
        if id(bytes, earlier) == own {
            return Some(ChunkError::Duplicate { id: own });
        }
    }
    offset_fault(bytes, entry)
}

/// What is wrong with the entry that ends the table: its offset is wrong, or its id is not 0.
fn end_fault(bytes: &[u8], entry: usize) -> Option<ChunkError> {
    if let Some(fault) = offset_fault(bytes, entry) {
        return Some(fault);
    }
    let own = id(bytes, entry);
    if own != [0; 4] {
        return Some(ChunkError::NoEnd { id: own });
    }
    None
}

/// What is wrong with the table: it has no chunks, the file ends before it does, or it is an entry.
pub fn table_fault(bytes: &[u8]) -> Option<ChunkError> {
    let count = count(bytes);
    if count == 0 {
        return Some(ChunkError::NoChunks);
    }
    if place(count.saturating_add(1)) > bytes.len() {
        return Some(ChunkError::TableTooSmall);
    }
    for entry in 0..count {
        if let Some(fault) = entry_fault(bytes, entry) {
            return Some(fault);
        }
    }
    end_fault(bytes, count)
}

/// A chunk: where it begins, and how many bytes it has.
#[derive(Clone, Copy)]
pub struct Chunk {
    pub from: usize,
    pub len: usize,
}

/// The chunk with an id, in a table without fault.
pub fn find_chunk(bytes: &[u8], wanted: &[u8; 4]) -> Option<Chunk> {
    for entry in 0..count(bytes) {
        if id(bytes, entry) == *wanted {
            let from = offset(bytes, entry);
            let len = offset(bytes, entry.saturating_add(1)).saturating_sub(from);
            return Some(Chunk { from, len });
        }
    }
    None
}

/// How many bytes follow the last chunk, in a table without fault.
pub fn trailer_len(bytes: &[u8]) -> usize {
    bytes.len().saturating_sub(offset(bytes, count(bytes)))
}
