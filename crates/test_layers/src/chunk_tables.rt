//! Tables of chunks: where the chunks lie, and why a table is refused.

use gix_chunk_core::{ChunkError, Index};
use std::process::Abort;

/// A table of one chunk, which is empty and stands at the end of the bytes.
const EMPTY_CHUNK: &[u8] = b"ABCD\0\0\0\0\0\0\0\x18\0\0\0\0\0\0\0\0\0\0\0\x18";

/// Bytes, where a table begins in them, its number of chunks, and its first fault.
type Faulty = (&'static [u8], usize, u32, ChunkError);

/// Tables that do not lie within the bytes.
const TOO_LONG: &[Faulty] = &[
    (b"", usize::MAX, 0, ChunkError::NoChunks),
    (b"", usize::MAX, 1, ChunkError::TableTooSmall),
    (&[0xff; 24], usize::MAX, 1, ChunkError::TableTooSmall),
    (EMPTY_CHUNK, usize::MAX, 1, ChunkError::TableTooSmall),
    (EMPTY_CHUNK, 0, u32::MAX, ChunkError::TableTooSmall),
    (EMPTY_CHUNK, 1, 1, ChunkError::TableTooSmall),
    (EMPTY_CHUNK, 0, 0, ChunkError::NoChunks),
];

/// Tables of one chunk, of which an entry is wrong.
const OF_ONE: &[Faulty] = &[
    (
        b"ABCD\0\0\0\0\0\0\0\x18ABCD\0\0\0\0\0\0\0\x18",
        0,
        1,
        ChunkError::NoEnd { id: *b"ABCD" },
    ),
    (
        b"ABCD\0\0\0\0\0\0\0\x18ABCD\0\0\0\0\0\0\0\x19",
        0,
        1,
        ChunkError::OutOfFile { entry: 1 },
    ),
    (
        b"\0\0\0\0\0\0\0\0\0\0\0\x18ABCD\0\0\0\0\0\0\0\x18",
        0,
        1,
        ChunkError::EarlyEnd { entry: 0 },
    ),
    (
        b"ABCD\0\0\0\0\0\0\0\x19\0\0\0\0\0\0\0\0\0\0\0\x19",
        0,
        1,
        ChunkError::OutOfFile { entry: 0 },
    ),
    (
        b"ABCD\x01\0\0\0\0\0\0\0\0\0\0\0\0\0\0\0\0\0\0\x18",
        0,
        1,
        ChunkError::OutOfFile { entry: 0 },
    ),
    (
        b"ABCD\0\0\0\0\0\0\0\x18\0\0\0\0\0\0\0\0\0\0\0\x17",
        0,
        1,
        ChunkError::Falling { entry: 1 },
    ),
];

/// Tables of two chunks, of which the second entry is wrong.
const OF_TWO: &[Faulty] = &[
    (
        b"ABCD\0\0\0\0\0\0\0\x24\0\0\0\0\0\0\0\0\0\0\0\x24\0\0\0\0\0\0\0\0\0\0\0\x24",
        0,
        2,
        ChunkError::EarlyEnd { entry: 1 },
    ),
    (
        b"ABCD\0\0\0\0\0\0\0\x24ABCD\0\0\0\0\0\0\0\0\0\0\0\0\0\0\0\0\0\0\0\x24",
        0,
        2,
        ChunkError::Duplicate { id: *b"ABCD" },
    ),
    (
        b"ABCD\0\0\0\0\0\0\0\x24EFGH\0\0\0\0\0\0\0\x23\0\0\0\0\0\0\0\0\0\0\0\x24",
        0,
        2,
        ChunkError::Falling { entry: 1 },
    ),
];

/// Compares the first faults of tables.
fn compare_faults(rt: &impl Abort, rows: &[Faulty]) {
    for (bytes, at, count, want) in rows {
        assert!(rt; Index::from_bytes(bytes, *at, *count).err() == Some(*want));
    }
}

/// An id, and from where to where its chunk lies, if there is one.
type Chunk = ([u8; 4], Option<(usize, usize)>);

/// The chunks of the table of one.
const EMPTY_CHUNKS: &[Chunk] = &[(*b"ABCD", Some((24, 24))), (*b"EFGH", None), ([0; 4], None)];

/// A table that begins after a header of four bytes. Its chunks overlap it, and a trailer follows
/// them.
const OVERLAPPING: &[u8] =
    b"headEFGH\0\0\0\0\0\0\0\0ABCD\0\0\0\0\0\0\0\x10\0\0\0\0\0\0\0\0\0\0\0\x29trailer";

/// Its chunks.
const OVERLAPPING_CHUNKS: &[Chunk] = &[
    (*b"EFGH", Some((0, 16))),
    (*b"ABCD", Some((16, 41))),
    (*b"head", None),
    (*b"abcd", None),
    ([0; 4], None),
];

/// Compares where the chunks of a table lie, and where the last one ends.
fn compare_chunks(rt: &impl Abort, table: &Index<'_>, rows: &[Chunk], end: usize) {
    for (id, want) in rows {
        assert!(rt; table.range_by_id(*id) == want.map(|(start, end)| start..end));
    }
    assert!(rt; table.highest_offset() == end);
}

#[test]
fn tables_of_chunks_are_read_or_refused(rt: HostRuntime) {
    compare_faults(&rt, TOO_LONG);
    compare_faults(&rt, OF_ONE);
    compare_faults(&rt, OF_TWO);
    let table = Index::from_bytes(EMPTY_CHUNK, 0, 1).expect(&rt, "a table");
    compare_chunks(&rt, &table, EMPTY_CHUNKS, 24);
    let table = Index::from_bytes(OVERLAPPING, 4, 2).expect(&rt, "a table");
    compare_chunks(&rt, &table, OVERLAPPING_CHUNKS, 41);
}
