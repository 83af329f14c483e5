//! Which bytes are a file of a layer, and why others are refused.

use crate::fixtures::{FOUR, opened, try_open};
use gix_chunk_core::{ChunkError, Index};
use gix_commitgraph::{File, FileError};
use gix_hash_core::Kind;
use graph_vectors::refused::{ENTRIES, THREE};
use graph_vectors::{END, Entry, file_of_parts, file_of_zeros, words};
use std::alloc::Global;
use std::process::Abort;

/// Compares the refusal of a file.
fn compare_refusal(rt: &impl Abort, alloc: Global, bytes: Vec<u8>, want: &FileError) {
    let answer = try_open(rt, alloc, bytes, "");
    assert!(rt; matches!(&answer, Err(error) if error == want));
}

/// Bytes, and how often one is repeated in what is too small for a file.
const SHORT_BYTES: &[(u8, usize)] = &[(0, 1099), (0xff, 1099), (b'C', 1099), (0, 0)];

/// Compares the refusals of bytes that are too few for a file.
fn compare_short(rt: &impl Abort, alloc: Global, rows: &[(u8, usize)]) {
    for (byte, len) in rows {
        let bytes = vec![in alloc; *byte; *len].expect(rt, "memory");
        compare_refusal(rt, alloc, bytes, &FileError::TooSmall);
    }
}

/// The header of a SHA-256 file of three chunks.
const THREE_OF_SHA256: &[u8; 8] = b"CGPH\x01\x02\x03\x00";

/// A header, the entries of a table, the number of bytes 0 after it, and the refusal of that file.
type Refused = (&'static [u8; 8], &'static [Entry], usize, FileError);

/// Files of 1099 bytes with three headers; the last of them with one byte more; and a SHA-256 file
/// with a trailer of 20 bytes.
const SHORT: &[Refused] = &[
    (THREE, ENTRIES, 1043, FileError::TooSmall),
    (THREE_OF_SHA256, ENTRIES, 1043, FileError::TooSmall),
    (b"CGPX\x01\x01\x03\x00", ENTRIES, 1043, FileError::TooSmall),
    (b"CGPX\x01\x01\x03\x00", ENTRIES, 1044, FileError::Signature),
    (THREE_OF_SHA256, ENTRIES, 1044, FileError::Trailer),
];

/// Files without commits whose table of chunks is damaged.
const DAMAGED_TABLES: &[Refused] = &[
    (
        THREE,
        &[(b"OIDF", 56), (b"OIDL", 1080), (b"CDAT", 1079), (END, 1080)],
        1044,
        FileError::Chunks(ChunkError::Falling { entry: 2 }),
    ),
    (
        THREE,
        &[(b"OIDF", 56), (b"OIDL", 1080), (b"OIDL", 1080), (END, 1080)],
        1044,
        FileError::Chunks(ChunkError::Duplicate { id: *b"OIDL" }),
    ),
    (
        THREE,
        &[(b"OIDF", 56), (END, 1080), (b"CDAT", 1080), (END, 1080)],
        1044,
        FileError::Chunks(ChunkError::EarlyEnd { entry: 1 }),
    ),
    (
        THREE,
        &[(b"OIDF", 56), (b"OIDL", 1080), (b"CDAT", 1080), (END, 1101)],
        1044,
        FileError::Chunks(ChunkError::OutOfFile { entry: 3 }),
    ),
    (
        b"CGPH\x01\x01\x00\x00",
        ENTRIES,
        1044,
        FileError::Chunks(ChunkError::NoChunks),
    ),
    (
        b"CGPH\x01\x01\xff\x00",
        ENTRIES,
        1044,
        FileError::Chunks(ChunkError::TableTooSmall),
    ),
];

/// Compares the refusals of some files.
fn compare_refusals(rt: &impl Abort, alloc: Global, rows: &[Refused]) {
    for (header, entries, zeros, want) in rows {
        let bytes = file_of_zeros(alloc, header, entries, *zeros).expect(rt, "memory");
        compare_refusal(rt, alloc, bytes, want);
    }
}

/// A header, the entries of a table, what follows it but for the trailer, the trailer, the number
/// of bytes of that file, and its kind.
type Empty = (
    &'static [u8; 8],
    &'static [Entry],
    &'static [&'static [u8]],
    usize,
    Kind,
);

/// A fan of a layer without commits.
const FAN: &[u8] = &[0; 1024];

/// Files without commits: the least of either kind, of SHA-1 with three trailers, one with an
/// unknown chunk, and one with an empty extra edge list.
const EMPTY: &[Empty] = &[
    (THREE, ENTRIES, &[FAN, &[0; 20]], 1100, Kind::Sha1),
    (THREE, ENTRIES, &[FAN, &[0xff; 20]], 1100, Kind::Sha1),
    (
        THREE,
        ENTRIES,
        &[FAN, b"this is no checksum."],
        1100,
        Kind::Sha1,
    ),
    (
        THREE_OF_SHA256,
        ENTRIES,
        &[FAN, &[0; 32]],
        1112,
        Kind::Sha256,
    ),
    (
        FOUR,
        &[
            (b"OIDF", 68),
            (b"OIDL", 1092),
            (b"CDAT", 1092),
            (b"XTRA", 1092),
            (END, 1100),
        ],
        &[FAN, &[0; 8], &[0; 20]],
        1120,
        Kind::Sha1,
    ),
    (
        FOUR,
        &[
            (b"OIDF", 68),
            (b"OIDL", 1092),
            (b"CDAT", 1092),
            (b"EDGE", 1092),
            (END, 1092),
        ],
        &[FAN, &[0; 20]],
        1112,
        Kind::Sha1,
    ),
];

/// Asserts that a layer has no commits and no bases.
fn compare_none(rt: &impl Abort, file: &File) {
    assert!(rt; file.num_commits() == 0 && file.base_graph_count() == 0);
    assert!(rt; file.iter_ids().next().is_none());
    assert!(rt; file.iter_commits().next().is_none());
    assert!(rt; file.iter_base_graph_ids().next().is_none());
}

/// Opens files without commits, and compares their sizes and kinds.
fn compare_empty(rt: &impl Abort, alloc: Global, rows: &[Empty]) {
    for (header, entries, parts, size, kind) in rows {
        let bytes = file_of_parts(alloc, header, entries, parts).expect(rt, "memory");
        assert!(rt; bytes.len() == *size);
        let file = opened(rt, alloc, bytes, "");
        assert!(rt; file.object_hash() == *kind);
        compare_none(rt, &file);
    }
}

/// Where the chunks of the least file lie. Those of the ids and of the records are empty.
const CHUNKS: &[([u8; 4], Option<(usize, usize)>)] = &[
    (*b"OIDF", Some((56, 1080))),
    (*b"OIDL", Some((1080, 1080))),
    (*b"CDAT", Some((1080, 1080))),
    (*b"EDGE", None),
    (*b"BASE", None),
];

/// Compares where the chunks of the least file lie, whose table follows its header.
fn compare_chunks(rt: &impl Abort, alloc: Global, rows: &[([u8; 4], Option<(usize, usize)>)]) {
    let bytes = file_of_zeros(alloc, THREE, ENTRIES, 1044).expect(rt, "memory");
    let table = Index::from_bytes(&bytes, 8, 3).expect(rt, "a table");
    for (id, want) in rows {
        assert!(rt; table.range_by_id(*id) == want.map(|(start, end)| start..end));
    }
    assert!(rt; table.highest_offset() == 1080);
}

#[test]
fn files_without_commits_open(rt: HostRuntime) {
    compare_empty(&rt, rt.alloc(), EMPTY);
    compare_chunks(&rt, rt.alloc(), CHUNKS);
}

/// The table of a file of two commits.
const OF_TWO: &[Entry] = &[(b"OIDF", 56), (b"OIDL", 1080), (b"CDAT", 1120), (END, 1192)];

/// The file of two commits whose ids begin with the bytes 4 and 6. Its fan has 0 for the bytes up
/// to 3, 2 for the byte 4, this number for the byte 5, and 2 for all others.
fn file_of_two(rt: &impl Abort, alloc: Global, fifth: u32) -> Vec<u8> {
    let middle = words(alloc, &[2, fifth]).expect(rt, "memory");
    let twos = words(alloc, &[2; 250]).expect(rt, "memory");
    let parts: [&[u8]; 6] = [&[0; 16], &middle, &twos, &[4; 20], &[6; 20], &[0; 92]];
    let bytes = file_of_parts(alloc, THREE, OF_TWO, &parts);
    bytes.expect(rt, "memory")
}

/// Compares the refusal of a fan that falls, and opens the same file with one that does not.
fn compare_fans(rt: &impl Abort, alloc: Global) {
    let falling = file_of_two(rt, alloc, 1);
    compare_refusal(rt, alloc, falling, &FileError::FanFalls { at: 5 });
    let level = file_of_two(rt, alloc, 2);
    assert!(rt; opened(rt, alloc, level, "").num_commits() == 2);
}

#[test]
fn files_are_refused_for_their_first_fault(rt: HostRuntime) {
    compare_short(&rt, rt.alloc(), SHORT_BYTES);
    compare_refusals(&rt, rt.alloc(), SHORT);
    compare_refusals(&rt, rt.alloc(), DAMAGED_TABLES);
    compare_fans(&rt, rt.alloc());
}
