//! The folder of graphs that are asked about, which are built from rows. Where an allocation fails,
//! the process aborts.

use gix_hash_core::ObjectId;
use graph_folder::folder::Memory;
use graph_vectors::{DIAMOND, Row, file_of_rows};
use std::alloc::Global;
use std::process::Abort;

/// The lower layer of a chain, and its checksum, which is the one that Python's `hashlib` gives.
const LOWER: &[Row<'static>] = &[(0x11, &[], 1), (0x22, &[0], 2)];

const OF_LOWER: &str = "b9ca0f11f5955add95a308e337a7296ccc2f3a2f";

/// The upper layer, with two ways from its second commit to the first of the lower layer.
const UPPER: &[Row<'static>] = &[(0x33, &[1], 3), (0xcc, &[2, 0], 4), (0xdd, &[], 1)];

/// The paths of both, and the lines of their chain.
const LOWER_PATH: &str = "merging/graph-b9ca0f11f5955add95a308e337a7296ccc2f3a2f.graph";

const UPPER_PATH: &str = "merging/graph-60cbf9c3e11e3234715fa9e53551a0b3a9dded38.graph";

const LINES: &[u8] = b"b9ca0f11f5955add95a308e337a7296ccc2f3a2f\n\
    60cbf9c3e11e3234715fa9e53551a0b3a9dded38\n";

/// The folder of two graphs: the file `diamond`, and the chain in `merging`.
pub fn graphs(rt: &impl Abort, alloc: Global) -> Memory {
    let mut memory = Memory::new(alloc);
    let base = ObjectId::from_hex(OF_LOWER.as_bytes()).expect(rt, "an id");
    put(
        rt,
        alloc,
        &mut memory,
        "diamond",
        built(rt, alloc, &[], DIAMOND),
    );
    put(
        rt,
        alloc,
        &mut memory,
        LOWER_PATH,
        built(rt, alloc, &[], LOWER),
    );
    put(
        rt,
        alloc,
        &mut memory,
        UPPER_PATH,
        built(rt, alloc, &[base], UPPER),
    );
    let lines = Vec::from_slice(alloc, LINES).expect(rt, "memory");
    put(rt, alloc, &mut memory, "merging/commit-graph-chain", lines);
    memory
        .put_dir(owned(rt, alloc, "merging"))
        .expect(rt, "memory");
    memory
}

/// The bytes of a file of two commits.
pub fn file_of_two(rt: &impl Abort, alloc: Global) -> Vec<u8> {
    built(rt, alloc, &[], LOWER)
}

/// Puts a file into a folder in memory.
fn put(rt: &impl Abort, alloc: Global, memory: &mut Memory, path: &str, bytes: Vec<u8>) {
    memory
        .put_file(owned(rt, alloc, path), bytes)
        .expect(rt, "memory");
}

/// The text, in memory of its own.
pub fn owned(rt: &impl Abort, alloc: Global, text: &str) -> String {
    String::from_str(alloc, text).expect(rt, "memory")
}

/// The bytes of a SHA-1 file of these commits over these base layers.
fn built(rt: &impl Abort, alloc: Global, bases: &[ObjectId], rows: &[Row<'_>]) -> Vec<u8> {
    file_of_rows(alloc, bases, rows).expect(rt, "a file")
}
