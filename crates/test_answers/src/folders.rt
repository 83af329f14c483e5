//! Files and folders in memory. Where an allocation fails or no file can hold what is wanted, the
//! process aborts.

use gix_hash_core::{ObjectId, oid};
use graph_folder::folder::Memory;
use graph_vectors::{Row, file_of_rows};
use std::alloc::Global;
use std::process::Abort;

/// The text, in memory of its own.
pub fn owned(rt: &impl Abort, alloc: Global, text: &str) -> String {
    String::from_str(alloc, text).expect(rt, "memory")
}

/// The texts, one after another.
fn joined(rt: &impl Abort, alloc: Global, parts: &[&str]) -> String {
    let mut text = String::new(alloc);
    for part in parts {
        text.push_str(part).expect(rt, "memory");
    }
    text
}

/// The id that repeats a byte.
pub fn id_of(byte: u8) -> ObjectId {
    ObjectId::from([byte; 20])
}

/// The text of an id.
pub fn text_of(rt: &impl Abort, alloc: Global, id: ObjectId) -> String {
    id.to_string(alloc).expect(rt, "memory")
}

/// The file of a SHA-1 layer of these commits on these bases.
pub fn built(rt: &impl Abort, alloc: Global, bases: &[ObjectId], rows: &[Row<'_>]) -> Vec<u8> {
    file_of_rows(alloc, bases, rows).expect(rt, "a file")
}

/// The checksum of a SHA-1 file: its last 20 bytes.
fn checksum_of(rt: &impl Abort, bytes: &[u8]) -> ObjectId {
    let checksum = bytes.get(bytes.len().saturating_sub(20)..);
    let checksum = oid::try_from_bytes(checksum.expect(rt, "a checksum"));
    checksum.expect(rt, "an id").to_owned()
}

/// Puts a file into a folder in memory.
pub fn put(rt: &impl Abort, alloc: Global, memory: &mut Memory, path: &str, bytes: Vec<u8>) {
    memory
        .put_file(owned(rt, alloc, path), bytes)
        .expect(rt, "memory");
}

/// Puts a folder.
pub fn put_dir(rt: &impl Abort, alloc: Global, memory: &mut Memory, path: &str) {
    memory.put_dir(owned(rt, alloc, path)).expect(rt, "memory");
}

/// A folder in memory with the file of these commits at the path `g`.
pub fn with_commits(rt: &impl Abort, alloc: Global, rows: &[Row<'_>]) -> Memory {
    let mut memory = Memory::new(alloc);
    put(rt, alloc, &mut memory, "g", built(rt, alloc, &[], rows));
    memory
}

/// Puts a layer into the folder `g` of a chain, as the file that is named after its checksum, and
/// adds its line. Its checksum is answered.
pub fn put_layer(
    rt: &impl Abort,
    alloc: Global,
    memory: &mut Memory,
    bytes: Vec<u8>,
    lines: &mut String,
) -> ObjectId {
    let checksum = checksum_of(rt, &bytes);
    let text = text_of(rt, alloc, checksum);
    let path = joined(rt, alloc, &["g/graph-", &text, ".graph"]);
    put(rt, alloc, memory, &path, bytes);
    lines.push_str(&text).expect(rt, "memory");
    lines.push_str("\n").expect(rt, "memory");
    checksum
}

/// Puts the folder `g` and the lines of its chain.
pub fn put_lines(rt: &impl Abort, alloc: Global, memory: &mut Memory, lines: String) {
    put(
        rt,
        alloc,
        memory,
        "g/commit-graph-chain",
        lines.into_bytes(),
    );
    put_dir(rt, alloc, memory, "g");
}

/// A folder in memory with a chain of these layers in the folder `g`, the lowest first. Each has
/// the checksums of those below as its bases, and is named after its own.
pub fn with_chain(rt: &impl Abort, alloc: Global, layers: &[&[Row<'_>]]) -> Memory {
    let mut memory = Memory::new(alloc);
    let (mut bases, mut lines) = (Vec::new(alloc), String::new(alloc));
    for rows in layers {
        let bytes = built(rt, alloc, &bases, rows);
        let checksum = put_layer(rt, alloc, &mut memory, bytes, &mut lines);
        bases.push(checksum).expect(rt, "memory");
    }
    put_lines(rt, alloc, &mut memory, lines);
    memory
}
