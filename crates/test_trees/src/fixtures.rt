//! What the tests share: the trees of the tables, as bytes and as a source. Where an allocation
//! fails, the process aborts.

use crate::known::{KnownTree, KnownTrees};
use crate::tables::{EntryRow, Named, TREES};
use gix_hash_core::{Kind, ObjectId};
use std::alloc::Global;
use std::process::Abort;

/// The id of the tree with a number.
pub fn id_of(rt: &impl Abort, kind: Kind, number: usize) -> ObjectId {
    let (sha1, sha256, _) = TREES.get(number).expect(rt, "a tree");
    let text = match kind {
        Kind::Sha1 => sha1,
        Kind::Sha256 => sha256,
    };
    ObjectId::from_hex(text.as_bytes()).ok().expect(rt, "an id")
}

/// The id that repeats a byte.
pub fn repeated(kind: Kind, byte: u8) -> ObjectId {
    match kind {
        Kind::Sha1 => ObjectId::from([byte; 20]),
        Kind::Sha256 => ObjectId::from([byte; 32]),
    }
}

/// The id of what an entry names.
pub fn named_id(rt: &impl Abort, kind: Kind, named: Named) -> ObjectId {
    match named {
        Named::Tree(number) => id_of(rt, kind, number),
        Named::Other(byte) => repeated(kind, byte),
    }
}

/// Puts an entry behind the bytes of a tree.
pub fn push_entry(
    rt: &impl Abort,
    contents: &mut Vec<u8>,
    mode: &[u8],
    name: &[u8],
    id: &ObjectId,
) {
    for part in [mode, b" ", name, b"\0", id.as_oid().as_bytes()] {
        contents.extend_from_slice(part).expect(rt, "memory");
    }
}

/// The bytes of a tree.
pub fn contents_of(rt: &impl Abort, alloc: Global, kind: Kind, rows: &[EntryRow]) -> Vec<u8> {
    let mut contents = Vec::new(alloc);
    for (mode, _, name, named) in rows {
        let id = named_id(rt, kind, *named);
        push_entry(rt, &mut contents, mode, name, &id);
    }
    contents
}

/// Puts a tree into a source.
pub fn put(rt: &impl Abort, alloc: Global, source: &mut KnownTrees, id: &ObjectId, tree: Vec<u8>) {
    let known = KnownTree {
        id: Vec::from_slice(alloc, id.as_oid().as_bytes()).expect(rt, "memory"),
        contents: tree,
    };
    source.trees.push(known).ok().expect(rt, "memory");
}

/// A source without trees.
pub fn no_trees(alloc: Global, kind: Kind) -> KnownTrees {
    KnownTrees {
        kind,
        trees: Vec::new(alloc),
        reads: 0,
    }
}

/// The trees of the tables, but for one.
pub fn trees_without(rt: &impl Abort, alloc: Global, kind: Kind, left_out: usize) -> KnownTrees {
    let mut source = no_trees(alloc, kind);
    for (number, row) in (0..99).zip(TREES) {
        if number != left_out {
            let contents = contents_of(rt, alloc, kind, row.2);
            put(rt, alloc, &mut source, &id_of(rt, kind, number), contents);
        }
    }
    source
}
