//! What the tests share: the trees of the tables as bytes, in a source. Where an allocation fails,
//! the process aborts.

use crate::tables::{IN_PART, LargeRow, PARTS, Place, TreeRow, trees_in};
use gix_hash_core::{Kind, ObjectId, digest};
use std::alloc::Global;
use std::process::Abort;
use test_trees::known::{KnownTree, KnownTrees};

/// The bytes that hexadecimal digits name.
pub fn bytes_of(rt: &impl Abort, alloc: Global, digits: &str) -> Vec<u8> {
    hex::decode(alloc, digits)
        .ok()
        .expect(rt, "hexadecimal digits")
}

/// One of two texts, by the kind of the ids.
pub fn by_kind(kind: Kind, sha1: &'static str, sha256: &'static str) -> &'static str {
    match kind {
        Kind::Sha1 => sha1,
        Kind::Sha256 => sha256,
    }
}

/// The id that hexadecimal digits name.
pub fn id_from(rt: &impl Abort, digits: &str) -> ObjectId {
    ObjectId::from_hex(digits.as_bytes())
        .ok()
        .expect(rt, "an id")
}

/// The id of the tree with a number.
pub fn id_of(rt: &impl Abort, kind: Kind, number: usize) -> ObjectId {
    let part = trees_in(number / IN_PART);
    let (sha1, sha256, _, _) = part.get(number % IN_PART).expect(rt, "a tree");
    id_from(rt, by_kind(kind, sha1, sha256))
}

/// The id of the tree with these bytes.
pub fn tree_id(rt: &impl Abort, alloc: Global, kind: Kind, contents: &[u8]) -> ObjectId {
    let len = contents.len();
    let heading = format!(in alloc; "tree {len}\0").expect(rt, "memory");
    let mut object = Vec::from_slice(alloc, heading.as_bytes()).expect(rt, "memory");
    object.extend_from_slice(contents).expect(rt, "memory");
    digest(kind, &object)
}

/// Puts a tree into a source, and answers its id.
pub fn put(rt: &impl Abort, alloc: Global, source: &mut KnownTrees, contents: Vec<u8>) -> ObjectId {
    let id = tree_id(rt, alloc, source.kind, &contents);
    let known = KnownTree {
        id: Vec::from_slice(alloc, id.as_oid().as_bytes()).expect(rt, "memory"),
        contents,
    };
    source.trees.push(known).ok().expect(rt, "memory");
    id
}

/// Puts the tree of a row into a source, whose id has to be the one that Git gives it.
fn put_row(rt: &impl Abort, alloc: Global, source: &mut KnownTrees, row: &TreeRow) {
    let (sha1, sha256, sha1_contents, sha256_contents) = row;
    let kind = source.kind;
    let contents = bytes_of(rt, alloc, by_kind(kind, sha1_contents, sha256_contents));
    let id = put(rt, alloc, source, contents);
    assert!(rt; id == id_from(rt, by_kind(kind, sha1, sha256)));
}

/// A source without trees.
pub fn no_trees(alloc: Global, kind: Kind) -> KnownTrees {
    KnownTrees {
        kind,
        trees: Vec::new(alloc),
        reads: 0,
    }
}

/// Puts the trees of a part of the table into a source, but for one.
fn put_part(rt: &impl Abort, alloc: Global, source: &mut KnownTrees, part: usize, left_out: usize) {
    let first = part.saturating_mul(IN_PART);
    for (place, row) in (0..IN_PART).zip(trees_in(part)) {
        if first.saturating_add(place) != left_out {
            put_row(rt, alloc, source, row);
        }
    }
}

/// The trees of the tables, but for one.
pub fn trees_without(rt: &impl Abort, alloc: Global, kind: Kind, left_out: usize) -> KnownTrees {
    let mut source = no_trees(alloc, kind);
    for part in 0..PARTS {
        put_part(rt, alloc, &mut source, part, left_out);
    }
    source
}

/// The trees of the tables.
pub fn small_trees(rt: &impl Abort, alloc: Global, kind: Kind) -> KnownTrees {
    trees_without(rt, alloc, kind, usize::MAX)
}

/// The bytes of a tree of so many entries of one mode, which name one thing. Their names begin with
/// a letter and end with their numbers.
fn numbered(
    rt: &impl Abort,
    alloc: Global,
    mode: &str,
    letter: &str,
    count: usize,
    named: &ObjectId,
) -> Vec<u8> {
    let mut contents = Vec::new(alloc);
    for number in 0..count {
        let heading = format!(in alloc; "{mode} {letter}{number:04}\0").expect(rt, "memory");
        contents
            .extend_from_slice(heading.as_bytes())
            .expect(rt, "memory");
        contents
            .extend_from_slice(named.as_oid().as_bytes())
            .expect(rt, "memory");
    }
    contents
}

/// The id that repeats the byte 17.
fn seventeens(kind: Kind) -> ObjectId {
    match kind {
        Kind::Sha1 => ObjectId::from([0x11; 20]),
        Kind::Sha256 => ObjectId::from([0x11; 32]),
    }
}

/// Puts the tree of a row with the trees below it into a source, and answers its id, which has to
/// be the one that Git gives it.
pub fn put_large(
    rt: &impl Abort,
    alloc: Global,
    source: &mut KnownTrees,
    row: &LargeRow,
) -> ObjectId {
    let (place, count, sha1, sha256, _) = row;
    let file = seventeens(source.kind);
    let contents = match place {
        Place::Top => numbered(rt, alloc, "100644", "f", *count, &file),
        Place::Below => {
            let files = numbered(rt, alloc, "100644", "f", *count, &file);
            one_entry(rt, alloc, "40000", "d", &put(rt, alloc, source, files))
        }
        Place::Each => {
            let below = one_entry(rt, alloc, "100644", "deep", &file);
            let directory = put(rt, alloc, source, below);
            numbered(rt, alloc, "40000", "d", *count, &directory)
        }
    };
    let id = put(rt, alloc, source, contents);
    assert!(rt; id == id_from(rt, by_kind(source.kind, sha1, sha256)));
    id
}

/// The bytes of a tree with one entry.
fn one_entry(rt: &impl Abort, alloc: Global, mode: &str, name: &str, named: &ObjectId) -> Vec<u8> {
    let heading = format!(in alloc; "{mode} {name}\0").expect(rt, "memory");
    let mut contents = Vec::from_slice(alloc, heading.as_bytes()).expect(rt, "memory");
    contents
        .extend_from_slice(named.as_oid().as_bytes())
        .expect(rt, "memory");
    contents
}
