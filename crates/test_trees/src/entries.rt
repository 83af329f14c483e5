//! Entries of trees: their modes, their names and their ids; and bytes that are no tree.

use crate::fixtures::{contents_of, id_of, named_id};
use crate::tables::{EntryRow, TREES};
use gix_hash_core::{Kind, ObjectId, digest};
use std::alloc::Global;
use std::process::Abort;
use tree_objects::EntryKind::{Directory, Executable, File, Link, Submodule};
use tree_objects::{Entry, EntryKind, TreeError, check_tree, split_entry};

/// A mode as a tree spells it, and what `git ls-tree` says that it is: `None` where it says
/// `malformed mode in tree entry`.
type ModeRow = (&'static [u8], Option<EntryKind>);

/// Modes that Git writes or wrote, and others of the same types.
const MODES: &[ModeRow] = &[
    (b"100644", Some(File)),
    (b"100664", Some(File)),
    (b"100600", Some(File)),
    (b"100000", Some(File)),
    (b"100755", Some(Executable)),
    (b"100744", Some(Executable)),
    (b"100711", Some(Executable)),
    (b"100100", Some(Executable)),
    (b"120000", Some(Link)),
    (b"120777", Some(Link)),
    (b"160000", Some(Submodule)),
    (b"40000", Some(Directory)),
    (b"40755", Some(Directory)),
];

/// Modes with zeros in front, with digits past the sixteenth bit, of types that Git does not write,
/// and texts that are no modes.
const ODD_MODES: &[ModeRow] = &[
    (b"040000", Some(Directory)),
    (b"0100644", Some(File)),
    (b"00000000000100755", Some(Executable)),
    (b"1000100644", Some(File)),
    (
        b"1000000000000000000000000000000000100755",
        Some(Executable),
    ),
    (b"200040000", Some(Directory)),
    (b"7777777777777777777777", Some(Submodule)),
    (b"0", Some(Submodule)),
    (b"1", Some(Submodule)),
    (b"777", Some(Submodule)),
    (b"10000", Some(Submodule)),
    (b"20000", Some(Submodule)),
    (b"60000", Some(Submodule)),
    (b"140000", Some(Submodule)),
    (b"170000", Some(Submodule)),
    (b"1 0644", Some(Submodule)),
    (b"", None),
    (b"8", None),
    (b"100648", None),
    (b"-100644", None),
    (b"+100644", None),
    (b"0x100644", None),
    (b" 100644", None),
];

/// What an entry is, if the bytes begin with one.
fn kind_of(kind: Kind, bytes: &[u8]) -> Option<EntryKind> {
    Some(split_entry(kind, bytes)?.entry.kind)
}

/// Compares what the entries with these modes are.
fn compare_modes(rt: &impl Abort, alloc: Global, kind: Kind, rows: &[ModeRow]) {
    for (mode, want) in rows {
        let mut bytes = Vec::from_slice(alloc, mode).expect(rt, "memory");
        bytes.extend_from_slice(b" a\0").expect(rt, "memory");
        let id = ObjectId::null(kind);
        bytes
            .extend_from_slice(id.as_oid().as_bytes())
            .expect(rt, "memory");
        assert!(rt; kind_of(kind, &bytes) == *want);
    }
}

#[test]
fn modes_count_as_git_reads_them(rt: HostRuntime) {
    for kind in [Kind::Sha1, Kind::Sha256] {
        compare_modes(&rt, rt.alloc(), kind, MODES);
        compare_modes(&rt, rt.alloc(), kind, ODD_MODES);
    }
}

/// Compares an entry.
fn compare_entry(rt: &impl Abort, kind: Kind, entry: Entry<'_>, row: &EntryRow) {
    let (_, is, name, named) = row;
    assert!(rt; entry.kind == *is);
    assert!(rt; entry.name == *name);
    assert!(rt; entry.id == named_id(rt, kind, *named).as_oid().as_bytes());
}

/// Compares the entries of a tree.
fn compare_entries(rt: &impl Abort, kind: Kind, contents: &[u8], rows: &[EntryRow]) {
    let mut rest = contents;
    for row in rows {
        let found = split_entry(kind, rest).expect(rt, "an entry");
        compare_entry(rt, kind, found.entry, row);
        rest = found.next;
    }
    assert!(rt; rest.is_empty());
}

/// The id of the tree with these bytes.
fn tree_id(rt: &impl Abort, alloc: Global, kind: Kind, contents: &[u8]) -> ObjectId {
    let len = contents.len();
    let heading = format!(in alloc; "tree {len}\0").expect(rt, "memory");
    let mut object = Vec::from_slice(alloc, heading.as_bytes()).expect(rt, "memory");
    object.extend_from_slice(contents).expect(rt, "memory");
    digest(kind, &object)
}

#[test]
fn entries_are_those_that_git_shows(rt: HostRuntime) {
    for kind in [Kind::Sha1, Kind::Sha256] {
        for (number, row) in (0..99).zip(TREES) {
            let contents = contents_of(&rt, rt.alloc(), kind, row.2);
            let id = tree_id(&rt, rt.alloc(), kind, &contents);
            assert!(&rt; id == id_of(&rt, kind, number));
            assert!(&rt; check_tree(kind, &contents) == Ok(()));
            compare_entries(&rt, kind, &contents, row.2);
        }
    }
}

/// Bytes, and why they are no tree.
type Refused = (&'static [u8], TreeError);

/// Bytes of which Git says `too-short tree object`, `empty filename in tree entry` or `malformed
/// mode in tree entry`, or which have a name with `/`.
const UNREADABLE: &[Refused] = &[
    (b"x", TreeError::Unreadable(0)),
    (b"100644", TreeError::Unreadable(0)),
    (b"100644 a", TreeError::Unreadable(0)),
    (b"100644 a\0", TreeError::Unreadable(0)),
    (b"100644 a\0aaaaaaaaaaaaaaaaaaa", TreeError::Unreadable(0)),
    (b"100644 a\0aaaaaaaaaaaaaaaaaaaax", TreeError::Unreadable(1)),
    (
        b"100644 a\0aaaaaaaaaaaaaaaaaaaa40000 b\0bbbbbbbbbbb",
        TreeError::Unreadable(1),
    ),
    (
        b"100644 a\0aaaaaaaaaaaaaaaaaaaa8 b\0bbbbbbbbbbbbbbbbbbbb",
        TreeError::Unreadable(1),
    ),
    (b"100644 \0aaaaaaaaaaaaaaaaaaaa", TreeError::Unreadable(0)),
    (
        b"100644 a/b\0aaaaaaaaaaaaaaaaaaaa",
        TreeError::Unreadable(0),
    ),
    (b"100644 /\0aaaaaaaaaaaaaaaaaaaa", TreeError::Unreadable(0)),
];

/// Entries of which `git fsck` says `treeNotSorted` or `duplicateEntries`.
const OUT_OF_ORDER: &[Refused] = &[
    (
        b"100644 b\0aaaaaaaaaaaaaaaaaaaa100644 a\0aaaaaaaaaaaaaaaaaaaa",
        TreeError::Order(1),
    ),
    (
        b"100644 a\0aaaaaaaaaaaaaaaaaaaa100644 a\0bbbbbbbbbbbbbbbbbbbb",
        TreeError::Order(1),
    ),
    (
        b"40000 a\0aaaaaaaaaaaaaaaaaaaa40000 a\0bbbbbbbbbbbbbbbbbbbb",
        TreeError::Order(1),
    ),
    (
        b"40000 a\0aaaaaaaaaaaaaaaaaaaa100644 a\0bbbbbbbbbbbbbbbbbbbb",
        TreeError::Order(1),
    ),
    (
        b"40000 a\0aaaaaaaaaaaaaaaaaaaa100644 a.b\0bbbbbbbbbbbbbbbbbbbb",
        TreeError::Order(1),
    ),
    (
        b"100644 a0\0aaaaaaaaaaaaaaaaaaaa40000 a\0bbbbbbbbbbbbbbbbbbbb",
        TreeError::Order(1),
    ),
    (
        b"100644 ab\0aaaaaaaaaaaaaaaaaaaa100644 a\0bbbbbbbbbbbbbbbbbbbb",
        TreeError::Order(1),
    ),
    (
        b"100644 \xff\0aaaaaaaaaaaaaaaaaaaa100644 \x80\0bbbbbbbbbbbbbbbbbbbb",
        TreeError::Order(1),
    ),
    (
        b"100644 a\0aaaaaaaaaaaaaaaaaaaa100644 c\0aaaaaaaaaaaaaaaaaaaa\
        100644 b\0bbbbbbbbbbbbbbbbbbbb",
        TreeError::Order(2),
    ),
    (
        b"100644 b\0aaaaaaaaaaaaaaaaaaaa100644 a\0bbbbbbbbbbbbbbbbbbbbx",
        TreeError::Order(1),
    ),
];

/// Compares why bytes are no trees, with ids of twenty bytes.
fn compare_refusals(rt: &impl Abort, rows: &[Refused]) {
    for (bytes, want) in rows {
        assert!(rt; check_tree(Kind::Sha1, bytes) == Err(*want));
    }
}

#[test]
fn bytes_that_are_no_tree_are_refused(rt: HostRuntime) {
    compare_refusals(&rt, UNREADABLE);
    compare_refusals(&rt, OUT_OF_ORDER);
    // Ids of 32 bytes, of which there are twenty.
    let short = b"100644 a\0aaaaaaaaaaaaaaaaaaaa";
    assert!(&rt; check_tree(Kind::Sha256, short) == Err(TreeError::Unreadable(0)));
}

#[test]
fn refusals_of_trees_are_written(rt: HostRuntime) {
    let alloc = rt.alloc();
    let unreadable = format!(in alloc; "{}", TreeError::Unreadable(3)).expect(&rt, "memory");
    assert!(&rt; unreadable.as_str() == "Unreadable 3");
    let order = format!(in alloc; "{}", TreeError::Order(12)).expect(&rt, "memory");
    assert!(&rt; order.as_str() == "Order 12");
}
