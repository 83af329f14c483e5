//! What changes from one tree to another: the paths, and why they are not told.

use crate::fixtures::{id_of, no_trees, push_entry, put, repeated, trees_without};
use crate::known::{KnownTrees, ReadError};
use crate::tables::{
    BASE, BELOW, CHANGES, D_NEW, DEEP_NEW, EMPTY, FILES, FOLDED, MODE, NAMED, NESTED,
};
use gix_hash_core::{Kind, ObjectId, oid};
use std::alloc::Global;
use std::process::Abort;
use tree_changes::{Limits, Refusal, changed_paths};

/// Limits that no tree of the tables meets.
const WIDE: Limits = Limits {
    paths: 512,
    names: 2048,
    trees: 1000,
};

/// What comes of two trees. The contract is long, and here it ends.
fn changed(
    alloc: Global,
    source: &mut KnownTrees,
    old: Option<oid<'_>>,
    new: oid<'_>,
    limits: Limits,
) -> Result<Vec<Vec<u8>>, Refusal<ReadError>> {
    changed_paths(alloc, source, old, new, limits)
}

/// What comes of two trees of the tables.
fn changed_rows(
    rt: &impl Abort,
    alloc: Global,
    source: &mut KnownTrees,
    old: Option<usize>,
    new: usize,
    limits: Limits,
) -> Result<Vec<Vec<u8>>, Refusal<ReadError>> {
    let kind = source.kind;
    let new = id_of(rt, kind, new);
    match old {
        Some(old) => {
            let old = id_of(rt, kind, old);
            changed(alloc, source, Some(old.as_oid()), new.as_oid(), limits)
        }
        None => changed(alloc, source, None, new.as_oid(), limits),
    }
}

/// Compares the paths that are changed.
fn compare_paths(rt: &impl Abort, paths: &[Vec<u8>], want: &[&[u8]]) {
    assert!(rt; paths.len() == want.len());
    for (path, want) in paths.iter().zip(want) {
        assert!(rt; path.as_slice() == *want);
    }
}

#[test]
fn the_paths_are_those_that_git_lists(rt: HostRuntime) {
    let alloc = rt.alloc();
    for kind in [Kind::Sha1, Kind::Sha256] {
        let mut source = trees_without(&rt, alloc, kind, usize::MAX);
        for (old, new, want) in CHANGES {
            let found = changed_rows(&rt, alloc, &mut source, *old, *new, WIDE);
            compare_paths(&rt, &found.ok().expect(&rt, "paths"), want);
        }
    }
}

/// The old tree, the new one, and how many trees have to be read for them.
type ReadRow = (Option<usize>, usize, usize);

/// Each directory that differs is read twice, if it is there before and after, and no other.
const READS: &[ReadRow] = &[
    (None, BASE, 3),
    (Some(BASE), BASE, 0),
    (Some(BASE), MODE, 2),
    (Some(BASE), NESTED, 6),
    (Some(BASE), BELOW, 3),
    (Some(BASE), EMPTY, 4),
    (Some(FILES), FOLDED, 4),
    (None, NAMED, 2),
];

/// What a refusal is, by its name.
fn name_of(found: Result<Vec<Vec<u8>>, Refusal<ReadError>>) -> &'static str {
    match found {
        Ok(_) => "paths",
        Err(Refusal::TooMany) => "too many",
        Err(Refusal::TooDeep) => "too deep",
        Err(Refusal::TooMuch) => "too much",
        Err(Refusal::Source(ReadError::Missing)) => "missing",
        Err(Refusal::Source(ReadError::NoTree(_))) => "no tree",
        Err(_) => "no memory",
    }
}

#[test]
fn no_more_trees_are_read_than_may_be(rt: HostRuntime) {
    let alloc = rt.alloc();
    let mut source = trees_without(&rt, alloc, Kind::Sha1, usize::MAX);
    for (old, new, reads) in READS {
        source.reads = 0;
        let limits = Limits {
            trees: *reads,
            ..WIDE
        };
        let found = changed_rows(&rt, alloc, &mut source, *old, *new, limits);
        assert!(&rt; name_of(found) == "paths");
        assert!(&rt; source.reads == *reads);
        if *reads > 0 {
            let limits = Limits {
                trees: *reads - 1,
                ..WIDE
            };
            let found = changed_rows(&rt, alloc, &mut source, *old, *new, limits);
            assert!(&rt; name_of(found) == "too much");
        }
    }
}

#[test]
fn no_more_paths_are_told_than_may_be(rt: HostRuntime) {
    let alloc = rt.alloc();
    let mut source = trees_without(&rt, alloc, Kind::Sha1, usize::MAX);
    for (old, new, want) in CHANGES {
        let exact = Limits {
            paths: want.len(),
            ..WIDE
        };
        let found = changed_rows(&rt, alloc, &mut source, *old, *new, exact);
        assert!(&rt; name_of(found) == "paths");
        if !want.is_empty() {
            let fewer = Limits {
                paths: want.len() - 1,
                ..WIDE
            };
            let found = changed_rows(&rt, alloc, &mut source, *old, *new, fewer);
            assert!(&rt; name_of(found) == "too many");
        }
    }
}

#[test]
fn a_path_has_no_more_names_than_it_may(rt: HostRuntime) {
    let alloc = rt.alloc();
    let mut source = trees_without(&rt, alloc, Kind::Sha1, usize::MAX);
    // `d/e/deep` has three names.
    for (names, want) in [(3, "paths"), (2, "too deep"), (1, "too deep")] {
        let limits = Limits { names, ..WIDE };
        let found = changed_rows(&rt, alloc, &mut source, Some(BASE), NESTED, limits);
        assert!(&rt; name_of(found) == want);
        let found = changed_rows(&rt, alloc, &mut source, Some(BASE), MODE, limits);
        assert!(&rt; name_of(found) == "paths");
    }
}

#[test]
fn trees_that_have_to_be_read_are_missed(rt: HostRuntime) {
    let alloc = rt.alloc();
    // Below `d` all three trees of the new side are needed, and for another mode of `a` its root.
    for (left_out, nested, mode) in [
        (DEEP_NEW, "missing", "paths"),
        (D_NEW, "missing", "paths"),
        (NESTED, "missing", "paths"),
        (MODE, "paths", "missing"),
        (BASE, "missing", "missing"),
        (EMPTY, "paths", "paths"),
    ] {
        let mut source = trees_without(&rt, alloc, Kind::Sha1, left_out);
        let found = changed_rows(&rt, alloc, &mut source, Some(BASE), NESTED, WIDE);
        assert!(&rt; name_of(found) == nested);
        let found = changed_rows(&rt, alloc, &mut source, Some(BASE), MODE, WIDE);
        assert!(&rt; name_of(found) == mode);
    }
}

#[test]
fn bytes_that_are_no_tree_are_a_refusal_of_the_source(rt: HostRuntime) {
    let alloc = rt.alloc();
    let mut source = no_trees(alloc, Kind::Sha1);
    let id = repeated(Kind::Sha1, 7);
    let bytes = Vec::from_slice(alloc, b"100644 a").expect(&rt, "memory");
    put(&rt, alloc, &mut source, &id, bytes);
    let found = changed(alloc, &mut source, None, id.as_oid(), WIDE);
    assert!(&rt; name_of(found) == "no tree");
}

/// The id of a tree in a row of trees.
fn nested_id(number: u16) -> ObjectId {
    let mut id = [0; 20];
    let [high, low] = number.to_be_bytes();
    id[0] = high;
    id[1] = low;
    ObjectId::from(id)
}

/// Trees of which each has the next as its only entry, and the last a file. Their ids are numbers:
/// nothing here computes digests.
fn nested_trees(rt: &impl Abort, alloc: Global, count: u16) -> KnownTrees {
    let mut source = no_trees(alloc, Kind::Sha1);
    for number in 1..count {
        let mut contents = Vec::new(alloc);
        push_entry(rt, &mut contents, b"40000", b"d", &nested_id(number + 1));
        put(rt, alloc, &mut source, &nested_id(number), contents);
    }
    let mut last = Vec::new(alloc);
    push_entry(rt, &mut last, b"100644", b"f", &repeated(Kind::Sha1, 1));
    put(rt, alloc, &mut source, &nested_id(count), last);
    source
}

#[test]
fn trees_lie_as_deep_as_they_may_and_no_deeper(rt: HostRuntime) {
    let alloc = rt.alloc();
    let limits = Limits { names: 400, ..WIDE };
    let first = nested_id(1);
    let mut source = nested_trees(&rt, alloc, 400);
    let found = changed(alloc, &mut source, None, first.as_oid(), limits);
    let paths = found.ok().expect(&rt, "paths");
    assert!(&rt; paths.len() == 1);
    // 399 directories of one byte, each with its slash, and the name of the file.
    assert!(&rt; paths[0].len() == 799);
    let mut source = nested_trees(&rt, alloc, 401);
    let found = changed(alloc, &mut source, None, first.as_oid(), limits);
    assert!(&rt; name_of(found) == "too deep");
}
