//! One commit: its generation number and its time, and when two commits are equal.

use crate::fixtures::{commit_of, file_of, layer_of_one, opened};
use gix_commitgraph::File;
use gix_commitgraph::file::Commit;
use gix_hash_core::oid;
use graph_vectors::{DIAMOND, OCTOPUS, Row};
use std::alloc::Global;
use std::process::Abort;

/// The last sixteen bytes of a record, with the generation number and the time of the commit.
type Dated = (&'static [u8; 16], u32, u64);

/// The numbers at their ends, and at the lowest bit of each.
const DATED: &[Dated] = &[
    (
        b"\x70\0\0\0\x70\0\0\0\0\0\0\x07\xff\xff\xff\xff",
        1,
        17179869183,
    ),
    (b"\x70\0\0\0\x70\0\0\0\0\0\0\x08\0\0\0\0", 2, 0),
    (
        b"\x70\0\0\0\x70\0\0\0\xff\xff\xff\xff\xff\xff\xff\xff",
        1073741823,
        17179869183,
    ),
    (b"\x70\0\0\0\x70\0\0\0\0\0\0\0\0\0\0\0", 0, 0),
    (b"\x70\0\0\0\x70\0\0\0\0\0\0\x08\0\0\0\x01", 2, 1),
    (b"\x70\0\0\0\x70\0\0\0\0\0\0\x0c\0\0\0\0", 3, 0),
];

/// Compares the generation numbers and the times of commits.
fn compare_dates(rt: &impl Abort, alloc: Global, rows: &[Dated]) {
    for (fields, generation, time) in rows {
        let file = layer_of_one(rt, alloc, fields, None);
        let commit = commit_of(rt, &file, 0);
        assert!(rt; commit.generation() == *generation);
        assert!(rt; commit.committer_timestamp() == *time);
    }
}

/// The layer of these commits, whose file has this path.
fn layer_at(rt: &impl Abort, alloc: Global, rows: &[Row<'_>], path: &str) -> File {
    let bytes = file_of(rt, alloc, rows);
    opened(rt, alloc, bytes, path)
}

/// Compares commits of two files of the diamond at different paths, and of one file of other
/// commits.
fn compare_equality(rt: &impl Abort, alloc: Global) {
    let one = layer_at(rt, alloc, DIAMOND, "a");
    let same = layer_at(rt, alloc, DIAMOND, "b");
    let other = layer_at(rt, alloc, OCTOPUS, "a");
    let commit = commit_of(rt, &one, 0);
    assert!(rt; commit == commit_of(rt, &one, 0));
    assert!(rt; commit == commit_of(rt, &same, 0));
    assert!(rt; commit != commit_of(rt, &one, 1));
    assert!(rt; commit != commit_of(rt, &same, 1));
    assert!(rt; commit != commit_of(rt, &other, 0));
}

/// The ids of a commit and of its root tree, which outlive it.
fn ids_of<'a>(commit: Commit<'a>) -> (oid<'a>, oid<'a>) {
    (commit.id(), commit.root_tree_id())
}

/// Compares the ids of the diamond's last commit, which is gone by then.
fn compare_ids(rt: &impl Abort, alloc: Global) {
    let file = layer_at(rt, alloc, DIAMOND, "");
    let (id, tree) = ids_of(commit_of(rt, &file, 3));
    assert!(rt; id.as_bytes() == [0x44; 20].as_slice());
    assert!(rt; tree.as_bytes() == [0x99; 20].as_slice());
}

#[test]
fn commits_are_read_and_compared(rt: HostRuntime) {
    compare_dates(&rt, rt.alloc(), DATED);
    compare_equality(&rt, rt.alloc());
    compare_ids(&rt, rt.alloc());
}
