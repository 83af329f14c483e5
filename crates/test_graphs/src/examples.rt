//! The examples of calls of `graph_uses`, on the diamond.

use crate::fixtures::{checked_with, divergence_of, id_of, ids_of, layer};
use gix_commitgraph::opening::OpenError;
use gix_commitgraph::verify::VerifyOptions;
use gix_commitgraph::{FileError, Position};
use gix_hash_core::{IdError, ObjectId};
use graph_history::{Checked, CheckedGraph};
use graph_uses::checked::open_checked;
use graph_uses::comparing::merge_bases;
use graph_uses::finding::{find, only_position, time_of};
use graph_uses::in_memory::open_bytes;
use graph_uses::parents::parents_of;
use graph_uses::query::parents_at_path;
use graph_uses::reaching::{merged, reaches};
use graph_uses::walking::ancestors;
use graph_vectors::{DIAMOND, Row};
use std::alloc::Global;
use std::fs;
use std::process::Abort;
use std::rt::Files;

/// The diamond, with the third commit's id twice.
const TWICE: &[Row<'static>] = &[
    (0x11, &[], 1),
    (0x33, &[0], 2),
    (0x33, &[0], 2),
    (0x44, &[1, 2], 3),
];

const THREES: &str = "3333333333333333333333333333333333333333";

const FOURS: &str = "4444444444444444444444444444444444444444";

const FIVES: &str = "5555555555555555555555555555555555555555";

/// The checked graph of the diamond, whose ids are asked to be distinct or not.
fn diamond(rt: &impl Abort, alloc: Global, distinct_ids: bool) -> CheckedGraph {
    let graph = open_bytes(alloc, layer(rt, alloc, DIAMOND))
        .ok()
        .expect(rt, "a graph");
    checked_with(rt, alloc, VerifyOptions { distinct_ids }, graph)
}

/// Asserts the refusal of bytes that are no file.
fn compare_bytes(rt: &impl Abort, alloc: Global) {
    let (layer, error) = (0, FileError::TooSmall);
    let refused = open_bytes(alloc, Vec::new(alloc)).err();
    assert!(rt; refused == Some(OpenError::Layer { layer, error }));
}

/// Asserts what is found in the diamond.
fn compare_found(rt: &impl Abort, checked: &Checked<'_>) {
    assert!(rt; find(checked, THREES) == Ok(Some(Position(2))));
    assert!(rt; find(checked, FIVES) == Ok(None));
    assert!(rt; find(checked, "33") == Err(IdError::Length));
    assert!(rt; time_of(checked, id_of(0x33).as_oid()) == Some(7));
    assert!(rt; time_of(checked, id_of(0x55).as_oid()).is_none());
}

/// Positions of the diamond's commits, with those of their parents.
const PARENTS: &[(u32, &[Position])] = &[
    (0, &[]),
    (2, &[Position(0)]),
    (3, &[Position(1), Position(2)]),
];

/// Asserts the parents of the diamond's commits.
fn compare_parents(
    rt: &impl Abort,
    alloc: Global,
    checked: &Checked<'_>,
    rows: &[(u32, &[Position])],
) {
    for row in rows {
        let pos = checked.position(row.0).expect(rt, "a commit");
        let parents = parents_of(alloc, checked, pos).expect(rt, "parents");
        assert!(rt; parents.as_slice() == row.1);
    }
}

/// Positions of two commits, and whether the first leads to the second.
const LEADS: &[(u32, u32, bool)] = &[(3, 0, true), (1, 2, false), (2, 2, true), (0, 3, false)];

/// Asserts which of the diamond's commits lead to which.
fn compare_leads(rt: &impl Abort, alloc: Global, checked: &Checked<'_>, rows: &[(u32, u32, bool)]) {
    for row in rows {
        let from = checked.position(row.0).expect(rt, "a commit");
        let to = checked.position(row.1).expect(rt, "a commit");
        assert!(rt; reaches(alloc, checked, from, to).expect(rt, "an answer") == row.2);
    }
}

/// Asserts which commits are merged into the second, all ancestors of the last, and the merge base
/// of the two between.
fn compare_ancestors(rt: &impl Abort, alloc: Global, checked: &Checked<'_>) {
    let commits = ids_of(rt, alloc, &[0x11, 0x33, 0x22, 0x55]);
    let found = merged(alloc, checked, id_of(0x22).as_oid(), &commits);
    assert!(rt; found.expect(rt, "an answer") == ids_of(rt, alloc, &[0x11, 0x22]));
    let all = ancestors(alloc, checked, id_of(0x44).as_oid());
    assert!(rt; all.expect(rt, "an answer") == ids_of(rt, alloc, &[0x44, 0x33, 0x22, 0x11]));
    let apart = divergence_of(rt, alloc, checked, 3, 1);
    assert!(rt; apart.ahead == 2 && apart.behind == 0);
    let bases = merge_bases(alloc, checked, id_of(0x22).as_oid(), id_of(0x33).as_oid());
    assert!(rt; bases.expect(rt, "an answer") == ids_of(rt, alloc, &[0x11]));
}

/// Asserts where the only commits with some ids stand, the first of which is told where ids were
/// asked to be distinct.
fn compare_only(rt: &impl Abort, checked: &Checked<'_>, want: Option<Position>) {
    assert!(rt; only_position(checked, id_of(0x33).as_oid()) == want);
    assert!(rt; only_position(checked, id_of(0x55).as_oid()).is_none());
}

/// Asserts what is answered of the diamond, whose ids are asked to be distinct or not.
fn compare_diamond(rt: &impl Abort, alloc: Global, distinct_ids: bool, only: Option<Position>) {
    let graph = diamond(rt, alloc, distinct_ids);
    let checked = graph.as_checked();
    compare_found(rt, &checked);
    compare_parents(rt, alloc, &checked, PARENTS);
    compare_leads(rt, alloc, &checked, LEADS);
    compare_ancestors(rt, alloc, &checked);
    compare_only(rt, &checked, only);
}

const RIGHT: &str = "graph_uses_test_right";

const WRONG: &str = "graph_uses_test_wrong";

const MISSING: &str = "graph_uses_test_missing";

/// Texts of ids, with the parents of their commits in the right file.
const AT_PATH: &[(&str, &[u8])] = &[(FOURS, &[0x22, 0x33]), (FIVES, &[])];

/// Paths where there is no right graph, and what is said of them.
const REFUSED: &[(&str, &str)] = &[
    (MISSING, "the graph was not opened: NothingFound"),
    (WRONG, "the graph failed its check: Commit"),
];

/// The parents of a commit of a graph on disk.
fn parents_at<R: Files + Abort>(rt: &R, alloc: Global, path: &str, id: &str) -> Vec<ObjectId> {
    let parents = parents_at_path(rt, alloc, path, id);
    parents.ok().expect(rt, "parents")
}

/// Why there are none.
fn refusal_at<R: Files + Abort>(rt: &R, alloc: Global, path: &str, id: &str) -> String {
    let error = parents_at_path(rt, alloc, path, id).err();
    let text = error.expect(rt, "a refusal").to_string(alloc);
    text.expect(rt, "memory for a text")
}

/// Asserts the parents of commits of a graph on disk.
fn compare_at_path<R: Files + Abort>(rt: &R, alloc: Global, rows: &[(&str, &[u8])]) {
    for row in rows {
        assert!(rt; parents_at(rt, alloc, RIGHT, row.0) == ids_of(rt, alloc, row.1));
    }
}

/// Asserts why there are none at other paths.
fn compare_refused<R: Files + Abort>(rt: &R, alloc: Global, rows: &[(&str, &str)]) {
    for row in rows {
        assert!(rt; refusal_at(rt, alloc, row.0, FOURS).as_str() == row.1);
    }
}

/// Writes a file of these commits.
fn put<R: Files + Abort>(rt: &R, alloc: Global, path: &str, rows: &[Row<'_>]) {
    fs::write(rt, path, layer(rt, alloc, rows).as_slice()).expect(rt, "a file");
}

/// The checked graph at a path.
fn checked_at<R: Files + Abort>(rt: &R, alloc: Global, path: &str) -> CheckedGraph {
    let graph = open_checked(rt, alloc, path);
    graph.ok().expect(rt, "a right graph")
}

#[test]
fn asks_graphs_in_memory_and_on_disk(rt: HostRuntime) {
    compare_bytes(&rt, rt.alloc());
    compare_diamond(&rt, rt.alloc(), false, None);
    compare_diamond(&rt, rt.alloc(), true, Some(Position(2)));
    put(&rt, rt.alloc(), RIGHT, DIAMOND);
    put(&rt, rt.alloc(), WRONG, TWICE);
    let graph = checked_at(&rt, rt.alloc(), RIGHT);
    compare_found(&rt, &graph.as_checked());
    compare_at_path(&rt, rt.alloc(), AT_PATH);
    compare_refused(&rt, rt.alloc(), REFUSED);
    fs::remove_file(&rt, RIGHT).expect(&rt, "no file");
    fs::remove_file(&rt, WRONG).expect(&rt, "no file");
}
