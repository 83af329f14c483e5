//! Graphs that do not open, and searches for commits.

use crate::asking::{Asked, FIVES, FOURS, LONG_FOURS, ONES, Told, ZS, expect};
use crate::folders::{built, put, put_dir, with_commits};
use graph_folder::folder::{Folder, Memory};
use graph_vectors::DIAMOND;
use std::alloc::Global;
use std::process::Abort;

/// Folders of chains and info folders, each without what it needs.
const FOLDERS: &[&str] = &["short", "unlined", "no-text", "bare"];

/// Their files, but for the first layer of the first.
const FILES: &[(&str, &[u8])] = &[
    ("short/commit-graph-chain", b"aa\nbb\n"),
    ("short/graph-bb.graph", &[0; 1099]),
    ("unlined/commit-graph-chain", b""),
    ("no-text/commit-graph-chain", b"\xff\n"),
];

/// The folder of all these.
fn damaged(rt: &impl Abort, alloc: Global) -> Memory {
    let mut memory = Memory::new(alloc);
    let first = built(rt, alloc, &[], DIAMOND);
    put(rt, alloc, &mut memory, "short/graph-aa.graph", first);
    for (path, bytes) in FILES {
        let bytes = Vec::from_slice(alloc, bytes).expect(rt, "memory");
        put(rt, alloc, &mut memory, path, bytes);
    }
    for path in FOLDERS {
        put_dir(rt, alloc, &mut memory, path);
    }
    memory
}

/// Paths of which no graph opens, and why.
const UNOPENED: &[(&str, &str)] = &[
    ("nothing", "refused open 1\n"),
    ("short", "refused open 5 layer 1 file 1\n"),
    ("unlined", "refused open 6 graph 1\n"),
    ("no-text", "refused open 4 line 0\n"),
    ("bare", "refused open 2\n"),
];

/// Asserts that each command that opens a path tells why it does not.
fn compare_unopened(rt: &impl Abort, alloc: Global, rows: &[(&str, &str)]) {
    let mut folder = damaged(rt, alloc);
    for (path, want) in rows {
        let told = (1, *want);
        expect(rt, alloc, &mut folder, Asked::Verify(path), told);
        expect(rt, alloc, &mut folder, Asked::Distinct(path), told);
        expect(rt, alloc, &mut folder, Asked::Find(path, FOURS), told);
        let query = Asked::Ancestor(path, FOURS, ONES);
        expect(rt, alloc, &mut folder, query, told);
    }
}

/// A read that fails is told, and counted once.
fn compare_failed_read(rt: &impl Abort, alloc: Global) {
    let mut folder = with_commits(rt, alloc, DIAMOND);
    folder.fail_read(0);
    let told = (1, "refused open 3\n");
    expect(rt, alloc, &mut folder, Asked::Verify("g"), told);
    assert!(rt; folder.failures() == 1);
}

#[test]
fn each_command_tells_why_nothing_opens(rt: HostRuntime) {
    compare_unopened(&rt, rt.alloc(), UNOPENED);
    compare_failed_read(&rt, rt.alloc());
}

/// Paths and texts of ids, and what a search tells. At `g` is the diamond, and nothing elsewhere.
const SEARCHES: &[(&str, &str, Told<'static>)] = &[
    ("g", FOURS, (0, "position 3 generation 3 time 7\n")),
    ("g", ONES, (0, "position 0 generation 1 time 7\n")),
    ("g", FIVES, (1, "none\n")),
    ("g", LONG_FOURS, (1, "none\n")),
    ("g", ZS, (2, "refused id 2\n")),
    ("nothing", ZS, (2, "refused id 2\n")),
    ("g", "zz", (2, "refused id 1\n")),
    ("nothing", "", (2, "refused id 1\n")),
];

/// Compares what searches tell.
fn compare_searches(rt: &impl Abort, alloc: Global, rows: &[(&str, &str, Told<'_>)]) {
    let mut folder = with_commits(rt, alloc, DIAMOND);
    for (path, id, told) in rows {
        expect(rt, alloc, &mut folder, Asked::Find(path, id), *told);
    }
}

#[test]
fn a_search_tells_where_a_commit_stands(rt: HostRuntime) {
    compare_searches(&rt, rt.alloc(), SEARCHES);
}
