//! Reads that fail, and calls of a folder that find no memory.

use crate::fixtures::{Asked, CS, FOURS, ONES, THREES, TWOS, answer, ensure, expect, graphs};
use crate::watched::{Watched, watched_graphs};
use graph_folder::folder::{Folder, Memory};
use graph_vectors::Sink;
use std::alloc::Global;
use std::process::Abort;

/// What is asked, the number of the first of its reads that decides, and how many reads are made at
/// least and at most. The read of an info folder's own file decides nothing where it is not there,
/// and nothing is read for a text that is no id.
type Reads = (Asked<'static>, u32, u32, u32);

const READS: &[Reads] = &[
    (Asked::Words(&["verify", "diamond"]), 0, 1, 1),
    (Asked::Words(&["distinct", "diamond"]), 0, 1, 1),
    (
        Asked::Words(&["ancestor", "diamond", THREES, ONES]),
        0,
        1,
        1,
    ),
    (Asked::Words(&["verify", "repeated"]), 0, 4, 4),
    (Asked::Words(&["verify", "chained"]), 1, 5, 5),
    (Asked::Words(&["find", "chained", TWOS]), 1, 9, 9),
    // The file's head, the ids that begin alike, and the record; in a chain also its file, and the
    // head and the ids of each layer.
    (Asked::Words(&["find", "diamond", FOURS]), 0, 3, 3),
    (Asked::Words(&["find", "repeated", TWOS]), 0, 8, 8),
    (Asked::Words(&["find", "diamond", "zz"]), 0, 0, 0),
    (Asked::Words(&["ancestor", "diamond", "zz", ONES]), 0, 0, 0),
    (Asked::Words(&["ancestor", "diamond", ONES, "zz"]), 0, 0, 0),
    // The chain's file, the heads of two layers, and ids and records of both.
    (Asked::IsAncestor("merging", ONES, CS), 0, 5, 20),
    (Asked::Walk("merging", CS, ONES), 0, 5, 20),
    (Asked::MergeBaseIds("merging", CS, ONES), 0, 5, 20),
];

/// Asserts how a command is answered where one of its reads fails: that one is told, or the answer
/// is the plain one. Only reads that were made are counted as failed.
fn compare_reads(rt: &impl Abort, alloc: Global, folder: &mut Memory, row: &Reads) {
    let (asked, first, least, most) = *row;
    folder.fail_read(u32::MAX);
    let mut plain = Sink::new(alloc, usize::MAX, None);
    let status = answer(rt, alloc, folder, asked, &mut plain).expect(rt, "an answer");
    let mut made = 0u32;
    for read in 0..=most {
        let before = folder.failures();
        folder.fail_read(read);
        let mut out = Sink::new(alloc, usize::MAX, None);
        let answered = answer(rt, alloc, folder, asked, &mut out);
        let failed = folder.failures() > before;
        let (status, text) = if failed && first <= read {
            (1, "refused open 3\n")
        } else {
            (status, plain.text())
        };
        ensure(rt, text, answered == Ok(status) && out.text() == text);
        made = made.saturating_add(u32::from(failed));
    }
    assert!(rt; least <= made && made <= most);
}

/// The same of some commands.
fn compare_all_reads(rt: &impl Abort, alloc: Global, rows: &[Reads]) {
    let mut folder = graphs(rt, alloc);
    for row in rows {
        compare_reads(rt, alloc, &mut folder, row);
    }
}

#[test]
fn each_read_may_fail(rt: HostRuntime) {
    compare_all_reads(&rt, rt.alloc(), READS);
}

/// What is asked, and what is told where memory is wanted.
type Call = (Asked<'static>, &'static str);

const OPENING: &str = "refused open 7\n";

/// Where a graph is trusted, its parts are read while they are asked.
const ASKING: &str = "refused walk\n";

const CALLS: &[Call] = &[
    (Asked::Words(&["verify", "diamond"]), OPENING),
    (Asked::Words(&["verify", "repeated"]), OPENING),
    (Asked::Words(&["verify", "chained"]), OPENING),
    (Asked::Words(&["verify", "damaged"]), OPENING),
    (Asked::Words(&["distinct", "distinct"]), OPENING),
    (
        Asked::Words(&["ancestor", "diamond", THREES, ONES]),
        OPENING,
    ),
    (Asked::Words(&["find", "diamond", FOURS]), OPENING),
    (Asked::Words(&["find", "repeated", TWOS]), OPENING),
    (Asked::Words(&["find", "damaged", TWOS]), OPENING),
    (Asked::IsAncestor("merging", ONES, CS), ASKING),
    (Asked::Walk("merging", CS, ONES), ASKING),
    (Asked::MergeBaseIds("merging", CS, ONES), ASKING),
];

/// Asserts what is answered where each call of a folder finds no memory in turn.
fn compare_calls(rt: &impl Abort, alloc: Global, folder: &mut Watched, (asked, text): Call) {
    folder.calls = 0;
    folder.refused = u32::MAX;
    let mut out = Sink::new(alloc, usize::MAX, None);
    let answered = answer(rt, alloc, folder, asked, &mut out);
    assert!(rt; answered == Ok(0) && folder.calls > 0);
    for call in 0..folder.calls {
        folder.calls = 0;
        folder.refused = call;
        expect(rt, alloc, folder, asked, (1, text));
        assert!(rt; folder.calls == call.saturating_add(1));
    }
}

/// The same of some commands.
fn compare_all_calls(rt: &impl Abort, alloc: Global, rows: &[Call]) {
    let mut folder = watched_graphs(rt, alloc);
    for row in rows {
        compare_calls(rt, alloc, &mut folder, *row);
    }
}

#[test]
fn each_call_of_a_folder_may_find_no_memory(rt: HostRuntime) {
    compare_all_calls(&rt, rt.alloc(), CALLS);
}
