//! Layers that are put on top of a graph, and how long that takes.

use crate::fixtures::{checked_with, file, graph_of, right};
use gix_commitgraph::verify::{CommitFault, VerifyError, VerifyOptions};
use gix_commitgraph::{File, Position};
use graph_history::{Checked, CheckedGraph, PushError};
use graph_vectors::{Row, TEN};
use std::alloc::Global;
use std::process::Abort;
use std::rt::Clock;
use std::time::Instant;

/// The commits of a layer.
type Rows = &'static [Row<'static>];

/// The positions 0 and 1.
const LOWER: Rows = &[(0x11, &[], 1), (0x22, &[0], 2)];

/// As that layer, but for a wrong generation number.
const WRONG: Rows = &[(0x11, &[], 1), (0x22, &[0], 3)];

/// One with an id of that layer.
const REPEATED: Rows = &[(0x22, &[], 1)];

/// Whether ids are to be distinct, the commits of a layer that is put on top of the lower one, and
/// why it is refused, if it is.
type Pushed = (bool, Rows, Result<(), PushError>);

const PUSHED: &[Pushed] = &[
    (
        true,
        &[(0x33, &[1], 3), (0x44, &[2, 0, 1], 4), (0x55, &[], 1)],
        Ok(()),
    ),
    (true, &[], Ok(())),
    (false, REPEATED, Ok(())),
    (
        true,
        REPEATED,
        Err(PushError::Check(VerifyError::DuplicateId {
            pos: Position(2),
            earlier: Position(1),
        })),
    ),
    (
        true,
        &[(0x33, &[1], 2)],
        Err(PushError::Check(VerifyError::Generation {
            pos: Position(2),
            expected: 3,
        })),
    ),
    (
        true,
        &[(0x33, &[1], 3), (0x44, &[9], 4)],
        Err(PushError::Check(VerifyError::ParentOutOfRange {
            pos: Position(3),
            parent: Position(9),
        })),
    ),
    (
        true,
        &[(0x33, &[], 1), (0x33, &[], 1)],
        Err(PushError::Check(VerifyError::Commit {
            pos: Position(3),
            fault: CommitFault::Order,
        })),
    ),
];

/// The graph of the layer of these commits, checked for distinct ids or not.
fn checked(rt: &impl Abort, alloc: Global, distinct_ids: bool, rows: Rows) -> CheckedGraph {
    let options = VerifyOptions { distinct_ids };
    checked_with(rt, alloc, options, graph_of(rt, alloc, rows))
}

/// So many layers of these commits, over the right bases above the layers of a graph.
fn layers_on(
    rt: &impl Abort,
    alloc: Global,
    lower: &CheckedGraph,
    rows: Rows,
    count: u32,
) -> Vec<File> {
    let mut bases = Vec::new(alloc);
    for layer in lower.as_checked().graph().layers() {
        bases.push(layer.checksum().to_owned()).expect(rt, "memory");
    }
    let mut files = Vec::new(alloc);
    for _ in 0..count {
        let layer = file(rt, alloc, &bases, rows);
        bases.push(layer.checksum().to_owned()).expect(rt, "memory");
        files.push(layer).expect(rt, "memory");
    }
    files
}

/// Puts some layers on top, one after another, up to the first that is refused.
fn push_each(alloc: Global, graph: &mut CheckedGraph, files: Vec<File>) -> Result<(), PushError> {
    for file in files {
        graph.push(alloc, file)?;
    }
    Ok(())
}

/// Compares what is answered of layers that are put on top.
fn compare_pushed(rt: &impl Abort, alloc: Global, rows: &[Pushed]) {
    for (distinct_ids, upper, want) in rows {
        let mut graph = checked(rt, alloc, *distinct_ids, LOWER);
        let files = layers_on(rt, alloc, &graph, upper, 1);
        assert!(rt; push_each(alloc, &mut graph, files) == *want);
    }
}

/// Compares the refusal of a graph that is lent.
fn compare_lent(rt: &impl Abort, alloc: Global) {
    let (pos, expected) = (Position(1), 2);
    let answer = Checked::new(alloc, &graph_of(rt, alloc, WRONG)).err();
    assert!(rt; answer == Some(VerifyError::Generation { pos, expected }));
}

/// How many layers are put on top of a first one, each with its commits once more.
const LAYERS: u32 = 200;

/// The time.
fn now<R: Clock + Abort>(rt: &R) -> Instant {
    Instant::now(rt).expect(rt, "a clock")
}

/// How many microseconds have passed since then.
fn micros<R: Clock + Abort>(rt: &R, start: Instant) -> u128 {
    start.elapsed(rt).expect(rt, "a clock").as_micros()
}

/// Whether pushes take less than twenty times as long as a check of the whole. A push that checks
/// all layers anew takes a hundred times as long.
fn are_quick<R: Clock + Abort>(rt: &R, alloc: Global) -> bool {
    let mut graph = checked(rt, alloc, false, TEN);
    let files = layers_on(rt, alloc, &graph, TEN, LAYERS);
    let start = now(rt);
    assert!(rt; push_each(alloc, &mut graph, files) == Ok(()));
    let pushes = micros(rt, start);
    let whole = graph.into_graph();
    let start = now(rt);
    let _ = right(rt, alloc, &whole);
    pushes / 20 < micros(rt, start)
}

/// How often the times are compared at most, since other programs may take the processor meanwhile.
const TURNS: u32 = 10;

/// Compares how long pushes and a check of the whole take.
fn compare_times<R: Clock + Abort>(rt: &R, alloc: Global) {
    let mut quick = false;
    for _ in 0..TURNS {
        quick = quick || are_quick(rt, alloc);
    }
    assert!(rt; quick);
}

#[test]
fn layers_are_put_on_top_or_refused(rt: HostRuntime) {
    compare_pushed(&rt, rt.alloc(), PUSHED);
    compare_lent(&rt, rt.alloc());
    compare_times(&rt, rt.alloc());
}
