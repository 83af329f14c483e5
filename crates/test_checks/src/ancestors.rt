//! Queries for walks along parents from one commit to another.

use crate::fixtures::{Layers, graph, right};
use gix_commitgraph::{Graph, Position};
use graph_history::Reached;
use graph_vectors::{DIAMOND, OCTOPUS, Row, TEN};
use std::alloc::Global;
use std::process::Abort;

/// The greatest generation number.
const MAX: u32 = 1073741823;

/// Two ways to the root, one of them shorter.
const SHORTCUT: &[Row<'static>] = &[(0x11, &[], 1), (0x22, &[0], 2), (0x33, &[1, 0], 3)];

/// Two roots, and two commits on one of them.
const APART: &[Row<'static>] = &[
    (0x11, &[], 1),
    (0x22, &[], 1),
    (0x33, &[1], 2),
    (0x44, &[2], 3),
];

/// Three commits, each of which reaches each.
const CYCLE: &[Row<'static>] = &[(0x11, &[2], MAX), (0x22, &[0], MAX), (0x33, &[1], MAX)];

/// A merge of three commits. The second is a root, the others have parents of their own.
const BETWEEN: &[Row<'static>] = &[
    (0x11, &[], 1),
    (0x22, &[], 1),
    (0x33, &[1], 2),
    (0x44, &[1], 2),
    (0x55, &[2], 3),
    (0x66, &[3], 3),
    (0x77, &[4, 0, 5], 4),
];

/// A merge of three commits, of which the second is nearest to the root.
const BRANCHES: &[Row<'static>] = &[
    (0x11, &[], 1),
    (0x22, &[0], 2),
    (0x33, &[1], 3),
    (0x44, &[2], 4),
    (0x55, &[0], 2),
    (0x66, &[1], 3),
    (0x77, &[3, 4, 5], 5),
];

/// Two layers, of which the upper one stands on the lower one.
const TWO_LAYERS: Layers = &[
    &[(0x11, &[], 1), (0x22, &[0], 2)],
    &[(0x33, &[1], 3), (0x44, &[2, 0], 4)],
];

/// A walk along parents.
type Walk = &'static [u32];

/// The layers of a graph, two positions, the shortest walks from the one to the other, of which any
/// may be answered, and the least and the greatest number of visits.
///
/// A walk takes at least as many visits as it has commits before its end. Where there is none, each
/// commit that is reached and has a greater generation number than the one that is looked for is
/// visited. Visited are at most the commits that are reached and have no lower generation number
/// than that one. A search that goes breadth first visits none that is farther away than it.
type Query = (Layers, (u32, u32), &'static [Walk], (u32, u32));

const FOUND: &[Query] = &[
    (&[DIAMOND], (3, 0), &[&[3, 1, 0], &[3, 2, 0]], (2, 4)),
    (&[DIAMOND], (2, 2), &[&[2]], (0, 1)),
    (&[OCTOPUS], (3, 0), &[&[3, 0]], (1, 3)),
    (&[SHORTCUT], (2, 0), &[&[2, 0]], (1, 3)),
    (&[TEN], (9, 0), &[&[9, 8, 7, 6, 5, 4, 3, 2, 1, 0]], (9, 10)),
    (&[CYCLE], (0, 1), &[&[0, 2, 1]], (2, 3)),
    (&[BETWEEN], (6, 0), &[&[6, 0]], (1, 4)),
    (&[BRANCHES], (6, 0), &[&[6, 4, 0]], (2, 7)),
    (TWO_LAYERS, (3, 1), &[&[3, 2, 1]], (2, 3)),
];

const NOT_FOUND: &[Query] = &[
    (&[DIAMOND], (1, 2), &[], (0, 1)),
    (&[DIAMOND], (0, 3), &[], (0, 0)),
    (&[APART], (3, 0), &[], (2, 3)),
];

/// What a right graph answers to a query for a walk between two of its positions.
fn reached(rt: &impl Abort, alloc: Global, graph: &Graph, (from, to): (u32, u32)) -> Reached {
    let checked = right(rt, alloc, graph);
    let commits = checked.num_commits();
    assert!(rt; from < commits && to < commits);
    checked
        .ancestor_walk(alloc, Position(from), Position(to))
        .expect(rt, "memory")
}

/// Whether these are the positions of a walk.
fn is_same(found: &[Position], walk: &[u32]) -> bool {
    let mut same = found.len() == walk.len();
    for (pos, number) in found.iter().zip(walk) {
        same = same && pos.0 == *number;
    }
    same
}

/// Whether one of the walks was found, or, where there are none, none was.
fn is_one_of(found: Option<&[Position]>, walks: &[&[u32]]) -> bool {
    match found {
        None => walks.is_empty(),
        Some(found) => walks.iter().any(|walk| is_same(found, walk)),
    }
}

/// The parents of the commit at a position.
fn parents_of(layers: Layers, pos: Position) -> &'static [u32] {
    let mut number = pos.0 as usize;
    for rows in layers {
        if let Some(row) = rows.get(number) {
            return row.1;
        }
        number = number.saturating_sub(rows.len());
    }
    &[]
}

/// Asserts that each commit of a walk is a parent of the one before.
fn compare_steps(rt: &impl Abort, layers: Layers, walk: &[Position]) {
    for step in walk.windows(2) {
        if let [child, parent] = step {
            assert!(rt; parents_of(layers, *child).contains(&parent.0));
        }
    }
}

/// Compares the answers to queries.
fn compare_answers(rt: &impl Abort, alloc: Global, rows: &[Query]) {
    for (layers, ends, walks, (least, most)) in rows {
        let graph = graph(rt, alloc, layers);
        let answer = reached(rt, alloc, &graph, *ends);
        assert!(rt; *least <= answer.visits && answer.visits <= *most);
        assert!(rt; is_one_of(answer.walk.as_deref(), walks));
        compare_steps(rt, layers, answer.walk.as_deref().unwrap_or(&[]));
    }
}

#[test]
fn a_shortest_walk_is_found_where_there_is_one(rt: HostRuntime) {
    compare_answers(&rt, rt.alloc(), FOUND);
    compare_answers(&rt, rt.alloc(), NOT_FOUND);
}
