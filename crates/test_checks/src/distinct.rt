//! Checks of graphs of which an id stands in two layers.

use crate::fixtures::{
    ANY_IDS, Chain, DISTINCT_IDS, Fault, Layers, Options, Summary, compare_refusal, compare_right,
    graph, graph_of, id_of,
};
use gix_commitgraph::verify::{CommitFault, VerifyError};
use gix_commitgraph::{Graph, Position};
use graph_vectors::Row;
use std::alloc::Global;
use std::process::Abort;

/// The positions 0 and 1.
const LOWER: &[Row<'static>] = &[(0x11, &[], 1), (0x22, &[0], 2)];

/// The id of position 1 stands at position 2 too.
const REPEATED: Layers = &[LOWER, &[(0x22, &[], 1), (0x33, &[2], 2), (0x44, &[], 1)]];

/// The id of position 0 stands at position 3 too, which is not above position 2.
const FALLING: Layers = &[LOWER, &[(0x33, &[], 1), (0x11, &[], 1), (0x44, &[], 1)]];

/// The id of position 1 stands at position 4 too, and the layers between have others.
const FAR_APART: Layers = &[
    LOWER,
    &[(0x33, &[], 1)],
    &[],
    &[(0x44, &[], 1)],
    &[(0x22, &[], 1)],
];

/// No id stands in two layers. Some of the upper layer are below those of the lower one.
const DISTINCT: Layers = &[LOWER, &[(0x15, &[1], 3), (0x33, &[], 1)]];

/// Layers, how they are checked, the number of commits, and what the check says.
type Right = (Layers, Options, usize, Summary);

const RIGHT: &[Right] = &[
    (REPEATED, None, 5, (Some(1), &[(0, 3), (1, 2)])),
    (REPEATED, ANY_IDS, 5, (Some(1), &[(0, 3), (1, 2)])),
    (FAR_APART, None, 5, (Some(1), &[(0, 4), (1, 1)])),
    (FAR_APART, ANY_IDS, 5, (Some(1), &[(0, 4), (1, 1)])),
    (DISTINCT, None, 4, (Some(2), &[(0, 2), (1, 2)])),
    (DISTINCT, ANY_IDS, 4, (Some(2), &[(0, 2), (1, 2)])),
    (DISTINCT, DISTINCT_IDS, 4, (Some(2), &[(0, 2), (1, 2)])),
];

/// Compares the outcomes of right graphs.
fn compare_outcomes(rt: &impl Abort, alloc: Global, rows: &[Right]) {
    for (layers, options, commits, want) in rows {
        let graph = graph(rt, alloc, layers);
        compare_right(rt, alloc, (&graph, layers), *options, (*commits, *want));
    }
}

/// Layers, how they are checked, why they are refused, and on how many commits the processor is
/// called.
type Wrong = (Layers, Options, Fault, usize);

const WRONG: &[Wrong] = &[
    (
        REPEATED,
        DISTINCT_IDS,
        VerifyError::DuplicateId {
            pos: Position(2),
            earlier: Position(1),
        },
        2,
    ),
    (
        FALLING,
        DISTINCT_IDS,
        VerifyError::Commit {
            pos: Position(3),
            fault: CommitFault::Order,
        },
        3,
    ),
    (
        FAR_APART,
        DISTINCT_IDS,
        VerifyError::DuplicateId {
            pos: Position(4),
            earlier: Position(1),
        },
        4,
    ),
];

/// Compares the refusals of graphs.
fn compare_wrong(rt: &impl Abort, alloc: Global, rows: &[Wrong]) {
    for (layers, options, want, calls) in rows {
        let graph = graph(rt, alloc, layers);
        compare_refusal(rt, alloc, (&graph, layers), *options, (want, *calls));
    }
}

/// How the graph of a repeated id and of a null root tree at its second position is checked, and
/// why it is refused. The fault of the id comes before that of the tree.
const NULL_TREE: &[(Options, Fault)] = &[
    (
        None,
        VerifyError::Commit {
            pos: Position(2),
            fault: CommitFault::NullTree,
        },
    ),
    (
        ANY_IDS,
        VerifyError::Commit {
            pos: Position(2),
            fault: CommitFault::NullTree,
        },
    ),
    (
        DISTINCT_IDS,
        VerifyError::DuplicateId {
            pos: Position(2),
            earlier: Position(1),
        },
    ),
];

/// The graph of these layers, the first commit of each of which, but for the lowest, has a null
/// root tree.
fn with_null_trees(rt: &impl Abort, alloc: Global, layers: Layers) -> Graph {
    let mut chain = Chain::new(alloc);
    for rows in layers {
        let mut plan = chain.plan(rt, alloc, rows);
        if !chain.files.is_empty() {
            for commit in plan.commits.iter_mut().take(1) {
                commit.tree = id_of(0);
            }
        }
        chain.push(rt, alloc, &plan);
    }
    graph_of(rt, alloc, chain.files)
}

/// Compares the refusals of that graph.
fn compare_null_tree(rt: &impl Abort, alloc: Global, rows: &[(Options, Fault)]) {
    let graph = with_null_trees(rt, alloc, REPEATED);
    for (options, want) in rows {
        compare_refusal(rt, alloc, (&graph, REPEATED), *options, (want, 2));
    }
}

/// Asserts that the ids of the graph of these layers are looked up exactly: each at its position,
/// and one that is not there at none.
fn compare_lookups(rt: &impl Abort, alloc: Global, layers: Layers) {
    let graph = graph(rt, alloc, layers);
    for pos in 0..graph.num_commits() {
        let found = graph.lookup(graph.id_at(Position(pos)));
        assert!(rt; found == Some(Position(pos)));
    }
    assert!(rt; graph.lookup(id_of(0x12).as_oid()).is_none());
}

#[test]
fn an_id_in_two_layers_is_refused_where_that_is_asked(rt: HostRuntime) {
    compare_outcomes(&rt, rt.alloc(), RIGHT);
    compare_wrong(&rt, rt.alloc(), WRONG);
    compare_null_tree(&rt, rt.alloc(), NULL_TREE);
    compare_lookups(&rt, rt.alloc(), DISTINCT);
}
