//! Graphs of up to 256 layers of one commit each: how many comparisons find a layer, and their
//! check.

use crate::fixtures::{
    Call, Chain, EACH, Processor, Summary, checked, compare_outcome, graph_of, right,
};
use gix_commitgraph::{Graph, Position, file};
use gix_hash_core::ObjectId;
use graph_vectors::planned_commit;
use std::alloc::Global;
use std::process::Abort;

/// A number of layers.
type LayerCount = u32;

/// The id of the commit at a position.
fn id_at(pos: u32) -> ObjectId {
    let mut id = [0x11; 20];
    id[19] = (pos & 0xff) as u8;
    ObjectId::from(id)
}

/// Puts a layer of one commit on top, whose only parent is the commit of the layer below.
fn push(rt: &impl Abort, alloc: Global, chain: &mut Chain, pos: u32) {
    let below = [pos.wrapping_sub(1)];
    let parents: &[u32] = if pos == 0 { &[] } else { &below };
    let commit = planned_commit(alloc, id_at(pos), parents, pos.wrapping_add(1));
    let mut plan = chain.plan(rt, alloc, &[]);
    let commit = commit.expect(rt, "memory");
    plan.commits.push(commit).expect(rt, "memory");
    chain.push(rt, alloc, &plan);
}

/// The graph of so many such layers.
fn one_commit_each(rt: &impl Abort, alloc: Global, layers: LayerCount) -> Graph {
    let mut chain = Chain::new(alloc);
    for pos in 0..layers {
        push(rt, alloc, &mut chain, pos);
    }
    graph_of(rt, alloc, chain.files)
}

/// How many comparisons find each layer of a graph whose layers have one commit each, the fewest
/// first.
fn comparisons(rt: &impl Abort, alloc: Global, graph: &Graph) -> Vec<u32> {
    let mut counts = Vec::new(alloc);
    for pos in 0..graph.num_commits() {
        let (layer, count) = graph.layer_of_counted(Position(pos));
        assert!(rt; layer == pos as usize);
        counts.push(count).expect(rt, "memory");
    }
    counts.sort().expect(rt, "memory");
    counts
}

/// How many comparisons find each of so many layers, the fewest first. Each comparison leaves one
/// of two halves, of which neither has more than one layer more than the other, until one layer is
/// left.
const HALVED: &[(LayerCount, &[u32])] = &[
    (1, &[0]),
    (2, &[1, 1]),
    (3, &[1, 2, 2]),
    (4, &[2, 2, 2, 2]),
    (5, &[2, 2, 2, 3, 3]),
];

/// Compares how many comparisons find the layers of small graphs.
fn compare_halves(rt: &impl Abort, alloc: Global, rows: &[(LayerCount, &[u32])]) {
    for (layers, want) in rows {
        let graph = one_commit_each(rt, alloc, *layers);
        assert!(rt; comparisons(rt, alloc, &graph).as_slice() == *want);
    }
}

/// Asserts that these are the calls on the commits of the layers, once and in order.
fn compare_calls(rt: &impl Abort, calls: &[Call], layers: usize) {
    assert!(rt; calls.len() == layers);
    for (pos, (place, id)) in (0u32..).zip(calls) {
        assert!(rt; *place == file::Position(0) && *id == id_at(pos));
    }
}

/// What the check says of 256 layers.
const SUMMARY: Summary = (Some(255), &[(0, 1), (1, 255)]);

/// Compares the outcome of the graph of 256 layers, checked each way.
fn compare_check(rt: &impl Abort, alloc: Global, graph: &Graph) {
    for options in EACH {
        let (answer, calls) = checked(alloc, graph, *options, Processor::Accepts);
        compare_calls(rt, &calls, 256);
        let outcome = answer.ok().expect(rt, "a right graph");
        compare_outcome(rt, &outcome, 256, SUMMARY);
    }
    assert!(rt; right(rt, alloc, graph).num_commits() == 256);
}

/// Compares how many comparisons find the layers of the graph of 256: at most nine, and for some
/// layer eight or more.
fn compare_most(rt: &impl Abort, alloc: Global, graph: &Graph) {
    let counts = comparisons(rt, alloc, graph);
    assert!(rt; counts.len() == 256 && matches!(counts.last(), Some(8 | 9)));
}

#[test]
fn layers_are_found_by_halves_up_to_256(rt: HostRuntime) {
    compare_halves(&rt, rt.alloc(), HALVED);
    let graph = one_commit_each(&rt, rt.alloc(), 256);
    compare_most(&rt, rt.alloc(), &graph);
    compare_check(&rt, rt.alloc(), &graph);
}
