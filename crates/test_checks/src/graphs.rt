//! Graphs of several layers: where their commits stand, what iterators give, and where ids are
//! found.

use crate::fixtures::{Layers, built, chain_of, graph, graph_of_one, id_of, opened};
use gix_commitgraph::{File, Graph, GraphError, Position, file};
use gix_hash_core::{Kind, ObjectId};
use graph_vectors::LayerPlan;
use std::alloc::Global;
use std::process::Abort;

/// For each commit of a graph in order, its layer, its place in its layer, and the byte that its id
/// repeats.
type Places = &'static [(usize, u32, u8)];

/// Layers of which two are empty.
const WITH_EMPTY: Layers = &[
    &[],
    &[(0x11, &[], 1), (0x22, &[], 1)],
    &[],
    &[(0x15, &[], 1)],
];

const PLACES_WITH_EMPTY: Places = &[(1, 0, 0x11), (1, 1, 0x22), (3, 0, 0x15)];

/// Layers without commits.
const EMPTY: Layers = &[&[], &[]];

const NO_PLACES: Places = &[];

/// Layers of two and three commits, which have one id in both.
const TWO_AND_THREE: Layers = &[
    &[(0x11, &[], 1), (0x22, &[], 1)],
    &[(0x22, &[], 1), (0x33, &[], 1), (0x44, &[], 1)],
];

const PLACES_OF_FIVE: Places = &[
    (0, 0, 0x11),
    (0, 1, 0x22),
    (1, 0, 0x22),
    (1, 1, 0x33),
    (1, 2, 0x44),
];

/// Asserts that a position of a graph is this place of a layer: by its id, and by the commit there,
/// which is equal to the commit of the layer's file.
fn compare_place(rt: &impl Abort, graph: &Graph, pos: u32, layer: &File, (place, byte): (u32, u8)) {
    assert!(rt; pos < graph.num_commits() && place < layer.num_commits());
    let commit = graph.commit_at(Position(pos));
    assert!(rt; graph.id_at(Position(pos)) == id_of(byte).as_oid());
    assert!(rt; commit.id() == id_of(byte).as_oid());
    assert!(rt; commit.position() == file::Position(place));
    assert!(rt; commit == layer.commit_at(file::Position(place)));
}

/// Compares where the commits of the graph of these layers stand. The files are opened anew, so
/// their commits are equal by their bytes. No layer takes more than three comparisons.
fn compare_places(rt: &impl Abort, alloc: Global, layers: Layers, rows: Places) {
    let graph = graph(rt, alloc, layers);
    let files = chain_of(rt, alloc, layers).files;
    assert!(rt; graph.object_hash() == Kind::Sha1 && graph.num_commits() as usize == rows.len());
    for (pos, (layer, place, byte)) in (0u32..).zip(rows) {
        assert!(rt; pos < graph.num_commits());
        let (found, comparisons) = graph.layer_of_counted(Position(pos));
        assert!(rt; found == *layer && comparisons <= 3);
        let file = files.get(*layer).expect(rt, "a layer");
        compare_place(rt, &graph, pos, file, (*place, *byte));
    }
}

/// Compares what the iterators over the graph of these layers give, how many items they say are
/// left, and that they end for good.
fn compare_items(rt: &impl Abort, alloc: Global, layers: Layers, rows: Places) {
    let graph = graph(rt, alloc, layers);
    let (mut ids, mut commits) = (graph.iter_ids(), graph.iter_commits());
    let mut left = rows.len();
    for (_, place, byte) in rows {
        assert!(rt; ids.size_hint() == (left, Some(left)));
        assert!(rt; commits.size_hint() == (left, Some(left)));
        left = left.saturating_sub(1);
        assert!(rt; ids.next() == Some(id_of(*byte).as_oid()));
        let commit = commits.next().expect(rt, "a commit");
        assert!(rt; commit.id() == id_of(*byte).as_oid());
        assert!(rt; commit.position() == file::Position(*place));
    }
    for _ in 0..3 {
        assert!(rt; ids.size_hint() == (0, Some(0)) && commits.size_hint() == (0, Some(0)));
        assert!(rt; ids.next().is_none() && commits.next().is_none());
    }
}

/// Asserts that the commits that share an id are two.
fn compare_shared(rt: &impl Abort, graph: &Graph) {
    assert!(rt; graph.num_commits() == 5);
    let (first, second) = (graph.commit_at(Position(1)), graph.commit_at(Position(2)));
    assert!(rt; first.id() == second.id() && first != second);
}

#[test]
fn positions_count_over_all_layers(rt: HostRuntime) {
    let alloc = rt.alloc();
    compare_places(&rt, alloc, WITH_EMPTY, PLACES_WITH_EMPTY);
    compare_places(&rt, alloc, TWO_AND_THREE, PLACES_OF_FIVE);
    compare_places(&rt, alloc, EMPTY, NO_PLACES);
    compare_items(&rt, alloc, WITH_EMPTY, PLACES_WITH_EMPTY);
    compare_items(&rt, alloc, TWO_AND_THREE, PLACES_OF_FIVE);
    compare_items(&rt, alloc, EMPTY, NO_PLACES);
    compare_shared(&rt, &graph(&rt, alloc, TWO_AND_THREE));
}

/// An id, and where it is found in the layers of two and three commits, if it is.
type Found = (ObjectId, Option<u32>);

/// Asserts where an id is found, alone and with its commit.
fn compare_found(rt: &impl Abort, graph: &Graph, (id, want): Found) {
    assert!(rt; graph.lookup(id.as_oid()) == want.map(Position));
    match (graph.commit_by_id(id.as_oid()), want) {
        (Some(commit), Some(pos)) => {
            assert!(rt; pos < graph.num_commits());
            assert!(rt; commit == graph.commit_at(Position(pos)));
            assert!(rt; commit.id() == id.as_oid());
        }
        (found, want) => assert!(rt; found.is_none() && want.is_none()),
    }
}

#[test]
fn the_first_layer_that_has_an_id_decides(rt: HostRuntime) {
    let graph = graph(&rt, rt.alloc(), TWO_AND_THREE);
    compare_found(&rt, &graph, (id_of(0x11), Some(0)));
    compare_found(&rt, &graph, (id_of(0x22), Some(1)));
    compare_found(&rt, &graph, (id_of(0x33), Some(3)));
    compare_found(&rt, &graph, (id_of(0x44), Some(4)));
    compare_found(&rt, &graph, (id_of(0x23), None));
    compare_found(&rt, &graph, (ObjectId::from([0x22; 32]), None));
}

/// The layer of this kind without commits.
fn empty_layer(rt: &impl Abort, alloc: Global, kind: Kind) -> File {
    let plan = LayerPlan {
        kind,
        bases: Vec::new(alloc),
        commits: Vec::new(alloc),
    };
    opened(rt, alloc, built(rt, alloc, &plan), "commit-graph")
}

/// Kinds of layers, and why they make no graph.
const REFUSED: &[(&[Kind], GraphError)] = &[
    (&[], GraphError::NoFiles),
    (
        &[Kind::Sha1, Kind::Sha256],
        GraphError::HashMismatch { layer: 1 },
    ),
    (
        &[Kind::Sha256, Kind::Sha256, Kind::Sha1],
        GraphError::HashMismatch { layer: 2 },
    ),
];

/// Compares why empty layers of some kinds make no graph.
fn compare_refused(rt: &impl Abort, alloc: Global, rows: &[(&[Kind], GraphError)]) {
    for (kinds, want) in rows {
        let mut files = Vec::new(alloc);
        for kind in *kinds {
            let layer = empty_layer(rt, alloc, *kind);
            files.push(layer).expect(rt, "memory");
        }
        assert!(rt; Graph::new(alloc, files).err().as_ref() == Some(want));
    }
}

/// Asserts the kind of the graph of an empty layer.
fn compare_kind(rt: &impl Abort, alloc: Global, kind: Kind) {
    let graph = graph_of_one(rt, alloc, empty_layer(rt, alloc, kind));
    assert!(rt; graph.object_hash() == kind && graph.num_commits() == 0);
}

#[test]
fn layers_of_one_kind_make_a_graph(rt: HostRuntime) {
    compare_refused(&rt, rt.alloc(), REFUSED);
    compare_kind(&rt, rt.alloc(), Kind::Sha1);
    compare_kind(&rt, rt.alloc(), Kind::Sha256);
}
