//! What the tests share: ids, and layers and graphs built from rows. Where an allocation fails or a
//! layer is refused, the process aborts.
//!
//! The contracts of checks and of questions are long, and here they end: these functions have none,
//! so the proof of a test does not go over them once more.

use gix_commitgraph::verify::VerifyOptions;
use gix_commitgraph::{File, Graph};
use gix_hash_core::ObjectId;
use graph_history::{Checked, CheckedGraph, Divergence};
use graph_vectors::{Row, file_of_rows};
use std::alloc::Global;
use std::process::Abort;

/// The id that repeats a byte.
pub fn id_of(byte: u8) -> ObjectId {
    ObjectId::from([byte; 20])
}

/// The ids that repeat these bytes.
pub fn ids_of(rt: &impl Abort, alloc: Global, bytes: &[u8]) -> Vec<ObjectId> {
    let mut ids = Vec::new(alloc);
    for byte in bytes {
        ids.push(id_of(*byte)).expect(rt, "memory");
    }
    ids
}

/// The layer of these bytes, whose file has this path.
pub fn opened(rt: &impl Abort, alloc: Global, bytes: Vec<u8>, path: &str) -> File {
    let path = String::from_str(alloc, path).expect(rt, "memory");
    File::new(alloc, bytes, path).ok().expect(rt, "a layer")
}

/// The file of the SHA-1 layer of these commits, which has no bases. Where no file can hold them,
/// the process aborts.
pub fn layer(rt: &impl Abort, alloc: Global, rows: &[Row<'_>]) -> Vec<u8> {
    file_of_rows(alloc, &[], rows).expect(rt, "a file")
}

/// The layer of these commits on these bases, under a name that no chain gives.
pub fn file(rt: &impl Abort, alloc: Global, bases: &[ObjectId], rows: &[Row<'_>]) -> File {
    let bytes = file_of_rows(alloc, bases, rows).expect(rt, "a file");
    opened(rt, alloc, bytes, "commit-graph")
}

/// The graph of the layer of these commits.
pub fn graph_of(rt: &impl Abort, alloc: Global, rows: &[Row<'_>]) -> Graph {
    let files = vec![in alloc; file(rt, alloc, &[], rows)];
    let files = files.expect(rt, "memory");
    Graph::new(alloc, files).ok().expect(rt, "a graph")
}

/// The graph, which is right, checked with these options.
pub fn checked_with(
    rt: &impl Abort,
    alloc: Global,
    options: VerifyOptions,
    graph: Graph,
) -> CheckedGraph {
    let checked = CheckedGraph::new_with(alloc, options, graph);
    checked.ok().expect(rt, "a right graph")
}

/// A graph that is lent and right, checked.
pub fn right<'g>(rt: &impl Abort, alloc: Global, graph: &'g Graph) -> Checked<'g> {
    Checked::new(alloc, graph).ok().expect(rt, "a right graph")
}

/// How far two commits have come apart.
pub fn divergence_of(
    rt: &impl Abort,
    alloc: Global,
    checked: &Checked<'_>,
    first: u32,
    other: u32,
) -> Divergence {
    let first = checked.position(first).expect(rt, "a commit");
    let other = checked.position(other).expect(rt, "a commit");
    let apart = checked.divergence(alloc, first, &[other]);
    apart.expect(rt, "memory")
}
