//! The filters of a history against trees that are asked for.

ghost use Rattle.gix_commitgraph.specs.Sound.{Sound};

use crate::checks::{CLEAR, LIMITS, file_of, graph_of, with_other_bit};
use crate::fixtures::{put_large, small_trees};
use crate::tables::LARGE;
use gix_commitgraph::Graph;
use gix_hash_core::{Kind, ObjectId};
use graph_chunks::filters::GraphFilters;
use object_stream::EntryError;
use path_checks::{PathsError, PathsFault, check_by_requests, check_written_by_requests};
use std::alloc::Global;
use std::process::Abort;
use test_trees::known::KnownTrees;

/// Checks the filters of a graph by the entries of a stream, whether they are right or just those
/// that Git writes, and adds the lines that ask to an output. The contracts are long, and here they
/// end.
fn check(
    rt: &impl Abort,
    alloc: Global,
    graph: &Graph,
    exact: bool,
    mut stream: &[u8],
    output: &mut Vec<u8>,
) -> Result<(), PathsError>
    requires { Sound graph.now }
{
    let Ok(filters) = GraphFilters::of_graph(alloc, graph) else {
        panic!(rt; "the filters are refused");
    };
    let trees = LIMITS.trees;
    if exact {
        check_written_by_requests(alloc, graph, &filters, trees, &mut stream, output)
    } else {
        check_by_requests(alloc, graph, &filters, trees, &mut stream, output)
    }
}

/// The id of the tree whose entry was waited for when the stream ended.
fn waited_for(error: &PathsError) -> Option<ObjectId> {
    match error {
        PathsError::Filter(_, PathsFault::Entry(id, EntryError::Ends)) => Some(*id),
        _ => None,
    }
}

/// Adds the entry of a tree to a stream.
fn push_entry(
    rt: &impl Abort,
    alloc: Global,
    stream: &mut Vec<u8>,
    id: &ObjectId,
    trees: &KnownTrees,
) {
    let bytes = id.as_oid().as_bytes();
    let tree = trees.trees.iter().find(|tree| tree.id.as_slice() == bytes);
    let contents = &tree.expect(rt, "a tree").contents;
    let len = contents.len();
    let line = format!(in alloc; "{id} tree {len}\n").expect(rt, "memory");
    stream
        .extend_from_slice(line.as_bytes())
        .expect(rt, "memory");
    stream.extend_from_slice(contents).expect(rt, "memory");
    stream.push(b'\n').ok().expect(rt, "memory");
}

/// The position of the filter that is another one than Git writes.
fn differing(error: &PathsError) -> Option<u32> {
    match error {
        PathsError::Filter(pos, PathsFault::Differs) => Some(pos.0),
        _ => None,
    }
}

/// Checks a history while the stream is given the tree that it ends before, until no more is asked
/// for. Answers how many trees were asked for, and the position of the filter that is told as
/// another one, if one is.
fn ask(
    rt: &impl Abort,
    alloc: Global,
    kind: Kind,
    file: Vec<u8>,
    exact: bool,
) -> (usize, Option<u32>) {
    let mut trees = small_trees(rt, alloc, kind);
    put_large(
        rt,
        alloc,
        &mut trees,
        LARGE.get(3).expect(rt, "a large tree"),
    );
    let graph = graph_of(rt, alloc, file);
    let (mut stream, mut lines) = (Vec::new(alloc), Vec::new(alloc));
    for count in 0..100 {
        let mut output = Vec::new(alloc);
        let told = check(rt, alloc, &graph, exact, &stream, &mut output);
        let Some(error) = told.err() else {
            assert!(rt; output == lines);
            return (count, None);
        };
        if let Some(pos) = differing(&error) {
            assert!(rt; output == lines);
            return (count, Some(pos));
        }
        let id = waited_for(&error).expect(rt, "the stream ends");
        let line = format!(in alloc; "{id}\n").expect(rt, "memory");
        lines
            .extend_from_slice(line.as_bytes())
            .expect(rt, "memory");
        // Other trees may have been asked for behind it.
        assert!(rt; output.starts_with(&lines));
        push_entry(rt, alloc, &mut stream, &id, &trees);
    }
    panic!(rt; "there are no more trees")
}

#[test]
fn each_tree_that_is_needed_is_asked_for_once(rt: HostRuntime) {
    let alloc = rt.alloc();
    // As a short program of its own counts them, which compares the trees of the tables.
    for kind in [Kind::Sha1, Kind::Sha256] {
        let file = file_of(&rt, alloc, kind);
        assert!(&rt; ask(&rt, alloc, kind, file, false) == (16, None));
        // The tree whose filter has all bits is asked for, too.
        let file = file_of(&rt, alloc, kind);
        assert!(&rt; ask(&rt, alloc, kind, file, true) == (17, None));
    }
}

/// The lowest bits of the number of hashes and of that of the bits for each path.
const HASHES: (usize, u8) = (1635, 0);

const BITS: (usize, u8) = (1639, 0);

#[test]
fn filters_that_git_does_not_write_are_told_by_the_settings_of_the_graph(rt: HostRuntime) {
    let (alloc, kind) = (rt.alloc(), Kind::Sha1);
    // The commit at position 0 changes nothing, so its filter is the same by any settings.
    for (at, bit) in [CLEAR, HASHES, BITS] {
        let file = with_other_bit(&rt, alloc, kind, at, bit);
        assert!(&rt; ask(&rt, alloc, kind, file, false) == (16, None));
        let file = with_other_bit(&rt, alloc, kind, at, bit);
        assert!(&rt; ask(&rt, alloc, kind, file, true).1 == Some(1));
    }
}
