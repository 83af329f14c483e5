//! The filters of a history against its trees, as Git wrote them and with bits changed.

ghost use Rattle.gix_commitgraph.specs.Sound.{Sound};

use crate::filters::{WIDE, settings};
use crate::fixtures::{by_kind, bytes_of, no_trees, put_large, small_trees, trees_without};
use crate::graphs::{BITS_SHA1, BITS_SHA256, BitRow, GRAPH_SHA1, GRAPH_SHA256};
use crate::tables::{EMPTY, LARGE, NAMED};
use changed_paths::filters::HashVersion;
use filter_checks::{FilterRefusal, RefusedFilter, check_filters, check_written_filters};
use gix_commitgraph::file::Commit;
use gix_commitgraph::{File, Graph, Position};
use gix_hash_core::{Kind, digest};
use graph_chunks::filters::GraphFilters;
use path_filters::{Bounds, Settings};
use std::alloc::Global;
use std::process::Abort;
use test_trees::known::{KnownTrees, ReadError};
use tree_changes::{Limits, Refusal};

/// Limits that no tree of the tables meets.
pub const LIMITS: Limits = Limits {
    paths: 1000,
    names: 2048,
    trees: 10_000,
};

/// What a check answers.
type Answer = Result<(), RefusedFilter<ReadError>>;

/// What filters are held against.
#[derive(Clone, Copy)]
enum Standard {
    /// Whether the filters have what they have to.
    Right(Limits),
    /// Whether they are those that Git writes.
    Written(Settings, Bounds),
}

/// The graph that a file is, which passes its check.
pub fn graph_of(rt: &impl Abort, alloc: Global, file: Vec<u8>) -> Graph
    ensures { Sound result }
{
    let path = format!(in alloc; "a file").expect(rt, "memory");
    let file = File::new(alloc, file, path).ok().expect(rt, "a layer");
    let mut files = Vec::new(alloc);
    files.push(file).ok().expect(rt, "memory");
    let graph = Graph::new(alloc, files).ok().expect(rt, "a graph");
    let accept = &mut |_: &Commit<'_>| Ok::<(), ()>(());
    let Ok(_) = graph.verify_integrity(alloc, accept) else {
        panic!(rt; "the graph is wrong");
    };
    graph
}

/// Checks the filters of the graph that a file is. The contracts are long, and here they end.
fn check(
    rt: &impl Abort,
    alloc: Global,
    file: Vec<u8>,
    source: &mut KnownTrees,
    standard: Standard,
) -> Answer {
    let graph = graph_of(rt, alloc, file);
    let Ok(filters) = GraphFilters::of_graph(alloc, &graph) else {
        panic!(rt; "the filters are refused");
    };
    match standard {
        Standard::Right(limits) => check_filters(alloc, &graph, &filters, source, limits),
        Standard::Written(settings, bounds) => {
            check_written_filters(alloc, &graph, &filters, source, settings, bounds)
        }
    }
}

/// The file of the history.
pub fn file_of(rt: &impl Abort, alloc: Global, kind: Kind) -> Vec<u8> {
    bytes_of(rt, alloc, by_kind(kind, GRAPH_SHA1, GRAPH_SHA256))
}

/// The file, with a checksum at its end that is right.
fn sealed(rt: &impl Abort, alloc: Global, kind: Kind, file: Vec<u8>) -> Vec<u8> {
    let body = file.len().saturating_sub(kind.len_in_bytes());
    let mut sealed = Vec::from_slice(alloc, &file[..body]).expect(rt, "memory");
    let checksum = digest(kind, &sealed);
    sealed
        .extend_from_slice(checksum.as_oid().as_bytes())
        .expect(rt, "memory");
    sealed
}

/// The file of the history with another bit.
pub fn with_other_bit(rt: &impl Abort, alloc: Global, kind: Kind, at: usize, bit: u8) -> Vec<u8> {
    let mut file = file_of(rt, alloc, kind);
    assert!(rt; at < file.len() && bit < 8);
    file[at] ^= 1 << bit;
    sealed(rt, alloc, kind, file)
}

/// At which commit and why a filter is refused, or `None` where none is.
fn told(answer: Answer) -> Option<(u32, &'static str)> {
    let refused = answer.err()?;
    let why = match refused.why {
        FilterRefusal::Lacks(_) => "lacks",
        FilterRefusal::Differs => "differs",
        FilterRefusal::Trees(Refusal::TooMany) => "too many",
        FilterRefusal::Trees(Refusal::TooDeep) => "too deep",
        FilterRefusal::Trees(Refusal::TooMuch) => "too much",
        FilterRefusal::Trees(Refusal::Source(ReadError::Missing)) => "missing",
        FilterRefusal::Trees(_) => "other",
    };
    Some((refused.pos.0, why))
}

#[test]
fn the_filters_that_git_writes_are_right(rt: HostRuntime) {
    let alloc = rt.alloc();
    for kind in [Kind::Sha1, Kind::Sha256] {
        let mut source = small_trees(&rt, alloc, kind);
        let file = file_of(&rt, alloc, kind);
        let right = check(&rt, alloc, file, &mut source, Standard::Right(LIMITS));
        assert!(&rt; told(right).is_none());
    }
}

#[test]
fn the_filters_that_git_writes_are_found_again(rt: HostRuntime) {
    let alloc = rt.alloc();
    let mut source = small_trees(&rt, alloc, Kind::Sha1);
    let file = file_of(&rt, alloc, Kind::Sha1);
    // The tree whose filter has all bits is not there, and this check needs it.
    let written = Standard::Written(settings(HashVersion::One), WIDE);
    let found = check(&rt, alloc, file, &mut source, written);
    assert!(&rt; told(found) == Some((4, "missing")));
    let row = LARGE.get(3).expect(&rt, "a large tree");
    assert!(&rt; row.1 == 513);
    put_large(&rt, alloc, &mut source, row);
    let file = file_of(&rt, alloc, Kind::Sha1);
    let found = check(&rt, alloc, file, &mut source, written);
    assert!(&rt; told(found).is_none());
}

/// Compares what is lacked where a bit is cleared.
fn compare_bits(rt: &impl Abort, alloc: Global, kind: Kind, rows: &[BitRow]) {
    let mut source = small_trees(rt, alloc, kind);
    for (at, bit, pos, want) in rows {
        let file = with_other_bit(rt, alloc, kind, *at, *bit);
        let found = check(rt, alloc, file, &mut source, Standard::Right(LIMITS));
        let refused = found.err().expect(rt, "a refusal");
        assert!(rt; refused.pos == Position(*pos));
        match refused.why {
            FilterRefusal::Lacks(path) => assert!(rt; path.as_slice() == *want),
            _ => panic!(rt; "another refusal"),
        }
    }
}

#[test]
fn where_a_bit_is_cleared_a_path_is_lacked(rt: HostRuntime) {
    compare_bits(&rt, rt.alloc(), Kind::Sha1, BITS_SHA1);
    compare_bits(&rt, rt.alloc(), Kind::Sha256, BITS_SHA256);
}

/// The first bit that is not set in the filter of the commit at position 1.
pub const CLEAR: (usize, u8) = (1641, 0);

#[test]
fn a_filter_with_more_bits_is_right_and_another_one(rt: HostRuntime) {
    let alloc = rt.alloc();
    let mut source = small_trees(&rt, alloc, Kind::Sha1);
    let file = with_other_bit(&rt, alloc, Kind::Sha1, CLEAR.0, CLEAR.1);
    let right = check(&rt, alloc, file, &mut source, Standard::Right(LIMITS));
    assert!(&rt; told(right).is_none());
    let file = with_other_bit(&rt, alloc, Kind::Sha1, CLEAR.0, CLEAR.1);
    let written = Standard::Written(settings(HashVersion::One), WIDE);
    let found = check(&rt, alloc, file, &mut source, written);
    assert!(&rt; told(found) == Some((1, "differs")));
}

#[test]
fn filters_of_other_settings_are_other_ones(rt: HostRuntime) {
    let alloc = rt.alloc();
    let mut source = small_trees(&rt, alloc, Kind::Sha1);
    let one = settings(HashVersion::One);
    // The merge at position 2 is the first that changes paths with bytes past 127.
    for (settings, want) in [
        (settings(HashVersion::Two), (2, "differs")),
        (Settings { bits: 11, ..one }, (1, "differs")),
        (Settings { hashes: 6, ..one }, (1, "differs")),
        (Settings { most: 5, ..one }, (1, "differs")),
    ] {
        let file = file_of(&rt, alloc, Kind::Sha1);
        let found = check(
            &rt,
            alloc,
            file,
            &mut source,
            Standard::Written(settings, WIDE),
        );
        assert!(&rt; told(found) == Some(want));
    }
}

#[test]
fn each_limit_holds_for_one_commit(rt: HostRuntime) {
    let alloc = rt.alloc();
    let mut source = small_trees(&rt, alloc, Kind::Sha1);
    // At position 1 one path of six names is changed, and at position 2 eight paths are.
    for (limits, want) in [
        (Limits { names: 6, ..LIMITS }, None),
        (Limits { names: 5, ..LIMITS }, Some((1, "too deep"))),
        (Limits { trees: 5, ..LIMITS }, Some((1, "too much"))),
        (Limits { paths: 0, ..LIMITS }, Some((1, "too many"))),
        (Limits { paths: 7, ..LIMITS }, Some((2, "too many"))),
    ] {
        let file = file_of(&rt, alloc, Kind::Sha1);
        let found = check(&rt, alloc, file, &mut source, Standard::Right(limits));
        assert!(&rt; told(found) == want);
    }
}

#[test]
fn a_tree_is_missed_where_it_has_to_be_read(rt: HostRuntime) {
    let alloc = rt.alloc();
    for (left_out, want) in [(NAMED, Some((6, "missing"))), (EMPTY, None)] {
        let mut source = trees_without(&rt, alloc, Kind::Sha1, left_out);
        let file = file_of(&rt, alloc, Kind::Sha1);
        let found = check(&rt, alloc, file, &mut source, Standard::Right(LIMITS));
        assert!(&rt; told(found) == want);
    }
}

#[test]
fn no_tree_is_read_where_no_filter_was_computed(rt: HostRuntime) {
    let alloc = rt.alloc();
    let mut file = file_of(&rt, alloc, Kind::Sha1);
    let index = file
        .windows(4)
        .position(|bytes| bytes == b"BIDX".as_slice());
    let at = index.expect(&rt, "the chunk of the index");
    assert!(&rt; at < file.len());
    file[at] = b'X';
    let file = sealed(&rt, alloc, Kind::Sha1, file);
    let mut source = no_trees(alloc, Kind::Sha1);
    let found = check(&rt, alloc, file, &mut source, Standard::Right(LIMITS));
    assert!(&rt; told(found).is_none());
    assert!(&rt; source.reads == 0);
}
