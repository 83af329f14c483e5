//! Files that are cut short, and files one byte of which is another: what opening answers, and what
//! can be asked of those that open.

use crate::asking::{Asked, Told, expect};
use crate::conditions::refusal;
use crate::folders::{built, owned};
use crate::listing::root_on_a_base;
use crate::table::offset;
use gix_chunk_core::ChunkError;
use gix_commitgraph::file::commit::ParentError;
use gix_commitgraph::file::{Commit, Position};
use gix_commitgraph::verify::{LayerFault, Outcome, VerifyError};
use gix_commitgraph::{File, FileError, Graph, Position as GraphPosition};
use gix_hash_core::Kind;
use graph_folder::folder::Memory;
use graph_vectors::{DIAMOND, OCTOPUS, reseal};
use std::alloc::Global;
use std::ops::Range;
use std::process::Abort;

/// The files that are damaged.
#[derive(Clone, Copy)]
enum Built {
    /// A diamond. Its chunks begin at 56, 1080 and 1160, and end at 1304.
    Diamond,
    /// Three commits in a line, and a merge of three. Its chunks begin at 68, 1092, 1172 and 1316,
    /// and end at 1324.
    Octopus,
    /// A SHA-256 file of one root on one base. Its chunks begin at 68, 1092, 1124 and 1172, and end
    /// at 1204.
    OnABase,
}

/// The bytes of one of them.
fn bytes_of(rt: &impl Abort, alloc: Global, file: Built) -> Vec<u8> {
    match file {
        Built::Diamond => built(rt, alloc, &[], DIAMOND),
        Built::Octopus => built(rt, alloc, &[], OCTOPUS),
        Built::OnABase => root_on_a_base(rt, alloc),
    }
}

/// What opening answers of these bytes.
fn open(rt: &impl Abort, alloc: Global, bytes: &[u8]) -> Result<File, FileError> {
    let copy = Vec::from_slice(alloc, bytes).expect(rt, "memory");
    File::new(alloc, copy, owned(rt, alloc, "g"))
}

/// How many bytes a front has at least and at most, and how it is refused.
type Fronts = (usize, usize, FileError);

const OF_DIAMOND: &[Fronts] = &[
    (0, 1099, FileError::TooSmall),
    (
        1100,
        1159,
        FileError::Chunks(ChunkError::OutOfFile { entry: 2 }),
    ),
    (
        1160,
        1303,
        FileError::Chunks(ChunkError::OutOfFile { entry: 3 }),
    ),
    (1304, 1323, FileError::Trailer),
];

const OF_OCTOPUS: &[Fronts] = &[
    (0, 1099, FileError::TooSmall),
    (
        1100,
        1171,
        FileError::Chunks(ChunkError::OutOfFile { entry: 2 }),
    ),
    (
        1172,
        1315,
        FileError::Chunks(ChunkError::OutOfFile { entry: 3 }),
    ),
    (
        1316,
        1323,
        FileError::Chunks(ChunkError::OutOfFile { entry: 4 }),
    ),
    (1324, 1343, FileError::Trailer),
];

const OF_ON_A_BASE: &[Fronts] = &[
    (0, 1099, FileError::TooSmall),
    (
        1100,
        1123,
        FileError::Chunks(ChunkError::OutOfFile { entry: 2 }),
    ),
    (
        1124,
        1171,
        FileError::Chunks(ChunkError::OutOfFile { entry: 3 }),
    ),
    (
        1172,
        1203,
        FileError::Chunks(ChunkError::OutOfFile { entry: 4 }),
    ),
    (1204, 1235, FileError::Trailer),
];

/// A file, the offsets of its table, its size, and how its fronts are refused.
type Whole = (Built, &'static [usize], usize, &'static [Fronts]);

const WHOLE: &[Whole] = &[
    (Built::Diamond, &[56, 1080, 1160, 1304], 1324, OF_DIAMOND),
    (
        Built::Octopus,
        &[68, 1092, 1172, 1316, 1324],
        1344,
        OF_OCTOPUS,
    ),
    (
        Built::OnABase,
        &[68, 1092, 1124, 1172, 1204],
        1236,
        OF_ON_A_BASE,
    ),
];

/// Asserts that a front is refused so, by opening and by the conditions one after another.
fn compare_front(rt: &impl Abort, alloc: Global, front: &[u8], want: &FileError) {
    assert!(rt; open(rt, alloc, front).err().as_ref() == Some(want));
    assert!(rt; refusal(front).as_ref() == Some(want));
}

/// Asserts how each front of a file is refused. So many were tried.
fn compare_fronts(rt: &impl Abort, alloc: Global, bytes: &[u8], rows: &[Fronts]) -> usize {
    let mut tried = 0usize;
    for (least, most, want) in rows {
        for len in *least..most.saturating_add(1) {
            let front = bytes.get(..len).expect(rt, "a front");
            compare_front(rt, alloc, front, want);
            tried = tried.saturating_add(1);
        }
    }
    tried
}

/// Asserts where the chunks of a file begin, and the last one ends.
fn compare_offsets(rt: &impl Abort, bytes: &[u8], offsets: &[usize]) {
    for (entry, want) in offsets.iter().enumerate() {
        assert!(rt; offset(bytes, entry) == *want);
    }
}

/// Asserts how each front of some files is refused, and that the whole files open.
fn compare_all_fronts(rt: &impl Abort, alloc: Global, rows: &[Whole]) {
    for (file, offsets, size, fronts) in rows {
        let bytes = bytes_of(rt, alloc, *file);
        assert!(rt; bytes.len() == *size);
        compare_offsets(rt, &bytes, offsets);
        assert!(rt; compare_fronts(rt, alloc, &bytes, fronts) == *size);
        assert!(rt; open(rt, alloc, &bytes).is_ok() && refusal(&bytes).is_none());
    }
}

#[test]
fn each_front_of_a_file_is_refused(rt: HostRuntime) {
    compare_all_fronts(&rt, rt.alloc(), WHOLE);
}

/// Asserts that a search for each id of a layer finds it.
fn compare_lookups(rt: &impl Abort, layer: &File) {
    for place in 0..layer.num_commits() {
        let id = layer.id_at(Position(place));
        let found = layer.lookup(id).expect(rt, "a commit");
        assert!(rt; found.0 < layer.num_commits());
        assert!(rt; layer.id_at(found) == id);
    }
}

/// What the check of a layer finds, where its commits are all accepted.
fn check(rt: &impl Abort, alloc: Global, layer: File) -> Result<Outcome, VerifyError<()>> {
    let files = vec![in alloc; layer].expect(rt, "memory");
    let graph = Graph::new(alloc, files).ok().expect(rt, "a graph");
    graph.verify_integrity(alloc, &mut |_: &Commit<'_>| Ok(()))
}

/// The checksum is that of other bytes.
const WRONG_CHECKSUM: VerifyError<()> = VerifyError::Layer {
    layer: 0,
    fault: LayerFault::Checksum,
};

/// The parents of the merge stand in an extra edge list that is not there.
const NO_EDGE_LIST: VerifyError<()> = VerifyError::Parent {
    pos: GraphPosition(3),
    error: ParentError::NoEdgeList,
};

const WITHOUT_EDGES: Told<'static> = (
    0,
    "layer sha1 bases 0 commits 4\n\
    0 1111111111111111111111111111111111111111 9999999999999999999999999999999999999999 1 7 -\n\
    1 2222222222222222222222222222222222222222 9999999999999999999999999999999999999999 2 7 0\n\
    2 3333333333333333333333333333333333333333 9999999999999999999999999999999999999999 3 7 1\n\
    3 4444444444444444444444444444444444444444 9999999999999999999999999999999999999999 4 7 0,!3\n",
);

/// Asserts what is answered of a changed file that opens: it is the merge of three whose extra edge
/// list has another id, so that it is none.
fn compare_opened(rt: &impl Abort, alloc: Global, bytes: &[u8], layer: File) {
    compare_lookups(rt, &layer);
    let mut folder = Memory::new(alloc);
    expect(rt, alloc, &mut folder, Asked::List(bytes), WITHOUT_EDGES);
    assert!(rt; check(rt, alloc, layer).err().as_ref() == Some(&WRONG_CHECKSUM));
}

/// Asserts what the check of that file finds, where its checksum is right.
fn compare_sealed(rt: &impl Abort, alloc: Global) {
    let mut bytes = bytes_of(rt, alloc, Built::Octopus);
    set(rt, &mut bytes, 44, b'X');
    assert!(rt; bytes.len() >= 20);
    reseal(Kind::Sha1, &mut bytes);
    let layer = open(rt, alloc, &bytes).ok().expect(rt, "a layer");
    assert!(rt; check(rt, alloc, layer).err().as_ref() == Some(&NO_EDGE_LIST));
}

/// Asserts that opening answers of these bytes what the conditions do, one after another. Whether
/// they open is answered.
fn opens(rt: &impl Abort, alloc: Global, bytes: &[u8]) -> bool {
    let want = refusal(bytes);
    match open(rt, alloc, bytes) {
        Ok(layer) => {
            assert!(rt; want.is_none());
            compare_opened(rt, alloc, bytes, layer);
            true
        }
        Err(error) => {
            assert!(rt; want == Some(error));
            false
        }
    }
}

/// Writes a byte at a place.
fn set(rt: &impl Abort, bytes: &mut Vec<u8>, place: usize, value: u8) {
    *bytes.get_mut(place).expect(rt, "a place in the file") = value;
}

/// Tries each other value of the byte at a place, and puts it back. How many files opened is
/// answered.
fn try_values(rt: &impl Abort, alloc: Global, bytes: &mut Vec<u8>, place: usize) -> u32 {
    let old = bytes.get(place).copied().expect(rt, "a place in the file");
    let mut opened = 0u32;
    for value in 0..=255u8 {
        if value != old {
            set(rt, bytes, place, value);
            opened = opened.saturating_add(u32::from(opens(rt, alloc, bytes)));
        }
    }
    set(rt, bytes, place, old);
    opened
}

/// Tries each other value of each byte from a place on, up to another. How many files opened is
/// answered.
fn try_places(rt: &impl Abort, alloc: Global, file: Built, places: Range<usize>) -> u32 {
    let mut bytes = bytes_of(rt, alloc, file);
    let mut opened = 0u32;
    for place in places {
        opened = opened.saturating_add(try_values(rt, alloc, &mut bytes, place));
    }
    opened
}

/// No other value of a byte of header or table opens, but in the id of the extra edge list: no file
/// needs that list. It is the fourth entry of the table, so it has the bytes 44 to 47.
#[test]
fn a_changed_table_is_refused_by_the_first_condition(rt: HostRuntime) {
    assert!(rt; try_places(&rt, rt.alloc(), Built::Diamond, 0..56) == 0);
}

#[test]
fn a_changed_table_of_a_merge_is_refused_by_the_first_condition(rt: HostRuntime) {
    assert!(rt; try_places(&rt, rt.alloc(), Built::Octopus, 0..44) == 0);
    assert!(rt; try_places(&rt, rt.alloc(), Built::Octopus, 48..68) == 0);
}

#[test]
fn a_changed_table_with_a_base_is_refused_by_the_first_condition(rt: HostRuntime) {
    assert!(rt; try_places(&rt, rt.alloc(), Built::OnABase, 0..68) == 0);
}

#[test]
fn a_merge_opens_without_its_extra_edge_list(rt: HostRuntime) {
    assert!(rt; try_places(&rt, rt.alloc(), Built::Octopus, 44..46) == 2 * 255);
    compare_sealed(&rt, rt.alloc());
}

#[test]
fn a_merge_opens_with_any_id_in_place_of_the_list(rt: HostRuntime) {
    assert!(rt; try_places(&rt, rt.alloc(), Built::Octopus, 46..48) == 2 * 255);
}
