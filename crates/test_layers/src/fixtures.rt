//! What the tests share: layers that are written byte by byte, and layers that are built from rows.
//! Where an allocation fails, a plan has no file or a layer is refused, the process aborts.
//!
//! The contracts of opening and of building are long, and here they end: these functions have none,
//! so the proof of a test does not go over them once more.

use gix_commitgraph::file::{Commit, Position};
use gix_commitgraph::{File, FileError};
use gix_hash_core::{Kind, ObjectId};
use graph_vectors::{
    END, LayerPlan, PlanCommit, Row, file_of_parts, file_of_plan, file_of_rows, reseal, words,
};
use std::alloc::Global;
use std::process::Abort;

/// The header of a SHA-1 file of four chunks.
pub const FOUR: &[u8; 8] = b"CGPH\x01\x01\x04\x00";

/// A root whose id repeats the byte 0x11, alone in its layer. Its file has 1156 bytes: the fan
/// begins at byte 56, the id at 1080, and the record, which begins with the root tree, at 1100. The
/// parent fields are at 1120.
pub const ROOT: &[Row<'static>] = &[(0x11, &[], 1)];

/// Bytes that are written over those of a file, from a place on.
pub type Change = (usize, &'static [u8]);

/// A fan that hides the only id of its layer: all its numbers but the last, which is 1, are 0.
pub const HIDING_FAN: Change = (124, &[0; 952]);

/// The layer of these bytes, whose file has this path, or why it is refused.
pub fn try_open(
    rt: &impl Abort,
    alloc: Global,
    bytes: Vec<u8>,
    path: &str,
) -> Result<File, FileError> {
    let path = String::from_str(alloc, path).expect(rt, "memory");
    File::new(alloc, bytes, path)
}

/// The layer of these bytes, whose file has this path.
pub fn opened(rt: &impl Abort, alloc: Global, bytes: Vec<u8>, path: &str) -> File {
    try_open(rt, alloc, bytes, path).ok().expect(rt, "a layer")
}

/// The SHA-1 file of these commits, which has no bases.
pub fn file_of(rt: &impl Abort, alloc: Global, rows: &[Row<'_>]) -> Vec<u8> {
    file_of_rows(alloc, &[], rows).expect(rt, "a file")
}

/// Makes the checksum of a file of this kind right.
pub fn seal(rt: &impl Abort, kind: Kind, file: &mut Vec<u8>) {
    assert!(rt; file.len() >= kind.len_in_bytes());
    reseal(kind, file);
}

/// The SHA-1 file of these commits with this change, and with the right checksum.
pub fn changed(rt: &impl Abort, alloc: Global, rows: &[Row<'_>], change: Change) -> Vec<u8> {
    let mut file = file_of(rt, alloc, rows);
    let (at, bytes) = change;
    assert!(rt; bytes.len() < file.len() && at < file.len() - bytes.len());
    for (place, byte) in file.iter_mut().skip(at).zip(bytes) {
        *place = *byte;
    }
    seal(rt, Kind::Sha1, &mut file);
    file
}

/// What a layer of one commit has: the numbers of the fan up to the byte before that of the id, the
/// id, that of the root tree, and the checksum, which opening leaves alone.
const FAN_OF_NONE: &[u8] = &[0; 68];

const ID: &[u8] = &[0x11; 20];

const TREE: &[u8] = &[0x22; 20];

const TRAILER: &[u8] = &[0; 20];

/// Where the fourth chunk of a file of one commit begins.
const EDGES_AT: u64 = 1148;

/// The SHA-1 layer of one commit with these last sixteen bytes of its record, and with these bytes
/// of an extra edge list, or with an unknown chunk in its place.
pub fn layer_of_one(
    rt: &impl Abort,
    alloc: Global,
    fields: &[u8; 16],
    edges: Option<&[u8]>,
) -> File {
    let ones = words(alloc, &[1; 239]).expect(rt, "memory");
    let (fourth, edges): (&[u8; 4], &[u8]) = match edges {
        Some(edges) => (b"EDGE", edges),
        None => (b"XTRA", b""),
    };
    let entries: [(&[u8; 4], u64); 5] = [
        (b"OIDF", 68),
        (b"OIDL", 1092),
        (b"CDAT", 1112),
        (fourth, EDGES_AT),
        (END, EDGES_AT.saturating_add(edges.len() as u64)),
    ];
    let parts = [FAN_OF_NONE, &ones, ID, TREE, fields, edges, TRAILER];
    let bytes = file_of_parts(alloc, FOUR, &entries, &parts);
    opened(rt, alloc, bytes.expect(rt, "memory"), "commit-graph")
}

/// The commit of a layer at a position, which has to be one of the layer.
pub fn commit_of<'a>(rt: &impl Abort, file: &'a File, pos: u32) -> Commit<'a> {
    assert!(rt; pos < file.num_commits());
    file.commit_at(Position(pos))
}

/// The id of this kind that repeats a byte.
pub fn id_of(kind: Kind, byte: u8) -> ObjectId {
    match kind {
        Kind::Sha1 => ObjectId::from([byte; 20]),
        Kind::Sha256 => ObjectId::from([byte; 32]),
    }
}

/// A commit: the bytes that its id and the id of its root tree repeat, its parents, its generation
/// number and its time.
pub type Planned = (u8, u8, &'static [u32], u32, u64);

/// The plan of a layer of this kind, with these commits, on bases whose ids repeat these bytes.
pub fn plan_of(
    rt: &impl Abort,
    alloc: Global,
    kind: Kind,
    bases: &[u8],
    rows: &[Planned],
) -> LayerPlan {
    let mut plan = LayerPlan {
        kind,
        bases: Vec::new(alloc),
        commits: Vec::new(alloc),
    };
    for byte in bases {
        plan.bases.push(id_of(kind, *byte)).expect(rt, "memory");
    }
    for (id, tree, parents, generation, time) in rows {
        let commit = PlanCommit {
            id: id_of(kind, *id),
            tree: id_of(kind, *tree),
            parents: Vec::from_slice(alloc, parents).expect(rt, "memory"),
            generation: *generation,
            time: *time,
        };
        plan.commits.push(commit).expect(rt, "memory");
    }
    plan
}

/// The layer of a plan, whose file has this path.
pub fn layer_of(rt: &impl Abort, alloc: Global, plan: &LayerPlan, path: &str) -> File {
    let bytes = file_of_plan(alloc, plan).expect(rt, "a file");
    opened(rt, alloc, bytes, path)
}
