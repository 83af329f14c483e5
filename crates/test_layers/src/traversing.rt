//! The check of one layer by itself, and of its checksum.

use crate::fixtures::{Change, HIDING_FAN, ROOT, changed, file_of, opened, seal};
use gix_commitgraph::File;
use gix_commitgraph::file::commit::ParentError;
use gix_commitgraph::file::verify::{ChecksumMismatch, Outcome, TraverseError};
use gix_commitgraph::file::{Commit, Position};
use gix_hash_core::{Kind, ObjectId};
use graph_vectors::refused::{ENTRIES, THREE};
use graph_vectors::{DIAMOND, Row, file_of_zeros};
use std::alloc::Global;
use std::process::Abort;

/// The error of a processor that refuses.
#[derive(Clone, Copy, Debug, PartialEq, Eq)]
struct Refused;

/// What a processor always answers.
type Answer = Result<(), Refused>;

/// Why a layer is refused.
type Fault = TraverseError<Refused>;

/// What a check of a layer answers where the processor always answers the same, how often the
/// processor was called, and whether that was at the positions 0, 1, 2 and so on.
fn checked(alloc: Global, file: &File, answer: Answer) -> (Result<Outcome, Fault>, u32, bool) {
    let mut calls: u32 = 0;
    let mut in_order = true;
    let outcome = file.traverse(
        alloc,
        &mut |commit: &Commit<'_>| {
            in_order = in_order && commit.position() == Position(calls);
            calls = calls.saturating_add(1);
            answer
        },
    );
    (outcome, calls, in_order)
}

/// Compares the refusal of a layer, if it is refused, and how often the processor is called.
fn compare_check(
    rt: &impl Abort,
    alloc: Global,
    file: &File,
    answer: Answer,
    (want, calls): (Option<&Fault>, u32),
) {
    let (outcome, called, in_order) = checked(alloc, file, answer);
    assert!(rt; called == calls && in_order);
    assert!(rt; outcome.as_ref().err() == want);
}

/// The commits of a layer, what is written over its file, what the processor answers, the refusal,
/// and how often the processor is called.
type Damaged = (&'static [Row<'static>], Change, Answer, Fault, u32);

/// The first change changes nothing: all files begin so. With the second the root's parent fields
/// have none as the first parent and one as the second.
const NO_CHANGE: Change = (0, b"CGPH");

const SECOND_ALONE: Change = (1120, b"\x70\0\0\0\0\0\0\x07");

/// Layers with a right checksum and a fault.
const DAMAGED: &[Damaged] = &[
    (ROOT, HIDING_FAN, Ok(()), TraverseError::Fan { byte: 17 }, 0),
    (
        &[(0x11, &[], 1), (0, &[], 1)],
        NO_CHANGE,
        Ok(()),
        TraverseError::NullId { pos: Position(1) },
        1,
    ),
    (
        &[(0x11, &[], 1), (0x11, &[], 1)],
        NO_CHANGE,
        Ok(()),
        TraverseError::Order { pos: Position(1) },
        1,
    ),
    (
        ROOT,
        (1100, &[0; 20]),
        Ok(()),
        TraverseError::NullTree { pos: Position(0) },
        0,
    ),
];

/// The same, where the processor is called before the fault is found.
const DAMAGED_PARENTS: &[Damaged] = &[
    (
        ROOT,
        SECOND_ALONE,
        Ok(()),
        TraverseError::Parent {
            pos: Position(0),
            error: ParentError::SecondWithoutFirst,
        },
        1,
    ),
    (
        ROOT,
        SECOND_ALONE,
        Err(Refused),
        TraverseError::Processor {
            pos: Position(0),
            error: Refused,
        },
        1,
    ),
];

/// Compares the refusals of layers whose checksums are right.
fn compare_damaged(rt: &impl Abort, alloc: Global, rows: &[Damaged]) {
    for (commits, change, answer, want, calls) in rows {
        let bytes = changed(rt, alloc, commits, *change);
        let file = opened(rt, alloc, bytes, "commit-graph");
        assert!(rt; file.verify_checksum() == Ok(file.checksum().to_owned()));
        compare_check(rt, alloc, &file, *answer, (Some(want), *calls));
    }
}

/// Compares the refusal of a layer whose checksum is wrong in its last byte.
fn compare_trailer(rt: &impl Abort, alloc: Global) {
    let mut bytes = file_of(rt, alloc, ROOT);
    if let Some(last) = bytes.last_mut() {
        *last ^= 1;
    }
    let file = opened(rt, alloc, bytes, "commit-graph");
    assert!(rt; file.verify_checksum() == Err(ChecksumMismatch));
    let refusal = (Some(&TraverseError::Checksum), 0);
    compare_check(rt, alloc, &file, Ok(()), refusal);
}

#[test]
fn a_layer_is_refused_for_its_first_fault(rt: HostRuntime) {
    compare_trailer(&rt, rt.alloc());
    compare_damaged(&rt, rt.alloc(), DAMAGED);
    compare_damaged(&rt, rt.alloc(), DAMAGED_PARENTS);
}

/// The checksum of the diamond's file.
const CHECKSUM: &[u8] = b"cfcac95a30daefe785337ac764d60ab00f27e28c";

/// Paths of the diamond's file that are right.
const RIGHT_NAMES: &[&str] = &[
    "commit-graph",
    "",
    "/.",
    "graph-ab",
    "graph-CFCAC95A30DAEFE785337AC764D60AB00F27E28C.graph",
    "graph-cfcac95a30daefe785337ac764d60ab00f27e28c.graph",
    "x/graph-cfcac95a30daefe785337ac764d60ab00f27e28c.graph/.",
];

/// Paths of it that are wrong: no text, no id, and another id stand where the checksum is to stand.
const WRONG_NAMES: &[&str] = &[
    "x/graph-.graph",
    "graph-ab.graph",
    "graph-0fcac95a30daefe785337ac764d60ab00f27e28c.graph",
    "x/graph-cfcac95a30daefe785337ac764d60ab00f27e280.graph/.",
];

/// Compares the checks of the diamond's file at these paths.
fn compare_names(rt: &impl Abort, alloc: Global, paths: &[&str], want: (Option<&Fault>, u32)) {
    for path in paths {
        let bytes = file_of(rt, alloc, DIAMOND);
        let file = opened(rt, alloc, bytes, path);
        assert!(rt; ObjectId::from_hex(CHECKSUM) == Ok(file.checksum().to_owned()));
        assert!(rt; file.path() == *path);
        compare_check(rt, alloc, &file, Ok(()), want);
    }
}

#[test]
fn a_layer_of_a_chain_is_named_after_its_checksum(rt: HostRuntime) {
    compare_names(&rt, rt.alloc(), RIGHT_NAMES, (None, 4));
    let refusal = (Some(&TraverseError::FileName), 0);
    compare_names(&rt, rt.alloc(), WRONG_NAMES, refusal);
}

/// The header of a file without commits, the number of bytes 0 after its table, its kind, and the
/// digest of its bytes before the trailer.
type Sealed = (&'static [u8; 8], usize, Kind, &'static [u8]);

const SEALED: &[Sealed] = &[
    (
        THREE,
        1044,
        Kind::Sha1,
        b"0ad62e83418659a07a48e1c2ee39126a4e232443",
    ),
    (
        b"CGPH\x01\x02\x03\x00",
        1056,
        Kind::Sha256,
        b"2a73200213f48dbd3dc68f41a5895bc7c816cae5b4444eac3e38f89d7456ee36",
    ),
];

/// Compares the checksum of a file without commits, which is right, with its digest. The check of
/// the layer finds nothing.
fn compare_right(rt: &impl Abort, alloc: Global, bytes: Vec<u8>, digest: ObjectId) {
    let file = opened(rt, alloc, bytes, "");
    assert!(rt; file.checksum() == digest.as_oid());
    assert!(rt; file.verify_checksum() == Ok(digest));
    compare_check(rt, alloc, &file, Err(Refused), (None, 0));
}

/// Compares the checksums of files without commits: a null one, which is wrong, and the right one.
fn compare_sealed(rt: &impl Abort, alloc: Global, rows: &[Sealed]) {
    for (header, zeros, kind, digest) in rows {
        let mut bytes = file_of_zeros(alloc, header, ENTRIES, *zeros).expect(rt, "memory");
        let unsealed = opened(rt, alloc, bytes.clone().expect(rt, "memory"), "");
        assert!(rt; unsealed.verify_checksum() == Err(ChecksumMismatch));
        compare_check(
            rt,
            alloc,
            &unsealed,
            Ok(()),
            (Some(&TraverseError::Checksum), 0),
        );
        seal(rt, *kind, &mut bytes);
        let digest = ObjectId::from_hex(digest).expect(rt, "an id");
        compare_right(rt, alloc, bytes, digest);
    }
}

/// The greatest and the least generation number, the most parents and the number of commits.
type Numbers = (u32, u32, u32, u32);

/// The commits of a layer, the size of its file, and what the check says of it: numbers, and how
/// many commits have each number of parents.
type Right = (
    &'static [Row<'static>],
    usize,
    Numbers,
    &'static [(u32, u32)],
);

/// Layers that are right by themselves. The generation numbers of the last are not looked at.
const RIGHT: &[Right] = &[
    (&[], 1100, (0, 0, 0, 0), &[]),
    (DIAMOND, 1324, (3, 1, 2, 4), &[(0, 1), (1, 2), (2, 1)]),
    (
        &[(0x11, &[], 9), (0x22, &[0, 0, 1], 4)],
        1232,
        (9, 4, 3, 2),
        &[(0, 1), (3, 1)],
    ),
];

/// Compares an outcome and its copy.
fn compare_outcome(rt: &impl Abort, outcome: &Outcome, want: Numbers, counts: &[(u32, u32)]) {
    let (greatest, least, most_parents, commits) = want;
    assert!(rt; outcome.max_generation == greatest && outcome.min_generation == least);
    assert!(rt; outcome.max_parents == most_parents && outcome.num_commits == commits);
    assert!(rt; outcome.parent_counts.len() == counts.len());
    for (parents, count) in counts {
        assert!(rt; outcome.parent_counts.get(parents) == Some(count));
    }
    assert!(rt; outcome.try_clone().expect(rt, "memory") == *outcome);
}

/// Compares the outcomes of right layers, where the processor is called on each commit, in order.
fn compare_outcomes(rt: &impl Abort, alloc: Global, rows: &[Right]) {
    for (commits, size, want, counts) in rows {
        let bytes = file_of(rt, alloc, commits);
        assert!(rt; bytes.len() == *size);
        let file = opened(rt, alloc, bytes, "commit-graph");
        let (outcome, calls, in_order) = checked(alloc, &file, Ok(()));
        assert!(rt; in_order && calls as usize == commits.len());
        compare_outcome(rt, &outcome.ok().expect(rt, "a right layer"), *want, counts);
    }
}

#[test]
fn right_layers_pass(rt: HostRuntime) {
    compare_outcomes(&rt, rt.alloc(), RIGHT);
    compare_sealed(&rt, rt.alloc(), SEALED);
}
