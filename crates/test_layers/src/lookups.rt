//! Where ids are found, and by how many comparisons.

use crate::fixtures::{HIDING_FAN, ROOT, changed, file_of, layer_of, opened};
use gix_commitgraph::File;
use gix_commitgraph::file::Position;
use gix_hash_core::{Kind, ObjectId};
use graph_vectors::{DIAMOND, LayerPlan, planned_commit};
use std::alloc::Global;
use std::process::Abort;

/// The first two bytes of a SHA-1 id, whose others are 0.
type Id = (u8, u8);

/// That id.
fn id_of(id: Id) -> ObjectId {
    let (first, second) = id;
    let mut bytes = [0; 20];
    bytes[0] = first;
    bytes[1] = second;
    ObjectId::from(bytes)
}

/// The layer of commits with these ids.
fn layer(rt: &impl Abort, alloc: Global, ids: &[Id]) -> File {
    let mut commits = Vec::new(alloc);
    for id in ids {
        let commit = planned_commit(alloc, id_of(*id), &[], 1);
        commits
            .push(commit.expect(rt, "memory"))
            .expect(rt, "memory");
    }
    let plan = LayerPlan {
        kind: Kind::Sha1,
        bases: Vec::new(alloc),
        commits,
    };
    layer_of(rt, alloc, &plan, "")
}

/// How many comparisons each id of a layer takes, the least first. Each is found where it stands.
fn counts_of(rt: &impl Abort, alloc: Global, file: &File) -> Vec<u32> {
    let mut counts = Vec::new(alloc);
    for commit in file.iter_commits() {
        let (found, count) = file.lookup_counted(commit.id());
        assert!(rt; found == Some(commit.position()));
        assert!(rt; file.lookup(commit.id()) == found);
        counts.push(count).expect(rt, "memory");
    }
    counts.sort().expect(rt, "memory");
    counts
}

/// Ids that begin with one byte.
const SEVEN: &[Id] = &[
    (0x11, 0x10),
    (0x11, 0x20),
    (0x11, 0x30),
    (0x11, 0x40),
    (0x11, 0x50),
    (0x11, 0x60),
    (0x11, 0x70),
];

/// The same with one more, and the same between others.
const EIGHT: &[Id] = &[
    (0x11, 0x10),
    (0x11, 0x20),
    (0x11, 0x30),
    (0x11, 0x40),
    (0x11, 0x50),
    (0x11, 0x60),
    (0x11, 0x70),
    (0x11, 0x80),
];

const BETWEEN: &[Id] = &[
    (0, 0x10),
    (0x11, 0x10),
    (0x11, 0x20),
    (0x11, 0x30),
    (0x11, 0x40),
    (0x11, 0x50),
    (0x11, 0x60),
    (0x11, 0x70),
    (0xff, 0x10),
];

/// Ids that begin with the same byte and are in none of these layers.
const ABSENT: &[Id] = &[
    (0x11, 0),
    (0x11, 0x11),
    (0x11, 0x2f),
    (0x11, 0x38),
    (0x11, 0x41),
    (0x11, 0x55),
    (0x11, 0x6f),
    (0x11, 0x71),
    (0x11, 0xff),
];

/// Ids whose first bytes begin no id of these layers.
const ELSEWHERE: &[Id] = &[(0x10, 0x10), (0x12, 0x10), (0x01, 0), (0xfe, 0xff)];

/// Asserts that ids are not found, by no fewer comparisons than the least number and no more than
/// the greatest.
fn compare_absent(rt: &impl Abort, file: &File, ids: &[Id], least: u32, most: u32) {
    for id in ids {
        let id = id_of(*id);
        let (found, count) = file.lookup_counted(id.as_oid());
        assert!(rt; found.is_none() && file.lookup(id.as_oid()).is_none());
        assert!(rt; least <= count && count <= most);
    }
}

/// Compares the lookups in a layer of seven ids that begin alike: the middle one takes one
/// comparison, those in the middle of both halves two, and the other four three. An absent id takes
/// three.
fn compare_seven(rt: &impl Abort, alloc: Global) {
    let file = layer(rt, alloc, SEVEN);
    let counts = counts_of(rt, alloc, &file);
    assert!(rt; counts.as_slice() == [1, 2, 2, 3, 3, 3, 3].as_slice());
    compare_absent(rt, &file, ABSENT, 3, 3);
    compare_absent(rt, &file, ELSEWHERE, 0, 0);
}

/// Compares the lookups in a layer of eight ids that begin alike. By three comparisons no more than
/// seven ids are told apart, so one takes four, and none more.
fn compare_eight(rt: &impl Abort, alloc: Global) {
    let file = layer(rt, alloc, EIGHT);
    let counts = counts_of(rt, alloc, &file);
    assert!(rt; counts.len() == 8 && counts.first() == Some(&1) && counts.last() == Some(&4));
    compare_absent(rt, &file, ABSENT, 1, 4);
    compare_absent(rt, &file, ELSEWHERE, 0, 0);
}

/// Compares the lookups in a layer of the seven ids between two others, each of which is alone in
/// its bucket.
fn compare_between(rt: &impl Abort, alloc: Global) {
    let file = layer(rt, alloc, BETWEEN);
    let counts = counts_of(rt, alloc, &file);
    assert!(rt; counts.as_slice() == [1, 1, 1, 2, 2, 3, 3, 3, 3].as_slice());
    compare_absent(rt, &file, ABSENT, 3, 3);
    compare_absent(rt, &file, &[(0, 0), (0, 0xff), (0xff, 0)], 1, 1);
    compare_absent(rt, &file, ELSEWHERE, 0, 0);
}

/// Compares a lookup by the answer and the number of comparisons, and the plain one.
fn compare_found(rt: &impl Abort, file: &File, id: ObjectId, want: (Option<Position>, u32)) {
    assert!(rt; file.lookup_counted(id.as_oid()) == want);
    assert!(rt; file.lookup(id.as_oid()) == want.0);
}

/// Asserts that an id of the other kind is found nowhere.
fn compare_other_kind(rt: &impl Abort, file: &File) {
    for byte in 0..=u8::MAX {
        let id = ObjectId::from([byte; 32]);
        let (found, _) = file.lookup_counted(id.as_oid());
        assert!(rt; found.is_none() && file.lookup(id.as_oid()).is_none());
    }
}

/// Compares lookups in the layer of one commit whose fan hides its id.
fn compare_hidden(rt: &impl Abort, alloc: Global) {
    let bytes = changed(rt, alloc, ROOT, HIDING_FAN);
    let file = opened(rt, alloc, bytes, "");
    compare_found(rt, &file, ObjectId::from([0x11; 20]), (None, 0));
    let last = ObjectId::from([0xff; 20]);
    let (found, count) = file.lookup_counted(last.as_oid());
    assert!(rt; found.is_none() && file.lookup(last.as_oid()).is_none() && count <= 1);
    compare_other_kind(rt, &file);
}

/// Compares lookups in the diamond, whose ids begin with four bytes.
fn compare_diamond(rt: &impl Abort, alloc: Global) {
    let bytes = file_of(rt, alloc, DIAMOND);
    let file = opened(rt, alloc, bytes, "");
    compare_found(
        rt,
        &file,
        ObjectId::from([0x33; 20]),
        (Some(Position(2)), 1),
    );
    compare_found(rt, &file, ObjectId::from([0x34; 20]), (None, 0));
    compare_other_kind(rt, &file);
}

#[test]
fn ids_are_found_by_few_comparisons(rt: HostRuntime) {
    compare_seven(&rt, rt.alloc());
    compare_eight(&rt, rt.alloc());
    compare_between(&rt, rt.alloc());
    compare_hidden(&rt, rt.alloc());
    compare_diamond(&rt, rt.alloc());
}
