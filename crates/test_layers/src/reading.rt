//! What is read of a layer and of its commits, one by one and by iterators.

use crate::building::compare_parents;
use crate::fixtures::{Planned, commit_of, id_of, layer_of, plan_of};
use gix_commitgraph::File;
use gix_commitgraph::file::{BaseIds, Commits, Ids, Position};
use gix_hash_core::{Kind, ObjectId};
use std::alloc::Global;
use std::process::Abort;

/// The bytes that the ids of a layer's bases repeat.
const BASES: &[u8] = &[0x77, 0x66, 0x88];

/// Its commits. No two have anything in common.
const COMMITS: &[Planned] = &[
    (0x11, 0xa1, &[], 1, 0),
    (0x22, 0xa2, &[0], 2, 4294967296),
    (0x2f, 0xa3, &[1, 0], 3, 17179869183),
    (0xfe, 0xa4, &[2, 1, 0], 1073741823, 9),
];

/// The ids of this kind that repeat these bytes.
fn ids_of(rt: &impl Abort, alloc: Global, kind: Kind, bytes: &[u8]) -> Vec<ObjectId> {
    let mut ids = Vec::new(alloc);
    for byte in bytes {
        ids.push(id_of(kind, *byte)).expect(rt, "memory");
    }
    ids
}

/// Compares ids that are left with these. Their number is known at each step, and after the last
/// one there is none for good.
fn compare_ids(rt: &impl Abort, mut ids: Ids<'_>, want: &[ObjectId]) {
    for (at, id) in want.iter().enumerate() {
        let left = want.len() - at;
        assert!(rt; ids.size_hint() == (left, Some(left)));
        let item = ids.next();
        assert!(rt; item == Some(id.as_oid()));
    }
    for _ in 0..2 {
        assert!(rt; ids.size_hint() == (0, Some(0)));
        let item = ids.next();
        assert!(rt; item.is_none());
    }
}

/// Compares the ids of bases that are left with these, in the same way.
fn compare_bases(rt: &impl Abort, mut ids: BaseIds<'_>, want: &[ObjectId]) {
    for (at, id) in want.iter().enumerate() {
        let left = want.len() - at;
        assert!(rt; ids.size_hint() == (left, Some(left)));
        let item = ids.next();
        assert!(rt; item == Some(id.as_oid()));
    }
    for _ in 0..2 {
        assert!(rt; ids.size_hint() == (0, Some(0)));
        let item = ids.next();
        assert!(rt; item.is_none());
    }
}

/// Compares the commits that are left, all of a layer, with their positions, in the same way.
fn compare_commits(rt: &impl Abort, mut commits: Commits<'_>, count: u32) {
    for number in 0..count {
        let left = (count - number) as usize;
        assert!(rt; commits.size_hint() == (left, Some(left)));
        let item = commits.next();
        assert!(rt; item.map(|commit| commit.position()) == Some(Position(number)));
    }
    for _ in 0..2 {
        assert!(rt; commits.size_hint() == (0, Some(0)));
        let item = commits.next();
        assert!(rt; item.is_none());
    }
}

/// Compares a commit with what was planned for its position.
fn compare_commit(rt: &impl Abort, file: &File, pos: u32, want: &Planned) {
    let (id, tree, _, generation, time) = want;
    let kind = file.object_hash();
    let commit = commit_of(rt, file, pos);
    assert!(rt; commit.position() == Position(pos));
    assert!(rt; commit.id() == id_of(kind, *id).as_oid());
    assert!(rt; commit.root_tree_id() == id_of(kind, *tree).as_oid());
    assert!(rt; commit.generation() == *generation && commit.committer_timestamp() == *time);
    assert!(rt; pos < file.num_commits());
    assert!(rt; file.id_at(Position(pos)) == commit.id());
}

/// Compares what is read of the layer as a whole.
fn compare_whole(rt: &impl Abort, file: &File, kind: Kind) {
    assert!(rt; file.object_hash() == kind && file.num_commits() == 4);
    assert!(rt; file.base_graph_count() == 3 && file.path() == "a/graph b");
    assert!(rt; file.checksum().kind() == kind);
    assert!(rt; file.verify_checksum() == Ok(file.checksum().to_owned()));
}

/// Compares a layer of this kind with its plan.
fn compare_layer(rt: &impl Abort, alloc: Global, kind: Kind) {
    let plan = plan_of(rt, alloc, kind, BASES, COMMITS);
    let file = layer_of(rt, alloc, &plan, "a/graph b");
    compare_whole(rt, &file, kind);
    for (number, row) in (0..4).zip(COMMITS) {
        compare_commit(rt, &file, number, row);
        compare_parents(rt, &file, number, row.2);
    }
    let ids = ids_of(rt, alloc, kind, &[0x11, 0x22, 0x2f, 0xfe]);
    compare_ids(rt, file.iter_ids(), &ids);
    compare_bases(
        rt,
        file.iter_base_graph_ids(),
        &ids_of(rt, alloc, kind, BASES),
    );
    compare_commits(rt, file.iter_commits(), 4);
}

#[test]
fn layers_are_read_as_they_were_planned(rt: HostRuntime) {
    compare_layer(&rt, rt.alloc(), Kind::Sha1);
    compare_layer(&rt, rt.alloc(), Kind::Sha256);
}
