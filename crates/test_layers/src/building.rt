//! Files that are built from plans: their sizes, and where their parts lie.

use crate::fixtures::{Planned, commit_of, opened, plan_of};
use gix_commitgraph::{File, Position};
use gix_hash_core::Kind;
use graph_vectors::{LayerPlan, build};
use std::alloc::Global;
use std::process::Abort;

/// Bytes of a file, each with its place.
type Places = &'static [(usize, &'static [u8])];

/// The kind of a layer, the bytes that the ids of its bases repeat, its commits, the size of its
/// file, and some of its bytes.
type Built = (Kind, &'static [u8], &'static [Planned], usize, Places);

/// Layers without extra words: of no commit, of one with up to two parents, of four, and on a base.
const SHORT_LISTS: &[Built] = &[
    (Kind::Sha1, &[], &[], 1100, &[(0, b"CGPH\x01\x01\x03\x00")]),
    (Kind::Sha1, &[], &[(0x11, 0x22, &[], 1, 0)], 1156, &[]),
    (Kind::Sha1, &[], &[(0x11, 0x22, &[0], 1, 0)], 1156, &[]),
    (Kind::Sha1, &[], &[(0x11, 0x22, &[3, 4], 1, 0)], 1156, &[]),
    (
        Kind::Sha1,
        &[],
        &[
            (0x11, 0x99, &[], 1, 7),
            (0x22, 0x99, &[0], 2, 7),
            (0x33, 0x99, &[0], 2, 7),
            (0x44, 0x99, &[1, 2], 3, 7),
        ],
        1324,
        &[],
    ),
    (
        Kind::Sha256,
        &[0x33],
        &[],
        1156,
        &[
            (0, b"CGPH\x01\x02\x04\x01"),
            (44, b"BASE\0\0\0\0\0\0\x04\x44"),
            (1092, &[0x33; 32]),
        ],
    ),
];

/// Layers with one list of extra words, and with two, one behind the other.
const LONG_LISTS: &[Built] = &[
    (
        Kind::Sha1,
        &[],
        &[(0x11, 0x22, &[5, 3, 2], 1, 0)],
        1176,
        &[
            (44, b"EDGE\0\0\0\0\0\0\x04\x7c"),
            (1132, b"\0\0\0\x05\x80\0\0\0"),
            (1148, b"\0\0\0\x03\x80\0\0\x02"),
        ],
    ),
    (
        Kind::Sha1,
        &[],
        &[
            (0x11, 0x99, &[9, 8, 7, 6], 1, 0),
            (0x22, 0x99, &[1, 2, 3], 1, 0),
        ],
        1244,
        &[
            (44, b"EDGE\0\0\0\0\0\0\x04\xb4"),
            (1152, b"\0\0\0\x09\x80\0\0\0"),
            (1188, b"\0\0\0\x01\x80\0\0\x03"),
            (
                1204,
                b"\0\0\0\x08\0\0\0\x07\x80\0\0\x06\0\0\0\x02\x80\0\0\x03",
            ),
        ],
    ),
];

/// The file of a plan, `None` where there is none or an allocation failed.
fn built(alloc: Global, plan: &LayerPlan) -> Option<Vec<u8>> {
    if plan.is_buildable() {
        build(alloc, plan).ok()
    } else {
        None
    }
}

/// Compares the size of a file, and some of its bytes.
fn compare_bytes(rt: &impl Abort, file: &[u8], size: usize, places: Places) {
    assert!(rt; file.len() == size);
    for (at, bytes) in places {
        assert!(rt; file.get(*at..).unwrap_or(&[]).starts_with(bytes));
    }
}

/// Compares the parents of the commit at a position.
pub fn compare_parents(rt: &impl Abort, file: &File, pos: u32, want: &[u32]) {
    let parents = commit_of(rt, file, pos).iter_parents();
    assert!(rt; parents.eq(want.iter().map(|parent| Ok(Position(*parent)))));
}

/// Compares files of plans, and the layers that they are.
fn compare_built(rt: &impl Abort, alloc: Global, rows: &[Built]) {
    for (kind, bases, commits, size, places) in rows {
        let plan = plan_of(rt, alloc, *kind, bases, commits);
        let bytes = built(alloc, &plan).expect(rt, "a file");
        compare_bytes(rt, &bytes, *size, places);
        let file = opened(rt, alloc, bytes, "");
        assert!(rt; file.object_hash() == *kind);
        assert!(rt; file.base_graph_count() as usize == bases.len());
        assert!(rt; file.num_commits() as usize == commits.len());
        for (number, row) in (0..9).zip(*commits) {
            compare_parents(rt, &file, number, row.2);
        }
    }
}

#[test]
fn plans_become_files(rt: HostRuntime) {
    compare_built(&rt, rt.alloc(), SHORT_LISTS);
    compare_built(&rt, rt.alloc(), LONG_LISTS);
}
