//! The filters of commits, bit by bit.

use crate::fixtures::{bytes_of, id_of, put_large, small_trees};
use crate::tables::{EMPTY, FILTERS, FilterRow, LARGE, LargeRow, MERGES, UNSIGNED};
use changed_paths::filters::HashVersion;
use gix_hash_core::{Kind, oid};
use path_filters::{Bounds, Settings, path_filter};
use std::alloc::Global;
use std::process::Abort;
use test_trees::known::{KnownTrees, ReadError};
use tree_changes::Refusal;

/// How far trees are gone through: farther than any of the tables go.
pub const WIDE: Bounds = Bounds {
    names: 2048,
    trees: 10_000,
};

/// The settings by which Git writes filters, but for the version of the hash.
pub fn settings(version: HashVersion) -> Settings {
    Settings {
        version,
        bits: 10,
        hashes: 7,
        most: 512,
    }
}

/// The filter of a commit. The contract is long, and here it ends.
fn filter(
    alloc: Global,
    source: &mut KnownTrees,
    old: Option<oid<'_>>,
    new: oid<'_>,
    version: HashVersion,
) -> Result<Vec<u8>, Refusal<ReadError>> {
    path_filter(alloc, source, old, new, settings(version), WIDE)
}

/// Compares a filter with the bytes that hexadecimal digits name.
fn compare(
    rt: &impl Abort,
    alloc: Global,
    found: Result<Vec<u8>, Refusal<ReadError>>,
    digits: &str,
) {
    let found = found.ok().expect(rt, "a filter");
    assert!(rt; found == bytes_of(rt, alloc, digits));
}

/// Compares the filters of rows.
fn compare_rows(rt: &impl Abort, alloc: Global, version: HashVersion, rows: &[FilterRow]) {
    for kind in [Kind::Sha1, Kind::Sha256] {
        let mut source = small_trees(rt, alloc, kind);
        for (old, new, digits) in rows {
            let new = id_of(rt, kind, *new);
            let found = match old {
                Some(old) => {
                    let old = id_of(rt, kind, *old);
                    let old = Some(old.as_oid());
                    filter(alloc, &mut source, old, new.as_oid(), version)
                }
                None => filter(alloc, &mut source, None, new.as_oid(), version),
            };
            compare(rt, alloc, found, digits);
        }
    }
}

#[test]
fn filters_are_those_that_git_writes(rt: HostRuntime) {
    let alloc = rt.alloc();
    compare_rows(&rt, alloc, HashVersion::One, FILTERS);
    compare_rows(&rt, alloc, HashVersion::One, MERGES);
}

#[test]
fn bytes_past_ascii_are_unsigned_in_version_2(rt: HostRuntime) {
    compare_rows(&rt, rt.alloc(), HashVersion::Two, UNSIGNED);
}

/// Compares the filter of a commit that adds all files of a large tree with the one that Git
/// writes, and that of a commit which takes them away, in either version of the hash.
fn compare_large(rt: &impl Abort, alloc: Global, kind: Kind, row: &LargeRow) {
    let mut source = small_trees(rt, alloc, kind);
    let large = put_large(rt, alloc, &mut source, row);
    let empty = id_of(rt, kind, EMPTY);
    let (large, empty) = (large.as_oid(), empty.as_oid());
    for version in [HashVersion::One, HashVersion::Two] {
        let added = filter(alloc, &mut source, None, large, version);
        compare(rt, alloc, added, row.4);
        let taken_away = filter(alloc, &mut source, Some(large), empty, version);
        compare(rt, alloc, taken_away, row.4);
    }
}

#[test]
fn filters_are_made_for_512_paths_at_most(rt: HostRuntime) {
    for row in LARGE {
        compare_large(&rt, rt.alloc(), Kind::Sha1, row);
        compare_large(&rt, rt.alloc(), Kind::Sha256, row);
    }
}
