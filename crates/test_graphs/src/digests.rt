use crate::texts::compare_texts;
use gix_hash_core::{Kind, ObjectId, digest};
use std::alloc::Global;
use std::hash::{DefaultHasher, Hash, Hasher};
use std::process::Abort;

/// Messages, with their digests: the examples of FIPS 180-4.
const DIGESTS: &[(Kind, &[u8], &str)] = &[
    (Kind::Sha1, b"", "da39a3ee5e6b4b0d3255bfef95601890afd80709"),
    (
        Kind::Sha1,
        b"abc",
        "a9993e364706816aba3e25717850c26c9cd0d89d",
    ),
    (
        Kind::Sha256,
        b"",
        "e3b0c44298fc1c149afbf4c8996fb92427ae41e4649b934ca495991b7852b855",
    ),
    (
        Kind::Sha256,
        b"abc",
        "ba7816bf8f01cfea414140de5dae2223b00361a396177a9cb410ff61f20015ad",
    ),
];

fn hash_of<T: Hash>(value: &T) -> u64 {
    let mut state = DefaultHasher::new();
    value.hash(&mut state);
    state.finish()
}

/// Compares the digests of messages, as they are written and read, and the hashes of ids that are
/// owned and lent.
fn compare_digests(rt: &impl Abort, alloc: Global, rows: &[(Kind, &[u8], &str)]) {
    for (kind, message, want) in rows {
        let id = digest(*kind, message);
        compare_texts(rt, alloc, &[(id, *want)]);
        assert!(rt; ObjectId::from_hex(want.as_bytes()) == Ok(id));
        assert!(rt; hash_of(&id) == hash_of(&id.as_oid()));
    }
}

#[test]
fn digests_are_the_published_ones(rt: HostRuntime) {
    compare_digests(&rt, rt.alloc(), DIGESTS);
}
