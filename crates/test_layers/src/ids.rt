//! Kinds of hash, and ids: how they are made, what is read of them, and their order.

use crate::fixtures::id_of;
use gix_hash_core::{IdError, Kind, ObjectId, oid};
use std::hash::{DefaultHasher, Hash, Hasher};
use std::process::Abort;

/// Bytes of a file's header, with the kinds that they stand for and the length of an id.
const KINDS: &[(u8, Kind, usize)] = &[(1, Kind::Sha1, 20), (2, Kind::Sha256, 32)];

/// Compares kinds of hash, and their null ids, in which any other byte is seen.
fn compare_kinds(rt: &impl Abort, rows: &[(u8, Kind, usize)]) {
    for (byte, kind, len) in rows {
        assert!(rt; Kind::try_from(*byte) == Ok(*kind));
        assert!(rt; kind.len_in_bytes() == *len);
        assert!(rt; kind.null() == ObjectId::null(*kind));
        assert!(rt; kind.null() == id_of(*kind, 0));
        assert!(rt; kind.null().as_oid().is_null());
        compare_not_null(rt, *len);
    }
}

/// Asserts that no id of this length is null in which one byte is not 0, wherever that stands.
fn compare_not_null(rt: &impl Abort, len: usize) {
    for at in 0..len {
        let mut bytes = [0; 32];
        if let Some(byte) = bytes.get_mut(at) {
            *byte = 1;
        }
        let id = oid::try_from_bytes(bytes.get(..len).unwrap_or(&[]));
        assert!(rt; !id.expect(rt, "an id").is_null());
    }
}

/// Asserts that no other byte stands for a kind, and which kind is the shortest.
fn compare_other_bytes(rt: &impl Abort) {
    assert!(rt; Kind::shortest() == Kind::Sha1);
    assert!(rt; Kind::try_from(0) == Err(0));
    for byte in 3..=u8::MAX {
        assert!(rt; Kind::try_from(byte) == Err(byte));
    }
}

/// Bytes of which the first ones are ids.
const LETTERS: &[u8; 40] = b"abcdefghijklmnopqrstuvwxyz0123456789ABCD";

/// The number that the first eight of them make, as Python's `int.from_bytes(b"abcdefgh", "big")`.
const FRONT: u64 = 0x6162_6364_6566_6768;

/// The kind of an id of this length.
fn kind_of(len: usize) -> Option<Kind> {
    match len {
        20 => Some(Kind::Sha1),
        32 => Some(Kind::Sha256),
        _ => None,
    }
}

/// Compares what is read of the id of these bytes, which begin with an `a`, if there is one.
fn compare_lent(rt: &impl Abort, bytes: &[u8]) {
    let id = oid::try_from_bytes(bytes);
    assert!(rt; id.map(|id| id.kind()) == kind_of(bytes.len()));
    if let Some(id) = id {
        assert!(rt; id.as_bytes() == bytes && id.first_byte() == b'a');
        assert!(rt; id.front() == FRONT);
        assert!(rt; !id.is_null());
        let owned = id.to_owned();
        assert!(rt; owned.as_oid() == id && owned.as_oid().as_bytes() == bytes);
        assert!(rt; owned != ObjectId::null(id.kind()));
    }
}

/// Compares the ids of as many of the letters, for each number of them.
fn compare_lengths(rt: &impl Abort) {
    for len in 0..=LETTERS.len() {
        compare_lent(rt, LETTERS.get(..len).unwrap_or(&[]));
    }
}

/// Texts, with the bytes of the ids that they spell, or why they spell none.
const SPELLED: &[(&[u8], Result<&[u8], IdError>)] = &[
    (b"", Err(IdError::Length)),
    (&[b'g'; 39], Err(IdError::Length)),
    (&[b'g'; 41], Err(IdError::Length)),
    (&[b'a'; 63], Err(IdError::Length)),
    (&[b'a'; 65], Err(IdError::Length)),
    (&[b'g'; 64], Err(IdError::Digit)),
    (
        b"aaaaaaaaaaaaaaaaaaaaaaaaaaaaaaaaaaaaaaag",
        Err(IdError::Digit),
    ),
    (&[b'A'; 40], Ok(&[0xaa; 20])),
    (&[b'a'; 40], Ok(&[0xaa; 20])),
    (
        b"0123456789abcdefABCDEF0000000000000000Ff",
        Ok(b"\x01\x23\x45\x67\x89\xab\xcd\xef\xab\xcd\xef\0\0\0\0\0\0\0\0\xff"),
    ),
    (&[b'F'; 64], Ok(&[0xff; 32])),
];

/// Compares the ids that texts spell.
fn compare_spelled(rt: &impl Abort, rows: &[(&[u8], Result<&[u8], IdError>)]) {
    for (text, want) in rows {
        let is_wanted = match (ObjectId::from_hex(text), want) {
            (Ok(id), Ok(bytes)) => id.as_oid().as_bytes() == *bytes,
            (Err(error), Err(want)) => error == *want,
            _ => false,
        };
        assert!(rt; is_wanted);
    }
}

/// The hash of a value.
fn hash_of<T: Hash>(value: &T) -> u64 {
    let mut state = DefaultHasher::new();
    value.hash(&mut state);
    state.finish()
}

/// Compares values with those after them, which are to be greater.
pub fn compare_ascending<T: Ord + Hash>(rt: &impl Abort, values: &[T]) {
    for (at, value) in values.iter().enumerate() {
        assert!(rt; *value == *value);
        for later in &values[at + 1..] {
            assert!(rt; value < later && value != later && hash_of(value) != hash_of(later));
        }
    }
}

/// Compares an id, owned and lent, with its bytes: it hashes as they do.
fn compare_hash(rt: &impl Abort, id: &ObjectId) {
    let lent = id.as_oid();
    assert!(rt; hash_of(id) == hash_of(&lent));
    assert!(rt; hash_of(id) == hash_of(&lent.as_bytes()));
}

/// Compares ids of both kinds, owned and lent. The third begins with the second.
fn compare_ids(rt: &impl Abort) {
    let ids = [
        id_of(Kind::Sha1, 0),
        id_of(Kind::Sha1, 0x11),
        id_of(Kind::Sha256, 0x11),
        id_of(Kind::Sha1, 0x12),
    ];
    compare_ascending(rt, &ids);
    let [null, low, longer, high] = &ids;
    let lent = [null.as_oid(), low.as_oid(), longer.as_oid(), high.as_oid()];
    compare_ascending(rt, &lent);
    for id in &ids {
        compare_hash(rt, id);
    }
}

#[test]
fn ids_are_their_bytes(rt: HostRuntime) {
    compare_kinds(&rt, KINDS);
    compare_other_bytes(&rt);
    compare_lengths(&rt);
    compare_spelled(&rt, SPELLED);
    compare_ids(&rt);
}
