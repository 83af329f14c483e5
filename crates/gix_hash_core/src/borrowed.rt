//! Borrowed ids.
ghost use Rattle.std.specs.Prelude.{◌≡◌, ◌↔◌, ◌<◌, ◌≤◌, ℕ, IsTrue, IsSome, IfSome, length, All};
ghost use Rattle.std.specs.Prelude.{slice_index};
ghost use Rattle.std.specs.Prelude.{Some};
ghost use Rattle.hex.specs.Hex.{encode_lower};
ghost use Rattle.gix_hash_core.specs.Kind.{id_len, is_id_len};

use crate::kind::Kind;
use crate::object_id::ObjectId;
use std::{fmt, str};

/// A borrowed id: 20 bytes of SHA-1 or 32 bytes of SHA-256.
///
/// Equality, order and hash are those of the bytes, and the hash is the one of an [`ObjectId`]
/// with the same bytes.
#[allow(non_camel_case_types)]
#[derive(Clone, Copy, PartialEq, Eq, PartialOrd, Ord, Hash)]
pub struct oid<'a> {
    bytes: &'a [u8],
    ghost sized: { IsTrue (is_id_len (length bytes.now)) },
}

impl<'a> oid<'a> {
    ghost use Rattle.gix_hash_core.specs.Oid.{front_of, oid_bytes};

    /// The id of these bytes, or `None` where they are neither 20 nor 32.
    pub fn try_from_bytes(bytes: &'a [u8]) -> Option<oid<'a>>
        ensures found { IsSome result ↔ IsTrue (is_id_len (length bytes.now)) }
        ensures bytes { IfSome result (λ id. oid_bytes id ≡ bytes.now) }
    {
        match bytes.len() {
            20 | 32 => Some(oid { bytes }),
            _ => None,
        }
    }

    /// The id of these bytes, which are known to be 20 or 32.
    pub(crate) fn from_sized(bytes: &'a [u8]) -> oid<'a>
        requires { IsTrue (is_id_len (length bytes.now)) }
        ensures { oid_bytes result ≡ bytes.now }
    {
        oid { bytes }
    }

    /// The kind whose ids have as many bytes as this one.
    pub fn kind(self) -> Kind
        ensures { length (oid_bytes self.entry) ≡ id_len result }
    {
        if self.bytes.len() == 20 {
            Kind::Sha1
        } else {
            Kind::Sha256
        }
    }

    /// The bytes of the id, 20 or 32.
    pub fn as_bytes(self) -> &'a [u8]
        ensures bytes { result.now ≡ oid_bytes self.entry }
        ensures sized { IsTrue (is_id_len (length result.now)) }
    {
        self.bytes
    }

    /// The first of the id's bytes.
    pub fn first_byte(self) -> u8
        ensures { result ≡ slice_index (oid_bytes self.entry) 0 }
    {
        self.bytes[0]
    }

    /// Whether the id is null: all its bytes are zero.
    pub fn is_null(self) -> bool
        ensures { IsTrue result ↔ All (λ byte. byte ≡ 0) (oid_bytes self.entry) }
    {
        self.front() == 0 && self.bytes.iter().all(|byte| *byte == 0)
    }

    /// The number that the id's first eight bytes make, the first byte the highest. Two ids hardly
    /// ever have one front, unless someone made them so.
    pub fn front(self) -> u64
        ensures front { result ≡ front_of (oid_bytes self.entry) }
        ensures null { All (λ byte. byte ≡ 0) (oid_bytes self.entry) → result ≡ 0 }
        ensures long { 8 ≤ length (oid_bytes self.entry) }
        ensures bytes { (k : ℕ) → slice_index (oid_bytes self.entry) k < 256 }
    {
        let id = self.bytes;
        u64::from_be_bytes([id[0], id[1], id[2], id[3], id[4], id[5], id[6], id[7]])
    }

    /// The same id with bytes of its own.
    pub fn to_owned(self) -> ObjectId
        ensures { result ≡ oid_bytes self.entry }
    {
        match self.kind() {
            Kind::Sha1 => ObjectId::from(<[u8; 20]>::try_from(self.bytes).unwrap()),
            Kind::Sha256 => ObjectId::from(<[u8; 32]>::try_from(self.bytes).unwrap()),
        }
    }
}

/// The id in lower-case hexadecimal, two digits a byte.
impl fmt::Display for oid<'_> {
    ghost use Rattle.gix_hash_core.specs.Oid.{oid_bytes};

    ghost output = { λ id. Some (encode_lower (oid_bytes id)) };

    fn fmt<W: fmt::Write>(&self, f: &mut fmt::Formatter<W>) -> fmt::Result {
        let mut digits = [0u8; 64];
        let digits = &mut digits[..2 * self.bytes.len()];
        hex::encode_to_slice(self.bytes, digits).unwrap();
        f.write_str(str::from_utf8(digits).unwrap())
    }
}

/// The kind with the id in it, as `Sha1(00..)`.
impl fmt::Debug for oid<'_> {
    fn fmt<W: fmt::Write>(&self, f: &mut fmt::Formatter<W>) -> fmt::Result {
        let kind = self.kind();
        write!(f, "{kind:?}({self})")
    }
}
