//! Ids, compared.

ghost use Rattle.std.specs.Prelude.{◌≡◌, ◌↔◌, IsTrue};
ghost use Rattle.std.specs.Cmp.Lexicographic.{slice_cmp};
ghost use Rattle.std.specs.Ordering.{nat_cmp};
ghost use Rattle.gix_hash_core.specs.Oid.{oid_bytes};

use gix_hash_core::oid;
use std::cmp::Ordering;

/// Which of two ids comes first.
pub(crate) fn compare(id: oid<'_>, other: oid<'_>) -> Ordering
    ensures { result ≡ slice_cmp nat_cmp (oid_bytes id.entry) (oid_bytes other.entry) }
{
    id.as_bytes().cmp(other.as_bytes())
}

/// Whether two ids are one. Those of SHA-1 are compared as arrays, whose length the compiler knows.
pub(crate) fn are_one(id: oid<'_>, other: oid<'_>) -> bool
    ensures { IsTrue result ↔ oid_bytes id.entry ≡ oid_bytes other.entry }
{
    let id = id.as_bytes();
    let other = other.as_bytes();
    match (<&[u8; 20]>::try_from(id), <&[u8; 20]>::try_from(other)) {
        (Ok(id), Ok(other)) => *id == *other,
        _ => id == other,
    }
}
