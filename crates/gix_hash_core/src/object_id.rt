//! Ids that own their bytes.
ghost use Rattle.std.specs.Prelude.{◌≡◌, ◌*◌, ◌↔◌, length, IsOk, IfOk, IfErr, replicate, Ok, Some};
ghost use Rattle.std.specs.Prelude.{nat_eq, refl};
ghost use Rattle.std.specs.List.{AllPass};
ghost use Rattle.std.specs.Hash as fed;
ghost use Rattle.std.specs.Ordering.{nat_cmp, as_partial_cmp};
ghost use Rattle.std.specs.Cmp.Lexicographic.{pointwise, slice_cmp};
ghost use Rattle.std.specs.Cmp.{partial_order_from_own_ties};
ghost use Rattle.std.specs.Cmp.Rules.{comparing, hashing};
ghost use Rattle.std.proofs.Common.{rules};
ghost use Rattle.hex.specs.Hex.{decode_of, encode_lower, is_hex_digit};

use crate::borrowed::oid;
use crate::kind::Kind;
use hex::FromHex;
use std::cmp::Ordering;
use std::fmt;
use std::hash::{Hash, Hasher};
use std::marker::Model;
use thiserror::Error;

/// Why a text spells no id.
#[derive(Clone, Copy, Debug, PartialEq, Eq, Error)]
pub enum IdError {
    /// The text has neither 40 nor 64 bytes.
    #[error("Length")]
    Length,
    /// The text is as long as an id's, and some byte of it is no hexadecimal digit.
    #[error("Digit")]
    Digit,
}

/// An id that owns its 20 or 32 bytes, without an allocation. A contract sees it as the list of
/// them.
///
/// Equality, order and hash are those of the list. So ids of different kinds are never equal, and
/// an id comes before another where its byte is the lesser at the first place at which they
/// differ, or where it is a proper prefix of the other.
#[derive(Clone, Copy)]
pub struct ObjectId {
    inner: Inner,
}

#[derive(Clone, Copy)]
enum Inner {
    Sha1([u8; 20]),
    Sha256([u8; 32]),
}

impl Model for ObjectId {
    ghost use Rattle.std.specs.Prelude.{List, ℕ};
    ghost use Rattle.gix_hash_core.specs.Inner.{inner_bytes, inner_of, IsSized};

    ghost Value = { List ℕ };

    ghost view = { λ id. inner_bytes id.inner };

    ghost invariant = { λ id. IsSized id.inner };

    ghost inverse = { λ bytes. record { inner = inner_of bytes } };
}

impl ObjectId {
    ghost use Rattle.gix_hash_core.specs.Kind.{id_len};
    ghost use Rattle.gix_hash_core.specs.Hexadecimal.{SpellsId, SpellsNone};
    ghost use Rattle.gix_hash_core.specs.Oid.{oid_bytes};

    /// The null id of the kind, whose bytes are all zero.
    pub fn null(kind: Kind) -> ObjectId
        ensures { result ≡ replicate (id_len kind) 0 }
    {
        let inner = match kind {
            Kind::Sha1 => Inner::Sha1([0; 20]),
            Kind::Sha256 => Inner::Sha256([0; 32]),
        };
        ObjectId { inner }
    }

    /// The id that a text spells in hexadecimal, two digits a byte, each digit of either case.
    ///
    /// A text that has neither 40 nor 64 bytes is answered with `IdError::Length`, whatever its
    /// bytes are. One of these lengths with a byte that is no digit is answered with
    /// `IdError::Digit`.
    pub fn from_hex(text: &[u8]) -> Result<ObjectId, IdError>
        ensures ok { IfOk result (SpellsId text.now) }
        ensures err { IfErr result (SpellsNone text.now) }
    {
        match text.len() {
            40 => Ok(ObjectId::from(decoded::<20>(text)?)),
            64 => Ok(ObjectId::from(decoded::<32>(text)?)),
            _ => Err(IdError::Length),
        }
    }

    /// The same id, borrowed.
    pub fn as_oid(&self) -> oid<'_>
        ensures { oid_bytes result ≡ self.now }
    {
        match &self.inner {
            Inner::Sha1(bytes) => oid::from_sized(bytes),
            Inner::Sha256(bytes) => oid::from_sized(bytes),
        }
    }
}

/// The bytes that a text spells, two digits each.
fn decoded<const N: usize>(text: &[u8]) -> Result<[u8; N], IdError>
    requires { length text.now ≡ 2 * N }
    ensures ok { IfOk result (λ bytes. decode_of text.now ≡ Ok bytes) }
    ensures digits { IsOk result ↔ AllPass is_hex_digit text.now }
    ensures err { IfErr result (λ e. e ≡ IdError.Digit) }
{
    match <[u8; N]>::from_hex(text) {
        Ok(bytes) => Ok(bytes),
        Err(_) => Err(IdError::Digit),
    }
}

/// The SHA-1 id of these bytes.
impl From<[u8; 20]> for ObjectId {
    ghost from_gives = { λ bytes id. id ≡ bytes };

    fn from(bytes: [u8; 20]) -> ObjectId {
        ObjectId {
            inner: Inner::Sha1(bytes),
        }
    }
}

/// The SHA-256 id of these bytes.
impl From<[u8; 32]> for ObjectId {
    ghost from_gives = { λ bytes id. id ≡ bytes };

    fn from(bytes: [u8; 32]) -> ObjectId {
        ObjectId {
            inner: Inner::Sha256(bytes),
        }
    }
}

impl PartialEq for ObjectId {
    ghost eq = { pointwise nat_eq };

    ghost laws = { Prim.search (comparing, rules) };

    fn eq(&self, other: &ObjectId) -> bool {
        self.as_oid() == other.as_oid()
    }
}

impl Eq for ObjectId {
    ghost laws = { Prim.search (comparing, rules) };
}

impl PartialOrd for ObjectId {
    ghost partial_cmp = { as_partial_cmp (slice_cmp nat_cmp) };

    ghost laws = { partial_order_from_own_ties (Prim.search (comparing, rules))
        (Prim.search (comparing, rules)) };

    fn partial_cmp(&self, other: &ObjectId) -> Option<Ordering> {
        Some(self.cmp(other))
    }
}

impl Ord for ObjectId {
    ghost cmp = { slice_cmp nat_cmp };

    ghost total = { Prim.search (comparing, rules) };

    ghost matches_partial_cmp = { λ x y. refl };

    ghost matches_eq = { Prim.search (comparing, rules) };

    fn cmp(&self, other: &ObjectId) -> Ordering {
        self.as_oid().cmp(&other.as_oid())
    }
}

impl Hash for ObjectId {
    ghost hash_input = { fed.slice fed.u8 };

    ghost respects_eq = { Prim.search (hashing, rules) };

    fn hash<H: Hasher>(&self, state: &mut H) {
        self.as_oid().hash(state);
    }
}

/// The id in lower-case hexadecimal, two digits a byte.
impl fmt::Display for ObjectId {
    ghost output = { λ id. Some (encode_lower id) };

    fn fmt<W: fmt::Write>(&self, f: &mut fmt::Formatter<W>) -> fmt::Result {
        fmt::Display::fmt(&self.as_oid(), f)
    }
}

/// The kind with the id in it, as `Sha1(00..)`.
impl fmt::Debug for ObjectId {
    fn fmt<W: fmt::Write>(&self, f: &mut fmt::Formatter<W>) -> fmt::Result {
        fmt::Debug::fmt(&self.as_oid(), f)
    }
}
