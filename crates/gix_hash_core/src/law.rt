//! Laws of ids and digests.
//!
//! That equality is an equivalence, that the order is total and agrees with it, and that equal ids
//! hash alike is proved with the impls of `Eq`, `Ord` and `Hash` themselves.

ghost use Rattle.std.specs.Prelude.{◌≡◌, ℕ, List, length};
ghost use Rattle.gix_hash_core.specs.Digest.{digest_of};
ghost use Rattle.gix_hash_core.specs.Kind.{id_len};
ghost use Rattle.gix_hash_core.specs.IdLaws.{AreOfOneKind, AreOrdered, IsReadBack};
ghost use Rattle.gix_hash_core.specs.declared.kind.Kind.{Kind};

/// Ids compare as their lists of bytes do: two are equal exactly where the lists are the same, and
/// one comes before the other exactly where its byte is the lesser at the first place at which
/// they differ, or where it is a proper prefix of the other.
pub fn ids_are_ordered_by_their_bytes()
    ensures { (first second : List ℕ) → AreOrdered first second }
{}

/// Ids of different kinds are never equal.
pub fn equal_ids_are_of_one_kind()
    ensures { (one other : Kind) (id : List ℕ) → AreOfOneKind one other id }
{}

/// The digits that an id is written in spell that id.
#[tactic(auto, using(crate::proofs::HexText::is_read_back))]
pub fn written_ids_are_read_back()
    ensures { (id : List ℕ) → IsReadBack id }
{}

/// A digest has as many bytes as the ids of its kind.
#[tactic(auto, using(crate::proofs::DigestLemmas::digest_is_sized))]
pub fn digests_are_ids()
    ensures { (kind : Kind) (message : List ℕ) → length (digest_of kind message) ≡ id_len kind }
{}
