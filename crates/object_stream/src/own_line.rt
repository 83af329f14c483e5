//! Reading the line of an object that is expected, in one go: in a right stream each line is one.

ghost use Rattle.std.specs.Prelude.{◌≡◌, ◌<◌, ◌^◌, ◌++◌, ◌∷◌, ◌*◌, ◌↔◌, ℕ, List, IfSome, IsSome};
ghost use Rattle.std.specs.Prelude.{IsTrue, decimal, length, take};
ghost use Rattle.std.specs.List.{AllPass};
ghost use Rattle.hex.specs.Hex.{IsBytes};
ghost use Rattle.gix_hash_core.specs.Kind.{id_len};
ghost use Rattle.object_stream.specs.BatchEntry.{is_lower_digit};
ghost use Rattle.object_stream.specs.NextEntry.{IsExpected};
ghost use Rattle.object_stream.specs.FoundEntry.{FindsObject};

use crate::line::are_digits;
use crate::object_type::ObjectType;
use commit_objects::spells;
use gix_hash_core::{Kind, ObjectId};

/// Below this a number may have one more digit.
const MOST: usize = 1_000_000_000_000_000_000;

/// How many bytes the line has, without its line feed, with which the bytes begin, and the size
/// that it tells, where it is the line of an object of this type that is expected, whose id is of
/// this kind. Where it is `None`, the line may still be that of the object, with a size that none
/// has.
pub(crate) fn own_line(
    kind: Kind,
    object_type: ObjectType,
    expected: &Option<ObjectId>,
    bytes: &[u8],
) -> Option<(usize, usize)>
    ensures found { IfSome result (λ told. FindsObject kind object_type bytes.now told.0 told.1) }
    ensures expected { IsSome result → IsExpected expected.now (take (2 * id_len kind) bytes.now) }
    ensures bytes { IsSome result → IfSome expected.now IsBytes }
{
    let id_digits = 2 * kind.len_in_bytes();
    let Some((digits, tail)) = bytes.split_at_checked(id_digits) else {
        return None;
    };
    let word = object_type.spaced_word();
    let Some(text) = tail.strip_prefix(word) else {
        return None;
    };
    let Some((size_digits, size)) = size_before_feed(text) else {
        return None;
    };
    if are_own_digits(expected, digits) {
        Some((id_digits + word.len() + size_digits, size))
    } else {
        None
    }
}

/// Whether a text is of lower-case digits, those of the id that is expected, where one is.
fn are_own_digits(expected: &Option<ObjectId>, text: &[u8]) -> bool
    ensures lower { IsTrue result → AllPass is_lower_digit text.now }
    ensures expected { IsTrue result → IsExpected expected.now text.now }
    ensures bytes { IsTrue result → IfSome expected.now IsBytes }
{
    match expected {
        Some(id) => spells(text, id.as_oid()),
        None => are_digits(text),
    }
}

/// How many digits stand before a line feed, and the number that they are in decimal, as Git writes
/// it. It is `None` where other bytes stand there, and for some numbers of 19 digits and more.
fn size_before_feed(text: &[u8]) -> Option<(usize, usize)>
    ensures read { IfSome result (λ told. (next : List ℕ)
        × (text.now ≡ decimal told.1 ++ 10 ∷ next) × (told.0 ≡ length (decimal told.1))) }
    ensures fits { IfSome result (λ told. told.1 < 2 ^ 64) }
{
    let mut size = 0;
    for place in 0..text.len() {
        let byte = text[place];
        if byte == b'\n' && place > 0 {
            return Some((place, size));
        }
        if !byte.is_ascii_digit() {
            return None;
        }
        if !may_grow(size, place) {
            return None;
        }
        size = size * 10 + (byte - b'0') as usize;
    }
    None
}

/// Whether a number of so many digits may have one more: a short one, which is not 0.
fn may_grow(size: usize, digits: usize) -> bool
    ensures short { IsTrue result → size < 10 ^ 18 }
    ensures some { IsTrue result → 0 < digits → 0 < size }
{
    if size == 0 { digits == 0 } else { size < MOST }
}
