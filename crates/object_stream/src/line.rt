//! Reading the line of an entry, which stands before the contents.

ghost use Rattle.std.specs.Prelude.{◌≡◌, ◌≢◌, ◌↔◌, ◌<◌, ◌^◌, ◌*◌, ◌++◌, ℕ, List, IsTrue, IfSome};
ghost use Rattle.std.specs.Prelude.{MatchOption, MatchResult, OnOk, Some, codes, decimal, take};
ghost use Rattle.std.specs.List.{AllPass};
ghost use Rattle.hex.specs.Hex.{IsBytes};
ghost use Rattle.gix_hash_core.specs.Kind.{id_len};
ghost use Rattle.object_stream.specs.BatchEntry.{HasNoFeed, IsLineEnd, longest_line};
ghost use Rattle.object_stream.specs.BatchEntry.{IsObjectLine, IsTail, is_lower_digit};
ghost use Rattle.object_stream.specs.BatchEntry.{type_and_size};
ghost use Rattle.object_stream.specs.NextEntry.{IsExpected};
ghost use Rattle.object_stream.specs.FoundEntry.{IsOtherLine};
ghost use Rattle.object_stream.specs.declared.heading.Heading as heading;
ghost use Rattle.object_stream.specs.declared.heading.Heading.TheVariants as told;

use crate::error::EntryError;
use crate::heading::Heading;
use crate::object_type::ObjectType;
use commit_objects::spells;
use gix_hash_core::{Kind, ObjectId};
use itoa::Buffer;
use memchr::memchr;
use std::str;

/// How many bytes the longest line has, its line feed among them: the digits of an id, a type and
/// a size.
pub(crate) const LINE: usize = 64 + 8 + 20 + 1;

/// Where the first line ends, if it is no longer than the longest.
pub(crate) fn line_end(bytes: &[u8]) -> Option<usize>
    ensures { MatchOption result (HasNoFeed (take longest_line bytes.now))
        (IsLineEnd bytes.now) }
{
    memchr(b'\n', &bytes[..bytes.len().min(LINE)])
}

/// The size that a line, without its line feed, tells of an object of this type that is expected,
/// whose id is of this kind.
pub(crate) fn size_in(
    kind: Kind,
    object_type: ObjectType,
    expected: &Option<ObjectId>,
    line: &[u8],
) -> Result<u64, EntryError>
    ensures size { MatchResult result
        (λ size. IsObjectLine (id_len kind) line.now (take (2 * id_len kind) line.now)
        (told.Object object_type size))
        (IsOtherLine kind object_type expected.now line.now) }
    ensures expected { OnOk result (IsExpected expected.now (take (2 * id_len kind) line.now)) }
    ensures bytes { OnOk result (IfSome expected.now IsBytes) }
{
    let Some((digits, tail)) = line.split_at_checked(2 * kind.len_in_bytes()) else {
        return Err(EntryError::NoEntry);
    };
    let Some(heading) = heading_of(tail) else {
        return Err(EntryError::NoEntry);
    };
    if !are_digits(digits) {
        return Err(EntryError::NoEntry);
    }
    if !are_expected(expected, digits) {
        return Err(EntryError::OtherId);
    }
    match heading {
        Heading::Missing => Err(EntryError::Missing),
        Heading::Object(other, size) => {
            if other.is(object_type) {
                Ok(size)
            } else {
                Err(EntryError::OtherType)
            }
        }
    }
}

/// Whether digits are those of the id that is expected, where one is.
fn are_expected(expected: &Option<ObjectId>, digits: &[u8]) -> bool
    ensures same { IsTrue result ↔ IsExpected expected.now digits.now }
    ensures bytes { IsTrue result → IfSome expected.now IsBytes }
{
    match expected {
        Some(id) => spells(digits, id.as_oid()),
        None => true,
    }
}

/// What a line says behind the id, if it is of a right form: `tail` is what stands there.
fn heading_of(tail: &[u8]) -> Option<Heading>
    ensures { MatchOption result ((told : heading.Heading) → ¬ IsTail tail.now told)
        (IsTail tail.now) }
{
    if is_missing(tail) {
        return Some(Heading::Missing);
    }
    if let Some(size) = size_of_type(ObjectType::Commit, tail) {
        return Some(Heading::Object(ObjectType::Commit, size));
    }
    if let Some(size) = size_of_type(ObjectType::Tree, tail) {
        return Some(Heading::Object(ObjectType::Tree, size));
    }
    if let Some(size) = size_of_type(ObjectType::Blob, tail) {
        return Some(Heading::Object(ObjectType::Blob, size));
    }
    if let Some(size) = size_of_type(ObjectType::Tag, tail) {
        return Some(Heading::Object(ObjectType::Tag, size));
    }
    None
}

/// The size that is told of an object of a type.
fn size_of_type(object_type: ObjectType, tail: &[u8]) -> Option<u64>
    ensures { MatchOption result
        ((n : ℕ) → n < 2 ^ 64 → tail.now ≢ type_and_size object_type n)
        (λ n. tail.now ≡ type_and_size object_type n) }
{
    size_behind(object_type.spaced_word(), tail)
}

/// Whether the tail says that the object is missing.
fn is_missing(tail: &[u8]) -> bool
    ensures { IsTrue result ↔ (tail.now ≡ codes " missing") }
{
    tail == b" missing".as_slice()
}

/// The size that is told behind a word.
fn size_behind(word: &[u8], tail: &[u8]) -> Option<u64>
    ensures { MatchOption result ((n : ℕ) → n < 2 ^ 64 → tail.now ≢ word.now ++ decimal n)
        (λ n. tail.now ≡ word.now ++ decimal n) }
{
    match tail.strip_prefix(word) {
        Some(text) => size_of(text),
        None => None,
    }
}

/// The number that the text is in decimal, as Git writes it.
fn size_of(text: &[u8]) -> Option<u64>
    ensures { MatchOption result ((n : ℕ) → n < 2 ^ 64 → text.now ≢ decimal n)
        (λ n. text.now ≡ decimal n) }
{
    let number = number_in(text)?;
    if is_decimal(number, text) {
        Some(number)
    } else {
        None
    }
}

/// The number that the text spells, also with a sign or leading zeros.
fn number_in(text: &[u8]) -> Option<u64>
    ensures { (n : ℕ) → n < 2 ^ 64 → text.now ≡ decimal n → result ≡ Some n }
{
    match str::from_utf8(text) {
        Ok(digits) => digits.parse::<u64>().ok(),
        Err(_) => None,
    }
}

/// Whether the text is the number in decimal.
fn is_decimal(number: u64, text: &[u8]) -> bool
    ensures { IsTrue result ↔ (text.now ≡ decimal number) }
{
    let mut buffer = Buffer::new();
    buffer.format(number).as_bytes() == text
}

/// Whether the text is of lower-case hexadecimal digits.
pub fn are_digits(text: &[u8]) -> bool
    ensures { IsTrue result ↔ AllPass is_lower_digit text.now }
{
    text.iter()
        .all(|byte| matches!(*byte, b'0'..=b'9' | b'a'..=b'f'))
}
