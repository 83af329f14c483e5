//! Ids in hexadecimal. Their digits are as good as random, so nothing here branches on what they
//! are.

ghost use Rattle.std.specs.Prelude.{◌≡◌, ◌↔◌, ◌<◌, ◌*◌, ℕ, List, IsTrue, MatchOption, Ok, Some};
ghost use Rattle.std.specs.Prelude.{length, true};
ghost use Rattle.std.specs.List.{AllPass};
ghost use Rattle.hex.specs.Hex.{decode_of, hex_digit_value, is_hex_digit, pair_value};
ghost use Rattle.gix_hash_core.specs.Hexadecimal.{SpellsId, IsHexLen};

use gix_hash_core::ObjectId;
use std::marker::Model;

/// The digits of an id, of either case. A contract sees the id that they spell.
#[derive(Drop)]
pub(crate) struct HexId<'a> {
    digits: &'a [u8],
}

impl<'a> Model for HexId<'a> {
    ghost use Rattle.std.specs.Prelude.{ℕ, List};
    ghost use Rattle.gix_hash_core.specs.Hexadecimal.{SpellsId};
    ghost use Rattle.commit_objects.specs.Lines.{id_of_digits};

    ghost Value = { List ℕ };

    ghost view = { λ text. id_of_digits text.digits.now };

    ghost invariant = { λ text. (id : List ℕ) × SpellsId text.digits.now id };
}

impl<'a> HexId<'a> {
    /// The id that a text spells, which has as many bytes as digits of an id are.
    pub(crate) fn from_text(text: &'a [u8]) -> Option<HexId<'a>>
        requires { IsHexLen (length text.now) }
        ensures { MatchOption result ((id : List ℕ) → ¬ SpellsId text.now id) (SpellsId text.now) }
    {
        if are_digits(text) {
            Some(HexId { digits: text })
        } else {
            None
        }
    }

    /// The id that digits spell.
    pub(crate) fn of_digits(digits: &'a [u8]) -> HexId<'a>
        requires { (id : List ℕ) × SpellsId digits.now id }
        ensures { SpellsId digits.now result }
    {
        HexId { digits }
    }

    /// The id, decoded.
    pub(crate) fn decode(&self) -> ObjectId
        ensures { result ≡ self.now }
    {
        match self.digits.len() {
            40 => ObjectId::from(decoded::<20>(self.digits)),
            _ => ObjectId::from(decoded::<32>(self.digits)),
        }
    }
}

/// Whether all bytes are hexadecimal digits.
fn are_digits(text: &[u8]) -> bool
    ensures { IsTrue result ↔ AllPass is_hex_digit text.now }
{
    let mut all = true;
    for byte in text {
        all = all & is_digit(*byte);
    }
    all
}

/// Whether a byte is a hexadecimal digit.
fn is_digit(byte: u8) -> bool
    ensures { result ≡ is_hex_digit byte }
{
    matches!(byte, b'0'..=b'9' | b'A'..=b'F' | b'a'..=b'f')
}

/// The bytes that digits spell.
fn decoded<const N: usize>(digits: &[u8]) -> [u8; N]
    requires sized { length digits.now ≡ 2 * N }
    requires digits { AllPass is_hex_digit digits.now }
    ensures { decode_of digits.now ≡ Ok result }
{
    let mut bytes = [0; N];
    for i in 0..N {
        bytes[i] = byte_of(digits[2 * i], digits[2 * i + 1]);
    }
    bytes
}

/// The byte of two digits.
fn byte_of(high: u8, low: u8) -> u8
    requires high { is_hex_digit high ≡ true }
    requires low { is_hex_digit low ≡ true }
    ensures { (i : ℕ) → pair_value high low i ≡ Ok result }
{
    value_of(high) * 16 + value_of(low)
}

/// The value of a digit: that of its low four bits, and 9 more where it is a letter.
fn value_of(digit: u8) -> u8
    requires { is_hex_digit digit ≡ true }
    ensures value { hex_digit_value digit ≡ Some result }
    ensures small { result < 16 }
{
    digit % 16 + digit / 64 * 9
}
