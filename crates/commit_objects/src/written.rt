//! Ids and their lines as Git writes them, in lower-case digits: compared with an id that is known,
//! they need no decoding.

ghost use Rattle.std.specs.Prelude.{◌≡◌, ◌↔◌, ◌*◌, ℕ, List, IsTrue, IfSome, IsNone, Ok, length};
ghost use Rattle.hex.specs.Hex.{decode_of, encode_lower};
ghost use Rattle.gix_hash_core.specs.Hexadecimal.{SpellsId};
ghost use Rattle.gix_hash_core.specs.Oid.{oid_bytes};
ghost use Rattle.commit_objects.specs.Lines.{BeginsWithLine, BeginsAsWritten};

use crate::line::behind_word;
use gix_hash_core::{Kind, oid};

// the two digits of each byte
static DIGITS: [u8; 512] =
    *b"000102030405060708090a0b0c0d0e0f101112131415161718191a1b1c1d1e1f202122232425262728292a2b\
    2c2d2e2f303132333435363738393a3b3c3d3e3f404142434445464748494a4b4c4d4e4f5051525354555657\
    58595a5b5c5d5e5f606162636465666768696a6b6c6d6e6f707172737475767778797a7b7c7d7e7f80818283\
    8485868788898a8b8c8d8e8f909192939495969798999a9b9c9d9e9fa0a1a2a3a4a5a6a7a8a9aaabacadaeaf\
    b0b1b2b3b4b5b6b7b8b9babbbcbdbebfc0c1c2c3c4c5c6c7c8c9cacbcccdcecfd0d1d2d3d4d5d6d7d8d9dadb\
    dcdddedfe0e1e2e3e4e5e6e7e8e9eaebecedeeeff0f1f2f3f4f5f6f7f8f9fafbfcfdfeff";

/// What follows the line of a word and an id, where bytes begin with it as Git writes it.
#[inline(always)]
pub fn behind_line<'a>(kind: Kind, word: &[u8], id: oid<'_>, bytes: &'a [u8]) -> Option<&'a [u8]>
    ensures line { IfSome result (λ next.
        BeginsWithLine kind word.now bytes.now (oid_bytes id.entry) next.now) }
    ensures none { IsNone result
        → (next : List ℕ) → ¬ BeginsAsWritten kind word.now bytes.now (oid_bytes id.entry) next }
{
    let Some(line) = behind_word(word, bytes) else {
        return None;
    };
    let Some((digits, end)) = line.split_at_checked(2 * kind.len_in_bytes()) else {
        return None;
    };
    let Some(next) = behind_word(b"\n", end) else {
        return None;
    };
    if spells(digits, id) { Some(next) } else { None }
}

/// Whether a text is the id in lower-case digits.
pub fn spells(text: &[u8], id: oid<'_>) -> bool
    ensures same { IsTrue result ↔ (text.now ≡ encode_lower (oid_bytes id.entry)) }
    ensures id { IsTrue result → SpellsId text.now (oid_bytes id.entry) }
{
    let bytes = id.as_bytes();
    if text.len() != 2 * bytes.len() {
        return false;
    }
    match bytes.len() {
        20 => are_digits_of::<20>(text, bytes),
        _ => are_digits_of::<32>(text, bytes),
    }
}

/// Whether a text is the digits of so many bytes.
fn are_digits_of<const N: usize>(text: &[u8], bytes: &[u8]) -> bool
    requires digits { length text.now ≡ 2 * N }
    requires sized { length bytes.now ≡ N }
    ensures same { IsTrue result ↔ (text.now ≡ encode_lower bytes.now) }
    ensures decoded { IsTrue result → decode_of text.now ≡ Ok bytes.now }
{
    let mut same = true;
    for i in 0..N {
        let place = 2 * bytes[i] as usize;
        same = same & (text[2 * i] == DIGITS[place]) & (text[2 * i + 1] == DIGITS[place + 1]);
    }
    same
}
