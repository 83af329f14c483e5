//! Texts and digits, written into bytes.

ghost use Rattle.std.specs.Prelude.{◌≡◌, ◌+◌, ◌*◌, ◌≤◌, ◌++◌, length, take, decimal, ◌<◌};
ghost use Rattle.hex.specs.Hex.{encode_lower};

use itoa::write_digits;

/// Writes a text from a place on, and answers where it ends.
pub fn put_text(bytes: &mut [u8], at: usize, text: &[u8]) -> usize
    requires { at + length text.now ≤ length bytes.old }
    ensures text { take result bytes.new ≡ take at bytes.old ++ text.now }
    ensures end { result ≡ at + length text.now }
    ensures len { length bytes.new ≡ length bytes.old }
{
    let end = at + text.len();
    bytes[at..end].copy_from_slice(text);
    end
}

/// Writes a number in decimal digits from a place on, and answers where they end.
pub fn put_decimal(bytes: &mut [u8], at: usize, number: u64) -> usize
    requires { at + 20 ≤ length bytes.old }
    ensures digits { take result bytes.new ≡ take at bytes.old ++ decimal number }
    ensures end { result ≤ at + 20 }
    ensures len { length bytes.new ≡ length bytes.old }
{
    let end = at + digit_count(number);
    write_digits(number, bytes, end);
    end
}

/// How many decimal digits a number has.
fn digit_count(number: u64) -> usize
    ensures count { result ≡ length (decimal number) }
    ensures most { result ≤ 20 }
{
    let mut count = 0;
    let mut left = number;
    while left >= 10_000 {
        left /= 10_000;
        count += 4;
    }
    count + short_digit_count(left)
}

/// How many decimal digits a number below 10000 has.
fn short_digit_count(number: u64) -> usize
    requires { number < 10000 }
    ensures { result ≡ length (decimal number) }
{
    match number {
        0..10 => 1,
        10..100 => 2,
        100..1000 => 3,
        _ => 4,
    }
}

/// Writes two hexadecimal digits a byte from a place on, and answers where they end.
pub fn put_hex(bytes: &mut [u8], at: usize, id: &[u8]) -> usize
    requires { at + 2 * length id.now ≤ length bytes.old }
    ensures digits { take result bytes.new ≡ take at bytes.old ++ encode_lower id.now }
    ensures end { result ≡ at + 2 * length id.now }
    ensures len { length bytes.new ≡ length bytes.old }
{
    let end = at + 2 * id.len();
    hex::encode_to_slice(id, &mut bytes[at..end]).unwrap();
    end
}
