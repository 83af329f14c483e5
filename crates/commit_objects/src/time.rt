//! Reading the time of a commit.

ghost use Rattle.std.specs.Prelude.{◌≡◌, ◌<◌, ◌==◌, option_map, option_and_then, position};
ghost use Rattle.std.specs.Prelude.{◌+◌, ◌*◌, ◌^◌, ◌≤◌, length, IfSome, SomeIff};
ghost use Rattle.commit_objects.specs.Time as spec;

use crate::line::behind_word;
use memchr::memchr;

/// The time as Git from 2.41 on reads it, from what follows the parents.
#[tactic(auto, unfolding(crate::specs::Time::newer_time))]
pub(crate) fn newer_time(rest: &[u8]) -> u64
    ensures { result ≡ spec.newer_time rest.now }
{
    match newer_date(rest) {
        Some(date) if begins_number(date) => parse_timestamp(date),
        _ => 0,
    }
}

/// What follows the last `>` in the committer's line, without Git's spaces at its front.
fn newer_date(rest: &[u8]) -> Option<&[u8]>
    ensures { option_map (λ x. x.now) result
        ≡ option_map spec.without_git_spaces
        (option_and_then (spec.behind_last_byte spec.end_of_address)
        (option_and_then (spec.before_byte spec.line_feed) (spec.behind_committer rest.now))) }
{
    let line = before_byte(b'\n', behind_committer(rest)?)?;
    let date = behind_last_byte(b'>', line)?;
    Some(without_git_spaces(date))
}

/// Whether a digit or a minus sign is the first byte.
fn begins_number(bytes: &[u8]) -> bool
    ensures { result ≡ spec.begins_number bytes.now }
{
    matches!(bytes, [b'0'..=b'9' | b'-', ..])
}

/// The committer's time, in seconds since 1970-01-01 00:00:00 UTC, as Git up to 2.40 reads it from
/// what follows the lines of the parents. It is 0 where Git finds none.
#[tactic(auto, unfolding(crate::specs::Time::older_time))]
pub fn older_time(rest: &[u8]) -> u64
    ensures { result ≡ spec.older_time rest.now }
{
    match older_date(rest) {
        Some(date) if goes_on(date) => parse_timestamp(date),
        _ => 0,
    }
}

/// What follows the first `>` behind the word of the committer.
fn older_date(rest: &[u8]) -> Option<&[u8]>
    ensures { option_map (λ x. x.now) result
        ≡ option_and_then (spec.behind_byte spec.end_of_address) (spec.behind_committer rest.now) }
{
    behind_byte(b'>', behind_committer(rest)?)
}

/// What follows the word of the committer.
#[tactic(auto, unfolding(crate::specs::Time::behind_committer))]
fn behind_committer(rest: &[u8]) -> Option<&[u8]>
    ensures { option_map (λ x. x.now) result ≡ spec.behind_committer rest.now }
{
    let author = behind_word(b"author", rest)?;
    let line = behind_byte(b'\n', author)?;
    behind_word(b"committer", line)
}

/// Whether a line feed is there, and a byte behind it.
fn goes_on(bytes: &[u8]) -> bool
    ensures { result ≡ spec.goes_on bytes.now }
{
    match behind_byte(b'\n', bytes) {
        Some(rest) => !rest.is_empty(),
        None => false,
    }
}

/// Where the first byte with this value stands.
fn place_of(value: u8, bytes: &[u8]) -> Option<usize>
    ensures value { result ≡ position (λ byte. byte == value) bytes.now }
    ensures inside { IfSome result (λ place. place < length bytes.now) }
{
    memchr(value, bytes)
}

/// What stands before the first byte with this value.
fn before_byte(value: u8, bytes: &[u8]) -> Option<&[u8]>
    ensures { option_map (λ x. x.now) result ≡ spec.before_byte value bytes.now }
{
    let place = place_of(value, bytes)?;
    Some(&bytes[..place])
}

/// What stands behind the first byte with this value.
fn behind_byte(value: u8, bytes: &[u8]) -> Option<&[u8]>
    ensures { option_map (λ x. x.now) result ≡ spec.behind_byte value bytes.now }
{
    let place = place_of(value, bytes)?;
    Some(&bytes[place + 1..])
}

/// What stands behind the last byte with this value.
fn behind_last_byte(value: u8, bytes: &[u8]) -> Option<&[u8]>
    ensures { option_map (λ x. x.now) result ≡ spec.behind_last_byte value bytes.now }
{
    let mut rest = behind_byte(value, bytes)?;
    while let Some(next) = behind_byte(value, rest) {
        rest = next;
    }
    Some(rest)
}

/// The number of Git's `parse_timestamp`, which is C's `strtoumax`: spaces and a sign may stand
/// before it. It is 2^64 - 1 where 64 bits do not hold it. A minus sign negates it modulo 2^64.
#[tactic(auto, unfolding(crate::specs::Time::parse_timestamp))]
fn parse_timestamp(bytes: &[u8]) -> u64
    ensures { result ≡ spec.parse_timestamp bytes.now }
{
    let number = without_spaces(bytes);
    match behind_word(b"-", number) {
        Some(digits) => negated_number(digits),
        None => leading_number(without_plus(number)),
    }
}

/// The bytes without the spaces at their front, as C knows them.
fn without_spaces(bytes: &[u8]) -> &[u8]
    ensures { result.now ≡ spec.without_spaces bytes.now }
{
    let mut rest = bytes;
    while let [b' ' | b'\t'..=b'\r', next @ ..] = rest {
        rest = next;
    }
    rest
}

/// The bytes without the spaces at their front, as Git knows them: fewer than C does.
fn without_git_spaces(bytes: &[u8]) -> &[u8]
    ensures { result.now ≡ spec.without_git_spaces bytes.now }
{
    let mut rest = bytes;
    while let [b' ' | b'\t' | b'\n' | b'\r', next @ ..] = rest {
        rest = next;
    }
    rest
}

/// The bytes without a plus sign at their front.
fn without_plus(bytes: &[u8]) -> &[u8]
    ensures { result.now ≡ spec.without_plus bytes.now }
{
    behind_word(b"+", bytes).unwrap_or(bytes)
}

/// The number that the decimal digits at the front of the bytes spell: 0 where no digit stands
/// there, and 2^64 - 1 where it is greater than that.
pub fn leading_number(bytes: &[u8]) -> u64
    ensures { result ≡ spec.leading_number bytes.now }
{
    checked_number(bytes).unwrap_or(u64::MAX)
}

/// The number that the decimal digits at the front of the bytes spell, negated modulo 2^64, and
/// 2^64 - 1 where 64 bits do not hold it.
fn negated_number(bytes: &[u8]) -> u64
    ensures { result ≡ spec.negated_number bytes.now }
{
    match checked_number(bytes) {
        Some(number) => number.wrapping_neg(),
        None => u64::MAX,
    }
}

/// The number that the decimal digits at the front of the bytes spell, where 64 bits hold it.
fn checked_number(bytes: &[u8]) -> Option<u64>
    ensures { SomeIff result (spec.spelled_number bytes.now < 2 ^ 64)
        (spec.spelled_number bytes.now) }
{
    let mut number = 0u64;
    for byte in bytes {
        if !byte.is_ascii_digit() {
            break;
        }
        number = with_digit(number, *byte - b'0')?;
    }
    Some(number)
}

/// The number with one more digit, where 64 bits hold it. Short numbers, as almost all are, take no
/// checked steps.
fn with_digit(number: u64, digit: u8) -> Option<u64>
    requires { digit ≤ 9 }
    ensures { SomeIff result (number * 10 + digit < 2 ^ 64) (number * 10 + digit) }
{
    if number < u64::MAX / 10 {
        Some(number * 10 + digit as u64)
    } else {
        number.checked_mul(10)?.checked_add(digit as u64)
    }
}
