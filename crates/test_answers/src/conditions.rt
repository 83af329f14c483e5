//! What refuses the bytes of a file, tried one condition after another. It is written after the
//! format alone, and shares nothing with the code that it is compared with but the names of the
//! refusals.

use crate::table::{byte, find_chunk, number, table_fault, trailer_len};
use gix_commitgraph::FileError;

/// How many bytes an id has, in a header without fault.
fn id_len(bytes: &[u8]) -> usize {
    if byte(bytes, 5) == 1 { 20 } else { 32 }
}

/// How many bytes a record has.
fn record_len(bytes: &[u8]) -> usize {
    id_len(bytes).saturating_add(16)
}

/// How many base ids the header tells.
fn base_count(bytes: &[u8]) -> usize {
    byte(bytes, 7) as usize
}

/// Whether one number is a multiple of another.
fn is_multiple(number: usize, of: usize) -> bool {
    number.checked_rem(of) == Some(0)
}

/// Whether bytes are so many items of a length.
fn holds(len: usize, items: usize, of: usize) -> bool {
    len == items.saturating_mul(of)
}

/// The file is too short, has another signature, another version, or another kind of hash.
fn header(bytes: &[u8]) -> Option<FileError> {
    if bytes.len() < 1100 {
        return Some(FileError::TooSmall);
    }
    if !bytes.starts_with(b"CGPH") {
        return Some(FileError::Signature);
    }
    if byte(bytes, 4) != 1 {
        return Some(FileError::Version(byte(bytes, 4)));
    }
    if byte(bytes, 5) != 1 && byte(bytes, 5) != 2 {
        return Some(FileError::Hash(byte(bytes, 5)));
    }
    None
}

/// The base ids are cut short, or are not as many as the header tells.
fn bases(bytes: &[u8]) -> Option<FileError> {
    let chunk = find_chunk(bytes, b"BASE")?;
    if !is_multiple(chunk.len, id_len(bytes)) {
        return Some(FileError::BaseSize);
    }
    if !holds(chunk.len, base_count(bytes), id_len(bytes)) {
        return Some(FileError::BaseCount);
    }
    None
}

/// The records are missing or cut short.
fn records(bytes: &[u8]) -> Option<FileError> {
    let Some(chunk) = find_chunk(bytes, b"CDAT") else {
        return Some(FileError::NoCommitData);
    };
    if !is_multiple(chunk.len, record_len(bytes)) {
        return Some(FileError::CommitDataSize);
    }
    None
}

/// The fan is missing or has another size.
fn fan(bytes: &[u8]) -> Option<FileError> {
    let Some(chunk) = find_chunk(bytes, b"OIDF") else {
        return Some(FileError::NoFan);
    };
    if chunk.len != 1024 {
        return Some(FileError::FanSize);
    }
    None
}

/// The ids are missing or cut short.
fn ids(bytes: &[u8]) -> Option<FileError> {
    let Some(chunk) = find_chunk(bytes, b"OIDL") else {
        return Some(FileError::NoIds);
    };
    if !is_multiple(chunk.len, id_len(bytes)) {
        return Some(FileError::IdsSize);
    }
    None
}

/// The extra edge list has too many whole words.
fn edges(bytes: &[u8]) -> Option<FileError> {
    let chunk = find_chunk(bytes, b"EDGE")?;
    if chunk.len / 4 > 4294967294 {
        return Some(FileError::TooManyEdges);
    }
    None
}

/// What follows the chunks is no checksum, or base ids are missing.
fn end(bytes: &[u8]) -> Option<FileError> {
    if trailer_len(bytes) != id_len(bytes) {
        return Some(FileError::Trailer);
    }
    if base_count(bytes) > 0 && find_chunk(bytes, b"BASE").is_none() {
        return Some(FileError::BaseMissing);
    }
    None
}

/// The number of a byte in a fan that begins at a place.
fn fan_number(bytes: &[u8], fan: usize, at: u8) -> usize {
    number(bytes, fan.saturating_add((at as usize) * 4), 4)
}

/// A number of the fan is less than the one before.
fn falls(bytes: &[u8]) -> Option<FileError> {
    let fan = find_chunk(bytes, b"OIDF")?.from;
    for at in 1..=255u8 {
        if fan_number(bytes, fan, at) < fan_number(bytes, fan, at.saturating_sub(1)) {
            return Some(FileError::FanFalls { at });
        }
    }
    None
}

/// There are other numbers of ids or records than the fan's last number tells.
fn counts(bytes: &[u8]) -> Option<FileError> {
    let commits = fan_number(bytes, find_chunk(bytes, b"OIDF")?.from, 255);
    if !holds(find_chunk(bytes, b"OIDL")?.len, commits, id_len(bytes)) {
        return Some(FileError::IdCount);
    }
    if !holds(find_chunk(bytes, b"CDAT")?.len, commits, record_len(bytes)) {
        return Some(FileError::RecordCount);
    }
    None
}

/// The first of the conditions on the chunks' sizes that holds, in a table without fault.
fn sizes(bytes: &[u8]) -> Option<FileError> {
    if let Some(error) = bases(bytes) {
        return Some(error);
    }
    if let Some(error) = records(bytes) {
        return Some(error);
    }
    if let Some(error) = fan(bytes) {
        return Some(error);
    }
    if let Some(error) = ids(bytes) {
        return Some(error);
    }
    edges(bytes)
}

/// The first of the conditions after these that holds.
fn contents(bytes: &[u8]) -> Option<FileError> {
    if let Some(error) = end(bytes) {
        return Some(error);
    }
    if let Some(error) = falls(bytes) {
        return Some(error);
    }
    counts(bytes)
}

/// Why bytes are no layer: the first condition that holds of them.
pub fn refusal(bytes: &[u8]) -> Option<FileError> {
    if let Some(error) = header(bytes) {
        return Some(error);
    }
    if let Some(fault) = table_fault(bytes) {
        return Some(FileError::Chunks(fault));
    }
    if let Some(error) = sizes(bytes) {
        return Some(error);
    }
    contents(bytes)
}
