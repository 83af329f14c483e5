//! Reads of parts.

ghost use Rattle.std.specs.Prelude.{◌≡◌, ◌≢◌, ◌-◌, ◌<◌, ◌≤◌, length, min, take};
ghost use Rattle.std.specs.Prelude.{IfOk, IfErr, IfSome, IfNone};
ghost use Rattle.std.specs.Io.KnownBytes.{Consumes, IsAtEnd};
ghost use Rattle.graph_folder.specs.Parts.{IfPart};
ghost use Rattle.graph_folder.specs.Reads.{AreFromOffset};

use super::{Part, ReadError};
use std::alloc::Global;
use std::io::{Read, Seek, SeekFrom};

/// A part of an opened file that is so long: its bytes from `start` on, at most `len` of them and
/// none past its length. It is `None` where the file cannot be set to `start`, or ends before the
/// part does. The errors are those of [`read_all`](super::read_all).
pub(super) fn read_part_from<F: Read + Seek>(
    alloc: Global,
    file: &mut F,
    file_len: u64,
    start: u64,
    len: usize,
) -> Result<Option<Part>, ReadError>
    ensures bytes { IfPart result (λ part. AreFromOffset F.stream_position F.stream_bytes
        F.remaining file.old file.new start part.bytes.items) }
    ensures size { IfPart result (λ part.
        length part.bytes.items ≡ min len (file_len - start)) }
    ensures whole { IfPart result (λ part. part.file_len ≡ file_len) }
    ensures opened { IfErr result (λ error. error ≢ ReadError.NotOpened) }
{
    let count = min_len(len, file_len.saturating_sub(start));
    match file.seek(SeekFrom::Start(start)) {
        Ok(_) => match read_exactly(alloc, file, count)? {
            Some(bytes) => Ok(Some(Part { bytes, file_len })),
            None => Ok(None),
        },
        Err(_) => Ok(None),
    }
}

/// The lesser of the two.
fn min_len(len: usize, left: u64) -> usize
    ensures { result ≡ min len left }
{
    if left < len as u64 {
        left as usize
    } else {
        len
    }
}

/// As many bytes of the reader as are asked for, however it cuts them, or `None` where it ends
/// before. The errors are those of [`read_all`](super::read_all).
fn read_exactly<R: Read>(
    alloc: Global,
    reader: &mut R,
    count: usize,
) -> Result<Option<Vec<u8>>, ReadError>
    ensures bytes { IfOk result (λ answer. IfSome answer (λ bytes.
        Consumes (R.remaining reader.old) (R.remaining reader.new) bytes.items)) }
    ensures size { IfOk result (λ answer. IfSome answer (λ bytes.
        length bytes.items ≡ count)) }
    ensures ended { IfOk result (λ answer. IfNone answer
        (IfSome (R.remaining reader.old) (λ all. length all < count))) }
    ensures opened { IfErr result (λ error. error ≢ ReadError.NotOpened) }
{
    let mut bytes = vec![in alloc; 0; count].map_err(|_| ReadError::OutOfMemory)?;
    if fill(reader, &mut bytes)? < count {
        Ok(None)
    } else {
        Ok(Some(bytes))
    }
}

/// Fills the bytes from the reader, and answers how many it had: fewer only where it ended.
fn fill<R: Read>(reader: &mut R, bytes: &mut [u8]) -> Result<usize, ReadError>
    ensures bytes { IfOk result (λ count. Consumes (R.remaining reader.old)
        (R.remaining reader.new) (take count bytes.new)) }
    ensures room { IfOk result (λ count. count ≤ length bytes.new) }
    ensures end { IfOk result (λ count. count < length bytes.new
        → IsAtEnd (R.remaining reader.new)) }
    ensures error { IfErr result (λ error. error ≡ ReadError.Device) }
{
    let mut filled = 0;
    while filled < bytes.len() {
        match reader.read(&mut bytes[filled..]) {
            Ok(0) => return Ok(filled),
            Ok(count) => filled += count,
            Err(_) => return Err(ReadError::Device),
        }
    }
    Ok(filled)
}
