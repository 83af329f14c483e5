//! Whole reads.

ghost use Rattle.std.specs.Prelude.{◌≡◌, ◌≢◌, ◌<◌, length, IfOk, IfErr, IfSome, IsTrue, OnOk};
ghost use Rattle.std.specs.Io.KnownBytes.{Consumes, IsAtEnd};

use super::ReadError;
use std::alloc::Global;
use std::io::Read;

/// How many bytes one read asks for.
const PIECE: usize = 64 * 1024;

/// All bytes of the reader to its end, however it cuts them. Any error of the reader is `Device`,
/// and `OutOfMemory` comes where an allocation failed. `NotOpened` never comes.
pub fn read_all<R: Read>(alloc: Global, reader: &mut R) -> Result<Vec<u8>, ReadError>
    ensures bytes { IfOk result (λ bytes.
        IfSome (R.remaining reader.old) (λ all. bytes.items ≡ all)) }
    ensures end { OnOk result (IsAtEnd (R.remaining reader.new)) }
    ensures opened { IfErr result (λ error. error ≢ ReadError.NotOpened) }
{
    read_expected(alloc, reader, 0)
}

/// All bytes of the reader to its end, as `read_all` answers them, with room from the start for as
/// many as are expected.
pub(super) fn read_expected<R: Read>(
    alloc: Global,
    reader: &mut R,
    expected: usize,
) -> Result<Vec<u8>, ReadError>
    ensures bytes { IfOk result (λ bytes.
        IfSome (R.remaining reader.old) (λ all. bytes.items ≡ all)) }
    ensures end { OnOk result (IsAtEnd (R.remaining reader.new)) }
    ensures opened { IfErr result (λ error. error ≢ ReadError.NotOpened) }
{
    let mut piece = vec![in alloc; 0; PIECE].map_err(|_| ReadError::OutOfMemory)?;
    read_by(alloc, reader, expected, &mut piece)
}

/// All bytes of the reader to its end, as `read_expected` answers them, each read into this piece.
fn read_by<R: Read>(
    alloc: Global,
    reader: &mut R,
    expected: usize,
    piece: &mut [u8],
) -> Result<Vec<u8>, ReadError>
    requires { 0 < length piece.old }
    ensures bytes { IfOk result (λ bytes.
        IfSome (R.remaining reader.old) (λ all. bytes.items ≡ all)) }
    ensures end { OnOk result (IsAtEnd (R.remaining reader.new)) }
    ensures opened { IfErr result (λ error. error ≢ ReadError.NotOpened) }
{
    let mut bytes = Vec::with_capacity(alloc, expected).map_err(|_| ReadError::OutOfMemory)?;
    loop {
        let count = reader.read(piece).map_err(|_| ReadError::Device)?;
        if count == 0 {
            return Ok(bytes);
        }
        bytes
            .extend_from_slice(&piece[..count])
            .map_err(|_| ReadError::OutOfMemory)?;
    }
}

/// Whether the reader has these bytes to its end, and no others, however it cuts them. Any error of
/// the reader is `Device`, and `OutOfMemory` comes where an allocation failed. `NotOpened` never
/// comes.
pub(super) fn gives_bytes<R: Read>(
    alloc: Global,
    reader: &mut R,
    bytes: &[u8],
) -> Result<bool, ReadError>
    ensures same { IfOk result (λ same. IsTrue same
        → IfSome (R.remaining reader.old) (λ all. bytes.now ≡ all)) }
    ensures end { IfOk result (λ same. IsTrue same → IsAtEnd (R.remaining reader.new)) }
    ensures opened { IfErr result (λ error. error ≢ ReadError.NotOpened) }
{
    let mut piece = vec![in alloc; 0; PIECE].map_err(|_| ReadError::OutOfMemory)?;
    compare_by(reader, bytes, &mut piece)
}

/// Whether the reader has these bytes, as `gives_bytes` answers it, each read into this piece.
fn compare_by<R: Read>(reader: &mut R, bytes: &[u8], piece: &mut [u8]) -> Result<bool, ReadError>
    requires { 0 < length piece.old }
    ensures same { IfOk result (λ same. IsTrue same
        → IfSome (R.remaining reader.old) (λ all. bytes.now ≡ all)) }
    ensures end { IfOk result (λ same. IsTrue same → IsAtEnd (R.remaining reader.new)) }
    ensures opened { IfErr result (λ error. error ≢ ReadError.NotOpened) }
{
    let mut rest = bytes;
    loop {
        let count = reader.read(piece).map_err(|_| ReadError::Device)?;
        if count == 0 {
            return Ok(rest.is_empty());
        }
        match rest.strip_prefix(&piece[..count]) {
            Some(after) => rest = after,
            None => return Ok(false),
        }
    }
}
