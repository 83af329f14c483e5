//! The header of a file.

ghost use Rattle.std.specs.Prelude.{◌≡◌, ◌≤◌, length, min, slice_index, Some, OnOk, IfOk};
ghost use Rattle.gix_chunk_core.specs.FirstBytes.{filled};
ghost use Rattle.gix_hash_core.specs.Kind.{kind_of};
ghost use Rattle.graph_format.specs.Reports.{Reports};
ghost use Rattle.graph_format.specs.Format.{least_size, kind_in};
ghost use Rattle.graph_format.specs.RefusalGroups.{header_refusal};

use crate::error::FileError;
use gix_hash_core::Kind;

/// The header's length.
pub(crate) const HEADER_LEN: usize = 8;

/// The length of an entry in the table of chunks.
pub(crate) const TABLE_ENTRY_LEN: usize = 12;

/// Where the header has the file's version.
const VERSION_AT: usize = 4;

/// Where it has the number of its kind of hash.
const HASH_AT: usize = 5;

/// Where it has the number of chunks.
pub(crate) const CHUNK_COUNT_AT: usize = 6;

/// Where it has the number of base layers.
pub(crate) const BASE_COUNT_AT: usize = 7;

/// The bytes that begin each file.
const SIGNATURE: [u8; 4] = *b"CGPH";

/// The least size of a file: a header, a table of three chunks and its end, a fan, and the shorter
/// checksum.
const MIN_FILE_SIZE: usize = HEADER_LEN + 4 * TABLE_ENTRY_LEN + 256 * 4 + 20;

/// The kind of a file's ids, where its header is right. The file has `len` bytes, and begins with
/// these.
#[tactic(auto, using(gix_chunk_core::proofs::HeadLemmas::head_laws), unfolding(crate::specs::RefusalGroups::header_refusal, crate::specs::Format::kind_in))]
pub(crate) fn kind_of_file(front: &[u8], len: usize) -> Result<Kind, FileError>
    requires len { length front.now ≤ len }
    requires header { min len 8 ≤ length front.now }
    ensures refusal { Reports result (header_refusal (filled front.now len)) }
    ensures size { OnOk result (least_size ≤ len) }
    ensures known { IfOk result (λ kind.
        kind_of (slice_index (filled front.now len) 5) ≡ Some kind) }
    ensures kind { IfOk result (λ kind. kind_in (filled front.now len) ≡ kind) }
{
    if len < MIN_FILE_SIZE {
        return Err(FileError::TooSmall);
    }
    if &front[..4] != SIGNATURE.as_slice() {
        return Err(FileError::Signature);
    }
    if front[VERSION_AT] != 1 {
        return Err(FileError::Version(front[VERSION_AT]));
    }
    match Kind::try_from(front[HASH_AT]) {
        Ok(kind) => Ok(kind),
        Err(byte) => Err(FileError::Hash(byte)),
    }
}
