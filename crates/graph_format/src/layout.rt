//! The layout of a file: what its header says, and where its parts lie.

ghost use Rattle.std.specs.Prelude.{◌≡◌, ◌≤◌, ℕ, List, length, None, Some, IfOk, IfErr, IfSome};
ghost use Rattle.std.specs.Prelude.{IsSome, IsTrue, OnOk, min, option_map, slice_index};
ghost use Rattle.gix_chunk_core.specs.Fault.{table_fault};
ghost use Rattle.gix_chunk_core.specs.FirstBytes.{filled, BeginsWith};
ghost use Rattle.gix_chunk_core.specs.Table.{Chunks};
ghost use Rattle.graph_format.specs.Reports.{Reports};
ghost use Rattle.graph_format.specs.Format.{table_of, fan_of, commits_of};
ghost use Rattle.graph_format.specs.Refusal.{refusal};
ghost use Rattle.graph_format.specs.RefusalGroups.{counts_refusal, trailer_refusal};
ghost use Rattle.graph_format.specs.RefusalGroups.{refusal_by_head, refusal_by_fan};
ghost use Rattle.graph_format.specs.ChunkRanges.{AreChunkRanges, IsChunkRange};
ghost use Rattle.graph_format.specs.Layout.{IsLayout};
ghost use Rattle.graph_format.specs.Head.{IsLayoutOfHead, table_end};
ghost use Rattle.graph_format.specs.Outline.{IsOutline};

use crate::chunks::{ChunkRange, ChunkRanges, chunk_range, chunk_ranges, record_len};
use crate::error::FileError;
use crate::fan::{check_rising, fan_at_head};
use crate::header::{BASE_COUNT_AT, CHUNK_COUNT_AT, HEADER_LEN, TABLE_ENTRY_LEN, kind_of_file};
use gix_chunk_core::Index;
use gix_hash_core::Kind;

/// What the header of a file says, and where its parts lie.
#[derive(Clone, Copy)]
pub struct Layout {
    pub kind: Kind,
    pub commits: u32,
    pub base_count: u8,
    pub chunks: ChunkRanges,
    /// Where the checksum begins.
    pub trailer_start: usize,
}

/// What the header and the table of chunks of a file say.
#[derive(Clone, Copy)]
struct Outline {
    kind: Kind,
    chunks: ChunkRanges,
    trailer_start: usize,
}

/// Refuses bytes that end with no checksum, or lack the base ids.
#[tactic(auto, using(crate::proofs::ChunkSizeLemmas::count_laws, gix_chunk_core::proofs::HeadLemmas::head_laws), unfolding(crate::specs::RefusalGroups::trailer_refusal))]
fn check_trailer(
    front: &[u8],
    len: usize,
    end: usize,
    kind: Kind,
    chunks: &ChunkRanges,
) -> Result<(), FileError>
    requires len { length front.now ≤ len }
    requires header { 8 ≤ length front.now }
    requires ends { end ≡ (table_of (filled front.now len)).end }
    requires in_file { end ≤ len }
    requires chunks { AreChunkRanges (filled front.now len) chunks.now }
    ensures { Reports result (trailer_refusal kind (filled front.now len)) }
{
    if len - end != kind.len_in_bytes() {
        return Err(FileError::Trailer);
    }
    if front[BASE_COUNT_AT] > 0 && chunks.bases.is_none() {
        return Err(FileError::BaseMissing);
    }
    Ok(())
}

/// Refuses bytes that have another number of ids or records than the fan counts.
#[tactic(auto, using(crate::proofs::ChunkSizeLemmas::count_laws), unfolding(crate::specs::RefusalGroups::counts_refusal))]
fn check_counts(
    front: &[u8],
    len: usize,
    commits: u32,
    kind: Kind,
    chunks: &ChunkRanges,
) -> Result<(), FileError>
    requires commits { commits ≡ commits_of (fan_of (filled front.now len)) }
    requires chunks { AreChunkRanges (filled front.now len) chunks.now }
    ensures { Reports result (counts_refusal kind (filled front.now len)) }
{
    if chunks.ids.size() / kind.len_in_bytes() != commits as usize {
        return Err(FileError::IdCount);
    }
    if chunks.records.size() / record_len(kind) != commits as usize {
        return Err(FileError::RecordCount);
    }
    Ok(())
}

/// Where the chunk with an id lies in bytes that are not refused. Their table of chunks is read
/// again.
#[tactic(auto, using(crate::proofs::LayoutLemmas::table_laws, gix_chunk_core::proofs::HeadLemmas::whole_laws))]
pub fn find_chunk(bytes: &[u8], id: [u8; 4]) -> Option<ChunkRange>
    requires { refusal bytes.now ≡ None }
    ensures { IsChunkRange bytes.now id result }
{
    match Index::from_bytes(bytes, HEADER_LEN, bytes[CHUNK_COUNT_AT] as u32) {
        Ok(index) => chunk_range(bytes, bytes.len(), &index, id),
        Err(_) => unreachable!(),
    }
}

/// The layout of the bytes, or why they are refused.
#[tactic(auto, using(gix_chunk_core::proofs::AlikeLemmas::whole_laws))]
pub fn layout_of(bytes: &[u8]) -> Result<Layout, FileError>
    ensures refusal { Reports result (refusal bytes.now) }
    ensures layout { IfOk result (IsLayout bytes.now) }
{
    match layout_of_head(bytes, bytes.len())? {
        Some(layout) => Ok(layout),
        None => unreachable!(),
    }
}

/// The layout of a file that has `len` bytes and begins with these, or why each such file is
/// refused. `None` where these are not all bytes, and the table of chunks or the fan does not lie
/// within them.
pub fn layout_of_head(front: &[u8], len: usize) -> Result<Option<Layout>, FileError>
    requires { length front.now ≤ len }
    ensures refused { IfErr result (λ error. (file : List ℕ) → BeginsWith file front.now len
        → refusal file ≡ Some error) }
    ensures layout { IfOk result (λ answer. IfSome answer (IsLayoutOfHead front.now len)) }
    ensures whole { length front.now ≡ len → IfOk result (λ answer. IsSome answer) }
{
    if !holds_table(front, len) {
        return Ok(None);
    }
    let outline = outline_of(front, len)?;
    if outline.chunks.fan.end > front.len() {
        return Ok(None);
    }
    let layout = layout_by_fan(front, len, outline)?;
    Ok(Some(layout))
}

/// The table of chunks of the file that has `len` bytes, begins with these, and has 0 for each
/// other byte, or why it is refused.
fn index_of(front: &[u8], len: usize) -> Result<Index<'_>, FileError>
    requires len { length front.now ≤ len }
    requires header { 8 ≤ length front.now }
    requires table { min len (table_end front.now) ≤ length front.now }
    ensures table { IfOk result
        (Chunks (filled front.now len) 8 (slice_index (filled front.now len) 6)) }
    ensures refusal { Reports result (option_map FileError.Chunks
        (table_fault (filled front.now len) 8 (slice_index (filled front.now len) 6))) }
{
    match Index::from_head(front, len, HEADER_LEN, front[CHUNK_COUNT_AT] as u32) {
        Ok(index) => Ok(index),
        Err(fault) => Err(FileError::Chunks(fault)),
    }
}

/// What the header and the table of chunks say, or why they are refused, for the file that has
/// `len` bytes, begins with these, and has 0 for each other byte.
#[tactic(auto, using(crate::proofs::ChunkSizeLemmas::layout_laws, gix_chunk_core::proofs::HeadLemmas::head_laws), unfolding(crate::specs::RefusalGroups::refusal_by_head))]
fn outline_of(front: &[u8], len: usize) -> Result<Outline, FileError>
    requires len { length front.now ≤ len }
    requires table { min len (table_end front.now) ≤ length front.now }
    ensures refusal { Reports result (refusal_by_head (filled front.now len)) }
    ensures outline { IfOk result (IsOutline (filled front.now len)) }
    ensures header { OnOk result (8 ≤ length front.now) }
{
    let kind = kind_of_file(front, len)?;
    let index = index_of(front, len)?;
    let chunks = chunk_ranges(front, len, &index, kind)?;
    let trailer_start = index.highest_offset();
    check_trailer(front, len, trailer_start, kind, &chunks)?;
    Ok(Outline {
        kind,
        chunks,
        trailer_start,
    })
}

/// The layout of that file, where its fan lies within these bytes, or why its fan is refused.
#[tactic(auto, unfolding(crate::specs::RefusalGroups::refusal_by_fan))]
fn layout_by_fan(front: &[u8], len: usize, outline: Outline) -> Result<Layout, FileError>
    requires header { 8 ≤ length front.now }
    requires len { length front.now ≤ len }
    requires head { refusal_by_head (filled front.now len) ≡ None }
    requires outline { IsOutline (filled front.now len) outline }
    requires fan { outline.chunks.fan.end ≤ length front.now }
    ensures refusal { Reports result (refusal_by_fan (filled front.now len)) }
    ensures layout { IfOk result (IsLayout (filled front.now len)) }
    ensures fan { IfOk result (λ layout. layout.chunks.fan ≡ outline.chunks.fan) }
{
    let Outline {
        kind,
        chunks,
        trailer_start,
    } = outline;
    check_rising(front, len, chunks.fan)?;
    let commits = fan_at_head(front, len, chunks.fan, 255);
    check_counts(front, len, commits, kind, &chunks)?;
    Ok(Layout {
        kind,
        commits,
        base_count: front[BASE_COUNT_AT],
        chunks,
        trailer_start,
    })
}

/// Whether these are all bytes of a file that has so many, or have its table of chunks.
fn holds_table(front: &[u8], len: usize) -> bool
    requires { length front.now ≤ len }
    ensures table { IsTrue result → min len (table_end front.now) ≤ length front.now }
    ensures whole { length front.now ≡ len → IsTrue result }
{
    let least = HEADER_LEN + TABLE_ENTRY_LEN;
    front.len() == len
        || front.len() >= least
            && front.len() >= least + TABLE_ENTRY_LEN * front[CHUNK_COUNT_AT] as usize
}
