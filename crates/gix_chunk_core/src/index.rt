//! Reading the table of chunks.

ghost use Rattle.std.specs.Prelude.{◌≡◌, ◌+◌, ◌*◌, ◌^◌, ◌≤◌, ◌<◌, ℕ, List, length, Some, None};
ghost use Rattle.std.specs.Prelude.{IsNone, min, IfSome, IfOk, OnOk, OnErr, IfErr, option_map};
ghost use Rattle.gix_chunk_core.specs.Entry.{entry_at, end_id};
ghost use Rattle.gix_chunk_core.specs.Fault.{has_earlier, offset_fault, entry_fault, end_fault};
ghost use Rattle.gix_chunk_core.specs.Fault.{table_fault};
ghost use Rattle.gix_chunk_core.specs.FirstBytes.{filled, BeginsWith};
ghost use Rattle.gix_chunk_core.specs.Table.{Table, Chunks, range_of};

use crate::ChunkError;
use std::marker::Model;
use std::ops::Range;

/// How many bytes an entry has: four of the id and eight of the offset.
const ENTRY_LEN: usize = 12;

/// The id that ends a table.
const END_ID: [u8; 4] = [0; 4];

/// An entry of the table.
#[derive(Clone, Copy)]
struct Entry {
    id: [u8; 4],
    offset: usize,
}

/// Entry `i` of the table that begins at `at`.
#[tactic(auto, using(crate::proofs::HeadLemmas::entry_laws), unfolding(crate::specs::Entry::entry_at))]
fn entry_at(front: &[u8], len: usize, at: usize, i: usize) -> Entry
    requires within { at + 12 * i + 12 ≤ length front.now }
    requires len { length front.now ≤ len }
    ensures id { result.id ≡ (entry_at (filled front.now len) at i).id }
    ensures offset { result.offset ≡ (entry_at (filled front.now len) at i).offset }
{
    let start = at + ENTRY_LEN * i;
    let entry = &front[start..start + ENTRY_LEN];
    let mut id = [0; 4];
    id.copy_from_slice(&entry[..4]);
    let offset = u64::from_be_bytes([
        entry[4], entry[5], entry[6], entry[7], entry[8], entry[9], entry[10], entry[11],
    ]);
    Entry {
        id,
        offset: offset as usize,
    }
}

/// Whether an entry before entry `i` has this id, which is its own.
#[tactic(auto, unfolding(crate::specs::Fault::has_earlier))]
fn has_earlier(front: &[u8], len: usize, at: usize, i: usize, id: [u8; 4]) -> bool
    requires within { at + 12 * i + 12 ≤ length front.now }
    requires len { length front.now ≤ len }
    requires same { id ≡ (entry_at (filled front.now len) at i).id }
    ensures { result ≡ has_earlier (filled front.now len) at i }
{
    (0..i).any(|j| entry_at(front, len, at, j).id == id)
}

/// Why the offset of entry `i` is refused, if it is.
#[tactic(auto, using(crate::proofs::HeadLemmas::len_laws), unfolding(crate::specs::Fault::offset_fault))]
fn offset_fault(front: &[u8], len: usize, at: usize, i: usize, offset: usize) -> Option<ChunkError>
    requires within { at + 12 * i + 12 ≤ length front.now }
    requires len { length front.now ≤ len }
    requires same { offset ≡ (entry_at (filled front.now len) at i).offset }
    ensures { result ≡ offset_fault (filled front.now len) at i }
{
    if offset > len {
        return Some(ChunkError::OutOfFile { entry: i });
    }
    if i > 0 && offset < entry_at(front, len, at, i - 1).offset {
        return Some(ChunkError::Falling { entry: i });
    }
    None
}

/// Why entry `i` is refused as that of a chunk, if it is.
#[tactic(auto, unfolding(crate::specs::Fault::entry_fault))]
fn entry_fault(front: &[u8], len: usize, at: usize, i: usize) -> Option<ChunkError>
    requires within { at + 12 * i + 12 ≤ length front.now }
    requires len { length front.now ≤ len }
    ensures { result ≡ entry_fault (filled front.now len) at i }
{
    let Entry { id, offset } = entry_at(front, len, at, i);
    if id == END_ID {
        return Some(ChunkError::EarlyEnd { entry: i });
    }
    if has_earlier(front, len, at, i, id) {
        return Some(ChunkError::Duplicate { id });
    }
    offset_fault(front, len, at, i, offset)
}

/// Why entry `i` is refused as the last one, if it is.
#[tactic(auto, unfolding(crate::specs::Fault::end_fault))]
fn end_fault(front: &[u8], len: usize, at: usize, i: usize) -> Option<ChunkError>
    requires within { at + 12 * i + 12 ≤ length front.now }
    requires len { length front.now ≤ len }
    ensures { result ≡ end_fault (filled front.now len) at i }
{
    let Entry { id, offset } = entry_at(front, len, at, i);
    if let Some(fault) = offset_fault(front, len, at, i, offset) {
        return Some(fault);
    }
    if id != END_ID {
        return Some(ChunkError::NoEnd { id });
    }
    None
}

/// Why the table of `count` chunks is refused, if it is.
#[tactic(auto, using(crate::proofs::FirstFaultLemmas::first_laws, crate::proofs::HeadLemmas::len_laws), unfolding(crate::specs::Fault::table_fault))]
fn table_fault(front: &[u8], len: usize, at: usize, count: usize) -> Option<ChunkError>
    requires count { count < 2 ^ 32 }
    requires len { length front.now ≤ len }
    requires table { min len (at + 12 * (count + 1)) ≤ length front.now }
    ensures { result ≡ table_fault (filled front.now len) at count }
{
    if count == 0 {
        return Some(ChunkError::NoChunks);
    }
    if len.saturating_sub(at) < ENTRY_LEN * (count + 1) {
        return Some(ChunkError::TableTooSmall);
    }
    for i in 0..count {
        if let Some(fault) = entry_fault(front, len, at, i) {
            return Some(fault);
        }
    }
    end_fault(front, len, at, count)
}

/// The table of chunks that stands in a file's bytes (gitformat-commit-graph, "CHUNK LOOKUP").
///
/// It holds the bytes and reads an entry when it is asked for it.
#[derive(Drop)]
pub struct Index<'a> {
    front: &'a [u8],
    len: usize,
    at: usize,
    count: usize,
}

impl<'a> Model for Index<'a> {
    ghost use Rattle.gix_chunk_core.specs.Table.{Table, table_at};
    ghost use Rattle.gix_chunk_core.specs.FirstBytes.{filled, IsTableIn};

    ghost Value = { Table };

    ghost view = { λ a. table_at (filled a.front.now a.len) a.at a.count };

    ghost invariant = { λ a. IsTableIn a.front.now a.len a.at a.count };
}

impl<'a> Index<'a> {
    /// Reads the table of `count` chunks that begins `at` bytes after the start of a file's bytes.
    /// It has `count + 1` entries of twelve bytes: a chunk's id, and the offset at which the chunk
    /// begins and the one before it ends. The last entry has the id 0, and ends the last chunk.
    ///
    /// # Errors
    ///
    /// The first of these that holds:
    ///
    /// 1. `NoChunks`: `count` is 0.
    /// 2. `TableTooSmall`: the table does not end within the bytes.
    /// 3. Of the entries of chunks in turn, `EarlyEnd`: the id is 0; `Duplicate`: an entry before
    ///    it has its id; `OutOfFile`: the offset is greater than the number of bytes; `Falling`:
    ///    the offset is less than that of the entry before it.
    /// 4. Of the last entry, `OutOfFile` or `Falling` likewise; `NoEnd`: the id is not 0.
    #[tactic(auto, using(crate::proofs::AlikeLemmas::whole_laws))]
    pub fn from_bytes(data: &'a [u8], at: usize, count: u32) -> Result<Index<'a>, ChunkError>
        ensures table { IfOk result (Chunks «data».now at count) }
        ensures none { OnOk result (table_fault «data».now at count ≡ None) }
        ensures fault { IfErr result (λ fault. table_fault «data».now at count ≡ Some fault) }
        ensures refused { OnErr result ((table : Table) → ¬ Chunks «data».now at count table) }
    {
        Index::from_head(data, data.len(), at, count)
    }

    /// Reads the table of chunks of a file that has `len` bytes, of which only the first ones are
    /// given, at least to the end of the table if the file has so many. Whatever its other bytes
    /// are, the table is read and refused as [`Index::from_bytes`] does with all bytes.
    pub fn from_head(
        front: &'a [u8],
        len: usize,
        at: usize,
        count: u32,
    ) -> Result<Index<'a>, ChunkError>
        requires len { length front.now ≤ len }
        requires table { min len (at + 12 * (count + 1)) ≤ length front.now }
        ensures table { IfOk result (λ table. (file : List ℕ) → BeginsWith file front.now len
            → Chunks file at count table) }
        ensures none { OnOk result ((file : List ℕ) → BeginsWith file front.now len
            → table_fault file at count ≡ None) }
        ensures fault { IfErr result (λ fault. (file : List ℕ) → BeginsWith file front.now len
            → table_fault file at count ≡ Some fault) }
        ensures refused { OnErr result ((file : List ℕ) (table : Table)
            → BeginsWith file front.now len → ¬ Chunks file at count table) }
    {
        let count = count as usize;
        match table_fault(front, len, at, count) {
            Some(fault) => Err(fault),
            None => Ok(Index {
                front,
                len,
                at,
                count,
            }),
        }
    }

    /// Where the chunk with this id stands in the file, from its first byte up to but not including
    /// its end. `None` where no chunk has the id, as with the id 0, which ends the table.
    #[tactic(auto, using(crate::proofs::RangeLemmas::range_laws, crate::proofs::TableLemmas::place_laws))]
    pub fn range_by_id(&self, id: [u8; 4]) -> Option<Range<usize>>
        ensures place { option_map (λ range. (range.start, range.end)) result
            ≡ range_of self.now id }
        ensures end_id { id ≡ end_id → IsNone result }
        ensures in_order { IfSome result (λ range.
            (range.start ≤ range.end) × (range.end ≤ self.now.end)) }
    {
        for i in 0..self.count {
            let entry = entry_at(self.front, self.len, self.at, i);
            if entry.id == id {
                let next = entry_at(self.front, self.len, self.at, i + 1);
                return Some(entry.offset..next.offset);
            }
        }
        None
    }

    /// The offset of the table's last entry, at which the last chunk ends.
    #[tactic(auto, unfolding(crate::specs::Table::table_at))]
    pub fn highest_offset(&self) -> usize
        ensures { result ≡ self.now.end }
    {
        entry_at(self.front, self.len, self.at, self.count).offset
    }
}
