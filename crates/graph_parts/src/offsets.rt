//! How far the corrected dates of a layer's commits lie from their times, read by parts.

ghost use Rattle.std.specs.Prelude.{◌≡◌, ◌⊎◌, ◌/◌, ◌<◌, ◌≤◌, ℕ, List, IfOk, IfSome, Some, length};
ghost use Rattle.graph_folder.specs.Failures.{failures_after};
ghost use Rattle.graph_format.specs.ChunkRanges.{IsChunkAt};
ghost use Rattle.graph_format.specs.Head.{BeginsWith};
ghost use Rattle.graph_format.specs.Integers.{long_in, word_in};
ghost use Rattle.graph_format.specs.OptionalChunks.{offset_of};
ghost use Rattle.graph_find.specs.ReadHead.{IsHead};
ghost use Rattle.graph_parts.specs.Offsets.{AreIntegersOf, AreLayerOffsets, AreOffsetsOf};
ghost use Rattle.graph_parts.specs.Offsets.{KeepsNoOffset, ReadsOffsets, numbers_in_file};
ghost use Rattle.graph_parts.specs.Offsets.{words_in_file};
ghost use Rattle.graph_parts.specs.PiecesRead.{OffsetsWereRead};

use crate::pieces::{Pieces, Series};
use gix_chunk_core::Index;
use graph_find::head::Head;
use graph_folder::folder::{Folder, ReadError};
use graph_format::chunks::ChunkRange;
use graph_format::integers::{long_at, word_at};
use std::alloc::Global;

/// The chunk of the section "Generation Data".
const GENERATION_DATA_CHUNK_ID: [u8; 4] = *b"GDA2";

/// The chunk of the section "Generation Data Overflow".
const GENERATION_OVERFLOW_CHUNK_ID: [u8; 4] = *b"GDO2";

/// Where the table of chunks begins ("HEADER").
const TABLE_AT: usize = 8;

/// Which byte of the header is the number of chunks.
const CHUNK_COUNT_AT: usize = 6;

/// How many bytes an entry of the table has.
const ENTRY_LEN: usize = 12;

/// How many bytes a word of `GDA2` has.
const WORD_LEN: usize = 4;

/// How many bytes a number of `GDO2` has.
const NUMBER_LEN: usize = 8;

/// Where the words of `GDA2` begin that name numbers of `GDO2`.
const OVERFLOW_BIT: u32 = 1 << 31;

/// What was read of the chunks `GDA2` and `GDO2` of a layer's file: of a word for each commit, and
/// of the numbers that do not fit a word.
#[derive(Drop)]
pub(crate) struct LayerOffsets {
    /// Whether the chunk of the words was found.
    has_words: bool,
    words: Pieces,
    numbers: Pieces,
}

/// Where the chunk with an id lies in a file with this head, if it is found there.
fn chunk_in(head: &Head, id: [u8; 4]) -> Option<ChunkRange>
    requires { IsHead head.now }
    ensures place { IfSome result (λ place. (file : List ℕ)
        → BeginsWith file head.now.front.items head.now.len → IsChunkAt file id place) }
    ensures order { IfSome result (λ place.
        (place.start ≤ place.end) × (place.end ≤ head.now.len)) }
{
    let front = &head.front;
    if front.len() <= CHUNK_COUNT_AT {
        return None;
    }
    let count = u32::from(front[CHUNK_COUNT_AT]);
    if front.len() < TABLE_AT + ENTRY_LEN * (count as usize + 1) {
        return None;
    }
    let Ok(index) = Index::from_head(front, head.len, TABLE_AT, count) else {
        return None;
    };
    match index.range_by_id(id) {
        Some(range) => Some(ChunkRange {
            start: range.start,
            end: range.end,
        }),
        None => None,
    }
}

/// Where the integers of a chunk lie, each of so many bytes, in a file with this head.
fn integers_in(head: &Head, id: [u8; 4], size: usize) -> Series
    requires head { IsHead head.now }
    requires size { (size ≡ 4) ⊎ (size ≡ 8) }
    ensures { AreIntegersOf head.now id size result }
{
    match chunk_in(head, id) {
        Some(chunk) => Series {
            start: chunk.start,
            size,
            count: (chunk.end - chunk.start) / size,
        },
        None => Series {
            start: 0,
            size,
            count: 0,
        },
    }
}

impl LayerOffsets {
    /// Those of a file with this head, of which none was read. Nothing is allocated.
    pub(crate) fn new(alloc: Global, head: &Head) -> LayerOffsets
        requires { IsHead head.now }
        ensures offsets { AreLayerOffsets head.now result }
        ensures none { (file : List ℕ) → AreOffsetsOf result file }
        ensures nothing { KeepsNoOffset result }
    {
        let words = integers_in(head, GENERATION_DATA_CHUNK_ID, WORD_LEN);
        let numbers = integers_in(head, GENERATION_OVERFLOW_CHUNK_ID, NUMBER_LEN);
        LayerOffsets {
            has_words: chunk_in(head, GENERATION_DATA_CHUNK_ID).is_some(),
            words: Pieces::new(alloc, words, words.whole_blocks()),
            numbers: Pieces::new(alloc, numbers, numbers.whole_blocks()),
        }
    }

    /// Whether there is a chunk of words.
    pub(crate) fn has_words(&self) -> bool
        ensures { result ≡ self.now.has_words }
    {
        self.has_words
    }

    /// How many words there are.
    pub(crate) fn count(&self) -> usize
        ensures { result ≡ self.now.words.series.count }
    {
        self.words.series.count
    }

    /// The word of an index. `None` where the file no longer has the length that it had, or is to
    /// be read whole.
    fn word<T: Folder>(
        &mut self,
        alloc: Global,
        folder: &mut T,
        path: &str,
        head: &Head,
        index: usize,
    ) -> Result<Option<u32>, ReadError>
        requires offsets { AreLayerOffsets head.now self.old }
        requires index { index < self.old.words.series.count }
        ensures offsets { AreLayerOffsets head.now self.new }
        ensures reads { ReadsOffsets (T.tree folder.old) path.now self.old self.new }
        ensures given { OffsetsWereRead T.gives_part path.now head.now.len self.old
            → OffsetsWereRead T.gives_part path.now head.now.len self.new }
        ensures word { IfOk result (λ answer. IfSome answer (λ word. (file : List ℕ)
            → BeginsWith file head.now.front.items head.now.len → AreOffsetsOf self.new file
            → word ≡ word_in (words_in_file file) index)) }
        ensures tree { T.tree folder.new ≡ T.tree folder.old }
        ensures failures { T.failure_count folder.new
            ≡ failures_after result (T.failure_count folder.old) }
    {
        let Some(kept) = self.words.read(alloc, folder, path, head.len, index)? else {
            return Ok(None);
        };
        Ok(Some(word_at(self.words.piece(index, kept), 0)))
    }

    /// The number of an index. `None` where the file no longer has the length that it had, or is to
    /// be read whole.
    fn number<T: Folder>(
        &mut self,
        alloc: Global,
        folder: &mut T,
        path: &str,
        head: &Head,
        index: usize,
    ) -> Result<Option<u64>, ReadError>
        requires offsets { AreLayerOffsets head.now self.old }
        requires index { index < self.old.numbers.series.count }
        ensures offsets { AreLayerOffsets head.now self.new }
        ensures reads { ReadsOffsets (T.tree folder.old) path.now self.old self.new }
        ensures given { OffsetsWereRead T.gives_part path.now head.now.len self.old
            → OffsetsWereRead T.gives_part path.now head.now.len self.new }
        ensures number { IfOk result (λ answer. IfSome answer (λ number. (file : List ℕ)
            → BeginsWith file head.now.front.items head.now.len → AreOffsetsOf self.new file
            → (index < length (numbers_in_file file) / 8)
            × (number ≡ long_in (numbers_in_file file) index))) }
        ensures tree { T.tree folder.new ≡ T.tree folder.old }
        ensures failures { T.failure_count folder.new
            ≡ failures_after result (T.failure_count folder.old) }
    {
        let Some(kept) = self.numbers.read(alloc, folder, path, head.len, index)? else {
            return Ok(None);
        };
        Ok(Some(long_at(self.numbers.piece(index, kept), 0)))
    }

    /// How far the date of the commit at a position of the layer lies from its time: its word, or
    /// the number that this names. `None` where there is none, and where the file no longer has the
    /// length that it had, or is to be read whole.
    pub(crate) fn offset<T: Folder>(
        &mut self,
        alloc: Global,
        folder: &mut T,
        path: &str,
        head: &Head,
        pos: usize,
    ) -> Result<Option<u64>, ReadError>
        requires { AreLayerOffsets head.now self.old }
        ensures offsets { AreLayerOffsets head.now self.new }
        ensures reads { ReadsOffsets (T.tree folder.old) path.now self.old self.new }
        ensures given { OffsetsWereRead T.gives_part path.now head.now.len self.old
            → OffsetsWereRead T.gives_part path.now head.now.len self.new }
        ensures offset { IfOk result (λ answer. IfSome answer (λ offset. (file : List ℕ)
            → BeginsWith file head.now.front.items head.now.len → AreOffsetsOf self.new file
            → offset_of (words_in_file file) (numbers_in_file file) pos ≡ Some offset)) }
        ensures tree { T.tree folder.new ≡ T.tree folder.old }
        ensures failures { T.failure_count folder.new
            ≡ failures_after result (T.failure_count folder.old) }
    {
        if self.words.series.count <= pos {
            return Ok(None);
        }
        let Some(word) = self.word(alloc, folder, path, head, pos)? else {
            return Ok(None);
        };
        if word < OVERFLOW_BIT {
            return Ok(Some(u64::from(word)));
        }
        let number = (word - OVERFLOW_BIT) as usize;
        if self.numbers.series.count <= number {
            return Ok(None);
        }
        self.number(alloc, folder, path, head, number)
    }
}
