//! Pieces of one size that lie one after another in a file, of which parts are read and kept.

ghost use Rattle.std.specs.Prelude.{◌≡◌, ◌+◌, ◌*◌, ◌/◌, ◌<◌, ◌≤◌, ℕ, List, Vec, length};
ghost use Rattle.std.specs.Prelude.{IfErr, IfNone, IfOk, IfSome, IsSomeAnd, OnErr, OnOk};
ghost use Rattle.std.specs.Prelude.{slice_range};
ghost use Rattle.std.specs.Global.{Global};
ghost use Rattle.std.specs.Option.{ForSome};
ghost use Rattle.graph_folder.specs.Tree.{file_at};
ghost use Rattle.graph_folder.specs.Failures.{failures_after};
ghost use Rattle.graph_find.specs.PartsRead.{BytesWereRead};
ghost use Rattle.graph_parts.specs.PieceBlocks.{AddsStretch, AreOf, AreSized, CanKeep, FitsIn};
ghost use Rattle.graph_parts.specs.PieceBlocks.{HasBlock, IsPieceKept, IsPieceOf, KeepsNothing};
ghost use Rattle.graph_parts.specs.PieceBlocks.{KeepsSame, LacksBlock, ReadsMore, stretch_count};
ghost use Rattle.graph_parts.specs.PieceBlocks.{stretch_first, stretch_len, stretch_start};
ghost use Rattle.graph_parts.specs.PiecesRead.{PiecesWereRead};
ghost use Rattle.graph_parts.specs.declared.pieces.Stretch.TheVariants.{Alone, Block};

use commit_search::Places;
use graph_find::reading::read_range;
use graph_folder::folder::{Folder, ReadError};
use std::alloc::Global;

/// How many pieces a block has, but for the last one.
pub const BLOCK_LEN: usize = 128;

/// Pieces of one size that lie one after another: from which byte of the file on, how many bytes
/// each has, and how many there are.
#[derive(Clone, Copy)]
pub(crate) struct Series {
    pub(crate) start: usize,
    pub(crate) size: usize,
    pub(crate) count: usize,
}

/// Pieces that are read at once.
#[derive(Clone, Copy)]
pub(crate) enum Stretch {
    /// Those of the block of this number.
    Block(usize),
    /// The piece of this index alone.
    Alone(u32),
}

/// How a piece is kept.
#[derive(Clone, Copy)]
pub(crate) enum Kept {
    /// In its block.
    InBlock,
    /// Alone: at this byte of those that are kept so.
    At(usize),
}

/// A series of pieces, and those of them that were read: first one by one, so many of them, and
/// then by blocks. So few pieces are read quickly and take little memory, and many take few reads.
#[derive(Drop)]
pub(crate) struct Pieces {
    pub(crate) series: Series,
    /// How many more are to be read one by one.
    left_alone: usize,
    /// Which pieces were read alone, by their indices.
    alone: Places,
    /// The bytes of these pieces, one after another.
    bytes: Vec<u8>,
    blocks: Vec<Option<Vec<u8>>>,
}

impl Pieces {
    /// The pieces of a series, of which none was read, and so many are to be read one by one.
    /// Nothing is allocated.
    pub(crate) fn new(alloc: Global, series: Series, most_alone: usize) -> Pieces
        ensures series { result.series ≡ series }
        ensures none { KeepsNothing result }
        ensures sized { AreSized result }
    {
        Pieces {
            series,
            left_alone: most_alone,
            alone: Places::new(alloc),
            bytes: Vec::new(alloc),
            blocks: Vec::new(alloc),
        }
    }

    /// Reads a piece of the file at the path, unless it is kept, and answers how it is kept now. It
    /// is not where the file no longer has its length, or is to be read whole.
    pub(crate) fn read<T: Folder>(
        &mut self,
        alloc: Global,
        folder: &mut T,
        path: &str,
        file_len: usize,
        index: usize,
    ) -> Result<Option<Kept>, ReadError>
        requires index { index < self.old.series.count }
        requires fits { FitsIn self.old.series file_len }
        requires sized { AreSized self.old }
        ensures reads { ReadsMore (T.tree folder.old) path.now self.old self.new }
        ensures given { PiecesWereRead T.gives_part path.now file_len self.old
            → PiecesWereRead T.gives_part path.now file_len self.new }
        ensures kept { IfOk result (λ answer. IfSome answer (IsPieceKept self.new index)) }
        ensures tree { T.tree folder.new ≡ T.tree folder.old }
        ensures failures { T.failure_count folder.new
            ≡ failures_after result (T.failure_count folder.old) }
    {
        let known = self.kept(index);
        if known.is_some() {
            return Ok(known);
        }
        let stretch = self.stretch_of(index);
        match self
            .series
            .read_stretch(alloc, folder, path, file_len, stretch)?
        {
            Some(bytes) => {
                let kept = self.keep(stretch, bytes)?;
                Ok(Some(kept))
            }
            None => Ok(None),
        }
    }

    /// A piece that is kept so.
    pub(crate) fn piece(&self, index: usize, kept: Kept) -> &[u8]
        requires index { index < self.now.series.count }
        requires sized { AreSized self.now }
        requires kept { IsPieceKept self.now index kept }
        ensures size { length result.now ≡ self.now.series.size }
        ensures piece { (file : List ℕ) → AreOf self.now file → result.now
            ≡ slice_range file (self.now.series.start + self.now.series.size * index)
            (self.now.series.start + self.now.series.size * index + self.now.series.size) }
    {
        match kept {
            Kept::InBlock => self.piece_of_block(index),
            Kept::At(start) => &self.bytes[start..start + self.series.size],
        }
    }

    /// A piece whose block is kept.
    fn piece_of_block(&self, index: usize) -> &[u8]
        requires index { index < self.now.series.count }
        requires sized { AreSized self.now }
        requires kept { (block : Vec ℕ Global) × HasBlock self.now (index / BLOCK_LEN) block }
        ensures size { length result.now ≡ self.now.series.size }
        ensures piece { (file : List ℕ) → AreOf self.now file → result.now
            ≡ slice_range file (self.now.series.start + self.now.series.size * index)
            (self.now.series.start + self.now.series.size * index + self.now.series.size) }
    {
        let start = self.series.size * (index % BLOCK_LEN);
        match self.block(index / BLOCK_LEN) {
            Some(block) => &block[start..start + self.series.size],
            None => unreachable!(),
        }
    }

    /// How a piece is kept, if it is.
    fn kept(&self, index: usize) -> Option<Kept>
        requires { AreSized self.now }
        ensures some { IfSome result (IsPieceKept self.now index) }
        ensures none { IfNone result (LacksBlock self.now (index / BLOCK_LEN)) }
    {
        match self.block(index / BLOCK_LEN) {
            Some(_) => Some(Kept::InBlock),
            None => self.kept_alone(index),
        }
    }

    /// How a piece is kept alone, if it is.
    fn kept_alone(&self, index: usize) -> Option<Kept>
        requires { AreSized self.now }
        ensures { IfSome result (IsPieceKept self.now index) }
    {
        let Ok(number) = u32::try_from(index) else {
            return None;
        };
        match self.alone.place_of(number) {
            Some(place) => Some(Kept::At(self.series.size * place)),
            None => None,
        }
    }

    /// The block of this number, if it is kept.
    fn block(&self, number: usize) -> Option<&[u8]>
        ensures some { IfSome result (λ bytes. (block : Vec ℕ Global)
            × HasBlock self.now number block × (block.items ≡ bytes.now)) }
        ensures none { IfNone result (LacksBlock self.now number) }
    {
        if self.blocks.len() <= number {
            return None;
        }
        match &self.blocks[number] {
            Some(block) => Some(block),
            None => None,
        }
    }

    /// What is to be read for a piece.
    fn stretch_of(&self, index: usize) -> Stretch
        ensures { IsPieceOf result index }
    {
        match u32::try_from(index) {
            Ok(number) if self.left_alone > 0 => Stretch::Alone(number),
            _ => Stretch::Block(index / BLOCK_LEN),
        }
    }

    /// Keeps the bytes of a stretch, and answers how its pieces are kept now.
    fn keep(&mut self, stretch: Stretch, bytes: Vec<u8>) -> Result<Kept, ReadError>
        requires new { CanKeep self.old stretch }
        requires long { length bytes.items ≡ stretch_len self.old.series stretch }
        requires sized { AreSized self.old }
        ensures adds { OnOk result (AddsStretch self.old self.new stretch bytes.items) }
        ensures kept { IfOk result (λ kept. (index : ℕ) → IsPieceOf stretch index
            → IsPieceKept self.new index kept) }
        ensures same { OnErr result (KeepsSame self.old self.new) }
        ensures sized { AreSized self.new }
        ensures memory { IfErr result (λ error. error ≡ ReadError.OutOfMemory) }
    {
        match stretch {
            Stretch::Block(number) => self.keep_block(number, bytes),
            Stretch::Alone(index) => self.keep_alone(index, &bytes),
        }
    }

    /// Keeps a block that is not kept.
    fn keep_block(&mut self, number: usize, block: Vec<u8>) -> Result<Kept, ReadError>
        requires new { LacksBlock self.old number }
        requires long { length block.items ≡ stretch_len self.old.series (Block number) }
        requires sized { AreSized self.old }
        ensures adds { OnOk result (AddsStretch self.old self.new (Block number) block.items) }
        ensures kept { IfOk result (λ kept. (index : ℕ) → number ≡ index / BLOCK_LEN
            → IsPieceKept self.new index kept) }
        ensures same { OnErr result (KeepsSame self.old self.new) }
        ensures sized { AreSized self.new }
        ensures memory { IfErr result (λ error. error ≡ ReadError.OutOfMemory) }
    {
        self.grow_to(number)?;
        self.blocks[number] = Some(block);
        Ok(Kept::InBlock)
    }

    /// Makes room for the block of this number.
    fn grow_to(&mut self, number: usize) -> Result<(), ReadError>
        ensures room { OnOk result (number < length self.new.blocks.items) }
        ensures same { KeepsSame self.old self.new }
        ensures memory { IfErr result (λ error. error ≡ ReadError.OutOfMemory) }
    {
        while self.blocks.len() <= number {
            self.blocks.push(None).map_err(|_| ReadError::OutOfMemory)?;
        }
        Ok(())
    }

    /// Keeps a piece alone.
    fn keep_alone(&mut self, index: u32, piece: &[u8]) -> Result<Kept, ReadError>
        requires long { length piece.now ≡ self.old.series.size }
        requires sized { AreSized self.old }
        ensures adds { OnOk result (AddsStretch self.old self.new (Alone index) piece.now) }
        ensures kept { IfOk result (λ kept. IsPieceKept self.new index kept) }
        ensures same { OnErr result (KeepsSame self.old self.new) }
        ensures sized { AreSized self.new }
        ensures memory { IfErr result (λ error. error ≡ ReadError.OutOfMemory) }
    {
        let start = self.bytes.len();
        if self.bytes.extend_from_slice(piece).is_err() {
            return Err(ReadError::OutOfMemory);
        }
        match self.alone.push(index) {
            Ok(()) => {
                self.left_alone = self.left_alone.saturating_sub(1);
                Ok(Kept::At(start))
            }
            Err(_) => {
                self.bytes.truncate(start);
                Err(ReadError::OutOfMemory)
            }
        }
    }
}

impl Series {
    /// How many blocks have all their pieces.
    pub(crate) fn whole_blocks(self) -> usize {
        self.count / BLOCK_LEN
    }

    /// Reads a stretch of the file at the path, if the file still has its length.
    fn read_stretch<T: Folder>(
        self,
        alloc: Global,
        folder: &mut T,
        path: &str,
        file_len: usize,
        stretch: Stretch,
    ) -> Result<Option<Vec<u8>>, ReadError>
        requires within { stretch_first stretch < self.count }
        requires fits { FitsIn self file_len }
        ensures size { IfOk result (λ answer. IfSome answer (λ bytes.
            length bytes.items ≡ stretch_len self stretch)) }
        ensures part { ForSome (T.tree folder.old) (λ tree.
            IfOk result (λ answer. IfSome answer (λ bytes. IsSomeAnd (file_at tree path.now)
            (λ file. slice_range file (stretch_start self stretch)
            (stretch_start self stretch + stretch_len self stretch) ≡ bytes.items)))) }
        ensures given { IfOk result (λ answer. IfSome answer (λ bytes. BytesWereRead
            T.gives_part path.now file_len (stretch_start self stretch) bytes.items)) }
        ensures tree { T.tree folder.new ≡ T.tree folder.old }
        ensures failures { T.failure_count folder.new
            ≡ failures_after result (T.failure_count folder.old) }
    {
        let first = self.first_of(stretch);
        let count = self.pieces_in(stretch);
        read_range(
            alloc,
            folder,
            path,
            file_len,
            self.start + self.size * first,
            self.size * count,
        )
    }

    /// The index of the first piece of a stretch.
    fn first_of(self, stretch: Stretch) -> usize
        requires { stretch_first stretch < self.count }
        ensures { result ≡ stretch_first stretch }
    {
        match stretch {
            Stretch::Block(number) => BLOCK_LEN * number,
            Stretch::Alone(index) => index as usize,
        }
    }

    /// How many pieces a stretch has. The last block has those that are left.
    fn pieces_in(self, stretch: Stretch) -> usize
        requires { stretch_first stretch < self.count }
        ensures count { result ≡ stretch_count self stretch }
        ensures within { stretch_first stretch + result ≤ self.count }
    {
        match stretch {
            Stretch::Block(number) => BLOCK_LEN.min(self.count - BLOCK_LEN * number),
            Stretch::Alone(_) => 1,
        }
    }
}
