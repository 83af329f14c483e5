//! The parts of one layer's file.

ghost use Rattle.std.specs.Prelude.{◌≡◌, ◌<◌, ◌+◌, IfOk, IfSome, IsTrue, Option, Some, length};
ghost use Rattle.std.specs.Prelude.{slice_get, slice_index};
ghost use Rattle.gix_hash_core.specs.Kind.{id_len};
ghost use Rattle.graph_folder.specs.Tree.{Tree};
ghost use Rattle.graph_folder.specs.Failures.{failures_after};
ghost use Rattle.graph_format.specs.Format.{record_of};
ghost use Rattle.graph_format.specs.Layer.{Layer, record_at};
ghost use Rattle.graph_format.specs.OptionalChunks.{HasDates};
ghost use Rattle.graph_format.specs.Parents.{extra_edge_of};
ghost use Rattle.graph_find.specs.ReadHead.{IsHead};
ghost use Rattle.graph_parts.specs.PieceBlocks.{IsPieceKept};
ghost use Rattle.graph_parts.specs.PartFiles.{AreIds, AreRecords, AreEdges, commits_in, edge_count};
ghost use Rattle.graph_parts.specs.PartFiles.{edge_words};
ghost use Rattle.graph_parts.specs.PiecesRead.{LayerPartsWereRead};
ghost use Rattle.graph_parts.specs.Offsets.{date_in_layer};
ghost use Rattle.graph_parts.specs.Stored.{StoresCommit};
ghost use Rattle.graph_parts.specs.ShownLayer.{IsLayerParts, KeepsHeadAlone, SeesMoreOfLayer};
ghost use Rattle.graph_parts.specs.ShownLayer.{ShowsAll, ShowsLayer};

use crate::offsets::LayerOffsets;
use crate::pieces::{Kept, Pieces, Series};
use gix_hash_core::{Kind, ObjectId, oid};
use graph_find::chain::ChainLayer;
use graph_find::head::Head;
use graph_folder::folder::{Folder, ReadError};
use graph_format::chunks::record_len;
use graph_format::integers::word_at;
use graph_format::parents::{ExtraEdge, ParentEdge};
use graph_format::records::generation_and_time;
use std::alloc::Global;

/// How many bytes a word of an extra edge list has.
const WORD_LEN: usize = 4;

/// What the record of a commit stores, but for its root tree.
#[derive(Clone, Copy, Debug, PartialEq, Eq)]
pub struct StoredCommit {
    /// Its generation number.
    pub generation: u32,
    /// Its time, in seconds since 1970-01-01 00:00:00 UTC.
    pub time: u64,
    /// What its first parent field says.
    pub first: ParentEdge,
    /// What its second parent field says.
    pub second: ParentEdge,
}

/// The file of a layer, and what was read of its ids, its records, the words of its extra edge list
/// and its corrected dates.
#[derive(Drop)]
pub(crate) struct LayerParts {
    pub(crate) file: ChainLayer,
    pub(crate) ids: Pieces,
    records: Pieces,
    edges: Pieces,
    offsets: LayerOffsets,
}

/// Where the ids of the file with this head lie ("OID Lookup").
fn ids_of(head: &Head) -> Series
    requires { IsHead head.now }
    ensures { AreIds head.now result }
{
    Series {
        start: head.layout.chunks.ids.start,
        size: head.layout.kind.len_in_bytes(),
        count: head.layout.commits as usize,
    }
}

/// Where its records lie ("Commit Data").
fn records_of(head: &Head) -> Series
    requires { IsHead head.now }
    ensures { AreRecords head.now result }
{
    Series {
        start: head.layout.chunks.records.start,
        size: record_len(head.layout.kind),
        count: head.layout.commits as usize,
    }
}

/// Where the words of its extra edge list lie, none where it has no such list ("Extra Edge List").
fn edges_in(head: &Head) -> Series
    requires { IsHead head.now }
    ensures { AreEdges head.now result }
{
    match head.layout.chunks.edges {
        Some(chunk) => Series {
            start: chunk.start,
            size: WORD_LEN,
            count: (chunk.end - chunk.start) / WORD_LEN,
        },
        None => Series {
            start: 0,
            size: WORD_LEN,
            count: 0,
        },
    }
}

impl LayerParts {
    /// The parts of the file that begins with this head, of which none was read. Nothing is
    /// allocated.
    #[tactic(auto, using(crate::proofs::BlockLemmas::none_kept))]
    pub(crate) fn new(alloc: Global, file: ChainLayer) -> LayerParts
        requires { IsHead file.head }
        ensures parts { IsLayerParts result }
        ensures file { result.file ≡ file }
        ensures none { ShowsAll result }
        ensures head { KeepsHeadAlone result }
    {
        let (ids, records, edges) = (
            ids_of(&file.head),
            records_of(&file.head),
            edges_in(&file.head),
        );
        let offsets = LayerOffsets::new(alloc, &file.head);
        LayerParts {
            file,
            ids: Pieces::new(alloc, ids, ids.whole_blocks()),
            records: Pieces::new(alloc, records, records.whole_blocks()),
            // The words of a list lie one after another.
            edges: Pieces::new(alloc, edges, 0),
            offsets,
        }
    }

    /// Reads the id at a position of the layer, unless it is kept: how it is now. It is not where
    /// the file no longer has its length, or is to be read whole.
    pub(crate) fn read_id<T: Folder>(
        &mut self,
        alloc: Global,
        folder: &mut T,
        pos: u32,
    ) -> Result<Option<Kept>, ReadError>
        requires parts { IsLayerParts self.old }
        requires pos { pos < commits_in self.old.file }
        ensures parts { IsLayerParts self.new }
        ensures sees { SeesMoreOfLayer (T.tree folder.old) self.old self.new }
        ensures given { LayerPartsWereRead T.gives_part self.old
            → LayerPartsWereRead T.gives_part self.new }
        ensures kept { IfOk result (λ answer. IfSome answer (IsPieceKept self.new.ids pos)) }
        ensures tree { T.tree folder.new ≡ T.tree folder.old }
        ensures failures { T.failure_count folder.new
            ≡ failures_after result (T.failure_count folder.old) }
    {
        let len = self.file.head.len;
        self.ids
            .read(alloc, folder, self.file.path.as_str(), len, pos as usize)
    }

    /// The id at a position of the layer, which is kept so.
    pub(crate) fn kept_id(&self, pos: u32, kept: Kept) -> &[u8]
        requires parts { IsLayerParts self.now }
        requires pos { pos < commits_in self.now.file }
        requires kept { IsPieceKept self.now.ids pos kept }
        ensures size { length result.now ≡ id_len self.now.file.head.layout.kind }
        ensures id { (known : Option Tree) (layer : Layer) → ShowsLayer known self.now layer
            → slice_get layer.ids pos ≡ Some result.now }
    {
        self.ids.piece(pos as usize, kept)
    }

    /// The id at a position of the layer. `None` where its file no longer has the length that it
    /// had, or is to be read whole.
    pub(crate) fn id_at<T: Folder>(
        &mut self,
        alloc: Global,
        folder: &mut T,
        pos: u32,
    ) -> Result<Option<ObjectId>, ReadError>
        requires parts { IsLayerParts self.old }
        requires pos { pos < commits_in self.old.file }
        ensures parts { IsLayerParts self.new }
        ensures sees { SeesMoreOfLayer (T.tree folder.old) self.old self.new }
        ensures given { LayerPartsWereRead T.gives_part self.old
            → LayerPartsWereRead T.gives_part self.new }
        ensures id { IfOk result (λ answer. IfSome answer (λ id. (layer : Layer)
            → ShowsLayer (T.tree folder.old) self.new layer
            → slice_get layer.ids pos ≡ Some id)) }
        ensures tree { T.tree folder.new ≡ T.tree folder.old }
        ensures failures { T.failure_count folder.new
            ≡ failures_after result (T.failure_count folder.old) }
    {
        let Some(kept) = self.read_id(alloc, folder, pos)? else {
            return Ok(None);
        };
        match oid::try_from_bytes(self.kept_id(pos, kept)) {
            Some(id) => Ok(Some(id.to_owned())),
            None => Ok(None),
        }
    }

    /// What is stored of the commit at a position of the layer. `None` where its file no longer has
    /// the length that it had, or is to be read whole.
    pub(crate) fn commit_at<T: Folder>(
        &mut self,
        alloc: Global,
        folder: &mut T,
        pos: u32,
    ) -> Result<Option<StoredCommit>, ReadError>
        requires parts { IsLayerParts self.old }
        requires pos { pos < commits_in self.old.file }
        ensures parts { IsLayerParts self.new }
        ensures sees { SeesMoreOfLayer (T.tree folder.old) self.old self.new }
        ensures given { LayerPartsWereRead T.gives_part self.old
            → LayerPartsWereRead T.gives_part self.new }
        ensures stores { IfOk result (λ answer. IfSome answer (λ commit. (layer : Layer)
            → ShowsLayer (T.tree folder.old) self.new layer
            → StoresCommit (record_at layer pos) commit)) }
        ensures tree { T.tree folder.new ≡ T.tree folder.old }
        ensures failures { T.failure_count folder.new
            ≡ failures_after result (T.failure_count folder.old) }
    {
        let (len, index) = (self.file.head.len, pos as usize);
        let path = self.file.path.as_str();
        let Some(kept) = self.records.read(alloc, folder, path, len, index)? else {
            return Ok(None);
        };
        let fields = self.records.piece(index, kept);
        Ok(Some(commit_of(self.file.head.layout.kind, fields)))
    }

    /// Whether the layer has corrected dates, with a word for each of its commits.
    pub(crate) fn has_dates(&self) -> bool
        requires { IsLayerParts self.now }
        ensures { IsTrue result → (known : Option Tree) (layer : Layer)
            → ShowsLayer known self.now layer → HasDates layer }
    {
        self.offsets.has_words() && self.offsets.count() >= self.file.head.layout.commits as usize
    }

    /// The corrected date that is stored of the commit at a position of the layer, up to the
    /// greatest number of 64 bits. `None` where none is, and where its file no longer has the
    /// length that it had, or is to be read whole.
    pub(crate) fn date_at<T: Folder>(
        &mut self,
        alloc: Global,
        folder: &mut T,
        pos: u32,
    ) -> Result<Option<u64>, ReadError>
        requires parts { IsLayerParts self.old }
        requires pos { pos < commits_in self.old.file }
        ensures parts { IsLayerParts self.new }
        ensures sees { SeesMoreOfLayer (T.tree folder.old) self.old self.new }
        ensures given { LayerPartsWereRead T.gives_part self.old
            → LayerPartsWereRead T.gives_part self.new }
        ensures date { IfOk result (λ answer. IfSome answer (λ date. (layer : Layer)
            → ShowsLayer (T.tree folder.old) self.new layer → date ≡ date_in_layer layer pos)) }
        ensures tree { T.tree folder.new ≡ T.tree folder.old }
        ensures failures { T.failure_count folder.new
            ≡ failures_after result (T.failure_count folder.old) }
    {
        let Some(commit) = self.commit_at(alloc, folder, pos)? else {
            return Ok(None);
        };
        let (path, head) = (self.file.path.as_str(), &self.file.head);
        let Some(offset) = self
            .offsets
            .offset(alloc, folder, path, head, pos as usize)?
        else {
            return Ok(None);
        };
        Ok(Some(commit.time.saturating_add(offset)))
    }

    /// How many words the extra edge list of the layer has, 0 where it has no such list.
    pub(crate) fn edge_count(&self) -> usize
        requires { IsLayerParts self.now }
        ensures { result ≡ edge_count self.now.file }
    {
        self.edges.series.count
    }

    /// What the word of an index in the extra edge list of the layer says. `None` where its file no
    /// longer has the length that it had, or is to be read whole.
    pub(crate) fn edge_at<T: Folder>(
        &mut self,
        alloc: Global,
        folder: &mut T,
        index: usize,
    ) -> Result<Option<ExtraEdge>, ReadError>
        requires parts { IsLayerParts self.old }
        requires index { index < edge_count self.old.file }
        ensures parts { IsLayerParts self.new }
        ensures sees { SeesMoreOfLayer (T.tree folder.old) self.old self.new }
        ensures given { LayerPartsWereRead T.gives_part self.old
            → LayerPartsWereRead T.gives_part self.new }
        ensures says { IfOk result (λ answer. IfSome answer (λ edge. (layer : Layer)
            → ShowsLayer (T.tree folder.old) self.new layer
            → edge ≡ extra_edge_of (slice_index (edge_words layer) index))) }
        ensures tree { T.tree folder.new ≡ T.tree folder.old }
        ensures failures { T.failure_count folder.new
            ≡ failures_after result (T.failure_count folder.old) }
    {
        let len = self.file.head.len;
        let path = self.file.path.as_str();
        let Some(kept) = self.edges.read(alloc, folder, path, len, index)? else {
            return Ok(None);
        };
        let word = self.edges.piece(index, kept);
        Ok(Some(ExtraEdge::from_raw(word_at(word, 0))))
    }
}

/// What the bytes of a record store.
#[tactic(auto, unfolding(graph_format::specs::Format::record_of))]
fn commit_of(kind: Kind, fields: &[u8]) -> StoredCommit
    requires { length fields.now ≡ id_len kind + 16 }
    ensures { StoresCommit (record_of kind fields.now) result }
{
    let at = kind.len_in_bytes();
    let (generation, time) = generation_and_time(kind, fields);
    StoredCommit {
        generation,
        time,
        first: ParentEdge::from_raw(word_at(fields, at)),
        second: ParentEdge::from_raw(word_at(fields, at + 4)),
    }
}
