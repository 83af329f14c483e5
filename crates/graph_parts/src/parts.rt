//! The commits of a graph, of whose files parts are read.

ghost use Rattle.std.specs.Prelude.{◌≡◌, ◌<◌, List, All, IfOk, IfSome, IsTrue, Option, Some};
ghost use Rattle.std.specs.Prelude.{length, slice_get};
ghost use Rattle.gix_hash_core.specs.Oid.{oid_bytes};
ghost use Rattle.graph_folder.specs.Tree.{Tree};
ghost use Rattle.graph_folder.specs.Failures.{failures_after};
ghost use Rattle.graph_format.specs.Layer.{Layer};
ghost use Rattle.graph_format.specs.OptionalChunks.{HasDates};
ghost use Rattle.gix_commitgraph.specs.Graph.{IsGraph, graph_ids, total};
ghost use Rattle.gix_commitgraph.specs.GraphLaw.{LiesIn};
ghost use Rattle.graph_parts.specs.Lookups.{LiesWithin, LooksUp};
ghost use Rattle.graph_parts.specs.PiecesRead.{PartsWereRead};
ghost use Rattle.graph_parts.specs.Shown.{AreGraphParts, SeesMore, Shows, commits_of_parts};
ghost use Rattle.graph_parts.specs.Shown.{edge_count_at, files_of};
ghost use Rattle.graph_parts.specs.Spots.{IsSpotOf, LiesInFile};
ghost use Rattle.graph_parts.specs.Offsets.{StoresDate};
ghost use Rattle.graph_parts.specs.Stored.{StoresAt, StoresEdge};

use crate::layer::LayerParts;
pub use crate::layer::StoredCommit;
pub use crate::lookup::Lookup;
use gix_commitgraph::Position;
use gix_commitgraph::file::commit::ExtraEdge;
use gix_hash_core::{Kind, ObjectId, oid};
use graph_folder::folder::{Folder, ReadError};
use std::alloc::Global;

/// Files that make a graph, and the parts of them that were read.
///
/// What was read is kept, so a commit that is asked for again is not read again, and the memory
/// grows with what is asked for. Ids and records are read one by one, as many of each as they make
/// blocks of 128, and then by blocks, as words are. A call that reads answers `None` where a file
/// no longer has the length that it had, or is to be read whole. Its errors are those of a read:
/// `NotOpened`, `Device` and `OutOfMemory`, and the folder's count of failures rises with `Device`.
/// More can be asked after each of them. Whatever others write meanwhile: if what is kept was read,
/// all that is kept after a call was.
#[derive(Drop)]
pub struct GraphParts {
    pub(crate) layers: Vec<LayerParts>,
}

/// A position within a layer.
#[derive(Clone, Copy)]
struct Spot {
    layer: usize,
    pos: u32,
}

impl GraphParts {
    /// How many commits the graph has.
    pub fn commits(&self) -> u32
        requires { AreGraphParts self.now }
        ensures count { result ≡ commits_of_parts self.now }
        ensures total { (known : Option Tree) (layers : List Layer) → Shows known self.now layers
            → result ≡ total layers }
    {
        let mut commits = 0;
        for part in &self.layers {
            commits += part.file.head.layout.commits;
        }
        commits
    }

    /// How many layers the graph has.
    pub fn num_layers(&self) -> usize
        ensures { result ≡ length (files_of self.now) }
    {
        self.layers.len()
    }

    /// The kind of the ids of all layers.
    pub fn kind(&self) -> Kind
        requires { AreGraphParts self.now }
        ensures { (known : Option Tree) (layers : List Layer) → Shows known self.now layers
            → IsGraph layers → All (λ layer. layer.kind ≡ result) layers }
    {
        match self.layers.first() {
            Some(lowest) => lowest.file.head.layout.kind,
            None => Kind::Sha1,
        }
    }

    /// The layer in which a position lies, 0 for the lowest.
    pub fn layer_of(&self, pos: Position) -> usize
        requires parts { AreGraphParts self.now }
        requires pos { pos.0 < commits_of_parts self.now }
        ensures shown { (known : Option Tree) (layers : List Layer) → Shows known self.now layers
            → (layer : Layer) × LiesIn layers pos.0 result layer }
        ensures file { LiesInFile (files_of self.now) pos.0 result }
    {
        self.spot_of(pos).layer
    }

    /// The layer of a position, and the position within it.
    fn spot_of(&self, pos: Position) -> Spot
        requires parts { AreGraphParts self.now }
        requires pos { pos.0 < commits_of_parts self.now }
        ensures { IsSpotOf (files_of self.now) pos.0 result }
    {
        let mut left = pos.0;
        for (layer, part) in self.layers.iter().enumerate() {
            let commits = part.file.head.layout.commits;
            if left < commits {
                return Spot { layer, pos: left };
            }
            left -= commits;
        }
        unreachable!()
    }

    /// What is stored of the commit at a position of the graph.
    ///
    /// # Errors
    ///
    /// Those of a read.
    pub fn commit_at<T: Folder>(
        &mut self,
        alloc: Global,
        folder: &mut T,
        pos: Position,
    ) -> Result<Option<StoredCommit>, ReadError>
        requires parts { AreGraphParts self.old }
        requires pos { pos.0 < commits_of_parts self.old }
        ensures parts { AreGraphParts self.new }
        ensures sees { SeesMore (T.tree folder.old) self.old self.new }
        ensures given { PartsWereRead T.gives_part self.old → PartsWereRead T.gives_part self.new }
        ensures stores { IfOk result (λ answer. IfSome answer (λ commit. (layers : List Layer)
            → Shows (T.tree folder.old) self.new layers → StoresAt layers pos.0 commit)) }
        ensures tree { T.tree folder.new ≡ T.tree folder.old }
        ensures failures { T.failure_count folder.new
            ≡ failures_after result (T.failure_count folder.old) }
    {
        let spot = self.spot_of(pos);
        self.layers[spot.layer].commit_at(alloc, folder, spot.pos)
    }

    /// Whether each layer has corrected dates, with a word for each of its commits.
    pub fn has_dates(&self) -> bool
        requires { AreGraphParts self.now }
        ensures { IsTrue result → (known : Option Tree) (layers : List Layer)
            → Shows known self.now layers → All HasDates layers }
    {
        for part in &self.layers {
            if !part.has_dates() {
                return false;
            }
        }
        true
    }

    /// The corrected date that is stored of the commit at a position of the graph, up to the
    /// greatest number of 64 bits: its time and what its layer adds to that. `None` also where
    /// nothing is stored.
    ///
    /// # Errors
    ///
    /// Those of a read.
    pub fn date_at<T: Folder>(
        &mut self,
        alloc: Global,
        folder: &mut T,
        pos: Position,
    ) -> Result<Option<u64>, ReadError>
        requires parts { AreGraphParts self.old }
        requires pos { pos.0 < commits_of_parts self.old }
        ensures parts { AreGraphParts self.new }
        ensures sees { SeesMore (T.tree folder.old) self.old self.new }
        ensures given { PartsWereRead T.gives_part self.old → PartsWereRead T.gives_part self.new }
        ensures stores { IfOk result (λ answer. IfSome answer (λ date. (layers : List Layer)
            → Shows (T.tree folder.old) self.new layers → StoresDate layers pos.0 date)) }
        ensures tree { T.tree folder.new ≡ T.tree folder.old }
        ensures failures { T.failure_count folder.new
            ≡ failures_after result (T.failure_count folder.old) }
    {
        let spot = self.spot_of(pos);
        self.layers[spot.layer].date_at(alloc, folder, spot.pos)
    }

    /// The id of the commit at a position of the graph.
    ///
    /// # Errors
    ///
    /// Those of a read.
    pub fn id_at<T: Folder>(
        &mut self,
        alloc: Global,
        folder: &mut T,
        pos: Position,
    ) -> Result<Option<ObjectId>, ReadError>
        requires parts { AreGraphParts self.old }
        requires pos { pos.0 < commits_of_parts self.old }
        ensures parts { AreGraphParts self.new }
        ensures sees { SeesMore (T.tree folder.old) self.old self.new }
        ensures given { PartsWereRead T.gives_part self.old → PartsWereRead T.gives_part self.new }
        ensures id { IfOk result (λ answer. IfSome answer (λ id. (layers : List Layer)
            → Shows (T.tree folder.old) self.new layers
            → slice_get (graph_ids layers) pos.0 ≡ Some id)) }
        ensures tree { T.tree folder.new ≡ T.tree folder.old }
        ensures failures { T.failure_count folder.new
            ≡ failures_after result (T.failure_count folder.old) }
    {
        let spot = self.spot_of(pos);
        self.layers[spot.layer].id_at(alloc, folder, spot.pos)
    }

    /// How many words the extra edge list of a layer has, 0 where it has no such list, and where
    /// there is no such layer.
    pub fn edges_of(&self, layer: usize) -> usize
        requires { AreGraphParts self.now }
        ensures { result ≡ edge_count_at self.now layer }
    {
        if self.layers.len() <= layer {
            return 0;
        }
        self.layers[layer].edge_count()
    }

    /// What the word of an index in the extra edge list of a layer says.
    ///
    /// # Errors
    ///
    /// Those of a read.
    pub fn edge_at<T: Folder>(
        &mut self,
        alloc: Global,
        folder: &mut T,
        layer: usize,
        index: usize,
    ) -> Result<Option<ExtraEdge>, ReadError>
        requires parts { AreGraphParts self.old }
        requires index { index < edge_count_at self.old layer }
        ensures parts { AreGraphParts self.new }
        ensures sees { SeesMore (T.tree folder.old) self.old self.new }
        ensures given { PartsWereRead T.gives_part self.old → PartsWereRead T.gives_part self.new }
        ensures says { IfOk result (λ answer. IfSome answer (λ edge. (layers : List Layer)
            → Shows (T.tree folder.old) self.new layers → StoresEdge layers layer index edge)) }
        ensures tree { T.tree folder.new ≡ T.tree folder.old }
        ensures failures { T.failure_count folder.new
            ≡ failures_after result (T.failure_count folder.old) }
    {
        self.layers[layer].edge_at(alloc, folder, index)
    }

    /// Looks up an id: in the layers from the lowest on, until it is found. Of the ids of a layer
    /// that begin with the same byte, at most eight more are compared than their number has binary
    /// digits, and four or five where ids are spread evenly, as digests are.
    ///
    /// # Errors
    ///
    /// Those of a read.
    pub fn position_of<T: Folder>(
        &mut self,
        alloc: Global,
        folder: &mut T,
        id: oid<'_>,
    ) -> Result<Lookup, ReadError>
        requires parts { AreGraphParts self.old }
        ensures parts { AreGraphParts self.new }
        ensures sees { SeesMore (T.tree folder.old) self.old self.new }
        ensures given { PartsWereRead T.gives_part self.old → PartsWereRead T.gives_part self.new }
        ensures within { IfOk result (LiesWithin (commits_of_parts self.old)) }
        ensures answers { IfOk result (λ lookup. (layers : List Layer)
            → Shows (T.tree folder.old) self.new layers
            → LooksUp layers (oid_bytes id.entry) lookup) }
        ensures tree { T.tree folder.new ≡ T.tree folder.old }
        ensures failures { T.failure_count folder.new
            ≡ failures_after result (T.failure_count folder.old) }
    {
        let mut start = 0;
        for layer in 0..self.layers.len() {
            match self.layers[layer].position_of(alloc, folder, id)? {
                Lookup::Found(pos) => return Ok(Lookup::Found(Position(start + pos.0))),
                Lookup::Missing => start += self.layers[layer].file.head.layout.commits,
                Lookup::NotByParts => return Ok(Lookup::NotByParts),
            }
        }
        Ok(Lookup::Missing)
    }
}
