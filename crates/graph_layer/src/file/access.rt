//! Accessors of a layer, and iterators over its ids, its base ids and its commits.

ghost use Rattle.std.specs.Prelude.{◌≡◌, ◌+◌, ◌<◌, ◌≤◌, length, map, slice_index, slice_range};
ghost use Rattle.std.specs.Prelude.{slice_get, Some, IfSome, option_map, bytes_eq, string_bytes};
ghost use Rattle.gix_hash_core.specs.Kind.{id_len};
ghost use Rattle.gix_hash_core.specs.Oid.{oid_bytes};
ghost use Rattle.graph_format.specs.Format.{words, commits_of, chunk_of};
ghost use Rattle.graph_format.specs.DecodedRecords.{stored_parents};
ghost use Rattle.graph_format.specs.Layer.{IsLayer, record_at, bytes_of, decoded_layer};
ghost use Rattle.graph_format.specs.Layout.{IsLayout};
ghost use Rattle.graph_layer.specs.Commit.{commit_layer, commit_pos};

use crate::file::{Commit, File, Position, Shared};
use gix_hash_core::{Kind, oid};
use graph_format::chunks::{record_len, start_of};
use graph_format::layout::find_chunk;

/// The id of this kind that begins at an offset.
fn id_from(bytes: &[u8], start: usize, kind: Kind) -> oid<'_>
    requires { start + id_len kind ≤ length bytes.now }
    ensures { oid_bytes result ≡ slice_range bytes.now start (start + id_len kind) }
{
    oid::try_from_bytes(&bytes[start..start + kind.len_in_bytes()]).unwrap()
}

#[tactic(auto, using(crate::proofs::FileViewLemmas::view_laws))]
impl File {
    ghost use Rattle.graph_layer.specs.Remaining.{ids_left, base_ids_left, commits_left};
    ghost use Rattle.graph_format.specs.Layer.{positions_from};

    /// The number of layers below this one, on which it is based: byte 7 of the section "HEADER".
    pub fn base_graph_count(&self) -> u8
        ensures bases { result ≡ length self.now.bases }
        ensures byte { result ≡ slice_index (bytes_of self.now) 7 }
    {
        self.shared.layout.base_count
    }

    /// The kind of all ids in the file: byte 5 of the section "HEADER".
    pub fn object_hash(&self) -> Kind
        ensures { result ≡ self.now.kind }
    {
        self.shared.layout.kind
    }

    /// The number of commits: the last number of the section "OID Fanout".
    pub fn num_commits(&self) -> u32
        ensures ids { result ≡ length self.now.ids }
        ensures records { result ≡ length self.now.records }
        ensures fan { result ≡ commits_of self.now.fan }

        // The file was opened, so its bytes are a file of this layer.
        ensures layer { IsLayer (bytes_of self.now) self.now.path self.now }
    {
        self.shared().layout.commits
    }

    /// The path that the file was opened with.
    pub fn path(&self) -> &str
        ensures { result.now ≡ self.now.path }
    {
        self.shared.path.as_str()
    }

    /// The bytes of the file.
    pub fn bytes(&self) -> &[u8]
        ensures { result.now ≡ bytes_of self.now }
    {
        self.shared.bytes.as_slice()
    }

    /// The checksum as it is stored after the last chunk: the section "TRAILER". Whether it is the
    /// digest of the bytes before it is not known.
    pub fn checksum(&self) -> oid<'_>
        ensures { oid_bytes result ≡ self.now.checksum }
    {
        let bytes = self.shared.bytes.as_slice();
        id_from(bytes, self.shared.layout.trailer_start, self.object_hash())
    }

    /// The id of the commit at a position below `num_commits()`: the section "OID Lookup".
    pub fn id_at(&self, pos: Position) -> oid<'_>
        requires { pos.0 < length self.now.ids }
        ensures { slice_get self.now.ids pos.0 ≡ Some (oid_bytes result) }
    {
        let bytes = self.shared.bytes.as_slice();
        let kind = self.object_hash();
        let start = self.shared.layout.chunks.ids.start + kind.len_in_bytes() * pos.0 as usize;
        id_from(bytes, start, kind)
    }

    /// The commit at a position below `num_commits()`: the section "Commit Data".
    pub fn commit_at(&self, pos: Position) -> Commit<'_>
        requires { pos.0 < length self.now.ids }
        ensures layer { commit_layer result ≡ self.now }
        ensures pos { commit_pos result ≡ pos.0 }
    {
        Commit::new(self, pos)
    }

    /// The bytes of the chunk with an id, `None` where the file has no such chunk: the section
    /// "CHUNK LOOKUP". The table of chunks is gone through at each call.
    pub fn chunk(&self, id: [u8; 4]) -> Option<&[u8]>
        ensures { option_map (λ chunk. chunk.now) result ≡ chunk_of (bytes_of self.now) id }
    {
        let bytes = self.shared.bytes.as_slice();
        match find_chunk(bytes, id) {
            Some(place) => Some(&bytes[place.start..place.end]),
            None => None,
        }
    }

    /// The ids of the layers below this one, the lowest first: the section "Base Graphs List".
    pub fn iter_base_graph_ids(&self) -> BaseIds<'_>
        ensures { base_ids_left result ≡ self.now.bases }
    {
        BaseIds::new(self)
    }

    /// The ids of the commits, in the order of their positions.
    pub fn iter_ids(&self) -> Ids<'_>
        ensures { ids_left result ≡ self.now.ids }
    {
        Ids::new(self)
    }

    /// The commits, in the order of their positions.
    pub fn iter_commits(&self) -> Commits<'_>
        ensures { commits_left result ≡ positions_from self.now 0 }
    {
        Commits::new(self)
    }

    /// What the layer keeps.
    pub(super) fn shared(&self) -> &Shared
        ensures layout { IsLayout result.now.bytes result.now.layout }
        ensures layer { decoded_layer result.now.bytes (string_bytes result.now.path) ≡ self.now }
    {
        &self.shared
    }

    /// The id of a layer below this one.
    pub(crate) fn base_id_at(&self, index: u8) -> oid<'_>
        requires { index < length self.now.bases }
        ensures { slice_get self.now.bases index ≡ Some (oid_bytes result) }
    {
        let bytes = self.shared.bytes.as_slice();
        let kind = self.object_hash();
        let start = start_of(self.shared.layout.chunks.bases)
            + kind.len_in_bytes() * index as usize;
        id_from(bytes, start, kind)
    }

    /// Whether two files have the same bytes.
    pub(super) fn has_bytes_of(&self, other: &File) -> bool
        ensures { result ≡ bytes_eq (bytes_of self.now) (bytes_of other.now) }
    {
        self.bytes() == other.bytes()
    }

    /// The id of a commit's root tree.
    pub(super) fn root_tree_at(&self, pos: Position) -> oid<'_>
        requires { pos.0 < length self.now.ids }
        ensures { oid_bytes result ≡ (record_at self.now pos.0).tree }
    {
        let shared = self.shared();
        let bytes = shared.bytes.as_slice();
        let kind = self.object_hash();
        let start = shared.layout.chunks.records.start + record_len(kind) * pos.0 as usize;
        id_from(bytes, start, kind)
    }

    /// The generation numbers of the commits, in the order of their positions.
    pub(crate) fn generations(&self) -> &[u32]
        ensures fields { result.now ≡ map (λ r. r.generation) self.now.records }
        ensures len { length result.now ≡ length self.now.ids }
    {
        &self.shared.records.generations
    }

    /// The times of the commits, in the order of their positions.
    pub(crate) fn times(&self) -> &[u64]
        ensures fields { result.now ≡ map (λ r. r.time) self.now.records }
        ensures len { length result.now ≡ length self.now.ids }
    {
        &self.shared.records.times
    }

    /// Both parent fields of the commits, in the order of their positions.
    pub(crate) fn parent_fields(&self) -> &[(u32, u32)]
        ensures fields { result.now ≡ map stored_parents self.now.records }
        ensures len { length result.now ≡ length self.now.ids }
    {
        &self.shared.records.parent_fields
    }

    /// The words of the extra edge list, where the file has one.
    pub(crate) fn extra_edges(&self) -> Option<&[u32]>
        ensures { option_map (λ edges. edges.now) result ≡ option_map words self.now.edges }
    {
        match &self.shared.extra_edges {
            Some(edges) => Some(edges),
            None => None,
        }
    }
}

/// An iterator over the ids of a layer, in the order of their positions. It gives each once, and
/// then `None` for good.
#[derive(Drop)]
pub struct Ids<'a> {
    file: &'a File,
    next: u32,
    ghost within: { next ≤ length file.now.ids },
}

impl<'a> Ids<'a> {
    ghost use Rattle.graph_layer.specs.Remaining.{ids_left};

    fn new(file: &'a File) -> Ids<'a>
        ensures { ids_left result ≡ file.now.ids }
    {
        Ids { file, next: 0 }
    }
}

impl<'a> Iterator for Ids<'a> {
    ghost use Rattle.std.specs.Iterator.{YieldsFirstBy, item_count, UpTo};
    ghost use Rattle.std.specs.Iterator.SizeHint.{IsWithinCount};
    ghost use Rattle.graph_layer.specs.Remaining.{ids_left};

    type Item = oid<'a>;

    ghost next_gives = { YieldsFirstBy oid_bytes ids_left };

    ghost remaining = { item_count ids_left };

    #[tactic(auto, using(crate::proofs::ElementLemmas::element_laws))]
    fn next(&mut self) -> Option<oid<'a>> {
        if self.next == self.file.num_commits() {
            return None;
        }
        let id = self.file.id_at(Position(self.next));
        self.next += 1;
        Some(id)
    }

    fn size_hint(&self) -> (usize, Option<usize>)
        ensures exact { result ≡ (length (ids_left self.now), Some (length (ids_left self.now))) }
        ensures lower { IsWithinCount result.0 (item_count ids_left self.now) }
        ensures upper { IfSome result.1 (UpTo (item_count ids_left self.now)) }
    {
        let ids = (self.file.num_commits() - self.next) as usize;
        (ids, Some(ids))
    }
}

/// An iterator over the ids of the layers below a layer, the lowest first. It gives each once, and
/// then `None` for good.
#[derive(Drop)]
pub struct BaseIds<'a> {
    file: &'a File,
    next: u8,
    ghost within: { next ≤ length file.now.bases },
}

impl<'a> BaseIds<'a> {
    ghost use Rattle.graph_layer.specs.Remaining.{base_ids_left};

    fn new(file: &'a File) -> BaseIds<'a>
        ensures { base_ids_left result ≡ file.now.bases }
    {
        BaseIds { file, next: 0 }
    }
}

impl<'a> Iterator for BaseIds<'a> {
    ghost use Rattle.std.specs.Iterator.{YieldsFirstBy, item_count, UpTo};
    ghost use Rattle.std.specs.Iterator.SizeHint.{IsWithinCount};
    ghost use Rattle.graph_layer.specs.Remaining.{base_ids_left};

    type Item = oid<'a>;

    ghost next_gives = { YieldsFirstBy oid_bytes base_ids_left };

    ghost remaining = { item_count base_ids_left };

    #[tactic(auto, using(crate::proofs::ElementLemmas::element_laws))]
    fn next(&mut self) -> Option<oid<'a>> {
        if self.next == self.file.base_graph_count() {
            return None;
        }
        let id = self.file.base_id_at(self.next);
        self.next += 1;
        Some(id)
    }

    fn size_hint(&self) -> (usize, Option<usize>)
        ensures exact { result
            ≡ (length (base_ids_left self.now), Some (length (base_ids_left self.now))) }
        ensures lower { IsWithinCount result.0 (item_count base_ids_left self.now) }
        ensures upper { IfSome result.1 (UpTo (item_count base_ids_left self.now)) }
    {
        let left = (self.file.base_graph_count() - self.next) as usize;
        (left, Some(left))
    }
}

/// An iterator over the commits of a layer, in the order of their positions. It gives each once,
/// and then `None` for good.
#[derive(Drop)]
pub struct Commits<'a> {
    file: &'a File,
    next: u32,
    ghost within: { next ≤ length file.now.ids },
}

impl<'a> Commits<'a> {
    ghost use Rattle.graph_layer.specs.Remaining.{commits_left};
    ghost use Rattle.graph_format.specs.Layer.{positions_from};

    fn new(file: &'a File) -> Commits<'a>
        ensures { commits_left result ≡ positions_from file.now 0 }
    {
        Commits { file, next: 0 }
    }
}

impl<'a> Iterator for Commits<'a> {
    ghost use Rattle.std.specs.Iterator.{YieldsFirstBy, item_count, UpTo};
    ghost use Rattle.std.specs.Iterator.SizeHint.{IsWithinCount};
    ghost use Rattle.graph_layer.specs.Commit.{layer_and_position};
    ghost use Rattle.graph_layer.specs.Remaining.{commits_left};

    type Item = Commit<'a>;

    ghost next_gives = { YieldsFirstBy layer_and_position commits_left };

    ghost remaining = { item_count commits_left };

    #[tactic(auto, using(crate::proofs::ElementLemmas::element_laws))]
    fn next(&mut self) -> Option<Commit<'a>> {
        if self.next == self.file.num_commits() {
            return None;
        }
        let commit = self.file.commit_at(Position(self.next));
        self.next += 1;
        Some(commit)
    }

    #[tactic(auto, using(crate::proofs::ElementLemmas::element_laws))]
    fn size_hint(&self) -> (usize, Option<usize>)
        ensures exact { result
            ≡ (length (commits_left self.now), Some (length (commits_left self.now))) }
        ensures lower { IsWithinCount result.0 (item_count commits_left self.now) }
        ensures upper { IfSome result.1 (UpTo (item_count commits_left self.now)) }
    {
        let commits = (self.file.num_commits() - self.next) as usize;
        (commits, Some(commits))
    }
}
