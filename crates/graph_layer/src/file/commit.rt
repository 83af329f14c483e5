//! The commits of a layer: the section "Commit Data" of Git's commit-graph format.

ghost use Rattle.std.specs.Prelude.{◌≡◌, ◌<◌, ◌^◌, ◌↔◌, length, slice_get, IsTrue, MatchResult};
ghost use Rattle.std.specs.Prelude.{Some, None};

use crate::file;
use crate::file::File;
use crate::file::compare::compare_ids;
pub use crate::file::parents::Parents;
use gix_hash_core::oid;
use graph_format::Position;
use graph_format::fault::CommitFault;
pub use graph_format::parents::{ExtraEdge, ParentEdge, ParentError};
use std::fmt;

/// A commit of a layer, as its record in the section "Commit Data" describes it.
///
/// Two commits are equal where their positions are, and the bytes of their files. The positions are
/// compared first. Where they are equal, the bytes are compared up to the first that differ, which
/// are all of them where both commits are of one file: equality is one of contents, and from equal
/// addresses no contract follows. Where the file is known to be the same, compare
/// [`position`](Commit::position).
#[derive(Clone, Copy)]
pub struct Commit<'a> {
    file: &'a File,
    pos: file::Position,
    ghost in_range: { pos.0 < length file.now.ids },
}

impl<'a> Commit<'a> {
    ghost use Rattle.gix_hash_core.specs.Oid.{oid_bytes};
    ghost use Rattle.graph_layer.specs.Commit.{commit_layer, commit_pos, commit_record};
    ghost use Rattle.graph_layer.specs.Commit.{commit_parents};
    ghost use Rattle.graph_format.specs.Parents.{edge_of, items_of, first_of};
    ghost use Rattle.graph_layer.specs.RemainingParents.{parents_left, parents_hint, first_hint};
    ghost use Rattle.graph_format.specs.Faults.{commit_fault, id_fault, tree_fault};
    ghost use Rattle.graph_format.specs.Faults.{is_out_of_order};

    pub(crate) fn new(file: &'a File, pos: file::Position) -> Commit<'a>
        requires { pos.0 < length file.now.ids }
        ensures layer { commit_layer result ≡ file.now }
        ensures pos { commit_pos result ≡ pos.0 }
    {
        Commit { file, pos }
    }

    /// The commit's id. It is lent from the file, and outlives the `Commit`.
    pub fn id(&self) -> oid<'a>
        ensures { slice_get (commit_layer self.now).ids (commit_pos self.now)
            ≡ Some (oid_bytes result) }
    {
        self.file.id_at(self.pos)
    }

    /// The id of the commit's root tree. It is lent from the file, and outlives the `Commit`.
    pub fn root_tree_id(&self) -> oid<'a>
        ensures { oid_bytes result ≡ (commit_record self.now).tree }
    {
        self.file.root_tree_at(self.pos)
    }

    /// The commit's position in its layer.
    pub fn position(&self) -> file::Position
        ensures value { result.0 ≡ commit_pos self.now }
        ensures in_layer { result.0 < length (commit_layer self.now).ids }
    {
        self.pos
    }

    /// The commit's generation number (its topological level), at most 1073741823.
    #[tactic(auto, using(graph_format::proofs::DecodedRecordLemmas::field_laws))]
    pub fn generation(&self) -> u32
        ensures { result ≡ (commit_record self.now).generation }
    {
        self.file.generations()[self.pos.0 as usize]
    }

    /// When the commit was made: the committer's time, in seconds since 1970-01-01 00:00:00 UTC, at
    /// most 17179869183.
    #[tactic(auto, using(graph_format::proofs::DecodedRecordLemmas::field_laws))]
    pub fn committer_timestamp(&self) -> u64
        ensures { result ≡ (commit_record self.now).time }
    {
        self.file.times()[self.pos.0 as usize]
    }

    /// The first parent, or `None` where the commit has none: the first item of `iter_parents`. An
    /// error is `SecondWithoutFirst` or `FirstIsEdgeIndex`.
    pub fn parent1(&self) -> Result<Option<Position>, ParentError>
        ensures { result ≡ first_of (items_of (commit_parents self.now)) }
    {
        self.iter_parents().next().transpose()
    }

    /// The parents in order, and after them the error that ends their decoding, if there is one.
    pub fn iter_parents(self) -> Parents<'a>
        ensures items { parents_left result ≡ items_of (commit_parents self.entry) }
        ensures hint { parents_hint result
            ≡ first_hint (edge_of (commit_record self.entry).parent1)
            (edge_of (commit_record self.entry).parent2) }
    {
        let (first, second) = self.parent_fields();
        Parents::new(self.file, first, second)
    }

    /// The first thing that is wrong with the commit's ids.
    pub(crate) fn fault(&self) -> Option<CommitFault>
        ensures { result ≡ commit_fault (commit_layer self.now) (commit_pos self.now) }
    {
        match self.id_fault() {
            Some(fault) => Some(fault),
            None => self.tree_fault(),
        }
    }

    /// The first thing that is wrong with the commit's own id.
    pub(crate) fn id_fault(&self) -> Option<CommitFault>
        ensures { result ≡ id_fault (commit_layer self.now) (commit_pos self.now) }
    {
        if self.id().is_null() {
            Some(CommitFault::NullId)
        } else if self.is_out_of_order() {
            Some(CommitFault::Order)
        } else {
            None
        }
    }

    /// What is wrong with the id of the commit's root tree.
    pub(crate) fn tree_fault(&self) -> Option<CommitFault>
        ensures { result ≡ tree_fault (commit_layer self.now) (commit_pos self.now) }
    {
        if self.root_tree_id().is_null() {
            Some(CommitFault::NullTree)
        } else {
            None
        }
    }

    /// Whether the id is not above the one before it in the layer, if there is one.
    fn is_out_of_order(&self) -> bool
        ensures { result ≡ is_out_of_order (commit_layer self.now) (commit_pos self.now) }
    {
        if self.pos.0 == 0 {
            return false;
        }
        let size = self.file.object_hash().len_in_bytes();
        let before = self.file.id_bytes_at(self.pos.0 - 1, size);
        let id = self.file.id_bytes_at(self.pos.0, size);
        compare_ids(before, id).is_ge()
    }

    /// The number of the commit's parents, repeats counted, or the error that ends their decoding.
    pub(crate) fn count_parents(&self) -> Result<u32, ParentError>
        requires { length (commit_parents self.now).positions < 2 ^ 32 }
        ensures { MatchResult result
            (λ count.
            (count ≡ length (commit_parents self.now).positions)
            × ((commit_parents self.now).fault ≡ None))
            (λ error. (commit_parents self.now).fault ≡ Some error) }
    {
        let mut count = 0;
        for parent in self.iter_parents() {
            parent?;
            count += 1;
        }
        Ok(count)
    }

    /// Both parent fields.
    #[tactic(auto, using(graph_format::proofs::DecodedRecordLemmas::field_laws))]
    pub(crate) fn parent_fields(&self) -> (u32, u32)
        ensures first { result.0 ≡ (commit_record self.now).parent1 }
        ensures second { result.1 ≡ (commit_record self.now).parent2 }
    {
        self.file.parent_fields()[self.pos.0 as usize]
    }
}

/// The ids in hexadecimal, and the other fields as numbers and as what the parent fields say.
impl<'a> fmt::Debug for Commit<'a> {
    fn fmt<W: fmt::Write>(&self, f: &mut fmt::Formatter<W>) -> fmt::Result {
        let (first, second) = self.parent_fields();
        write!(
            f,
            "Commit {{ id: {}, lex_pos: {}, generation: {}, root_tree_id: {}, parent1: {:?}, parent2: {:?} }}",
            self.id(),
            self.pos.0,
            self.generation(),
            self.root_tree_id(),
            ParentEdge::from_raw(first),
            ParentEdge::from_raw(second)
        )
    }
}

impl<'a> PartialEq for Commit<'a> {
    ghost use Rattle.std.proofs.Common.{rules};
    ghost use Rattle.std.specs.Cmp.Rules.{comparing};
    ghost use Rattle.graph_layer.specs.Commit.{commit_bytes, commit_pos, commit_eq};

    ghost eq = { commit_eq };

    ghost laws = { Prim.search (comparing, rules) };

    /// Whether the commits have equal positions, in files with equal bytes.
    fn eq(&self, other: &Commit<'a>) -> bool
        ensures value { result ≡ commit_eq self.now other.now }
        ensures same { IsTrue result
            ↔ ((commit_bytes self.now ≡ commit_bytes other.now)
            × (commit_pos self.now ≡ commit_pos other.now)) }
    {
        self.pos == other.pos && self.file.has_bytes_of(other.file)
    }
}

impl<'a> Eq for Commit<'a> {
    ghost use Rattle.std.proofs.Common.{rules};
    ghost use Rattle.std.specs.Cmp.Rules.{comparing};

    ghost laws = { Prim.search (comparing, rules) };
}
