//! Commits on top of others.

ghost use Rattle.std.specs.Prelude.{◌≡◌, ◌+◌, ◌-◌, ◌<◌, ◌≤◌, ◌^◌, ◌++◌, ◌∷◌, [], ℕ, List, All};
ghost use Rattle.std.specs.Prelude.{Contains};
ghost use Rattle.std.specs.Prelude.{IfNone, IfOk, IfSome, None, OnErr, OnOk, Some, length};
ghost use Rattle.std.specs.Prelude.{◌↔◌, IsTrue, slice_get, slice_index};
ghost use Rattle.std.specs.Ordering.{nat_cmp};
ghost use Rattle.std.specs.Cmp.Lexicographic.{slice_cmp};
ghost use Rattle.std.specs.BTreeMap as tree;
ghost use Rattle.gix_hash_core.specs.Oid.{oid_bytes};
ghost use Rattle.graph_walks.specs.History.{generation_at, parents_at};
ghost use Rattle.graph_format.specs.Parents.{extra_edge_of};
ghost use Rattle.newer_commits.specs.CommitsOnTop.{AreAfterParents, NewerCommit, StandsOnTop};
ghost use Rattle.newer_commits.specs.CommitsOnTop.{end_of_top, ids_on_top, nodes_on_top};
ghost use Rattle.newer_commits.specs.CommitsOnTop.{newer_commit};
ghost use Rattle.newer_commits.specs.Room.{AreFewEnough, IsFull};
ghost use Rattle.newer_commits.specs.KeptCommits.{AreFieldsOnTop, IsKeptAt};

use crate::parents::store_parents;
use gix_hash_core::{ObjectId, oid};
use graph_format::Position;
use graph_format::parents::{ExtraEdge, NO_PARENT, ParentEdge};
use std::alloc::{AllocError, Global};
use std::collections::BTreeMap;
use std::marker::Model;

/// Commits on top of so many others, in the order in which they were added, each after its parents.
/// Each takes some hundred bytes.
#[derive(Drop)]
pub struct NewerCommits {
    below: u32,
    /// The number of each among them, by its id.
    numbers: BTreeMap<ObjectId, u32>,
    commits: Vec<Stored>,
    /// The words of an extra edge list, for those with more than two parents.
    words: Vec<u32>,
}

/// What is kept of a commit.
#[derive(Clone, Copy)]
struct Stored {
    id: ObjectId,
    generation: u32,
    fields: (ParentEdge, ParentEdge),
}

impl Model for NewerCommits {
    ghost use Rattle.newer_commits.specs.CommitsOnTop.{CommitsOnTop};

    ghost Value = { CommitsOnTop };

    ghost use Rattle.newer_commits.specs.KeptCommits.{AreWellKept, kept_value};

    ghost view = { λ a. kept_value a.below a.commits.items a.words.items };

    ghost invariant = { λ a. AreWellKept a.below a.numbers a.commits.items a.words.items };
}

impl NewerCommits {
    /// No commits, on top of so many others. Nothing is allocated.
    pub fn new(alloc: Global, below: u32) -> NewerCommits
        ensures below { result.below ≡ below }
        ensures none { result.commits ≡ [] }
        ensures words { result.words ≡ [] }
    {
        NewerCommits {
            below,
            numbers: BTreeMap::new(alloc),
            commits: Vec::new(alloc),
            words: Vec::new(alloc),
        }
    }

    /// How many they are.
    pub fn len(&self) -> u32
        ensures count { result ≡ length self.now.commits }
        ensures order { AreAfterParents self.now }
        ensures few { AreFewEnough self.now.below result }
    {
        self.commits.len() as u32
    }

    /// The position of the one with an id.
    pub fn position_of(&self, id: oid<'_>) -> Option<Position>
        ensures some { IfSome result (λ pos. StandsOnTop self.now (oid_bytes id.entry) pos.0) }
        ensures none { IfNone result (¬ Contains (ids_on_top self.now) (oid_bytes id.entry)) }
        ensures within { IfSome result (λ pos. pos.0 < end_of_top self.now) }
    {
        let id = id.to_owned();
        let number = self.numbers.get(&id)?;
        Some(Position(self.below + *number))
    }

    /// The id of the one at a position.
    pub fn id_at(&self, pos: Position) -> ObjectId
        requires from { self.now.below ≤ pos.0 }
        requires to { pos.0 < end_of_top self.now }
        ensures { StandsOnTop self.now result pos.0 }
    {
        self.stored_at(pos).id
    }

    /// What is kept of the one at a position.
    fn stored_at(&self, pos: Position) -> Stored
        requires from { self.now.below ≤ pos.0 }
        requires to { pos.0 < end_of_top self.now }
        ensures { IsKeptAt self.now (pos.0 - self.now.below) result }
    {
        self.commits[(pos.0 - self.below) as usize]
    }

    /// The generation number of the one at a position.
    pub(crate) fn generation_at(&self, pos: Position) -> u32
        requires from { self.now.below ≤ pos.0 }
        requires to { pos.0 < end_of_top self.now }
        ensures { result ≡ generation_at (nodes_on_top self.now) (pos.0 - self.now.below) }
    {
        self.stored_at(pos).generation
    }

    /// What the fields of the parents of the one at a position say.
    pub(crate) fn fields_at(&self, pos: Position) -> (ParentEdge, ParentEdge)
        requires from { self.now.below ≤ pos.0 }
        requires to { pos.0 < end_of_top self.now }
        ensures { let i = pos.0 - self.now.below in
            AreFieldsOnTop self.now i (parents_at (nodes_on_top self.now) i) result }
    {
        self.stored_at(pos).fields
    }

    /// How many words of parents there are.
    pub(crate) fn num_words(&self) -> u32
        ensures { result ≡ length self.now.words }
    {
        self.words.len() as u32
    }

    /// What the word with a number says.
    pub(crate) fn word_at(&self, index: u32) -> ExtraEdge
        requires { index < length self.now.words }
        ensures { result ≡ extra_edge_of (slice_index self.now.words index) }
    {
        ExtraEdge::from_raw(self.words[index as usize])
    }

    /// Whether there is no room for a commit with so many parents.
    pub(crate) fn is_full(&self, parents: usize) -> bool
        ensures { IsTrue result ↔ IsFull self.now parents }
    {
        let left = u32::MAX as usize - self.words.len();
        self.below + self.len() >= NO_PARENT || parents > left
    }

    /// Adds a commit that is not there, after its parents.
    ///
    /// # Errors
    ///
    /// An allocation failed. The commits are as before.
    pub(crate) fn push(
        &mut self,
        id: ObjectId,
        generation: u32,
        parents: &[u32],
    ) -> Result<(), AllocError>
        requires absent { ¬ Contains (ids_on_top self.old) id }
        requires before { All (λ q. q < end_of_top self.old) parents.now }
        requires room { ¬ IsFull self.old (length parents.now) }
        ensures added { OnOk result (self.new.commits ≡ self.old.commits
            ++ newer_commit id generation parents.now ∷ []) }
        ensures below { self.new.below ≡ self.old.below }
        ensures err { OnErr result (self.new ≡ self.old) }
    {
        let before = self.words.len();
        let fields = store_parents(&mut self.words, parents)?;
        let commit = Stored {
            id,
            generation,
            fields,
        };
        match keep(&mut self.commits, &mut self.numbers, commit) {
            Ok(()) => Ok(()),
            Err(error) => {
                self.words.truncate(before);
                Err(error)
            }
        }
    }
}

/// Keeps one more commit, with its number.
///
/// # Errors
///
/// An allocation failed. All is as before.
fn keep(
    commits: &mut Vec<Stored>,
    numbers: &mut BTreeMap<ObjectId, u32>,
    commit: Stored,
) -> Result<(), AllocError>
    requires { length commits.old.items < 2 ^ 32 }
    ensures commits { OnOk result (commits.new.items ≡ commits.old.items ++ commit ∷ []) }
    ensures numbers { OnOk result (tree.Updates (slice_cmp nat_cmp) numbers.old numbers.new
        commit.id (Some (length commits.old.items))) }
    ensures commits_err { OnErr result (commits.new.items ≡ commits.old.items) }
    ensures numbers_err { OnErr result (numbers.new.entries ≡ numbers.old.entries) }
{
    commits.reserve(1)?;
    let number = commits.len() as u32;
    if numbers.insert(commit.id, number).is_err() {
        return Err(AllocError);
    }
    commits.push_reserved(commit);
    Ok(())
}
