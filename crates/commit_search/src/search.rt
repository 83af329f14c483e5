//! A search along parents: which commits it has reached, and from where.

ghost use Rattle.std.specs.Prelude.{◌≡◌, ◌≢◌, ◌⊎◌, ◌↔◌, ◌<◌, ◌≤◌, ◌++◌, ◌∷◌, [], ℕ, length};
ghost use Rattle.std.specs.Prelude.{IsTrue, OnOk, IfErr, alloc_error};
ghost use Rattle.graph_walks.specs.History.{generation_at};
ghost use Rattle.commit_search.specs.Marks.{IsMarked, marked_at, bound_at};
ghost use Rattle.commit_search.specs.Queue.{commit_in, child_in, IsQueued, QueuesParents};
ghost use Rattle.commit_search.specs.Search.{queued_by, IsIdle, IsSearching, AreRead, GoesOn};
ghost use Rattle.commit_search.specs.Search.{IsEnqueued, IsParentNumber, Leads};
ghost use Rattle.commit_search.specs.Source.{Told, AreFieldsRead, IsFieldRead, FieldNames};

use crate::marks::Marks;
use crate::source::CommitSource;
use crate::words::WordMarks;
use graph_format::Position;
use graph_format::parents::ParentEdge;
use std::alloc::{AllocError, Global};
use std::marker::Model;

/// A search along parents. The commits that it has reached are its queue, in the order in which
/// they were.
///
/// A contract sees its state: what it looks for, and what it has reached.
#[derive(Drop)]
pub(crate) struct Search<M: Marks> {
    alloc: Global,
    /// The generation number of the commit that is looked for. No walk to it goes through a commit
    /// with a lower one, since the numbers never rise along a walk.
    least: u32,
    /// The commits that were reached. The mark of each is the place in the queue of a commit whose
    /// parent it is, and of the first one its own place.
    reached: M,
    /// The words of extra edge lists that were gone over. All that is named from one of them on to
    /// the last parent was reached then, so no word is gone over twice.
    words: WordMarks,
}

impl<M: Marks> Model for Search<M> {
    ghost use Rattle.commit_search.specs.SearchState.{SearchState};

    ghost Value = { SearchState };

    ghost view = { λ a. record {
      least = a.least;
      reached = M.marking a.reached;
      words = a.words.layers.items;
    } };
}

impl<M: Marks> Search<M> {
    /// A search that has reached nothing. Nothing is allocated.
    pub(crate) fn new(alloc: Global) -> Search<M>
        ensures { IsIdle result }
    {
        Search {
            alloc,
            least: 0,
            reached: M::new(alloc),
            words: WordMarks::new(alloc),
        }
    }

    /// Begins a search at one of so many commits, for one with this generation number.
    pub(crate) fn begin(&mut self, count: u32, from: Position, least: u32) -> Result<(), AllocError>
        requires idle { IsIdle self.old }
        requires from { from.0 < count }
        ensures least { self.new.least ≡ least }
        ensures room { OnOk result (count ≤ self.new.reached.bound) }
        ensures first { OnOk result
            (queued_by self.new ≡ record { number = from.0; mark = 0 } ∷ []) }
        ensures words { (l : ℕ) → marked_at self.new.words l ≡ [] }
    {
        self.least = least;
        self.reached.grow_to(count)?;
        self.reached.set(from.0, 0)
    }

    /// Forgets what was reached. Only that is gone over.
    pub(crate) fn clear(&mut self)
        ensures { IsIdle self.new }
    {
        self.reached.clear();
        self.words.clear();
    }

    /// Where its memory comes from.
    pub(crate) fn alloc(&self) -> Global {
        self.alloc
    }

    /// How many commits were reached.
    pub(crate) fn len(&self) -> usize
        ensures { result ≡ length (queued_by self.now) }
    {
        self.reached.len()
    }

    /// The commit at a place of the queue.
    pub(crate) fn commit_at(&self, place: u32) -> Position
        requires { place < length (queued_by self.now) }
        ensures { result.0 ≡ commit_in (queued_by self.now) place }
    {
        Position(self.reached.number_at(place as usize))
    }

    /// The place in the queue of the commit from which the one at a place was reached.
    pub(crate) fn child_at(&self, place: u32) -> u32
        requires { place < length (queued_by self.now) }
        ensures { result ≡ child_in (queued_by self.now) place }
    {
        self.reached.mark_at(place as usize)
    }

    /// Makes room for marks of all words of a layer's list.
    pub(crate) fn grow_words(&mut self, layer: usize, words: u32) -> Result<(), AllocError>
        ensures least { self.new.least ≡ self.old.least }
        ensures reached { self.new.reached ≡ self.old.reached }
        ensures room { OnOk result (words ≤ bound_at self.new.words layer) }
        ensures marked { (l : ℕ) → marked_at self.new.words l ≡ marked_at self.old.words l }
    {
        self.words.grow_to(layer, words)
    }

    /// Whether a word of a layer's list was gone over.
    pub(crate) fn is_word_marked(&self, layer: usize, word: u32) -> bool
        requires { word < bound_at self.now.words layer }
        ensures { IsTrue result ↔ IsMarked (marked_at self.now.words layer) word }
    {
        self.words.is_marked(layer, word)
    }

    /// Marks a word that was not gone over before.
    pub(crate) fn mark_word(&mut self, layer: usize, word: u32) -> Result<(), AllocError>
        requires bound { word < bound_at self.old.words layer }
        requires clear { ¬ IsMarked (marked_at self.old.words layer) word }
        ensures least { self.new.least ≡ self.old.least }
        ensures reached { self.new.reached ≡ self.old.reached }
        ensures bounds { (l : ℕ) → bound_at self.new.words l ≡ bound_at self.old.words l }
        ensures marked { OnOk result (marked_at self.new.words layer
            ≡ marked_at self.old.words layer ++ record { number = word; mark = 0 } ∷ []) }
        ensures others { (l : ℕ) → l ≢ layer
            → marked_at self.new.words l ≡ marked_at self.old.words l }
    {
        self.words.set(layer, word)
    }

    /// Puts a parent of the commit at a place at the end of the queue, unless it was reached before
    /// or cannot lead to the commit that is looked for.
    pub(crate) fn enqueue<S: CommitSource>(
        &mut self,
        commits: &mut S,
        commit: Position,
        child: u32,
    ) -> Result<(), S::Error>
        requires search { IsSearching (S.count (S.known commits.old)) (S.says commits.old)
            self.old }
        requires child { child < length (queued_by self.old) }
        requires commit { commit.0 < S.count (S.known commits.old) }
        requires parent { Leads (S.says commits.old) (commit_in (queued_by self.old) child)
            commit.0 }
        ensures known { S.known commits.new ≡ S.known commits.old }
        ensures kept { (t : Told) → S.says commits.new t → S.says commits.old t }
        ensures words { self.new.words ≡ self.old.words }
        ensures search { OnOk result
            (IsSearching (S.count (S.known commits.old)) (S.says commits.new) self.new) }
        ensures goes_on { OnOk result (GoesOn self.old self.new child) }
        ensures queued { OnOk result ((t : Told) → S.says commits.new t
            → self.old.least ≤ generation_at t.history commit.0
            → IsQueued (queued_by self.new) commit.0) }
        ensures failed { IfErr result (λ e. S.may_fail (S.known commits.old) e
            ⊎ S.Error.from_gives alloc_error e) }
    {
        if self.reached.is_marked(commit.0) {
            return Ok(());
        }
        let number = commits.generation_number(commit)?;
        self.enqueue_known(commit, child, number)?;
        Ok(())
    }

    /// Puts it there so where it has this generation number, which need not be read then.
    pub(crate) fn enqueue_known(
        &mut self,
        commit: Position,
        child: u32,
        number: u32,
    ) -> Result<(), AllocError>
        requires { commit.0 < self.old.reached.bound }
        ensures words { self.new.words ≡ self.old.words }
        ensures enqueued { OnOk result (IsEnqueued self.old self.new commit.0 child number) }
    {
        if number < self.least {
            return Ok(());
        }
        if self.reached.is_marked(commit.0) {
            return Ok(());
        }
        self.reached.set(commit.0, child)?;
        Ok(())
    }

    /// Visits the commit at a place of the queue: goes over its parents, first parent first.
    pub(crate) fn visit<S: CommitSource>(
        &mut self,
        commits: &mut S,
        place: u32,
    ) -> Result<(), S::Error>
        requires search { IsSearching (S.count (S.known commits.old)) (S.says commits.old)
            self.old }
        requires read { AreRead (S.says commits.old) self.old }
        requires place { place < length (queued_by self.old) }
        ensures known { S.known commits.new ≡ S.known commits.old }
        ensures kept { (t : Told) → S.says commits.new t → S.says commits.old t }
        ensures search { OnOk result
            (IsSearching (S.count (S.known commits.old)) (S.says commits.new) self.new) }
        ensures read { OnOk result (AreRead (S.says commits.new) self.new) }
        ensures goes_on { OnOk result (GoesOn self.old self.new place) }
        ensures parents { OnOk result ((t : Told) → S.says commits.new t
            → QueuesParents t.history self.old.least (queued_by self.new) place) }
        ensures failed { IfErr result (λ e. S.may_fail (S.known commits.old) e
            ⊎ S.Error.from_gives alloc_error e) }
    {
        let fields = commits.parent_fields(self.commit_at(place))?;
        self.visit_field(commits, fields.0, place)?;
        self.visit_field(commits, fields.1, place)?;
        Ok(())
    }

    /// Goes over the parents that a parent field of the commit at a place names.
    pub(crate) fn visit_field<S: CommitSource>(
        &mut self,
        commits: &mut S,
        field: ParentEdge,
        place: u32,
    ) -> Result<(), S::Error>
        requires search { IsSearching (S.count (S.known commits.old)) (S.says commits.old)
            self.old }
        requires read { AreRead (S.says commits.old) self.old }
        requires place { place < length (queued_by self.old) }
        requires field { let k = S.known commits.old in
            IsFieldRead (S.count k) (S.is_listed k) (S.lies k) (S.says commits.old)
            (commit_in (queued_by self.old) place) field }
        ensures known { S.known commits.new ≡ S.known commits.old }
        ensures kept { (t : Told) → S.says commits.new t → S.says commits.old t }
        ensures search { OnOk result
            (IsSearching (S.count (S.known commits.old)) (S.says commits.new) self.new) }
        ensures read { OnOk result (AreRead (S.says commits.new) self.new) }
        ensures goes_on { OnOk result (GoesOn self.old self.new place) }
        ensures named { OnOk result ((t : Told) (q : ℕ) → S.says commits.new t
            → FieldNames t.lists (S.lies (S.known commits.old)
            (commit_in (queued_by self.old) place)) field q
            → self.old.least ≤ generation_at t.history q → IsQueued (queued_by self.new) q) }
        ensures failed { IfErr result (λ e. S.may_fail (S.known commits.old) e
            ⊎ S.Error.from_gives alloc_error e) }
    {
        match field {
            ParentEdge::None => Ok(()),
            ParentEdge::GraphPosition(parent) => {
                self.enqueue(commits, parent, place)?;
                Ok(())
            }
            ParentEdge::ExtraEdgeIndex(index) => {
                self.visit_list(commits, index, place)?;
                Ok(())
            }
        }
    }
    /// Visits the commit at a place, of which both parent fields say this. The parent that the
    /// first of them names has this generation number, which need not be read then.
    pub(crate) fn visit_known<S: CommitSource>(
        &mut self,
        commits: &mut S,
        fields: (ParentEdge, ParentEdge),
        number: u32,
        place: u32,
    ) -> Result<(), S::Error>
        requires search { IsSearching (S.count (S.known commits.old)) (S.says commits.old)
            self.old }
        requires read { AreRead (S.says commits.old) self.old }
        requires place { place < length (queued_by self.old) }
        requires fields { let k = S.known commits.old in
            AreFieldsRead (S.count k) (S.is_listed k) (S.lies k) (S.says commits.old)
            (commit_in (queued_by self.old) place) fields }
        requires number { IsParentNumber (S.says commits.old) fields.0 number }
        ensures known { S.known commits.new ≡ S.known commits.old }
        ensures kept { (t : Told) → S.says commits.new t → S.says commits.old t }
        ensures search { OnOk result
            (IsSearching (S.count (S.known commits.old)) (S.says commits.new) self.new) }
        ensures read { OnOk result (AreRead (S.says commits.new) self.new) }
        ensures goes_on { OnOk result (GoesOn self.old self.new place) }
        ensures parents { OnOk result ((t : Told) → S.says commits.new t
            → QueuesParents t.history self.old.least (queued_by self.new) place) }
        ensures failed { IfErr result (λ e. S.may_fail (S.known commits.old) e
            ⊎ S.Error.from_gives alloc_error e) }
    {
        self.visit_first(commits, fields.0, number, place)?;
        self.visit_field(commits, fields.1, place)?;
        Ok(())
    }

    /// Goes over the parents that the first parent field of the commit at a place names. One that
    /// it names itself has this generation number.
    fn visit_first<S: CommitSource>(
        &mut self,
        commits: &mut S,
        field: ParentEdge,
        number: u32,
        place: u32,
    ) -> Result<(), S::Error>
        requires search { IsSearching (S.count (S.known commits.old)) (S.says commits.old)
            self.old }
        requires read { AreRead (S.says commits.old) self.old }
        requires place { place < length (queued_by self.old) }
        requires field { let k = S.known commits.old in
            IsFieldRead (S.count k) (S.is_listed k) (S.lies k) (S.says commits.old)
            (commit_in (queued_by self.old) place) field }
        requires number { IsParentNumber (S.says commits.old) field number }
        ensures known { S.known commits.new ≡ S.known commits.old }
        ensures kept { (t : Told) → S.says commits.new t → S.says commits.old t }
        ensures search { OnOk result
            (IsSearching (S.count (S.known commits.old)) (S.says commits.new) self.new) }
        ensures read { OnOk result (AreRead (S.says commits.new) self.new) }
        ensures goes_on { OnOk result (GoesOn self.old self.new place) }
        ensures named { OnOk result ((t : Told) (q : ℕ) → S.says commits.new t
            → FieldNames t.lists (S.lies (S.known commits.old)
            (commit_in (queued_by self.old) place)) field q
            → self.old.least ≤ generation_at t.history q → IsQueued (queued_by self.new) q) }
        ensures failed { IfErr result (λ e. S.may_fail (S.known commits.old) e
            ⊎ S.Error.from_gives alloc_error e) }
    {
        match field {
            ParentEdge::GraphPosition(parent) => {
                self.enqueue_known(parent, place, number)?;
                Ok(())
            }
            _ => self.visit_field(commits, field, place),
        }
    }
}
