//! How paint is passed on to the parents of a commit.

ghost use Rattle.std.specs.Prelude.{◌≡◌, ◌⊎◌, ◌<◌, ◌≤◌, ℕ, Contains, OnOk};
ghost use Rattle.std.specs.Prelude.{IfErr, alloc_error};
ghost use Rattle.std.specs.BinaryHeap.{heap_items};
ghost use Rattle.graph_walks.specs.History.{IsParent};
ghost use Rattle.commit_search.specs.EdgeLists.{named_from};
ghost use Rattle.commit_search.specs.Source.{Told, IsFieldRead, IsListTrue, FieldNames};
ghost use Rattle.commit_search.specs.Positions.{numbers_of};
ghost use Rattle.graph_bases.specs.Paint.{paint_at, passed, Grows};
ghost use Rattle.graph_bases.specs.Painting.{IsSpread, IsLevel, IsPainting, IsPaintingOf, work};
ghost use Rattle.graph_bases.specs.Painting.{ArePassed, PassesPaint, PassesOn};
ghost use Rattle.commit_search.specs.Ranks.{FallsAlongParents};

use crate::paint::Paint;
use crate::painting::Painting;
use crate::sheet::CoatTable;
use commit_search::edges::parent_of;
use commit_search::{CommitSource, Ranks};
use graph_format::Position;
use graph_format::parents::{ExtraEdge, ParentEdge};

impl<'p, T: CoatTable> Painting<'p, T> {
    /// Passes on what is known of a commit that was taken from the queue.
    pub(crate) fn visit<S: CommitSource, R: Ranks<S>>(
        &mut self,
        commits: &mut S,
        ranks: &R,
        commit: Position,
        paint: Paint,
    ) -> Result<(), S::Error>
        requires passes { PassesPaint (S.count (S.known commits.old)) (S.says commits.old)
            (R.ranking ranks.now) self.old commit.0 paint }
        requires lists { ArePassed (S.says commits.old) self.old }
        ensures known { S.known commits.new ≡ S.known commits.old }
        ensures kept { (t : Told) → S.says commits.new t → S.says commits.old t }
        ensures first { self.new.first ≡ self.old.first }
        ensures others { self.new.others.now ≡ self.old.others.now }
        ensures painting { OnOk result (IsPainting (S.count (S.known commits.old)) self.new) }
        ensures told { OnOk result ((t : Told) → S.says commits.new t
            → IsPaintingOf t.history (R.ranking ranks.now t) self.new) }
        ensures lists { OnOk result (ArePassed (S.says commits.new) self.new) }
        ensures spread { OnOk result ((t : Told) → S.says commits.new t
            → IsSpread t.history self.old.first.0 (numbers_of self.old.others.now)
            self.new.coats.all) }
        ensures level { OnOk result ((t : Told) → S.says commits.new t
            → FallsAlongParents t.history (R.ranking ranks.now t)
            → IsLevel (R.ranking ranks.now t) self.new.coats.all (heap_items self.new.queue)
            ((R.ranking ranks.now t).rank commit.0)) }
        ensures work { OnOk result (work self.new.coats.all (heap_items self.new.queue)
            ≤ work self.old.coats.all (heap_items self.old.queue)) }
        ensures failed { IfErr result (λ e. S.may_fail (S.known commits.old) e
            ⊎ S.Error.from_gives alloc_error e) }
    {
        let fields = commits.parent_fields(commit)?;
        self.visit_field(commits, ranks, fields.0, commit, paint)?;
        self.visit_field(commits, ranks, fields.1, commit, paint)?;
        Ok(())
    }

    /// Passes on what is known of a commit to the parents that a parent field of it names.
    fn visit_field<S: CommitSource, R: Ranks<S>>(
        &mut self,
        commits: &mut S,
        ranks: &R,
        field: ParentEdge,
        commit: Position,
        paint: Paint,
    ) -> Result<(), S::Error>
        requires passes { PassesPaint (S.count (S.known commits.old)) (S.says commits.old)
            (R.ranking ranks.now) self.old commit.0 paint }
        requires lists { ArePassed (S.says commits.old) self.old }
        requires field { let k = S.known commits.old in
            IsFieldRead (S.count k) (S.is_listed k) (S.lies k) (S.says commits.old) commit.0
            field }
        ensures known { S.known commits.new ≡ S.known commits.old }
        ensures kept { (t : Told) → S.says commits.new t → S.says commits.old t }
        ensures first { self.new.first ≡ self.old.first }
        ensures others { self.new.others.now ≡ self.old.others.now }
        ensures passes { OnOk result (PassesPaint (S.count (S.known commits.old))
            (S.says commits.new) (R.ranking ranks.now) self.new commit.0 paint) }
        ensures lists { OnOk result (ArePassed (S.says commits.new) self.new) }
        ensures on { OnOk result (PassesOn self.old self.new) }
        ensures named { OnOk result ((t : Told) (q : ℕ) → S.says commits.new t
            → FieldNames t.lists (S.lies (S.known commits.old) commit.0) field q
            → Grows (passed paint) (paint_at self.new.coats.all q)) }
        ensures failed { IfErr result (λ e. S.may_fail (S.known commits.old) e
            ⊎ S.Error.from_gives alloc_error e) }
    {
        match field {
            ParentEdge::None => Ok(()),
            ParentEdge::GraphPosition(parent) => {
                self.pass(commits, ranks, commit, paint, parent)?;
                Ok(())
            }
            ParentEdge::ExtraEdgeIndex(index) => {
                self.visit_list(commits, ranks, index, commit, paint)?;
                Ok(())
            }
        }
    }

    /// Passes on what is known of a commit to the parents that the words of the extra edge list of
    /// its layer name, from this index on to the last parent, or to a word that was passed with as
    /// much.
    ///
    /// Few commits have such a list. This stays a call of its own, so that the others pay nothing
    /// for it.
    #[inline(never)]
    fn visit_list<S: CommitSource, R: Ranks<S>>(
        &mut self,
        commits: &mut S,
        ranks: &R,
        index: u32,
        commit: Position,
        paint: Paint,
    ) -> Result<(), S::Error>
        requires passes { PassesPaint (S.count (S.known commits.old)) (S.says commits.old)
            (R.ranking ranks.now) self.old commit.0 paint }
        requires lists { ArePassed (S.says commits.old) self.old }
        requires listed { S.is_listed (S.known commits.old) commit.0 index }
        requires told { (t : Told) → S.says commits.old t → (l : ℕ)
            → S.lies (S.known commits.old) commit.0 l → IsListTrue t commit.0 l index }
        ensures known { S.known commits.new ≡ S.known commits.old }
        ensures kept { (t : Told) → S.says commits.new t → S.says commits.old t }
        ensures first { self.new.first ≡ self.old.first }
        ensures others { self.new.others.now ≡ self.old.others.now }
        ensures passes { OnOk result (PassesPaint (S.count (S.known commits.old))
            (S.says commits.new) (R.ranking ranks.now) self.new commit.0 paint) }
        ensures lists { OnOk result (ArePassed (S.says commits.new) self.new) }
        ensures on { OnOk result (PassesOn self.old self.new) }
        ensures named { OnOk result ((t : Told) (q : ℕ) → S.says commits.new t
            → ((l : ℕ) → S.lies (S.known commits.old) commit.0 l
            → Contains (named_from (t.lists l) index) q)
            → Grows (passed paint) (paint_at self.new.coats.all q)) }
        ensures failed { IfErr result (λ e. S.may_fail (S.known commits.old) e
            ⊎ S.Error.from_gives alloc_error e) }
    {
        let layer = commits.layer_of(commit);
        let count = commits.words_of(commit, layer, index);
        self.coats.trails.grow_to(layer, count as usize)?;
        let passed = paint.passed();
        let mut next = index;
        while !self.coats.trails.at(layer, next).covers(passed) {
            let word = commits.listed_parent(commit, layer, next)?;
            self.pass(commits, ranks, commit, paint, parent_of(word))?;
            self.coats.trails.add(layer, next, passed)?;
            match word {
                ExtraEdge::Internal(_) => next += 1,
                ExtraEdge::Last(_) => return Ok(()),
            }
        }
        Ok(())
    }

    /// Passes on what is known of a commit to one of its parents.
    fn pass<S: CommitSource, R: Ranks<S>>(
        &mut self,
        commits: &mut S,
        ranks: &R,
        commit: Position,
        paint: Paint,
        parent: Position,
    ) -> Result<(), S::Error>
        requires passes { PassesPaint (S.count (S.known commits.old)) (S.says commits.old)
            (R.ranking ranks.now) self.old commit.0 paint }
        requires within { parent.0 < S.count (S.known commits.old) }
        requires parent { (t : Told) → S.says commits.old t
            → IsParent t.history commit.0 parent.0 }
        ensures known { S.known commits.new ≡ S.known commits.old }
        ensures kept { (t : Told) → S.says commits.new t → S.says commits.old t }
        ensures first { self.new.first ≡ self.old.first }
        ensures others { self.new.others.now ≡ self.old.others.now }
        ensures trails { self.new.coats.trails ≡ self.old.coats.trails }
        ensures passes { OnOk result (PassesPaint (S.count (S.known commits.old))
            (S.says commits.new) (R.ranking ranks.now) self.new commit.0 paint) }
        ensures on { OnOk result (PassesOn self.old self.new) }
        ensures heard { OnOk result
            (Grows (passed paint) (paint_at self.new.coats.all parent.0)) }
        ensures failed { IfErr result (λ e. S.may_fail (S.known commits.old) e
            ⊎ S.Error.from_gives alloc_error e) }
    {
        self.add(commits, ranks, parent, paint.passed())?;
        Ok(())
    }
}
