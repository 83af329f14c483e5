//! To which commits a commit and some others lead, as paint that commits pass on to their parents.

ghost use Rattle.std.specs.Prelude.{◌+◌, ◌*◌, ◌^◌, ◌⊎◌, cond, alloc_error, IfErr};
ghost use Rattle.std.specs.Prelude.{◌≡◌, ◌<◌, ◌≤◌, ◌++◌, ◌∷◌, if◌then◌else◌, ℕ, List, [], All};
ghost use Rattle.std.specs.Prelude.{IsPermutation, length, count_by, OnOk, IfOk};
ghost use Rattle.std.specs.BinaryHeap.{IsHeap, heap_items};
ghost use Rattle.graph_walks.specs.History.{Node};
ghost use Rattle.commit_search.specs.Source.{Told};
ghost use Rattle.commit_search.specs.Positions.{numbers_of};
ghost use Rattle.graph_bases.specs.Bases.{AreBelowCap, AreVisitsBy};
ghost use Rattle.graph_bases.specs.Painting.{IsVisitCount, IsVisiting};
ghost use Rattle.graph_bases.specs.Paint.{is_queued};
ghost use Rattle.graph_bases.specs.Paint.{is_ahead, is_behind, is_base, bare, coat_at};
ghost use Rattle.graph_bases.specs.Paint.{IsCounted, IsPaint, AreIdle};
ghost use Rattle.graph_bases.specs.Painting.{IsSpread, IsLevel, Joins, JoinsRanked, Adds};
ghost use Rattle.graph_bases.specs.Painting.{ArePassed, IsPassed, MayAdd, IsPaintingOf};
ghost use Rattle.graph_bases.specs.Painting.{AreCandidates, IsDone, IsPainting, IsPainted};
ghost use Rattle.graph_bases.specs.Painting.{AreBases, entry_cmp, work};
ghost use Rattle.commit_search.specs.Ranks.{FallsAlongParents, Ranking};
ghost use Rattle.graph_bases.specs.Trails.{trail_in};

use crate::bases::Divergence;
use crate::paint::{Coat, Coats, Paint};
use crate::sheet::CoatTable;
use commit_search::{CommitSource, Ranks};
use graph_format::Position;
use std::alloc::{AllocError, Global};
use std::collections::BinaryHeap;

/// The painting of commits from one of them and some others.
#[derive(Drop)]
pub(crate) struct Painting<'p, T: CoatTable> {
    first: Position,
    others: &'p [Position],
    pub(crate) coats: Coats<T>,
    /// The commits whose parents have not heard all that is known of them: of each its rank and its
    /// position.
    queue: BinaryHeap<(u64, u32)>,
    /// The positions of commits to which both sides lead: each merge base is one of them. Others
    /// turn out to be ancestors of another.
    candidates: Vec<u32>,
    /// How many commits were taken from the queue.
    visits: u64,
}

impl<'p, T: CoatTable> Painting<'p, T> {
    /// A painting that knows nothing.
    fn new(
        alloc: Global,
        coats: Coats<T>,
        first: Position,
        others: &'p [Position],
    ) -> Painting<'p, T>
        requires idle { AreIdle (length coats.all) coats }
        requires few { length coats.all < 2 ^ 32 }
        ensures first { result.first ≡ first }
        ensures others { result.others.now ≡ others.now }
        ensures painting { IsPainting (length coats.all) result }
        ensures told { (history : List Node) (ranking : Ranking)
            → length history ≡ length coats.all → IsPaintingOf history ranking result }
        ensures lists { (t : Told) (l : ℕ) → IsPassed result.coats.all (t.lists l)
            (trail_in result.coats.trails.layers.items l) }
        ensures bare { (p : ℕ) → coat_at result.coats.all p ≡ bare }
        ensures empty { heap_items result.queue ≡ [] }
    {
        Painting {
            first,
            others,
            coats,
            queue: BinaryHeap::new(alloc),
            candidates: Vec::new(alloc),
            visits: 0,
        }
    }

    /// Puts a commit into the queue, unless it is there.
    fn enqueue<S: CommitSource, R: Ranks<S>>(
        &mut self,
        commits: &mut S,
        ranks: &R,
        commit: Position,
        is_there: bool,
    ) -> Result<(), S::Error>
        requires painting { IsPainting (S.count (S.known commits.old)) self.old }
        requires within { commit.0 < S.count (S.known commits.old) }
        requires there { is_there ≡ is_queued self.old.coats.all commit.0 }
        ensures known { S.known commits.new ≡ S.known commits.old }
        ensures kept { (t : Told) → S.says commits.new t → S.says commits.old t }
        ensures first { self.new.first ≡ self.old.first }
        ensures others { self.new.others.now ≡ self.old.others.now }
        ensures coats { self.new.coats ≡ self.old.coats }
        ensures candidates { self.new.candidates.items ≡ self.old.candidates.items }
        ensures visits { self.new.visits ≡ self.old.visits }
        ensures len { OnOk result (length (heap_items self.new.queue)
            ≡ length (heap_items self.old.queue)
            + cond (is_queued self.old.coats.all commit.0) 0 1) }
        ensures joins { OnOk result
            (Joins commit.0 (heap_items self.old.queue) (heap_items self.new.queue)) }
        ensures ranked { OnOk result ((t : Told) → S.says commits.new t
            → JoinsRanked (R.ranking ranks.now t) commit.0 (heap_items self.old.queue)
            (heap_items self.new.queue)) }
        ensures failed { IfErr result (λ e. S.may_fail (S.known commits.old) e
            ⊎ S.Error.from_gives alloc_error e) }
    {
        if is_there {
            return Ok(());
        }
        let rank = ranks.rank(commits, commit)?;
        push_entry(&mut self.queue, (rank, commit.0))?;
        Ok(())
    }

    /// Adds a commit with this paint to the candidates, where that is the paint of a merge base.
    fn add_candidate(&mut self, commit: Position, paint: Paint) -> Result<(), AllocError>
        ensures first { self.new.first ≡ self.old.first }
        ensures others { self.new.others.now ≡ self.old.others.now }
        ensures coats { self.new.coats ≡ self.old.coats }
        ensures queue { heap_items self.new.queue ≡ heap_items self.old.queue }
        ensures visits { self.new.visits ≡ self.old.visits }
        ensures candidates { OnOk result (self.new.candidates.items
            ≡ (if is_base paint then self.old.candidates.items ++ commit.0 ∷ []
            else self.old.candidates.items)) }
    {
        if paint.is_base() {
            self.candidates.push(commit.0)?;
        }
        Ok(())
    }

    /// Adds paint to a commit, and puts it into the queue where that says more than was known.
    pub(crate) fn add<S: CommitSource, R: Ranks<S>>(
        &mut self,
        commits: &mut S,
        ranks: &R,
        commit: Position,
        paint: Paint,
    ) -> Result<(), S::Error>
        requires painting { IsPainting (S.count (S.known commits.old)) self.old }
        requires within { commit.0 < S.count (S.known commits.old) }
        requires told { (t : Told) → S.says commits.old t
            → MayAdd t.history (R.ranking ranks.now t) self.old commit.0 paint }
        ensures known { S.known commits.new ≡ S.known commits.old }
        ensures kept { (t : Told) → S.says commits.new t → S.says commits.old t }
        ensures first { self.new.first ≡ self.old.first }
        ensures others { self.new.others.now ≡ self.old.others.now }
        ensures trails { self.new.coats.trails ≡ self.old.coats.trails }
        ensures painting { OnOk result (IsPainting (S.count (S.known commits.old)) self.new) }
        ensures told { OnOk result ((t : Told) → S.says commits.new t
            → IsPaintingOf t.history (R.ranking ranks.now t) self.new) }
        ensures adds { OnOk result (Adds commit.0 paint self.old.coats.all
            self.new.coats.all) }
        ensures level { OnOk result ((t : Told) (level : ℕ) → S.says commits.new t
            → (R.ranking ranks.now t).rank commit.0 ≤ level
            → IsLevel (R.ranking ranks.now t) self.old.coats.all
            (heap_items self.old.queue) level
            → IsLevel (R.ranking ranks.now t) self.new.coats.all
            (heap_items self.new.queue) level) }
        ensures work { OnOk result (work self.new.coats.all (heap_items self.new.queue)
            ≤ work self.old.coats.all (heap_items self.old.queue)) }
        ensures failed { IfErr result (λ e. S.may_fail (S.known commits.old) e
            ⊎ S.Error.from_gives alloc_error e) }
    {
        let known = self.coats.at(commit);
        if known.paint.covers(paint) {
            return Ok(());
        }
        let paint = known.paint.join(paint);
        self.enqueue(commits, ranks, commit, known.queued)?;
        self.add_candidate(commit, paint)?;
        let queued = true;
        self.coats.set(commit, known, Coat { paint, queued })?;
        Ok(())
    }

    /// Visits commits, those with the highest ranks first, until none that is queued can lead to a
    /// base.
    fn run<S: CommitSource, R: Ranks<S>>(
        &mut self,
        commits: &mut S,
        ranks: &R,
    ) -> Result<(), S::Error>
        requires painting { IsPainting (S.count (S.known commits.old)) self.old }
        requires told { (t : Told) → S.says commits.old t
            → IsPaintingOf t.history (R.ranking ranks.now t) self.old }
        requires spread { (t : Told) → S.says commits.old t → IsSpread t.history self.old.first.0
            (numbers_of self.old.others.now) self.old.coats.all }
        requires level { (t : Told) → S.says commits.old t
            → FallsAlongParents t.history (R.ranking ranks.now t) → (level : ℕ)
            × IsLevel (R.ranking ranks.now t) self.old.coats.all (heap_items self.old.queue) level }
        requires lists { ArePassed (S.says commits.old) self.old }
        ensures known { S.known commits.new ≡ S.known commits.old }
        ensures kept { (t : Told) → S.says commits.new t → S.says commits.old t }
        ensures first { self.new.first ≡ self.old.first }
        ensures others { self.new.others.now ≡ self.old.others.now }
        ensures len { OnOk result
            (length self.new.coats.all ≡ S.count (S.known commits.old)) }
        ensures counted { OnOk result (IsCounted self.new.coats) }
        ensures candidates { OnOk result (AreCandidates self.new.coats.all
            self.new.candidates.items) }
        ensures paint { OnOk result ((t : Told) → S.says commits.new t
            → IsPaint t.history self.old.first.0 (numbers_of self.old.others.now)
            self.new.coats.all) }
        ensures spread { OnOk result ((t : Told) → S.says commits.new t
            → IsSpread t.history self.old.first.0 (numbers_of self.old.others.now)
            self.new.coats.all) }
        ensures count { OnOk result (IsVisitCount self.new.coats.all self.new.visits) }
        ensures visiting { OnOk result ((t : Told) → S.says commits.new t
            → FallsAlongParents t.history (R.ranking ranks.now t)
            → AreBelowCap (R.ranking ranks.now t) self.old.first.0 (numbers_of self.old.others.now)
            → IsVisiting t.history (R.ranking ranks.now t) self.old.first.0
            (numbers_of self.old.others.now) self.new.coats.all self.new.visits) }
        ensures done { OnOk result ((t : Told) → S.says commits.new t
            → FallsAlongParents t.history (R.ranking ranks.now t)
            → IsDone (R.ranking ranks.now t) self.new.coats.all) }
        ensures failed { IfErr result (λ e. S.may_fail (S.known commits.old) e
            ⊎ S.Error.from_gives alloc_error e) }
    {
        let cap = ranks.cap();
        while let Some(next) = self.queue.pop() {
            let is_below_cap = next.0 < cap;
            if self.coats.fresh == 0 && is_below_cap {
                return Ok(());
            }
            let commit = Position(next.1);
            let known = self.coats.at(commit);
            let paint = known.paint;
            let queued = false;
            self.coats.set(commit, known, Coat { paint, queued })?;
            self.visits = self.visits.saturating_add(1);
            self.visit(commits, ranks, commit, paint)?;
        }
        Ok(())
    }

    /// How many commits are ahead and behind, as far as is known.
    pub(crate) fn divergence(&self) -> Divergence
        requires { IsCounted self.now.coats }
        ensures ahead { result.ahead
            ≡ count_by (λ coat. is_ahead coat.paint) self.now.coats.all }
        ensures behind { result.behind
            ≡ count_by (λ coat. is_behind coat.paint) self.now.coats.all }
    {
        Divergence {
            ahead: self.coats.ahead,
            behind: self.coats.behind,
        }
    }

    /// How many commits were taken from the queue.
    pub(crate) fn visits(&self) -> u64
        ensures { result ≡ self.now.visits }
    {
        self.visits
    }

    /// The commits that are merge bases as far as is known, in the order of their positions.
    pub(crate) fn bases(&mut self, alloc: Global) -> Result<Vec<Position>, AllocError>
        requires { AreCandidates self.old.coats.all self.old.candidates.items }
        ensures coats { self.new.coats ≡ self.old.coats }
        ensures queue { heap_items self.new.queue ≡ heap_items self.old.queue }
        ensures visits { self.new.visits ≡ self.old.visits }
        ensures bases { IfOk result (λ bases. AreBases self.old.coats.all
            (numbers_of bases.items)) }
    {
        self.candidates.sort_unstable();
        let mut bases = Vec::new(alloc);
        for number in self.candidates.iter() {
            let commit = Position(*number);
            if self.coats.at(commit).paint.is_base() {
                bases.push(commit)?;
            }
        }
        Ok(bases)
    }

    /// The coats, all of them bare again.
    pub(crate) fn into_coats(self) -> Coats<T>
        ensures { AreIdle (length self.entry.coats.all) result }
    {
        self.coats.into_idle()
    }
}

/// Paints commits from one of them and some others.
pub(crate) fn paint_from<'p, T: CoatTable, S: CommitSource, R: Ranks<S>>(
    alloc: Global,
    coats: Coats<T>,
    commits: &mut S,
    ranks: &R,
    first: Position,
    others: &'p [Position],
) -> Result<Painting<'p, T>, S::Error>
    requires idle { AreIdle (S.count (S.known commits.old)) coats }
    requires first { first.0 < S.count (S.known commits.old) }
    requires others { All (λ other. other.0 < S.count (S.known commits.old)) others.now }
    ensures known { S.known commits.new ≡ S.known commits.old }
    ensures kept { (t : Told) → S.says commits.new t → S.says commits.old t }
    ensures len { IfOk result (λ s. length s.coats.all ≡ S.count (S.known commits.old)) }
    ensures counted { IfOk result (λ s. IsCounted s.coats) }
    ensures candidates { IfOk result (λ s. AreCandidates s.coats.all s.candidates.items) }
    ensures paint { IfOk result (λ s. (t : Told) → S.says commits.new t
        → IsPaint t.history first.0 (numbers_of others.now) s.coats.all) }
    ensures most { IfOk result (λ s. s.visits ≤ 3 * S.count (S.known commits.old)) }
    ensures painted { IfOk result (λ s. (t : Told) → S.says commits.new t
        → FallsAlongParents t.history (R.ranking ranks.now t)
        → IsPainted t.history first.0 (numbers_of others.now) s.coats.all) }
    ensures visits { IfOk result (λ s. (t : Told) → S.says commits.new t
        → FallsAlongParents t.history (R.ranking ranks.now t)
        → AreVisitsBy t.history (R.ranking ranks.now t) first.0 (numbers_of others.now) s.visits) }
    ensures failed { IfErr result (λ e. S.may_fail (S.known commits.old) e
        ⊎ S.Error.from_gives alloc_error e) }
{
    // The contract of `num_commits` says how many commits the source tells of.
    let _commits = commits.num_commits();
    let mut painting = Painting::new(alloc, coats, first, others);
    painting.add(commits, ranks, first, Paint::First)?;
    for other in others {
        painting.add(commits, ranks, *other, Paint::Others)?;
    }
    painting.run(commits, ranks)?;
    Ok(painting)
}

/// Adds an entry to a queue.
fn push_entry(queue: &mut BinaryHeap<(u64, u32)>, entry: (u64, u32)) -> Result<(), AllocError>
    ensures order { OnOk result
        (IsHeap entry_cmp (heap_items queue.old) → IsHeap entry_cmp (heap_items queue.new)) }
    ensures moved { OnOk result
        (IsPermutation (entry ∷ heap_items queue.old) (heap_items queue.new)) }
{
    queue.push(entry)?;
    Ok(())
}
