//! Answers to queries by searches that go by two numbers of each commit.

ghost use Rattle.std.specs.Prelude.{◌≡◌, ◌≢◌, ◌⊎◌, ◌<◌, ◌≤◌, IfOk, IfErr, IfSome, IfNone, IsTrue};
ghost use Rattle.std.specs.Prelude.{alloc_error, false};
ghost use Rattle.graph_walks.specs.Walks.{CountWalks, Reaches};
ghost use Rattle.commit_search.specs.Cardinality.{AtLeast, AtMost};
ghost use Rattle.commit_search.specs.Ranks.{FallsAlongParents};
ghost use Rattle.commit_search.specs.WalkAnswer.{BothMayLead, IsAboveBoth, IsAnswerBy, IsAnyAnswer};
ghost use Rattle.commit_search.specs.WalkAnswer.{IsAtOrAbove, IsAtOrAboveBoth, LeadsWithin};
ghost use Rattle.commit_search.specs.WalkAnswer.{RanksMayLead};
ghost use Rattle.commit_search.specs.Source.{Told};

use crate::Reached;
use crate::any::MarkSearcher;
use crate::marks::Marks;
use crate::ranked::Ranked;
use crate::ranks::Ranks;
use crate::source::{CommitSource, SteadySource};
use crate::within::{generation_numbers_can_be_searched, walk_of};
use graph_format::Position;

impl<M: Marks> MarkSearcher<M> {
    /// What [`MarkSearcher::ancestor_walk`] answers, by a search that leaves out each commit whose
    /// generation number or whose rank is below that of `to`: see [`Ranks`]. It visits no commit
    /// that the other does not.
    ///
    /// Where the generation numbers are right, and the ranks fall along parents, it finds a
    /// shortest walk exactly where there is one. The source is one that says the same however much
    /// of it is read.
    ///
    /// # Errors
    ///
    /// A read of the source failed, which comes only where the commits are two; or an allocation
    /// failed: only where they are one, or both numbers allow a walk. The searcher can be asked
    /// again.
    pub fn ancestor_walk_by<S: SteadySource, R: Ranks<S>>(
        &mut self,
        commits: &mut S,
        ranks: &R,
        from: Position,
        to: Position,
    ) -> Result<Reached, S::Error>
        requires from { from.0 < S.count (S.known commits.old) }
        requires to { to.0 < S.count (S.known commits.old) }
        ensures known { S.known commits.new ≡ S.known commits.old }
        ensures kept { (t : Told) → S.says commits.new t → S.says commits.old t }
        ensures visits { IfOk result (λ reached.
            reached.visits ≤ S.count (S.known commits.old)) }
        ensures answer { IfOk result (λ reached. (t : Told) → S.says commits.new t
            → IsAnyAnswer t.history from.0 to.0 reached) }
        ensures right { IfOk result (λ reached. (t : Told) → S.says commits.new t
            → CountWalks t.history → FallsAlongParents t.history (R.ranking ranks.now t)
            → IsAnswerBy t.history (R.ranking ranks.now t) from.0 to.0 reached) }
        ensures refused { IfErr result (λ e.
            ((from.0 ≢ to.0) × S.may_fail (S.known commits.old) e)
            ⊎ (S.Error.from_gives alloc_error e × ((t : Told) → S.says commits.new t
            → (from.0 ≡ to.0) ⊎ BothMayLead t.history (R.ranking ranks.now t) from.0 to.0))) }
    {
        generation_numbers_can_be_searched();
        // The contract of `num_commits` says how many commits the source tells of.
        let _commits = commits.num_commits();
        if from == to {
            let walk = walk_of(self.search.alloc(), from)?;
            return Ok(Reached {
                walk: Some(walk),
                visits: 1,
            });
        }
        let Some(least) = least_rank(commits, ranks, from, to)? else {
            return Ok(Reached {
                walk: None,
                visits: 0,
            });
        };
        self.ranked_walk(commits, ranks, from, to, least)
    }

    /// A walk as [`MarkSearcher::ancestor_walk_by`] answers it, where the ranks allow one. The
    /// least rank is that of `to`.
    fn ranked_walk<S: SteadySource, R: Ranks<S>>(
        &mut self,
        commits: &mut S,
        ranks: &R,
        from: Position,
        to: Position,
        least: u64,
    ) -> Result<Reached, S::Error>
        requires from { from.0 < S.count (S.known commits.old) }
        requires to { to.0 < S.count (S.known commits.old) }
        requires apart { from.0 ≢ to.0 }
        requires least { (t : Told) → S.says commits.old t
            → least ≡ (R.ranking ranks.now t).rank to.0 }
        requires allowed { (t : Told) → S.says commits.old t
            → RanksMayLead (R.ranking ranks.now t) from.0 to.0 }
        ensures known { S.known commits.new ≡ S.known commits.old }
        ensures kept { (t : Told) → S.says commits.new t → S.says commits.old t }
        ensures visits { IfOk result (λ reached.
            reached.visits ≤ S.count (S.known commits.old)) }
        ensures answer { IfOk result (λ reached. (t : Told) → S.says commits.new t
            → IsAnyAnswer t.history from.0 to.0 reached) }
        ensures right { IfOk result (λ reached. (t : Told) → S.says commits.new t
            → CountWalks t.history → FallsAlongParents t.history (R.ranking ranks.now t)
            → IsAnswerBy t.history (R.ranking ranks.now t) from.0 to.0 reached) }
        ensures refused { IfErr result (λ e. S.may_fail (S.known commits.old) e
            ⊎ (S.Error.from_gives alloc_error e × ((t : Told) → S.says commits.new t
            → BothMayLead t.history (R.ranking ranks.now t) from.0 to.0))) }
    {
        generation_numbers_can_be_searched();
        // The contract of `num_commits` says that there are no more commits than may be visited.
        let _commits = commits.num_commits();
        let mut ranked = Ranked {
            commits,
            ranks,
            least,
        };
        match self.walk_within(&mut ranked, from, to, u64::MAX) {
            Ok(Some(reached)) => Ok(reached),
            Ok(None) => unreachable!(),
            Err(error) => Err(error),
        }
    }

    /// What [`MarkSearcher::is_ancestor_counted`] answers, by a search that leaves out commits as
    /// [`MarkSearcher::ancestor_walk_by`] does. Where the generation numbers are right, and the
    /// ranks fall along parents, the answer is exact.
    ///
    /// # Errors
    ///
    /// Both come only where the commits are two: a read of the source failed; or an allocation
    /// failed, and both numbers allow a walk. The searcher can be asked again.
    pub fn is_ancestor_by<S: SteadySource, R: Ranks<S>>(
        &mut self,
        commits: &mut S,
        ranks: &R,
        ancestor: Position,
        descendant: Position,
    ) -> Result<(bool, u32), S::Error>
        requires ancestor { ancestor.0 < S.count (S.known commits.old) }
        requires descendant { descendant.0 < S.count (S.known commits.old) }
        ensures known { S.known commits.new ≡ S.known commits.old }
        ensures kept { (t : Told) → S.says commits.new t → S.says commits.old t }
        ensures visits { IfOk result (λ told. told.1 ≤ S.count (S.known commits.old)) }
        ensures once { IfOk result (λ told. (t : Told) → S.says commits.new t
            → AtLeast told.1 (IsAtOrAbove t.history descendant.0 ancestor.0)) }
        ensures sharper { IfOk result (λ told. (t : Told) → S.says commits.new t
            → CountWalks t.history → AtLeast told.1
            (IsAtOrAboveBoth t.history (R.ranking ranks.now t) descendant.0 ancestor.0)) }
        ensures none { IfOk result (λ told. (t : Told) → S.says commits.new t
            → (descendant.0 ≡ ancestor.0)
            ⊎ ¬ BothMayLead t.history (R.ranking ranks.now t) descendant.0 ancestor.0
            → told.1 ≡ 0) }
        ensures yes { IfOk result (λ told. (t : Told) → S.says commits.new t
            → IsTrue told.0 → LeadsWithin t.history descendant.0 ancestor.0 told.1) }
        ensures no { IfOk result (λ told. (t : Told) → S.says commits.new t
            → CountWalks t.history → FallsAlongParents t.history (R.ranking ranks.now t)
            → Reaches t.history descendant.0 ancestor.0 → IsTrue told.0) }
        ensures above { IfOk result (λ told. (t : Told) → S.says commits.new t
            → CountWalks t.history → FallsAlongParents t.history (R.ranking ranks.now t)
            → told.0 ≡ false → AtMost told.1
            (IsAboveBoth t.history (R.ranking ranks.now t) descendant.0 ancestor.0)) }
        ensures refused { IfErr result (λ e. (descendant.0 ≢ ancestor.0)
            × (S.may_fail (S.known commits.old) e
            ⊎ (S.Error.from_gives alloc_error e × ((t : Told) → S.says commits.new t
            → BothMayLead t.history (R.ranking ranks.now t) descendant.0 ancestor.0)))) }
    {
        // The contract of `num_commits` says how many commits the source tells of.
        let _commits = commits.num_commits();
        if descendant == ancestor {
            return Ok((true, 0));
        }
        let Some(least) = least_rank(commits, ranks, descendant, ancestor)? else {
            return Ok((false, 0));
        };
        self.ranked_told(commits, ranks, ancestor, descendant, least)
    }

    /// What [`MarkSearcher::is_ancestor_by`] answers, where the ranks allow a walk. The least rank
    /// is that of the ancestor.
    fn ranked_told<S: SteadySource, R: Ranks<S>>(
        &mut self,
        commits: &mut S,
        ranks: &R,
        ancestor: Position,
        descendant: Position,
        least: u64,
    ) -> Result<(bool, u32), S::Error>
        requires ancestor { ancestor.0 < S.count (S.known commits.old) }
        requires descendant { descendant.0 < S.count (S.known commits.old) }
        requires apart { descendant.0 ≢ ancestor.0 }
        requires least { (t : Told) → S.says commits.old t
            → least ≡ (R.ranking ranks.now t).rank ancestor.0 }
        requires allowed { (t : Told) → S.says commits.old t
            → RanksMayLead (R.ranking ranks.now t) descendant.0 ancestor.0 }
        ensures known { S.known commits.new ≡ S.known commits.old }
        ensures kept { (t : Told) → S.says commits.new t → S.says commits.old t }
        ensures visits { IfOk result (λ told. told.1 ≤ S.count (S.known commits.old)) }
        ensures once { IfOk result (λ told. (t : Told) → S.says commits.new t
            → AtLeast told.1 (IsAtOrAbove t.history descendant.0 ancestor.0)) }
        ensures sharper { IfOk result (λ told. (t : Told) → S.says commits.new t
            → CountWalks t.history → AtLeast told.1
            (IsAtOrAboveBoth t.history (R.ranking ranks.now t) descendant.0 ancestor.0)) }
        ensures none { IfOk result (λ told. (t : Told) → S.says commits.new t
            → (¬ BothMayLead t.history (R.ranking ranks.now t) descendant.0 ancestor.0)
            → told.1 ≡ 0) }
        ensures yes { IfOk result (λ told. (t : Told) → S.says commits.new t
            → IsTrue told.0 → LeadsWithin t.history descendant.0 ancestor.0 told.1) }
        ensures no { IfOk result (λ told. (t : Told) → S.says commits.new t
            → CountWalks t.history → FallsAlongParents t.history (R.ranking ranks.now t)
            → Reaches t.history descendant.0 ancestor.0 → IsTrue told.0) }
        ensures above { IfOk result (λ told. (t : Told) → S.says commits.new t
            → CountWalks t.history → FallsAlongParents t.history (R.ranking ranks.now t)
            → told.0 ≡ false → AtMost told.1
            (IsAboveBoth t.history (R.ranking ranks.now t) descendant.0 ancestor.0)) }
        ensures refused { IfErr result (λ e. S.may_fail (S.known commits.old) e
            ⊎ (S.Error.from_gives alloc_error e × ((t : Told) → S.says commits.new t
            → BothMayLead t.history (R.ranking ranks.now t) descendant.0 ancestor.0))) }
    {
        generation_numbers_can_be_searched();
        // The contract of `num_commits` says that there are no more commits than may be visited.
        let _commits = commits.num_commits();
        let mut ranked = Ranked {
            commits,
            ranks,
            least,
        };
        match self.told_within(&mut ranked, ancestor, descendant, u64::MAX) {
            Ok(Some(told)) => Ok(told),
            Ok(None) => unreachable!(),
            Err(error) => Err(error),
        }
    }
}

/// The rank of a commit, where it allows a walk to it from another commit.
fn least_rank<S: CommitSource, R: Ranks<S>>(
    commits: &mut S,
    ranks: &R,
    from: Position,
    to: Position,
) -> Result<Option<u64>, S::Error>
    requires from { from.0 < S.count (S.known commits.old) }
    requires to { to.0 < S.count (S.known commits.old) }
    ensures known { S.known commits.new ≡ S.known commits.old }
    ensures kept { (t : Told) → S.says commits.new t → S.says commits.old t }
    ensures rank { IfOk result (λ answer. IfSome answer (λ least. (t : Told)
        → S.says commits.new t → least ≡ (R.ranking ranks.now t).rank to.0)) }
    ensures allowed { IfOk result (λ answer. IfSome answer (λ _. (t : Told)
        → S.says commits.new t → RanksMayLead (R.ranking ranks.now t) from.0 to.0)) }
    ensures none { IfOk result (λ answer. IfNone answer ((t : Told) → S.says commits.new t
        → ¬ RanksMayLead (R.ranking ranks.now t) from.0 to.0)) }
    ensures failed { IfErr result (S.may_fail (S.known commits.old)) }
{
    let above = ranks.rank(commits, from)?;
    let least = ranks.rank(commits, to)?;
    if least < above || ranks.cap() <= above {
        Ok(Some(least))
    } else {
        Ok(None)
    }
}
