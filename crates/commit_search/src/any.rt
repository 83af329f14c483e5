//! Answers to queries over commits that any source gives.

ghost use Rattle.std.specs.Prelude.{◌≡◌, ◌≢◌, ◌⊎◌, ◌+◌, ◌<◌, ◌≤◌, IfOk, IfErr, IfSome};
ghost use Rattle.std.specs.Prelude.{IfNone, IsTrue, alloc_error, false};
ghost use Rattle.graph_walks.specs.Walks.{CountWalks, Reaches};
ghost use Rattle.commit_search.specs.Cardinality.{AtLeast, AtMost};
ghost use Rattle.commit_search.specs.WalkAnswer.{IsAbove, IsAnswer, IsAnyAnswer, IsAtOrAbove};
ghost use Rattle.commit_search.specs.WalkAnswer.{LeadsWithin, MayLead};
ghost use Rattle.commit_search.specs.Search.{IsIdle};
ghost use Rattle.commit_search.specs.Source.{Told};

use crate::Reached;
use crate::bits::BitMarks;
use crate::few::FewMarks;
use crate::marks::Marks;
use crate::search::Search;
use crate::source::CommitSource;
use crate::within::generation_numbers_can_be_searched;
use graph_format::Position;
use std::alloc::Global;
use std::marker::Model;

/// Answers queries over the commits of any source, and keeps its memory from one to the next: that
/// of its marks, asked for at the first query that needs them, which are a bit for each commit of
/// the source and eight bytes for each commit that a query reaches, or for those a few dozen bytes
/// alone, as long as they are few. What a query marks there is cleared after it, and no more.
///
/// Where the generation numbers that a source says are right, the answers are exact. Where they are
/// not, a query ends all the same, and a walk or a yes that it answers is there. A contract speaks
/// of all that the source may say once the query is over: of each history with which all agrees
/// that was read of it.
#[derive(Drop)]
pub struct MarkSearcher<M: Marks> {
    pub(crate) search: Search<M>,
    /// The places of the queue that a search depth first has yet to visit.
    pub(crate) stack: Vec<u32>,
}

impl<M: Marks> Model for MarkSearcher<M> {
    ghost use Rattle.commit_search.specs.Search.{IsIdle};

    ghost Value = { Unit {0} };

    ghost view = { λ _. tt };

    ghost invariant = { λ a. IsIdle a.search };
}

/// Answers queries over the commits of any source, with a bit for each of them.
pub type AnySearcher = MarkSearcher<BitMarks>;

/// Answers queries over the commits of any source where a query mostly reaches few of them: it
/// takes memory for the others only once it has reached many.
pub type FewSearcher = MarkSearcher<FewMarks>;

impl<M: Marks> MarkSearcher<M> {
    /// A searcher. Nothing is allocated.
    pub fn new(alloc: Global) -> MarkSearcher<M> {
        MarkSearcher {
            search: Search::new(alloc),
            stack: Vec::new(alloc),
        }
    }

    /// Looks for a shortest walk along parents from one commit to another, at positions that are
    /// below the source's `num_commits()`.
    ///
    /// The search goes breadth first. It visits no commit twice, and none whose generation number
    /// is below that of `to`, and goes over no word of an extra edge list twice. Which of several
    /// shortest walks it answers is left open. Where the two commits are one, it visits that one
    /// alone, and where the generation numbers allow no walk, none.
    ///
    /// # Errors
    ///
    /// A read of the source failed, which comes only where the commits are two; or an allocation
    /// failed: only where they are one, or their generation numbers allow a walk. The searcher can
    /// be asked again.
    pub fn ancestor_walk<S: CommitSource>(
        &mut self,
        commits: &mut S,
        from: Position,
        to: Position,
    ) -> Result<Reached, S::Error>
        requires from { from.0 < S.count (S.known commits.old) }
        requires to { to.0 < S.count (S.known commits.old) }
        ensures known { S.known commits.new ≡ S.known commits.old }
        ensures kept { (t : Told) → S.says commits.new t → S.says commits.old t }
        ensures visits { IfOk result (λ reached.
            reached.visits ≤ S.count (S.known commits.old)) }
        ensures answer { IfOk result (λ reached. (t : Told) → S.says commits.new t
            → IsAnyAnswer t.history from.0 to.0 reached) }
        ensures right { IfOk result (λ reached. (t : Told) → S.says commits.new t
            → CountWalks t.history → IsAnswer t.history from.0 to.0 reached) }
        ensures refused { IfErr result (λ e.
            ((from.0 ≢ to.0) × S.may_fail (S.known commits.old) e)
            ⊎ (S.Error.from_gives alloc_error e × ((t : Told) → S.says commits.new t
            → (from.0 ≡ to.0) ⊎ MayLead t.history from.0 to.0))) }
    {
        // The contract of `num_commits` says that there are no more commits than may be visited.
        let _commits = commits.num_commits();
        match self.ancestor_walk_within(commits, from, to, u64::MAX)? {
            Some(reached) => Ok(reached),
            None => unreachable!(),
        }
    }

    /// What [`MarkSearcher::ancestor_walk`] answers, where no more commits than so many have to be
    /// visited for it, and else `None`.
    ///
    /// # Errors
    ///
    /// Those of [`MarkSearcher::ancestor_walk`].
    pub fn ancestor_walk_within<S: CommitSource>(
        &mut self,
        commits: &mut S,
        from: Position,
        to: Position,
        most: u64,
    ) -> Result<Option<Reached>, S::Error>
        requires from { from.0 < S.count (S.known commits.old) }
        requires to { to.0 < S.count (S.known commits.old) }
        ensures known { S.known commits.new ≡ S.known commits.old }
        ensures kept { (t : Told) → S.says commits.new t → S.says commits.old t }
        ensures visits { IfOk result (λ answer. IfSome answer (λ reached.
            reached.visits ≤ S.count (S.known commits.old))) }
        ensures within { IfOk result (λ answer. IfSome answer (λ reached.
            reached.visits ≤ most)) }
        ensures answer { IfOk result (λ answer. IfSome answer (λ reached. (t : Told)
            → S.says commits.new t → IsAnyAnswer t.history from.0 to.0 reached)) }
        ensures right { IfOk result (λ answer. IfSome answer (λ reached. (t : Told)
            → S.says commits.new t → CountWalks t.history
            → IsAnswer t.history from.0 to.0 reached)) }
        ensures fewer { IfOk result (λ answer. IfNone answer
            (most < S.count (S.known commits.old))) }
        ensures more { IfOk result (λ answer. IfNone answer ((t : Told) → S.says commits.new t
            → AtLeast (most + 1) (IsAtOrAbove t.history from.0 to.0))) }
        ensures refused { IfErr result (λ e.
            ((from.0 ≢ to.0) × S.may_fail (S.known commits.old) e)
            ⊎ (S.Error.from_gives alloc_error e × ((t : Told) → S.says commits.new t
            → (from.0 ≡ to.0) ⊎ MayLead t.history from.0 to.0))) }
    {
        generation_numbers_can_be_searched();
        self.walk_within(commits, from, to, most)
    }

    /// Whether one commit is an ancestor of another, or the same commit, at positions that are
    /// below the source's `num_commits()`: whether a walk along parents leads from `descendant` to
    /// `ancestor`. They have the order of `git merge-base --is-ancestor`.
    ///
    /// The search goes depth first, first parents first. It visits and leaves out commits as
    /// [`MarkSearcher::ancestor_walk`] does, and goes over no word of an extra edge list twice.
    ///
    /// # Errors
    ///
    /// Both come only where the commits are two: a read of the source failed; or an allocation
    /// failed, and the generation numbers allow a walk. The searcher can be asked again.
    pub fn is_ancestor<S: CommitSource>(
        &mut self,
        commits: &mut S,
        ancestor: Position,
        descendant: Position,
    ) -> Result<bool, S::Error>
        requires ancestor { ancestor.0 < S.count (S.known commits.old) }
        requires descendant { descendant.0 < S.count (S.known commits.old) }
        ensures known { S.known commits.new ≡ S.known commits.old }
        ensures kept { (t : Told) → S.says commits.new t → S.says commits.old t }
        ensures yes { IfOk result (λ found. (t : Told) → S.says commits.new t
            → IsTrue found → Reaches t.history descendant.0 ancestor.0) }
        ensures no { IfOk result (λ found. (t : Told) → S.says commits.new t
            → CountWalks t.history → Reaches t.history descendant.0 ancestor.0 → IsTrue found) }
        ensures refused { IfErr result (λ e. (descendant.0 ≢ ancestor.0)
            × (S.may_fail (S.known commits.old) e
            ⊎ (S.Error.from_gives alloc_error e × ((t : Told) → S.says commits.new t
            → MayLead t.history descendant.0 ancestor.0)))) }
    {
        let (found, _) = self.is_ancestor_counted(commits, ancestor, descendant)?;
        Ok(found)
    }

    /// An answer as [`MarkSearcher::is_ancestor`] gives it, and how many commits were visited for
    /// it, by reading their parents. A yes takes no fewer than a walk between the two has steps,
    /// and a no no fewer than there are ancestors of `descendant` above the generation number of
    /// `ancestor`.
    ///
    /// # Errors
    ///
    /// Those of [`MarkSearcher::is_ancestor`].
    pub fn is_ancestor_counted<S: CommitSource>(
        &mut self,
        commits: &mut S,
        ancestor: Position,
        descendant: Position,
    ) -> Result<(bool, u32), S::Error>
        requires ancestor { ancestor.0 < S.count (S.known commits.old) }
        requires descendant { descendant.0 < S.count (S.known commits.old) }
        ensures known { S.known commits.new ≡ S.known commits.old }
        ensures kept { (t : Told) → S.says commits.new t → S.says commits.old t }
        ensures visits { IfOk result (λ told. told.1 ≤ S.count (S.known commits.old)) }
        ensures once { IfOk result (λ told. (t : Told) → S.says commits.new t
            → AtLeast told.1 (IsAtOrAbove t.history descendant.0 ancestor.0)) }
        ensures none { IfOk result (λ told. (t : Told) → S.says commits.new t
            → (descendant.0 ≡ ancestor.0) ⊎ ¬ MayLead t.history descendant.0 ancestor.0
            → told.1 ≡ 0) }
        ensures yes { IfOk result (λ told. (t : Told) → S.says commits.new t
            → IsTrue told.0 → LeadsWithin t.history descendant.0 ancestor.0 told.1) }
        ensures no { IfOk result (λ told. (t : Told) → S.says commits.new t
            → CountWalks t.history → Reaches t.history descendant.0 ancestor.0 → IsTrue told.0) }
        ensures above { IfOk result (λ told. (t : Told) → S.says commits.new t
            → CountWalks t.history → told.0 ≡ false
            → AtMost told.1 (IsAbove t.history descendant.0 ancestor.0)) }
        ensures refused { IfErr result (λ e. (descendant.0 ≢ ancestor.0)
            × (S.may_fail (S.known commits.old) e
            ⊎ (S.Error.from_gives alloc_error e × ((t : Told) → S.says commits.new t
            → MayLead t.history descendant.0 ancestor.0)))) }
    {
        // The contract of `num_commits` says that there are no more commits than may be visited.
        let _commits = commits.num_commits();
        match self.is_ancestor_within(commits, ancestor, descendant, u64::MAX)? {
            Some(told) => Ok(told),
            None => unreachable!(),
        }
    }

    /// What [`MarkSearcher::is_ancestor_counted`] answers, where no more commits than so many have
    /// to be visited for it, and else `None`.
    ///
    /// # Errors
    ///
    /// Those of [`MarkSearcher::is_ancestor`].
    pub fn is_ancestor_within<S: CommitSource>(
        &mut self,
        commits: &mut S,
        ancestor: Position,
        descendant: Position,
        most: u64,
    ) -> Result<Option<(bool, u32)>, S::Error>
        requires ancestor { ancestor.0 < S.count (S.known commits.old) }
        requires descendant { descendant.0 < S.count (S.known commits.old) }
        ensures known { S.known commits.new ≡ S.known commits.old }
        ensures kept { (t : Told) → S.says commits.new t → S.says commits.old t }
        ensures visits { IfOk result (λ answer. IfSome answer (λ told.
            told.1 ≤ S.count (S.known commits.old))) }
        ensures within { IfOk result (λ answer. IfSome answer (λ told. told.1 ≤ most)) }
        ensures once { IfOk result (λ answer. IfSome answer (λ told. (t : Told)
            → S.says commits.new t
            → AtLeast told.1 (IsAtOrAbove t.history descendant.0 ancestor.0))) }
        ensures none { IfOk result (λ answer. IfSome answer (λ told. (t : Told)
            → S.says commits.new t
            → (descendant.0 ≡ ancestor.0) ⊎ ¬ MayLead t.history descendant.0 ancestor.0
            → told.1 ≡ 0)) }
        ensures yes { IfOk result (λ answer. IfSome answer (λ told. (t : Told)
            → S.says commits.new t → IsTrue told.0
            → LeadsWithin t.history descendant.0 ancestor.0 told.1)) }
        ensures no { IfOk result (λ answer. IfSome answer (λ told. (t : Told)
            → S.says commits.new t → CountWalks t.history
            → Reaches t.history descendant.0 ancestor.0 → IsTrue told.0)) }
        ensures above { IfOk result (λ answer. IfSome answer (λ told. (t : Told)
            → S.says commits.new t → CountWalks t.history → told.0 ≡ false
            → AtMost told.1 (IsAbove t.history descendant.0 ancestor.0))) }
        ensures fewer { IfOk result (λ answer. IfNone answer
            (most < S.count (S.known commits.old))) }
        ensures more { IfOk result (λ answer. IfNone answer ((t : Told) → S.says commits.new t
            → AtLeast (most + 1) (IsAtOrAbove t.history descendant.0 ancestor.0))) }
        ensures refused { IfErr result (λ e. (descendant.0 ≢ ancestor.0)
            × (S.may_fail (S.known commits.old) e
            ⊎ (S.Error.from_gives alloc_error e × ((t : Told) → S.says commits.new t
            → MayLead t.history descendant.0 ancestor.0)))) }
    {
        generation_numbers_can_be_searched();
        self.told_within(commits, ancestor, descendant, most)
    }
}
