//! Searches within a number of visits, by whatever generation numbers may be searched.

ghost use Rattle.std.specs.Prelude.{◌≡◌, ◌≢◌, ◌⊎◌, ◌+◌, ◌<◌, ◌≤◌, ◌∷◌, [], ℕ, List, IfOk, IfErr};
ghost use Rattle.std.specs.Prelude.{IfSome, IfNone, IsTrue, alloc_error, false};
ghost use Rattle.graph_walks.specs.History.{Node, generation_at};
ghost use Rattle.graph_walks.specs.Walks.{CountWalks, Reaches};
ghost use Rattle.commit_search.specs.Cardinality.{AtLeast, AtMost};
ghost use Rattle.commit_search.specs.RankedHistory.{AreSearchable};
ghost use Rattle.commit_search.specs.WalkAnswer.{IsAbove, IsAnswer, IsAnyAnswer, IsAtOrAbove};
ghost use Rattle.commit_search.specs.WalkAnswer.{LeadsWithin, MayLead};
ghost use Rattle.commit_search.specs.Source.{Told};

use crate::Reached;
use crate::any::MarkSearcher;
use crate::marks::Marks;
use crate::source::CommitSource;
use graph_format::Position;
use graph_walks::GENERATION_NUMBER_MAX;
use graph_walks::law::{generations_fall_along_walks, generations_never_rise_along_walks};
use std::alloc::{AllocError, Global};

/// Where generation numbers count the commits of the longest walks, they can be searched.
#[tactic(auto, using(crate::proofs::RankedLemmas::counted_is_searchable))]
pub(crate) fn generation_numbers_can_be_searched()
    ensures { (history : List Node) (from to : ℕ) → CountWalks history
        → AreSearchable history from to }
{
    generations_never_rise_along_walks();
    generations_fall_along_walks();
}

impl<M: Marks> MarkSearcher<M> {
    /// What [`MarkSearcher::ancestor_walk_within`] answers.
    pub(crate) fn walk_within<S: CommitSource>(
        &mut self,
        commits: &mut S,
        from: Position,
        to: Position,
        most: u64,
    ) -> Result<Option<Reached>, S::Error>
        requires from { from.0 < S.count (S.known commits.old) }
        requires to { to.0 < S.count (S.known commits.old) }
        ensures known { S.known commits.new ≡ S.known commits.old }
        ensures kept { (t : Told) → S.says commits.new t → S.says commits.old t }
        ensures visits { IfOk result (λ answer. IfSome answer (λ reached.
            reached.visits ≤ S.count (S.known commits.old))) }
        ensures within { IfOk result (λ answer. IfSome answer (λ reached.
            reached.visits ≤ most)) }
        ensures answer { IfOk result (λ answer. IfSome answer (λ reached. (t : Told)
            → S.says commits.new t → IsAnyAnswer t.history from.0 to.0 reached)) }
        ensures right { IfOk result (λ answer. IfSome answer (λ reached. (t : Told)
            → S.says commits.new t → AreSearchable t.history from.0 to.0
            → IsAnswer t.history from.0 to.0 reached)) }
        ensures fewer { IfOk result (λ answer. IfNone answer
            (most < S.count (S.known commits.old))) }
        ensures more { IfOk result (λ answer. IfNone answer ((t : Told) → S.says commits.new t
            → AtLeast (most + 1) (IsAtOrAbove t.history from.0 to.0))) }
        ensures refused { IfErr result (λ e.
            ((from.0 ≢ to.0) × S.may_fail (S.known commits.old) e)
            ⊎ (S.Error.from_gives alloc_error e × ((t : Told) → S.says commits.new t
            → (from.0 ≡ to.0) ⊎ MayLead t.history from.0 to.0))) }
    {
        // The contract of `num_commits` says how many commits the source tells of.
        let _commits = commits.num_commits();
        if from == to {
            if most == 0 {
                return Ok(None);
            }
            let walk = walk_of(self.search.alloc(), from)?;
            return Ok(Some(Reached {
                walk: Some(walk),
                visits: 1,
            }));
        }
        let Some(least) = least_number(commits, from, to)? else {
            return Ok(Some(Reached {
                walk: None,
                visits: 0,
            }));
        };
        let reached = self.search.shortest_walk(commits, from, to, least, most);
        self.search.clear();
        reached
    }

    /// What [`MarkSearcher::is_ancestor_within`] answers.
    pub(crate) fn told_within<S: CommitSource>(
        &mut self,
        commits: &mut S,
        ancestor: Position,
        descendant: Position,
        most: u64,
    ) -> Result<Option<(bool, u32)>, S::Error>
        requires ancestor { ancestor.0 < S.count (S.known commits.old) }
        requires descendant { descendant.0 < S.count (S.known commits.old) }
        ensures known { S.known commits.new ≡ S.known commits.old }
        ensures kept { (t : Told) → S.says commits.new t → S.says commits.old t }
        ensures visits { IfOk result (λ answer. IfSome answer (λ told.
            told.1 ≤ S.count (S.known commits.old))) }
        ensures within { IfOk result (λ answer. IfSome answer (λ told. told.1 ≤ most)) }
        ensures once { IfOk result (λ answer. IfSome answer (λ told. (t : Told)
            → S.says commits.new t
            → AtLeast told.1 (IsAtOrAbove t.history descendant.0 ancestor.0))) }
        ensures none { IfOk result (λ answer. IfSome answer (λ told. (t : Told)
            → S.says commits.new t
            → (descendant.0 ≡ ancestor.0) ⊎ ¬ MayLead t.history descendant.0 ancestor.0
            → told.1 ≡ 0)) }
        ensures yes { IfOk result (λ answer. IfSome answer (λ told. (t : Told)
            → S.says commits.new t → IsTrue told.0
            → LeadsWithin t.history descendant.0 ancestor.0 told.1)) }
        ensures no { IfOk result (λ answer. IfSome answer (λ told. (t : Told)
            → S.says commits.new t → AreSearchable t.history descendant.0 ancestor.0
            → Reaches t.history descendant.0 ancestor.0 → IsTrue told.0)) }
        ensures above { IfOk result (λ answer. IfSome answer (λ told. (t : Told)
            → S.says commits.new t → AreSearchable t.history descendant.0 ancestor.0
            → told.0 ≡ false → AtMost told.1 (IsAbove t.history descendant.0 ancestor.0))) }
        ensures fewer { IfOk result (λ answer. IfNone answer
            (most < S.count (S.known commits.old))) }
        ensures more { IfOk result (λ answer. IfNone answer ((t : Told) → S.says commits.new t
            → AtLeast (most + 1) (IsAtOrAbove t.history descendant.0 ancestor.0))) }
        ensures refused { IfErr result (λ e. (descendant.0 ≢ ancestor.0)
            × (S.may_fail (S.known commits.old) e
            ⊎ (S.Error.from_gives alloc_error e × ((t : Told) → S.says commits.new t
            → MayLead t.history descendant.0 ancestor.0)))) }
    {
        // The contract of `num_commits` says how many commits the source tells of.
        let _commits = commits.num_commits();
        if descendant == ancestor {
            return Ok(Some((true, 0)));
        }
        let Some(least) = least_number(commits, descendant, ancestor)? else {
            return Ok(Some((false, 0)));
        };
        let stack = &mut self.stack;
        let told = self
            .search
            .reaches(commits, stack, descendant, ancestor, least, most);
        self.search.clear();
        told
    }
}

/// The walk of one commit alone.
pub(crate) fn walk_of(alloc: Global, pos: Position) -> Result<Vec<Position>, AllocError>
    ensures { IfOk result (λ walk. walk.items ≡ pos ∷ []) }
{
    Ok(vec![in alloc; pos]?)
}

/// The generation number of a commit, where it allows a walk to it from another commit.
#[tactic(auto, using(crate::proofs::RankedLemmas::searchable_falls))]
fn least_number<S: CommitSource>(
    commits: &mut S,
    from: Position,
    to: Position,
) -> Result<Option<u32>, S::Error>
    requires from { from.0 < S.count (S.known commits.old) }
    requires to { to.0 < S.count (S.known commits.old) }
    requires apart { from.0 ≢ to.0 }
    ensures known { S.known commits.new ≡ S.known commits.old }
    ensures kept { (t : Told) → S.says commits.new t → S.says commits.old t }
    ensures number { IfOk result (λ answer. IfSome answer (λ least. (t : Told)
        → S.says commits.new t → least ≡ generation_at t.history to.0)) }
    ensures above { IfOk result (λ answer. IfSome answer (λ least. (t : Told)
        → S.says commits.new t → least ≤ generation_at t.history from.0)) }
    ensures allowed { IfOk result (λ answer. IfSome answer (λ _. (t : Told)
        → S.says commits.new t → MayLead t.history from.0 to.0)) }
    ensures none { IfOk result (λ answer. IfNone answer ((t : Told) → S.says commits.new t
        → AreSearchable t.history from.0 to.0 → ¬ Reaches t.history from.0 to.0)) }
    ensures below { IfOk result (λ answer. IfNone answer ((t : Told) → S.says commits.new t
        → generation_at t.history from.0 ≤ generation_at t.history to.0)) }
    ensures failed { IfErr result (S.may_fail (S.known commits.old)) }
{
    let above = commits.generation_number(from)?;
    let least = commits.generation_number(to)?;
    if least < above || (above == least && least == GENERATION_NUMBER_MAX) {
        Ok(Some(least))
    } else {
        Ok(None)
    }
}
