//! A search depth first, which finds whether there is a walk.

ghost use Rattle.std.specs.Prelude.{◌≡◌, ◌⊎◌, ◌+◌, ◌-◌, ◌<◌, ◌≤◌, ℕ, length, IfOk, IfErr, OnOk};
ghost use Rattle.std.specs.Prelude.{IfSome, IfNone, IsTrue, Contains, alloc_error, false};
ghost use Rattle.graph_walks.specs.History.{generation_at};
ghost use Rattle.graph_walks.specs.Walks.{Reaches};
ghost use Rattle.commit_search.specs.RankedHistory.{NeverRise};
ghost use Rattle.commit_search.specs.Cardinality.{AtLeast, AtMost};
ghost use Rattle.commit_search.specs.WalkAnswer.{IsAbove, IsAtOrAbove, LeadsWithin};
ghost use Rattle.commit_search.specs.Search.{IsIdle, MayBeOfUse};
ghost use Rattle.commit_search.specs.Source.{Told};

use crate::marks::Marks;
use crate::search::Search;
use crate::source::CommitSource;
use graph_format::Position;
use std::alloc::AllocError;

impl<M: Marks> Search<M> {
    /// Whether a walk leads from one commit to another, whose generation number is not above that
    /// of the first, and how many commits were visited, by reading their parents. `None` where more
    /// than so many have to be. First parents are followed first. The stack has the places of the
    /// queue that are yet to be visited; what it held before is of no use.
    pub(crate) fn reaches<S: CommitSource>(
        &mut self,
        commits: &mut S,
        stack: &mut Vec<u32>,
        from: Position,
        to: Position,
        least: u32,
        most: u64,
    ) -> Result<Option<(bool, u32)>, S::Error>
        requires idle { IsIdle self.old }
        requires from { from.0 < S.count (S.known commits.old) }
        requires least { (t : Told) → S.says commits.old t
            → least ≡ generation_at t.history to.0 }
        requires above { MayBeOfUse (S.says commits.old) least from.0 }
        ensures known { S.known commits.new ≡ S.known commits.old }
        ensures kept { (t : Told) → S.says commits.new t → S.says commits.old t }
        ensures visits { IfOk result (λ answer. IfSome answer (λ told.
            told.1 ≤ S.count (S.known commits.old))) }
        ensures within { IfOk result (λ answer. IfSome answer (λ told. told.1 ≤ most)) }
        ensures once { IfOk result (λ answer. IfSome answer (λ told. (t : Told)
            → S.says commits.new t → AtLeast told.1 (IsAtOrAbove t.history from.0 to.0))) }
        ensures yes { IfOk result (λ answer. IfSome answer (λ told. (t : Told)
            → S.says commits.new t → IsTrue told.0
            → LeadsWithin t.history from.0 to.0 told.1)) }
        ensures no { IfOk result (λ answer. IfSome answer (λ told. (t : Told)
            → S.says commits.new t → NeverRise t.history → Reaches t.history from.0 to.0
            → IsTrue told.0)) }
        ensures above { IfOk result (λ answer. IfSome answer (λ told. (t : Told)
            → S.says commits.new t → NeverRise t.history → told.0 ≡ false
            → AtMost told.1 (IsAbove t.history from.0 to.0))) }
        ensures fewer { IfOk result (λ answer. IfNone answer
            (most < S.count (S.known commits.old))) }
        ensures more { IfOk result (λ answer. IfNone answer ((t : Told) → S.says commits.new t
            → AtLeast (most + 1) (IsAtOrAbove t.history from.0 to.0))) }
        ensures failed { IfErr result (λ e. S.may_fail (S.known commits.old) e
            ⊎ S.Error.from_gives alloc_error e) }
    {
        self.begin(commits.num_commits(), from, least)?;
        stack.clear();
        push_places(stack, 0, 1)?;
        let mut visits: u32 = 0;
        while let Some(place) = stack.pop() {
            if self.commit_at(place) == to {
                return Ok(Some((true, visits)));
            }
            if visits as u64 >= most {
                return Ok(None);
            }
            let reached = self.len() as u32;
            self.visit(commits, place)?;
            visits += 1;
            let end = self.len() as u32;
            push_places(stack, reached, end)?;
        }
        Ok(Some((false, visits)))
    }
}

/// Puts the places from one on, up to an end, on a stack, the first of them last.
fn push_places(stack: &mut Vec<u32>, from: u32, end: u32) -> Result<(), AllocError>
    requires { from ≤ end }
    ensures old { OnOk result
        ((place : ℕ) → Contains stack.old.items place → Contains stack.new.items place) }
    ensures new { OnOk result
        ((place : ℕ) → from ≤ place → place < end → Contains stack.new.items place) }
    ensures only { OnOk result ((place : ℕ) → Contains stack.new.items place
        → Contains stack.old.items place ⊎ (place < end)) }
    ensures len { OnOk result
        (length stack.new.items ≡ length stack.old.items + (end - from)) }
{
    for place in (from..end).rev() {
        stack.push(place)?;
    }
    Ok(())
}
