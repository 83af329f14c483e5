//! A search breadth first, which finds shortest walks.

ghost use Rattle.std.specs.Prelude.{◌≡◌, ◌⊎◌, ◌+◌, ◌<◌, ◌≤◌, ℕ, List, length, IfOk, IfErr, IfSome};
ghost use Rattle.std.specs.Prelude.{IfNone, alloc_error};
ghost use Rattle.graph_walks.specs.History.{Node, generation_at};
ghost use Rattle.graph_walks.specs.Walks.{IsWalkBetween};
ghost use Rattle.commit_search.specs.RankedHistory.{NeverRise};
ghost use Rattle.commit_search.specs.Cardinality.{AtLeast};
ghost use Rattle.commit_search.specs.WalkAnswer.{IsAnyAnswer, IsAnswer, IsAtOrAbove, MayLead};
ghost use Rattle.commit_search.specs.Positions.{numbers_of};
ghost use Rattle.commit_search.specs.Queue.{commit_in, child_in, IsQueue, Depth};
ghost use Rattle.commit_search.specs.Search.{queued_by, IsIdle, MayBeOfUse};
ghost use Rattle.commit_search.specs.Source.{Told};

use crate::Reached;
use crate::ahead::Ahead;
use crate::marks::Marks;
use crate::search::Search;
use crate::source::CommitSource;
use graph_format::Position;
use std::alloc::AllocError;

impl<M: Marks> Search<M> {
    /// A shortest walk from one commit to another, whose generation number is below that of the
    /// first, or at the cap as that is. `None` where more commits than so many have to be visited
    /// for it.
    pub(crate) fn shortest_walk<S: CommitSource>(
        &mut self,
        commits: &mut S,
        from: Position,
        to: Position,
        least: u32,
        most: u64,
    ) -> Result<Option<Reached>, S::Error>
        requires idle { IsIdle self.old }
        requires from { from.0 < S.count (S.known commits.old) }
        requires least { (t : Told) → S.says commits.old t
            → least ≡ generation_at t.history to.0 }
        requires above { MayBeOfUse (S.says commits.old) least from.0 }
        requires allowed { (t : Told) → S.says commits.old t → MayLead t.history from.0 to.0 }
        ensures known { S.known commits.new ≡ S.known commits.old }
        ensures kept { (t : Told) → S.says commits.new t → S.says commits.old t }
        ensures visits { IfOk result (λ answer. IfSome answer (λ reached.
            reached.visits ≤ S.count (S.known commits.old))) }
        ensures within { IfOk result (λ answer. IfSome answer (λ reached.
            reached.visits ≤ most)) }
        ensures answer { IfOk result (λ answer. IfSome answer (λ reached. (t : Told)
            → S.says commits.new t → IsAnyAnswer t.history from.0 to.0 reached)) }
        ensures right { IfOk result (λ answer. IfSome answer (λ reached. (t : Told)
            → S.says commits.new t → NeverRise t.history
            → IsAnswer t.history from.0 to.0 reached)) }
        ensures fewer { IfOk result (λ answer. IfNone answer
            (most < S.count (S.known commits.old))) }
        ensures more { IfOk result (λ answer. IfNone answer ((t : Told) → S.says commits.new t
            → AtLeast (most + 1) (IsAtOrAbove t.history from.0 to.0))) }
        ensures failed { IfErr result (λ e. S.may_fail (S.known commits.old) e
            ⊎ S.Error.from_gives alloc_error e) }
    {
        self.begin(commits.num_commits(), from, least)?;
        let mut ahead = Ahead::new(self.alloc());
        let mut visits: u32 = 0;
        while (visits as usize) < self.len() {
            if visits as u64 >= most {
                return Ok(None);
            }
            let place = visits;
            visits += 1;
            if self.commit_at(place) == to {
                let walk = self.walk_to(place)?;
                return Ok(Some(Reached {
                    walk: Some(walk),
                    visits,
                }));
            }
            let (fields, number) = self.fields_at(commits, place, &mut ahead)?;
            self.visit_known(commits, fields, number, place)?;
        }
        Ok(Some(Reached { walk: None, visits }))
    }

    /// The walk by which the commit at a place of the queue was reached.
    fn walk_to(&self, place: u32) -> Result<Vec<Position>, AllocError>
        requires earlier { (i : ℕ) → 0 < i → i < length (queued_by self.now)
            → child_in (queued_by self.now) i < i }
        requires place { place < length (queued_by self.now) }
        ensures walk { IfOk result (λ w. (history : List Node) (least : ℕ)
            → IsQueue history least (queued_by self.now)
            → IsWalkBetween history (commit_in (queued_by self.now) 0)
            (commit_in (queued_by self.now) place) (numbers_of w.items)) }
        ensures steps { IfOk result (λ w.
            (d : ℕ) × Depth (queued_by self.now) place d × (length w.items ≡ d + 1)) }
    {
        let mut walk = vec![in self.alloc(); self.commit_at(place)]?;
        let mut reached = place;
        while reached > 0 {
            reached = self.child_at(reached);
            walk.push(self.commit_at(reached))?;
        }
        walk.reverse();
        Ok(walk)
    }
}
