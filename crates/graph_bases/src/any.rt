//! Comparisons of commits that any source gives.

ghost use Rattle.std.specs.Prelude.{◌≡◌, ◌⊎◌, ◌<◌, ◌≤◌, ◌*◌, All, IfOk, IfErr, alloc_error, length};
ghost use Rattle.graph_walks.specs.Walks.{CountWalks};
ghost use Rattle.commit_search.specs.Source.{Told};
ghost use Rattle.commit_search.specs.Positions.{numbers_of};
ghost use Rattle.graph_bases.specs.Bases.{IsCommonAncestor};
ghost use Rattle.graph_bases.specs.Comparison.{IsComparisonBy, IsComparisonIn};
ghost use Rattle.graph_bases.specs.Paint.{AreIdle};
ghost use Rattle.commit_search.specs.Ranks.{FallsAlongParents};

use crate::bases::{Bases, Comparison};
use crate::law::generation_numbers_fall_along_parents;
use crate::paint::Coats;
use crate::painting::paint_from;
use crate::sheet::CoatTable;
use crate::tables::{AllCoats, FewCoats};
use commit_search::{CommitSource, GenerationNumbers, Ranks};
use graph_format::Position;
use std::alloc::{AllocError, Global};
use std::marker::Model;

/// Compares commits of any source, and keeps its memory from one call to the next, where the source
/// has as many commits: two bytes for each of them, asked for at the first call, or some twenty for
/// each that a call reaches; and, of the layers whose extra edge lists a call has read, a byte for
/// each word of the list and a few for each commit with more than two parents. What a call marks
/// there is cleared after it, and no more than that.
///
/// Where the generation numbers that a source says are right, the answers are exact; so they are
/// where other ranks by which a call goes fall along parents. Where they are not, a call ends all
/// the same, and each merge base that it answers is a common ancestor. A contract speaks of all
/// that the source may say once the call is over: of each history with which all agrees that was
/// read of it.
#[derive(Drop)]
pub struct CoatComparer<T: CoatTable> {
    alloc: Global,
    /// The coats of all commits, idle between calls.
    coats: Option<Coats<T>>,
}

impl<T: CoatTable> Model for CoatComparer<T> {
    ghost use Rattle.std.specs.Prelude.{IfSome, length};
    ghost use Rattle.graph_bases.specs.Paint.{AreIdle};

    ghost Value = { Unit {0} };

    ghost view = { λ _. tt };

    ghost invariant = { λ a. IfSome a.coats (λ c. AreIdle (length c.all) c) };
}

/// Compares commits of any source, with two bytes for each of its commits.
pub type AnyComparer = CoatComparer<AllCoats>;

/// Compares commits of any source where a call reaches few of its commits: it takes no memory for
/// the others.
pub type FewComparer = CoatComparer<FewCoats>;

impl<T: CoatTable> CoatComparer<T> {
    /// A comparer. Nothing is allocated yet.
    pub fn new(alloc: Global) -> CoatComparer<T> {
        CoatComparer { alloc, coats: None }
    }

    /// The merge bases of a commit and some others, and how far they have come apart, at positions
    /// that are below the source's `num_commits()`.
    ///
    /// The search visits commits with the highest generation numbers first, until none is left but
    /// ancestors of common ancestors. It visits a commit again each time that more is found out
    /// about it, three times at most.
    ///
    /// # Errors
    ///
    /// A read of the source failed, or an allocation. Further calls may be made, and the first asks
    /// for the memory again.
    pub fn compare<S: CommitSource>(
        &mut self,
        commits: &mut S,
        first: Position,
        others: &[Position],
    ) -> Result<Comparison, S::Error>
        requires first { first.0 < S.count (S.known commits.old) }
        requires others { All (λ other. other.0 < S.count (S.known commits.old)) others.now }
        ensures known { S.known commits.new ≡ S.known commits.old }
        ensures kept { (t : Told) → S.says commits.new t → S.says commits.old t }
        ensures within { IfOk result (λ c.
            All (λ base. base.0 < S.count (S.known commits.old)) c.bases.positions.items) }
        ensures visits { IfOk result (λ c. c.bases.visits ≤ 3 * S.count (S.known commits.old)) }
        ensures common { IfOk result (λ c. (t : Told) → S.says commits.new t
            → All (λ base. IsCommonAncestor t.history first.0 (numbers_of others.now) base.0)
            c.bases.positions.items) }
        ensures exact { IfOk result (λ c. (t : Told) → S.says commits.new t
            → CountWalks t.history
            → IsComparisonIn t.history first.0 (numbers_of others.now) c) }
        ensures refused { IfErr result (λ e. S.may_fail (S.known commits.old) e
            ⊎ S.Error.from_gives alloc_error e) }
    {
        generation_numbers_fall_along_parents();
        self.compare_by(commits, &GenerationNumbers, first, others)
    }

    /// What [`CoatComparer::compare`] answers, by a search that visits commits with the highest
    /// ranks first, whatever these are: see [`Ranks`].
    ///
    /// # Errors
    ///
    /// Those of [`CoatComparer::compare`].
    pub fn compare_by<S: CommitSource, R: Ranks<S>>(
        &mut self,
        commits: &mut S,
        ranks: &R,
        first: Position,
        others: &[Position],
    ) -> Result<Comparison, S::Error>
        requires first { first.0 < S.count (S.known commits.old) }
        requires others { All (λ other. other.0 < S.count (S.known commits.old)) others.now }
        ensures known { S.known commits.new ≡ S.known commits.old }
        ensures kept { (t : Told) → S.says commits.new t → S.says commits.old t }
        ensures within { IfOk result (λ c.
            All (λ base. base.0 < S.count (S.known commits.old)) c.bases.positions.items) }
        ensures visits { IfOk result (λ c. c.bases.visits ≤ 3 * S.count (S.known commits.old)) }
        ensures common { IfOk result (λ c. (t : Told) → S.says commits.new t
            → All (λ base. IsCommonAncestor t.history first.0 (numbers_of others.now) base.0)
            c.bases.positions.items) }
        ensures exact { IfOk result (λ c. (t : Told) → S.says commits.new t
            → FallsAlongParents t.history (R.ranking ranks.now t)
            → IsComparisonBy t.history (R.ranking ranks.now t) first.0 (numbers_of others.now)
            c) }
        ensures refused { IfErr result (λ e. S.may_fail (S.known commits.old) e
            ⊎ S.Error.from_gives alloc_error e) }
    {
        let coats = self.coats_for(commits.num_commits())?;
        let (comparison, coats) = compared(self.alloc, coats, commits, ranks, first, others)?;
        self.coats = Some(coats);
        Ok(comparison)
    }

    /// Idle coats of so many commits, which are no longer kept.
    fn coats_for(&mut self, commits: u32) -> Result<Coats<T>, AllocError>
        ensures { IfOk result (AreIdle commits) }
    {
        if let Some(coats) = self.coats.take() {
            if coats.len() == commits as usize {
                return Ok(coats);
            }
        }
        Coats::new(self.alloc, commits)
    }
}

/// What a commit and some others have in common, and how far they have come apart; and the coats,
/// which are idle before and after.
fn compared<T: CoatTable, S: CommitSource, R: Ranks<S>>(
    alloc: Global,
    coats: Coats<T>,
    commits: &mut S,
    ranks: &R,
    first: Position,
    others: &[Position],
) -> Result<(Comparison, Coats<T>), S::Error>
    requires idle { AreIdle (S.count (S.known commits.old)) coats }
    requires first { first.0 < S.count (S.known commits.old) }
    requires others { All (λ other. other.0 < S.count (S.known commits.old)) others.now }
    ensures known { S.known commits.new ≡ S.known commits.old }
    ensures kept { (t : Told) → S.says commits.new t → S.says commits.old t }
    ensures within { IfOk result (λ answer. All (λ base. base.0 < S.count (S.known commits.old))
        answer.0.bases.positions.items) }
    ensures visits { IfOk result (λ answer.
        answer.0.bases.visits ≤ 3 * S.count (S.known commits.old)) }
    ensures common { IfOk result (λ answer. (t : Told) → S.says commits.new t
        → All (λ base. IsCommonAncestor t.history first.0 (numbers_of others.now) base.0)
        answer.0.bases.positions.items) }
    ensures exact { IfOk result (λ answer. (t : Told) → S.says commits.new t
        → FallsAlongParents t.history (R.ranking ranks.now t)
        → IsComparisonBy t.history (R.ranking ranks.now t) first.0 (numbers_of others.now)
        answer.0) }
    ensures idle { IfOk result (λ answer. AreIdle (length answer.1.all) answer.1) }
    ensures refused { IfErr result (λ e. S.may_fail (S.known commits.old) e
        ⊎ S.Error.from_gives alloc_error e) }
{
    let mut painting = paint_from(alloc, coats, commits, ranks, first, others)?;
    let divergence = painting.divergence();
    let visits = painting.visits();
    let positions = painting.bases(alloc)?;
    let bases = Bases { positions, visits };
    let comparison = Comparison { bases, divergence };
    Ok((comparison, painting.into_coats()))
}
