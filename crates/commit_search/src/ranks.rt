//! The number by which a search orders commits, or leaves some out.

ghost use Rattle.std.specs.Prelude.{◌≡◌, ◌<◌, IfOk, IfErr};
ghost use Rattle.commit_search.specs.Source.{Told};
ghost use Rattle.commit_search.specs.Ranks.{Ranking, by_generation};

use crate::source::CommitSource;
use graph_format::Position;
use graph_walks::GENERATION_NUMBER_MAX;

/// What tells the rank of each commit of a source: a number that falls along parents, so that a
/// search may go by it. A search for merge bases visits commits with the highest ranks first, and
/// one for an ancestor leaves out those with a lower rank than that. Where each commit below the
/// cap has a greater rank than each of its parents, what the search answers is exact.
///
/// The generation number is such a number, and so is the corrected date: "generation number v1" and
/// "v2" in Git's commit-graph design.
pub trait Ranks<S: CommitSource> {
    /// The ranks, of each history that the source may say.
    ghost ranking: { Self → Told → Ranking };

    /// The greatest rank that there may be. At it the rank may stay as it is along a parent.
    fn cap(&self) -> u64
        ensures { (t : Told) → result ≡ (ranking self.now t).cap };

    /// The rank of the commit at a position.
    ///
    /// # Errors
    ///
    /// A read of the source failed.
    fn rank(&self, commits: &mut S, pos: Position) -> Result<u64, S::Error>
        requires { pos.0 < S.count (S.known commits.old) }
        ensures known { S.known commits.new ≡ S.known commits.old }
        ensures kept { (t : Told) → S.says commits.new t → S.says commits.old t }
        ensures rank { IfOk result (λ rank. (t : Told) → S.says commits.new t
            → rank ≡ (ranking self.now t).rank pos.0) }
        ensures failed { IfErr result (S.may_fail (S.known commits.old)) };
}

/// The generation numbers that a source says, as ranks.
#[derive(Clone, Copy, Debug, PartialEq, Eq)]
pub struct GenerationNumbers;

impl<S: CommitSource> Ranks<S> for GenerationNumbers {
    ghost ranking = { λ _ t. by_generation t.history };

    fn cap(&self) -> u64 {
        u64::from(GENERATION_NUMBER_MAX)
    }

    fn rank(&self, commits: &mut S, pos: Position) -> Result<u64, S::Error> {
        let generation = commits.generation_number(pos)?;
        Ok(u64::from(generation))
    }
}
