//! A source of which a search sees only the commits with high ranks.

ghost use Rattle.std.specs.Prelude.{◌≡◌};
ghost use Rattle.commit_search.specs.RankedHistory.{KnownRanked, seen_told};
ghost use Rattle.commit_search.specs.Source.{Told};

use crate::ranks::Ranks;
use crate::source::CommitSource;
use graph_format::Position;
use graph_format::parents::{ExtraEdge, ParentEdge};

/// The commits of a source, where those below a least rank have the generation number 0. A search
/// for a commit with that rank leaves them out then, as it does those with lower generation
/// numbers.
#[derive(Drop)]
pub(crate) struct Ranked<'a, S, R> {
    pub(crate) commits: &'a mut S,
    pub(crate) ranks: &'a R,
    pub(crate) least: u64,
}

impl<'a, S: CommitSource, R: Ranks<S>> CommitSource for Ranked<'a, S, R> {
    type Error = S::Error;

    ghost Known = { KnownRanked S.Known };

    ghost known = { λ s. record {
      source = S.known s.commits.now;
      ranking = R.ranking s.ranks.now;
      least = s.least;
      commits = s.commits.ghost_name;
    } };

    ghost says = { λ s seen. (t : Told) × S.says s.commits.now t
        × (seen ≡ seen_told (R.ranking s.ranks.now t) s.least t) };

    ghost count = { λ k. S.count k.source };

    ghost lies = { λ k p l. S.lies k.source p l };

    ghost words = { λ k l. S.words k.source l };

    ghost is_listed = { λ k p index. S.is_listed k.source p index };

    ghost may_fail = { λ k error. S.may_fail k.source error };

    fn num_commits(&self) -> u32 {
        self.commits.num_commits()
    }

    fn generation_number(&mut self, pos: Position) -> Result<u32, S::Error> {
        let rank = self.ranks.rank(self.commits, pos)?;
        if rank < self.least {
            return Ok(0);
        }
        self.commits.generation_number(pos)
    }

    fn parent_fields(&mut self, pos: Position) -> Result<(ParentEdge, ParentEdge), S::Error> {
        self.commits.parent_fields(pos)
    }

    fn layer_of(&self, pos: Position) -> usize {
        self.commits.layer_of(pos)
    }

    fn words_of(&self, pos: Position, layer: usize, index: u32) -> u32 {
        self.commits.words_of(pos, layer, index)
    }

    fn listed_parent(
        &mut self,
        pos: Position,
        layer: usize,
        index: u32,
    ) -> Result<ExtraEdge, S::Error> {
        self.commits.listed_parent(pos, layer, index)
    }
}
