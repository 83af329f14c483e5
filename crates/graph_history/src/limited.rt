//! A source of commits that a limit stops.

ghost use Rattle.std.specs.Prelude.{◌≡◌, ℕ};
ghost use Rattle.commit_search.specs.Source.{Told};
ghost use Rattle.graph_history.specs.Limits.{IfSource};

use crate::limit::{Limit, LimitError};
use commit_search::CommitSource;
use gix_commitgraph::Position;
use gix_commitgraph::file::commit::{ExtraEdge, ParentEdge};

/// A source that says what another one does, until a limit stops it. A search visits a commit by
/// reading its parents, so it is stopped there.
#[derive(Drop)]
pub(crate) struct Limited<'f, S> {
    commits: S,
    limit: Limit<'f>,
    /// Of how many commits the parents were read.
    visits: u64,
}

impl<'f, S: CommitSource> Limited<'f, S> {
    /// These commits, of which none was visited.
    pub(crate) fn new(commits: S, limit: Limit<'f>) -> Limited<'f, S>
        ensures { result.commits ≡ commits }
    {
        Limited {
            commits,
            limit,
            visits: 0,
        }
    }
}

impl<'f, S: CommitSource> CommitSource for Limited<'f, S> {
    type Error = LimitError<S::Error>;

    ghost Known = { S.Known };

    ghost known = { λ l. S.known l.commits };

    ghost says = { λ l t. S.says l.commits t };

    ghost count = { S.count };

    ghost lies = { S.lies };

    ghost words = { S.words };

    ghost is_listed = { S.is_listed };

    ghost may_fail = { λ k e. IfSource (S.may_fail k) e };

    fn num_commits(&self) -> u32 {
        self.commits.num_commits()
    }

    fn generation_number(&mut self, pos: Position) -> Result<u32, LimitError<S::Error>> {
        match self.commits.generation_number(pos) {
            Ok(number) => Ok(number),
            Err(error) => Err(LimitError::Source(error)),
        }
    }

    fn parent_fields(
        &mut self,
        pos: Position,
    ) -> Result<(ParentEdge, ParentEdge), LimitError<S::Error>> {
        if self.limit.stops_after(self.visits) {
            return Err(LimitError::Stopped);
        }
        self.visits = self.visits.saturating_add(1);
        match self.commits.parent_fields(pos) {
            Ok(fields) => Ok(fields),
            Err(error) => Err(LimitError::Source(error)),
        }
    }

    fn layer_of(&self, pos: Position) -> usize {
        self.commits.layer_of(pos)
    }

    fn words_of(&self, pos: Position, layer: usize, index: u32) -> u32 {
        self.commits.words_of(pos, layer, index)
    }

    fn listed_parent(
        &mut self,
        pos: Position,
        layer: usize,
        index: u32,
    ) -> Result<ExtraEdge, LimitError<S::Error>> {
        match self.commits.listed_parent(pos, layer, index) {
            Ok(word) => Ok(word),
            Err(error) => Err(LimitError::Source(error)),
        }
    }
}
