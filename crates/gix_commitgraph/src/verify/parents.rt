//! The parents of a commit: their number and greatest generation number, or why they are refused.

ghost use Rattle.std.specs.Prelude.{◌≡◌, None, Some, IfOk};
ghost use Rattle.std.specs.Result.{result_err};

use crate::Position;
use crate::file::Commit;
use crate::graph::Graph;
use crate::verify::VerifyError;
use crate::verify::span::LayerSpan;

/// The number of a commit's parents, and the greatest of their generation numbers.
#[derive(Clone, Copy)]
pub(super) struct ParentTally {
    pub(super) count: u32,
    pub(super) max_generation: u32,
}

impl Graph {
    ghost use Rattle.graph_layer.specs.Commit.{commit_pos};
    ghost use Rattle.graph_format.specs.StoredHistory.{history_of};
    ghost use Rattle.gix_commitgraph.specs.Verify.{parents_refusal};
    ghost use Rattle.gix_commitgraph.specs.Tallies.{IsParentTally, IsGathered};
    ghost use Rattle.gix_commitgraph.specs.LayerSpans.{IsSpan, IsInSpan};

    /// The parents of a commit, as they were gathered, or why they are refused.
    pub(super) fn tally_parents<E>(
        &self,
        span: LayerSpan<'_>,
        commit: &Commit<'_>,
        pos: Position,
        gathered: Option<ParentTally>,
    ) -> Result<ParentTally, VerifyError<E>>
        requires span { IsSpan self.now span }
        requires commit { IsInSpan span commit.now pos.0 }
        requires gathered { IsGathered self.now span (commit_pos commit.now) gathered }
        ensures refusal { result_err result
            ≡ parents_refusal self.now span.entry.layer span.entry.file.now
            (commit_pos commit.now) }
        ensures parents { IfOk result (IsParentTally (history_of self.now) pos.0) }
    {
        match gathered {
            Some(parents) => Ok(parents),
            None => Err(self.refused_parent(span, commit, pos)),
        }
    }

    /// The refusal of a commit's first parent that cannot be decoded, or does not stand below the
    /// end of its layer.
    fn refused_parent<E>(
        &self,
        span: LayerSpan<'_>,
        commit: &Commit<'_>,
        pos: Position,
    ) -> VerifyError<E>
        requires span { IsSpan self.now span }
        requires commit { IsInSpan span commit.now pos.0 }
        requires refused { IsGathered self.now span (commit_pos commit.now) None }
        ensures { Some result
            ≡ parents_refusal self.now span.entry.layer span.entry.file.now
            (commit_pos commit.now) }
    {
        for parent in commit.iter_parents() {
            match parent {
                Err(error) => return VerifyError::Parent { pos, error },
                Ok(parent) => {
                    if parent.0 >= span.stop {
                        return VerifyError::ParentOutOfRange { pos, parent };
                    }
                }
            }
        }
        unreachable!()
    }
}
