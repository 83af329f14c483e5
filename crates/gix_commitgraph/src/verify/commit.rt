//! The check of one commit of a graph.

ghost use Rattle.std.specs.Prelude.{◌≡◌, All, length, take, IfOk};
ghost use Rattle.std.specs.Fn.{TakesAt};

use crate::file::Commit;
use crate::graph::Graph;
use crate::verify::parents::ParentTally;
use crate::verify::span::LayerSpan;
use crate::verify::{VerifyError, VerifyOptions};
use crate::{GENERATION_NUMBER_MAX, Position};

impl Graph {
    ghost use Rattle.graph_layer.specs.Commit.{commit_pos};
    ghost use Rattle.graph_walks.specs.History.{parents_at};
    ghost use Rattle.graph_format.specs.StoredHistory.{history_of};
    ghost use Rattle.graph_format.specs.Points.{Agrees};
    ghost use Rattle.graph_layer.specs.Called.{CalledOn};
    ghost use Rattle.gix_commitgraph.specs.InGraph.{InGraph};
    ghost use Rattle.gix_commitgraph.specs.Verify.{commit_points, cause_of};
    ghost use Rattle.gix_commitgraph.specs.Tallies.{IsGathered};
    ghost use Rattle.gix_commitgraph.specs.GraphLaw.{IsInOrder};
    ghost use Rattle.gix_commitgraph.specs.LayerSpans.{IsSpan, IsInSpan};

    /// One commit: its ids, its parents, its generation number, the processor. The answer is the
    /// number of its parents. They are decoded only where they are refused, to say why.
    pub(super) fn verify_commit<'a, F, E>(
        &'a self,
        options: VerifyOptions,
        span: LayerSpan<'a>,
        commit: &Commit<'a>,
        pos: Position,
        gathered: Option<ParentTally>,
        processor: &mut F,
    ) -> Result<u32, VerifyError<E>>
    where
        F: FnMut(&Commit<'a>) -> Result<(), E>,
        requires span { IsSpan self.now span }
        requires commit { IsInSpan span commit.now pos.0 }
        requires gathered { IsGathered self.now span (commit_pos commit.now) gathered }
        requires below { All IsInOrder (take span.layer self.now) }
        requires callable { (state : F) → TakesAt F.FnMut state commit.now }
        ensures agrees { Agrees (CalledOn F.FnMut (InGraph self.now))
            (commit_points options self.now span.entry.layer span.entry.file.now
            (commit_pos commit.now))
            processor.old processor.new cause_of result }
        ensures parents { IfOk result (λ parents.
            parents ≡ length (parents_at (history_of self.now) pos.0)) }
    {
        self.check_ids(options, span, commit, pos)?;
        let parents = self.tally_parents(span, commit, pos, gathered)?;
        let expected = parents
            .max_generation
            .saturating_add(1)
            .min(GENERATION_NUMBER_MAX);
        if commit.generation() != expected {
            return Err(VerifyError::Generation { pos, expected });
        }
        if let Err(error) = processor(commit) {
            return Err(VerifyError::Processor { pos, error });
        }
        Ok(parents.count)
    }
}
