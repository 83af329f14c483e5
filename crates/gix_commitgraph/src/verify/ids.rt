//! The check of the ids of one commit of a graph.

ghost use Rattle.std.specs.Prelude.{◌≡◌, ◌≤◌, All, length, take, option_map};
ghost use Rattle.std.specs.Result.{result_err};
ghost use Rattle.gix_hash_core.specs.Oid.{oid_bytes};

use crate::Position;
use crate::file::Commit;
use crate::graph::Graph;
use crate::verify::span::LayerSpan;
use crate::verify::{VerifyError, VerifyOptions};
use gix_hash_core::oid;
use graph_layer::faults::{id_fault, tree_fault};

impl Graph {
    ghost use Rattle.graph_format.specs.Lookup.{scan};
    ghost use Rattle.graph_layer.specs.Commit.{commit_pos};
    ghost use Rattle.gix_commitgraph.specs.Graph.{graph_ids};
    ghost use Rattle.gix_commitgraph.specs.GraphLaw.{IsInOrder};
    ghost use Rattle.gix_commitgraph.specs.LayerSpans.{IsSpan, IsInSpan};
    ghost use Rattle.gix_commitgraph.specs.Verify.{duplicate_refusal, commit_ids_refusal};

    /// The ids of a commit: its own, which no layer below has where that is asked, and that of its
    /// root tree.
    pub(super) fn check_ids<E>(
        &self,
        options: VerifyOptions,
        span: LayerSpan<'_>,
        commit: &Commit<'_>,
        pos: Position,
    ) -> Result<(), VerifyError<E>>
        requires span { IsSpan self.now span }
        requires commit { IsInSpan span commit.now pos.0 }
        requires below { All IsInOrder (take span.layer self.now) }
        ensures { result_err result
            ≡ commit_ids_refusal options self.now span.entry.layer span.entry.file.now
            (commit_pos commit.now) }
    {
        if let Some(fault) = id_fault(commit) {
            return Err(VerifyError::Commit { pos, fault });
        }
        if options.distinct_ids {
            self.check_distinct(span, commit, pos)?;
        }
        match tree_fault(commit) {
            Some(fault) => Err(VerifyError::Commit { pos, fault }),
            None => Ok(()),
        }
    }

    /// Whether the id of a commit stands in a layer below. It is looked for only from the position
    /// on below which no two commits have one id.
    fn check_distinct<E>(
        &self,
        span: LayerSpan<'_>,
        commit: &Commit<'_>,
        pos: Position,
    ) -> Result<(), VerifyError<E>>
        requires span { IsSpan self.now span }
        requires commit { IsInSpan span commit.now pos.0 }
        requires below { All IsInOrder (take span.layer self.now) }
        ensures { result_err result
            ≡ duplicate_refusal self.now span.entry.layer span.entry.file.now
            (commit_pos commit.now) }
    {
        if pos.0 < span.distinct {
            return Ok(());
        }
        match self.find_below(commit.id(), span.layer) {
            Some(earlier) => Err(VerifyError::DuplicateId { pos, earlier }),
            None => Ok(()),
        }
    }

    /// The least position of an id in the layers below this one. They are ordered, so that a lookup
    /// in each is a plain scan.
    fn find_below(&self, id: oid<'_>, layer: usize) -> Option<Position>
        requires layer { layer ≤ length self.now }
        requires below { All IsInOrder (take layer self.now) }
        ensures { option_map (λ pos. pos.0) result
            ≡ scan (graph_ids (take layer self.now)) (oid_bytes id.entry) }
    {
        let found = self.find(id, id.kind(), layer)?;
        Some(Position(found.start + found.pos.0))
    }
}
