//! The check of one layer of a graph.

ghost use Rattle.std.specs.Prelude.{◌≡◌, All, take, OnOk};
ghost use Rattle.std.specs.Result.{result_err};

use crate::Position;
use crate::file::Commit;
use crate::graph::Graph;
use crate::verify::gather::NOTHING;
use crate::verify::span::LayerSpan;
use crate::verify::statistics::Statistics;
use crate::verify::{VerifyError, VerifyOptions};
use graph_layer::faults::layer_fault;
use graph_layer::fields::base_id_at;
use std::alloc::Global;

impl Graph {
    ghost use Rattle.graph_format.specs.StoredHistory.{history_of};
    ghost use Rattle.graph_format.specs.Points.{Agrees};
    ghost use Rattle.graph_layer.specs.Called.{MayBeCalled, CalledOn};
    ghost use Rattle.gix_commitgraph.specs.InGraph.{InGraph};
    ghost use Rattle.gix_commitgraph.specs.Verify.{base_ids_refusal, layer_points, cause_of};
    ghost use Rattle.gix_commitgraph.specs.Statistics.{AreStatistics};
    ghost use Rattle.gix_commitgraph.specs.GraphLaw.{IsInOrder};
    ghost use Rattle.gix_commitgraph.specs.LayerSpans.{IsSpan};

    /// One layer: its base ids, the layer as a whole, and then each commit. Those below it have
    /// passed, so that their ids ascend under exact fans.
    pub(super) fn verify_layer<'a, F, E>(
        &'a self,
        options: VerifyOptions,
        span: LayerSpan<'a>,
        alloc: Global,
        statistics: &mut Statistics,
        processor: &mut F,
    ) -> Result<(), VerifyError<E>>
    where
        F: FnMut(&Commit<'a>) -> Result<(), E>,
        requires span { IsSpan self.now span }
        requires below { All IsInOrder (take span.layer self.now) }
        requires callable { MayBeCalled F.FnMut (InGraph self.now) }
        requires statistics { AreStatistics (take span.start (history_of self.now)) statistics.old }
        ensures agrees { Agrees (CalledOn F.FnMut (InGraph self.now))
            (layer_points options self.now span.entry.layer span.entry.file.now)
            processor.old processor.new cause_of result }
        ensures statistics { OnOk result
            (AreStatistics (take span.entry.stop (history_of self.now)) statistics.new) }
    {
        self.check_bases(span)?;
        if let Some(fault) = layer_fault(span.file) {
            return Err(VerifyError::Layer {
                layer: span.layer,
                fault,
            });
        }
        let tallies = self.tally_lists(span, alloc)?;
        let mut batch = NOTHING;
        for commit in span.file.iter_commits() {
            let layer_pos = commit.position().0;
            let gathered = self.gathered(span, &tallies, layer_pos, &mut batch);
            let pos = Position(span.start + layer_pos);
            let parents = self.verify_commit(options, span, &commit, pos, gathered, processor)?;
            statistics.add(commit.generation(), parents)?;
        }
        Ok(())
    }

    /// Whether the base ids of a layer are the checksums of the layers below it.
    fn check_bases<E>(&self, span: LayerSpan<'_>) -> Result<(), VerifyError<E>>
        requires { IsSpan self.now span }
        ensures { result_err result ≡ base_ids_refusal self.now span.entry.layer
            span.entry.file.now }
    {
        let layer = span.layer;
        let bases = span.file.base_graph_count();
        if bases as usize != layer {
            return Err(VerifyError::BaseCount { layer });
        }
        for index in 0..bases {
            let below = index as usize;
            if base_id_at(span.file, index) != self.files[below].checksum() {
                return Err(VerifyError::BaseId {
                    layer,
                    index: below,
                });
            }
        }
        Ok(())
    }
}
