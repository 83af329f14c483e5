//! The layers of a graph, each with the positions of its commits.

ghost use Rattle.std.specs.Prelude.{◌≡◌, ◌<◌, length};

use crate::Position;
use crate::file::{self, File};
use crate::graph::Graph;

/// A layer of a graph, and the positions of its commits there.
#[derive(Clone, Copy)]
pub(super) struct LayerSpan<'a> {
    pub(super) file: &'a File,
    /// How many layers are below it.
    pub(super) layer: usize,
    /// The position of its first commit, and the one after its last.
    pub(super) start: u32,
    pub(super) stop: u32,
    /// A position of the graph below which no two commits have one id.
    pub(super) distinct: u32,
}

impl Graph {
    ghost use Rattle.graph_walks.specs.History.{generation_at};
    ghost use Rattle.graph_format.specs.StoredHistory.{history_of};
    ghost use Rattle.gix_commitgraph.specs.LayerSpans.{IsSpan};
    ghost use Rattle.gix_commitgraph.specs.Distinct.{AreDistinctBelow};

    /// The layer of this number, with a position below which no two commits have one id.
    pub(super) fn span_at(&self, layer: usize, distinct: u32) -> LayerSpan<'_>
        requires layer { layer < length self.now }
        requires distinct { AreDistinctBelow self.now distinct }
        ensures span { IsSpan self.now result }
        ensures layer { result.layer ≡ layer }
    {
        let file = &self.files[layer];
        let start = self.starts[layer];
        LayerSpan {
            file,
            layer,
            start,
            stop: start + file.num_commits(),
            distinct,
        }
    }

    /// The generation number of a commit that stands below the end of this layer. One that stands
    /// in it is read there.
    pub(super) fn generation_at(&self, span: LayerSpan<'_>, pos: Position) -> u32
        requires span { IsSpan self.now span }
        requires below { pos.0 < span.stop }
        ensures { result ≡ generation_at (history_of self.now) pos.0 }
    {
        if pos.0 >= span.start {
            let layer_pos = file::Position(pos.0 - span.start);
            span.file.commit_at(layer_pos).generation()
        } else {
            self.commit_at(pos).generation()
        }
    }
}
