//! Opening a graph and checking it.

ghost use Rattle.std.specs.Prelude.{IfErr, IfOk};
ghost use Rattle.gix_commitgraph.specs.OpenAlways.{IsFromPath};
ghost use Rattle.gix_commitgraph.specs.Sound.{Sound};
ghost use Rattle.graph_uses.specs.PathRefusals.{MayRefusePath};

use crate::error::QueryError;
use gix_commitgraph::Graph;
use graph_history::CheckedGraph;
use std::alloc::Global;
use std::rt::Files;

/// Opens the commit-graph at a path of the file system, and checks it.
///
/// The error is `Open` where no graph was opened, and `Check` where the check refused the graph. A
/// failed allocation is one of these two, with `OutOfMemory` inside.
pub fn open_checked<R: Files>(rt: &R, alloc: Global, path: &str) -> Result<CheckedGraph, QueryError>
    ensures from { IfOk result (λ graph. IsFromPath path.now graph.layers) }
    ensures right { IfOk result (λ graph. Sound graph.layers) }
    ensures refused { IfErr result (MayRefusePath path.now) }
{
    let graph = Graph::at(rt, alloc, path).map_err(QueryError::Open)?;
    CheckedGraph::new(alloc, graph).map_err(QueryError::Check)
}
