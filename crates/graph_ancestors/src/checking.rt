//! The check of a graph before it is asked.

ghost use Rattle.std.specs.Prelude.{IfErr, IfOk};
ghost use Rattle.graph_format.specs.StoredHistory.{history_of};
ghost use Rattle.gix_commitgraph.specs.Headline.{Stats};
ghost use Rattle.gix_commitgraph.specs.Sound.{Sound};
ghost use Rattle.gix_commitgraph.specs.Verify.{Summarizes};
ghost use Rattle.graph_ancestors.specs.RefusedGraph.{MayRefuseGraph};

use gix_commitgraph::Graph;
use gix_commitgraph::file::Commit;
use gix_commitgraph::verify::{Outcome, VerifyError};
use std::alloc::Global;

/// The error of a processor that accepts each commit: it never comes.
#[derive(Clone, Copy, Debug, PartialEq, Eq)]
pub struct NoFault;

/// Checks a graph with [`Graph::verify_integrity`], and accepts each commit. What comes back are
/// the statistics of a right graph.
///
/// # Errors
///
/// The first check that fails, in the order of [`Graph::verify_integrity`], or `OutOfMemory` where
/// an allocation failed; never `Processor`.
pub fn check(alloc: Global, graph: &Graph) -> Result<Outcome, VerifyError<NoFault>>
    // Only a graph that is right is accepted, and a right one is refused only where an allocation
    // failed.
    ensures sound { IfOk result (λ _. Sound graph.now) }
    ensures refusal { IfErr result (MayRefuseGraph graph.now) }

    // The statistics are exact.
    ensures statistics { IfOk result (Stats graph.now) }
    ensures summary { IfOk result (Summarizes (history_of graph.now)) }
{
    graph.verify_integrity(alloc, &mut |_: &Commit<'_>| Ok(()))
}
