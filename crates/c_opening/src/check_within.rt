//! A check that a limit stops.

ghost use Rattle.std.specs.Prelude.{◌≡◌, ◌≢◌, ◌⊎◌, ◌≤◌, IfNone, IfSome, IsSomeAnd};
ghost use Rattle.std.specs.Prelude.{None, Some, true};
ghost use Rattle.gix_commitgraph.specs.Distinct.{IsSoundWith};
ghost use Rattle.gix_commitgraph.specs.Graph.{total};
ghost use Rattle.c_opening.specs.Files.{told_graph};
ghost use Rattle.c_opening.specs.ToldLimit.{told_bound};
ghost use Rattle.c_opening.specs.Verdict.{TellsRefusalWithin, TellsCounts, TellsStats};
ghost use Rattle.c_opening.specs.Verdict.{closed_verdict, options_of, told_unopened};

use crate::check::{CgCount, CgVerdict, refused, wrong};
use crate::codes::CLOSED_GRAPH;
use crate::flags::CgLimit;
use crate::handle::CgOwner;
use crate::open::hand_out;
use gix_commitgraph::GraphError;
use gix_commitgraph::verify::VerifyOptions;
use graph_history::CheckedGraph;
use std::alloc::Global;

/// Checks an open graph as `cg_check` does, unless the limit stops the check. None is left where
/// the graph that is passed was, also where the check is stopped, and it is freed then.
pub fn cg_check_within(
    alloc: Global,
    graph: &mut CgOwner,
    distinct_ids: bool,
    limit: CgLimit,
    verdict: &mut CgVerdict,
    counts: &mut [CgCount],
    out: &mut CgOwner,
) -> u32
    ensures code { result ≡ verdict.new.code }
    ensures taken { graph.new.address.held ≡ None }
    ensures opened { result ≡ 0 → IsSomeAnd graph.old.address.held (λ was.
        out.new.address.held ≡ Some (was.0, true)) }
    ensures right { result ≡ 0 → IsSomeAnd graph.old.address.held (λ was.
        IsSoundWith (options_of distinct_ids) was.0) }
    ensures within { result ≡ 0 → IsSomeAnd graph.old.address.held (λ was.
        total was.0 ≤ limit.visits) }
    ensures verdict { result ≡ 0 → IsSomeAnd graph.old.address.held (λ was.
        TellsStats was.0 verdict.new × TellsCounts was.0 verdict.new counts.old counts.new) }
    ensures refused { result ≢ 0 → IfSome graph.old.address.held (λ was.
        TellsRefusalWithin (told_bound limit) (options_of distinct_ids) was.0 verdict.new
        ⊎ (verdict.new ≡ told_unopened (told_graph GraphError.OutOfMemory))) }
    ensures closed { IfNone graph.old.address.held (verdict.new ≡ closed_verdict) }
    ensures kept { result ≢ 0 → (out.new ≡ out.old) × (counts.new ≡ counts.old) }
{
    let Some(opened) = graph.take(alloc) else {
        *verdict = refused(CLOSED_GRAPH);
        return CLOSED_GRAPH;
    };
    let unchecked = Box::into_inner(opened).into_graph();
    let options = VerifyOptions { distinct_ids };
    match CheckedGraph::new_within(alloc, options, unchecked, limit.limit()) {
        Ok(checked) => hand_out(alloc, checked, verdict, counts, out).code,
        Err(refusal) => {
            *verdict = wrong(refusal);
            verdict.code
        }
    }
}
