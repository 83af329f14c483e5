//! The check of a graph that is shown, with its further chunks.

ghost use Rattle.std.specs.Prelude.{IfErr, OnOk};
ghost use Rattle.show_commands.specs.Show.{IsRightThroughout, MayFindWrong};

use gix_commitgraph::Graph;
use graph_ancestors::check;
use graph_commands::refusal::Refusal;
use history_commands::{CheckRefusal, check_chunks};
use std::alloc::Global;

/// Checks a graph as the command `check` does: the graph, and then its further chunks.
pub(crate) fn check_throughout(alloc: Global, graph: &Graph) -> Result<(), CheckRefusal>
    ensures right { OnOk result (IsRightThroughout graph.now) }
    ensures refused { IfErr result (MayFindWrong graph.now) }
{
    match check(alloc, graph) {
        Ok(_outcome) => {
            let _found = check_chunks(alloc, graph)?;
            Ok(())
        }
        Err(error) => Err(CheckRefusal::Graph(Refusal::Verify(error))),
    }
}
