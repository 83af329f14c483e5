//! Graphs that are opened and checked.

ghost use Rattle.std.specs.Prelude.{◌≡◌, IfErr, IfOk, Ok};
ghost use Rattle.gix_commitgraph.specs.Sound.{Sound};
ghost use Rattle.graph_commands.specs.OpenerAnswer.{MayOpenIn};
ghost use Rattle.graph_history.specs.RightGraph.{plain_options};
ghost use Rattle.history_commands.specs.Check.{MayRefuseToStart};

use gix_commitgraph::opening::open_in;
use graph_commands::refusal::Refusal;
use graph_folder::folder::Folder;
use graph_history::CheckedGraph;
use std::alloc::Global;

/// Opens the graph at the path, and checks it, as `graphtool verify` does.
///
/// # Errors
///
/// `Open` where no graph was opened, and `Verify` where the check refused it.
pub fn open_checked<T: Folder>(
    alloc: Global,
    folder: &mut T,
    path: &str,
) -> Result<CheckedGraph, Refusal>
    ensures opened { IfOk result (λ graph.
        MayOpenIn T.Folder folder.old folder.new path.now (Ok graph.layers)) }
    ensures right { IfOk result (λ graph. Sound graph.layers) }
    ensures options { IfOk result (λ graph. graph.options ≡ plain_options) }
    ensures refused { IfErr result (MayRefuseToStart
        (MayOpenIn T.Folder folder.old folder.new path.now)) }
    ensures tree { T.tree folder.new ≡ T.tree folder.old }
{
    let graph = open_in(alloc, folder, path)?;
    Ok(CheckedGraph::new(alloc, graph)?)
}
