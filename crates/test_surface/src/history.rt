//! Graphs that were checked, and the query for an ancestor.

ghost use Rattle.std.specs.Prelude.{◌↔◌, ◌<◌, IfOk, IsTrue};
ghost use Rattle.commit_search.specs.WalkAnswer.{IsAnswer};
ghost use Rattle.gix_commitgraph.specs.Graph.{total};
ghost use Rattle.gix_commitgraph.specs.StoredHistory.{history_of};
ghost use Rattle.gix_commitgraph.specs.Walks.{Reaches};

use crate::bounds;
use gix_commitgraph::verify::{Outcome, VerifyError, VerifyOptions};
use gix_commitgraph::{Graph, Position};
use graph_history::{Checked, NoFault, Reached, Searcher};
use std::alloc::{AllocError, Global};

fn new<'g>(alloc: Global, graph: &'g Graph) -> Result<Checked<'g>, VerifyError<NoFault>> {
    bounds::droppable::<Checked<'g>>();
    Checked::new(alloc, graph)
}

fn new_with<'g>(
    alloc: Global,
    options: VerifyOptions,
    graph: &'g Graph,
) -> Result<Checked<'g>, VerifyError<NoFault>> {
    Checked::new_with(alloc, options, graph)
}

/// The graph outlives the `Checked`.
fn graph<'g>(checked: &Checked<'g>) -> &'g Graph {
    Checked::graph(checked)
}

fn outcome<'c>(checked: &'c Checked<'_>) -> &'c Outcome {
    Checked::outcome(checked)
}

fn options(checked: &Checked<'_>) -> VerifyOptions {
    Checked::options(checked)
}

fn searcher<'g>(checked: &Checked<'g>, alloc: Global) -> Searcher<'g> {
    Checked::searcher(checked, alloc)
}

fn is_ancestor(
    checked: &Checked<'_>,
    alloc: Global,
    ancestor: Position,
    descendant: Position,
) -> Result<bool, AllocError>
    requires ancestor { ancestor.0 < total checked.now.layers }
    requires descendant { descendant.0 < total checked.now.layers }
    ensures { IfOk result (λ found.
        IsTrue found ↔ Reaches (history_of checked.now.layers) descendant.0 ancestor.0) }
{
    Checked::is_ancestor(checked, alloc, ancestor, descendant)
}

fn ancestor_walk(
    checked: &Checked<'_>,
    alloc: Global,
    from: Position,
    to: Position,
) -> Result<Reached, AllocError>
    requires from { from.0 < total checked.now.layers }
    requires to { to.0 < total checked.now.layers }
    ensures { IfOk result (IsAnswer (history_of checked.now.layers) from.0 to.0) }
{
    Checked::ancestor_walk(checked, alloc, from, to)
}

fn reached(answer: Reached) -> (Option<Vec<Position>>, u32) {
    bounds::shown::<Reached>();
    let Reached { walk, visits } = answer;
    (walk, visits)
}

fn no_fault() -> NoFault {
    bounds::plain::<NoFault>();
    NoFault
}
