//! Going over all ancestors of a commit.

ghost use Rattle.std.specs.Prelude.{◌<◌, All, IfOk, OnErr, OnOk, vec_len};
ghost use Rattle.std.specs.BinaryHeap.{heap_items};
ghost use Rattle.gix_hash_core.specs.Oid.{oid_bytes};
ghost use Rattle.gix_commitgraph.specs.Graph.{total};
ghost use Rattle.gix_commitgraph.specs.StoredHistory.{history_of};
ghost use Rattle.commit_search.specs.Positions.{numbers_of};
ghost use Rattle.graph_uses.specs.IdAnswers.{AreAncestorIds, AreAncestors, HasCommitWithId};
ghost use Rattle.graph_uses.specs.Walking.{Enqueues};

use crate::ids::ids_of;
use gix_commitgraph::Position;
use gix_commitgraph::law::walk::{
    generations_never_rise_along_walks, the_history_of_a_graph_is_that_of_its_layers,
};
use gix_hash_core::{ObjectId, oid};
use graph_history::Checked;
use std::alloc::{AllocError, Global};
use std::collections::BinaryHeap;

/// The ids of the commit with an id and of all its ancestors, each once, the greatest generation
/// number first: so each commit comes before its parents, unless it is at the cap. None where the
/// graph has no such commit. The error is that an allocation failed; it comes only where the graph
/// has that commit.
pub fn ancestors(
    alloc: Global,
    graph: &Checked<'_>,
    id: oid<'_>,
) -> Result<Vec<ObjectId>, AllocError>
    ensures answer { IfOk result (λ ids.
        AreAncestorIds graph.now.layers (oid_bytes id.entry) ids.items) }
    ensures refused { OnErr result (HasCommitWithId graph.now.layers (oid_bytes id.entry)) }
{
    let Some(start) = graph.find(id) else {
        return Ok(Vec::new(alloc));
    };
    let positions = ancestor_positions(alloc, graph, start)?;
    ids_of(alloc, graph, positions.as_slice())
}

/// The positions of a commit and of all its ancestors, the greatest generation number first.
fn ancestor_positions(
    alloc: Global,
    graph: &Checked<'_>,
    start: Position,
) -> Result<Vec<Position>, AllocError>
    requires { start.0 < total graph.now.layers }
    ensures exact { IfOk result (λ positions. AreAncestors (history_of graph.now.layers) start.0
        (numbers_of positions.items)) }
    ensures within { IfOk result (λ positions.
        All (λ pos. pos.0 < total graph.now.layers) positions.items) }
{
    generations_never_rise_along_walks();
    the_history_of_a_graph_is_that_of_its_layers();
    let mut seen = vec![in alloc; false; graph.num_commits() as usize]?;
    let mut queue = BinaryHeap::new(alloc);
    let mut walked = Vec::new(alloc);
    enqueue(graph, &mut seen, &mut queue, start)?;
    while let Some(next) = queue.pop() {
        let pos = Position(next.1);
        walked.push(pos)?;
        for parent in graph.parents(pos) {
            enqueue(graph, &mut seen, &mut queue, parent)?;
        }
    }
    Ok(walked)
}

/// Marks a commit and puts it into the queue, with its generation number, where it is not marked.
fn enqueue(
    graph: &Checked<'_>,
    seen: &mut Vec<bool>,
    queue: &mut BinaryHeap<(u32, u32)>,
    pos: Position,
) -> Result<(), AllocError>
    requires commit { pos.0 < total graph.now.layers }
    requires mark { pos.0 < vec_len seen.old }
    ensures { OnOk result (Enqueues (history_of graph.now.layers) pos.0 seen.old.items
        (heap_items queue.old) seen.new.items (heap_items queue.new)) }
{
    let number = pos.0 as usize;
    if seen[number] {
        return Ok(());
    }
    let generation = graph.generation(pos);
    seen[number] = true;
    queue.push((generation, pos.0))?;
    Ok(())
}
