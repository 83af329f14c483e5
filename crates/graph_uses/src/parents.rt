//! Going over parents.

ghost use Rattle.std.specs.Prelude.{◌≡◌, ◌≢◌, ◌<◌, [], IfOk, OnErr, map};
ghost use Rattle.gix_hash_core.specs.Oid.{oid_bytes};
ghost use Rattle.gix_commitgraph.specs.Graph.{total};
ghost use Rattle.gix_commitgraph.specs.History.{parents_at};
ghost use Rattle.gix_commitgraph.specs.IdWalks.{ids_at};
ghost use Rattle.gix_commitgraph.specs.StoredHistory.{history_of};
ghost use Rattle.graph_uses.specs.IdAnswers.{parent_ids_of};

use gix_commitgraph::Position;
use gix_hash_core::{ObjectId, oid};
use graph_history::Checked;
use std::alloc::{AllocError, Global};

/// The positions of the parents of the commit at a position, in their order. The error is that an
/// allocation failed; it comes only where there are parents.
pub fn parents_of(
    alloc: Global,
    graph: &Checked<'_>,
    pos: Position,
) -> Result<Vec<Position>, AllocError>
    requires { pos.0 < total graph.now.layers }
    ensures answer { IfOk result (λ parents.
        map (λ parent. parent.0) parents.items ≡ parents_at (history_of graph.now.layers) pos.0) }
    ensures refused { OnErr result (parents_at (history_of graph.now.layers) pos.0 ≢ []) }
{
    let mut parents = Vec::new(alloc);
    for parent in graph.parents(pos) {
        parents.push(parent)?;
    }
    Ok(parents)
}

/// The ids of the parents of the commit with an id, none where the graph has no such commit. The
/// error is that an allocation failed; it comes only where there are parents.
pub fn parent_ids(
    alloc: Global,
    graph: &Checked<'_>,
    id: oid<'_>,
) -> Result<Vec<ObjectId>, AllocError>
    ensures answer { IfOk result (λ ids.
        ids.items ≡ parent_ids_of graph.now.layers (oid_bytes id.entry)) }
    ensures refused { OnErr result
        (parent_ids_of graph.now.layers (oid_bytes id.entry) ≢ []) }
{
    match graph.find(id) {
        Some(pos) => ids_of_parents(alloc, graph, pos),
        None => Ok(Vec::new(alloc)),
    }
}

/// The ids of the parents of the commit at a position.
fn ids_of_parents(
    alloc: Global,
    graph: &Checked<'_>,
    pos: Position,
) -> Result<Vec<ObjectId>, AllocError>
    requires { pos.0 < total graph.now.layers }
    ensures answer { IfOk result (λ ids. ids.items ≡ ids_at graph.now.layers
        (parents_at (history_of graph.now.layers) pos.0)) }
    ensures refused { OnErr result (ids_at graph.now.layers
        (parents_at (history_of graph.now.layers) pos.0) ≢ []) }
{
    let mut ids = Vec::new(alloc);
    for parent in graph.parents(pos) {
        ids.push(graph.id(parent).to_owned())?;
    }
    Ok(ids)
}
