//! Asking which commits are ancestors of another.

ghost use Rattle.std.specs.Prelude.{◌≡◌, ◌⊎◌, ◌↔◌, ◌<◌, IfOk, IsTrue, OnErr};
ghost use Rattle.gix_hash_core.specs.Oid.{oid_bytes};
ghost use Rattle.gix_commitgraph.specs.Graph.{total};
ghost use Rattle.gix_commitgraph.specs.StoredHistory.{history_of};
ghost use Rattle.gix_commitgraph.specs.Walks.{Reaches};
ghost use Rattle.commit_search.specs.WalkAnswer.{MayLead};
ghost use Rattle.graph_uses.specs.IdAnswers.{AreThose, HasCommitWithId, IsMergedInto};

use gix_commitgraph::Position;
use gix_hash_core::{ObjectId, oid};
use graph_history::Checked;
use std::alloc::{AllocError, Global};

/// Whether a walk along parents leads from one commit of a graph to another. The error is that an
/// allocation failed; it comes only where the two are one commit, or their generation numbers allow
/// a walk.
pub fn reaches(
    alloc: Global,
    graph: &Checked<'_>,
    from: Position,
    to: Position,
) -> Result<bool, AllocError>
    requires from { from.0 < total graph.now.layers }
    requires to { to.0 < total graph.now.layers }
    ensures answer { IfOk result (λ found.
        IsTrue found ↔ Reaches (history_of graph.now.layers) from.0 to.0) }
    ensures refused { OnErr result
        ((from.0 ≡ to.0) ⊎ MayLead (history_of graph.now.layers) from.0 to.0) }
{
    let reached = graph.ancestor_walk(alloc, from, to)?;
    Ok(reached.walk.is_some())
}

/// Of some commits, those that are merged into the one with an id: its ancestors, and itself; in
/// their order, and none where the graph has no such commit. The error is that an allocation
/// failed; it comes only where the graph has that commit.
pub fn merged(
    alloc: Global,
    graph: &Checked<'_>,
    into: oid<'_>,
    commits: &[ObjectId],
) -> Result<Vec<ObjectId>, AllocError>
    ensures answer { IfOk result (λ merged. AreThose
        (IsMergedInto graph.now.layers (oid_bytes into.entry)) commits.now merged.items) }
    ensures refused { OnErr result (HasCommitWithId graph.now.layers (oid_bytes into.entry)) }
{
    let mut merged = Vec::new(alloc);
    for commit in commits {
        if is_merged(alloc, graph, into, commit.as_oid())? {
            merged.push(*commit)?;
        }
    }
    Ok(merged)
}

/// Whether the graph has commits with both ids, and the second is merged into the first.
fn is_merged(
    alloc: Global,
    graph: &Checked<'_>,
    into: oid<'_>,
    commit: oid<'_>,
) -> Result<bool, AllocError>
    ensures answer { IfOk result (λ found. IsTrue found
        ↔ IsMergedInto graph.now.layers (oid_bytes into.entry) (oid_bytes commit.entry)) }
    ensures refused { OnErr result (HasCommitWithId graph.now.layers (oid_bytes into.entry)) }
{
    let (Some(from), Some(to)) = (graph.find(into), graph.find(commit)) else {
        return Ok(false);
    };
    reaches(alloc, graph, from, to)
}
