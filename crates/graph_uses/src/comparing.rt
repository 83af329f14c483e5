//! Asking what two commits have in common.

ghost use Rattle.std.specs.Prelude.{IfOk, OnErr};
ghost use Rattle.gix_hash_core.specs.Oid.{oid_bytes};
ghost use Rattle.graph_uses.specs.IdAnswers.{AreBaseIds, HasCommitWithId};

use crate::ids::ids_of;
use gix_hash_core::{ObjectId, oid};
use graph_history::Checked;
use std::alloc::{AllocError, Global};

/// The ids of the merge bases of the commits with two ids; none where they have no common ancestor,
/// or the graph does not have both. The error is that an allocation failed; it comes only where the
/// graph has both.
pub fn merge_bases(
    alloc: Global,
    graph: &Checked<'_>,
    first: oid<'_>,
    second: oid<'_>,
) -> Result<Vec<ObjectId>, AllocError>
    ensures answer { IfOk result (λ ids. AreBaseIds graph.now.layers (oid_bytes first.entry)
        (oid_bytes second.entry) ids.items) }
    ensures refused { OnErr result (HasCommitWithId graph.now.layers (oid_bytes first.entry)
        × HasCommitWithId graph.now.layers (oid_bytes second.entry)) }
{
    let (Some(first), Some(second)) = (graph.find(first), graph.find(second)) else {
        return Ok(Vec::new(alloc));
    };
    let bases = graph.merge_bases(alloc, first, &[second])?;
    ids_of(alloc, graph, bases.positions.as_slice())
}
