//! A whole question to the commit-graph at a path.

ghost use Rattle.std.specs.Prelude.{◌≡◌, ℕ, List, IfErr, IfOk};
ghost use Rattle.gix_hash_core.specs.Hexadecimal.{SpellsId};
ghost use Rattle.gix_commitgraph.specs.Layer.{Layer};
ghost use Rattle.gix_commitgraph.specs.OpenAlways.{IsFromPath};
ghost use Rattle.gix_commitgraph.specs.Sound.{Sound};
ghost use Rattle.graph_uses.specs.IdAnswers.{parent_ids_of};
ghost use Rattle.graph_uses.specs.PathRefusals.{MayRefuseParents};

use crate::checked::open_checked;
use crate::error::QueryError;
use crate::parents::parent_ids;
use gix_hash_core::ObjectId;
use std::alloc::Global;
use std::rt::Files;

/// The ids of the parents of the commit with an id, in the graph at a path; none where the graph
/// has no such commit. The id is given in hexadecimal.
///
/// The errors are those of [`open_checked`]; then `Id` where the text spells no id; and
/// `OutOfMemory` where the commit has parents and an allocation failed.
pub fn parents_at_path<R: Files>(
    rt: &R,
    alloc: Global,
    path: &str,
    id: &str,
) -> Result<Vec<ObjectId>, QueryError>
    ensures answer { IfOk result (λ parents. (layers : List Layer) × (bytes : List ℕ)
        × IsFromPath path.now layers × Sound layers × SpellsId id.now bytes
        × (parents.items ≡ parent_ids_of layers bytes)) }
    ensures refused { IfErr result (MayRefuseParents path.now id.now) }
{
    let graph = open_checked(rt, alloc, path)?;
    let id = ObjectId::from_hex(id.as_bytes()).map_err(QueryError::Id)?;
    parent_ids(alloc, &graph.as_checked(), id.as_oid()).map_err(QueryError::OutOfMemory)
}
