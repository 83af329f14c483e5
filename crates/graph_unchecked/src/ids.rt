//! The ids of commits, read by parts.

ghost use Rattle.std.specs.Prelude.{◌≡◌, List, IfOk, Some, slice_get};
ghost use Rattle.graph_format.specs.Layer.{Layer};
ghost use Rattle.gix_commitgraph.specs.Graph.{graph_ids};
ghost use Rattle.gix_commitgraph.specs.IdWalks.{ids_at};
ghost use Rattle.commit_search.specs.Positions.{numbers_of};
ghost use Rattle.graph_parts.specs.Shown.{AreGraphParts, SeesMore, Shows};
ghost use Rattle.graph_unchecked.specs.Unread.{failures_after_reads};

use crate::unread::Unread;
use gix_commitgraph::Position;
use gix_hash_core::ObjectId;
use graph_folder::folder::Folder;
use graph_parts::parts::GraphParts;
use std::alloc::Global;

/// The ids of the commits at some positions, in their order.
pub(crate) fn read_ids<T: Folder>(
    alloc: Global,
    folder: &mut T,
    parts: &mut GraphParts,
    positions: &[Position],
) -> Result<Vec<ObjectId>, Unread>
    requires { AreGraphParts parts.old }
    ensures parts { AreGraphParts parts.new }
    ensures sees { SeesMore (T.tree folder.old) parts.old parts.new }
    ensures ids { IfOk result (λ ids. (layers : List Layer)
        → Shows (T.tree folder.old) parts.new layers
        → ids.items ≡ ids_at layers (numbers_of positions.now)) }
    ensures tree { T.tree folder.new ≡ T.tree folder.old }
    ensures failures { T.failure_count folder.new
        ≡ failures_after_reads result (T.failure_count folder.old) }
{
    let mut ids = Vec::new(alloc);
    for pos in positions {
        let id = read_id(alloc, folder, parts, *pos)?;
        ids.push(id).map_err(|_| Unread::OutOfMemory)?;
    }
    Ok(ids)
}

/// The id of the commit at a position.
pub(crate) fn read_id<T: Folder>(
    alloc: Global,
    folder: &mut T,
    parts: &mut GraphParts,
    pos: Position,
) -> Result<ObjectId, Unread>
    requires { AreGraphParts parts.old }
    ensures parts { AreGraphParts parts.new }
    ensures sees { SeesMore (T.tree folder.old) parts.old parts.new }
    ensures id { IfOk result (λ id. (layers : List Layer)
        → Shows (T.tree folder.old) parts.new layers
        → slice_get (graph_ids layers) pos.0 ≡ Some id) }
    ensures tree { T.tree folder.new ≡ T.tree folder.old }
    ensures failures { T.failure_count folder.new
        ≡ failures_after_reads result (T.failure_count folder.old) }
{
    if parts.commits() <= pos.0 {
        return Err(Unread::NotByParts);
    }
    match parts.id_at(alloc, folder, pos)? {
        Some(id) => Ok(id),
        None => Err(Unread::NotByParts),
    }
}
