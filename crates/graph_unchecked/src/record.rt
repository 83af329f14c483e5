//! What is read of one commit by its id.

ghost use Rattle.std.specs.Prelude.{◌≡◌, ◌<◌, ◌++◌, ◌∷◌, List, IfOk};
ghost use Rattle.gix_hash_core.specs.Oid.{oid_bytes};
ghost use Rattle.graph_walks.specs.History.{parents_at};
ghost use Rattle.graph_format.specs.Layer.{Layer};
ghost use Rattle.graph_format.specs.StoredHistory.{history_of};
ghost use Rattle.gix_commitgraph.specs.Graph.{IsGraph};
ghost use Rattle.commit_search.specs.EdgeLists.{list_in, named_from};
ghost use Rattle.commit_search.specs.Positions.{numbers_of};
ghost use Rattle.graph_parts.specs.Shown.{AreGraphParts, SeesMore, Shows, commits_of_parts};
ghost use Rattle.graph_unchecked.specs.NamedParents.{named_by_both, named_by_second};
ghost use Rattle.graph_unchecked.specs.Trusted.{AreParentsFound, IsCommitFound};
ghost use Rattle.graph_unchecked.specs.Unread.{failures_after_reads};

use crate::fields::words_in;
use crate::ids::read_ids;
use crate::lookup::find;
use crate::unread::Unread;
use answers::Answer;
use commit_search::edges::parent_of;
use gix_commitgraph::Position;
use gix_commitgraph::file::commit::{ExtraEdge, ParentEdge};
use gix_commitgraph::law::graph::{
    a_commit_lies_in_its_layer, a_position_lies_in_one_layer,
    the_history_of_a_graph_says_what_its_records_say,
};
use gix_hash_core::{ObjectId, oid};
use graph_folder::folder::Folder;
use graph_parts::parts::{GraphParts, StoredCommit};
use std::alloc::Global;

/// The position of the commit with an id, and what is stored of it.
pub(crate) fn found_commit<T: Folder>(
    alloc: Global,
    folder: &mut T,
    parts: &mut GraphParts,
    id: oid<'_>,
) -> Result<Option<(Position, StoredCommit)>, Unread>
    requires parts { AreGraphParts parts.old }
    ensures parts { AreGraphParts parts.new }
    ensures sees { SeesMore (T.tree folder.old) parts.old parts.new }
    ensures found { IfOk result (λ found. (layers : List Layer)
        → Shows (T.tree folder.old) parts.new layers → IsGraph layers
        → IsCommitFound (oid_bytes id.entry) layers found) }
    ensures tree { T.tree folder.new ≡ T.tree folder.old }
    ensures failures { T.failure_count folder.new
        ≡ failures_after_reads result (T.failure_count folder.old) }
{
    let Some(pos) = find(alloc, folder, parts, id)? else {
        return Ok(None);
    };
    let stored = parts.commit_at(alloc, folder, pos)?;
    match stored {
        Some(commit) => Ok(Some((pos, commit))),
        None => Err(Unread::NotByParts),
    }
}

/// The ids of the parents of the commit with an id, first parent first.
pub(crate) fn found_parents<T: Folder>(
    alloc: Global,
    folder: &mut T,
    parts: &mut GraphParts,
    id: oid<'_>,
) -> Result<Answer<Vec<ObjectId>>, Unread>
    requires parts { AreGraphParts parts.old }
    ensures parts { AreGraphParts parts.new }
    ensures sees { SeesMore (T.tree folder.old) parts.old parts.new }
    ensures found { IfOk result (λ found. (layers : List Layer)
        → Shows (T.tree folder.old) parts.new layers → IsGraph layers
        → AreParentsFound (oid_bytes id.entry) layers found) }
    ensures tree { T.tree folder.new ≡ T.tree folder.old }
    ensures failures { T.failure_count folder.new
        ≡ failures_after_reads result (T.failure_count folder.old) }
{
    let Some(pos) = find(alloc, folder, parts, id)? else {
        return Ok(Answer::Unknown(1));
    };
    let parents = parents_of(alloc, folder, parts, pos)?;
    let ids = read_ids(alloc, folder, parts, &parents)?;
    Ok(Answer::Known(ids))
}

/// The positions of the parents of the commit at a position, first parent first.
fn parents_of<T: Folder>(
    alloc: Global,
    folder: &mut T,
    parts: &mut GraphParts,
    pos: Position,
) -> Result<Vec<Position>, Unread>
    requires parts { AreGraphParts parts.old }
    requires pos { pos.0 < commits_of_parts parts.old }
    ensures parts { AreGraphParts parts.new }
    ensures sees { SeesMore (T.tree folder.old) parts.old parts.new }
    ensures parents { IfOk result (λ parents. (layers : List Layer)
        → Shows (T.tree folder.old) parts.new layers → IsGraph layers
        → numbers_of parents.items ≡ parents_at (history_of layers) pos.0) }
    ensures tree { T.tree folder.new ≡ T.tree folder.old }
    ensures failures { T.failure_count folder.new
        ≡ failures_after_reads result (T.failure_count folder.old) }
{
    the_history_of_a_graph_says_what_its_records_say();
    a_position_lies_in_one_layer();
    a_commit_lies_in_its_layer();
    let layer = parts.layer_of(pos);
    let Some(commit) = parts.commit_at(alloc, folder, pos)? else {
        return Err(Unread::NotByParts);
    };
    named_parents(alloc, folder, parts, layer, commit.first, commit.second)
}

/// The positions that both parent fields of a commit in a layer name.
fn named_parents<T: Folder>(
    alloc: Global,
    folder: &mut T,
    parts: &mut GraphParts,
    layer: usize,
    first: ParentEdge,
    second: ParentEdge,
) -> Result<Vec<Position>, Unread>
    requires parts { AreGraphParts parts.old }
    ensures parts { AreGraphParts parts.new }
    ensures sees { SeesMore (T.tree folder.old) parts.old parts.new }
    ensures parents { IfOk result (λ parents. (layers : List Layer)
        → Shows (T.tree folder.old) parts.new layers
        → numbers_of parents.items ≡ named_by_both (list_in layers layer) first second) }
    ensures tree { T.tree folder.new ≡ T.tree folder.old }
    ensures failures { T.failure_count folder.new
        ≡ failures_after_reads result (T.failure_count folder.old) }
{
    match first {
        ParentEdge::None => match second {
            ParentEdge::None => Ok(Vec::new(alloc)),
            _ => Err(Unread::NotByParts),
        },
        ParentEdge::GraphPosition(pos) => {
            parents_after(alloc, folder, parts, layer, pos, second)
        }
        ParentEdge::ExtraEdgeIndex(_) => Err(Unread::NotByParts),
    }
}

/// The position of a first parent, and those that the second field of its commit names, which lies
/// in a layer.
fn parents_after<T: Folder>(
    alloc: Global,
    folder: &mut T,
    parts: &mut GraphParts,
    layer: usize,
    first: Position,
    second: ParentEdge,
) -> Result<Vec<Position>, Unread>
    requires parts { AreGraphParts parts.old }
    ensures parts { AreGraphParts parts.new }
    ensures sees { SeesMore (T.tree folder.old) parts.old parts.new }
    ensures parents { IfOk result (λ parents. (layers : List Layer)
        → Shows (T.tree folder.old) parts.new layers
        → numbers_of parents.items ≡ first.0 ∷ named_by_second (list_in layers layer) second) }
    ensures tree { T.tree folder.new ≡ T.tree folder.old }
    ensures failures { T.failure_count folder.new
        ≡ failures_after_reads result (T.failure_count folder.old) }
{
    let mut parents = Vec::new(alloc);
    parents.push(first).map_err(|_| Unread::OutOfMemory)?;
    match second {
        ParentEdge::None => Ok(parents),
        ParentEdge::GraphPosition(pos) => {
            parents.push(pos).map_err(|_| Unread::OutOfMemory)?;
            Ok(parents)
        }
        ParentEdge::ExtraEdgeIndex(index) => {
            listed_parents(alloc, folder, parts, layer, index, parents)
        }
    }
}

/// Positions, and after them those that the extra edge list of a layer names from a word on.
fn listed_parents<T: Folder>(
    alloc: Global,
    folder: &mut T,
    parts: &mut GraphParts,
    layer: usize,
    first: u32,
    before: Vec<Position>,
) -> Result<Vec<Position>, Unread>
    requires parts { AreGraphParts parts.old }
    ensures parts { AreGraphParts parts.new }
    ensures sees { SeesMore (T.tree folder.old) parts.old parts.new }
    ensures parents { IfOk result (λ parents. (layers : List Layer)
        → Shows (T.tree folder.old) parts.new layers
        → numbers_of parents.items
        ≡ numbers_of before.items ++ named_from (list_in layers layer) first) }
    ensures tree { T.tree folder.new ≡ T.tree folder.old }
    ensures failures { T.failure_count folder.new
        ≡ failures_after_reads result (T.failure_count folder.old) }
{
    let mut parents = before;
    let words = words_in(parts, layer);
    for index in first..words {
        let Some(word) = parts.edge_at(alloc, folder, layer, index as usize)? else {
            return Err(Unread::NotByParts);
        };
        let ExtraEdge::Internal(pos) = word else {
            let last = parent_of(word);
            parents.push(last).map_err(|_| Unread::OutOfMemory)?;
            return Ok(parents);
        };
        parents.push(pos).map_err(|_| Unread::OutOfMemory)?;
    }
    Err(Unread::NotByParts)
}
