//! The parents of a commit, by its record and by its bytes.

ghost use Rattle.std.specs.Prelude.{◌≡◌, ◌↔◌, ◌≤◌, ◌^◌, Some, length, option_map, slice_get};
ghost use Rattle.std.specs.Prelude.{IfSome, IsTrue, MatchOption};
ghost use Rattle.graph_format.specs.Parents.{items_of};
ghost use Rattle.graph_layer.specs.Commit.{commit_layer, commit_pos, commit_parents};
ghost use Rattle.graph_layer.specs.RemainingParents.{parents_left};
ghost use Rattle.gix_commitgraph.specs.Graph.{graph_ids};
ghost use Rattle.graph_objects.specs.Matching.{id_of_item, ids_of_items, recorded_parents};
ghost use Rattle.graph_objects.specs.Matching.{each_known};
ghost use Rattle.graph_objects.specs.Mismatches.{DifferFirstAt};
ghost use Rattle.graph_objects.specs.ParentLines.{NamesInLines};

use crate::commit::is_same;
use commit_objects::{CommitObject, Parents, behind_line};
use gix_commitgraph::file::Commit;
use gix_commitgraph::file::commit::{ParentError, Parents as RecordedParents};
use gix_commitgraph::{Graph, Position};
use gix_hash_core::{Kind, ObjectId};

/// The least number of a parent, counted from 0, at which a record and a commit differ.
pub(crate) fn differing_parent(
    graph: &Graph,
    commit: Commit<'_>,
    object: &CommitObject<'_>,
) -> Option<u64>
    requires few { length (items_of (commit_parents commit)) ≤ 2 ^ 32 }
    ensures { let recorded = recorded_parents graph.now (commit_layer commit.entry)
        (commit_pos commit.entry) in
        MatchOption result (recorded ≡ each_known object.now.parents)
        (DifferFirstAt recorded (each_known object.now.parents)) }
{
    first_difference(graph, commit.iter_parents(), object.parents())
}

/// What follows the lines of the parents that are left of a record, where bytes begin with these as
/// Git writes them, and more follows, which begins with no line of a parent.
pub(crate) fn behind_parents<'a>(
    graph: &Graph,
    kind: Kind,
    mut recorded: RecordedParents<'_>,
    lines: &'a [u8],
) -> Option<&'a [u8]>
    ensures { IfSome result (λ rest.
        NamesInLines graph.now kind (parents_left recorded.entry) lines.now rest.now) }
{
    let mut rest = lines;
    while let Some(item) = recorded.next() {
        let Ok(pos) = item else {
            return None;
        };
        if pos.0 >= graph.num_commits() {
            return None;
        }
        let Some(next) = behind_line(kind, b"parent ", graph.id_at(pos), rest) else {
            return None;
        };
        rest = next;
    }
    if rest.is_empty() {
        return None;
    }
    if rest.starts_with(b"parent ") {
        return None;
    }
    Some(rest)
}

/// The least number at which the parents that are left of both differ.
fn first_difference(
    graph: &Graph,
    mut recorded: RecordedParents<'_>,
    mut named: Parents<'_>,
) -> Option<u64>
    requires few { length (parents_left recorded) ≤ 2 ^ 32 }
    ensures { let ids = ids_of_items (graph_ids graph.now) (parents_left recorded.entry) in
        MatchOption result (ids ≡ each_known named.entry)
        (DifferFirstAt ids (each_known named.entry)) }
{
    let mut index = 0u64;
    while let Some(id) = named.next() {
        if !has_id(graph, recorded.next(), &id) {
            return Some(index);
        }
        index += 1;
    }
    match recorded.next() {
        None => None,
        Some(_) => Some(index),
    }
}

/// Whether a parent is there and has this id.
fn has_id(graph: &Graph, item: Option<Result<Position, ParentError>>, id: &ObjectId) -> bool
    ensures { IsTrue result
        ↔ (option_map (id_of_item (graph_ids graph.now)) item ≡ Some (Some id.now)) }
{
    match item {
        Some(Ok(pos)) => is_at(graph, pos, id),
        _ => false,
    }
}

/// Whether this id stands at a position.
fn is_at(graph: &Graph, pos: Position, id: &ObjectId) -> bool
    ensures { IsTrue result ↔ (slice_get (graph_ids graph.now) pos.0 ≡ Some id.now) }
{
    pos.0 < graph.num_commits() && is_same(id, graph.id_at(pos))
}
