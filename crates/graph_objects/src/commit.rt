//! One commit and its bytes.

ghost use Rattle.std.specs.Prelude.{◌≡◌, ◌↔◌, ◌≤◌, ◌^◌, ℕ, Some, length, slice_get};
ghost use Rattle.std.specs.Prelude.{◌<◌, All, IsTrue, MatchResult, drop};
ghost use Rattle.gix_hash_core.specs.Oid.{oid_bytes};
ghost use Rattle.graph_format.specs.Parents.{items_of};
ghost use Rattle.graph_layer.specs.Commit.{commit_layer, commit_pos, commit_parents};
ghost use Rattle.graph_layer.specs.Commit.{layer_and_position};
ghost use Rattle.gix_commitgraph.specs.Graph.{graph_commits, total};
ghost use Rattle.commit_objects.specs.Object.{object_id_of, object_of};
ghost use Rattle.graph_objects.specs.Matching.{Agree, Matches, MatchesAt, SaysAsRecorded};
ghost use Rattle.graph_objects.specs.Mismatches.{IsAmiss, Mismatches, MismatchesAt};

use crate::Mismatch;
use crate::parents::{behind_parents, differing_parent};
use commit_objects::{CommitObject, behind_line, older_time};
use gix_commitgraph::Graph;
use gix_commitgraph::file::Commit;
use gix_hash_core::{Kind, ObjectId, oid};

/// Compares a commit of a graph of this kind with the contents of a commit object that has this id.
pub(crate) fn matches_commit(
    graph: &Graph,
    kind: Kind,
    commit: Commit<'_>,
    id: &ObjectId,
    contents: &[u8],
) -> Result<(), Mismatch>
    requires kind { All (λ layer. layer.kind ≡ kind) graph.now }
    requires commit { (p : ℕ)
        × (slice_get (graph_commits graph.now) p ≡ Some (layer_and_position commit)) }
    requires id { id.now ≡ object_id_of kind contents.now }
    ensures { MatchResult result
        (λ _. Matches graph.now (commit_layer commit.entry) (commit_pos commit.entry) contents.now)
        (Mismatches graph.now (commit_layer commit.entry) (commit_pos commit.entry) contents.now) }
{
    // its contract says besides that each layer was opened
    let _commits = graph.num_commits();
    if !is_same(id, commit.id()) {
        return Err(Mismatch::OtherContents);
    }
    if is_as_written(graph, kind, commit, contents) {
        return Ok(());
    }
    match CommitObject::parse(kind, contents) {
        Ok(object) => compare(graph, commit, &object),
        Err(_) => Err(Mismatch::Unreadable),
    }
}

/// Whether a commit of the graph is as Git writes these bytes, which needs no decoding: with ids in
/// lower-case digits, and the time that Git up to 2.40 reads.
fn is_as_written(graph: &Graph, kind: Kind, commit: Commit<'_>, contents: &[u8]) -> bool
    ensures { IsTrue result
        → SaysAsRecorded graph.now kind (commit_layer commit.entry) (commit_pos commit.entry)
        contents.now }
{
    let Some(lines) = behind_line(kind, b"tree ", commit.root_tree_id(), contents) else {
        return false;
    };
    match behind_parents(graph, kind, commit.iter_parents(), lines) {
        Some(rest) => older_time(rest) == commit.committer_timestamp(),
        None => false,
    }
}

/// Compares a commit of the graph with what was read.
fn compare(graph: &Graph, commit: Commit<'_>, object: &CommitObject<'_>) -> Result<(), Mismatch>
    requires few { length (items_of (commit_parents commit)) ≤ 2 ^ 32 }
    ensures { MatchResult result
        (λ _. Agree graph.now (commit_layer commit.entry) (commit_pos commit.entry) object.now)
        (IsAmiss graph.now (commit_layer commit.entry) (commit_pos commit.entry) object.now) }
{
    if !is_same(&object.tree(), commit.root_tree_id()) {
        return Err(Mismatch::Tree);
    }
    if let Some(index) = differing_parent(graph, commit, object) {
        return Err(Mismatch::Parent { index });
    }
    let time = commit.committer_timestamp();
    if time != object.newer_time() && time != object.older_time() {
        return Err(Mismatch::Time);
    }
    Ok(())
}

/// Whether two ids are the same.
pub(crate) fn is_same(one: &ObjectId, other: oid<'_>) -> bool
    ensures { IsTrue result ↔ (oid_bytes other.entry ≡ one.now) }
{
    other == one.as_oid()
}
