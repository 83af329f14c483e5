//! The commit at a position, for the calls that are made for each commit.

ghost use Rattle.std.specs.Prelude.{◌≡◌, ◌↔◌, ◌<◌, ◌≤◌, None, IfSome, Some, length};
ghost use Rattle.std.specs.Prelude.{slice_get};
ghost use Rattle.graph_format.specs.Layer.{record_at};
ghost use Rattle.graph_format.specs.Parents.{edge_of};
ghost use Rattle.graph_layer.specs.Commit.{layer_and_position};
ghost use Rattle.gix_commitgraph.specs.Graph.{graph_commits, total};
ghost use Rattle.c_opening.specs.Answers.{HasRecord};

use gix_commitgraph::file::Commit;
use gix_commitgraph::{File, Graph, Position};
use graph_format::parents::{NO_PARENT, ParentEdge};
use graph_layer::fields::parent_fields;

/// What both parent fields say of the commit at a position of a graph of one layer, if it has that
/// commit and both are as those of most commits. No layer is looked for, and each field is compared
/// once.
#[inline(always)]
pub(crate) fn usual_edges(graph: &Graph, pos: u32) -> Option<(ParentEdge, ParentEdge)>
    requires { length graph.now ≡ 1 }
    ensures edges { IfSome result (λ edges. HasRecord (Some graph.now) pos (λ r.
        (edges.0 ≡ edge_of r.parent1) × (edges.1 ≡ edge_of r.parent2))) }
    ensures within { IfSome result (λ _. pos < total graph.now) }
{
    let layer = &graph.layers()[0];
    if pos >= layer.num_commits() {
        return None;
    }
    let (first, second) = fields_at(layer, pos);
    if first >= NO_PARENT || second > NO_PARENT {
        return None;
    }
    Some((ParentEdge::from_raw(first), ParentEdge::from_raw(second)))
}

/// Both parent fields of the commit at a position of a layer. Each is read by itself.
#[inline(always)]
fn fields_at(layer: &File, pos: u32) -> (u32, u32)
    requires { pos < length layer.now.records }
    ensures first { result.0 ≡ (record_at layer.now pos).parent1 }
    ensures second { result.1 ≡ (record_at layer.now pos).parent2 }
{
    let fields = &parent_fields(layer)[pos as usize];
    (fields.0, fields.1)
}

/// The commit at a position, if the graph has it.
#[inline(always)]
pub(crate) fn commit_in(graph: &Graph, pos: u32) -> Option<Commit<'_>>
    ensures there { IfSome result (λ commit.
        slice_get (graph_commits graph.now) pos ≡ Some (layer_and_position commit)) }
    ensures nowhere { result ≡ None ↔ total graph.now ≤ pos }
{
    if pos < graph.num_commits() {
        return Some(graph.commit_at(Position(pos)));
    }
    None
}
