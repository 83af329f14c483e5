//! What the history of a graph says of a commit, as its record in its layer says it, and the words
//! of a layer's extra edge list ("Commit Data", "Extra Edge List").

ghost use Rattle.std.specs.Prelude.{◌≡◌, ◌<◌, ℕ, length, Some};
ghost use Rattle.graph_walks.specs.History.{generation_at};
ghost use Rattle.graph_format.specs.Layer.{Layer};
ghost use Rattle.graph_format.specs.StoredHistory.{history_of};
ghost use Rattle.gix_commitgraph.specs.Graph.{IsGraph};
ghost use Rattle.gix_commitgraph.specs.GraphLaw.{LiesIn};
ghost use Rattle.gix_commitgraph.specs.InGraph.{InGraph};
ghost use Rattle.gix_commitgraph.specs.Sound.{Sound};
ghost use Rattle.commit_search.specs.EdgeLists.{list_in};
ghost use Rattle.graph_ancestors.specs.Commits.{AreParentFields, stored_fields};

use gix_commitgraph::file::Commit;
use gix_commitgraph::file::commit::ParentEdge;
use gix_commitgraph::law::graph::{
    a_commit_lies_in_its_layer, a_position_lies_in_one_layer,
    the_history_of_a_graph_is_that_of_its_layers, the_history_of_a_graph_says_what_its_records_say,
};
use gix_commitgraph::law::sound::the_parents_of_a_right_graph_are_there;
use gix_commitgraph::{Graph, Position};
use graph_layer::fields::{extra_edges, parent_edges};

/// The commit at a position.
fn commit_of(graph: &Graph, pos: Position) -> Commit<'_>
    requires graph { IsGraph graph.now }
    requires pos { pos.0 < length (history_of graph.now) }
    ensures { InGraph graph.now pos.0 result }
{
    the_history_of_a_graph_is_that_of_its_layers();
    graph.commit_at(pos)
}

/// The generation number of the commit at a position.
pub(crate) fn generation_of(graph: &Graph, pos: Position) -> u32
    requires graph { IsGraph graph.now }
    requires pos { pos.0 < length (history_of graph.now) }
    ensures { result ≡ generation_at (history_of graph.now) pos.0 }
{
    the_history_of_a_graph_says_what_its_records_say();
    commit_of(graph, pos).generation()
}

/// What both parent fields of the commit at a position of a right graph say: together they name all
/// its parents ("Commit Data").
pub fn parent_fields_of(graph: &Graph, pos: Position) -> (ParentEdge, ParentEdge)
    requires graph { IsGraph graph.now }
    requires sound { Sound graph.now }
    requires pos { pos.0 < length (history_of graph.now) }
    ensures stored { stored_fields graph.now pos.0 ≡ Some result }
    ensures named { AreParentFields graph.now pos.0 result }
{
    the_history_of_a_graph_is_that_of_its_layers();
    the_history_of_a_graph_says_what_its_records_say();
    the_parents_of_a_right_graph_are_there();
    a_commit_lies_in_its_layer();
    a_position_lies_in_one_layer();
    parent_edges(&commit_of(graph, pos))
}

/// The layer in which a position lies.
pub fn layer_of(graph: &Graph, pos: Position) -> usize
    requires graph { IsGraph graph.now }
    requires pos { pos.0 < length (history_of graph.now) }
    ensures lies { (layer : Layer) × LiesIn graph.now pos.0 result layer }
    ensures only { (l : ℕ) (layer : Layer) → LiesIn graph.now pos.0 l layer → l ≡ result }
{
    the_history_of_a_graph_is_that_of_its_layers();
    a_position_lies_in_one_layer();
    graph.layer_of_counted(pos).0
}

/// The words of the extra edge list of a layer, none where it has no such list ("Extra Edge List").
pub fn list_of(graph: &Graph, layer: usize) -> &[u32]
    requires { layer < length graph.now }
    ensures { result.now ≡ list_in graph.now layer }
{
    extra_edges(&graph.layers()[layer]).unwrap_or(&[])
}
