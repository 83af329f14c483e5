//! Laws of graphs: their positions, their lookups, their refusals and their histories.

ghost use Rattle.std.specs.Prelude.{◌≡◌, ◌<◌, ◌-◌, ℕ, List, All, Some, length, map, slice_get};
ghost use Rattle.graph_format.specs.Layer.{Layer, record_at, IsOpened};
ghost use Rattle.gix_commitgraph.specs.Graph.{graph_commits, total, start};
ghost use Rattle.graph_format.specs.Parents.{parents_of};
ghost use Rattle.graph_format.specs.StoredHistory.{node_of, history_of};
ghost use Rattle.gix_commitgraph.specs.GraphLaw.{LiesIn, LiesInOne, ComesFromLayer, AreCounted};
ghost use Rattle.gix_commitgraph.specs.GraphLaw.{AreScanned, IsJudged};
ghost use Rattle.graph_walks.specs.History.{generation_at, parents_at};

/// Each position of a graph lies in one layer, and in no other.
pub fn a_position_lies_in_one_layer()
    ensures { (layers : List Layer) (pos : ℕ) → pos < total layers → LiesInOne layers pos }
{}

/// The id and the commit at a position are those of its layer, at the position less the number of
/// commits before the layer.
pub fn a_position_is_a_place_in_its_layer()
    ensures { (layers : List Layer) (pos i : ℕ) (layer : Layer) → LiesIn layers pos i layer
        → ComesFromLayer layers pos i layer }
{}

/// Each commit of a graph lies in the layer that it is given with, at its position less the number
/// of commits before the layer.
pub fn a_commit_lies_in_its_layer()
    ensures { (layers : List Layer) (p pos : ℕ) (layer : Layer)
        → slice_get (graph_commits layers) p ≡ Some (layer, pos)
        → (i : ℕ) × LiesIn layers p i layer × (pos ≡ p - start layers i) }
{}

/// A graph has as many ids and commits as its layers have together.
pub fn the_commits_of_layers_add_up()
    ensures { (layers : List Layer) → AreCounted layers }
{}

/// Where in each layer the ids ascend under an exact fan, an answer to a lookup is that of a plain
/// scan of all ids.
pub fn a_lookup_in_ordered_layers_is_a_scan()
    ensures { (layers : List Layer) → AreScanned layers }
{}

/// The refusal of layers says what is wrong, and layers that are not refused make a graph.
pub fn layers_are_refused_or_make_a_graph()
    ensures { (layers : List Layer) → IsJudged layers }
{}

/// The history of a graph of opened layers has one commit for each position, and says of it what
/// its record in its layer says.
pub fn the_history_of_a_graph_is_that_of_its_layers()
    ensures counted { (layers : List Layer) → All IsOpened layers
        → length (history_of layers) ≡ total layers }
    ensures placed { (layers : List Layer) (pos i : ℕ) (layer : Layer) → All IsOpened layers
        → LiesIn layers pos i layer
        → slice_get (history_of layers) pos
        ≡ Some (node_of layer (record_at layer (pos - start layers i))) }
{}

/// The history of a graph of opened layers says of each commit what its record says: its generation
/// number, and the parents that can be decoded.
pub fn the_history_of_a_graph_says_what_its_records_say()
    ensures node { (layers : List Layer) (p pos : ℕ) (layer : Layer) → All IsOpened layers
        → slice_get (graph_commits layers) p ≡ Some (layer, pos)
        → slice_get (history_of layers) p ≡ Some (node_of layer (record_at layer pos)) }
    ensures generation { (layers : List Layer) (p pos : ℕ) (layer : Layer) → All IsOpened layers
        → slice_get (graph_commits layers) p ≡ Some (layer, pos)
        → generation_at (history_of layers) p ≡ (record_at layer pos).generation }
    ensures parents { (layers : List Layer) (p pos : ℕ) (layer : Layer) → All IsOpened layers
        → slice_get (graph_commits layers) p ≡ Some (layer, pos)
        → parents_at (history_of layers) p
        ≡ map (λ q. q.0) (parents_of (record_at layer pos) layer.edges).positions }
{}
