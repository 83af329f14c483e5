//! When a graph is right, and that its check finds this out. A graph is right where its layers
//! keep their rules, each parent stands in the layer of its commit or an earlier one, and each
//! generation number counts the commits of the longest walk along parents.

ghost use Rattle.std.specs.Prelude.{◌≡◌, ◌<◌, ℕ, List, All, Option, None, Some, slice_get};
ghost use Rattle.graph_format.specs.Layer.{Layer, record_at, IsOpened};
ghost use Rattle.graph_format.specs.Parents.{parents_of};
ghost use Rattle.gix_commitgraph.specs.Graph.{graph_commits, graph_ids, total};
ghost use Rattle.gix_commitgraph.specs.GraphLookup.{FoundIn};
ghost use Rattle.graph_walks.specs.History.{generations, parents_at};
ghost use Rattle.graph_format.specs.StoredHistory.{history_of};
ghost use Rattle.graph_format.specs.Lookup.{scan};
ghost use Rattle.graph_format.specs.Points.{first_fault};
ghost use Rattle.gix_commitgraph.specs.Sound.{Sound};
ghost use Rattle.graph_walks.specs.Generations.{longest_path};
ghost use Rattle.gix_commitgraph.specs.Verify.{graph_points};
ghost use Rattle.graph_walks.specs.Walks.{MatchesLongestWalk};

/// Where no condition of its check fails, a graph of opened layers is right.
pub fn a_graph_without_fault_is_right<E>()
    ensures { (layers : List Layer) → All IsOpened layers
        → first_fault (graph_points {E = E} layers) ≡ None → Sound layers }
{}

/// Where a graph of opened layers is right, no condition of its check fails.
pub fn a_right_graph_is_without_fault<E>()
    ensures { (layers : List Layer) → All IsOpened layers → Sound layers
        → first_fault (graph_points {E = E} layers) ≡ None }
{}

/// In a graph that is right, an answer to a lookup is that of a plain scan of all ids.
pub fn a_lookup_in_a_right_graph_is_a_scan()
    ensures { (layers : List Layer) (id : List ℕ) (answer : Option ℕ) → Sound layers
        → FoundIn layers id answer
        → answer ≡ scan (graph_ids layers) id }
{}

/// In a graph that is right, the greatest generation number less one is the number of edges of the
/// longest walk along parents; where a generation number is at the cap, there is no such number.
pub fn the_longest_path_of_a_right_graph_is_its_longest_walk()
    ensures { (layers : List Layer) → Sound layers
        → MatchesLongestWalk (history_of layers) (longest_path (generations (history_of layers))) }
{}

/// In a right graph of opened layers the parents of each commit can be decoded, and are commits of
/// the graph.
pub fn the_parents_of_a_right_graph_are_there()
    ensures decoded { (layers : List Layer) (p pos : ℕ) (layer : Layer) → All IsOpened layers
        → Sound layers → slice_get (graph_commits layers) p ≡ Some (layer, pos)
        → (parents_of (record_at layer pos) layer.edges).fault ≡ None }
    ensures there { (layers : List Layer) (p : ℕ) → All IsOpened layers → Sound layers
        → All (λ q. q < total layers) (parents_at (history_of layers) p) }
{}
