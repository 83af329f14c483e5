//! What a file that is put on top of a graph leaves as it was.

ghost use Rattle.std.specs.Prelude.{◌≡◌, ◌↔◌, ◌<◌, ◌∷◌, ◌++◌, ℕ, List, [], All};
ghost use Rattle.graph_walks.specs.History.{generation_at, parents_at};
ghost use Rattle.graph_walks.specs.Walks.{Reaches};
ghost use Rattle.graph_format.specs.Layer.{Layer, IsOpened};
ghost use Rattle.graph_format.specs.StoredHistory.{history_of};
ghost use Rattle.gix_commitgraph.specs.Graph.{total};
ghost use Rattle.gix_commitgraph.specs.Sound.{Sound};
ghost use Rattle.graph_bases.specs.Bases.{IsMergeBase};

use gix_commitgraph::law::graph::the_history_of_a_graph_is_that_of_its_layers;
use gix_commitgraph::law::sound::the_parents_of_a_right_graph_are_there;

/// A file that is put on top of a right graph leaves the commits below as they were: their
/// generation numbers and parents, the commits to which they lead, and their merge bases.
pub fn a_file_on_top_leaves_the_commits_below_as_they_were()
    ensures generation { (layers : List Layer) (file : Layer) (p : ℕ) → All IsOpened layers
        → p < total layers
        → generation_at (history_of (layers ++ file ∷ [])) p
        ≡ generation_at (history_of layers) p }
    ensures parents { (layers : List Layer) (file : Layer) (p : ℕ) → All IsOpened layers
        → p < total layers
        → parents_at (history_of (layers ++ file ∷ [])) p ≡ parents_at (history_of layers) p }
    ensures ancestors { (layers : List Layer) (file : Layer) (p q : ℕ) → All IsOpened layers
        → Sound layers → p < total layers
        → Reaches (history_of (layers ++ file ∷ [])) p q ↔ Reaches (history_of layers) p q }
    ensures bases { (layers : List Layer) (file : Layer) (first : ℕ) (others : List ℕ) (p : ℕ)
        → All IsOpened layers → Sound layers → first < total layers
        → All (λ other. other < total layers) others
        → IsMergeBase (history_of (layers ++ file ∷ [])) first others p
        ↔ IsMergeBase (history_of layers) first others p }
{
    the_history_of_a_graph_is_that_of_its_layers();
    the_parents_of_a_right_graph_are_there();
}
