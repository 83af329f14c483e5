//! Ancestors, walks and merge bases by the ids of the commits.

ghost use Rattle.std.specs.Prelude.{◌≡◌, ◌↔◌, ◌<◌, ℕ, List, All, Some, slice_get};
ghost use Rattle.graph_walks.specs.Walks.{Reaches};
ghost use Rattle.graph_format.specs.Layer.{Layer, IsOpened};
ghost use Rattle.graph_format.specs.StoredHistory.{history_of};
ghost use Rattle.gix_commitgraph.specs.Distinct.{AreDistinct};
ghost use Rattle.gix_commitgraph.specs.Graph.{graph_ids, total};
ghost use Rattle.gix_commitgraph.specs.IdWalks.{ids_at};
ghost use Rattle.commit_search.specs.WalkAnswer.{IsShortestWalk};
ghost use Rattle.graph_bases.specs.Bases.{IsMergeBase};
ghost use Rattle.graph_history.specs.IdAncestors.{IsMergeBaseId, IsShortestIdWalk, LeadsTo};

use gix_commitgraph::law::graph::{
    the_commits_of_layers_add_up, the_history_of_a_graph_is_that_of_its_layers,
};
use gix_commitgraph::law::walk::walks_over_distinct_ids_are_walks_over_positions;

/// Where no id stands at two positions, a commit is known by its id: one is an ancestor of another
/// exactly where its id is one of the other's id, the ids on a shortest walk are a shortest walk by
/// ids, and merge bases are those of the ids.
pub fn questions_about_distinct_ids_are_those_about_positions()
    ensures ancestors { (layers : List Layer) (p q : ℕ) (from to : List ℕ)
        → All IsOpened layers → AreDistinct layers
        → slice_get (graph_ids layers) p ≡ Some from → slice_get (graph_ids layers) q ≡ Some to
        → Reaches (history_of layers) p q ↔ LeadsTo layers from to }
    ensures walks { (layers : List Layer) (p q : ℕ) (from to : List ℕ) (walk : List ℕ)
        → All IsOpened layers → AreDistinct layers
        → slice_get (graph_ids layers) p ≡ Some from → slice_get (graph_ids layers) q ≡ Some to
        → IsShortestWalk (history_of layers) p q walk
        → IsShortestIdWalk layers from to (ids_at layers walk) }
    ensures bases { (layers : List Layer) (first p : ℕ) (others : List ℕ) (first_id id : List ℕ)
        → All IsOpened layers → AreDistinct layers
        → slice_get (graph_ids layers) first ≡ Some first_id
        → All (λ other. other < total layers) others → slice_get (graph_ids layers) p ≡ Some id
        → IsMergeBase (history_of layers) first others p
        ↔ IsMergeBaseId layers first_id (ids_at layers others) id }
{
    the_commits_of_layers_add_up();
    the_history_of_a_graph_is_that_of_its_layers();
    walks_over_distinct_ids_are_walks_over_positions();
}
