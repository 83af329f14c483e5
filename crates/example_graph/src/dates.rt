//! The corrected dates and the filters of the layer.

ghost use Rattle.std.specs.Prelude.{◌≡◌, ◌∷◌, [], None, codes};
ghost use Rattle.graph_chunks.specs.GraphDates.{graph_dates_refusal};
ghost use Rattle.graph_chunks.specs.GraphFilters.{graph_filters_refusal};
ghost use Rattle.graph_chunks.specs.GraphStoredDates.{dates_of};
ghost use Rattle.example_graph.specs.FiveCommits.{layer};

/// The corrected dates of the five commits are right, and are these, by position. Nothing is wrong
/// with filters, of which there are none.
pub fn the_dates_are_right()
    ensures dates { graph_dates_refusal (layer (codes "commit-graph") ∷ []) ≡ None }
    ensures each { dates_of (layer (codes "commit-graph") ∷ [])
        ≡ 4294967300 ∷ 4294967301 ∷ 4294967400 ∷ 4294967500 ∷ 4294967401 ∷ [] }
    ensures filters { graph_filters_refusal (layer (codes "commit-graph") ∷ []) ≡ None }
{}
