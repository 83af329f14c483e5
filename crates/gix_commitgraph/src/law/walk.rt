//! What generation numbers and corrected dates mean: laws of walks along parents, and the history
//! to which they apply.

ghost use Rattle.std.specs.Prelude.{◌≡◌, ◌↔◌, ℕ, List, All};
ghost use Rattle.graph_walks.specs.Walks.{IsWalk};
ghost use Rattle.graph_format.specs.Layer.{Layer, IsOpened};
ghost use Rattle.graph_format.specs.StoredHistory.{history_of};
ghost use Rattle.gix_commitgraph.specs.Distinct.{AreDistinct};
ghost use Rattle.gix_commitgraph.specs.IdWalks.{IsIdWalk, ids_at};

pub use crate::law::graph::the_history_of_a_graph_is_that_of_its_layers;
pub use graph_walks::law::{
    cycles_are_at_the_cap, dates_are_right_exactly_where_they_are_greatest,
    generations_fall_along_walks, generations_never_rise_along_walks,
    generations_that_count_walks_are_local, greatest_generation_is_the_longest_walk,
    local_generations_count_walks, right_dates_are_early, right_dates_are_one,
    right_dates_fall_along_walks, right_dates_leave_no_cycle, the_cap_is_this_number,
};

/// Where no id stands at two positions, walks from id to id are the walks along parents, each
/// commit given by its id.
pub fn walks_over_distinct_ids_are_walks_over_positions()
    ensures { (layers : List Layer) (ids : List (List ℕ)) → All IsOpened layers → AreDistinct layers
        → IsIdWalk layers ids
        ↔ ((walk : List ℕ) × IsWalk (history_of layers) walk × (ids_at layers walk ≡ ids)) }
{}
