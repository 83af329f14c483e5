//! What right filters say of their commits.

ghost use Rattle.std.specs.Prelude.{◌<◌, ℕ, List};
ghost use Rattle.graph_format.specs.Layer.{Layer};
ghost use Rattle.gix_commitgraph.specs.Graph.{total};
ghost use Rattle.graph_chunks.specs.GraphFilters.{FiltersOfGraph};
ghost use Rattle.tree_changes.specs.Stands.{World};
ghost use Rattle.tree_changes.specs.Changes.{IsChangedText};
ghost use Rattle.path_filters.specs.Touched.{LeadsTo};
ghost use Rattle.filter_checks.specs.RightFilters.{AreRightFilters, IsRightAt};
ghost use Rattle.filter_checks.specs.RightFilters.{IsComputedAt, IsAbsentAt};
ghost use Rattle.filter_checks.specs.RightFilters.{root_tree_at, parent_tree_at};
ghost use Rattle.filter_checks.specs.Refused.{IsFirstLack};

/// Where the filters of a graph are right, a commit changes no path that its filter answers as
/// absent, nor any below it.
pub fn nothing_changed_at_a_path_that_a_filter_answers_as_absent()
    ensures { (world : World) (layers : List Layer) (all : FiltersOfGraph) (p : ℕ) (path : List ℕ)
        → AreRightFilters world layers all → p < total layers → IsComputedAt all p
        → IsAbsentAt all p path
        → ¬ IsChangedText world (parent_tree_at layers p) (root_tree_at layers p) path
        × ((below : List ℕ) → LeadsTo path below
        → ¬ IsChangedText world (parent_tree_at layers p) (root_tree_at layers p) below) }
{}

/// A filter that lacks a path is not right.
pub fn a_filter_that_lacks_a_path_is_not_right()
    ensures { (world : World) (layers : List Layer) (all : FiltersOfGraph) (p : ℕ) (path : List ℕ)
        → IsComputedAt all p
        → IsFirstLack all p (IsChangedText world (parent_tree_at layers p) (root_tree_at layers p))
        path → ¬ IsRightAt world layers all p }
{}
