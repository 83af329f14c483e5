//! What the lowest layers of a graph keep.

ghost use Rattle.std.specs.Prelude.{◌≤◌, ℕ, List, All, length, take};
ghost use Rattle.graph_format.specs.Layer.{Layer, IsOpened};
ghost use Rattle.gix_commitgraph.specs.Distinct.{IsSoundWith};
ghost use Rattle.gix_commitgraph.specs.declared.verify.VerifyOptions.{VerifyOptions};

/// Where a graph keeps what the options of a check ask for, its lowest layers keep it too.
pub fn the_lowest_layers_of_a_right_graph_are_right()
    ensures { (options : VerifyOptions) (layers : List Layer) (n : ℕ) → All IsOpened layers
        → n ≤ length layers → IsSoundWith options layers
        → IsSoundWith options (take n layers) }
{}
