//! On which commits the check of a graph calls the processor, and where it may go on.

ghost use Rattle.std.specs.Prelude.{◌≡◌, ◌≤◌, ℕ, List, All, length, take};
ghost use Rattle.std.specs.List.{range_with_len};
ghost use Rattle.graph_format.specs.Layer.{Layer, IsOpened};
ghost use Rattle.gix_commitgraph.specs.Graph.{total};
ghost use Rattle.graph_format.specs.Points.{calls, first_fault};
ghost use Rattle.gix_commitgraph.specs.Distinct.{IsSoundWith};
ghost use Rattle.gix_commitgraph.specs.Verify.{points_from, points_with};
ghost use Rattle.gix_commitgraph.specs.declared.verify.VerifyOptions.{VerifyOptions};

pub use graph_layer::law::a_check_of_a_layer_calls_on_each_position_once;

/// Where nothing stops it, the check of a graph calls the processor at the positions of its
/// commits, at each once and in order, whichever layers they lie in and whatever the options ask
/// besides. So it follows from the clause `agrees` of
/// [`Graph::verify_integrity`](crate::Graph::verify_integrity), and of
/// [`Graph::verify_integrity_with`](crate::Graph::verify_integrity_with), that after an `Ok` the
/// processor accepted each commit of the graph, once and in order.
pub fn a_check_of_a_graph_calls_on_each_position_once<E>()
    ensures { (options : VerifyOptions) (layers : List Layer)
        → calls (points_with {E = E} options layers) ≡ range_with_len 0 (total layers) }
{}

/// Where the lowest layers of a graph are right, and keep what the options ask for, the first fault
/// of the check that goes on above them is that of the whole check. So
/// [`Graph::verify_integrity_from`](crate::Graph::verify_integrity_from) refuses a graph for the
/// same reason as [`Graph::verify_integrity_with`](crate::Graph::verify_integrity_with).
pub fn the_first_fault_stands_above_right_layers<E>()
    ensures { (options : VerifyOptions) (layers : List Layer) (i : ℕ) → All IsOpened layers
        → i ≤ length layers → IsSoundWith options (take i layers)
        → first_fault (points_from {E = E} options layers i)
        ≡ first_fault (points_with {E = E} options layers) }
{}
