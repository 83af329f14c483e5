//! Laws of the check of one layer. Each function does nothing, and its contract is the law.

ghost use Rattle.std.specs.Prelude.{◌≡◌, ◌↔◌, None, length, sum};
ghost use Rattle.std.specs.HashMap as hash;
ghost use Rattle.std.specs.List.{range_with_len};
ghost use Rattle.graph_format.specs.Layer.{Layer, IsOpened};
ghost use Rattle.graph_format.specs.Points.{calls, first_fault};
ghost use Rattle.graph_format.specs.RightLayer.{IsSoundLayer};
ghost use Rattle.graph_layer.specs.Traverse.{traverse_points, FileStats};

use crate::file::verify::Outcome;

/// Where nothing stops it, the check of a layer calls the processor at the positions of its
/// commits, at each once and in order. So it follows from the clause `agrees` of
/// [`File::traverse`](crate::File::traverse) that after an `Ok` the processor accepted each commit
/// of the layer, once and in order.
pub fn a_check_of_a_layer_calls_on_each_position_once<E>()
    ensures { (layer : Layer)
        → calls (traverse_points {E = E} layer) ≡ range_with_len 0 (length layer.ids) }
{}

/// No condition of the check of an opened layer fails exactly where the layer keeps its rules and
/// the parents of each of its commits can be decoded.
pub fn a_layer_without_fault_is_right<E>()
    ensures { (layer : Layer) → IsOpened layer
        → (first_fault (traverse_points {E = E} layer) ≡ None) ↔ IsSoundLayer layer }
{}
/// The statistics of a layer count each of its commits once: the values of `parent_counts` add up
/// to `num_commits`.
pub fn the_parent_counts_of_a_layer_add_up(outcome: &Outcome)
    ensures { (layer : Layer) → FileStats layer outcome.now
        → sum (hash.values outcome.now.parent_counts) ≡ outcome.now.num_commits }
{
    // the contract of `len` says that no two keys are equal
    let _count = outcome.parent_counts.len();
}
