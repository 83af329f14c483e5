//! How the numbers of an outcome add up. The laws take an outcome, since only a map in memory is
//! known to have each of its keys once.

ghost use Rattle.std.specs.Prelude.{◌≡◌, List, All, sum};
ghost use Rattle.std.specs.BTreeMap as tree;
ghost use Rattle.graph_format.specs.Layer.{Layer, IsOpened};
ghost use Rattle.gix_commitgraph.specs.Headline.{Stats};

use crate::verify;
pub use graph_layer::law::the_parent_counts_of_a_layer_add_up;

/// The statistics of a graph of opened layers count each of its commits once: the values of
/// `parent_counts` add up to `num_commits`.
pub fn the_parent_counts_of_a_graph_add_up(outcome: &verify::Outcome)
    ensures { (layers : List Layer) → All IsOpened layers → Stats layers outcome.now
        → sum (tree.values outcome.now.parent_counts) ≡ outcome.now.num_commits }
{
    // the contract of `len` says that the keys ascend
    let _count = outcome.parent_counts.len();
}
