//! What the type of a checked graph says: the graph is right.

ghost use Rattle.std.specs.Prelude.{◌≡◌};
ghost use Rattle.gix_commitgraph.specs.Sound.{Sound};

use gix_commitgraph::Graph;
use graph_history::{Checked, CheckedGraph};

/// Says to the prover that a checked graph is right. One call does it.
pub fn tell_right(checked: &Checked<'_>)
    ensures { Sound checked.now.layers }
{
    checked.graph();
}

/// Takes the graph out of its check, for the openers and checks of the crate below.
pub fn unchecked(checked: CheckedGraph) -> Graph
    ensures same { result ≡ checked.layers }
    ensures right { Sound result }
{
    checked.into_graph()
}
