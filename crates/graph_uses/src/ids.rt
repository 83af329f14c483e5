//! The ids of commits.

ghost use Rattle.std.specs.Prelude.{◌≡◌, ◌<◌, All, IfOk};
ghost use Rattle.gix_commitgraph.specs.Graph.{total};
ghost use Rattle.gix_commitgraph.specs.IdWalks.{ids_at};
ghost use Rattle.commit_search.specs.Positions.{numbers_of};

use gix_commitgraph::Position;
use gix_hash_core::ObjectId;
use graph_history::Checked;
use std::alloc::{AllocError, Global};

/// The ids of the commits at some positions, in their order.
pub(crate) fn ids_of(
    alloc: Global,
    graph: &Checked<'_>,
    positions: &[Position],
) -> Result<Vec<ObjectId>, AllocError>
    requires { All (λ pos. pos.0 < total graph.now.layers) positions.now }
    ensures { IfOk result (λ ids.
        ids.items ≡ ids_at graph.now.layers (numbers_of positions.now)) }
{
    let mut ids = Vec::new(alloc);
    for pos in positions {
        ids.push(graph.id(*pos).to_owned())?;
    }
    Ok(ids)
}
