//! Finding a commit by its id.

ghost use Rattle.std.specs.Prelude.{◌≡◌, ◌≢◌, ◌<◌, ℕ, List, IfErr, IfOk, IfSome, IsNone, IsTrue};
ghost use Rattle.std.specs.Prelude.{OnSome, Some, option_and_then, option_map, slice_get};
ghost use Rattle.gix_hash_core.specs.Hexadecimal.{SpellsId, SpellsNone};
ghost use Rattle.gix_hash_core.specs.Oid.{oid_bytes};
ghost use Rattle.gix_commitgraph.specs.Graph.{graph_ids, total};
ghost use Rattle.gix_commitgraph.specs.GraphLookup.{position_number};
ghost use Rattle.gix_commitgraph.specs.Lookup.{scan};
ghost use Rattle.graph_history.specs.RightGraph.{record_in};

use gix_commitgraph::Position;
use gix_hash_core::{IdError, ObjectId, oid};
use graph_history::Checked;

/// The position of the commit with an id, or `None` where the graph has no such commit. The id is
/// given in hexadecimal.
///
/// The error says why the text spells no id.
pub fn find(graph: &Checked<'_>, id: &str) -> Result<Option<Position>, IdError>
    ensures scanned { IfOk result (λ pos. (bytes : List ℕ) × SpellsId id.now bytes
        × (position_number pos ≡ scan (graph_ids graph.now.layers) bytes)) }
    ensures within { IfOk result (λ found. IfSome found (λ pos. pos.0 < total graph.now.layers)) }
    ensures refused { IfErr result (SpellsNone id.now) }
{
    let id = ObjectId::from_hex(id.as_bytes())?;
    Ok(graph.find(id.as_oid()))
}

/// The position of the commit with an id, where the check of the graph has found that no other
/// position holds the id. `None` where that was not asked, or the graph has no such commit.
pub fn only_position(graph: &Checked<'_>, id: oid<'_>) -> Option<Position>
    ensures asked { OnSome result (IsTrue graph.now.options.distinct_ids) }
    ensures holds { IfSome result (λ pos.
        slice_get (graph_ids graph.now.layers) pos.0 ≡ Some (oid_bytes id.entry)) }
    ensures only { IfSome result (λ pos. (p : ℕ)
        → slice_get (graph_ids graph.now.layers) p ≡ Some (oid_bytes id.entry) → pos.0 ≡ p) }
    ensures none { IsNone result → IsTrue graph.now.options.distinct_ids → (p : ℕ)
        → slice_get (graph_ids graph.now.layers) p ≢ Some (oid_bytes id.entry) }
{
    if graph.options().distinct_ids {
        graph.find(id)
    } else {
        None
    }
}

/// When the commit with an id was made, in seconds since 1970-01-01 00:00:00 UTC; or `None` where
/// the graph has no such commit.
pub fn time_of(graph: &Checked<'_>, id: oid<'_>) -> Option<u64>
    ensures { result ≡ option_and_then
        (λ p. option_map (λ r. r.time) (record_in graph.now.layers p))
        (scan (graph_ids graph.now.layers) (oid_bytes id.entry)) }
{
    match graph.find(id) {
        Some(pos) => Some(graph.committer_time(pos)),
        None => None,
    }
}
