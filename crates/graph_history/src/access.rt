//! What a right graph says of its commits.

ghost use Rattle.std.specs.Prelude.{◌≡◌, ◌↔◌, ◌<◌, ◌≤◌, ℕ, All, IfNone, IfSome, Some, map};
ghost use Rattle.std.specs.Prelude.{option_map, slice_get};
ghost use Rattle.gix_hash_core.specs.Oid.{oid_bytes};
ghost use Rattle.graph_walks.specs.History.{generation_at, parents_at};
ghost use Rattle.graph_format.specs.Lookup.{scan};
ghost use Rattle.graph_format.specs.StoredHistory.{history_of};
ghost use Rattle.gix_commitgraph.specs.Distinct.{AreDistinct};
ghost use Rattle.gix_commitgraph.specs.Graph.{IsGraph, graph_ids, total};
ghost use Rattle.gix_commitgraph.specs.GraphLookup.{position_number};
ghost use Rattle.gix_commitgraph.specs.Sound.{Sound};
ghost use Rattle.graph_history.specs.RightGraph.{record_in};

use crate::checked::Checked;
use crate::parents::ParentPositions;
use gix_commitgraph::law::distinct::a_scan_of_distinct_ids_is_exact;
use gix_commitgraph::law::graph::{
    the_commits_of_layers_add_up, the_history_of_a_graph_says_what_its_records_say,
};
use gix_commitgraph::law::sound::a_lookup_in_a_right_graph_is_a_scan;
use gix_commitgraph::{Graph, Position};
use gix_hash_core::oid;

impl<'g> Checked<'g> {
    /// The number of commits. Their positions are those below it.
    pub fn num_commits(&self) -> u32
        ensures commits { result ≡ total self.now.layers }
        ensures right { Sound self.now.layers }
        ensures graph { IsGraph self.now.layers }
    {
        self.graph().num_commits()
    }

    /// The position of this number, or `None` where it is not below `num_commits()`.
    pub fn position(&self, number: u32) -> Option<Position>
        ensures some { IfSome result (λ pos. (pos.0 ≡ number) × (pos.0 < total self.now.layers)) }
        ensures none { IfNone result (total self.now.layers ≤ number) }
    {
        (number < self.num_commits()).then_some(Position(number))
    }

    /// The least position of an id, or `None` where the graph does not have it: what a scan of all
    /// ids answers ("OID Lookup"). Where the check asked for distinct ids, it is the only position.
    pub fn find(&self, id: oid<'_>) -> Option<Position>
        ensures scanned { position_number result
            ≡ scan (graph_ids self.now.layers) (oid_bytes id.entry) }
        ensures within { IfSome result (λ pos. pos.0 < total self.now.layers) }

        // With distinct ids, a position is answered exactly where it holds the id.
        ensures exact { AreDistinct self.now.layers → (p : ℕ) → (position_number result ≡ Some p)
            ↔ ((p < total self.now.layers)
            × (slice_get (graph_ids self.now.layers) p ≡ Some (oid_bytes id.entry))) }
    {
        least_position(self.graph(), id)
    }

    /// The id of the commit at a position ("OID Lookup").
    pub fn id(&self, pos: Position) -> oid<'g>
        requires { pos.0 < total self.now.layers }
        ensures { slice_get (graph_ids self.now.layers) pos.0 ≡ Some (oid_bytes result) }
    {
        self.graph().id_at(pos)
    }

    /// The generation number of the commit at a position: the number of commits on the longest walk
    /// along parents that begins with it, at most 1073741823 ("Commit Data").
    pub fn generation(&self, pos: Position) -> u32
        requires { pos.0 < total self.now.layers }
        ensures { result ≡ generation_at (history_of self.now.layers) pos.0 }
    {
        the_history_of_a_graph_says_what_its_records_say();
        prove!(pos.0 < self.num_commits());
        self.graph().commit_at(pos).generation()
    }

    /// When the commit at a position was made: the committer's time, in seconds since 1970-01-01
    /// 00:00:00 UTC, at most 17179869183 ("Commit Data").
    pub fn committer_time(&self, pos: Position) -> u64
        requires { pos.0 < total self.now.layers }
        ensures { option_map (λ r. r.time) (record_in self.now.layers pos.0) ≡ Some result }
    {
        self.graph().commit_at(pos).committer_timestamp()
    }

    /// The id of the root tree of the commit at a position ("Commit Data").
    pub fn root_tree(&self, pos: Position) -> oid<'g>
        requires { pos.0 < total self.now.layers }
        ensures { option_map (λ r. r.tree) (record_in self.now.layers pos.0)
            ≡ Some (oid_bytes result) }
    {
        self.graph().commit_at(pos).root_tree_id()
    }

    /// The positions of the parents of the commit at a position, first parent first ("Commit Data",
    /// "Extra Edge List"). In a right graph all of them are there.
    pub fn parents(&self, pos: Position) -> ParentPositions<'g>
        requires { pos.0 < total self.now.layers }
        ensures exact { map (λ q. q.0) result ≡ parents_at (history_of self.now.layers) pos.0 }
        ensures within { All (λ q. q.0 < total self.now.layers) result }
    {
        ParentPositions::new(self.graph(), pos)
    }
}

/// The least position of an id in a right graph.
fn least_position(graph: &Graph, id: oid<'_>) -> Option<Position>
    requires { Sound graph.now }
    ensures scanned { position_number result ≡ scan (graph_ids graph.now) (oid_bytes id.entry) }
    ensures within { IfSome result (λ pos. pos.0 < total graph.now) }
    ensures exact { AreDistinct graph.now → (p : ℕ) → (position_number result ≡ Some p)
        ↔ ((p < total graph.now)
        × (slice_get (graph_ids graph.now) p ≡ Some (oid_bytes id.entry))) }
{
    a_lookup_in_a_right_graph_is_a_scan();
    a_scan_of_distinct_ids_is_exact();
    the_commits_of_layers_add_up();
    graph.lookup(id)
}
