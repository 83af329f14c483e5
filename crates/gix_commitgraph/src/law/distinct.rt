//! When each id of a graph stands at one position alone, and that the check which is asked for it
//! finds this out.

ghost use Rattle.std.specs.Prelude.{◌≡◌, ◌↔◌, ◌<◌, ℕ, List, All, Some, None, IsTrue, true};
ghost use Rattle.std.specs.Prelude.{slice_get};
ghost use Rattle.graph_format.specs.Layer.{Layer, IsOpened};
ghost use Rattle.graph_format.specs.Lookup.{scan};
ghost use Rattle.graph_format.specs.Points.{first_fault};
ghost use Rattle.graph_format.specs.declared.Position.{Position};
ghost use Rattle.gix_commitgraph.specs.Distinct.{AreDistinct, IsSoundWith};
ghost use Rattle.gix_commitgraph.specs.Graph.{graph_ids, total};
ghost use Rattle.gix_commitgraph.specs.Sound.{Sound};
ghost use Rattle.gix_commitgraph.specs.Verify.{points_with};
ghost use Rattle.gix_commitgraph.specs.declared.verify.VerifyError.TheVariants as error;
ghost use Rattle.gix_commitgraph.specs.declared.verify.VerifyOptions.{VerifyOptions};

/// No condition of the check of a graph of opened layers fails exactly where the graph is right
/// and, if the options ask for it, no id stands at two positions.
pub fn a_graph_that_keeps_what_is_asked_is_without_fault<E>()
    ensures { (options : VerifyOptions) (layers : List Layer) → All IsOpened layers
        → (first_fault (points_with {E = E} options layers) ≡ None) ↔ IsSoundWith options layers }
{}

/// Where a graph of opened layers is right, no condition of the check for distinct ids fails
/// exactly where the ids are distinct.
pub fn distinct_ids_are_without_fault<E>()
    ensures { (layers : List Layer) → All IsOpened layers → Sound layers
        → (first_fault (points_with {E = E} (record { distinct_ids = true }) layers) ≡ None)
        ↔ AreDistinct layers }
{}

/// The check of a graph names a repeated id only where the options ask for distinct ids. So
/// [`Graph::verify_integrity`](crate::Graph::verify_integrity) never answers `DuplicateId`.
pub fn a_repeated_id_is_named_only_where_that_is_asked<E>()
    ensures { (options : VerifyOptions) (layers : List Layer) (pos earlier : Position)
        → first_fault (points_with {E = E} options layers) ≡ Some (error.DuplicateId pos earlier)
        → IsTrue options.distinct_ids }
{}

/// Where the ids of a graph are distinct, a plain scan answers a position exactly where it holds
/// the id.
pub fn a_scan_of_distinct_ids_is_exact()
    ensures { (layers : List Layer) (id : List ℕ) (p : ℕ) → AreDistinct layers
        → (scan (graph_ids layers) id ≡ Some p)
        ↔ ((p < total layers) × (slice_get (graph_ids layers) p ≡ Some id)) }
{}
