//! What the definitions of streams mean.

ghost use Rattle.std.specs.Prelude.{◌≡◌, ◌↔◌, ◌<◌, ◌++◌, ℕ, List, All};
ghost use Rattle.gix_hash_core.specs.declared.kind.Kind.{Kind};
ghost use Rattle.graph_walks.specs.Walks.{Reaches};
ghost use Rattle.graph_format.specs.Layer.{Layer, IsOpened};
ghost use Rattle.graph_format.specs.StoredHistory.{history_of};
ghost use Rattle.gix_commitgraph.specs.Distinct.{AreDistinct};
ghost use Rattle.gix_commitgraph.specs.Graph.{graph_ids, total};
ghost use Rattle.gix_commitgraph.specs.Sound.{Sound};
ghost use Rattle.graph_objects.specs.CommitWalks.{CommitsLead};
ghost use Rattle.graph_objects.specs.Matching.{MatchesAt};
ghost use Rattle.graph_objects.specs.Mismatches.{MismatchesAt};
ghost use Rattle.graph_objects.specs.OneGraph.{HaveNoTwoContents, HaveTheSameCommits};
ghost use Rattle.graph_objects.specs.OneGraph.{IsOneGraph};
ghost use Rattle.graph_objects.specs.Stream.{graph_id_at, IsStreamOf};
ghost use Rattle.graph_objects.specs.Stream.{IsStreamRefusal};
ghost use Rattle.graph_objects.specs.declared.Mismatch.{Mismatch};
ghost use Rattle.graph_objects.specs.declared.error.ObjectsError.{ObjectsError};

/// A commit that matches bytes has no mismatch with them.
pub fn a_match_is_no_mismatch()
    ensures { (layers : List Layer) (p : ℕ) (bytes : List ℕ) (mismatch : Mismatch)
        → MatchesAt layers p bytes → ¬ MismatchesAt layers p bytes mismatch }
{}

/// A stream that is right is not refused. So [`check_objects`](crate::check_objects) answers Ok for
/// it, unless a read fails or memory is wanting.
pub fn a_right_stream_is_not_refused()
    ensures { (layers : List Layer) (from to : ℕ) (bytes : List ℕ) (error : ObjectsError)
        → IsStreamOf layers from to bytes → ¬ IsStreamRefusal layers from to bytes error }
{}

/// A stream is refused for one reason alone.
pub fn a_stream_is_refused_for_one_reason()
    ensures { (layers : List Layer) (from to : ℕ) (bytes : List ℕ) (error other : ObjectsError)
        → IsStreamRefusal layers from to bytes error → IsStreamRefusal layers from to bytes other
        → error ≡ other }
{}

/// Two parts that join are a whole.
pub fn parts_that_join_are_a_whole()
    ensures { (layers : List Layer) (from middle to : ℕ) (front back : List ℕ)
        → IsStreamOf layers from middle front → IsStreamOf layers middle to back
        → IsStreamOf layers from to (front ++ back) }
{}

/// In a graph that matches its stream, one commit leads to another along parents only where a list
/// of the stream's commits leads from the one's id to the other's, each named in a `parent` line of
/// the one before it. Where no id stands at two positions, it does so exactly there.
pub fn walks_of_a_graph_that_matches_are_those_along_parent_lines()
    ensures only { (layers : List Layer) (kind : Kind) (bytes : List ℕ)
        (stream : IsStreamOf layers 0 (total layers) bytes) (p q : ℕ) → All IsOpened layers
        → All (λ layer. layer.kind ≡ kind) layers → Reaches (history_of layers) p q
        → CommitsLead kind stream.contents (graph_id_at layers p) (graph_id_at layers q) }
    ensures exactly { (layers : List Layer) (kind : Kind) (bytes : List ℕ)
        (stream : IsStreamOf layers 0 (total layers) bytes) (p q : ℕ) → All IsOpened layers
        → All (λ layer. layer.kind ≡ kind) layers → AreDistinct layers
        → p < total layers → q < total layers
        → Reaches (history_of layers) p q
        ↔ CommitsLead kind stream.contents (graph_id_at layers p) (graph_id_at layers q) }
{}

/// Two graphs that match one stream have the same commits: as many, and each with the same id, root
/// tree and parents, by their ids. Nothing is asked of the digests.
pub fn one_stream_makes_one_history()
    ensures { (one other : List Layer) (kind : Kind) (bytes : List ℕ)
        → All (λ layer. layer.kind ≡ kind) one → All (λ layer. layer.kind ≡ kind) other
        → IsStreamOf one 0 (total one) bytes → IsStreamOf other 0 (total other) bytes
        → HaveTheSameCommits one other }
{}

/// Two right graphs that match one stream are one graph, if no id stands at two positions: they
/// have the same ids, the same parents by position, and the same generation numbers.
pub fn one_stream_makes_one_graph()
    ensures { (one other : List Layer) (kind : Kind) (bytes : List ℕ) → All IsOpened one
        → All IsOpened other → All (λ layer. layer.kind ≡ kind) one
        → All (λ layer. layer.kind ≡ kind) other → AreDistinct one → Sound one → Sound other
        → IsStreamOf one 0 (total one) bytes → IsStreamOf other 0 (total other) bytes
        → IsOneGraph one other }
{}

/// Two graphs with the same ids that match a stream each have the same commits, if none of these
/// ids has two contents: the history of a graph that matches is that of the objects with its ids.
pub fn ids_make_one_history()
    ensures { (one other : List Layer) (kind : Kind) (bytes more : List ℕ)
        → All (λ layer. layer.kind ≡ kind) one → All (λ layer. layer.kind ≡ kind) other
        → (first : IsStreamOf one 0 (total one) bytes)
        → (second : IsStreamOf other 0 (total other) more)
        → graph_ids one ≡ graph_ids other
        → HaveNoTwoContents kind first.contents second.contents
        → HaveTheSameCommits one other }
{}
