//! The definitions and the types that public contracts cite, by the crate that this one lists.

ghost use Rattle.std.specs.Prelude.{◌≡◌};
ghost use Rattle.gix_commitgraph.specs.Called.{CalledOn, InLayer, MayBeCalled};
ghost use Rattle.gix_commitgraph.specs.Commit.{commit_bytes, commit_eq, commit_layer};
ghost use Rattle.gix_commitgraph.specs.Commit.{commit_parents, layer_and_position, commit_pos};
ghost use Rattle.gix_commitgraph.specs.Commit.{commit_record};
ghost use Rattle.gix_commitgraph.specs.CommitFault.{CommitFault};
ghost use Rattle.gix_commitgraph.specs.Counts.{greatest};
ghost use Rattle.gix_commitgraph.specs.Digest.{digest_of};
ghost use Rattle.gix_commitgraph.specs.Distinct.{AreDistinct, IsDeservedWith, IsSoundWith};
ghost use Rattle.gix_commitgraph.specs.Distinct.{LookupsAreExact};
ghost use Rattle.gix_commitgraph.specs.EdgeLaw.{EndsAt, RunsOut, all_from, up_to_last};
ghost use Rattle.gix_commitgraph.specs.ExtraEdge.{ExtraEdge};
ghost use Rattle.gix_commitgraph.specs.Reports.{Reports};
ghost use Rattle.gix_commitgraph.specs.FileError.{FileError};
ghost use Rattle.gix_commitgraph.specs.Format.{commits_of, fan_id, fan_of, kind_in, least_size};
ghost use Rattle.gix_commitgraph.specs.Format.{words};
ghost use Rattle.gix_commitgraph.specs.Generations.{AreLocal, longest_path};
ghost use Rattle.gix_commitgraph.specs.Graph.{IsGraph, graph_commits, graph_ids, start, stop};
ghost use Rattle.gix_commitgraph.specs.Graph.{total};
ghost use Rattle.gix_commitgraph.specs.GraphError.{GraphError};
ghost use Rattle.gix_commitgraph.specs.GraphLaw.{AreCounted, AreScanned, IsJudged, ComesFromLayer};
ghost use Rattle.gix_commitgraph.specs.GraphLaw.{LiesIn, LiesInOne};
ghost use Rattle.gix_commitgraph.specs.GraphRemaining.{graph_commits_left, graph_ids_left};
ghost use Rattle.gix_commitgraph.specs.GraphLookup.{CommitFoundIn, FoundIn, position_number};
ghost use Rattle.gix_commitgraph.specs.GraphRefusal.{graph_refusal};
ghost use Rattle.gix_commitgraph.specs.Headline.{IsDeserved, LookupsAreScans, Stats};
ghost use Rattle.gix_commitgraph.specs.History.{Node, generation_at, generations};
ghost use Rattle.gix_commitgraph.specs.InGraph.{InGraph};
ghost use Rattle.gix_commitgraph.specs.Kind.{id_len, kind_of};
ghost use Rattle.gix_commitgraph.specs.FormatLaws.{FallIntoPieces, IsDecided, NamesFirstFall};
ghost use Rattle.gix_commitgraph.specs.Layer.{IsLayer, IsOpened, Layer, bytes_of, positions_from};
ghost use Rattle.gix_commitgraph.specs.Layer.{record_at};
ghost use Rattle.gix_commitgraph.specs.LayerFault.{LayerFault};
ghost use Rattle.gix_commitgraph.specs.LayerOpening.{IsLayerError, IsReadError, bytes_at, layer_at};
ghost use Rattle.gix_commitgraph.specs.Remaining.{base_ids_left, commits_left, ids_left};
ghost use Rattle.gix_commitgraph.specs.Lookup.{Found, bucket_size, digits, file_position_number};
ghost use Rattle.gix_commitgraph.specs.Lookup.{scan};
ghost use Rattle.gix_commitgraph.specs.LookupLaw.{IsDigitCount, IsFirst};
ghost use Rattle.gix_commitgraph.specs.NameRule.{KeepsNameRule, is_named_right};
ghost use Rattle.gix_commitgraph.specs.Oid.{oid_bytes};
ghost use Rattle.gix_commitgraph.specs.OpenAlways.{IsFileError, IsFolderError, IsFromChain};
ghost use Rattle.gix_commitgraph.specs.OpenAlways.{IsFromFile, IsFromInfo, IsFromPath, IsPathError};
ghost use Rattle.gix_commitgraph.specs.OpenAnswer.{IsAsExpected, failures_after_opening};
ghost use Rattle.gix_commitgraph.specs.OpenAnswer.{result_map};
ghost use Rattle.gix_commitgraph.specs.OpenError.TheVariants.{OutOfMemory};
ghost use Rattle.gix_commitgraph.specs.OpenRefusals.{OutOfMemoryStandsAlone};
ghost use Rattle.gix_commitgraph.specs.Opened.{IsAnswered, MayRefuse};
ghost use Rattle.gix_commitgraph.specs.Opening.{InfoOpens, MetFailureIfDevice, Opens, chain_opened};
ghost use Rattle.gix_commitgraph.specs.Opening.{file_opened};
ghost use Rattle.gix_commitgraph.specs.ParentEdge.{ParentEdge};
ghost use Rattle.gix_commitgraph.specs.ParentError.{ParentError};
ghost use Rattle.gix_commitgraph.specs.Parents.{edge_of, extra_edge_of, extra_parents, faulty};
ghost use Rattle.gix_commitgraph.specs.Parents.{first_of, items_of};
ghost use Rattle.gix_commitgraph.specs.RemainingParents.{first_hint, hint_after, parents_hint};
ghost use Rattle.gix_commitgraph.specs.RemainingParents.{parents_left};
ghost use Rattle.gix_commitgraph.specs.Paths.{join_path, layer_path};
ghost use Rattle.gix_commitgraph.specs.Points.{Agrees, calls, first_fault};
ghost use Rattle.gix_commitgraph.specs.Position.{Position};
ghost use Rattle.gix_commitgraph.specs.Refusal.{falling_refusal, refusal};
ghost use Rattle.gix_commitgraph.specs.RightLayer.{IsSoundLayer};
ghost use Rattle.gix_commitgraph.specs.Sound.{Sound};
ghost use Rattle.gix_commitgraph.specs.StoredHistory.{history_of, node_of};
ghost use Rattle.gix_commitgraph.specs.Traverse.{FileStats, IsCopyOfLayer, SummarizesLayer};
ghost use Rattle.gix_commitgraph.specs.Traverse.{traverse_cause, traverse_points};
ghost use Rattle.gix_commitgraph.specs.TraverseError.{TraverseError};
ghost use Rattle.gix_commitgraph.specs.Verify.{graph_points, points_with};
ghost use Rattle.gix_commitgraph.specs.Walks.{CountWalks, IsLongestWalk, Reaches, IsProperAncestor};
ghost use Rattle.gix_commitgraph.specs.Walks.{MatchesLongestWalk};
ghost use Rattle.gix_commitgraph.specs.Faults.{commit_fault, layer_fault};

use gix_commitgraph::Graph;

/// The number of commits of a graph.
pub fn commits(graph: &Graph) -> u32
    ensures { result ≡ total graph.now }
{
    graph.num_commits()
}
