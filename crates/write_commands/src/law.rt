//! What the words of the contract mean.

ghost use Rattle.std.specs.Prelude.{◌≡◌, [], List, Option, Ok, Err};
ghost use Rattle.graph_format.specs.Layer.{Layer};
ghost use Rattle.gix_commitgraph.specs.Graph.{IsGraph};
ghost use Rattle.gix_commitgraph.specs.Sound.{Sound};
ghost use Rattle.graph_writer.specs.NewFilters.{HasFiltersOf};
ghost use Rattle.graph_writer.specs.RightThroughout.{IsRightThroughout};
ghost use Rattle.graph_writer.specs.WrittenLayers.{IsWrittenLayer};
ghost use Rattle.graph_writer.specs.declared.commit.NewCommit.{NewCommit};
ghost use Rattle.graph_writer.specs.declared.commit.WriteError.{WriteError};
ghost use Rattle.graph_writer.specs.declared.filters.NewFilters.{NewFilters};
ghost use Rattle.history_commands.specs.Check.{MayFindInAll};
ghost use Rattle.history_commands.specs.declared.check.CheckRefusal.{CheckRefusal};
ghost use Rattle.write_commands.specs.CarriedFilters.{AreCarried, CarriesFilters};
ghost use Rattle.write_commands.specs.GraphCommits.{AreCommitsOf};
ghost use Rattle.write_commands.specs.MergeReasons.{IsReasonNotToMerge};
ghost use Rattle.write_commands.specs.MergedCommits.{MayRefuseCommitsOf};
ghost use Rattle.write_commands.specs.SameCommits.{HasSameCommits};
ghost use Rattle.write_commands.specs.ShortOfMemory.{IsShortOfMemory};

/// A layer that is written with the commits of a graph says of each the same as the graph, and of
/// no other commit anything.
#[tactic(auto, using(crate::proofs::SameSteps::same_commits))]
pub fn a_layer_with_the_commits_of_a_graph_says_the_same()
    ensures { (layers : List Layer) (commits : List NewCommit) (layer : Layer)
        → AreCommitsOf layers commits → IsWrittenLayer [] commits layer
        → HasSameCommits layers layer }
{}

/// A layer that is written with the commits of a graph and the filters that they are to have has
/// the filter of each commit of the graph, or none where the graph has none that one file can have.
#[tactic(auto, using(crate::proofs::CarriedSteps::carried))]
pub fn a_layer_with_the_filters_of_a_graph_says_the_same()
    ensures { (layers : List Layer) (commits : List NewCommit) (filters : Option NewFilters)
        (layer : Layer) → AreCommitsOf layers commits → AreCarried layers filters
        → HasFiltersOf commits filters layer → CarriesFilters layers layer }
{}

/// Why the commits of a right graph are refused: an id stands at two positions, a commit is its own
/// ancestor, there are none, one extra edge list of all of them has 2^31 words or more, or memory
/// ran out.
#[tactic(auto, using(crate::proofs::ReasonSteps::reasons))]
pub fn a_right_graph_is_refused_for_few_reasons()
    ensures { (layers : List Layer) (fault : WriteError) → IsGraph layers → Sound layers
        → MayRefuseCommitsOf layers fault → IsReasonNotToMerge layers fault }
{}

/// `check` refuses a graph that is right throughout only where memory runs out. The graphs with the
/// layers that are written are right throughout.
pub fn check_refuses_no_graph_that_is_right_throughout()
    ensures { (layers : List Layer) (refusal : CheckRefusal) → IsRightThroughout layers
        → MayFindInAll (λ answer. answer ≡ Ok layers) (Err refusal) → IsShortOfMemory refusal }
{}
