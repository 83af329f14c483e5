//! What fixes the bytes of a layer.

ghost use Rattle.std.specs.Prelude.{◌≡◌, ℕ, List, Option};
ghost use Rattle.graph_encoder.specs.SamePlans.{SayTheSame};
ghost use Rattle.graph_encoder.specs.declared.plan.FilePlan.{FilePlan};
ghost use Rattle.graph_format.specs.Layer.{Layer};
ghost use Rattle.graph_writer.specs.LayerPlans.{IsPlanFor};
ghost use Rattle.graph_writer.specs.Reordered.{AreReordered};
ghost use Rattle.graph_writer.specs.WrittenFiles.{IsPlannedFile};
ghost use Rattle.graph_writer.specs.WritingRefusal.{AreAccepted};
ghost use Rattle.graph_writer.specs.declared.commit.NewCommit.{NewCommit};
ghost use Rattle.graph_writer.specs.declared.filters.NewFilters.{NewFilters};

/// Two plans for the same commits with the same filters, on top of the same layers, say the same.
pub fn a_layer_has_one_plan()
    ensures { (layers : List Layer) (commits : List NewCommit) (filters : Option NewFilters)
        (plan other : FilePlan) → IsPlanFor layers commits filters plan
        → IsPlanFor layers commits filters other → SayTheSame plan other }
{}

/// So there is one file for them: its bytes follow from the layers, the commits and the filters.
pub fn a_layer_has_one_file()
    ensures { (layers : List Layer) (commits : List NewCommit) (filters : Option NewFilters)
        (bytes others : List ℕ) → IsPlannedFile layers commits filters bytes
        → IsPlannedFile layers commits filters others → bytes ≡ others }
{}

/// Commits that nothing refuses have the same file in whatever order they are handed in, if their
/// filters are handed in in that order too.
pub fn the_order_of_commits_does_not_matter()
    ensures { (layers : List Layer) (commits others : List NewCommit)
        (filters other_filters : Option NewFilters) (bytes other_bytes : List ℕ)
        → AreAccepted layers commits → AreReordered commits filters others other_filters
        → IsPlannedFile layers commits filters bytes
        → IsPlannedFile layers others other_filters other_bytes → bytes ≡ other_bytes }
{}
