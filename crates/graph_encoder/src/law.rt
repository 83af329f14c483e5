//! Laws of all plans.

ghost use Rattle.std.specs.Prelude.{◌≡◌, ◌<◌, ℕ, List, All, slice_index};
ghost use Rattle.graph_format.specs.Layer.{Layer, IsLayer};
ghost use Rattle.graph_encoder.specs.GitLayout.{IsInGitLayout};
ghost use Rattle.graph_encoder.specs.Plan.{IsPlan};
ghost use Rattle.graph_encoder.specs.Written.{ids_of, planned_file};
ghost use Rattle.graph_encoder.specs.Said.{IsFileOf, SaysPlan};
ghost use Rattle.graph_encoder.specs.SamePlans.{SayTheSame};
ghost use Rattle.graph_encoder.specs.declared.plan.FilePlan.{FilePlan};

use crate::plan::FilePlan;

/// The file of a plan is a file of a layer whose values are the plan's. Ids are bytes, so the first
/// number of each is below 256.
pub fn planned_files_say_their_plans(plan: &FilePlan)
    requires plan { IsPlan plan.now }
    requires bytes { All (λ id. slice_index id 0 < 256) (ids_of plan.now.commits.items) }
    ensures { (path : List ℕ) → IsFileOf plan.now (planned_file plan.now) path }
{}

/// Plans that say the same have one file, wherever their lists lie in memory.
pub fn plans_that_say_the_same_have_one_file()
    ensures { (plan other : FilePlan) → SayTheSame plan other
        → planned_file plan ≡ planned_file other }
{}

/// A file in Git's layout has the bytes of each plan that its layer says: what was decoded from it
/// encodes to the same bytes.
pub fn a_file_in_git_layout_encodes_again()
    ensures { (file path : List ℕ) (layer : Layer) (plan : FilePlan) → IsLayer file path layer
        → IsInGitLayout file layer → SaysPlan plan layer → file ≡ planned_file plan }
{}

/// The file of a plan has the bytes of each plan that its layer says.
pub fn a_planned_file_encodes_again()
    ensures { (path : List ℕ) (layer : Layer) (first plan : FilePlan) → IsPlan first
        → All (λ id. slice_index id 0 < 256) (ids_of first.commits.items)
        → IsLayer (planned_file first) path layer → IsPlan plan → SaysPlan plan layer
        → planned_file first ≡ planned_file plan }
{}

/// The file of a plan is in Git's layout.
pub fn planned_files_are_in_git_layout()
    ensures { (plan : FilePlan) (path : List ℕ) (layer : Layer) → IsPlan plan
        → All (λ id. slice_index id 0 < 256) (ids_of plan.commits.items)
        → ((i : ℕ) → slice_index (planned_file plan) i < 256)
        → IsLayer (planned_file plan) path layer → IsInGitLayout (planned_file plan) layer }
{}
