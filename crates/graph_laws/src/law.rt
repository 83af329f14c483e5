//! Laws of files: which of them are the same bytes.

ghost use Rattle.std.specs.Prelude.{◌≡◌, ◌∷◌, [], ◌<◌, ℕ, List, All, slice_index};
ghost use Rattle.graph_encoder.specs.Plan.{IsPlan};
ghost use Rattle.graph_encoder.specs.Written.{ids_of, planned_file};
ghost use Rattle.graph_encoder.specs.declared.plan.FilePlan.{FilePlan};
ghost use Rattle.graph_format.specs.Layer.{Layer};
ghost use Rattle.gix_commitgraph.specs.Graph.{total};
ghost use Rattle.graph_objects.specs.Stream.{IsStreamOf};
ghost use Rattle.graph_laws.specs.OneFile.{AgreeBesides, IsLaidOut, IsRightAlone};

/// Two files of one layer that are laid out as Git does, are right and match one stream have the
/// same bytes, if they agree on what no commit says.
pub fn one_stream_makes_one_file()
    ensures { (file path other other_path bytes : List ℕ) (layer other_layer : Layer)
        → IsLaidOut file path layer → IsLaidOut other other_path other_layer
        → IsRightAlone layer → IsRightAlone other_layer → AgreeBesides layer other_layer
        → IsStreamOf (layer ∷ []) 0 (total (layer ∷ [])) bytes
        → IsStreamOf (other_layer ∷ []) 0 (total (other_layer ∷ [])) bytes → file ≡ other }
{}

/// The file of a plan is laid out so.
pub fn planned_files_are_laid_out()
    ensures { (plan : FilePlan) (path : List ℕ) → IsPlan plan
        → All (λ id. slice_index id 0 < 256) (ids_of plan.commits.items)
        → ((i : ℕ) → slice_index (planned_file plan) i < 256)
        → (layer : Layer) × IsLaidOut (planned_file plan) path layer }
{}
