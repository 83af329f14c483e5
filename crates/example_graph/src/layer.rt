//! A file of five commits, the layer that it is, and damaged copies of it.

ghost use Rattle.std.specs.Prelude.{◌≡◌, ◌∷◌, [], ℕ, List, Some, None, codes};
ghost use Rattle.graph_format.specs.Layer.{IsLayer};
ghost use Rattle.gix_commitgraph.specs.Sound.{Sound};
ghost use Rattle.graph_format.specs.Layer.{decoded_layer};
ghost use Rattle.graph_format.specs.Parents.{position_of};
ghost use Rattle.graph_format.specs.Points.{first_fault};
ghost use Rattle.graph_format.specs.Refusal.{refusal};
ghost use Rattle.graph_format.specs.declared.error.FileError.TheVariants.{FanFalls};
ghost use Rattle.graph_format.specs.declared.fault.LayerFault.TheVariants.{Checksum};
ghost use Rattle.gix_commitgraph.specs.Verify.{graph_points};
ghost use Rattle.gix_commitgraph.specs.declared.verify.VerifyError.TheVariants.{Layer, Generation};
ghost use Rattle.example_graph.specs.FiveCommits.{file, layer};
ghost use Rattle.example_graph.specs.FiveCommits.{other_trailer, falling_fan, wrong_generation};

use gix_commitgraph::law::sound::a_graph_without_fault_is_right;
use graph_format::law::each_is_answered;

/// The file is that of the layer, whatever its path.
pub fn the_file_is_that_of_the_layer()
    ensures { (path : List ℕ) → IsLayer file path (layer path) }
{
    each_is_answered();
}

/// Alone the layer is a right graph.
pub fn the_graph_is_right()
    ensures { Sound (layer (codes "commit-graph") ∷ []) }
{
    the_file_is_that_of_the_layer();
    a_graph_without_fault_is_right::<()>();
}

/// Damaged copies are refused for what is wrong with them: bytes that are no file, and files of
/// layers that are no right graph.
pub fn damaged_copies_are_refused()
    ensures falling_fan { refusal falling_fan ≡ Some (FanFalls 255) }
    ensures other_trailer { first_fault (graph_points {E = Unit {0}}
        (decoded_layer other_trailer (codes "commit-graph") ∷ [])) ≡ Some (Layer 0 Checksum) }
    ensures wrong_generation { first_fault (graph_points {E = Unit {0}}
        (decoded_layer wrong_generation (codes "commit-graph") ∷ []))
        ≡ Some (Generation (position_of 3) 4) }
{}
