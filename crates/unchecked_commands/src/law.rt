//! A law of the graph that stands at a path.

ghost use Rattle.std.specs.Prelude.{ℕ, List, Some};
ghost use Rattle.graph_folder.specs.Tree.{Tree};
ghost use Rattle.graph_parts.specs.PathOpening.{opened_at};
ghost use Rattle.graph_commands.specs.OpenerAnswer.{MayOpen};
ghost use Rattle.unchecked_commands.specs.OnlyAnswer.{IsOnlyAnswer};

/// Where it is known what stands in the folder, the opener has one answer alone: the graph that
/// stands at the path, or why it is refused.
pub fn a_known_tree_has_one_answer()
    ensures { (tree : Tree) (path : List ℕ)
        → IsOnlyAnswer (MayOpen (Some tree) path) (opened_at tree path) }
{}
