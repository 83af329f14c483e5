//! Others, who may change the files that questions are answered from.

ghost use Rattle.std.specs.Prelude.{◌≡◌, ◌+◌, ℕ, Option};
ghost use Rattle.graph_folder.specs.Tree.{Tree};

use graph_folder::folder::Folder;

/// Others who may write to a folder while questions are answered. They have their turn before each
/// time that a path is opened anew, so that what stands there then may be another graph.
///
/// What stands on a disk is not known, and who else writes to it has no need of turns.
pub trait Others<T: Folder> {
    /// What they make of that which stands at each path, where it is known: in the turn with this
    /// number, from 0, of those that they still have.
    ghost makes: { Self → ℕ → Option Tree → Option Tree };

    /// Gives them their turn.
    fn act(&mut self, folder: &mut T)
        ensures tree { T.tree folder.new ≡ makes self.old 0 (T.tree folder.old) }
        ensures later { (turn : ℕ) (tree : Option Tree)
            → makes self.new turn tree ≡ makes self.old (turn + 1) tree }
        ensures failures { T.failure_count folder.new ≡ T.failure_count folder.old };
}

/// Nobody else: what stands in the folder stays.
#[derive(Clone, Copy, Debug)]
pub struct Nobody;

impl<T: Folder> Others<T> for Nobody {
    ghost makes = { λ _ _ tree. tree };

    fn act(&mut self, _folder: &mut T) {}
}
