//! Where trees come from.

ghost use Rattle.std.specs.Prelude.{◌≡◌, ℕ, List, OnOk, IfErr, Some};
ghost use Rattle.gix_hash_core.specs.declared.kind.Kind.{Kind as HashKind};
ghost use Rattle.tree_objects.specs.Tree.{TreeEntry, IsTree};
ghost use Rattle.tree_changes.specs.Stands.{World};

use gix_hash_core::Kind;

/// Trees by their ids.
///
/// A source claims nothing of trees that it was not asked for.
pub trait TreeSource {
    /// Why there is no tree.
    type Error: Drop;

    /// All trees that were read so far are those of this world.
    ghost says: { Self → World → Type 0 };

    /// The kind of the ids.
    ghost kind_is: { Self → HashKind };

    /// The source has answered this error for the tree with this id.
    ghost has_refused: { Self → List ℕ → Self.Error → Type 0 };

    /// The kind of the ids.
    fn kind(&self) -> Kind
        ensures { result ≡ kind_is self.now };

    /// Reads the tree with an id: puts its bytes, which are those of a tree, in the place of all
    /// that a buffer holds.
    ///
    /// # Errors
    ///
    /// There is no such tree.
    fn read(&mut self, id: &[u8], contents: &mut Vec<u8>) -> Result<(), Self::Error>
        ensures kind { kind_is self.new ≡ kind_is self.old }
        ensures kept { (world : World) → says self.new world → says self.old world }
        ensures tree { OnOk result ((entries : List TreeEntry)
            × IsTree (kind_is self.old) contents.new.items entries
            × ((world : World) → says self.new world → world id.now ≡ Some entries)) }
        ensures refused { IfErr result (λ error. has_refused self.new id.now error) };

    /// Says that the tree with an id will be wanted soon: a source may ask for it ahead, or do
    /// nothing. What goes wrong is told where a tree is read.
    fn hint(&mut self, id: &[u8])
        ensures kind { kind_is self.new ≡ kind_is self.old }
        ensures kept { (world : World) → says self.new world → says self.old world };
}
