//! Commits that are handed in, wherever what they say stands.

ghost use Rattle.std.specs.Prelude.{◌≡◌, ◌<◌, Some, length, slice_get};
ghost use Rattle.gix_hash_core.specs.Oid.{oid_bytes};
ghost use Rattle.graph_writer.specs.declared.commit.NewCommit.{NewCommit};

use crate::commit::NewCommit;
use gix_hash_core::oid;

/// A commit that a layer is to have, wherever what it says stands: it can be read off, and nothing
/// has to be copied for it.
pub trait CommitView: Drop {
    /// What the commit says.
    ghost as_commit: { Self → NewCommit };

    /// It can be read off.
    ghost can_read: { Self → Type 0 };

    /// The commit's own id.
    fn id(&self) -> oid<'_>
        requires { can_read self.now }
        ensures { oid_bytes result ≡ (as_commit self.now).id };

    /// The id of its root tree.
    fn tree(&self) -> oid<'_>
        requires { can_read self.now }
        ensures { oid_bytes result ≡ (as_commit self.now).tree };

    /// How many parents it has.
    fn parent_count(&self) -> usize
        requires { can_read self.now }
        ensures { result ≡ length (as_commit self.now).parents.items };

    /// The id of its parent of this number. The first parent has number 0.
    fn parent(&self, number: usize) -> oid<'_>
        requires read { can_read self.now }
        requires there { number < length (as_commit self.now).parents.items }
        ensures { slice_get (as_commit self.now).parents.items number
            ≡ Some (oid_bytes result) };

    /// The committer's time, in seconds since 1970-01-01 00:00:00 UTC.
    fn time(&self) -> u64
        requires { can_read self.now }
        ensures { result ≡ (as_commit self.now).time };
}

/// A commit says what it is.
impl CommitView for NewCommit {
    ghost use Rattle.std.specs.Prelude.{⊤};
    ghost use Rattle.graph_writer.specs.declared.commit.NewCommit.{NewCommit};

    ghost as_commit = { λ commit. commit };

    ghost can_read = { λ _. ⊤ };

    fn id(&self) -> oid<'_> {
        self.id.as_oid()
    }

    fn tree(&self) -> oid<'_> {
        self.tree.as_oid()
    }

    fn parent_count(&self) -> usize {
        self.parents.len()
    }

    fn parent(&self, number: usize) -> oid<'_> {
        self.parents[number].as_oid()
    }

    fn time(&self) -> u64 {
        self.time
    }
}
