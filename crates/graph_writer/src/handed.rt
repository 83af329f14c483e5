//! The commits that are handed in. A contract sees what they say, wherever that stands.

ghost use Rattle.std.specs.Prelude.{◌≡◌, ◌==◌, ◌<◌, All, Some, length, map, slice_get};
ghost use Rattle.gix_hash_core.specs.Oid.{oid_bytes};

use crate::commit::NewCommit;
use crate::view::CommitView;
use gix_hash_core::oid;
use std::marker::Model;

/// The commits that are handed in.
#[derive(Drop)]
pub(crate) struct Handed<'a, C: CommitView> {
    commits: &'a [C],
}

impl<'a, C: CommitView> Model for Handed<'a, C> {
    ghost use Rattle.std.specs.Prelude.{List, All, map};
    ghost use Rattle.graph_writer.specs.declared.commit.NewCommit.{NewCommit};

    ghost Value = { List NewCommit };

    ghost view = { λ a. map C.as_commit a.commits.now };

    ghost invariant = { λ a. All C.can_read a.commits.now };
}

impl<'a, C: CommitView> Handed<'a, C> {
    /// What these commits say.
    pub(crate) fn of(commits: &'a [C]) -> Handed<'a, C>
        requires { All C.can_read commits.now }
        ensures { result ≡ map C.as_commit commits.now }
    {
        Handed { commits }
    }

    /// How many there are.
    pub(crate) fn len(&self) -> usize
        ensures { result ≡ length self.now }
    {
        self.commits.len()
    }

    /// Whether there are none.
    pub(crate) fn is_empty(&self) -> bool
        ensures { result ≡ (length self.now == 0) }
    {
        self.commits.is_empty()
    }

    /// The commit of a number.
    pub(crate) fn at(&self, number: usize) -> HandedCommit<'a, C>
        requires { number < length self.now }
        ensures { slice_get self.now number ≡ Some result }
    {
        let commits = self.commits;
        HandedCommit {
            commit: &commits[number],
        }
    }
}

/// Commits that say what they are.
pub(crate) fn handed_in(commits: &[NewCommit]) -> Handed<'_, NewCommit>
    ensures { result ≡ commits.now }
{
    Handed::of(commits)
}

/// One of the commits that are handed in.
#[derive(Drop)]
pub(crate) struct HandedCommit<'a, C: CommitView> {
    commit: &'a C,
}

impl<'a, C: CommitView> Model for HandedCommit<'a, C> {
    ghost use Rattle.graph_writer.specs.declared.commit.NewCommit.{NewCommit};

    ghost Value = { NewCommit };

    ghost view = { λ a. C.as_commit a.commit.now };

    ghost invariant = { λ a. C.can_read a.commit.now };
}

impl<'a, C: CommitView> HandedCommit<'a, C> {
    /// The commit's own id.
    pub(crate) fn id(&self) -> oid<'a>
        ensures { oid_bytes result ≡ self.now.id }
    {
        let commit = self.commit;
        commit.id()
    }

    /// The id of its root tree.
    pub(crate) fn tree(&self) -> oid<'a>
        ensures { oid_bytes result ≡ self.now.tree }
    {
        let commit = self.commit;
        commit.tree()
    }

    /// How many parents it has.
    pub(crate) fn parent_count(&self) -> usize
        ensures { result ≡ length self.now.parents.items }
    {
        self.commit.parent_count()
    }

    /// The id of its parent of this number.
    pub(crate) fn parent(&self, number: usize) -> oid<'a>
        requires { number < length self.now.parents.items }
        ensures { slice_get self.now.parents.items number ≡ Some (oid_bytes result) }
    {
        let commit = self.commit;
        commit.parent(number)
    }

    /// The committer's time.
    pub(crate) fn time(&self) -> u64
        ensures { result ≡ self.now.time }
    {
        self.commit.time()
    }
}
