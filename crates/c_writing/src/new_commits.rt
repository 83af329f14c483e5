//! Commits that C hands in for a new layer.

ghost use Rattle.std.specs.Prelude.{◌≡◌, ◌==◌, ◌+◌, ◌*◌, ◌/◌, ◌%◌, ◌<◌, All, IfNone, IsTrue};
ghost use Rattle.std.specs.Prelude.{MatchOption, length, slice_range};
ghost use Rattle.gix_hash_core.specs.Kind.{is_id_len};
ghost use Rattle.gix_hash_core.specs.Oid.{oid_bytes};
ghost use Rattle.c_writing.specs.HandedIn.{HaveIds, IsFirstWithoutIds, has_ids};
ghost use Rattle.c_writing.specs.SaidCommits.{HasFewParents};

use gix_hash_core::oid;
use graph_writer::CommitView;

/// The bytes of an id of SHA-1.
const SHA1_LEN: usize = 20;

/// The bytes of an id of SHA-256.
const SHA256_LEN: usize = 32;

/// A commit that a layer is to have: for C three pointers, each with a length, and a number.
#[repr(C)]
#[derive(Clone, Copy)]
pub struct CgNewCommit<'a> {
    /// The commit's own id, of 20 or 32 bytes.
    pub id: &'a [u8],
    /// The id of its root tree.
    pub tree: &'a [u8],
    /// The ids of its parents, one after another.
    pub parents: &'a [u8],
    /// The committer's time, in seconds since 1970-01-01 00:00:00 UTC.
    pub time: u64,
}

/// The first of these commits whose bytes are no ids, each as long as the commit's own.
pub fn first_without_ids(commits: &[CgNewCommit<'_>]) -> Option<usize>
    ensures ids { MatchOption result (HaveIds commits.now) (IsFirstWithoutIds commits.now) }
    ensures few { IfNone result (All HasFewParents commits.now) }
{
    for (number, commit) in commits.iter().enumerate() {
        if !has_ids(commit) {
            return Some(number);
        }
    }
    None
}

/// Whether the bytes of a commit are ids, each as long as its own.
fn has_ids(commit: &CgNewCommit<'_>) -> bool
    ensures ids { result ≡ has_ids commit.now }
    ensures few { HasFewParents commit.now }
{
    let size = commit.id.len();
    (size == SHA1_LEN || size == SHA256_LEN)
        && commit.tree.len() == size
        && are_whole(size, commit.parents.len())
}

/// Whether so many bytes are ids of this size, and no part of one more. The processor takes long to
/// divide, but not by a number that the compiler knows.
fn are_whole(size: usize, bytes: usize) -> bool
    requires { IsTrue (is_id_len size) }
    ensures { result ≡ (bytes % size == 0) }
{
    if size == SHA1_LEN {
        bytes % SHA1_LEN == 0
    } else {
        bytes % SHA256_LEN == 0
    }
}

/// How many ids of this size stand in so many bytes.
fn id_count(size: usize, bytes: usize) -> usize
    requires { IsTrue (is_id_len size) }
    ensures { result ≡ bytes / size }
{
    if size == SHA1_LEN {
        bytes / SHA1_LEN
    } else {
        bytes / SHA256_LEN
    }
}

/// The id of these bytes.
fn id_of(bytes: &[u8]) -> oid<'_>
    requires { IsTrue (is_id_len (length bytes.now)) }
    ensures { oid_bytes result ≡ bytes.now }
{
    oid::try_from_bytes(bytes).unwrap()
}

/// The id of a number among ids of this size, which stand one after another.
fn id_at(size: usize, ids: &[u8], number: usize) -> oid<'_>
    requires size { IsTrue (is_id_len size) }
    requires there { number < length ids.now / size }
    ensures { oid_bytes result ≡ slice_range ids.now (size * number) (size * number + size) }
{
    let start = size * number;
    id_of(&ids[start..start + size])
}

/// What C hands in of a commit is read where it stands.
impl CommitView for CgNewCommit<'_> {
    ghost use Rattle.std.specs.Prelude.{◌≡◌, true};
    ghost use Rattle.c_writing.specs.HandedIn.{has_ids};
    ghost use Rattle.c_writing.specs.SaidCommits.{said};

    ghost as_commit = { said };

    ghost can_read = { λ handed. has_ids handed ≡ true };

    fn id(&self) -> oid<'_> {
        id_of(self.id)
    }

    fn tree(&self) -> oid<'_> {
        id_of(self.tree)
    }

    fn parent_count(&self) -> usize {
        id_count(self.id.len(), self.parents.len())
    }

    fn parent(&self, number: usize) -> oid<'_> {
        id_at(self.id.len(), self.parents, number)
    }

    fn time(&self) -> u64 {
        self.time
    }
}
