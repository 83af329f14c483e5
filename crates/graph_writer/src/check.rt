//! What commits say by themselves.

ghost use Rattle.std.specs.Prelude.{◌≡◌, length};
ghost use Rattle.std.specs.List.{list_all};
ghost use Rattle.gix_chunk_core.specs.FirstFault.{first_below};
ghost use Rattle.gix_hash_core.specs.Oid.{oid_bytes};
ghost use Rattle.graph_format.specs.Faults.{is_null};
ghost use Rattle.graph_format.specs.Reports.{Reports};
ghost use Rattle.graph_writer.specs.WriteRefusal.{is_of_kind, has_ids_of_kind, own_refusal};
ghost use Rattle.graph_writer.specs.WriteRefusal.{own_refusal_at};

use crate::commit::WriteError;
use crate::handed::{Handed, HandedCommit};
use crate::view::CommitView;
use gix_hash_core::{Kind, oid};
use graph_format::records::TIME_BITS;

/// A record has no room for this time, nor for a later one ("Commit Data").
const TIME_LIMIT: u64 = 1 << TIME_BITS;

/// Refuses the first commit that is wrong by itself, whatever the others are.
pub(crate) fn check_each<C: CommitView>(
    kind: Kind,
    commits: &Handed<'_, C>,
) -> Result<(), WriteError>
    ensures { Reports result (first_below (own_refusal_at kind commits.now) (length commits.now)) }
{
    for number in 0..commits.len() {
        let commit = commits.at(number);
        match own_refusal(kind, number, &commit) {
            Some(error) => return Err(error),
            None => {}
        }
    }
    Ok(())
}

/// What is wrong with the commit of this number by itself.
fn own_refusal<C: CommitView>(
    kind: Kind,
    number: usize,
    commit: &HandedCommit<'_, C>,
) -> Option<WriteError>
    ensures { result ≡ own_refusal kind number commit.now }
{
    if !has_ids_of_kind(kind, commit) {
        Some(WriteError::Kind(number))
    } else if is_null(commit.id()) {
        Some(WriteError::NullId(number))
    } else if is_null(commit.tree()) {
        Some(WriteError::NullTree(number))
    } else if commit.time() >= TIME_LIMIT {
        Some(WriteError::Time(number))
    } else {
        None
    }
}

/// Whether all ids that a commit names are of this kind.
fn has_ids_of_kind<C: CommitView>(kind: Kind, commit: &HandedCommit<'_, C>) -> bool
    ensures { result ≡ has_ids_of_kind kind commit.now }
{
    is_of_kind(kind, commit.id())
        && is_of_kind(kind, commit.tree())
        && has_parents_of_kind(kind, commit)
}

/// Whether the ids of its parents are.
fn has_parents_of_kind<C: CommitView>(kind: Kind, commit: &HandedCommit<'_, C>) -> bool
    ensures { result ≡ list_all (is_of_kind kind) commit.now.parents.items }
{
    for number in 0..commit.parent_count() {
        if !is_of_kind(kind, commit.parent(number)) {
            return false;
        }
    }
    true
}

/// Whether an id is of this kind.
fn is_of_kind(kind: Kind, id: oid<'_>) -> bool
    ensures { result ≡ is_of_kind kind (oid_bytes id.entry) }
{
    id.as_bytes().len() == kind.len_in_bytes()
}

/// Whether all bytes of an id are zero.
fn is_null(id: oid<'_>) -> bool
    ensures { result ≡ is_null (oid_bytes id.entry) }
{
    id.is_null()
}
