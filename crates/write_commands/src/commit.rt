//! What the contents of one commit say.

ghost use Rattle.std.specs.Prelude.{◌≡◌, IfErr, IfOk};
ghost use Rattle.commit_objects.specs.Object.{object_id_of};
ghost use Rattle.write_commands.specs.NewEntries.{IsNoCommit};
ghost use Rattle.write_commands.specs.NewStream.{IsReadCommit};

use crate::error::CommitsError;
use commit_objects::{CommitObject, Parents};
use gix_hash_core::{Kind, ObjectId};
use graph_writer::NewCommit;
use std::alloc::{AllocError, Global};

/// The commit with these contents, of which this is the id. Its entry has this number.
pub(crate) fn new_commit(
    alloc: Global,
    kind: Kind,
    number: usize,
    id: ObjectId,
    contents: &[u8],
) -> Result<NewCommit, CommitsError>
    requires { id ≡ object_id_of kind contents.now }
    ensures commit { IfOk result (IsReadCommit kind contents.now) }
    ensures refused { IfErr result (IsNoCommit kind number contents.now) }
{
    match CommitObject::parse(kind, contents) {
        Ok(object) => Ok(NewCommit {
            id,
            tree: object.tree(),
            parents: listed(alloc, object.parents())?,
            time: object.newer_time(),
        }),
        Err(_) => Err(CommitsError::Unreadable(number)),
    }
}

/// The ids of parents as a list. Most commits have one, so there is room for one at first.
fn listed(alloc: Global, parents: Parents<'_>) -> Result<Vec<ObjectId>, AllocError>
    ensures { IfOk result (λ ids. ids.items ≡ parents.entry) }
{
    let mut ids = Vec::with_capacity(alloc, 1)?;
    for id in parents {
        ids.push(id)?;
    }
    Ok(ids)
}
