//! The numbers of the commits that are handed in, by their ids.

ghost use Rattle.std.specs.Prelude.{◌≡◌, ◌⊎◌, ◌<◌, ◌^◌, ℕ, List, IfOk, IfErr, Some, length, nat_eq};
ghost use Rattle.std.specs.Cmp.Lexicographic.{pointwise};
ghost use Rattle.std.specs.HashMap.{get};
ghost use Rattle.gix_chunk_core.specs.FirstFault.{first_below};
ghost use Rattle.graph_format.specs.Lookup.{scan};
ghost use Rattle.graph_writer.specs.NewCommits.{new_ids};
ghost use Rattle.graph_writer.specs.WriteRefusal.{twice_at};

use crate::commit::WriteError;
use crate::handed::Handed;
use crate::view::CommitView;
use gix_hash_core::ObjectId;
use std::alloc::Global;
use std::collections::HashMap;

/// The number of each commit by its id, or the first commit whose id an earlier one has.
pub(crate) fn numbers_of<C: CommitView>(
    alloc: Global,
    commits: &Handed<'_, C>,
) -> Result<HashMap<ObjectId, usize>, WriteError>
    ensures numbers { IfOk result (λ numbers. (id : List ℕ)
        → get (pointwise nat_eq) numbers id ≡ scan (new_ids commits.now) id) }
    ensures once { IfOk result (λ _.
        first_below (twice_at commits.now) (length commits.now) ≡ None) }
    ensures twice { IfErr result (λ e. (e ≡ WriteError.OutOfMemory)
        ⊎ (first_below (twice_at commits.now) (length commits.now) ≡ Some e)) }
{
    let mut numbers = HashMap::with_capacity(alloc, commits.len())?;
    for number in 0..commits.len() {
        let commit = commits.at(number);
        match numbers.insert(commit.id().to_owned(), number) {
            Ok(None) => {}
            Ok(Some(earlier)) => return Err(WriteError::Twice(number, earlier)),
            Err(_) => return Err(WriteError::OutOfMemory),
        }
    }
    Ok(numbers)
}
