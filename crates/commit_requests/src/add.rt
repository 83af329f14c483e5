//! Adding commits that were read.

ghost use Rattle.std.specs.Prelude.{◌≡◌, List, ℕ, All, Contains, IfErr, OnErr, OnOk, map};
ghost use Rattle.commit_objects.specs.CommitContents.{Said, Says};
ghost use Rattle.commit_search.specs.Source.{Told};
ghost use Rattle.commit_requests.specs.Completion.{AddsInTurn};
ghost use Rattle.commit_requests.specs.Placing.{AddsOrHas, ParentsComeFirst, IsNumberThere};
ghost use Rattle.commit_requests.specs.Placing.{IsLackingParent, IsOneRefusal, IsTurnRefusal};

use crate::error::CompleteError;
use crate::held::HeldContents;
use crate::order::Placed;
use gix_hash_core::ObjectId;
use newer_commits::{AddError, Base, Newer};
use std::alloc::Global;

/// Adds the commits with these contents, in this order.
pub(crate) fn add_each<S: Base>(
    alloc: Global,
    newer: &mut Newer<S>,
    held: &HeldContents,
    places: &[Placed],
) -> Result<(), CompleteError<S::Error>>
    requires order { ParentsComeFirst newer.old.kind (S.finds (S.facts newer.old.base))
        newer.old.commits held.now (map (λ place. place.number) places.now) }
    ensures known { S.known newer.new.base ≡ S.known newer.old.base }
    ensures facts { S.facts newer.new.base ≡ S.facts newer.old.base }
    ensures kept { (t : Told) → S.says newer.new.base t → S.says newer.old.base t }
    ensures kind { newer.new.kind ≡ newer.old.kind }
    ensures added { (contents : List (List ℕ))
        × AddsInTurn newer.old.kind (S.finds (S.facts newer.old.base)) newer.old.commits contents
        newer.new.commits × All (Contains held.now) contents }
    ensures there { OnOk result (All (IsNumberThere newer.old.kind
        (S.finds (S.facts newer.old.base)) newer.new.commits held.now)
        (map (λ place. place.number) places.now)) }
    ensures refused { IfErr result (IsTurnRefusal newer.old.kind
        (S.finds (S.facts newer.old.base)) (S.may_fail (S.known newer.old.base))
        newer.new.commits held.now) }
{
    for place in places {
        match add_one(alloc, newer, held.of(place.number)) {
            Ok(()) => {}
            Err(error) => return Err(error),
        }
    }
    Ok(())
}

/// Adds the commit with these contents, unless it is there.
fn add_one<S: Base>(
    alloc: Global,
    newer: &mut Newer<S>,
    contents: &[u8],
) -> Result<(), CompleteError<S::Error>>
    requires readable { (said : Said) × Says newer.old.kind contents.now said }
    ensures known { S.known newer.new.base ≡ S.known newer.old.base }
    ensures facts { S.facts newer.new.base ≡ S.facts newer.old.base }
    ensures kept { (t : Told) → S.says newer.new.base t → S.says newer.old.base t }
    ensures kind { newer.new.kind ≡ newer.old.kind }
    ensures added { OnOk result (AddsOrHas newer.old.kind (S.finds (S.facts newer.old.base))
        newer.old.commits newer.new.commits contents.now) }
    ensures same { OnErr result (newer.new.commits ≡ newer.old.commits) }
    ensures refused { IfErr result (IsOneRefusal newer.old.kind
        (S.finds (S.facts newer.old.base)) (S.may_fail (S.known newer.old.base))
        newer.old.commits contents.now) }
{
    let error = match newer.add(alloc, contents) {
        Ok(_) => return Ok(()),
        Err(error) => error,
    };
    if let Some(id) = lacking_parent(&error) {
        return Err(CompleteError::Lost(id));
    }
    match error {
        AddError::Known(_) => Ok(()),
        AddError::Full => Err(CompleteError::Full),
        AddError::OutOfMemory => Err(CompleteError::OutOfMemory),
        AddError::Source(error) => Err(CompleteError::Source(error)),
        AddError::Unreadable | AddError::Parent { .. } => unreachable!(),
    }
}

/// The id of the parent that is not there, if that is the error.
fn lacking_parent<E>(error: &AddError<E>) -> Option<ObjectId>
    ensures { IsLackingParent error.now result }
{
    match error {
        AddError::Parent { id, .. } => Some(*id),
        _ => None,
    }
}
