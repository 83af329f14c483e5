//! Which of the commits that were read are parents of which.

ghost use Rattle.std.specs.Prelude.{◌≡◌, ◌^◌, ◌<◌, ◌≤◌, [], All, IfOk, length, OnOk};
ghost use Rattle.commit_objects.specs.CommitContents.{Said, Says};
ghost use Rattle.commit_requests.specs.Placing.{AddsNumber, AreListsOf, AreNumbersIn};
ghost use Rattle.commit_requests.specs.Placing.{HasNumbers};

use crate::held::HeldContents;
use commit_objects::{CommitObject, Parents};
use gix_hash_core::{Kind, ObjectId};
use graph_levels::ParentLists;
use object_requests::Requests;
use std::alloc::{AllocError, Global};

/// The numbers of the parents of each of these commits, among those that were asked for.
pub(crate) fn parent_lists(
    alloc: Global,
    kind: Kind,
    requests: &Requests,
    held: &HeldContents,
) -> Result<ParentLists, AllocError>
    requires readable { All (λ bytes. (said : Said) × Says kind bytes said) held.now }
    requires few { length requests.now.asked < 2 ^ 32 }
    ensures { IfOk result (AreListsOf kind requests.now.asked held.now) }
{
    let mut lists = ParentLists::new(alloc);
    let mut numbers = Vec::new(alloc);
    for number in 0..held.len() {
        put_numbers(&mut numbers, kind, requests, held.of(number))?;
        lists.push(&numbers)?;
    }
    Ok(lists)
}

/// Puts the numbers of those parents of a commit that were asked for in the place of others.
fn put_numbers(
    numbers: &mut Vec<u32>,
    kind: Kind,
    requests: &Requests,
    contents: &[u8],
) -> Result<(), AllocError>
    requires readable { (said : Said) × Says kind contents.now said }
    requires few { length requests.now.asked < 2 ^ 32 }
    ensures { OnOk result (HasNumbers kind requests.now.asked contents.now numbers.new.items) }
{
    numbers.clear();
    match CommitObject::parse(kind, contents) {
        Ok(commit) => push_numbers(numbers, requests, commit.parents()),
        Err(_) => Ok(()),
    }
}

/// Adds the numbers of those of the parents that were asked for.
fn push_numbers(
    numbers: &mut Vec<u32>,
    requests: &Requests,
    parents: Parents<'_>,
) -> Result<(), AllocError>
    requires none { numbers.old.items ≡ [] }
    requires few { length requests.now.asked < 2 ^ 32 }
    ensures { OnOk result (AreNumbersIn requests.now.asked parents.entry numbers.new.items) }
{
    for id in parents {
        push_number(numbers, requests, id)?;
    }
    Ok(())
}

/// Adds the number of a parent, if it was asked for.
fn push_number(numbers: &mut Vec<u32>, requests: &Requests, id: ObjectId) -> Result<(), AllocError>
    requires { length requests.now.asked < 2 ^ 32 }
    ensures { OnOk result (AddsNumber requests.now.asked numbers.old.items numbers.new.items id) }
{
    match requests.number_of(&id) {
        Some(number) => {
            numbers.push(number as u32)?;
            Ok(())
        }
        None => Ok(()),
    }
}
