//! Commits that are asked for until none is lacking.

ghost use Rattle.std.specs.Prelude.{◌≡◌, ◌≢◌, ◌-◌, ◌≤◌, ◌<◌, [], All, Contains, Err, IfErr};
ghost use Rattle.std.specs.Prelude.{IfOk, IfSome, List, OnOk};
ghost use Rattle.std.specs.Prelude.{MatchOption, Option, Some, length, map, slice_get, take, ℕ};
ghost use Rattle.std.specs.Io.KnownBytes.{Appends, Consumes, prepend_known};
ghost use Rattle.commit_objects.specs.Object.{object_id_of};
ghost use Rattle.commit_search.specs.Source.{Told};
ghost use Rattle.object_requests.specs.Asked.{AreEachOnce};
ghost use Rattle.object_stream.specs.declared.object_type.ObjectType.TheVariants.{Commit};
ghost use Rattle.newer_commits.specs.Adding.{AreThere};
ghost use Rattle.newer_commits.specs.CommitsOnTop.{end_of_top};
ghost use Rattle.commit_requests.specs.Completion.{AddsInTurn, HaveIdsAmong, IsCompleteRefusal};
ghost use Rattle.commit_requests.specs.Gathering.{AreClosed, IsGatherRefusal, IsThereOrAsked};
ghost use Rattle.commit_requests.specs.Gathering.{IsToldAs};
ghost use Rattle.commit_requests.specs.Requested.{AreAskedFor, commit_entries, request_lines};

use crate::add::add_each;
use crate::error::CompleteError;
use crate::gather::Gathered;
use crate::held::HeldContents;
use crate::lists::parent_lists;
use crate::order::order_of;
use commit_objects::object_id;
use commit_search::CommitSource;
use gix_hash_core::ObjectId;
use graph_format::parents::NO_PARENT;
use graph_levels::LevelsError;
use newer_commits::{Base, Newer};
use object_requests::Requests;
use object_stream::EntryError;
use std::alloc::Global;
use std::io::{Read, Write};

/// Asks for those commits of a question that are lacking, and for all that they lead to along
/// parents and that is lacking too, and adds them, each after its parents.
///
/// # Errors
///
/// The variants of [`CompleteError`].
pub fn complete<S: Base, R: Read, W: Write>(
    alloc: Global,
    newer: &mut Newer<S>,
    requests: &mut Requests,
    ids: &[ObjectId],
    reader: &mut R,
    writer: &mut W,
) -> Result<(), CompleteError<S::Error>>
    requires none { requests.old.asked ≡ [] }
    requires untaken { requests.old.taken ≡ 0 }
    requires commits { requests.old.type ≡ Commit }
    requires kind { requests.old.kind ≡ newer.old.kind }
    ensures known { S.known newer.new.base ≡ S.known newer.old.base }
    ensures kept { (t : Told) → S.says newer.new.base t → S.says newer.old.base t }
    ensures kind { newer.new.kind ≡ newer.old.kind }
    ensures asked { (read : List (List ℕ)) × AreAskedFor newer.old.kind
        (S.finds (S.facts newer.old.base)) newer.old.commits ids.now requests.new.asked read }
    ensures added { (contents : List (List ℕ)) × AddsInTurn newer.old.kind
        (S.finds (S.facts newer.old.base)) newer.old.commits contents newer.new.commits
        × HaveIdsAmong newer.old.kind requests.new.asked contents }
    ensures there { OnOk result (AreThere (S.finds (S.facts newer.old.base)) newer.new.commits
        ids.now) }
    ensures all { OnOk result (AreThere (S.finds (S.facts newer.old.base)) newer.new.commits
        requests.new.asked) }
    ensures written { result ≢ Err CompleteError.WriteFailed → Appends (W.contents writer.old)
        (W.contents writer.new) (request_lines requests.new.asked) }
    ensures read { OnOk result ((read : List (List ℕ))
        × (requests.new.asked ≡ map (object_id_of newer.old.kind) read)
        × Consumes (prepend_known requests.old.ahead (R.remaining reader.old))
        (prepend_known requests.new.ahead (R.remaining reader.new))
        (commit_entries newer.old.kind read)) }
    ensures refused { IfErr result (IsCompleteRefusal newer.old.kind
        (S.finds (S.facts newer.old.base)) (S.may_fail (S.known newer.old.base))
        newer.old.commits newer.new.commits ids.now requests.new.asked
        (prepend_known requests.old.ahead (R.remaining reader.old))) }
{
    // By the contract of `num_waiting` no id was asked for twice.
    match gather(alloc, newer, requests, ids, reader, writer) {
        Ok(held) => {
            let _none = requests.num_waiting();
            add_all(alloc, newer, requests, &held)
        }
        Err(error) => {
            let _some = requests.num_waiting();
            Err(told_of(ids, error))
        }
    }
}

/// Reads the commits that are lacking. The contents come in the order in which they were asked for.
fn gather<S: Base, R: Read, W: Write>(
    alloc: Global,
    newer: &mut Newer<S>,
    requests: &mut Requests,
    ids: &[ObjectId],
    reader: &mut R,
    writer: &mut W,
) -> Result<HeldContents, CompleteError<S::Error>>
    requires none { requests.old.asked ≡ [] }
    requires untaken { requests.old.taken ≡ 0 }
    requires commits { requests.old.type ≡ Commit }
    requires kind { requests.old.kind ≡ newer.old.kind }
    ensures known { S.known newer.new.base ≡ S.known newer.old.base }
    ensures facts { S.facts newer.new.base ≡ S.facts newer.old.base }
    ensures kept { (t : Told) → S.says newer.new.base t → S.says newer.old.base t }
    ensures kind { newer.new.kind ≡ newer.old.kind }
    ensures commits { newer.new.commits ≡ newer.old.commits }
    ensures asked { AreEachOnce requests.new.asked → (read : List (List ℕ))
        × AreAskedFor newer.old.kind (S.finds (S.facts newer.old.base)) newer.old.commits ids.now
        requests.new.asked read }
    ensures few { length requests.new.asked ≤ 0x70000000 }
    ensures closed { IfOk result (AreClosed newer.old.kind (S.finds (S.facts newer.old.base))
        newer.old.commits requests.new.asked) }
    ensures question { OnOk result (All (IsThereOrAsked (S.finds (S.facts newer.old.base))
        newer.old.commits requests.new.asked) ids.now) }
    ensures written { result ≢ Err CompleteError.WriteFailed → Appends (W.contents writer.old)
        (W.contents writer.new) (request_lines requests.new.asked) }
    ensures read { IfOk result (λ held.
        Consumes (prepend_known requests.old.ahead (R.remaining reader.old))
        (prepend_known requests.new.ahead (R.remaining reader.new))
        (commit_entries newer.old.kind held)) }
    ensures refused { IfErr result (IsGatherRefusal newer.old.kind
        (S.may_fail (S.known newer.old.base)) newer.old.commits requests.new.asked
        (prepend_known requests.old.ahead (R.remaining reader.old))) }
{
    let most = most_asked(newer);
    let mut gathered = Gathered::new(alloc);
    match gathered.want_each(newer, requests, ids) {
        Ok(()) => {}
        Err(error) => return Err(error),
    }
    'asking: loop {
        match gathered.ask_ahead(most, requests, writer) {
            Ok(()) => {}
            Err(error) => return Err(error),
        }
        let waiting = requests.num_waiting();
        if waiting == 0 {
            return Ok(gathered.held);
        }
        match gathered.take(alloc, newer, requests, reader, writer) {
            Ok(()) => {}
            Err(error) => return Err(error),
        }
    }
}

/// How many commits may be asked for: as many as have positions beside those that are there.
fn most_asked<S: Base>(newer: &Newer<S>) -> usize
    ensures { result ≡ 0x70000000 - end_of_top newer.now.commits }
{
    (NO_PARENT as usize).saturating_sub(newer.num_commits() as usize)
}

/// Adds all commits that were read, each after its parents.
fn add_all<S: Base>(
    alloc: Global,
    newer: &mut Newer<S>,
    requests: &Requests,
    held: &HeldContents,
) -> Result<(), CompleteError<S::Error>>
    requires closed { AreClosed newer.old.kind (S.finds (S.facts newer.old.base))
        newer.old.commits requests.now.asked held.now }
    requires few { length requests.now.asked ≤ 0x70000000 }
    ensures known { S.known newer.new.base ≡ S.known newer.old.base }
    ensures facts { S.facts newer.new.base ≡ S.facts newer.old.base }
    ensures kept { (t : Told) → S.says newer.new.base t → S.says newer.old.base t }
    ensures kind { newer.new.kind ≡ newer.old.kind }
    ensures added { (contents : List (List ℕ)) × AddsInTurn newer.old.kind
        (S.finds (S.facts newer.old.base)) newer.old.commits contents newer.new.commits
        × HaveIdsAmong newer.old.kind requests.now.asked contents }
    ensures all { OnOk result (AreThere (S.finds (S.facts newer.old.base)) newer.new.commits
        requests.now.asked) }
    ensures refused { IfErr result (λ error. (ids : List (List ℕ)) (known : Option (List ℕ))
        → IsCompleteRefusal newer.old.kind (S.finds (S.facts newer.old.base))
        (S.may_fail (S.known newer.old.base)) newer.old.commits newer.new.commits ids
        requests.now.asked known error) }
{
    let lists = match parent_lists(alloc, newer.kind, requests, held) {
        Ok(lists) => lists,
        Err(_) => return Err(CompleteError::OutOfMemory),
    };
    match order_of(alloc, &lists) {
        Ok(places) => add_each(alloc, newer, held, &places),
        Err(LevelsError::Cycle(number)) => {
            let contents = held.of(number as usize);
            Err(CompleteError::Cycle(object_id(newer.kind, contents)))
        },
        Err(LevelsError::OutOfMemory) => Err(CompleteError::OutOfMemory),
    }
}

/// The error of a question with these ids: an object that is missing is told by the number of its
/// id, where it is one of these.
fn told_of<E: Drop>(ids: &[ObjectId], error: CompleteError<E>) -> CompleteError<E>
    ensures { IsToldAs ids.now error result }
{
    match missing_of(&error) {
        None => error,
        Some(id) => match number_of(ids, id) {
            Some(number) => CompleteError::Unknown(number),
            None => error,
        },
    }
}

/// The id of the object that is missing, if that is the error.
fn missing_of<E>(error: &CompleteError<E>) -> Option<ObjectId>
    ensures { MatchOption result
        ((id : List ℕ) → error.now ≢ CompleteError.Entry id EntryError.Missing)
        (λ id. error.now ≡ CompleteError.Entry id EntryError.Missing) }
{
    match error {
        CompleteError::Entry(id, EntryError::Missing) => Some(*id),
        _ => None,
    }
}

/// The number of an id among these, the first of them.
fn number_of(ids: &[ObjectId], id: ObjectId) -> Option<usize>
    ensures { MatchOption result (¬ Contains ids.now id) (λ number.
        (slice_get ids.now number ≡ Some id) × (¬ Contains (take number ids.now) id)) }
{
    for number in 0..ids.len() {
        if ids[number] == id {
            return Some(number);
        }
    }
    None
}
