//! Commits that are asked for, with all that they lead to and that is lacking.

ghost use Rattle.std.specs.Prelude.{◌≡◌, ◌≢◌, ◌+◌, ◌<◌, ◌≤◌, ◌^◌, ◌∷◌, [], All, Contains, Err};
ghost use Rattle.std.specs.Prelude.{IfErr, IfOk, List};
ghost use Rattle.std.specs.Prelude.{OnOk, Option, length, ℕ};
ghost use Rattle.std.specs.Io.KnownBytes.{Appends, Consumes, Keeps, prepend_known};
ghost use Rattle.commit_search.specs.Source.{Told};
ghost use Rattle.object_requests.specs.Asked.{most_waiting, waiting};
ghost use Rattle.object_stream.specs.declared.object_type.ObjectType.TheVariants.{Commit};
ghost use Rattle.commit_requests.specs.Requested.{commit_entries, request_lines};
ghost use Rattle.commit_requests.specs.Gathering.{AsksMore, IsAskOneRefusal, IsAskRefusal};
ghost use Rattle.commit_requests.specs.Gathering.{IsTakeRefusal, MayAsk, complete_error};
ghost use Rattle.commit_requests.specs.Gathering.{IsWantRefusal, ReadsCommit, StillWants};
ghost use Rattle.commit_requests.specs.Gathering.{WantsMore};

use crate::error::CompleteError;
use crate::held::HeldContents;
use commit_objects::{CommitObject, Parents};
use gix_hash_core::ObjectId;
use newer_commits::{Base, Newer};
use object_requests::{AskError, RequestError, Requests};
use std::alloc::Global;
use std::collections::VecDeque;
use std::io::{Read, Write};

/// What was read of the commits that were asked for, and what is still to be asked for.
#[derive(Drop)]
pub(crate) struct Gathered {
    /// The contents of the commits that were read, in the order in which they were asked for.
    pub(crate) held: HeldContents,
    /// Ids of commits that are lacking. Some may stand here twice, or be asked for already.
    pub(crate) wanted: VecDeque<ObjectId>,
}

impl Gathered {
    /// Nothing was read, and nothing is wanted.
    pub(crate) fn new(alloc: Global) -> Gathered
        ensures held { result.held ≡ [] }
        ensures wanted { result.wanted.items ≡ [] }
    {
        Gathered {
            held: HeldContents::new(alloc),
            wanted: VecDeque::new(alloc),
        }
    }

    /// Wants a commit, where it is lacking and was not asked for.
    fn want<S: Base>(
        &mut self,
        newer: &mut Newer<S>,
        requests: &Requests,
        id: ObjectId,
    ) -> Result<(), CompleteError<S::Error>>
        ensures known { S.known newer.new.base ≡ S.known newer.old.base }
        ensures facts { S.facts newer.new.base ≡ S.facts newer.old.base }
        ensures kept { (t : Told) → S.says newer.new.base t → S.says newer.old.base t }
        ensures kind { newer.new.kind ≡ newer.old.kind }
        ensures commits { newer.new.commits ≡ newer.old.commits }
        ensures held { self.new.held ≡ self.old.held }
        ensures wanted { OnOk result (WantsMore (S.finds (S.facts newer.old.base))
            newer.old.commits requests.now.asked self.old.wanted.items self.new.wanted.items
            (id ∷ [])) }
        ensures refused { IfErr result (IsWantRefusal (S.may_fail (S.known newer.old.base))) }
    {
        if let Some(_) = requests.number_of(&id) {
            return Ok(());
        }
        match newer.position_of(id.as_oid()) {
            Ok(Some(_)) => Ok(()),
            Ok(None) => match self.wanted.push_back(id) {
                Ok(()) => Ok(()),
                Err(_) => Err(CompleteError::OutOfMemory),
            },
            Err(error) => Err(CompleteError::Source(error)),
        }
    }

    /// Wants the commits with these ids.
    pub(crate) fn want_each<S: Base>(
        &mut self,
        newer: &mut Newer<S>,
        requests: &Requests,
        ids: &[ObjectId],
    ) -> Result<(), CompleteError<S::Error>>
        ensures known { S.known newer.new.base ≡ S.known newer.old.base }
        ensures facts { S.facts newer.new.base ≡ S.facts newer.old.base }
        ensures kept { (t : Told) → S.says newer.new.base t → S.says newer.old.base t }
        ensures kind { newer.new.kind ≡ newer.old.kind }
        ensures commits { newer.new.commits ≡ newer.old.commits }
        ensures held { self.new.held ≡ self.old.held }
        ensures wanted { OnOk result (WantsMore (S.finds (S.facts newer.old.base))
            newer.old.commits requests.now.asked self.old.wanted.items self.new.wanted.items
            ids.now) }
        ensures refused { IfErr result (IsWantRefusal (S.may_fail (S.known newer.old.base))) }
    {
        for id in ids {
            match self.want(newer, requests, *id) {
                Ok(()) => {}
                Err(error) => return Err(error),
            }
        }
        Ok(())
    }

    /// Wants the parents of a commit.
    fn want_parents<S: Base>(
        &mut self,
        newer: &mut Newer<S>,
        requests: &Requests,
        parents: Parents<'_>,
    ) -> Result<(), CompleteError<S::Error>>
        ensures known { S.known newer.new.base ≡ S.known newer.old.base }
        ensures facts { S.facts newer.new.base ≡ S.facts newer.old.base }
        ensures kept { (t : Told) → S.says newer.new.base t → S.says newer.old.base t }
        ensures kind { newer.new.kind ≡ newer.old.kind }
        ensures commits { newer.new.commits ≡ newer.old.commits }
        ensures held { self.new.held ≡ self.old.held }
        ensures wanted { OnOk result (WantsMore (S.finds (S.facts newer.old.base))
            newer.old.commits requests.now.asked self.old.wanted.items self.new.wanted.items
            parents.entry) }
        ensures refused { IfErr result (IsWantRefusal (S.may_fail (S.known newer.old.base))) }
    {
        for id in parents {
            match self.want(newer, requests, id) {
                Ok(()) => {}
                Err(error) => return Err(error),
            }
        }
        Ok(())
    }

    /// Asks for those that are wanted, as long as there is room for more requests. No more than so
    /// many may be asked for in all.
    pub(crate) fn ask_ahead<W: Write, E>(
        &mut self,
        most: usize,
        requests: &mut Requests,
        writer: &mut W,
    ) -> Result<(), CompleteError<E>>
        requires taken { requests.old.taken ≡ length self.old.held }
        requires within { requests.old.taken ≤ length requests.old.asked }
        requires few { length requests.old.asked ≤ most }
        ensures held { self.new.held ≡ self.old.held }
        ensures requests { requests.new ≡ record requests.old { asked = requests.new.asked } }
        ensures asked { AsksMore requests.old.asked requests.new.asked self.old.wanted.items }
        ensures few { length requests.new.asked ≤ most }
        ensures wanted { OnOk result (StillWants requests.new.asked self.old.wanted.items
            self.new.wanted.items) }
        ensures all { OnOk result (length (waiting requests.new) ≡ 0
            → self.new.wanted.items ≡ []) }
        ensures written { result ≢ Err CompleteError.WriteFailed → (start : Option (List ℕ))
            → Appends start (W.contents writer.old) (request_lines requests.old.asked)
            → Appends start (W.contents writer.new) (request_lines requests.new.asked) }
        ensures refused { IfErr result (IsAskRefusal most requests.new.asked) }
    {
        while requests.has_room() {
            let Some(id) = self.wanted.pop_front() else {
                return Ok(());
            };
            let asked = self.held.len() + requests.num_waiting();
            match ask_one(id, asked, most, requests, writer) {
                Ok(()) => {}
                Err(error) => return Err(error),
            }
        }
        Ok(())
    }

    /// Takes the entry of the request that is waiting longest, and wants its parents.
    pub(crate) fn take<S: Base, R: Read, W: Write>(
        &mut self,
        alloc: Global,
        newer: &mut Newer<S>,
        requests: &mut Requests,
        reader: &mut R,
        writer: &mut W,
    ) -> Result<(), CompleteError<S::Error>>
        requires some { requests.old.taken < length requests.old.asked }
        requires taken { requests.old.taken ≡ length self.old.held }
        requires commits { requests.old.type ≡ Commit }
        requires kind { requests.old.kind ≡ newer.old.kind }
        ensures known { S.known newer.new.base ≡ S.known newer.old.base }
        ensures facts { S.facts newer.new.base ≡ S.facts newer.old.base }
        ensures kept { (t : Told) → S.says newer.new.base t → S.says newer.old.base t }
        ensures kind { newer.new.kind ≡ newer.old.kind }
        ensures commits { newer.new.commits ≡ newer.old.commits }
        ensures asked { requests.new.asked ≡ requests.old.asked }
        ensures same_type { requests.new.type ≡ requests.old.type }
        ensures same_kind { requests.new.kind ≡ requests.old.kind }
        ensures taken { OnOk result (requests.new.taken ≡ requests.old.taken + 1) }
        ensures read { OnOk result (ReadsCommit newer.old.kind
            (S.finds (S.facts newer.old.base)) newer.old.commits requests.old.asked
            self.old.held self.new.held self.old.wanted.items self.new.wanted.items) }
        ensures bytes { OnOk result ((start : Option (List ℕ)) → Consumes start
            (prepend_known requests.old.ahead (R.remaining reader.old))
            (commit_entries newer.old.kind self.old.held)
            → Consumes start (prepend_known requests.new.ahead (R.remaining reader.new))
            (commit_entries newer.old.kind self.new.held)) }
        ensures written { result ≢ Err CompleteError.WriteFailed
            → Keeps (W.contents writer.old) (W.contents writer.new) }
        ensures refused { IfErr result (IsTakeRefusal newer.old.kind
            (S.may_fail (S.known newer.old.base)) requests.old.asked requests.old.taken
            (prepend_known requests.old.ahead (R.remaining reader.old))) }
    {
        let id = match requests.take_next(reader, writer) {
            Ok(id) => id,
            Err(error) => return Err(error_of_request(error)),
        };
        let commit = match CommitObject::parse(newer.kind, requests.contents()) {
            Ok(commit) => commit,
            Err(_) => return Err(CompleteError::Unreadable(id)),
        };
        match self.want_parents(newer, requests, commit.parents()) {
            Ok(()) => {}
            Err(error) => return Err(error),
        }
        match self.held.push(alloc, requests.contents()) {
            Ok(()) => Ok(()),
            Err(_) => Err(CompleteError::OutOfMemory),
        }
    }
}

/// Asks for a commit, unless it was asked for. Where as many were asked for as may be, that is
/// refused.
fn ask_one<W: Write, E>(
    id: ObjectId,
    count: usize,
    most: usize,
    requests: &mut Requests,
    writer: &mut W,
) -> Result<(), CompleteError<E>>
    requires { length (waiting requests.old) < most_waiting }
    ensures requests { requests.new ≡ record requests.old { asked = requests.new.asked } }
    ensures asked { MayAsk count most requests.old.asked requests.new.asked id }
    ensures done { OnOk result (Contains requests.new.asked id) }
    ensures written { result ≢ Err CompleteError.WriteFailed → (start : Option (List ℕ))
        → Appends start (W.contents writer.old) (request_lines requests.old.asked)
        → Appends start (W.contents writer.new) (request_lines requests.new.asked) }
    ensures refused { IfErr result (IsAskOneRefusal count most) }
{
    if let Some(_) = requests.number_of(&id) {
        return Ok(());
    }
    if count >= most {
        return Err(CompleteError::Full);
    }
    match requests.ask(id, writer) {
        Ok(_) => Ok(()),
        Err(AskError::OutOfMemory) => Err(CompleteError::OutOfMemory),
        Err(AskError::WriteFailed) => Err(CompleteError::WriteFailed),
    }
}

/// The same error, of a request.
fn error_of_request<E>(error: RequestError) -> CompleteError<E>
    ensures { result ≡ complete_error {E = E} error }
{
    match error {
        RequestError::Entry(id, error) => CompleteError::Entry(id, error),
        RequestError::Device => CompleteError::Device,
        RequestError::OutOfMemory => CompleteError::OutOfMemory,
        RequestError::WriteFailed => CompleteError::WriteFailed,
    }
}
