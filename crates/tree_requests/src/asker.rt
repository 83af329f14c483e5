//! Asking for trees, and taking their entries.

ghost use Rattle.std.specs.Prelude.{◌≡◌, ◌≢◌, ◌<◌, ◌≤◌, ◌+◌, ℕ, Contains, IfErr, IfOk, IfSome};
ghost use Rattle.std.specs.Prelude.{IsTrue, List, MatchOption, MatchResult, OnOk, Some, length};
ghost use Rattle.std.specs.Prelude.{slice_get};
ghost use Rattle.tree_objects.specs.Tree.{TreeEntry, IsTree};
ghost use Rattle.tree_objects.specs.Refusal.{IsTreeRefusal};
ghost use Rattle.object_requests.specs.Asked.{waiting, most_waiting};
ghost use Rattle.tree_requests.specs.TakenTree.{IsTaken, IsKeptTree, IsBehind, AreRequestLines};
ghost use Rattle.tree_requests.specs.StoredTrees.{AreStored};
ghost use Rattle.tree_requests.specs.TreeRefusal.{IsStreamFault};

use crate::exchange::Exchange;
use crate::store::TreeStore;
use gix_hash_core::ObjectId;
use object_requests::{AskError, RequestError, Requests};
use std::io::{Read, Write};
use tree_objects::{TreeError, check_tree};

/// How many objects may be asked for before they are forgotten.
const MOST_ASKED: usize = 65_536;

/// Requests for trees, where they go and are answered, and the trees that are kept.
#[derive(Drop)]
pub(crate) struct Asker<R, W> {
    pub(crate) requests: Requests,
    pub(crate) reader: R,
    pub(crate) writer: W,
    pub(crate) store: TreeStore,
}

impl<R: Read, W: Write> Asker<R, W> {
    /// Asks for a tree that will be wanted, if there is room, and it is not there. Want of memory
    /// is no error.
    pub(crate) fn hint<E: Exchange>(&mut self, id: ObjectId) -> Result<(), RequestError>
        requires behind { IsBehind E.stream self.old.requests (R.remaining self.old.reader) }
        requires lines { AreRequestLines E.written (W.contents self.old.writer) }
        ensures kind { self.new.requests.kind ≡ self.old.requests.kind }
        ensures behind { IsBehind E.stream self.new.requests (R.remaining self.new.reader) }
        ensures lines { MatchResult result
            (λ _. AreRequestLines E.written (W.contents self.new.writer))
            (λ error. error ≢ RequestError.WriteFailed
            → AreRequestLines E.written (W.contents self.new.writer)) }
        ensures store { self.new.store ≡ self.old.store }
        ensures refused { IfErr result (IsStreamFault self.old.requests.kind E.stream) }
    {
        if !self.may_ask(&id) || self.store.get(&id).is_some() {
            return Ok(());
        }
        match self.ask_new::<E>(id) {
            Ok(_) => Ok(()),
            Err(RequestError::OutOfMemory) => Ok(()),
            Err(error) => Err(error),
        }
    }

    /// Whether a tree may be asked for at once: there is room, and it was not asked for before.
    fn may_ask(&self, id: &ObjectId) -> bool
        ensures room { IsTrue result → length (waiting self.now.requests) < most_waiting }
        ensures absent { IsTrue result → ¬ Contains self.now.requests.asked id.now }
    {
        self.requests.has_room()
            && self.requests.num_asked() < MOST_ASKED
            && self.requests.number_of(id).is_none()
    }

    /// Takes the entry of the tree with an id, which is asked for where it does not wait. Answers
    /// why the contents are no tree, if they are none. Entries of trees that were asked for before
    /// it are taken, too.
    pub(crate) fn fetch<E: Exchange>(
        &mut self,
        id: ObjectId,
    ) -> Result<Option<TreeError>, RequestError>
        requires behind { IsBehind E.stream self.old.requests (R.remaining self.old.reader) }
        requires lines { AreRequestLines E.written (W.contents self.old.writer) }
        requires stored { AreStored self.old.requests.kind E.stream self.old.store.bytes.items
            self.old.store.spans }
        ensures kind { self.new.requests.kind ≡ self.old.requests.kind }
        ensures behind { OnOk result
            (IsBehind E.stream self.new.requests (R.remaining self.new.reader)) }
        ensures lines { MatchResult result
            (λ _. AreRequestLines E.written (W.contents self.new.writer))
            (λ error. error ≢ RequestError.WriteFailed
            → AreRequestLines E.written (W.contents self.new.writer)) }
        ensures stored { AreStored self.old.requests.kind E.stream self.new.store.bytes.items
            self.new.store.spans }
        ensures taken { OnOk result
            (IsTaken self.old.requests.kind E.stream id self.new.requests.contents) }
        ensures checked { IfOk result (λ error. MatchOption error
            ((entries : List TreeEntry)
            × IsTree self.old.requests.kind self.new.requests.contents entries)
            (IsTreeRefusal self.old.requests.kind self.new.requests.contents)) }
        ensures refused { IfErr result (IsStreamFault self.old.requests.kind E.stream) }
    {
        let number = self.ask::<E>(id)?;
        while self.requests.num_taken() < number {
            self.take::<E>()?;
        }
        self.take::<E>()
    }

    /// Asks for a tree that does not wait, and answers its number among those that were asked for.
    fn ask<E: Exchange>(&mut self, id: ObjectId) -> Result<usize, RequestError>
        requires behind { IsBehind E.stream self.old.requests (R.remaining self.old.reader) }
        requires lines { AreRequestLines E.written (W.contents self.old.writer) }
        requires stored { AreStored self.old.requests.kind E.stream self.old.store.bytes.items
            self.old.store.spans }
        ensures kind { self.new.requests.kind ≡ self.old.requests.kind }
        ensures behind { OnOk result
            (IsBehind E.stream self.new.requests (R.remaining self.new.reader)) }
        ensures lines { MatchResult result
            (λ _. AreRequestLines E.written (W.contents self.new.writer))
            (λ error. error ≢ RequestError.WriteFailed
            → AreRequestLines E.written (W.contents self.new.writer)) }
        ensures stored { AreStored self.old.requests.kind E.stream self.new.store.bytes.items
            self.new.store.spans }
        ensures number { IfOk result (λ number.
            slice_get self.new.requests.asked number ≡ Some id) }
        ensures waits { IfOk result (λ number. self.new.requests.taken ≤ number) }
        ensures refused { IfErr result (IsStreamFault self.old.requests.kind E.stream) }
    {
        if let Some(number) = self.requests.number_of(&id)
            && self.requests.num_taken() <= number
        {
            return Ok(number);
        }
        self.make_room::<E>(&id)?;
        self.ask_new::<E>(id)
    }

    /// Asks for a tree that was not asked for, and answers its number.
    fn ask_new<E: Exchange>(&mut self, id: ObjectId) -> Result<usize, RequestError>
        requires room { length (waiting self.old.requests) < most_waiting }
        requires absent { ¬ Contains self.old.requests.asked id }
        requires behind { IsBehind E.stream self.old.requests (R.remaining self.old.reader) }
        requires lines { AreRequestLines E.written (W.contents self.old.writer) }
        ensures kind { self.new.requests.kind ≡ self.old.requests.kind }
        ensures behind { IsBehind E.stream self.new.requests (R.remaining self.new.reader) }
        ensures lines { MatchResult result
            (λ _. AreRequestLines E.written (W.contents self.new.writer))
            (λ error. error ≢ RequestError.WriteFailed
            → AreRequestLines E.written (W.contents self.new.writer)) }
        ensures store { self.new.store ≡ self.old.store }
        ensures number { IfOk result (λ number.
            slice_get self.new.requests.asked number ≡ Some id) }
        ensures waits { IfOk result (λ number. self.new.requests.taken ≤ number) }
        ensures refused { IfErr result (IsStreamFault self.old.requests.kind E.stream) }
    {
        let number = self.requests.num_asked();
        let _taken = self.requests.num_taken();
        match self.requests.ask(id, &mut self.writer) {
            Ok(true) => Ok(number),
            Ok(false) => Ok(number),
            Err(AskError::OutOfMemory) => Err(RequestError::OutOfMemory),
            Err(AskError::WriteFailed) => Err(RequestError::WriteFailed),
        }
    }

    /// Sees to it that a tree which does not wait may be asked for at once: where it may not, all
    /// entries that wait are taken, and what was asked for is forgotten.
    fn make_room<E: Exchange>(&mut self, id: &ObjectId) -> Result<(), RequestError>
        requires behind { IsBehind E.stream self.old.requests (R.remaining self.old.reader) }
        requires lines { AreRequestLines E.written (W.contents self.old.writer) }
        requires stored { AreStored self.old.requests.kind E.stream self.old.store.bytes.items
            self.old.store.spans }
        ensures kind { self.new.requests.kind ≡ self.old.requests.kind }
        ensures behind { OnOk result
            (IsBehind E.stream self.new.requests (R.remaining self.new.reader)) }
        ensures lines { MatchResult result
            (λ _. AreRequestLines E.written (W.contents self.new.writer))
            (λ error. error ≢ RequestError.WriteFailed
            → AreRequestLines E.written (W.contents self.new.writer)) }
        ensures stored { AreStored self.old.requests.kind E.stream self.new.store.bytes.items
            self.new.store.spans }
        ensures room { OnOk result (length (waiting self.new.requests) < most_waiting) }
        ensures absent { OnOk result (¬ Contains self.new.requests.asked id.now) }
        ensures refused { IfErr result (IsStreamFault self.old.requests.kind E.stream) }
    {
        if self.may_ask(id) {
            return Ok(());
        }
        while self.requests.num_waiting() > 0 {
            self.take::<E>()?;
        }
        let _taken = self.requests.num_taken();
        self.requests.forget();
        Ok(())
    }

    /// Takes the entry of the tree that waits longest. Answers why the contents are no tree, if
    /// they are none; else the tree is kept.
    fn take<E: Exchange>(&mut self) -> Result<Option<TreeError>, RequestError>
        requires waits { self.old.requests.taken < length self.old.requests.asked }
        requires behind { IsBehind E.stream self.old.requests (R.remaining self.old.reader) }
        requires lines { AreRequestLines E.written (W.contents self.old.writer) }
        requires stored { AreStored self.old.requests.kind E.stream self.old.store.bytes.items
            self.old.store.spans }
        ensures kind { self.new.requests.kind ≡ self.old.requests.kind }
        ensures asked { self.new.requests.asked ≡ self.old.requests.asked }
        ensures count { OnOk result (self.new.requests.taken ≡ self.old.requests.taken + 1) }
        ensures behind { OnOk result
            (IsBehind E.stream self.new.requests (R.remaining self.new.reader)) }
        ensures lines { MatchResult result
            (λ _. AreRequestLines E.written (W.contents self.new.writer))
            (λ error. error ≢ RequestError.WriteFailed
            → AreRequestLines E.written (W.contents self.new.writer)) }
        ensures stored { AreStored self.old.requests.kind E.stream self.new.store.bytes.items
            self.new.store.spans }
        ensures taken { OnOk result ((id : List ℕ)
            × (slice_get self.old.requests.asked self.old.requests.taken ≡ Some id)
            × IsTaken self.old.requests.kind E.stream id self.new.requests.contents) }
        ensures checked { IfOk result (λ error. MatchOption error
            ((entries : List TreeEntry)
            × IsTree self.old.requests.kind self.new.requests.contents entries)
            (IsTreeRefusal self.old.requests.kind self.new.requests.contents)) }
        ensures refused { IfErr result (IsStreamFault self.old.requests.kind E.stream) }
    {
        let id = self.take_entry::<E>()?;
        Ok(self.keep::<E>(id))
    }

    /// Takes the entry of the tree that waits longest, and answers its id.
    fn take_entry<E: Exchange>(&mut self) -> Result<ObjectId, RequestError>
        requires waits { self.old.requests.taken < length self.old.requests.asked }
        requires behind { IsBehind E.stream self.old.requests (R.remaining self.old.reader) }
        requires lines { AreRequestLines E.written (W.contents self.old.writer) }
        ensures kind { self.new.requests.kind ≡ self.old.requests.kind }
        ensures asked { self.new.requests.asked ≡ self.old.requests.asked }
        ensures count { OnOk result (self.new.requests.taken ≡ self.old.requests.taken + 1) }
        ensures behind { OnOk result
            (IsBehind E.stream self.new.requests (R.remaining self.new.reader)) }
        ensures lines { MatchResult result
            (λ _. AreRequestLines E.written (W.contents self.new.writer))
            (λ error. error ≢ RequestError.WriteFailed
            → AreRequestLines E.written (W.contents self.new.writer)) }
        ensures store { self.new.store ≡ self.old.store }
        ensures oldest { IfOk result (λ id.
            slice_get self.old.requests.asked self.old.requests.taken ≡ Some id) }
        ensures taken { IfOk result (λ id.
            IsTaken self.old.requests.kind E.stream id self.new.requests.contents) }
        ensures refused { IfErr result (IsStreamFault self.old.requests.kind E.stream) }
    {
        match self.requests.take_next(&mut self.reader, &mut self.writer) {
            Ok(id) => Ok(id),
            Err(error) => Err(error),
        }
    }

    /// Keeps the contents that were taken last, if they are a tree, or answers why they are none.
    fn keep<E: Exchange>(&mut self, id: ObjectId) -> Option<TreeError>
        requires taken { IsTaken self.old.requests.kind E.stream id self.old.requests.contents }
        requires stored { AreStored self.old.requests.kind E.stream self.old.store.bytes.items
            self.old.store.spans }
        ensures requests { self.new.requests ≡ self.old.requests }
        ensures reader { self.new.reader ≡ self.old.reader }
        ensures writer { self.new.writer ≡ self.old.writer }
        ensures stored { AreStored self.old.requests.kind E.stream self.new.store.bytes.items
            self.new.store.spans }
        ensures checked { MatchOption result
            ((entries : List TreeEntry)
            × IsTree self.old.requests.kind self.old.requests.contents entries)
            (IsTreeRefusal self.old.requests.kind self.old.requests.contents) }
    {
        let contents = self.requests.contents();
        match check_tree(self.requests.kind(), contents) {
            Ok(()) => {
                self.store.put(id, contents);
                None
            }
            Err(error) => Some(error),
        }
    }

    /// What is read from and written to.
    pub(crate) fn into_ends(self) -> (R, W)
        ensures writer { result.1 ≡ self.writer }
    {
        let Asker { reader, writer, .. } = self;
        (reader, writer)
    }
}
