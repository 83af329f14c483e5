//! Asking for objects, and taking their entries.

ghost use Rattle.std.specs.Prelude.{◌≡◌, ◌≢◌, ◌↔◌, ◌+◌, ◌^◌, ◌<◌, ◌≤◌, ◌*◌, ◌∷◌, ◌++◌};
ghost use Rattle.std.specs.Prelude.{[], false, true, length};
ghost use Rattle.std.specs.Prelude.{Contains, Err, IfErr, IfOk, IfSome, IsTrue, MatchOption, OnErr};
ghost use Rattle.std.specs.Prelude.{OnOk, Some, drop, slice_get, take};
ghost use Rattle.std.specs.Io.KnownBytes.{Appends, Consumes, Keeps, prepend_known};
ghost use Rattle.std.specs.Ordering.{nat_cmp};
ghost use Rattle.std.specs.Cmp.Lexicographic.{slice_cmp};
ghost use Rattle.std.specs.BTreeMap as tree;
ghost use Rattle.object_stream.specs.BatchEntry.{object_entry};
ghost use Rattle.object_stream.specs.TypedObject.{typed_id};
ghost use Rattle.object_requests.specs.Asked.{AreEachOnce, Asked, most_waiting, request_line};
ghost use Rattle.object_requests.specs.Asked.{waiting, with_asked};
ghost use Rattle.object_requests.specs.TakenEntry.{MayRefuseOldest, MayRefuseFor, Takes};
ghost use Rattle.object_requests.specs.TakenEntry.{stream_error_for};

use crate::error::{AskError, RequestError};
use gix_hash_core::{Kind, ObjectId};
use hex::encode_to_slice;
use object_stream::{Buffer, ObjectType, StreamError, next_entry};
use std::alloc::{AllocError, Global};
use std::collections::BTreeMap;
use std::io::{Read, Write};
use std::marker::Model;

/// How many objects may be asked for before their entries are taken. Their lines, and what Git
/// answers first, fit into the pipes between two programs.
const MOST_WAITING: usize = 64;

/// How many bytes the line of the longest id has.
const LONGEST_REQUEST: usize = 65;

/// Objects of one type that were asked for. A contract sees their ids in order, of how many the
/// entries were taken, and the contents of the last.
#[derive(Drop)]
pub struct Requests {
    kind: Kind,
    object_type: ObjectType,
    buffer: Buffer,
    /// How many bytes at the front of the buffer are those of the contents that were taken last,
    /// and of the line feed behind them.
    front: usize,
    asked: Vec<ObjectId>,
    taken: usize,
    /// The number of each among them, by its id.
    numbers: BTreeMap<ObjectId, usize>,
}

impl Model for Requests {
    ghost use Rattle.std.specs.Prelude.{◌-◌, ◌≤◌, drop, length, take};
    ghost use Rattle.object_requests.specs.Asked.{Asked};
    ghost use Rattle.object_requests.specs.Kept.{AreKept};

    ghost Value = { Asked };

    ghost view = { λ r. record {
      kind = r.kind;
      type = r.object_type;
      asked = r.asked.items;
      taken = r.taken;
      contents = take (r.front - 1) r.buffer;
      ahead = drop r.front r.buffer;
    } };

    ghost invariant = { λ r. (r.front ≤ length r.buffer)
        × AreKept r.asked.items r.taken r.numbers };
}

impl Requests {
    /// Nothing was asked for yet. `AllocError` comes where there is no memory for the first bytes.
    pub fn new(alloc: Global, kind: Kind, object_type: ObjectType) -> Result<Requests, AllocError>
        ensures { IfOk result (λ requests. requests ≡ record {
          kind = kind;
          type = object_type;
          asked = [];
          taken = 0;
          contents = [];
          ahead = [];
        }) }
    {
        Ok(Requests {
            kind,
            object_type,
            buffer: Buffer::new(alloc)?,
            front: 0,
            asked: Vec::new(alloc),
            taken: 0,
            numbers: BTreeMap::new(alloc),
        })
    }

    /// The kind of the ids.
    pub fn kind(&self) -> Kind
        ensures { result ≡ self.now.kind }
    {
        self.kind
    }

    /// How many objects were asked for that were not forgotten.
    pub fn num_asked(&self) -> usize
        ensures { result ≡ length self.now.asked }
    {
        self.asked.len()
    }

    /// Of how many of them the entries were taken.
    pub fn num_taken(&self) -> usize
        ensures count { result ≡ self.now.taken }
        ensures within { result ≤ length self.now.asked }
    {
        self.taken
    }

    /// How many objects were asked for whose entries were not taken.
    pub fn num_waiting(&self) -> usize
        ensures count { result ≡ length (waiting self.now) }
        ensures few { result ≤ most_waiting }
        ensures distinct { AreEachOnce self.now.asked }
    {
        self.asked.len() - self.taken
    }

    /// Whether one more object may be asked for before an entry is taken.
    pub fn has_room(&self) -> bool
        ensures { IsTrue result ↔ (length (waiting self.now) < most_waiting) }
    {
        self.num_waiting() < MOST_WAITING
    }

    /// The number of an object among those that were asked for, counted from 0.
    pub fn number_of(&self, id: &ObjectId) -> Option<usize>
        ensures { MatchOption result (¬ Contains self.now.asked id.now)
            (λ number. slice_get self.now.asked number ≡ Some id.now) }
    {
        self.numbers.get(id).copied()
    }

    /// The contents of the entry that was taken last. They are empty at first, and after an error.
    pub fn contents(&self) -> &[u8]
        ensures { result.now ≡ self.now.contents }
    {
        &self.buffer.bytes()[..self.front.saturating_sub(1)]
    }

    /// Asks for an object, unless it was asked for before: writes its id as a line. Answers whether
    /// the id is new.
    ///
    /// # Errors
    ///
    /// `OutOfMemory` where an allocation failed; all is as before then. `WriteFailed` where the
    /// writer fails; the id counts as asked for then.
    pub fn ask<W: Write>(&mut self, id: ObjectId, writer: &mut W) -> Result<bool, AskError>
        requires { length (waiting self.old) < most_waiting }
        ensures new { IfOk result (λ new. new ≡ true → (self.new ≡ with_asked self.old id)
            × Appends (W.contents writer.old) (W.contents writer.new) (request_line id)) }
        ensures known { IfOk result (λ new. new ≡ false → (self.new ≡ self.old)
            × (writer.new ≡ writer.old)) }
        ensures told { IfOk result (λ new. IsTrue new ↔ ¬ Contains self.old.asked id) }
        ensures memory { result ≡ Err AskError.OutOfMemory → (self.new ≡ self.old)
            × (writer.new ≡ writer.old) }
        ensures failed { result ≡ Err AskError.WriteFailed → self.new ≡ with_asked self.old id }
        ensures absent { OnErr result (¬ Contains self.old.asked id) }
    {
        if !self.note(id)? {
            return Ok(false);
        }
        write_request(&id, writer)?;
        Ok(true)
    }

    /// Forgets all objects, whose entries were taken, so that each may be asked for again.
    pub fn forget(&mut self)
        requires { self.old.taken ≡ length self.old.asked }
        ensures { self.new ≡ record self.old { asked = []; taken = 0 } }
    {
        self.asked.clear();
        self.numbers.clear();
        self.taken = 0;
    }

    /// Notes that an object is asked for, and answers whether it was not before. The error is that
    /// an allocation failed.
    fn note(&mut self, id: ObjectId) -> Result<bool, AskError>
        requires { length (waiting self.old) < most_waiting }
        ensures new { IfOk result (λ new. new ≡ true → self.new ≡ with_asked self.old id) }
        ensures known { IfOk result (λ new. new ≡ false → self.new ≡ self.old) }
        ensures told { IfOk result (λ new. IsTrue new ↔ ¬ Contains self.old.asked id) }
        ensures err { OnErr result (self.new ≡ self.old) }
        ensures absent { OnErr result (¬ Contains self.old.asked id) }
        ensures error { IfErr result (λ error. error ≡ AskError.OutOfMemory) }
    {
        match self.number_of(&id) {
            Some(_) => Ok(false),
            None => match keep(&mut self.asked, &mut self.numbers, id) {
                Ok(()) => Ok(true),
                Err(_) => Err(AskError::OutOfMemory),
            },
        }
    }

    /// Takes the entry that answers the request which is waiting longest, and answers its id. The
    /// writer is flushed before it is waited for. What the entry has is told by
    /// [`contents`](Requests::contents) until the next call.
    ///
    /// # Errors
    ///
    /// `Entry` with the id and the first variant of [`EntryError`](object_stream::EntryError) that
    /// holds; `Device` where a read failed; `OutOfMemory` where an entry of more than 64 KiB did
    /// not fit; `WriteFailed` where the writer fails.
    pub fn take_next<R: Read, W: Write>(
        &mut self,
        reader: &mut R,
        writer: &mut W,
    ) -> Result<ObjectId, RequestError>
        requires { self.old.taken < length self.old.asked }
        ensures taken { IfOk result (Takes self.old self.new) }
        ensures bytes { IfOk result (λ id.
            Consumes (prepend_known self.old.ahead (R.remaining reader.old))
            (prepend_known self.new.ahead (R.remaining reader.new))
            (object_entry self.old.type id self.new.contents)) }
        ensures written { result ≢ Err RequestError.WriteFailed
            → Keeps (W.contents writer.old) (W.contents writer.new) }
        ensures refused { IfErr result (λ error.
            IfSome (prepend_known self.old.ahead (R.remaining reader.old))
            (λ bytes. MayRefuseOldest self.old bytes error)) }
        ensures same { OnErr result (self.new ≡ record self.old {
          contents = [];
          ahead = self.new.ahead;
        }) }
    {
        self.buffer.consume(self.front);
        self.front = 0;
        if writer.flush().is_err() {
            return Err(RequestError::WriteFailed);
        }
        let id = self.asked[self.taken];
        match next_contents(self.kind, self.object_type, id, &mut self.buffer, reader) {
            Ok(size) => {
                self.front = size + 1;
                self.taken += 1;
                Ok(id)
            }
            Err(error) => Err(error),
        }
    }
}

/// Reads the entry of the object with an id, whose contents stand at the front then, with a line
/// feed behind them. Answers their size.
fn next_contents<R: Read>(
    kind: Kind,
    object_type: ObjectType,
    id: ObjectId,
    buffer: &mut Buffer,
    reader: &mut R,
) -> Result<usize, RequestError>
    ensures own { IfOk result (λ size. id ≡ typed_id kind object_type (take size buffer.new)) }
    ensures within { IfOk result (λ size. size < length buffer.new) }
    ensures fits { IfOk result (λ size. size + 1 < 2 ^ 64) }
    ensures bytes { IfOk result (λ size.
        Consumes (prepend_known buffer.old (R.remaining reader.old))
        (prepend_known (drop (size + 1) buffer.new) (R.remaining reader.new))
        (object_entry object_type id (take size buffer.new))) }
    ensures refused { IfErr result (λ error.
        IfSome (prepend_known buffer.old (R.remaining reader.old))
        (λ bytes. MayRefuseFor kind object_type id bytes error)) }
{
    match next_entry(kind, object_type, Some(id), buffer, reader) {
        Ok(entry) => {
            // The line feed behind the contents stands in memory, too.
            let _bytes = buffer.bytes();
            Ok(entry.size)
        }
        Err(error) => Err(error_for(id, error)),
    }
}

/// Why the stream gives no entry of the object with an id.
fn error_for(id: ObjectId, error: StreamError) -> RequestError
    ensures { result ≡ stream_error_for id error }
{
    match error {
        StreamError::Entry(error) => RequestError::Entry(id, error),
        StreamError::Read(failure) => RequestError::from(failure),
    }
}

/// Keeps one more id, which is not there. At an error all is as before.
fn keep(
    asked: &mut Vec<ObjectId>,
    numbers: &mut BTreeMap<ObjectId, usize>,
    id: ObjectId,
) -> Result<(), AllocError>
    ensures asked { OnOk result (asked.new.items ≡ asked.old.items ++ id ∷ []) }
    ensures numbers { OnOk result (tree.Updates (slice_cmp nat_cmp) numbers.old numbers.new id
        (Some (length asked.old.items))) }
    ensures err_asked { OnErr result (asked.new.items ≡ asked.old.items) }
    ensures err_numbers { OnErr result (numbers.new.entries ≡ numbers.old.entries) }
{
    asked.reserve(1)?;
    if numbers.insert(id, asked.len()).is_err() {
        return Err(AllocError);
    }
    asked.push_reserved(id);
    Ok(())
}

/// Writes the line by which an object is asked for. `WriteFailed` comes where the writer fails.
fn write_request<W: Write>(id: &ObjectId, writer: &mut W) -> Result<(), AskError>
    ensures written { OnOk result (Appends (W.contents writer.old) (W.contents writer.new)
        (request_line id.now)) }
    ensures error { IfErr result (λ error. error ≡ AskError.WriteFailed) }
{
    let mut line = [0; LONGEST_REQUEST];
    let end = put_request(&mut line, id.as_oid().as_bytes());
    match writer.write_all(&line[..end]) {
        Ok(()) => Ok(()),
        Err(_) => Err(AskError::WriteFailed),
    }
}

/// Puts the line by which an object is asked for to the front of bytes, and answers where it ends.
fn put_request(line: &mut [u8], id: &[u8]) -> usize
    requires { 2 * length id.now < length line.old }
    ensures line { take result line.new ≡ request_line id.now }
    ensures end { result ≤ length line.new }
{
    let digits = 2 * id.len();
    encode_to_slice(id, &mut line[..digits]).unwrap();
    line[digits] = b'\n';
    digits + 1
}
