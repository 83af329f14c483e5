//! Bytes of a stream that were read and not yet looked at.

ghost use Rattle.std.specs.Prelude.{◌≡◌, ◌↔◌, ◌<◌, ◌≤◌, ◌+◌, ◌-◌, [], drop, length};
ghost use Rattle.std.specs.Prelude.{IsTrue, IfOk, IfErr, OnErr, OnOk, false};
ghost use Rattle.std.specs.Prelude.{slice_range, slice_set, take};
ghost use Rattle.std.specs.Io.KnownBytes.{Keeps, IsAtEnd, prepend_known};
ghost use Rattle.std.specs.Io.{StartsWith};
ghost use Rattle.object_stream.specs.BatchEntry.{HasNoFeed, longest_line};
ghost use Rattle.object_stream.specs.Reading.{IsFillError};

use crate::error::ReadFailure;
use crate::line::{LINE, line_end};
use std::alloc::{AllocError, Global};
use std::io::Read;
use std::marker::Model;

/// For how many bytes there is room at first.
const ROOM: usize = 128 * 1024;

/// Bytes that a reader gave and that were not looked at yet. A contract sees them as a list.
#[derive(Drop)]
pub struct Buffer {
    // what a read has filled, and may fill
    bytes: Vec<u8>,
    // where the bytes stand that were not looked at
    start: usize,
    end: usize,
}

impl Model for Buffer {
    ghost use Rattle.std.specs.Prelude.{List, ℕ, ◌≤◌, length, slice_range};

    ghost Value = { List ℕ };

    ghost view = { λ b. slice_range b.bytes.items b.start b.end };

    ghost invariant = { λ b. (b.start ≤ b.end) × (b.end ≤ length b.bytes.items)
        × (131072 ≤ length b.bytes.items) };
}

impl Buffer {
    /// No bytes. `AllocError` comes where there is no memory for the first ones.
    pub fn new(alloc: Global) -> Result<Buffer, AllocError>
        ensures { IfOk result (λ buffer. buffer ≡ []) }
    {
        Ok(Buffer {
            bytes: vec![in alloc; 0; ROOM]?,
            start: 0,
            end: 0,
        })
    }

    /// The bytes.
    pub fn bytes(&self) -> &[u8]
        ensures { result.now ≡ self.now }
    {
        &self.bytes[self.start..self.end]
    }

    /// Takes bytes away from the front.
    pub fn consume(&mut self, count: usize)
        requires { count ≤ length self.old }
        ensures { self.new ≡ drop count self.old }
    {
        self.start += count;
    }

    /// Puts another byte in a place.
    pub(crate) fn put(&mut self, place: usize, byte: u8)
        requires { place < length self.old }
        ensures { self.new ≡ slice_set self.old place byte }
    {
        let at = self.start + place;
        self.bytes[at] = byte;
    }

    /// Keeps a byte until the next read, so that the work is done by which it came about.
    pub fn keep(&mut self, byte: u8)
        ensures { self.new ≡ self.old }
    {
        if self.end < self.bytes.len() {
            self.bytes[self.end] = byte;
        }
    }

    /// Whether more than `more` bytes stand behind the first `place`.
    fn has(&self, place: usize, more: usize) -> bool
        ensures { IsTrue result ↔ (place + more < length self.now) }
    {
        let count = self.end - self.start;
        place < count && more < count - place
    }

    /// Reads until more than `more` bytes stand behind the first `place`, or the reader ends, and
    /// answers whether they do. What is there and what the reader has left, together, stay the
    /// same, unless an error comes: `Device` where a read failed, and `OutOfMemory` where there is
    /// no memory for what was read.
    #[inline(always)]
    pub fn fill<R: Read>(
        &mut self,
        reader: &mut R,
        place: usize,
        more: usize,
    ) -> Result<bool, ReadFailure>
        ensures kept { OnOk result (Keeps (prepend_known self.old (R.remaining reader.old))
            (prepend_known self.new (R.remaining reader.new))) }
        ensures grows { OnOk result (StartsWith self.new self.old) }
        ensures enough { IfOk result (λ enough.
            IsTrue enough ↔ (place + more < length self.new)) }
        ensures end { IfOk result (λ enough.
            enough ≡ false → IsAtEnd (R.remaining reader.new)) }
        ensures error { IfErr result (IsFillError (place + more)) }
    {
        while !self.has(place, more) {
            if !self.read_more(reader)? {
                return Ok(false);
            }
        }
        Ok(true)
    }

    /// Whether the first line does not end among the bytes, which are fewer than a line may have.
    fn lacks_line(&self) -> bool
        ensures few { IsTrue result → length self.now < longest_line }
        ensures lacks { HasNoFeed (take longest_line self.now) → length self.now < longest_line
            → IsTrue result }
    {
        let bytes = self.bytes();
        if bytes.len() >= LINE {
            return false;
        }
        match line_end(bytes) {
            Some(_) => false,
            None => true,
        }
    }

    /// Reads until the first line stands there, or as many bytes as a line may have, or the reader
    /// ends: a pipe may have no more than the line before it is asked for more. What is there and
    /// what the reader has left, together, stay the same, unless an error comes, as by
    /// [`fill`](Buffer::fill).
    pub(crate) fn fill_line<R: Read>(&mut self, reader: &mut R) -> Result<(), ReadFailure>
        ensures kept { OnOk result (Keeps (prepend_known self.old (R.remaining reader.old))
            (prepend_known self.new (R.remaining reader.new))) }
        ensures end { OnOk result (HasNoFeed (take longest_line self.new)
            → length self.new < longest_line → IsAtEnd (R.remaining reader.new)) }
        ensures error { IfErr result (IsFillError longest_line) }
    {
        while self.lacks_line() {
            if !self.read_more(reader)? {
                return Ok(());
            }
        }
        Ok(())
    }

    /// Reads some bytes, or answers that there are none.
    fn read_more<R: Read>(&mut self, reader: &mut R) -> Result<bool, ReadFailure>
        ensures kept { OnOk result (Keeps (prepend_known self.old (R.remaining reader.old))
            (prepend_known self.new (R.remaining reader.new))) }
        ensures grows { OnOk result (StartsWith self.new self.old) }
        ensures more { IfOk result (λ more. IsTrue more → length self.old + 1 ≤ length self.new) }
        ensures end { IfOk result (λ more. more ≡ false
            → (self.new ≡ self.old) × IsAtEnd (R.remaining reader.new)) }
        ensures error { IfErr result (IsFillError (length self.old)) }
    {
        let (start, end) = make_room(&mut self.bytes, self.start, self.end)?;
        self.start = start;
        self.end = end;
        let Ok(count) = reader.read(&mut self.bytes[self.end..]) else {
            return Err(ReadFailure::Device);
        };
        self.end += count;
        Ok(count > 0)
    }
}

/// Makes room behind what stands from `from` up to and without `to`, and answers where that stands
/// now. Where nothing follows it, it is put to the front, and where it stands there already, there
/// is room for twice as many bytes. `OutOfMemory` comes where there is no memory for that.
fn make_room(bytes: &mut Vec<u8>, from: usize, to: usize) -> Result<(usize, usize), ReadFailure>
    requires order { from ≤ to }
    requires within { to ≤ length bytes.old.items }
    requires many { 131072 ≤ length bytes.old.items }
    ensures same { IfOk result (λ place. slice_range bytes.new.items place.0 place.1
        ≡ slice_range bytes.old.items from to) }
    ensures order { IfOk result (λ place. place.0 ≤ place.1) }
    ensures room { IfOk result (λ place. place.1 < length bytes.new.items) }
    ensures many { 131072 ≤ length bytes.new.items }
    ensures err { OnErr result (bytes.new.items ≡ bytes.old.items) }
    ensures error { IfErr result (IsFillError (to - from)) }
{
    if to < bytes.len() {
        return Ok((from, to));
    }
    if from > 0 {
        bytes.copy_within(from..to, 0);
        return Ok((0, to - from));
    }
    let room = 2 * bytes.len();
    bytes.resize(room, 0).map_err(|_| ReadFailure::OutOfMemory)?;
    Ok((from, to))
}
