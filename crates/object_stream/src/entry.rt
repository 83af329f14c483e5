//! Reading the next entry.

ghost use Rattle.std.specs.Prelude.{◌≡◌, ◌≤◌, ◌+◌, ◌*◌, ◌++◌, ◌∷◌, [], IfErr, IfOk, IfSome, OnOk};
ghost use Rattle.std.specs.Prelude.{length, drop, nat_lt, take, if◌then◌else◌};
ghost use Rattle.std.specs.Io.KnownBytes.{Consumes, Keeps, prepend_known};
ghost use Rattle.hex.specs.Hex.{IsBytes};
ghost use Rattle.gix_hash_core.specs.Kind.{id_len};
ghost use Rattle.object_stream.specs.BatchEntry.{longest_line, object_line};
ghost use Rattle.object_stream.specs.NextEntry.{BeginsWithContents, IsExpected, MayStop};
ghost use Rattle.object_stream.specs.FoundEntry.{FindsObject};
ghost use Rattle.object_stream.specs.TypedObject.{typed_id};

use crate::buffer::Buffer;
use crate::error::{EntryError, StreamError};
use crate::line::{LINE, line_end, size_in};
use crate::object_type::ObjectType;
use crate::own_line::own_line;
use commit_objects::spells;
use gix_hash_core::{Kind, ObjectId, digest};
use std::io::Read;

/// The entry of an object, whose contents stand at the front of a buffer, with a line feed behind
/// them.
#[derive(Clone, Copy, Debug, PartialEq, Eq)]
pub struct Entry {
    /// The id of the object, which is that of the contents.
    pub id: ObjectId,
    /// How many bytes the contents have.
    pub size: usize,
}

/// Reads the next entry, that of an object of this type whose id is of this kind and, where one is
/// given, the expected one. Its line is taken away from the buffer, so that the contents stand at
/// the front.
///
/// # Errors
///
/// The first of [`EntryError`] that holds. Else `Device` comes where a read failed, and
/// `OutOfMemory` where an entry of more than 64 KiB did not fit.
pub fn next_entry<R: Read>(
    kind: Kind,
    object_type: ObjectType,
    expected: Option<ObjectId>,
    buffer: &mut Buffer,
    reader: &mut R,
) -> Result<Entry, StreamError>
    ensures line { IfOk result (λ entry.
        Consumes (prepend_known buffer.old (R.remaining reader.old))
        (prepend_known buffer.new (R.remaining reader.new))
        (object_line object_type entry.id entry.size ++ 10 ∷ [])) }
    ensures contents { IfOk result (λ entry.
        BeginsWithContents kind object_type expected entry.id entry.size buffer.new) }
    ensures refused { IfErr result (λ error.
        IfSome (prepend_known buffer.old (R.remaining reader.old))
        (λ bytes. MayStop kind object_type expected bytes error)) }
{
    let (line, size) = next_line(kind, object_type, &expected, buffer, reader)?;
    if !buffer.fill(reader, line + 1, size)? {
        return Err(StreamError::Entry(EntryError::Ends));
    }
    if buffer.bytes()[line + 1 + size] != b'\n' {
        return Err(StreamError::Entry(EntryError::NoEntry));
    }
    let id = id_of_entry(kind, object_type, buffer, line, size);
    if !spells(&buffer.bytes()[..2 * kind.len_in_bytes()], id.as_oid()) {
        return Err(StreamError::Entry(EntryError::OtherContents));
    }
    buffer.consume(line + 1);
    Ok(Entry { id, size })
}

/// The id of the contents in the entry at the front, whose line has so many bytes and tells this
/// type and size. The line ends with a line feed where the object, of which all the rest stands
/// there, has a byte 00. So it gets that byte, and the object is digested where it stands.
fn id_of_entry(
    kind: Kind,
    object_type: ObjectType,
    buffer: &mut Buffer,
    line: usize,
    size: usize,
) -> ObjectId
    requires found { FindsObject kind object_type buffer.old line size }
    requires whole { line + 1 + size ≤ length buffer.old }
    ensures id { result ≡ typed_id kind object_type (take size (drop (line + 1) buffer.old)) }
    ensures behind { drop (line + 1) buffer.new ≡ drop (line + 1) buffer.old }
    ensures digits { take (2 * id_len kind) buffer.new ≡ take (2 * id_len kind) buffer.old }
{
    let start = 2 * kind.len_in_bytes() + 1;
    buffer.put(line, 0);
    digest(kind, &buffer.bytes()[start..line + 1 + size])
}

/// The length of the next line, and the size that it tells of an object of this type that is
/// expected.
fn next_line<R: Read>(
    kind: Kind,
    object_type: ObjectType,
    expected: &Option<ObjectId>,
    buffer: &mut Buffer,
    reader: &mut R,
) -> Result<(usize, usize), StreamError>
    ensures found { IfOk result (λ told. FindsObject kind object_type buffer.new told.0 told.1) }
    ensures expected { OnOk result (IsExpected expected.now (take (2 * id_len kind) buffer.new)) }
    ensures bytes { OnOk result (IfSome expected.now IsBytes) }
    ensures kept { OnOk result (Keeps (prepend_known buffer.old (R.remaining reader.old))
        (prepend_known buffer.new (R.remaining reader.new))) }
    ensures refused { IfErr result (λ error.
        IfSome (prepend_known buffer.old (R.remaining reader.old))
        (λ bytes. MayStop kind object_type expected.now bytes error)) }
{
    buffer.fill_line(reader)?;
    let bytes = buffer.bytes();
    if let Some(told) = own_line(kind, object_type, expected, bytes) {
        return Ok(told);
    }
    let Some(line) = line_end(bytes) else {
        return Err(no_line(bytes.len()));
    };
    match size_in(kind, object_type, expected, &bytes[..line]) {
        Ok(size) => Ok((line, size as usize)),
        Err(error) => Err(StreamError::Entry(error)),
    }
}

/// Why no line ends in the first bytes, where so many are there.
fn no_line(count: usize) -> StreamError
    ensures { result ≡ StreamError.Entry
        (if nat_lt count longest_line then EntryError.Ends else EntryError.NoEntry) }
{
    if count < LINE {
        StreamError::Entry(EntryError::Ends)
    } else {
        StreamError::Entry(EntryError::NoEntry)
    }
}
