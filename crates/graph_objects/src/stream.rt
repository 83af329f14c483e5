//! The check of a graph against a stream.

ghost use Rattle.std.specs.Prelude.{◌≡◌, ◌⊎◌, ◌<◌, ◌≤◌, Err, IfErr, IfSome, OnOk};
ghost use Rattle.std.specs.Io.KnownBytes.{IsAtEnd, Keeps, prepend_known};
ghost use Rattle.gix_commitgraph.specs.Graph.{total};
ghost use Rattle.graph_objects.specs.Stream.{IsStreamOf, MayRefuseStream, HasLong};
ghost use Rattle.graph_objects.specs.Taking.{MayRefuseEntry, TakesEntry, stream_error_at};

use crate::ahead;
use crate::commit::matches_commit;
use crate::error::ObjectsError;
use gix_commitgraph::{Graph, Position};
use object_stream::{Buffer, ObjectType, StreamError, next_entry};
use std::alloc::Global;
use std::io::Read;

/// Compares the commits of a graph, at the positions from `from` up to and without `to`, with a
/// stream that `git cat-file --batch` wrote for their ids, in the order of the positions. The
/// reader is read to its end. The first thing that is wrong is the answer, position by position,
/// and for one position in the order of the variants of [`EntryError`](object_stream::EntryError),
/// then of [`Mismatch`](crate::Mismatch); `LeftOver` where bytes follow the last entry. `Device`
/// comes where a read failed, and `OutOfMemory` where nothing could be read for want of memory, or
/// an entry of more than 64 KiB did not fit.
pub fn check_objects<R: Read>(
    alloc: Global,
    graph: &Graph,
    reader: &mut R,
    from: u32,
    to: u32,
) -> Result<(), ObjectsError>
    requires order { from ≤ to }
    requires within { to ≤ total graph.now }
    ensures ok { OnOk result (IfSome (R.remaining reader.old) (IsStreamOf graph.now from to)) }
    ensures end { OnOk result (IsAtEnd (R.remaining reader.new)) }
    ensures refused { IfErr result (λ error. IfSome (R.remaining reader.old)
        (λ bytes. MayRefuseStream graph.now from to bytes error)) }
    ensures memory { result ≡ Err ObjectsError.OutOfMemory
        → (Keeps (R.remaining reader.old) (R.remaining reader.new))
        ⊎ (IfSome (R.remaining reader.old) (HasLong graph.now from to)) }
{
    let Ok(mut buffer) = Buffer::new(alloc) else {
        return Err(ObjectsError::OutOfMemory);
    };
    for number in from..to {
        look_ahead(graph, from, number, to, &mut buffer);
        check_next(graph, Position(number), &mut buffer, reader)?;
    }
    if buffer.fill(reader, 0, 0)? {
        return Err(ObjectsError::LeftOver);
    }
    Ok(())
}

/// Looks ahead to the parents of the commits from a position on, where it is the first of so many.
fn look_ahead(graph: &Graph, from: u32, number: u32, to: u32, buffer: &mut Buffer)
    requires begun { from ≤ number }
    requires within { to ≤ total graph.now }
    ensures { buffer.new ≡ buffer.old }
{
    if (number - from) % ahead::COMMITS == 0 {
        let end = to.min(number.saturating_add(ahead::COMMITS));
        buffer.keep(ahead::look_at_parents(graph, number, end));
    }
}

/// Compares the commit at a position with the next entry, and goes past that.
fn check_next<R: Read>(
    graph: &Graph,
    pos: Position,
    buffer: &mut Buffer,
    reader: &mut R,
) -> Result<(), ObjectsError>
    requires { pos.0 < total graph.now }
    ensures ok { OnOk result (TakesEntry graph.now pos.0
        (prepend_known buffer.old (R.remaining reader.old))
        (prepend_known buffer.new (R.remaining reader.new))) }
    ensures err { IfErr result (λ error. IfSome (prepend_known buffer.old (R.remaining reader.old))
        (λ bytes. MayRefuseEntry graph.now pos bytes error)) }
{
    let commit = graph.commit_at(pos);
    let kind = graph.object_hash();
    let id = graph.id_at(pos).to_owned();
    let entry = match next_entry(kind, ObjectType::Commit, Some(id), buffer, reader) {
        Ok(entry) => entry,
        Err(error) => return Err(error_at(pos, error)),
    };
    let contents = &buffer.bytes()[..entry.size];
    match matches_commit(graph, kind, commit, &entry.id, contents) {
        Ok(()) => {
            buffer.consume(entry.size + 1);
            Ok(())
        }
        Err(mismatch) => Err(ObjectsError::Mismatch(pos, mismatch)),
    }
}

/// Why the stream gives no entry for the commit at a position.
fn error_at(pos: Position, error: StreamError) -> ObjectsError
    ensures { result ≡ stream_error_at pos error }
{
    match error {
        StreamError::Entry(error) => ObjectsError::Entry(pos, error),
        StreamError::Read(failure) => ObjectsError::from(failure),
    }
}
