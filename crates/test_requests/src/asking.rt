//! Objects that are asked for, and the entries that answer.

use crate::fixtures::{Flushed, Pieces};
use crate::tables::{CHILD, REFUSED, ROOT, Refused, TAKEN, Taken};
use gix_hash_core::{Kind, ObjectId};
use object_requests::{AskError, RequestError, Requests};
use object_stream::{EntryError, ObjectType};
use std::alloc::Global;
use std::process::Abort;

/// The id with these digits.
pub fn id_of(rt: &impl Abort, digits: &str) -> ObjectId {
    ObjectId::from_hex(digits.as_bytes())
        .ok()
        .expect(rt, "an id")
}

/// No requests yet.
fn requests(rt: &impl Abort, alloc: Global, kind: Kind, object_type: ObjectType) -> Requests {
    Requests::new(alloc, kind, object_type)
        .ok()
        .expect(rt, "memory")
}

/// What comes of asking for an object, of which fewer than so many wait. The contract is long, and
/// here it ends.
fn ask(
    rt: &impl Abort,
    requests: &mut Requests,
    id: ObjectId,
    writer: &mut Flushed,
) -> Result<bool, AskError> {
    assert!(rt; requests.has_room());
    requests.ask(id, writer)
}

/// What comes of taking the next entry, where one waits.
fn take(
    rt: &impl Abort,
    requests: &mut Requests,
    reader: &mut Pieces<'_>,
    writer: &mut Flushed,
) -> Result<ObjectId, RequestError> {
    assert!(rt; requests.num_waiting() > 0);
    requests.take_next(reader, writer)
}

/// Asks for the objects of a row, each twice, and takes all their entries.
fn compare_taken(rt: &impl Abort, alloc: Global, row: &Taken, most: usize) {
    let (kind, object_type, lines, stream) = *row;
    let mut requests = requests(rt, alloc, kind, object_type);
    let mut writer = Flushed::new(alloc);
    for line in lines.lines() {
        let id = id_of(rt, line);
        assert!(rt; ask(rt, &mut requests, id, &mut writer) == Ok(true));
        assert!(rt; ask(rt, &mut requests, id, &mut writer) == Ok(false));
    }
    assert!(rt; writer.bytes.as_slice() == lines.as_bytes());
    let mut reader = Pieces {
        bytes: stream,
        most,
        fails: false,
    };
    let mut number: usize = 0;
    for line in lines.lines() {
        let id = id_of(rt, line);
        assert!(rt; take(rt, &mut requests, &mut reader, &mut writer) == Ok(id));
        assert!(rt; requests.number_of(&id) == Some(number));
        assert!(rt; is_in(stream, requests.contents()));
        number = number.saturating_add(1);
    }
    assert!(rt; requests.num_waiting() == 0);
    assert!(rt; reader.bytes.is_empty());
}

/// Whether some bytes stand in a stream, with a line feed before them and one behind.
fn is_in(stream: &[u8], contents: &[u8]) -> bool {
    for start in 0..stream.len() {
        let rest = &stream[start..];
        if let Some(tail) = rest.strip_prefix(b"\n") {
            if let Some(end) = tail.strip_prefix(contents) {
                if end.starts_with(b"\n") {
                    return true;
                }
            }
        }
    }
    false
}

#[test]
fn entries_that_git_wrote_are_taken(rt: HostRuntime) {
    let alloc = rt.alloc();
    for row in TAKEN {
        for most in [1, 7, 1000] {
            compare_taken(&rt, alloc, row, most);
        }
    }
}

/// Asks for the object of a row, and compares why its entry is not taken.
fn compare_refused(rt: &impl Abort, alloc: Global, row: &Refused) {
    let (object_type, digits, stream, error) = *row;
    let mut requests = requests(rt, alloc, Kind::Sha1, object_type);
    let mut writer = Flushed::new(alloc);
    let id = id_of(rt, digits);
    assert!(rt; ask(rt, &mut requests, id, &mut writer) == Ok(true));
    // Behind a whole answer nothing is read: a pipe may have no more until more is asked for.
    let mut reader = Pieces {
        bytes: stream,
        most: 1000,
        fails: error != EntryError::Ends,
    };
    let found = take(rt, &mut requests, &mut reader, &mut writer);
    assert!(rt; found == Err(RequestError::Entry(id, error)));
    assert!(rt; requests.num_waiting() == 1);
}

#[test]
fn other_answers_are_refused(rt: HostRuntime) {
    for row in REFUSED {
        compare_refused(&rt, rt.alloc(), row);
    }
}

/// The reader fails at once, but what was written was passed on before.
#[test]
fn lines_are_flushed_before_an_entry_is_read(rt: HostRuntime) {
    let alloc = rt.alloc();
    let mut requests = requests(&rt, alloc, Kind::Sha1, ObjectType::Commit);
    let mut writer = Flushed::new(alloc);
    for digits in [CHILD, ROOT] {
        assert!(rt; ask(&rt, &mut requests, id_of(&rt, digits), &mut writer) == Ok(true));
    }
    let mut reader = Pieces {
        bytes: b"",
        most: 1000,
        fails: true,
    };
    let found = take(&rt, &mut requests, &mut reader, &mut writer);
    assert!(rt; found == Err(RequestError::Device));
    assert!(rt; writer.flushed == 82);
    writer.fails_to_flush = true;
    let found = take(&rt, &mut requests, &mut reader, &mut writer);
    assert!(rt; found == Err(RequestError::WriteFailed));
}

/// The id counts as asked for, so that no line is written of it again.
#[test]
fn a_write_that_fails_is_told(rt: HostRuntime) {
    let alloc = rt.alloc();
    let mut requests = requests(&rt, alloc, Kind::Sha1, ObjectType::Commit);
    let mut writer = Flushed::new(alloc);
    writer.fails_to_write = true;
    let id = id_of(&rt, ROOT);
    assert!(rt; ask(&rt, &mut requests, id, &mut writer) == Err(AskError::WriteFailed));
    writer.fails_to_write = false;
    assert!(rt; ask(&rt, &mut requests, id, &mut writer) == Ok(false));
    assert!(rt; writer.bytes.is_empty());
}
