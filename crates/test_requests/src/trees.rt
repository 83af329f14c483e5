//! A source of trees that asks for them, by entries as `git cat-file --batch` wrote them.

use crate::fixtures::{Flushed, Pieces};
use crate::tables::{BAD, FIRST, HELLO, NO_FILE, OUT_OF_ORDER, SECOND, UPPER, UPPER_NEW};
use gix_hash_core::{Kind, ObjectId, digest, oid};
use object_requests::{RequestError, Requests};
use object_stream::{EntryError, ObjectType};
use std::alloc::Global;
use std::marker::Brand;
use std::process::Abort;
use tree_changes::{Limits, Refusal, TreeSource, changed_paths};
use tree_objects::TreeError;
use tree_requests::{TreeRequestError, TreeRequests};

/// A tree: its id and its contents.
pub type Row = (&'static str, &'static [u8]);

/// A source over a reader of known bytes.
type Source<'a> = TreeRequests<Brand, Pieces<'a>, Flushed>;

/// A source that reads from these bytes, so many at a time at most. The contract is long, and here
/// it ends.
fn source_of<'a>(rt: &impl Abort, alloc: Global, bytes: &'a [u8], writer: Flushed) -> Source<'a> {
    let requests = Requests::new(alloc, Kind::Sha1, ObjectType::Tree);
    let requests = requests.ok().expect(rt, "memory");
    let reader = Pieces {
        bytes,
        most: 100,
        fails: false,
    };
    TreeRequests::new(alloc, requests, reader, writer)
}

/// The id with these digits.
fn id_of(rt: &impl Abort, digits: &str) -> ObjectId {
    let id = ObjectId::from_hex(digits.as_bytes());
    id.ok().expect(rt, "an id")
}

/// Adds the entry of an object to a stream.
fn push_entry(
    rt: &impl Abort,
    alloc: Global,
    stream: &mut Vec<u8>,
    id: &ObjectId,
    object_type: &str,
    contents: &[u8],
) {
    let len = contents.len();
    let line = format!(in alloc; "{id} {object_type} {len}\n").expect(rt, "memory");
    stream
        .extend_from_slice(line.as_bytes())
        .expect(rt, "memory");
    stream.extend_from_slice(contents).expect(rt, "memory");
    stream.push(b'\n').ok().expect(rt, "memory");
}

/// The stream of these trees.
fn stream_of(rt: &impl Abort, alloc: Global, rows: &[Row]) -> Vec<u8> {
    let mut stream = Vec::new(alloc);
    for (digits, contents) in rows {
        let id = id_of(rt, digits);
        push_entry(rt, alloc, &mut stream, &id, "tree", contents);
    }
    stream
}

/// What comes of reading the tree with an id.
fn read(
    rt: &impl Abort,
    alloc: Global,
    source: &mut Source<'_>,
    id: &ObjectId,
) -> Result<Vec<u8>, TreeRequestError> {
    // What the buffer held is gone, whatever it was.
    let mut contents = Vec::from_slice(alloc, b"before").expect(rt, "memory");
    source.read(id.as_oid().as_bytes(), &mut contents)?;
    Ok(contents)
}

/// Compares what is read as the tree of a row.
fn compare(rt: &impl Abort, alloc: Global, source: &mut Source<'_>, row: &Row) {
    let found = read(rt, alloc, source, &id_of(rt, row.0));
    let found = found.ok().expect(rt, "a tree");
    assert!(rt; found.as_slice() == row.1);
}

/// Compares why a tree is not read.
fn compare_error(
    rt: &impl Abort,
    alloc: Global,
    source: &mut Source<'_>,
    id: &ObjectId,
    error: &TreeRequestError,
) {
    match read(rt, alloc, source, id) {
        Ok(_) => panic!(rt; "a tree"),
        Err(found) => assert!(rt; found == *error),
    }
}

/// Asks for the tree of a row ahead.
fn ahead(rt: &impl Abort, source: &mut Source<'_>, row: &Row) {
    source.ahead(id_of(rt, row.0).as_oid());
}

/// Compares what was written with these lines.
fn compare_written(rt: &impl Abort, source: Source<'_>, lines: &[u8]) {
    let (reader, writer, broken) = source.finish();
    assert!(rt; broken.is_none());
    assert!(rt; reader.bytes.is_empty());
    assert!(rt; writer.bytes.as_slice() == lines);
}

#[test]
fn a_tree_that_is_wanted_again_is_not_asked_for_again(rt: HostRuntime) {
    let alloc = rt.alloc();
    let stream = stream_of(&rt, alloc, &[FIRST, SECOND]);
    let mut source = source_of(&rt, alloc, &stream, Flushed::new(alloc));
    assert!(&rt; source.kind() == Kind::Sha1);
    for row in [FIRST, FIRST, SECOND, FIRST, SECOND] {
        compare(&rt, alloc, &mut source, &row);
    }
    let lines = b"10731d0b170b98481a00bdca161e874e0ab93377\n\
                  10ad8796cd0c9bcd6073d54a85348c69a04152d7\n";
    compare_written(&rt, source, lines);
}

#[test]
fn trees_that_were_asked_for_ahead_are_not_asked_for_again(rt: HostRuntime) {
    let alloc = rt.alloc();
    let stream = stream_of(&rt, alloc, &[FIRST, SECOND, UPPER]);
    let mut source = source_of(&rt, alloc, &stream, Flushed::new(alloc));
    for row in [FIRST, SECOND, FIRST] {
        ahead(&rt, &mut source, &row);
    }
    for row in [SECOND, UPPER, FIRST] {
        compare(&rt, alloc, &mut source, &row);
        ahead(&rt, &mut source, &row);
    }
    let lines = b"10731d0b170b98481a00bdca161e874e0ab93377\n\
                  10ad8796cd0c9bcd6073d54a85348c69a04152d7\n\
                  610d5853f83d074babbf53f28eac09a52fe96976\n";
    compare_written(&rt, source, lines);
}

/// The contents and the id of a tree with one entry, which is named by a number.
fn numbered(rt: &impl Abort, alloc: Global, number: usize) -> (ObjectId, Vec<u8>) {
    let heading = format!(in alloc; "100644 {number}\0").expect(rt, "memory");
    let mut contents = Vec::from_slice(alloc, heading.as_bytes()).expect(rt, "memory");
    contents
        .extend_from_slice(id_of(rt, HELLO).as_oid().as_bytes())
        .expect(rt, "memory");
    let len = contents.len();
    let heading = format!(in alloc; "tree {len}\0").expect(rt, "memory");
    let mut object = Vec::from_slice(alloc, heading.as_bytes()).expect(rt, "memory");
    object.extend_from_slice(&contents).expect(rt, "memory");
    (digest(Kind::Sha1, &object), contents)
}

#[test]
fn no_more_than_64_trees_are_asked_for_ahead(rt: HostRuntime) {
    let alloc = rt.alloc();
    let mut stream = Vec::new(alloc);
    for number in 0..70 {
        let (id, contents) = numbered(&rt, alloc, number);
        push_entry(&rt, alloc, &mut stream, &id, "tree", &contents);
    }
    let mut source = source_of(&rt, alloc, &stream, Flushed::new(alloc));
    for number in 0..70 {
        let (id, _) = numbered(&rt, alloc, number);
        source.ahead(id.as_oid());
    }
    // Those from 64 on are asked for one after another, when they are read.
    for number in (64..70).chain(0..70) {
        let (id, contents) = numbered(&rt, alloc, number);
        let found = read(&rt, alloc, &mut source, &id)
            .ok()
            .expect(&rt, "a tree");
        assert!(&rt; found == contents);
    }
    let (reader, writer, broken) = source.finish();
    assert!(&rt; broken.is_none());
    assert!(&rt; reader.bytes.is_empty());
    assert!(&rt; writer.bytes.len() == 70 * 41);
}

#[test]
fn paths_are_changed_from_tree_to_tree(rt: HostRuntime) {
    let alloc = rt.alloc();
    let stream = stream_of(&rt, alloc, &[UPPER, UPPER_NEW, FIRST, SECOND]);
    let mut source = source_of(&rt, alloc, &stream, Flushed::new(alloc));
    let (old, new) = (id_of(&rt, UPPER.0), id_of(&rt, UPPER_NEW.0));
    let paths = changed(alloc, &mut source, old.as_oid(), new.as_oid());
    let paths = paths.ok().expect(&rt, "paths");
    assert!(&rt; paths.len() == 2);
    for (path, want) in paths.iter().zip([b"d/f".as_slice(), b"d/g".as_slice()]) {
        assert!(&rt; path.as_slice() == want);
    }
}

/// The paths that change from one tree to another. The contract is long, and here it ends.
fn changed(
    alloc: Global,
    source: &mut Source<'_>,
    old: oid<'_>,
    new: oid<'_>,
) -> Result<Vec<Vec<u8>>, Refusal<TreeRequestError>> {
    let limits = Limits {
        paths: 100,
        names: 10,
        trees: 10,
    };
    changed_paths(alloc, source, Some(old), new, limits)
}

#[test]
fn an_object_that_is_no_tree_ends_the_stream(rt: HostRuntime) {
    let alloc = rt.alloc();
    let mut stream = stream_of(&rt, alloc, &[FIRST]);
    let file = id_of(&rt, HELLO);
    push_entry(&rt, alloc, &mut stream, &file, "blob", b"hello\n");
    let mut source = source_of(&rt, alloc, &stream, Flushed::new(alloc));
    compare(&rt, alloc, &mut source, &FIRST);
    source.ahead(file.as_oid());
    let error = TreeRequestError::Request(RequestError::Entry(file, EntryError::OtherType));
    for id in [id_of(&rt, SECOND.0), id_of(&rt, HELLO), id_of(&rt, UPPER.0)] {
        compare_error(&rt, alloc, &mut source, &id, &error);
    }
    compare(&rt, alloc, &mut source, &FIRST);
}

#[test]
fn a_tree_that_is_not_there_ends_the_stream(rt: HostRuntime) {
    let alloc = rt.alloc();
    let stream = b"610d5853f83d074babbf53f28eac09a52fe96976 missing\n";
    let mut source = source_of(&rt, alloc, stream, Flushed::new(alloc));
    let upper = id_of(&rt, UPPER.0);
    let error = TreeRequestError::Request(RequestError::Entry(upper, EntryError::Missing));
    for id in [id_of(&rt, UPPER.0), id_of(&rt, FIRST.0)] {
        compare_error(&rt, alloc, &mut source, &id, &error);
    }
}

#[test]
fn contents_that_are_no_tree_are_refused_where_they_are_wanted(rt: HostRuntime) {
    let alloc = rt.alloc();
    let stream = stream_of(&rt, alloc, &[BAD, OUT_OF_ORDER, FIRST, BAD, OUT_OF_ORDER]);
    let mut source = source_of(&rt, alloc, &stream, Flushed::new(alloc));
    for row in [BAD, OUT_OF_ORDER, FIRST] {
        ahead(&rt, &mut source, &row);
    }
    compare(&rt, alloc, &mut source, &FIRST);
    let errors = [TreeError::Unreadable(0), TreeError::Order(1)];
    for (row, error) in [BAD, OUT_OF_ORDER].into_iter().zip(errors) {
        let (id, named) = (id_of(&rt, row.0), id_of(&rt, row.0));
        let error = TreeRequestError::NoTree(named, error);
        compare_error(&rt, alloc, &mut source, &id, &error);
    }
    compare(&rt, alloc, &mut source, &FIRST);
}

#[test]
fn what_is_no_id_is_not_asked_for(rt: HostRuntime) {
    let alloc = rt.alloc();
    let mut source = source_of(&rt, alloc, b"", Flushed::new(alloc));
    let mut contents = Vec::new(alloc);
    for id in [b"".as_slice(), NO_FILE.as_bytes()] {
        let found = source.read(id, &mut contents);
        assert!(&rt; found.err() == Some(TreeRequestError::NoId));
    }
    compare_written(&rt, source, b"");
}

#[test]
fn a_line_that_is_not_written_ends_the_stream(rt: HostRuntime) {
    let alloc = rt.alloc();
    let stream = stream_of(&rt, alloc, &[FIRST]);
    let mut writer = Flushed::new(alloc);
    writer.fails_to_write = true;
    let mut source = source_of(&rt, alloc, &stream, writer);
    ahead(&rt, &mut source, &FIRST);
    for row in [SECOND, FIRST] {
        let error = TreeRequestError::Request(RequestError::WriteFailed);
        compare_error(&rt, alloc, &mut source, &id_of(&rt, row.0), &error);
    }
}
