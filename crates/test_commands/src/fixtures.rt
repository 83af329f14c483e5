//! What the tests share: a folder of graphs that are built from rows, and commands that are run in
//! it. Where an allocation fails, the process aborts.

use answer_lines::reply::Form;
use gix_hash_core::ObjectId;
use graph_commands::command::Command;
use graph_commands::line::WriteFailed;
use graph_commands::program::{Complaints, respond};
use graph_folder::folder::{Folder, Memory};
use graph_vectors::{DIAMOND, Row, Sink, file_of_rows};
use history_commands::SpelledQuestion;
use std::alloc::Global;
use std::io;
use std::process::Abort;
use unchecked_commands::run::run_spelled_unchecked;

pub const ONES: &str = "1111111111111111111111111111111111111111";

pub const TWOS: &str = "2222222222222222222222222222222222222222";

pub const THREES: &str = "3333333333333333333333333333333333333333";

pub const FOURS: &str = "4444444444444444444444444444444444444444";

pub const FIVES: &str = "5555555555555555555555555555555555555555";

pub const SIXES: &str = "6666666666666666666666666666666666666666";

pub const CS: &str = "cccccccccccccccccccccccccccccccccccccccc";

/// The text of an id of the other kind of hash.
pub const LONG: &str = "4444444444444444444444444444444444444444444444444444444444444444";

/// The layers of a chain in which 0x33 and 0x44 stand twice, the lowest first, and their checksums,
/// which are those that Python's `hashlib` gives.
const LOWEST: &[Row<'static>] = &[(0x11, &[], 1), (0x33, &[0], 2)];

const MIDDLE: &[Row<'static>] = &[(0x33, &[], 1), (0x44, &[0], 2), (0x55, &[1], 3)];

const HIGHEST: &[Row<'static>] = &[(0x22, &[4], 4), (0x44, &[], 1)];

const OF_LOWEST: &str = "d4acf176695c236bbec4d0a2f3ceab09f5436e96";

const OF_MIDDLE: &str = "efa7039cace7373e71879fba4d83bb0fd1b7225f";

/// The lowest layer of the other chains.
const LINE: &[Row<'static>] = &[(0x11, &[], 1), (0x22, &[0], 2)];

const OF_LINE: &str = "b9ca0f11f5955add95a308e337a7296ccc2f3a2f";

/// The upper layer of a chain in which each id stands once.
const APART: &[Row<'static>] = &[(0x15, &[1], 3), (0x33, &[1], 3), (0x44, &[], 1)];

/// The upper layer of a chain with two ways from its second commit to the first of the lower layer.
const MERGING: &[Row<'static>] = &[(0x33, &[1], 3), (0xcc, &[2, 0], 4), (0xdd, &[], 1)];

/// A path, the checksums of the layers below, and the commits of the file there.
type Layer = (
    &'static str,
    &'static [&'static str],
    &'static [Row<'static>],
);

const LAYERS: &[Layer] = &[
    ("diamond", &[], DIAMOND),
    (
        "repeated/graph-d4acf176695c236bbec4d0a2f3ceab09f5436e96.graph",
        &[],
        LOWEST,
    ),
    (
        "repeated/graph-efa7039cace7373e71879fba4d83bb0fd1b7225f.graph",
        &[OF_LOWEST],
        MIDDLE,
    ),
    (
        "repeated/graph-74ba8302038f56a86f95fad4f6344032e1fee5e2.graph",
        &[OF_LOWEST, OF_MIDDLE],
        HIGHEST,
    ),
    (
        "distinct/graph-b9ca0f11f5955add95a308e337a7296ccc2f3a2f.graph",
        &[],
        LINE,
    ),
    (
        "distinct/graph-6bdacddf2333030f7460b48a9cdff3dccc538b83.graph",
        &[OF_LINE],
        APART,
    ),
    (
        "merging/graph-b9ca0f11f5955add95a308e337a7296ccc2f3a2f.graph",
        &[],
        LINE,
    ),
    (
        "merging/graph-60cbf9c3e11e3234715fa9e53551a0b3a9dded38.graph",
        &[OF_LINE],
        MERGING,
    ),
];

/// The same of info folders: with a chain alone, and with a damaged file beside it.
const LAYERS_BELOW: &[Layer] = &[
    (
        "chained/commit-graphs/graph-d4acf176695c236bbec4d0a2f3ceab09f5436e96.graph",
        &[],
        LOWEST,
    ),
    (
        "chained/commit-graphs/graph-efa7039cace7373e71879fba4d83bb0fd1b7225f.graph",
        &[OF_LOWEST],
        MIDDLE,
    ),
    (
        "chained/commit-graphs/graph-74ba8302038f56a86f95fad4f6344032e1fee5e2.graph",
        &[OF_LOWEST, OF_MIDDLE],
        HIGHEST,
    ),
    (
        "damaged/commit-graphs/graph-d4acf176695c236bbec4d0a2f3ceab09f5436e96.graph",
        &[],
        LOWEST,
    ),
    (
        "damaged/commit-graphs/graph-efa7039cace7373e71879fba4d83bb0fd1b7225f.graph",
        &[OF_LOWEST],
        MIDDLE,
    ),
    (
        "damaged/commit-graphs/graph-74ba8302038f56a86f95fad4f6344032e1fee5e2.graph",
        &[OF_LOWEST, OF_MIDDLE],
        HIGHEST,
    ),
];

/// The lines of a chain of the first three layers.
const THREE_LINES: &[u8] = b"d4acf176695c236bbec4d0a2f3ceab09f5436e96\n\
    efa7039cace7373e71879fba4d83bb0fd1b7225f\n\
    74ba8302038f56a86f95fad4f6344032e1fee5e2\n";

const LINES_OF_DISTINCT: &[u8] = b"b9ca0f11f5955add95a308e337a7296ccc2f3a2f\n\
    6bdacddf2333030f7460b48a9cdff3dccc538b83\n";

const LINES_OF_MERGING: &[u8] = b"b9ca0f11f5955add95a308e337a7296ccc2f3a2f\n\
    60cbf9c3e11e3234715fa9e53551a0b3a9dded38\n";

/// Chain files, and a file that is no layer.
const OTHERS: &[(&str, &[u8])] = &[
    ("repeated/commit-graph-chain", THREE_LINES),
    ("distinct/commit-graph-chain", LINES_OF_DISTINCT),
    ("merging/commit-graph-chain", LINES_OF_MERGING),
    ("chained/commit-graphs/commit-graph-chain", THREE_LINES),
    ("damaged/commit-graphs/commit-graph-chain", THREE_LINES),
    ("damaged/commit-graph", &[0; 1099]),
];

const FOLDERS: &[&str] = &[
    "repeated",
    "distinct",
    "merging",
    "chained",
    "chained/commit-graphs",
    "damaged",
    "damaged/commit-graphs",
];

/// The folder of all these.
pub fn graphs(rt: &impl Abort, alloc: Global) -> Memory {
    let mut memory = Memory::new(alloc);
    put_layers(rt, alloc, &mut memory, LAYERS);
    put_layers(rt, alloc, &mut memory, LAYERS_BELOW);
    put_others(rt, alloc, &mut memory, OTHERS);
    put_folders(rt, alloc, &mut memory, FOLDERS);
    memory
}

/// Puts layers into a folder in memory.
fn put_layers(rt: &impl Abort, alloc: Global, memory: &mut Memory, layers: &[Layer]) {
    for (path, below, rows) in layers {
        let bytes = built(rt, alloc, &ids(rt, alloc, below), rows);
        put(rt, alloc, memory, path, bytes);
    }
}

/// The ids that texts spell.
fn ids(rt: &impl Abort, alloc: Global, texts: &[&str]) -> Vec<ObjectId> {
    let mut ids = Vec::new(alloc);
    for text in texts {
        let id = ObjectId::from_hex(text.as_bytes()).expect(rt, "an id");
        ids.push(id).expect(rt, "memory");
    }
    ids
}

/// Puts files of these bytes.
fn put_others(rt: &impl Abort, alloc: Global, memory: &mut Memory, files: &[(&str, &[u8])]) {
    for (path, bytes) in files {
        let bytes = Vec::from_slice(alloc, bytes).expect(rt, "memory");
        put(rt, alloc, memory, path, bytes);
    }
}

/// Puts folders.
fn put_folders(rt: &impl Abort, alloc: Global, memory: &mut Memory, folders: &[&str]) {
    for path in folders {
        memory.put_dir(owned(rt, alloc, path)).expect(rt, "memory");
    }
}

/// The text, in memory of its own.
pub fn owned(rt: &impl Abort, alloc: Global, text: &str) -> String {
    String::from_str(alloc, text).expect(rt, "memory")
}

/// Puts a file into a folder in memory.
pub fn put(rt: &impl Abort, alloc: Global, memory: &mut Memory, path: &str, bytes: Vec<u8>) {
    memory
        .put_file(owned(rt, alloc, path), bytes)
        .expect(rt, "memory");
}

/// The bytes of a SHA-1 file of these commits over these base layers.
pub fn built(rt: &impl Abort, alloc: Global, bases: &[ObjectId], rows: &[Row<'_>]) -> Vec<u8> {
    file_of_rows(alloc, bases, rows).expect(rt, "a file")
}

/// The words of a command line, after the name of the program.
fn line_of(rt: &impl Abort, alloc: Global, words: &[&str]) -> Vec<String> {
    let mut line = Vec::new(alloc);
    line.push(owned(rt, alloc, "graphtool"))
        .expect(rt, "memory");
    for word in words {
        line.push(owned(rt, alloc, word)).expect(rt, "memory");
    }
    line
}

/// What a folder is asked.
#[derive(Clone, Copy)]
pub enum Asked<'a> {
    /// By these words of `graphtool`, after its own name.
    Words(&'a [&'a str]),
    /// Whether the first of two commits is an ancestor of the second, in a graph that is trusted:
    /// by its path and both ids.
    IsAncestor(&'a str, &'a str, &'a str),
    /// The same, for the walk from the first to the second.
    Walk(&'a str, &'a str, &'a str),
    /// The same, for the ids of their merge bases.
    MergeBaseIds(&'a str, &'a str, &'a str),
}

/// What a command answers, and what it writes.
///
/// The contracts of the commands are long, and here they end: this function has none, so the proof
/// of a test does not go over them once more.
pub fn answer<T: Folder>(
    rt: &impl Abort,
    alloc: Global,
    folder: &mut T,
    asked: Asked<'_>,
    out: &mut Sink,
) -> Result<u8, WriteFailed> {
    match asked {
        Asked::Words(words) => answer_to_words(rt, alloc, folder, words, out),
        Asked::IsAncestor(path, first, second) => {
            let question = SpelledQuestion::IsAncestor(first, second);
            run_spelled_unchecked(alloc, folder, path, question, Form::Whole, out)
        }
        Asked::Walk(path, first, second) => {
            let question = SpelledQuestion::Walk(first, second);
            run_spelled_unchecked(alloc, folder, path, question, Form::Whole, out)
        }
        Asked::MergeBaseIds(path, first, other) => {
            let others = [owned(rt, alloc, other)];
            let question = SpelledQuestion::MergeBase(first, &others);
            run_spelled_unchecked(alloc, folder, path, question, Form::IdsAlone, out)
        }
    }
}

/// What `graphtool` answers to these words, where its input is empty. Nothing is written to
/// standard error.
fn answer_to_words<T: Folder>(
    rt: &impl Abort,
    alloc: Global,
    folder: &mut T,
    words: &[&str],
    out: &mut Sink,
) -> Result<u8, WriteFailed> {
    let line = line_of(rt, alloc, words);
    let command = Command::from_words(&line);
    let complaints = Complaints {
        usage: "usage",
        write_failed: "failed",
    };
    let mut input = io::empty();
    let mut errors = Sink::new(alloc, usize::MAX, None);
    let answered = respond(
        alloc,
        command,
        complaints,
        &mut input,
        folder,
        out,
        &mut errors,
    );
    assert!(rt; errors.bytes.is_empty());
    answered
}

/// Asserts that something holds of an answer, of which this is wanted. A proof has little to go
/// over where the message stands in a function alone.
pub fn ensure(rt: &impl Abort, want: &str, holds: bool) {
    assert!(rt; holds, "{want}");
}

/// Asserts the status of an answer, and what is written.
pub fn expect<T: Folder>(
    rt: &impl Abort,
    alloc: Global,
    folder: &mut T,
    asked: Asked<'_>,
    (status, written): (u8, &str),
) {
    let mut out = Sink::new(alloc, usize::MAX, None);
    let answered = answer(rt, alloc, folder, asked, &mut out);
    ensure(rt, written, answered == Ok(status) && out.text() == written);
}
