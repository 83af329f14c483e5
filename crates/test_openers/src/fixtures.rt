//! What the tests share: the four openers, and the layers of a chain, built from rows. Where an
//! allocation fails, the process aborts.

use gix_commitgraph::Graph;
use gix_commitgraph::opening::{
    OpenError, open_chain_dir_in, open_file_in, open_in, open_info_dir_in,
};
use gix_hash_core::ObjectId;
use graph_folder::folder::{Folder, Memory};
use graph_vectors::{DIAMOND, Row, file_of_rows};
use std::alloc::Global;
use std::process::Abort;

/// What a path is opened as.
#[derive(Clone, Copy)]
pub enum Opener {
    /// As what stands there.
    Any,
    /// As a file.
    File,
    /// As an info folder.
    Info,
    /// As a chain folder.
    Chain,
}

/// How many commits a graph has that was opened, or why none was opened.
pub type Answer = Result<u32, OpenError>;

/// Opens a path over a folder.
///
/// The contracts of the openers are long, and here they end: this function has none, so the proof
/// of a test does not go over them once more.
pub fn open<T: Folder>(
    alloc: Global,
    folder: &mut T,
    opener: Opener,
    path: &str,
) -> Result<Graph, OpenError> {
    match opener {
        Opener::Any => open_in(alloc, folder, path),
        Opener::File => open_file_in(alloc, folder, path),
        Opener::Info => open_info_dir_in(alloc, folder, path),
        Opener::Chain => open_chain_dir_in(alloc, folder, path),
    }
}

/// What is answered where a path is opened over a folder.
pub fn answer<T: Folder>(alloc: Global, folder: &mut T, opener: Opener, path: &str) -> Answer {
    commits(open(alloc, folder, opener, path))
}

/// How many commits a graph has that was opened.
pub fn commits(opened: Result<Graph, OpenError>) -> Answer {
    opened.map(|graph| graph.num_commits())
}

/// A layer of a chain: its checksum, which is the line that names it, the checksums of the layers
/// below, and its commits.
pub type Layer = (
    &'static str,
    &'static [&'static str],
    &'static [Row<'static>],
);

/// The checksums of the three layers that follow, the lowest first. They are those that Python's
/// `hashlib` gives.
pub const LOWEST: &str = "d4acf176695c236bbec4d0a2f3ceab09f5436e96";

pub const MIDDLE: &str = "efa7039cace7373e71879fba4d83bb0fd1b7225f";

const HIGHEST: &str = "74ba8302038f56a86f95fad4f6344032e1fee5e2";

/// The lower two layers of a chain, of two and of three commits. The id 0x33 stands at position 1
/// of the first and at position 0 of the second.
pub const TWO_LAYERS: &[Layer] = &[
    (LOWEST, &[], &[(0x11, &[], 1), (0x33, &[0], 2)]),
    (
        MIDDLE,
        &[LOWEST],
        &[(0x33, &[], 1), (0x44, &[0], 2), (0x55, &[1], 3)],
    ),
];

/// The layer of two commits above them.
const THIRD_LAYER: &[Layer] = &[(
    HIGHEST,
    &[LOWEST, MIDDLE],
    &[(0x22, &[4], 4), (0x44, &[], 1)],
)];

/// The lines of a chain of the first two layers, of all three, and of the first two by turns.
pub const TWO_LINES: &[u8] = b"d4acf176695c236bbec4d0a2f3ceab09f5436e96\n\
    efa7039cace7373e71879fba4d83bb0fd1b7225f\n";

const THREE_LINES: &[u8] = b"d4acf176695c236bbec4d0a2f3ceab09f5436e96\n\
    efa7039cace7373e71879fba4d83bb0fd1b7225f\n\
    74ba8302038f56a86f95fad4f6344032e1fee5e2\n";

const REPEATED_LINES: &[u8] = b"d4acf176695c236bbec4d0a2f3ceab09f5436e96\n\
    efa7039cace7373e71879fba4d83bb0fd1b7225f\n\
    d4acf176695c236bbec4d0a2f3ceab09f5436e96\n\
    efa7039cace7373e71879fba4d83bb0fd1b7225f\n\
    d4acf176695c236bbec4d0a2f3ceab09f5436e96\n";

/// The ids that texts spell.
fn ids(rt: &impl Abort, alloc: Global, texts: &[&str]) -> Vec<ObjectId> {
    let mut ids = Vec::new(alloc);
    for text in texts {
        let id = ObjectId::from_hex(text.as_bytes()).expect(rt, "an id");
        ids.push(id).expect(rt, "memory");
    }
    ids
}

/// The file of the layer of these commits, on bases with these checksums.
pub fn layer(rt: &impl Abort, alloc: Global, bases: &[&str], rows: &[Row<'_>]) -> Vec<u8> {
    let bases = ids(rt, alloc, bases);
    file_of_rows(alloc, &bases, rows).expect(rt, "a file")
}

/// The path of the file of a layer in a chain folder.
pub fn layer_path(rt: &impl Abort, alloc: Global, folder: &str, line: &str) -> String {
    format!(in alloc; "{folder}/graph-{line}.graph").expect(rt, "memory")
}

/// The text, in memory of its own.
fn owned(rt: &impl Abort, alloc: Global, text: &str) -> String {
    String::from_str(alloc, text).expect(rt, "memory")
}

/// Puts a file into a folder in memory.
pub fn put(rt: &impl Abort, alloc: Global, memory: &mut Memory, path: &str, bytes: &[u8]) {
    let bytes = Vec::from_slice(alloc, bytes).expect(rt, "memory");
    let path = owned(rt, alloc, path);
    memory.put_file(path, bytes).expect(rt, "memory");
}

/// Puts files into a folder in memory.
pub fn put_files(rt: &impl Abort, alloc: Global, memory: &mut Memory, files: &[(&str, &[u8])]) {
    for (path, bytes) in files {
        put(rt, alloc, memory, path, bytes);
    }
}

/// Puts folders into a folder in memory.
pub fn put_folders(rt: &impl Abort, alloc: Global, memory: &mut Memory, paths: &[&str]) {
    for path in paths {
        memory.put_dir(owned(rt, alloc, path)).expect(rt, "memory");
    }
}

/// Puts the files of these layers into a chain folder in memory.
fn put_layers(rt: &impl Abort, alloc: Global, memory: &mut Memory, folder: &str, layers: &[Layer]) {
    for (line, bases, rows) in layers {
        let path = layer_path(rt, alloc, folder, line);
        put(rt, alloc, memory, &path, &layer(rt, alloc, bases, rows));
    }
}

/// The chain folders of three layers, one after another: two that are opened by their own path, and
/// those of three info folders.
const CHAIN_FOLDERS: &[&str] = &[
    "chain",
    "repeated",
    "chained/commit-graphs",
    "damaged/commit-graphs",
    "good/commit-graphs",
];

/// The chain files of these folders.
const CHAIN_FILES: &[(&str, &[u8])] = &[
    ("chain/commit-graph-chain", THREE_LINES),
    ("repeated/commit-graph-chain", REPEATED_LINES),
    ("chained/commit-graphs/commit-graph-chain", THREE_LINES),
    ("damaged/commit-graphs/commit-graph-chain", THREE_LINES),
    ("good/commit-graphs/commit-graph-chain", THREE_LINES),
];

/// The other folders: info folders, and one in which nothing stands.
const OTHER_FOLDERS: &[&str] = &["chained", "damaged", "good", "bare"];

/// A folder in memory with a file of four commits at `file`; a folder `chain` with a chain of three
/// layers, which have seven commits in all; a folder `repeated`, whose chain file names the lower
/// two of them by turns; and info folders with the chain of `chain`: `chained` has nothing beside
/// it, `damaged` a file of 1099 bytes, and `good` a file of four commits. Nothing stands in the
/// folder `bare`.
pub fn graphs(rt: &impl Abort, alloc: Global) -> Memory {
    let mut memory = Memory::new(alloc);
    let diamond = layer(rt, alloc, &[], DIAMOND);
    put(rt, alloc, &mut memory, "file", &diamond);
    put(rt, alloc, &mut memory, "good/commit-graph", &diamond);
    put(rt, alloc, &mut memory, "damaged/commit-graph", &[0; 1099]);
    for folder in CHAIN_FOLDERS {
        put_layers(rt, alloc, &mut memory, folder, TWO_LAYERS);
        put_layers(rt, alloc, &mut memory, folder, THIRD_LAYER);
    }
    put_files(rt, alloc, &mut memory, CHAIN_FILES);
    put_folders(rt, alloc, &mut memory, CHAIN_FOLDERS);
    put_folders(rt, alloc, &mut memory, OTHER_FOLDERS);
    memory
}
