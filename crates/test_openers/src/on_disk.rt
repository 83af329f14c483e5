//! Files and folders on disk: what is read of them, and what is opened by their paths.

use crate::fixtures::{Answer, TWO_LAYERS, TWO_LINES, commits, layer, layer_path};
use crate::folders::{Bytes, Standing, compare_read, compare_standing};
use crate::reads::numbers;
use gix_commitgraph::opening::OpenError;
use gix_commitgraph::{File, Graph};
use graph_folder::folder::{Disk, Folder, ReadError};
use graph_vectors::DIAMOND;
use std::alloc::Global;
use std::fs;
use std::process::Abort;
use std::rt::Files;

/// What opens a path on disk.
#[derive(Clone, Copy)]
enum ByPath {
    /// The function beside the graphs.
    Root,
    /// `Graph::at`.
    Graph,
    /// `Graph::from_file`.
    File,
    /// `Graph::from_info_dir`.
    Info,
    /// `Graph::from_commit_graphs_dir`.
    Chain,
    /// `File::at`, which opens a layer.
    Layer,
}

/// What is answered where a path on disk is opened. As over a folder, contracts end here.
fn answer_at<R: Files>(rt: &R, alloc: Global, opener: ByPath, path: &str) -> Answer {
    match opener {
        ByPath::Root => commits(gix_commitgraph::at(rt, alloc, path)),
        ByPath::Graph => commits(Graph::at(rt, alloc, path)),
        ByPath::File => commits(Graph::from_file(rt, alloc, path)),
        ByPath::Info => commits(Graph::from_info_dir(rt, alloc, path)),
        ByPath::Chain => commits(Graph::from_commit_graphs_dir(rt, alloc, path)),
        ByPath::Layer => File::at(rt, alloc, path).map(|file| file.num_commits()),
    }
}

const FILE: &str = "openers_test_file";

const INFO: &str = "openers_test_info";

const GRAPHS: &str = "openers_test_info/commit-graphs";

const CHAIN: &str = "openers_test_info/commit-graphs/commit-graph-chain";

const MISSING: &str = "openers_test_missing";

/// What opens a path, and what is answered there.
type Row = (ByPath, &'static str, Answer);

/// A file of four commits, and an info folder with a chain of two and three.
const OPENED: &[Row] = &[
    (ByPath::Layer, FILE, Ok(4)),
    (ByPath::File, FILE, Ok(4)),
    (ByPath::Graph, FILE, Ok(4)),
    (ByPath::Root, FILE, Ok(4)),
    (ByPath::Info, INFO, Ok(5)),
    (ByPath::Graph, INFO, Ok(5)),
    (ByPath::Root, INFO, Ok(5)),
    (ByPath::Chain, GRAPHS, Ok(5)),
    (ByPath::Graph, GRAPHS, Ok(5)),
    (ByPath::Root, GRAPHS, Ok(5)),
];

/// Paths at which nothing stands, or no such thing.
const REFUSED: &[Row] = &[
    (ByPath::Root, MISSING, Err(OpenError::NothingFound)),
    (ByPath::Graph, MISSING, Err(OpenError::NothingFound)),
    (ByPath::File, MISSING, Err(OpenError::NotOpened)),
    (ByPath::Layer, MISSING, Err(OpenError::NotOpened)),
    (ByPath::Info, MISSING, Err(OpenError::NotOpened)),
    (ByPath::Chain, MISSING, Err(OpenError::NotOpened)),
    (ByPath::File, INFO, Err(OpenError::NotOpened)),
    (ByPath::Layer, INFO, Err(OpenError::NotOpened)),
    (ByPath::Info, FILE, Err(OpenError::NotOpened)),
    (ByPath::Chain, FILE, Err(OpenError::NotOpened)),
    (ByPath::Chain, INFO, Err(OpenError::NotOpened)),
];

/// A file of Linux. A read at its start fails, since no process has memory at the address 0.
const FAILING: &str = "/proc/self/mem";

/// A file of which each read fails.
const FAILED: &[Row] = &[
    (ByPath::Root, FAILING, Err(OpenError::Device)),
    (ByPath::Graph, FAILING, Err(OpenError::Device)),
    (ByPath::File, FAILING, Err(OpenError::Device)),
    (ByPath::Layer, FAILING, Err(OpenError::Device)),
];

/// Compares what is answered by each of some paths.
fn compare_answers<R: Files + Abort>(rt: &R, alloc: Global, rows: &[Row]) {
    for (opener, path, want) in rows {
        assert!(rt; answer_at(rt, alloc, *opener, path) == *want);
    }
}

/// Writes a file.
fn write<R: Files + Abort>(rt: &R, path: &str, bytes: &[u8]) {
    fs::write(rt, path, bytes).expect(rt, "a file");
}

/// Writes the file, and the info folder with its chain.
fn write_graphs<R: Files + Abort>(rt: &R, alloc: Global) {
    write(rt, FILE, &layer(rt, alloc, &[], DIAMOND));
    fs::create_dir(rt, INFO).expect(rt, "a folder");
    fs::create_dir(rt, GRAPHS).expect(rt, "a folder");
    for (line, bases, rows) in TWO_LAYERS {
        let path = layer_path(rt, alloc, GRAPHS, line);
        write(rt, &path, &layer(rt, alloc, bases, rows));
    }
    write(rt, CHAIN, TWO_LINES);
}

#[test]
fn graphs_on_disk_are_opened_by_their_paths(rt: HostRuntime) {
    let _ = fs::remove_dir_all(&rt, INFO);
    write_graphs(&rt, rt.alloc());
    compare_answers(&rt, rt.alloc(), OPENED);
    compare_answers(&rt, rt.alloc(), REFUSED);
    compare_answers(&rt, rt.alloc(), FAILED);
    fs::remove_dir_all(&rt, INFO).expect(&rt, "no folder");
    fs::remove_file(&rt, FILE).expect(&rt, "no file");
}

const READ: &str = "openers_test_read";

const READ_FILE: &str = "openers_test_read/file";

const READ_MISSING: &str = "openers_test_read/missing";

/// How many bytes are written to a file, each time in place of those before.
const LENGTHS: &[usize] = &[0, 1, 100_000, 3];

/// Compares what a folder on disk has. The file is written anew each time, at last with as many
/// bytes as before, but others. No read fails.
fn compare_disk<R: Files + Abort, T: Folder>(rt: &R, alloc: Global, disk: &mut T) {
    for len in LENGTHS {
        let bytes = numbers(rt, alloc, *len);
        write(rt, READ_FILE, &bytes);
        compare_read(rt, alloc, disk, READ_FILE, &Ok(&bytes), 0);
    }
    write(rt, READ_FILE, b"new");
    compare_read(rt, alloc, disk, READ_FILE, &Ok(b"new"), 0);
    compare_standing(rt, alloc, disk, READ_FILE, Standing::File);
    compare_standing(rt, alloc, disk, READ, Standing::Dir);
    compare_standing(rt, alloc, disk, READ_MISSING, Standing::Nothing);
    let refused: Bytes<'_> = Err(ReadError::NotOpened);
    compare_read(rt, alloc, disk, READ, &refused, 0);
    compare_read(rt, alloc, disk, READ_MISSING, &refused, 0);
}

#[test]
fn a_disk_gives_the_bytes_that_were_written(rt: HostRuntime) {
    let _ = fs::remove_dir_all(&rt, READ);
    fs::create_dir(&rt, READ).expect(&rt, "a folder");
    compare_disk(&rt, rt.alloc(), &mut Disk::new(&rt));
    fs::remove_dir_all(&rt, READ).expect(&rt, "no folder");
}
