//! What the openers answer at each kind of path, and how paths are joined.

use crate::fixtures::{Answer, Opener, answer, graphs, layer, put, put_files, put_folders};
use gix_commitgraph::opening::OpenError;
use gix_commitgraph::opening::path::join;
use gix_commitgraph::{FileError, GraphError};
use graph_folder::folder::Memory;
use graph_vectors::DIAMOND;
use std::alloc::Global;
use std::process::Abort;

/// The path of a folder, a name in it, and the path of that.
const JOINED: &[(&str, &str, &str)] = &[
    ("", "x", "x"),
    ("a/", "x", "a/x"),
    ("/", "x", "/x"),
    ("a", "b", "a/b"),
    ("a//", "x", "a//x"),
    ("a/b", "", "a/b/"),
];

/// The path of a name in a folder.
fn joined(rt: &impl Abort, alloc: Global, folder: &str, name: &str) -> String {
    join(alloc, folder, name).expect(rt, "memory")
}

/// Compares paths that are joined.
fn compare_joined(rt: &impl Abort, alloc: Global, rows: &[(&str, &str, &str)]) {
    for (folder, name, want) in rows {
        assert!(rt; joined(rt, alloc, folder, name).as_str() == *want);
    }
}

/// A path, and what is answered where it is opened as what stands there, as a file, as an info
/// folder, and as a chain folder.
type Kind = (&'static str, [Answer; 4]);

/// Files and folders in which graphs stand. The file of an info folder comes before its chain, and
/// the chain where it is damaged.
const GRAPHS: &[Kind] = &[
    (
        "file",
        [
            Ok(4),
            Ok(4),
            Err(OpenError::NotOpened),
            Err(OpenError::NotOpened),
        ],
    ),
    (
        "chain",
        [
            Ok(7),
            Err(OpenError::NotOpened),
            Err(OpenError::NotOpened),
            Ok(7),
        ],
    ),
    (
        "chained",
        [
            Ok(7),
            Err(OpenError::NotOpened),
            Ok(7),
            Err(OpenError::NotOpened),
        ],
    ),
    (
        "damaged",
        [
            Ok(7),
            Err(OpenError::NotOpened),
            Ok(7),
            Err(OpenError::NotOpened),
        ],
    ),
    (
        "good",
        [
            Ok(4),
            Err(OpenError::NotOpened),
            Ok(4),
            Err(OpenError::NotOpened),
        ],
    ),
];

/// A folder without a graph, a path at which nothing stands, and one that is another text than that
/// of a folder.
const NONE: &[Kind] = &[
    (
        "bare",
        [
            Err(OpenError::NotOpened),
            Err(OpenError::NotOpened),
            Err(OpenError::NotOpened),
            Err(OpenError::NotOpened),
        ],
    ),
    (
        "missing",
        [
            Err(OpenError::NothingFound),
            Err(OpenError::NotOpened),
            Err(OpenError::NotOpened),
            Err(OpenError::NotOpened),
        ],
    ),
    (
        "good/",
        [
            Err(OpenError::NothingFound),
            Err(OpenError::NotOpened),
            Ok(4),
            Err(OpenError::NotOpened),
        ],
    ),
];

/// The openers, in the order of the answers.
const OPENERS: [Opener; 4] = [Opener::Any, Opener::File, Opener::Info, Opener::Chain];

/// Compares what the openers answer at each of some paths.
fn compare_kinds(rt: &impl Abort, alloc: Global, memory: &mut Memory, rows: &[Kind]) {
    for (path, answers) in rows {
        for (opener, want) in OPENERS.iter().zip(answers.as_slice()) {
            assert!(rt; answer(alloc, memory, *opener, path) == *want);
        }
    }
}

/// A file that is refused, and chains that are.
const OTHER_FILES: &[(&str, &[u8])] = &[
    ("short", &[0; 1099]),
    ("second/commit-graph-chain", b"aa\nshort\n"),
    ("second/graph-short.graph", &[0; 1099]),
    ("outer/commit-graphs/commit-graph-chain", b"aa\nshort\n"),
    ("outer/commit-graphs/graph-short.graph", &[0; 1099]),
    ("empty/commit-graph-chain", b""),
    ("no-text/commit-graph-chain", b"\xff\n"),
    ("both/commit-graph-chain", b""),
];

/// Files of four commits: first layers of chains, and files of info folders.
const DIAMONDS: &[&str] = &[
    "second/graph-aa.graph",
    "outer/commit-graphs/graph-aa.graph",
    "both/commit-graph",
    "named/commit-graph",
];

/// The folders of these files, and one at the path of a chain file.
const OTHER_FOLDERS: &[&str] = &[
    "second",
    "outer",
    "outer/commit-graphs",
    "empty",
    "no-text",
    "both",
    "named",
    "named/commit-graph-chain",
];

/// The folder of all these.
fn others(rt: &impl Abort, alloc: Global) -> Memory {
    let mut memory = Memory::new(alloc);
    let diamond = layer(rt, alloc, &[], DIAMOND);
    for path in DIAMONDS {
        put(rt, alloc, &mut memory, path, &diamond);
    }
    put_files(rt, alloc, &mut memory, OTHER_FILES);
    put_folders(rt, alloc, &mut memory, OTHER_FOLDERS);
    memory
}

/// Files and chains that are refused.
const REFUSED: &[Kind] = &[
    (
        "short",
        [
            Err(OpenError::Layer {
                layer: 0,
                error: FileError::TooSmall,
            }),
            Err(OpenError::Layer {
                layer: 0,
                error: FileError::TooSmall,
            }),
            Err(OpenError::NotOpened),
            Err(OpenError::NotOpened),
        ],
    ),
    (
        "second",
        [
            Err(OpenError::Layer {
                layer: 1,
                error: FileError::TooSmall,
            }),
            Err(OpenError::NotOpened),
            Err(OpenError::NotOpened),
            Err(OpenError::Layer {
                layer: 1,
                error: FileError::TooSmall,
            }),
        ],
    ),
    (
        "outer",
        [
            Err(OpenError::Layer {
                layer: 1,
                error: FileError::TooSmall,
            }),
            Err(OpenError::NotOpened),
            Err(OpenError::Layer {
                layer: 1,
                error: FileError::TooSmall,
            }),
            Err(OpenError::NotOpened),
        ],
    ),
    (
        "empty",
        [
            Err(OpenError::Graph(GraphError::NoFiles)),
            Err(OpenError::NotOpened),
            Err(OpenError::NotOpened),
            Err(OpenError::Graph(GraphError::NoFiles)),
        ],
    ),
    (
        "no-text",
        [
            Err(OpenError::ChainNotText { line: 0 }),
            Err(OpenError::NotOpened),
            Err(OpenError::NotOpened),
            Err(OpenError::ChainNotText { line: 0 }),
        ],
    ),
];

/// A folder is a chain folder where a file `commit-graph-chain` stands in it, whatever else does;
/// a folder of that name makes it none.
const CHOSEN: &[Kind] = &[
    (
        "both",
        [
            Err(OpenError::Graph(GraphError::NoFiles)),
            Err(OpenError::NotOpened),
            Ok(4),
            Err(OpenError::Graph(GraphError::NoFiles)),
        ],
    ),
    (
        "named",
        [
            Ok(4),
            Err(OpenError::NotOpened),
            Ok(4),
            Err(OpenError::NotOpened),
        ],
    ),
];

#[test]
fn each_opener_answers_by_what_stands_at_a_path(rt: HostRuntime) {
    compare_joined(&rt, rt.alloc(), JOINED);
    let mut memory = graphs(&rt, rt.alloc());
    compare_kinds(&rt, rt.alloc(), &mut memory, GRAPHS);
    compare_kinds(&rt, rt.alloc(), &mut memory, NONE);
    let mut memory = others(&rt, rt.alloc());
    compare_kinds(&rt, rt.alloc(), &mut memory, REFUSED);
    compare_kinds(&rt, rt.alloc(), &mut memory, CHOSEN);
}
