//! The lines of a chain file, and the layers that they name.

use crate::fixtures::{Answer, Opener, answer, layer, open, put};
use gix_commitgraph::opening::OpenError;
use gix_commitgraph::{FileError, Graph, GraphError};
use graph_folder::chain::Lines;
use graph_folder::folder::Memory;
use std::alloc::Global;
use std::process::Abort;

/// A text, and its lines.
type Text = (&'static [u8], &'static [&'static [u8]]);

const TEXTS: &[Text] = &[
    (b"\x61\x61\x0d\x0a\x0a\x62\x62", &[b"aa", b"", b"bb"]),
    (b"", &[]),
    (b"\x61\x0d", &[b"\x61\x0d"]),
    (b"\xff\n", &[b"\xff"]),
    (b"\n", &[b""]),
    (b"\r\n", &[b""]),
    (b"\r\r\n", &[b"\r"]),
    (b"\r\n\r", &[b"", b"\r"]),
    (b"a\rb\n\n", &[b"a\rb", b""]),
    (b"aa\nbb\n", &[b"aa", b"bb"]),
];

/// Compares the lines of texts. After the last there is none, however often one asks.
fn compare_lines(rt: &impl Abort, rows: &[Text]) {
    for (text, want) in rows {
        let mut lines = Lines::new(text);
        for line in *want {
            assert!(rt; lines.next() == Some(*line));
        }
        assert!(rt; lines.next().is_none());
        assert!(rt; lines.next().is_none());
    }
}

/// Files of layers of one commit each, whose id repeats this byte. They have no bases, for which no
/// opener asks.
const LAYERS: &[(&str, u8)] = &[
    ("c/graph-aa.graph", 3),
    ("c/graph-.graph", 2),
    ("c/graph-bb.graph", 1),
    ("c/graph-a\r.graph", 4),
];

/// A chain folder with these files, one that is too short, and a chain file of these lines.
fn chain_folder(rt: &impl Abort, alloc: Global, lines: &[u8]) -> Memory {
    let mut memory = Memory::new(alloc);
    for (path, byte) in LAYERS {
        let bytes = layer(rt, alloc, &[], &[(*byte, &[], 1)]);
        put(rt, alloc, &mut memory, path, &bytes);
    }
    let short = "c/graph-short.graph";
    put(rt, alloc, &mut memory, short, &[0; 1099]);
    put(rt, alloc, &mut memory, "c/commit-graph-chain", lines);
    memory
}

/// The lines of a chain, the paths of the layers that it opens, and the first bytes of the ids of
/// their commits.
type Chain = (&'static [u8], &'static [&'static str], &'static [u8]);

const CHAINS: &[Chain] = &[
    (
        b"\x61\x61\x0d\x0a\x0a\x62\x62",
        &["c/graph-aa.graph", "c/graph-.graph", "c/graph-bb.graph"],
        &[3, 2, 1],
    ),
    (b"\x61\x0d", &["c/graph-a\r.graph"], &[4]),
    (
        b"bb\naa\n",
        &["c/graph-bb.graph", "c/graph-aa.graph"],
        &[1, 3],
    ),
    (
        b"aa\nbb\naa\naa\r\n",
        &[
            "c/graph-aa.graph",
            "c/graph-bb.graph",
            "c/graph-aa.graph",
            "c/graph-aa.graph",
        ],
        &[3, 1, 3, 3],
    ),
];

/// Whether a graph has layers with these paths, the lowest first.
fn has_paths(graph: &Graph, paths: &[&str]) -> bool {
    let layers = graph.layers();
    let mut all = layers.len() == paths.len();
    for (layer, path) in layers.iter().zip(paths) {
        all = all && layer.path() == *path;
    }
    all
}

/// Whether the ids of a graph begin with these bytes, in order.
fn has_first_bytes(graph: &Graph, bytes: &[u8]) -> bool {
    let mut all = graph.num_commits() as usize == bytes.len();
    for (id, byte) in graph.iter_ids().zip(bytes) {
        all = all && id.first_byte() == *byte;
    }
    all
}

/// Compares the layers that chains open.
fn compare_chains(rt: &impl Abort, alloc: Global, rows: &[Chain]) {
    for (lines, paths, bytes) in rows {
        let mut memory = chain_folder(rt, alloc, lines);
        let opened = open(alloc, &mut memory, Opener::Chain, "c");
        let graph = opened.ok().expect(rt, "a graph");
        assert!(rt; has_paths(&graph, paths) && has_first_bytes(&graph, bytes));
    }
}

/// The lines of a chain that is refused, and why.
type Refused = (&'static [u8], Answer);

const REFUSED: &[Refused] = &[
    (b"", Err(OpenError::Graph(GraphError::NoFiles))),
    (b"\xff\n", Err(OpenError::ChainNotText { line: 0 })),
    (b"aa\n\xff\n", Err(OpenError::ChainNotText { line: 1 })),
    (
        b"aa\nshort\n",
        Err(OpenError::Layer {
            layer: 1,
            error: FileError::TooSmall,
        }),
    ),
    (
        b"short\naa\n",
        Err(OpenError::Layer {
            layer: 0,
            error: FileError::TooSmall,
        }),
    ),
    // A line that was read before is no fault, and counts.
    (
        b"aa\naa\nshort\naa\n",
        Err(OpenError::Layer {
            layer: 2,
            error: FileError::TooSmall,
        }),
    ),
    (b"aa\naa\n\xff\n", Err(OpenError::ChainNotText { line: 2 })),
    (b"aa\nmissing\n", Err(OpenError::NotOpened)),
    // The refusal of an earlier line is told.
    (b"missing\nshort\n\xff\n", Err(OpenError::NotOpened)),
];

/// Compares why chains are refused.
fn compare_refused(rt: &impl Abort, alloc: Global, rows: &[Refused]) {
    for (lines, want) in rows {
        let mut memory = chain_folder(rt, alloc, lines);
        assert!(rt; answer(alloc, &mut memory, Opener::Chain, "c") == *want);
    }
}

#[test]
fn the_lines_of_a_chain_file_name_its_layers(rt: HostRuntime) {
    compare_lines(&rt, TEXTS);
    compare_chains(&rt, rt.alloc(), CHAINS);
    compare_refused(&rt, rt.alloc(), REFUSED);
}
