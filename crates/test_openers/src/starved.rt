//! Openers over a folder that finds no memory at some path.

ghost use Rattle.std.specs.Prelude.{None};

use crate::fixtures::{Answer, Opener, answer, graphs};
use gix_commitgraph::opening::OpenError;
use graph_folder::folder::{Folder, Memory, ReadError};
use std::alloc::{AllocError, Global};
use std::process::Abort;

/// A folder in memory, in which no call about one path finds memory. No read fails otherwise: where
/// one would, there is no memory here.
#[derive(Drop)]
struct Starved<'a> {
    memory: Memory,
    path: &'a str,
    /// How many calls were made after the one that found no memory.
    calls_after: u32,
    is_refused: bool,
}

impl Starved<'_> {
    /// Counts a call about a path, which finds no memory where it is that one.
    fn call(&mut self, path: &str) -> Result<(), AllocError> {
        if self.is_refused {
            self.calls_after = self.calls_after.saturating_add(1);
        }
        if path == self.path {
            self.is_refused = true;
            return Err(AllocError);
        }
        Ok(())
    }
}

impl Folder for Starved<'_> {
    ghost tree = { λ _. None };

    ghost failure_count = { λ _. 0 };

    fn failures(&self) -> u64 {
        0
    }

    fn is_file(&mut self, alloc: Global, path: &str) -> Result<bool, AllocError> {
        self.call(path)?;
        self.memory.is_file(alloc, path)
    }

    fn is_dir(&mut self, alloc: Global, path: &str) -> Result<bool, AllocError> {
        self.call(path)?;
        self.memory.is_dir(alloc, path)
    }

    fn read(&mut self, alloc: Global, path: &str) -> Result<Vec<u8>, ReadError> {
        if self.call(path).is_err() {
            return Err(ReadError::OutOfMemory);
        }
        match self.memory.read(alloc, path) {
            Err(ReadError::Device) => Err(ReadError::OutOfMemory),
            answer => answer,
        }
    }
}

/// A path at which no memory is found, what a path is opened as, and what is answered.
type Row = (&'static str, Opener, &'static str, Answer);

/// Info folders whose own file is damaged, or good: the chain beside it is not opened in its place.
const INFO_FILES: &[Row] = &[
    ("nowhere", Opener::Info, "damaged", Ok(7)),
    ("nowhere", Opener::Info, "good", Ok(4)),
    (
        "damaged/commit-graph",
        Opener::Info,
        "damaged",
        Err(OpenError::OutOfMemory),
    ),
    (
        "good/commit-graph",
        Opener::Info,
        "good",
        Err(OpenError::OutOfMemory),
    ),
    (
        "damaged/commit-graph",
        Opener::Any,
        "damaged",
        Err(OpenError::OutOfMemory),
    ),
    (
        "good/commit-graph",
        Opener::Any,
        "good",
        Err(OpenError::OutOfMemory),
    ),
];

/// Files, chain files and layers, and questions about what stands at a path.
const OTHERS: &[Row] = &[
    ("file", Opener::File, "file", Err(OpenError::OutOfMemory)),
    ("file", Opener::Any, "file", Err(OpenError::OutOfMemory)),
    (
        "chain/commit-graph-chain",
        Opener::Chain,
        "chain",
        Err(OpenError::OutOfMemory),
    ),
    (
        "chain/commit-graph-chain",
        Opener::Any,
        "chain",
        Err(OpenError::OutOfMemory),
    ),
    (
        "chain/graph-efa7039cace7373e71879fba4d83bb0fd1b7225f.graph",
        Opener::Chain,
        "chain",
        Err(OpenError::OutOfMemory),
    ),
    (
        "chained/commit-graphs/commit-graph-chain",
        Opener::Info,
        "chained",
        Err(OpenError::OutOfMemory),
    ),
    (
        "chained/commit-graphs/graph-efa7039cace7373e71879fba4d83bb0fd1b7225f.graph",
        Opener::Any,
        "chained",
        Err(OpenError::OutOfMemory),
    ),
];

/// Compares what is answered. Once a call finds no memory, no other is made.
fn compare(rt: &impl Abort, alloc: Global, rows: &[Row]) {
    for (starved, opener, path, want) in rows {
        let mut folder = Starved {
            memory: graphs(rt, alloc),
            path: starved,
            calls_after: 0,
            is_refused: false,
        };
        assert!(rt; answer(alloc, &mut folder, *opener, path) == *want);
        assert!(rt; folder.calls_after == 0);
    }
}

#[test]
fn no_opener_goes_on_without_memory(rt: HostRuntime) {
    compare(&rt, rt.alloc(), INFO_FILES);
    compare(&rt, rt.alloc(), OTHERS);
}
