//! Openers over a folder that others write while it is read.

ghost use Rattle.std.specs.Prelude.{◌≡◌, None, Some};
ghost use Rattle.graph_folder.specs.Tree.{Tree, file_at};

use crate::fixtures::{
    Answer, LOWEST, MIDDLE, Opener, TWO_LINES, answer, graphs, layer, layer_path, put,
};
use gix_commitgraph::opening::OpenError;
use graph_folder::folder::{Folder, Memory, ReadError};
use graph_vectors::DIAMOND;
use std::alloc::{AllocError, Global};
use std::mem;
use std::process::Abort;

/// A folder in memory, whose files change before one of its reads. No read fails: where one would,
/// there is no memory here.
#[derive(Drop)]
struct Changing {
    memory: Memory,
    /// What stands there after so many reads more.
    later: Memory,
    reads_before: u32,
}

impl Folder for Changing {
    ghost tree = { λ _. None };

    /// Some tree had a file of these bytes there.
    ghost gives = { λ path bytes. (tree : Tree) × (file_at tree path ≡ Some bytes) };

    ghost failure_count = { λ _. 0 };

    fn failures(&self) -> u64 {
        0
    }

    fn is_file(&mut self, alloc: Global, path: &str) -> Result<bool, AllocError> {
        self.memory.is_file(alloc, path)
    }

    fn is_dir(&mut self, alloc: Global, path: &str) -> Result<bool, AllocError> {
        self.memory.is_dir(alloc, path)
    }

    #[tactic(auto, using(crate::proofs::ReadLemmas::held_by_read))]
    fn read(&mut self, alloc: Global, path: &str) -> Result<Vec<u8>, ReadError> {
        if self.reads_before == 0 {
            mem::swap(&mut self.memory, &mut self.later);
        }
        self.reads_before = self.reads_before.wrapping_sub(1);
        match self.memory.read(alloc, path) {
            Err(ReadError::Device) => Err(ReadError::OutOfMemory),
            answer => answer,
        }
    }
}

/// The chain folders that others write, all alike.
const WRITTEN: &[&str] = &[
    "chain",
    "repeated",
    "damaged/commit-graphs",
    "good/commit-graphs",
];

/// What others write: at `file` one commit; no file of an info folder; and in the chain folders two
/// lines, with four commits and one commit at the paths of the lower two layers, and no third file.
fn written(rt: &impl Abort, alloc: Global) -> Memory {
    let mut memory = Memory::new(alloc);
    let four = layer(rt, alloc, &[], DIAMOND);
    let one = layer(rt, alloc, &[], &[(0x77, &[], 1)]);
    put(rt, alloc, &mut memory, "file", &one);
    for folder in WRITTEN {
        let chain = format!(in alloc; "{folder}/commit-graph-chain").expect(rt, "memory");
        put(rt, alloc, &mut memory, &chain, TWO_LINES);
        let lowest = layer_path(rt, alloc, folder, LOWEST);
        put(rt, alloc, &mut memory, &lowest, &four);
        let middle = layer_path(rt, alloc, folder, MIDDLE);
        put(rt, alloc, &mut memory, &middle, &one);
    }
    memory
}

/// What a path is opened as, and what is answered where others write before the first read, before
/// the second one and so on.
type Row = (Opener, &'static str, &'static [Answer]);

const ROWS: &[Row] = &[
    (Opener::File, "file", &[Ok(1), Ok(4)]),
    // The file of the third line is gone, unless it was read before.
    (
        Opener::Chain,
        "chain",
        &[
            Ok(5),
            Err(OpenError::NotOpened),
            Err(OpenError::NotOpened),
            Err(OpenError::NotOpened),
            Ok(7),
        ],
    ),
    // Five lines name two files by turns: three times four commits and twice one; then three times
    // two and twice one, as the first file was read before; then three times two and twice three.
    (Opener::Chain, "repeated", &[Ok(5), Ok(14), Ok(8), Ok(12)]),
    (Opener::Info, "good", &[Ok(5), Ok(4)]),
    (
        Opener::Info,
        "damaged",
        &[Ok(5), Ok(5), Err(OpenError::NotOpened)],
    ),
];

/// Compares what is answered where others write before each read in turn.
fn compare(rt: &impl Abort, alloc: Global, rows: &[Row]) {
    for (opener, path, answers) in rows {
        let mut reads_before = 0u32;
        for want in *answers {
            let mut folder = Changing {
                memory: graphs(rt, alloc),
                later: written(rt, alloc),
                reads_before,
            };
            assert!(rt; answer(alloc, &mut folder, *opener, path) == *want);
            reads_before = reads_before.saturating_add(1);
        }
    }
}

#[test]
fn each_file_is_opened_as_it_was_read(rt: HostRuntime) {
    compare(&rt, rt.alloc(), ROWS);
}
