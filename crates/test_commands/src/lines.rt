//! The lines that tell of a refusal, a check and a search.

use crate::fixtures::ensure;
use gix_chunk_core::ChunkError;
use gix_commitgraph::file::commit::ParentError;
use gix_commitgraph::opening::OpenError;
use gix_commitgraph::verify::{CommitFault, LayerFault, Outcome, VerifyError};
use gix_commitgraph::{FileError, GraphError, Position};
use gix_hash_core::IdError;
use graph_commands::line::write_line;
use graph_commands::refusal::Refusal;
use graph_commands::report::{Found, write_outcome};
use graph_commands::run::WriteFailed;
use graph_folder::folder::ReadError;
use graph_vectors::Sink;
use std::alloc::{AllocError, Global};
use std::collections::BTreeMap;
use std::fmt::Display;
use std::process::Abort;

/// The highest position of a graph.
const HIGHEST: Position = Position(1879048190);

/// Refusals, with the exit status and the line: one for each form of a line, those that no run of a
/// program can cause, and those with the longest lines.
const REFUSALS: &[(Refusal, u8, &str)] = &[
    (Refusal::Id(IdError::Digit), 2, "refused id 2"),
    (Refusal::Read(ReadError::NotOpened), 1, "refused read 1"),
    (Refusal::File(FileError::TooSmall), 1, "refused file 1"),
    (Refusal::File(FileError::Version(9)), 1, "refused file 3"),
    (
        Refusal::File(FileError::Chunks(ChunkError::EarlyEnd { entry: 9 })),
        1,
        "refused file 5 chunk 3",
    ),
    (Refusal::File(FileError::TooManyEdges), 1, "refused file 14"),
    (Refusal::File(FileError::OutOfMemory), 1, "refused file 20"),
    (Refusal::Walk, 1, "refused walk"),
    // Of an opener.
    (Refusal::Open(OpenError::Device), 1, "refused open 3"),
    (
        Refusal::Open(OpenError::ChainNotText { line: 12 }),
        1,
        "refused open 4 line 12",
    ),
    (
        Refusal::Open(OpenError::Layer {
            layer: 10,
            error: FileError::Trailer,
        }),
        1,
        "refused open 5 layer 10 file 15",
    ),
    (
        Refusal::Open(OpenError::Layer {
            layer: usize::MAX,
            error: FileError::Chunks(ChunkError::NoChunks),
        }),
        1,
        "refused open 5 layer 18446744073709551615 file 5 chunk 1",
    ),
    (
        Refusal::Open(OpenError::Graph(GraphError::TooManyCommits(1879048192))),
        1,
        "refused open 6 graph 2",
    ),
    (
        Refusal::Open(OpenError::Graph(GraphError::OutOfMemory)),
        1,
        "refused open 6 graph 4",
    ),
    (Refusal::Open(OpenError::OutOfMemory), 1, "refused open 7"),
    // Of a check.
    (
        Refusal::Verify(VerifyError::TooManyFiles),
        1,
        "refused verify 1",
    ),
    (
        Refusal::Verify(VerifyError::BaseCount { layer: 255 }),
        1,
        "refused verify 2 layer 255",
    ),
    (
        Refusal::Verify(VerifyError::BaseId {
            layer: 12,
            index: usize::MAX,
        }),
        1,
        "refused verify 3 layer 12 index 18446744073709551615",
    ),
    (
        Refusal::Verify(VerifyError::Layer {
            layer: 7,
            fault: LayerFault::FileName,
        }),
        1,
        "refused verify 4 layer 7 fault 2",
    ),
    (
        Refusal::Verify(VerifyError::Layer {
            layer: 255,
            fault: LayerFault::Fan { byte: 17 },
        }),
        1,
        "refused verify 4 layer 255 fault 3 byte 17",
    ),
    (
        Refusal::Verify(VerifyError::Commit {
            pos: Position(8),
            fault: CommitFault::Order,
        }),
        1,
        "refused verify 5 position 8 fault 2",
    ),
    (
        Refusal::Verify(VerifyError::Parent {
            pos: Position(9),
            error: ParentError::EdgeOverflow,
        }),
        1,
        "refused verify 6 position 9 error 4",
    ),
    (
        Refusal::Verify(VerifyError::ParentOutOfRange {
            pos: HIGHEST,
            parent: Position(u32::MAX),
        }),
        1,
        "refused verify 7 position 1879048190 parent 4294967295",
    ),
    (
        Refusal::Verify(VerifyError::Generation {
            pos: HIGHEST,
            expected: 1073741823,
        }),
        1,
        "refused verify 8 position 1879048190 expected 1073741823",
    ),
    (
        Refusal::Verify(VerifyError::OutOfMemory),
        1,
        "refused verify 10",
    ),
    (
        Refusal::Verify(VerifyError::DuplicateId {
            pos: HIGHEST,
            earlier: Position(0),
        }),
        1,
        "refused verify 11 position 1879048190 earlier 0",
    ),
];

/// Commits that were found, with their lines.
const FOUND: &[(Found, &str)] = &[
    (
        Found {
            pos: Position(3),
            generation: 1073741823,
            time: 17179869183,
        },
        "position 3 generation 1073741823 time 17179869183",
    ),
    (
        Found {
            pos: Position(u32::MAX),
            generation: u32::MAX,
            time: u64::MAX,
        },
        "position 4294967295 generation 4294967295 time 18446744073709551615",
    ),
];

/// Asserts that a line is written at once.
fn expect_line<D: Display + Drop>(rt: &impl Abort, alloc: Global, line: D, want: &str) {
    let mut out = Sink::new(alloc, usize::MAX, None);
    let written = write_line(&mut out, line);
    ensure(rt, want, written.is_ok() && out.writes == 1);
    ensure(rt, want, out.text().strip_suffix("\n") == Some(want));
}

#[test]
fn spells_refusals_and_commits_in_one_write(rt: HostRuntime) {
    for (refusal, status, want) in REFUSALS {
        expect_line(&rt, rt.alloc(), refusal, want);
        assert!(rt; refusal.status() == *status);
    }
    for (found, want) in FOUND {
        expect_line(&rt, rt.alloc(), *found, want);
    }
}

/// What a check may find: how many steps the longest walk has and how many commits there are, how
/// many commits have so many parents, and the lines.
type Counted = (Option<u32>, u32, &'static [(u32, u32)], &'static str);

const COUNTED: &[Counted] = &[
    (None, 0, &[], "ok commits 0 longest none\n"),
    (
        Some(4),
        10,
        &[(10, 2), (0, 1), (9, 7)],
        "ok commits 10 longest 4\n\
        parents 0 commits 1\n\
        parents 9 commits 7\n\
        parents 10 commits 2\n",
    ),
    (
        Some(u32::MAX),
        u32::MAX,
        &[(u32::MAX, u32::MAX)],
        "ok commits 4294967295 longest 4294967295\n\
        parents 4294967295 commits 4294967295\n",
    ),
];

/// What a check found, where so many commits have so many parents.
fn outcome(alloc: Global, counted: &Counted) -> Result<Outcome, AllocError> {
    let (longest_path_length, num_commits, rows, _) = counted;
    let mut parent_counts = BTreeMap::new(alloc);
    for (parents, commits) in *rows {
        parent_counts.insert(*parents, *commits)?;
    }
    Ok(Outcome {
        longest_path_length: *longest_path_length,
        num_commits: *num_commits,
        parent_counts,
    })
}

#[test]
fn spells_what_a_check_found_line_by_line(rt: HostRuntime) {
    let alloc = rt.alloc();
    for counted in COUNTED {
        let outcome = outcome(alloc, counted).expect(&rt, "memory for the counts");
        let lines = counted.3;
        let mut whole = Sink::new(alloc, usize::MAX, None);
        assert!(rt; write_outcome(&mut whole, &outcome).is_ok() && whole.text() == lines);
        assert!(rt; whole.writes == lines.lines().count());
        for write in 0..whole.writes {
            let mut out = Sink::new(alloc, usize::MAX, Some(write));
            assert!(rt; write_outcome(&mut out, &outcome) == Err(WriteFailed));
        }
    }
}

#[test]
fn writes_a_longer_line_whole(rt: HostRuntime) {
    let alloc = rt.alloc();
    for len in [0, 126, 127, 128, 129, 1000] {
        let bytes = vec![in alloc; b'x'; len].expect(&rt, "memory for a text");
        let text = str::from_utf8(&bytes).unwrap_or("no text");
        let mut out = Sink::new(alloc, 50, None);
        assert!(rt; write_line(&mut out, text).is_ok());
        assert!(rt; out.text().strip_suffix("\n") == Some(text));
    }
}
