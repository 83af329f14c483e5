//! The texts of errors, of faults and of values.

use crate::fixtures::{file, layer, opened};
use commit_objects::Unreadable;
use gix_chunk_core::ChunkError;
use gix_commitgraph::file::commit::ParentError;
use gix_commitgraph::file::verify::{ChecksumMismatch, TraverseError};
use gix_commitgraph::opening::OpenError;
use gix_commitgraph::verify::{CommitFault, LayerFault, VerifyError};
use gix_commitgraph::{FileError, GraphError, Position, file as layers};
use gix_hash_core::{IdError, Kind};
use graph_folder::folder::ReadError;
use graph_vectors::Row;
use std::alloc::Global;
use std::fmt::{Debug, Display};
use std::process::Abort;

/// Compares a text with the one that is wanted. Where they differ, the process aborts.
fn compare_text(rt: &impl Abort, text: &str, want: &str) {
    assert!(rt; text == want);
}

/// Compares the text of each value with the one beside it. Where two differ, the process aborts.
pub fn compare_texts<T: Display>(rt: &impl Abort, alloc: Global, rows: &[(T, &str)]) {
    for (value, want) in rows {
        let text = value.to_string(alloc).expect(rt, "memory");
        compare_text(rt, text.as_str(), want);
    }
}

/// Compares the debug text of each value with the one beside it. Where two differ, the process
/// aborts.
fn compare_debug<T: Debug>(rt: &impl Abort, alloc: Global, rows: &[(T, &str)]) {
    for (value, want) in rows {
        let text = format!(in alloc; "{value:?}").expect(rt, "memory");
        compare_text(rt, text.as_str(), want);
    }
}

const FILE_ERRORS: &[(FileError, &str)] = &[
    (FileError::TooSmall, "TooSmall"),
    (FileError::Signature, "Signature"),
    (FileError::Version(2), "Version"),
    (FileError::Hash(3), "Hash"),
    (FileError::Chunks(ChunkError::NoChunks), "Chunks"),
    (FileError::BaseSize, "BaseSize"),
    (FileError::BaseCount, "BaseCount"),
    (FileError::NoCommitData, "NoCommitData"),
    (FileError::CommitDataSize, "CommitDataSize"),
    (FileError::NoFan, "NoFan"),
    (FileError::FanSize, "FanSize"),
    (FileError::NoIds, "NoIds"),
    (FileError::IdsSize, "IdsSize"),
    (FileError::TooManyEdges, "TooManyEdges"),
    (FileError::Trailer, "Trailer"),
    (FileError::BaseMissing, "BaseMissing"),
    (FileError::FanFalls { at: 5 }, "FanFalls"),
    (FileError::IdCount, "IdCount"),
    (FileError::RecordCount, "RecordCount"),
    (FileError::OutOfMemory, "OutOfMemory"),
];

const CHUNK_ERRORS: &[(ChunkError, &str)] = &[
    (ChunkError::NoChunks, "NoChunks"),
    (ChunkError::TableTooSmall, "TableTooSmall"),
    (ChunkError::EarlyEnd { entry: 2 }, "EarlyEnd"),
    (ChunkError::Duplicate { id: *b"ABCD" }, "Duplicate"),
    (ChunkError::OutOfFile { entry: 2 }, "OutOfFile"),
    (ChunkError::Falling { entry: 2 }, "Falling"),
    (ChunkError::NoEnd { id: *b"ABCD" }, "NoEnd"),
];

const PARENT_ERRORS: &[(ParentError, &str)] = &[
    (ParentError::SecondWithoutFirst, "SecondWithoutFirst"),
    (ParentError::FirstIsEdgeIndex, "FirstIsEdgeIndex"),
    (ParentError::NoEdgeList, "NoEdgeList"),
    (ParentError::EdgeOverflow, "EdgeOverflow"),
];

const ID_ERRORS: &[(IdError, &str)] = &[(IdError::Length, "Length"), (IdError::Digit, "Digit")];

const READ_ERRORS: &[(ReadError, &str)] = &[
    (ReadError::NotOpened, "NotOpened"),
    (ReadError::Device, "Device"),
    (ReadError::OutOfMemory, "OutOfMemory"),
];

const GRAPH_ERRORS: &[(GraphError, &str)] = &[
    (GraphError::NoFiles, "NoFiles"),
    (GraphError::TooManyCommits(2), "TooManyCommits"),
    (GraphError::HashMismatch { layer: 1 }, "HashMismatch"),
    (GraphError::OutOfMemory, "OutOfMemory"),
];

const OPEN_ERRORS: &[(OpenError, &str)] = &[
    (OpenError::NothingFound, "NothingFound"),
    (OpenError::NotOpened, "NotOpened"),
    (OpenError::Device, "Device"),
    (OpenError::ChainNotText { line: 1 }, "ChainNotText"),
    (
        OpenError::Layer {
            layer: 1,
            error: FileError::TooSmall,
        },
        "Layer",
    ),
    (OpenError::Graph(GraphError::NoFiles), "Graph"),
    (OpenError::OutOfMemory, "OutOfMemory"),
];

const LAYER_FAULTS: &[(LayerFault, &str)] = &[
    (LayerFault::Checksum, "Checksum"),
    (LayerFault::FileName, "FileName"),
    (LayerFault::Fan { byte: 17 }, "Fan"),
];

const COMMIT_FAULTS: &[(CommitFault, &str)] = &[
    (CommitFault::NullId, "NullId"),
    (CommitFault::Order, "Order"),
    (CommitFault::NullTree, "NullTree"),
];

const IN_LAYER: layers::Position = layers::Position(1);

const TRAVERSE_ERRORS: &[(TraverseError<&str>, &str)] = &[
    (TraverseError::Checksum, "Checksum"),
    (TraverseError::FileName, "FileName"),
    (TraverseError::Fan { byte: 17 }, "Fan"),
    (TraverseError::NullId { pos: IN_LAYER }, "NullId"),
    (TraverseError::Order { pos: IN_LAYER }, "Order"),
    (TraverseError::NullTree { pos: IN_LAYER }, "NullTree"),
    (
        TraverseError::Processor {
            pos: IN_LAYER,
            error: "no",
        },
        "Processor",
    ),
    (
        TraverseError::Parent {
            pos: IN_LAYER,
            error: ParentError::NoEdgeList,
        },
        "Parent",
    ),
    (TraverseError::OutOfMemory, "OutOfMemory"),
];

const POS: Position = Position(1);

const VERIFY_ERRORS: &[(VerifyError<&str>, &str)] = &[
    (VerifyError::TooManyFiles, "TooManyFiles"),
    (VerifyError::BaseCount { layer: 1 }, "BaseCount"),
    (VerifyError::BaseId { layer: 1, index: 0 }, "BaseId"),
    (
        VerifyError::Layer {
            layer: 1,
            fault: LayerFault::Checksum,
        },
        "Layer",
    ),
    (
        VerifyError::Commit {
            pos: POS,
            fault: CommitFault::Order,
        },
        "Commit",
    ),
    (
        VerifyError::Parent {
            pos: POS,
            error: ParentError::NoEdgeList,
        },
        "Parent",
    ),
    (
        VerifyError::ParentOutOfRange {
            pos: POS,
            parent: POS,
        },
        "ParentOutOfRange",
    ),
    (
        VerifyError::Generation {
            pos: POS,
            expected: 2,
        },
        "Generation",
    ),
    (
        VerifyError::Processor {
            pos: POS,
            error: "no",
        },
        "Processor",
    ),
    (VerifyError::OutOfMemory, "OutOfMemory"),
    (
        VerifyError::DuplicateId {
            pos: POS,
            earlier: POS,
        },
        "DuplicateId",
    ),
];

/// The errors of bytes and of reads.
fn compare_errors_of_bytes(rt: &impl Abort, alloc: Global) {
    compare_texts(rt, alloc, FILE_ERRORS);
    compare_texts(rt, alloc, CHUNK_ERRORS);
    compare_texts(rt, alloc, PARENT_ERRORS);
    compare_texts(rt, alloc, ID_ERRORS);
    compare_texts(rt, alloc, READ_ERRORS);
    compare_texts(rt, alloc, &[(Unreadable, "Unreadable")]);
}

/// The errors of openers, and what checks find.
fn compare_errors_of_graphs(rt: &impl Abort, alloc: Global) {
    compare_texts(rt, alloc, GRAPH_ERRORS);
    compare_texts(rt, alloc, OPEN_ERRORS);
    compare_texts(rt, alloc, LAYER_FAULTS);
    compare_texts(rt, alloc, COMMIT_FAULTS);
    compare_texts(rt, alloc, TRAVERSE_ERRORS);
    compare_texts(rt, alloc, VERIFY_ERRORS);
    compare_texts(rt, alloc, &[(ChecksumMismatch, "ChecksumMismatch")]);
}

const NULL_ID: &str = "Sha1(0000000000000000000000000000000000000000)";

const EARLY_END: &[(ChunkError, &str)] = &[(
    ChunkError::EarlyEnd { entry: 2 },
    "EarlyEnd { entry: 2 }",
)];

/// A commit without parents, and one with three.
const ROOT: &[Row<'static>] = &[(0x11, &[], 1)];

const MERGE: &[Row<'static>] = &[(0x11, &[5, 3, 2], 1)];

const OF_ROOT: &str = "Commit { id: 1111111111111111111111111111111111111111, lex_pos: 0, \
    generation: 1, root_tree_id: 9999999999999999999999999999999999999999, parent1: None, \
    parent2: None }";

const OF_MERGE: &str = "Commit { id: 1111111111111111111111111111111111111111, lex_pos: 0, \
    generation: 1, root_tree_id: 9999999999999999999999999999999999999999, \
    parent1: GraphPosition(Position(5)), parent2: ExtraEdgeIndex(0) }";

/// The debug text of the only commit of a layer.
fn compare_commit(rt: &impl Abort, alloc: Global, rows: &[Row<'_>], want: &str) {
    let layer = file(rt, alloc, &[], rows);
    assert!(rt; layer.num_commits() == 1);
    compare_debug(rt, alloc, &[(layer.commit_at(layers::Position(0)), want)]);
}

/// Debug texts.
fn compare_debug_texts(rt: &impl Abort, alloc: Global) {
    compare_debug(rt, alloc, &[(Kind::Sha1.null(), NULL_ID)]);
    compare_debug(rt, alloc, &[(Kind::Sha1.null().as_oid(), NULL_ID)]);
    compare_debug(rt, alloc, &[(Position(42), "Position(42)")]);
    compare_debug(rt, alloc, EARLY_END);
    compare_debug(rt, alloc, PARENT_ERRORS);
    compare_debug(rt, alloc, ID_ERRORS);
    compare_debug(rt, alloc, READ_ERRORS);
    compare_commit(rt, alloc, ROOT, OF_ROOT);
    compare_commit(rt, alloc, MERGE, OF_MERGE);
    let quoted = opened(rt, alloc, layer(rt, alloc, ROOT), "a \"graph\"");
    compare_debug(rt, alloc, &[(&quoted, r#"File(""a \"graph\""")"#)]);
}

#[test]
fn errors_and_values_have_their_texts(rt: HostRuntime) {
    compare_errors_of_bytes(&rt, rt.alloc());
    compare_errors_of_graphs(&rt, rt.alloc());
    compare_texts(&rt, rt.alloc(), &[(Position(42), "42")]);
    compare_texts(&rt, rt.alloc(), &[(layers::Position(7), "7")]);
    compare_debug_texts(&rt, rt.alloc());
}
