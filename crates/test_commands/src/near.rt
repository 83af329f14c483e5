//! How little is read of near commits, by parts.

ghost use Rattle.graph_parts.specs.Shown.{AreGraphParts};

use crate::watched::Vast;
use gix_commitgraph::Position;
use graph_parts::opening::open_file_parts;
use graph_parts::parts::GraphParts;
use graph_vectors::{END, file_of_parts, words};
use std::alloc::Global;
use std::process::Abort;

/// How many bytes the first read of a file asks for: a header of 8 bytes, a table of 256 entries of
/// 12, and a fan of 1024.
const HEAD: u64 = 4104;

/// How many records a block has, and how many bytes a record.
const BLOCK: u64 = 128;

const RECORD: u64 = 36;

/// How many blocks of so many records 1,000,000 commits have, but for the last one.
const BLOCKS: u32 = 7_812;

/// How many bytes the file of 1,000,000 commits has.
const MILLION: u64 = 56_001_100;

/// The first bytes of a SHA-1 file of 1,000,000 commits. Its ids begin at 1080, and 20 bytes each
/// take 20,000,000; so do 36 bytes for each record 36,000,000. The file ends 20 bytes later.
fn million_head(rt: &impl Abort, alloc: Global) -> Vec<u8> {
    let fan = words(alloc, &[1_000_000; 256]).expect(rt, "memory for a fan");
    let entries: [(&[u8; 4], u64); 4] = [
        (b"OIDF", 56),
        (b"OIDL", 1080),
        (b"CDAT", 20_001_080),
        (END, 56_001_080),
    ];
    let file = file_of_parts(alloc, b"CGPH\x01\x01\x03\x00", &entries, &[&fan]);
    file.expect(rt, "memory for a head")
}

/// So many commits, from the first position on each so many after the one before.
type Steps = (u32, u32, u32);

/// The parts of a file. The contract of the opener is long, and here it ends: what is left is that
/// they are those of a graph.
fn opened(rt: &impl Abort, alloc: Global, folder: &mut Vast<'_>) -> GraphParts
    ensures { AreGraphParts result }
{
    let parts = open_file_parts(alloc, folder, "g").expect(rt, "memory");
    parts.expect(rt, "a graph")
}

/// Reads the commit at a position, whose numbers are 0.
fn read_one(
    rt: &impl Abort,
    alloc: Global,
    folder: &mut Vast<'_>,
    parts: &mut GraphParts,
    pos: Position,
)
    requires { AreGraphParts parts.old }
    ensures { AreGraphParts parts.new }
{
    assert!(rt; pos.0 < parts.commits());
    let read = parts.commit_at(alloc, folder, pos).expect(rt, "memory");
    let commit = read.expect(rt, "a commit");
    assert!(rt; commit.generation == 0 && commit.time == 0);
}

/// Reads some commits.
fn read_some(
    rt: &impl Abort,
    alloc: Global,
    folder: &mut Vast<'_>,
    parts: &mut GraphParts,
    steps: Steps,
)
    requires { AreGraphParts parts.old }
    ensures { AreGraphParts parts.new }
{
    let (first, count, step) = steps;
    for number in 0..count {
        let pos = number.saturating_mul(step).saturating_add(first);
        read_one(rt, alloc, folder, parts, Position(pos));
    }
}

/// Commits that are read, and how many parts and bytes the folder was asked for up to then.
type Asked = (Steps, u32, u64);

/// Compares what a folder with a file of 1,000,000 commits is asked for where these are read.
fn compare_asked(rt: &impl Abort, alloc: Global, rows: &[Asked]) {
    let head = million_head(rt, alloc);
    let fronts: [(u64, &[u8]); 1] = [(0, &head)];
    let mut folder = Vast::new(MILLION, &fronts);
    let mut parts = opened(rt, alloc, &mut folder);
    for (steps, asked, bytes) in rows {
        read_some(rt, alloc, &mut folder, &mut parts, *steps);
        assert!(rt; folder.parts == *asked && folder.bytes == *bytes);
    }
}

const FEW: &[Asked] = &[
    ((0, 0, 0), 1, HEAD),
    ((0, 300, 3331), 301, HEAD + 300 * RECORD),
    // Each record is kept.
    ((0, 300, 3331), 301, HEAD + 300 * RECORD),
];

/// How many bytes are asked for where the first record of each block is read alone, and where 300
/// blocks are then read.
const ALONE: u64 = HEAD + BLOCKS as u64 * RECORD;

const IN_BLOCKS: u64 = ALONE + 300 * BLOCK * RECORD;

const MANY: &[Asked] = &[
    ((0, BLOCKS, 128), 1 + BLOCKS, ALONE),
    // The next records read their blocks.
    ((1, 300, 128), 301 + BLOCKS, IN_BLOCKS),
    // All of a block is kept.
    ((2, 300, 128), 301 + BLOCKS, IN_BLOCKS),
    ((127, 300, 128), 301 + BLOCKS, IN_BLOCKS),
];

#[test]
fn near_commits_read_blocks_of_records_and_keep_them(rt: HostRuntime) {
    compare_asked(&rt, rt.alloc(), FEW);
    compare_asked(&rt, rt.alloc(), MANY);
}
