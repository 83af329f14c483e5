//! How little a search reads, and what it finds in a file that changes meanwhile.

use crate::fixtures::{
    Asked, FIVES, FOURS, LONG, ONES, SIXES, THREES, TWOS, answer, built, ensure, expect, put,
};
use crate::watched::{Vast, Watched, watched_graphs};
use graph_vectors::{DIAMOND, END, Row, Sink, file_of_parts, words};
use std::alloc::Global;
use std::process::Abort;

/// How many bytes the first read of a file asks for: a header of 8 bytes, a table of 256 entries of
/// 12, and a fan of 1024.
const HEAD: u64 = 4104;

/// How many bytes an id and a record have.
const ID: u64 = 20;

const RECORD: u64 = 36;

/// A graph and an id, the status and what is written; and how many files are read whole, how many
/// parts are asked for, and how many bytes in all of these.
type Search = (&'static str, &'static str, u8, &'static str, u32, u32, u64);

const SEARCHES: &[Search] = &[
    // The head, the ids of the bucket, and the record of a commit that is found.
    (
        "diamond",
        FOURS,
        0,
        "position 3 generation 3 time 7\n",
        0,
        3,
        HEAD + ID + RECORD,
    ),
    (
        "diamond",
        ONES,
        0,
        "position 0 generation 1 time 7\n",
        0,
        3,
        HEAD + ID + RECORD,
    ),
    ("diamond", FIVES, 1, "none\n", 0, 2, HEAD),
    // In a chain each head, and the bucket of each layer up to the one that has the id.
    (
        "repeated",
        ONES,
        0,
        "position 0 generation 1 time 7\n",
        1,
        5,
        3 * HEAD + ID + RECORD,
    ),
    (
        "repeated",
        THREES,
        0,
        "position 1 generation 2 time 7\n",
        1,
        5,
        3 * HEAD + ID + RECORD,
    ),
    (
        "repeated",
        FOURS,
        0,
        "position 3 generation 2 time 7\n",
        1,
        6,
        3 * HEAD + ID + RECORD,
    ),
    (
        "repeated",
        TWOS,
        0,
        "position 5 generation 4 time 7\n",
        1,
        7,
        3 * HEAD + ID + RECORD,
    ),
    ("repeated", SIXES, 1, "none\n", 1, 6, 3 * HEAD),
    // For an id of another kind of hash only heads.
    ("diamond", LONG, 1, "none\n", 0, 1, HEAD),
    ("repeated", LONG, 1, "none\n", 1, 3, 3 * HEAD),
];

/// Compares what searches answer, and how little they read.
fn compare_searches(rt: &impl Abort, alloc: Global, rows: &[Search]) {
    for (path, id, status, written, whole, parts, bytes) in rows {
        let mut folder = watched_graphs(rt, alloc);
        let asked = Asked::Words(&["find", *path, *id]);
        expect(rt, alloc, &mut folder, asked, (*status, written));
        ensure(
            rt,
            written,
            folder.whole == *whole && folder.parts == *parts,
        );
        ensure(rt, written, folder.bytes == *bytes);
    }
}

#[test]
fn a_search_reads_heads_buckets_and_one_record(rt: HostRuntime) {
    compare_searches(&rt, rt.alloc(), SEARCHES);
}

/// The first bytes of a SHA-1 file of 1,879,048,191 commits, the most that a graph has. Its ids
/// begin at 1080, and 20 bytes each take 37,580,963,820; so do 36 bytes for each record
/// 67,645,734,876. Three ids begin with the byte 0x44, the first of them at position 1,000,000,000.
fn vast_head(rt: &impl Abort, alloc: Global) -> Vec<u8> {
    let mut fan = [1_000_000_000; 256];
    for (byte, number) in fan.iter_mut().enumerate() {
        if byte >= 0x44 {
            *number = if byte == 0x44 {
                1_000_000_003
            } else {
                1_879_048_191
            };
        }
    }
    let fan = words(alloc, &fan).expect(rt, "memory for a fan");
    let entries: [(&[u8; 4], u64); 4] = [
        (b"OIDF", 56),
        (b"OIDL", 1080),
        (b"CDAT", 37_580_964_900),
        (END, 105_226_699_776),
    ];
    let file = file_of_parts(alloc, b"CGPH\x01\x01\x03\x00", &entries, &[&fan]);
    file.expect(rt, "memory for a head")
}

/// The three ids.
const VAST_BUCKET: &[u8; 60] =
    b"\x44\x00\x00\x00\x00\x00\x00\x00\x00\x00\x00\x00\x00\x00\x00\x00\x00\x00\x00\x00\
    \x44\x44\x44\x44\x44\x44\x44\x44\x44\x44\x44\x44\x44\x44\x44\x44\x44\x44\x44\x44\
    \x44\xff\xff\xff\xff\xff\xff\xff\xff\xff\xff\xff\xff\xff\xff\xff\xff\xff\xff\xff";

/// The record of a commit: its tree, no parents, the generation number 3 and the time 7.
const VAST_RECORD: &[u8; 36] =
    b"\x99\x99\x99\x99\x99\x99\x99\x99\x99\x99\x99\x99\x99\x99\x99\x99\x99\x99\x99\x99\
    \x70\x00\x00\x00\x70\x00\x00\x00\x00\x00\x00\x0c\x00\x00\x00\x07";

/// The bucket begins at 1080 + 20 * 1,000,000,000, the record at
/// 37,580,964,900 + 36 * 1,000,000,001, and the file ends 20 bytes after its records.
#[test]
fn a_search_reads_as_little_of_the_largest_file(rt: HostRuntime) {
    let alloc = rt.alloc();
    let head = vast_head(&rt, alloc);
    let fronts: [(u64, &[u8]); 3] = [
        (0, &head),
        (20_000_001_080, VAST_BUCKET),
        (73_580_964_936, VAST_RECORD),
    ];
    let mut folder = Vast::new(105_226_699_796, &fronts);
    let want = (0, "position 1000000001 generation 3 time 7\n");
    let asked = Asked::Words(&["find", "g", FOURS]);
    expect(&rt, alloc, &mut folder, asked, want);
    assert!(rt; folder.parts == 3 && folder.bytes == HEAD + 3 * ID + RECORD);
}

/// The diamond with one more commit, between its last two.
const FIVE: &[Row<'static>] = &[
    (0x11, &[], 1),
    (0x22, &[0], 2),
    (0x33, &[0], 2),
    (0x43, &[0], 5),
    (0x44, &[1, 3], 9),
];

/// The id of that commit.
const FOUR_THREES: &str = "4343434343434343434343434343434343434343";

const NONE: (u8, &str) = (1, "none\n");

const ADDED: (u8, &str) = (0, "position 3 generation 5 time 7\n");

const LAST_OF_FOUR: (u8, &str) = (0, "position 3 generation 3 time 7\n");

const LAST_OF_FIVE: (u8, &str) = (0, "position 4 generation 9 time 7\n");

/// The commits of a file and of the one that takes its place, an id, and what a search answers that
/// finds the old file at none of its reads, at the first, at the first two, and at all three.
type Change = (
    &'static [Row<'static>],
    &'static [Row<'static>],
    &'static str,
    &'static [(u8, &'static str)],
);

const CHANGES: &[Change] = &[
    (
        DIAMOND,
        FIVE,
        FOURS,
        &[LAST_OF_FIVE, LAST_OF_FIVE, LAST_OF_FIVE, LAST_OF_FOUR],
    ),
    (DIAMOND, FIVE, FOUR_THREES, &[ADDED, ADDED, NONE, NONE]),
    (
        FIVE,
        DIAMOND,
        FOURS,
        &[LAST_OF_FOUR, LAST_OF_FOUR, LAST_OF_FOUR, LAST_OF_FIVE],
    ),
    (FIVE, DIAMOND, FOUR_THREES, &[NONE, NONE, NONE, ADDED]),
];

/// The folder of the graphs with a file `g`, in whose place another one comes after so many reads.
fn changing(
    rt: &impl Abort,
    alloc: Global,
    (old, new): (&[Row<'_>], &[Row<'_>]),
    reads: u32,
) -> Watched {
    let mut folder = watched_graphs(rt, alloc);
    let (old, new) = (built(rt, alloc, &[], old), built(rt, alloc, &[], new));
    put(rt, alloc, &mut folder.memory, "g", old);
    put(rt, alloc, &mut folder.later, "g", new);
    folder.reads_before = reads;
    folder
}

/// Asserts what searches answer where another file takes the place of the old one after each number
/// of reads.
fn compare_changes(rt: &impl Abort, alloc: Global, rows: &[Change]) {
    for (old, new, id, answers) in rows {
        let mut reads = 0;
        for want in *answers {
            let mut folder = changing(rt, alloc, (old, new), reads);
            let asked = Asked::Words(&["find", "g", *id]);
            expect(rt, alloc, &mut folder, asked, *want);
            reads = reads.saturating_add(1);
        }
    }
}

#[test]
fn a_file_that_changes_its_length_is_read_anew(rt: HostRuntime) {
    compare_changes(&rt, rt.alloc(), CHANGES);
}

/// A merge of three, and the same commits where each parent of the merge is 0x22, so that there are
/// as many words; and these with one commit more.
const MERGE: &[Row<'static>] = &[
    (0x11, &[], 1),
    (0x22, &[0], 2),
    (0x33, &[0], 2),
    (0x44, &[1, 2, 0], 3),
];

const OTHER: &[Row<'static>] = &[
    (0x11, &[], 1),
    (0x22, &[0], 2),
    (0x33, &[0], 2),
    (0x44, &[1, 1, 1], 3),
];

const MORE: &[Row<'static>] = &[
    (0x11, &[], 1),
    (0x22, &[0], 2),
    (0x33, &[0], 2),
    (0x44, &[1, 1, 1], 3),
    (0x66, &[], 1),
];

/// A question about a graph that is trusted, and what is told where it is the merge of three, and
/// where that was exchanged.
type Question = (Asked<'static>, &'static str, &'static str);

const QUESTIONS: &[Question] = &[
    (Asked::IsAncestor("g", THREES, FOURS), "yes\n", "no\n"),
    (
        Asked::Walk("g", FOURS, THREES),
        "4444444444444444444444444444444444444444\n\
        3333333333333333333333333333333333333333\n",
        "none\n",
    ),
    (
        Asked::MergeBaseIds("g", FOURS, THREES),
        "3333333333333333333333333333333333333333\n",
        "1111111111111111111111111111111111111111\n",
    ),
];

/// Whether a question is answered of the first file, where another one takes its place after so
/// many reads. Otherwise it is answered of that one.
fn is_of_the_first(
    rt: &impl Abort,
    alloc: Global,
    new: &[Row<'_>],
    (asked, first, second): Question,
    reads: u32,
) -> bool {
    let mut folder = changing(rt, alloc, (MERGE, new), reads);
    let mut out = Sink::new(alloc, usize::MAX, None);
    let answered = answer(rt, alloc, &mut folder, asked, &mut out);
    let is_first = out.text() == first;
    ensure(
        rt,
        first,
        answered.is_ok() && (is_first || out.text() == second),
    );
    is_first
}

/// Asserts that some answers are of the first file and some of the other one, and none of a
/// mixture.
fn compare_exchanged(rt: &impl Abort, alloc: Global, new: &[Row<'_>], rows: &[Question]) {
    for row in rows {
        let mut firsts = 0u32;
        for reads in 0..12 {
            firsts = firsts.saturating_add(u32::from(is_of_the_first(rt, alloc, new, *row, reads)));
        }
        ensure(rt, row.1, firsts > 0 && firsts < 12);
    }
}

#[test]
fn a_trusted_file_that_is_exchanged_is_not_mixed_with_the_other(rt: HostRuntime) {
    compare_exchanged(&rt, rt.alloc(), OTHER, QUESTIONS);
    compare_exchanged(&rt, rt.alloc(), MORE, QUESTIONS);
}
