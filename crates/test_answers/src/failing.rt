//! Reads of the input and writes of the output that fail, and a listing that is longer than what is
//! written at once.

use crate::asking::{Asked, FIVES, FOURS, ONES, Told, ZS, answer};
use crate::folders::{built, with_chain, with_commits};
use graph_commands::run::{WriteFailed, run_list};
use graph_folder::folder::Memory;
use graph_vectors::{DIAMOND, Row, Sink, Source};
use std::alloc::Global;
use std::process::Abort;

/// One commit, without parents.
const ONE: &[Row<'static>] = &[(0x11, &[], 1)];

/// Its listing.
const OF_ONE: &str = "layer sha1 bases 0 commits 1\n\
    0 1111111111111111111111111111111111111111 9999999999999999999999999999999999999999 1 7 -\n";

/// What the listing answers of a reader, and what it writes.
fn list(alloc: Global, input: &mut Source<'_>, out: &mut Sink) -> Result<u8, WriteFailed> {
    run_list(alloc, input, out)
}

/// Asserts what is listed of bytes that are given at most so many a read, where the read of this
/// number fails. The number of reads is answered.
fn compare_list(
    rt: &impl Abort,
    alloc: Global,
    (bytes, most): (&[u8], usize),
    fails_at: Option<usize>,
    (status, want): Told<'_>,
) -> usize {
    let mut input = Source::new(bytes, most, fails_at);
    let mut out = Sink::new(alloc, usize::MAX, None);
    let answered = list(alloc, &mut input, &mut out);
    assert!(rt; answered == Ok(status) && out.text() == want);
    input.reads
}

/// Asserts that each read that fails is told, where so many are made and each gives so many bytes
/// at most.
fn compare_reads(rt: &impl Abort, alloc: Global, most: usize, reads: usize) {
    let bytes = built(rt, alloc, &[], ONE);
    let made = compare_list(rt, alloc, (&bytes, most), None, (0, OF_ONE));
    assert!(rt; made == reads);
    for read in 0..reads {
        let told = (1, "refused read 2\n");
        let made = compare_list(rt, alloc, (&bytes, most), Some(read), told);
        assert!(rt; made == read.saturating_add(1));
    }
}

/// The file has 1156 bytes, and the last read gives none.
#[test]
fn each_read_of_the_input_may_fail(rt: HostRuntime) {
    compare_reads(&rt, rt.alloc(), 100, 13);
    compare_reads(&rt, rt.alloc(), 17, 69);
}

/// What is asked of a folder with the diamond at the path `g`, and what is told.
const IN_THE_DIAMOND: &[(Asked<'static>, Told<'static>)] = &[
    (Asked::List(b""), (1, "refused file 1\n")),
    (
        Asked::Verify("g"),
        (
            0,
            "ok commits 4 longest 2\n\
            parents 0 commits 1\n\
            parents 1 commits 2\n\
            parents 2 commits 1\n",
        ),
    ),
    (Asked::Verify("nothing"), (1, "refused open 1\n")),
    (
        Asked::Distinct("g"),
        (
            0,
            "ok commits 4 longest 2\n\
            parents 0 commits 1\n\
            parents 1 commits 2\n\
            parents 2 commits 1\n",
        ),
    ),
    (Asked::Distinct("nothing"), (1, "refused open 1\n")),
    (
        Asked::Find("g", FOURS),
        (0, "position 3 generation 3 time 7\n"),
    ),
    (Asked::Find("g", FIVES), (1, "none\n")),
    (Asked::Find("g", ZS), (2, "refused id 2\n")),
    (Asked::Ancestor("g", ONES, FOURS), (1, "none\nvisits 0\n")),
    (Asked::Ancestor("g", FIVES, ONES), (1, "unknown 1\n")),
    (Asked::Ancestor("g", ONES, FIVES), (1, "unknown 2\n")),
    (Asked::Ancestor("g", ONES, ZS), (2, "refused id 2\n")),
];

/// What is written where no write fails and each takes at most so many bytes, and how many writes
/// that takes.
fn written(
    rt: &impl Abort,
    alloc: Global,
    folder: &mut Memory,
    asked: Asked<'_>,
    (status, most): (u8, usize),
) -> Sink {
    let mut out = Sink::new(alloc, most, None);
    let answered = answer(alloc, folder, asked, &mut out);
    assert!(rt; answered == Ok(status) && out.writes > 0);
    out
}

/// Asserts that each write that fails is answered, and that what was written before is the front of
/// the whole text. The whole text is answered.
fn compare_writes(
    rt: &impl Abort,
    alloc: Global,
    folder: &mut Memory,
    asked: Asked<'_>,
    (status, most): (u8, usize),
) -> Sink {
    let whole = written(rt, alloc, folder, asked, (status, most));
    for write in 0..whole.writes {
        let mut out = Sink::new(alloc, most, Some(write));
        let answered = answer(alloc, folder, asked, &mut out);
        assert!(rt; answered == Err(WriteFailed));
        assert!(rt; whole.bytes.starts_with(&out.bytes));
    }
    let mut out = Sink::new(alloc, most, Some(whole.writes));
    let answered = answer(alloc, folder, asked, &mut out);
    assert!(rt; answered == Ok(status));
    whole
}

/// Compares the writes of some commands, with short writes and with whole ones.
fn compare_all_writes(rt: &impl Abort, alloc: Global, rows: &[(Asked<'_>, Told<'_>)]) {
    let mut folder = with_commits(rt, alloc, DIAMOND);
    for (asked, (status, want)) in rows {
        let long = compare_writes(rt, alloc, &mut folder, *asked, (*status, usize::MAX));
        assert!(rt; long.text() == *want);
        let short = compare_writes(rt, alloc, &mut folder, *asked, (*status, 1));
        assert!(rt; short.text() == *want && short.writes == want.len());
    }
}

/// The same of a listing, and of a walk and a refusal of a chain.
fn compare_other_writes(rt: &impl Abort, alloc: Global) {
    let bytes = built(rt, alloc, &[], ONE);
    let mut chain = with_chain(
        rt,
        alloc,
        &[&[(0x11, &[], 1)], &[(0x11, &[0], 2), (0x44, &[1], 3)]],
    );
    let listed = compare_writes(rt, alloc, &mut chain, Asked::List(&bytes), (0, 1));
    assert!(rt; listed.text() == OF_ONE);
    let twice = compare_writes(rt, alloc, &mut chain, Asked::Distinct("g"), (1, 1));
    assert!(rt; twice.text() == "refused verify 11 position 1 earlier 0\n");
    let query = Asked::Ancestor("g", FOURS, FOURS);
    let walk = compare_writes(rt, alloc, &mut chain, query, (0, 1));
    assert!(rt; walk.text().starts_with("walk 2\nvisits "));
}

#[test]
fn each_write_of_an_answer_may_fail(rt: HostRuntime) {
    compare_all_writes(&rt, rt.alloc(), IN_THE_DIAMOND);
    compare_other_writes(&rt, rt.alloc());
}

/// The only commit of the listing has 40002 parents, all of them position 0. Its line begins with
/// 88 bytes, and 80003 bytes name the parents.
#[test]
fn a_listing_longer_than_a_buffer_is_written_in_parts(rt: HostRuntime) {
    let alloc = rt.alloc();
    let parents = vec![in alloc; 0; 40_002].expect(&rt, "memory");
    let bytes = built(&rt, alloc, &[], &[(0x11, &parents, 1)]);
    let mut folder = Memory::new(alloc);
    let asked = Asked::List(&bytes);
    let listed = compare_writes(&rt, alloc, &mut folder, asked, (0, usize::MAX));
    assert!(rt; listed.writes > 1 && listed.bytes.len() == 29 + 88 + 80_003 + 1);
    assert!(rt;
        listed
            .bytes
            .starts_with(b"layer sha1 bases 0 commits 1\n0 1111")
    );
    assert!(rt; listed.bytes.ends_with(b",0,0\n"));
}
