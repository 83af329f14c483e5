//! Questions, one a line: writers that are flushed, and reads of a folder that fail.

ghost use Rattle.std.specs.Prelude.{◌==◌, if◌then◌else◌, string_bytes};
ghost use Rattle.std.specs.FinMap as map;
ghost use Rattle.std.specs.Option.{option_map, option_map_or};
ghost use Rattle.graph_folder.specs.Tree.{RegularFile};

use crate::fixtures::{file_of_two, graphs, owned};
use graph_commands::line::WriteFailed;
use graph_folder::folder::Memory;
use graph_vectors::Sink;
use question_commands::asking::run_ask;
use question_commands::others::{Nobody, Others};
use std::alloc::Global;
use std::io;
use std::io::{ErrorKind, Write};
use std::process::Abort;
use unchecked_questions::trusting::run_ask_unchecked;

/// A writer that remembers where it was flushed.
#[derive(Drop)]
struct Flushed {
    bytes: Vec<u8>,
    /// How many bytes it had at each flush.
    flushes: Vec<usize>,
    fails_at: Option<usize>,
}

impl Flushed {
    /// An empty writer, of which a flush may fail. Their numbers count from 0.
    fn failing(alloc: Global, fails_at: Option<usize>) -> Flushed {
        Flushed {
            bytes: Vec::new(alloc),
            flushes: Vec::new(alloc),
            fails_at,
        }
    }
}

impl Write for Flushed {
    fn write(&mut self, buf: &[u8]) -> io::Result<usize> {
        self.bytes.extend_from_slice(buf)?;
        Ok(buf.len())
    }

    fn flush(&mut self) -> io::Result<()> {
        if self.fails_at == Some(self.flushes.len()) {
            return Err(io::Error::from(ErrorKind::Other));
        }
        self.flushes.push(self.bytes.len())?;
        Ok(())
    }
}

/// What comes of questions about a graph that is checked. The contract of the command is long, and
/// here it ends: the proof of a test does not go over it once more.
fn ask(
    alloc: Global,
    folder: &mut Memory,
    questions: &str,
    out: &mut Flushed,
) -> Result<u8, WriteFailed> {
    let mut input = questions.as_bytes();
    Ok(run_ask(alloc, &mut input, folder, &mut Nobody, "diamond", out)?.status)
}

/// Asserts that each answer is flushed with the empty line after it, and where that fails, that it
/// is reported, and nothing is written after it.
fn compare_flushes(rt: &impl Abort, alloc: Global, questions: &str, flushes: usize) {
    let mut folder = graphs(rt, alloc);
    let mut whole = Flushed::failing(alloc, None);
    assert!(rt; ask(alloc, &mut folder, questions, &mut whole) == Ok(0));
    assert!(rt; whole.flushes.len() == flushes);
    let mut flush = 0;
    for flushed in &whole.flushes {
        let told = whole.bytes.get(..*flushed).expect(rt, "so many bytes");
        assert!(rt; told.ends_with(b"\n\n"));
        let mut out = Flushed::failing(alloc, Some(flush));
        assert!(rt; ask(alloc, &mut folder, questions, &mut out) == Err(WriteFailed));
        assert!(rt; out.bytes.as_slice() == told);
        flush = flush.saturating_add(1);
    }
}

/// Each of the five lines has an answer, and before them comes the line of the graph.
#[test]
fn each_answer_is_flushed(rt: HostRuntime) {
    let questions = "find 1111111111111111111111111111111111111111\n\nwalk\nreload\n\
        parents 1111111111111111111111111111111111111111";
    compare_flushes(&rt, rt.alloc(), questions, 6);
}

/// Somebody who writes a file in the first turn. Where an allocation fails, the process aborts.
#[derive(Drop)]
struct Writer<'a, R: Abort> {
    rt: &'a R,
    file: Option<(String, Vec<u8>)>,
}

impl<R: Abort> Others<Memory> for Writer<'_, R> {
    ghost makes = { λ writer turn tree. if turn == 0 then option_map_or (λ file.
        option_map (λ t. map.insert t (string_bytes file.0) (RegularFile file.1.items)) tree)
        writer.file tree else tree };

    fn act(&mut self, folder: &mut Memory) {
        if let Some((path, bytes)) = self.file.take() {
            folder.put_file(path, bytes).expect(self.rt, "memory");
        }
    }
}

/// What comes of a `reload` after which somebody has written a file of two commits.
fn ask_beside(rt: &impl Abort, alloc: Global, out: &mut Sink) -> Result<u8, WriteFailed> {
    let mut folder = graphs(rt, alloc);
    let file = Some((owned(rt, alloc, "diamond"), file_of_two(rt, alloc)));
    let mut writer = Writer { rt, file };
    let mut input = "reload\nreload\n".as_bytes();
    let asked = run_ask(alloc, &mut input, &mut folder, &mut writer, "diamond", out)?;
    Ok(asked.status)
}

#[test]
fn what_others_write_is_reloaded(rt: HostRuntime) {
    let mut out = Sink::new(rt.alloc(), usize::MAX, None);
    assert!(&rt; ask_beside(&rt, rt.alloc(), &mut out) == Ok(0));
    assert!(&rt; out.text() == "ok commits 4\n\nok commits 2\n\nok commits 2\n\n");
}

const ASKED: &str = "parents 2222222222222222222222222222222222222222\n\
    is-ancestor 1111111111111111111111111111111111111111 \
    cccccccccccccccccccccccccccccccccccccccc\n\
    reload\n\
    find 2222222222222222222222222222222222222222\n";

const TOLD: &str = "ok commits 5\n\n\
    parents 1111111111111111111111111111111111111111\n\n\
    yes\n\n\
    ok commits 5\n\n\
    position 1 generation 2 time 7\n\n";

/// What comes of these questions about a graph that is trusted.
fn ask_unchecked(alloc: Global, folder: &mut Memory, out: &mut Sink) -> Result<u8, WriteFailed> {
    run_ask_unchecked(alloc, &mut ASKED.as_bytes(), folder, "merging", out)
}

/// Whether one answer says that a read failed where this one fails; the others are those of the
/// graph.
fn is_failure_told(rt: &impl Abort, alloc: Global, read: u32) -> bool {
    let mut folder = graphs(rt, alloc);
    folder.fail_read(read);
    let mut out = Sink::new(alloc, usize::MAX, None);
    let answer = ask_unchecked(alloc, &mut folder, &mut out);
    let failed = out.text().matches("refused open 3\n").count();
    let nothing = out.text() == "refused open 3\n";
    assert!(rt; answer == Ok(u8::from(nothing)));
    assert!(rt; failed <= 1);
    for told in out.text().split("\n\n") {
        assert!(rt; failed > 0 && told.starts_with("refused open 3") || TOLD.contains(told));
    }
    failed > 0
}

/// How many of the first forty reads are told where they fail.
fn failures_told(rt: &impl Abort, alloc: Global) -> u32 {
    let mut told = 0u32;
    for read in 0..40 {
        told = told.saturating_add(u32::from(is_failure_told(rt, alloc, read)));
    }
    told
}

#[test]
fn each_read_that_fails_is_told(rt: HostRuntime) {
    // The chain and two heads, twice, ids and records.
    let told = failures_told(&rt, rt.alloc());
    assert!(&rt; told >= 8);
    assert!(&rt; told < 40);
}
