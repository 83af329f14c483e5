//! Commands that ask for commits and then tell what they find.

use crate::completing::stream_of;
use crate::fixtures::{Flushed, Pieces};
use crate::history::{ANCESTORS, BASE_LINES, Command, WALK_LINES};
use answer_lines::reply::Form;
use graph_commands::line::WriteFailed;
use graph_folder::folder::Memory;
use history_commands::SpelledQuestion;
use newer_commands::run::run_spelled_newer;
use std::alloc::Global;
use std::process::Abort;

/// What stands behind this line.
fn behind<'a>(rt: &impl Abort, bytes: &'a [u8], line: &str) -> &'a [u8] {
    let rest = bytes.strip_prefix(line.as_bytes()).expect(rt, "the line");
    rest.strip_prefix(b"\n").expect(rt, "a line feed")
}

/// Compares what was written, and the status: the ids that were asked for, an empty line, and what
/// is told.
fn compare_written(
    rt: &impl Abort,
    row: &Command,
    written: &[u8],
    status: Result<u8, WriteFailed>,
) {
    let (_, asked, lines, expected) = *row;
    let mut left = written;
    for id in asked {
        left = behind(rt, left, id);
    }
    left = behind(rt, left, "");
    for line in lines {
        left = behind(rt, left, line);
    }
    assert!(rt; left.is_empty());
    assert!(rt; status == Ok(expected));
}

/// Asks whether one commit is an ancestor of another, over no graph.
fn ask_ancestor(rt: &impl Abort, alloc: Global, row: &Command) {
    let ([first, second], asked, _, _) = *row;
    let stream = stream_of(rt, alloc, asked);
    let (mut folder, mut writer) = (Memory::new(alloc), Flushed::new(alloc));
    let mut reader = Pieces {
        bytes: &stream,
        most: 7,
        fails: true,
    };
    let status = run_spelled_newer(
        alloc,
        &mut folder,
        None,
        SpelledQuestion::IsAncestor(first, second),
        Form::Whole,
        &mut reader,
        &mut writer,
    );
    compare_written(rt, row, &writer.bytes, status);
}

/// Asks for a walk from one commit to another, over no graph.
fn ask_walk(rt: &impl Abort, alloc: Global, row: &Command) {
    let ([first, second], asked, _, _) = *row;
    let stream = stream_of(rt, alloc, asked);
    let (mut folder, mut writer) = (Memory::new(alloc), Flushed::new(alloc));
    let mut reader = Pieces {
        bytes: &stream,
        most: 7,
        fails: true,
    };
    let status = run_spelled_newer(
        alloc,
        &mut folder,
        None,
        SpelledQuestion::Walk(first, second),
        Form::Whole,
        &mut reader,
        &mut writer,
    );
    compare_written(rt, row, &writer.bytes, status);
}

/// Asks for the merge bases of two commits, over no graph.
fn ask_bases(rt: &impl Abort, alloc: Global, row: &Command) {
    let ([first, second], asked, _, _) = *row;
    let stream = stream_of(rt, alloc, asked);
    let (mut folder, mut writer) = (Memory::new(alloc), Flushed::new(alloc));
    let mut reader = Pieces {
        bytes: &stream,
        most: 7,
        fails: true,
    };
    let other = String::from_str(alloc, second).ok().expect(rt, "memory");
    let others = [other];
    let status = run_spelled_newer(
        alloc,
        &mut folder,
        None,
        SpelledQuestion::MergeBase(first, &others),
        Form::IdsAlone,
        &mut reader,
        &mut writer,
    );
    compare_written(rt, row, &writer.bytes, status);
}

#[test]
fn commands_ask_and_then_tell(rt: HostRuntime) {
    let alloc = rt.alloc();
    for row in ANCESTORS {
        ask_ancestor(&rt, alloc, row);
    }
    ask_walk(&rt, alloc, &WALK_LINES);
    ask_bases(&rt, alloc, &BASE_LINES);
}
