//! How positions are written and ordered.

use crate::ids::compare_ascending;
use gix_commitgraph::{Position, file};
use std::alloc::Global;
use std::fmt::Display;
use std::process::Abort;

/// A position written as it is, and with widths and fills.
fn text_of<T: Display>(rt: &impl Abort, alloc: Global, pos: &T) -> String {
    let text = format!(in alloc; "{pos}|{pos:>5}|{pos:*<6}|{pos:-^7}|{pos:5}|{pos:05}|{pos:1}|");
    text.expect(rt, "memory")
}

/// Numbers, with their texts: as they are, to the right of five places, to the left of six before
/// stars, in the middle of seven between lines, in five places, in five places after digits 0, and
/// in one place or more.
const TEXTS: &[(u32, &str)] = &[
    (42, "42|   42|42****|--42---|   42|00042|42|"),
    (0, "0|    0|0*****|---0---|    0|00000|0|"),
    (
        4294967295,
        "4294967295|4294967295|4294967295|4294967295|4294967295|4294967295|4294967295|",
    ),
];

/// Compares the text of a position. Where the texts differ, the process aborts.
fn compare_text<T: Display>(rt: &impl Abort, alloc: Global, pos: &T, want: &str) {
    let text = text_of(rt, alloc, pos);
    assert!(rt; text.as_str() == want);
}

/// Compares the texts of positions in a graph and in a layer.
fn compare_texts(rt: &impl Abort, alloc: Global, rows: &[(u32, &str)]) {
    for (number, want) in rows {
        compare_text(rt, alloc, &Position(*number), want);
        compare_text(rt, alloc, &file::Position(*number), want);
    }
}

#[test]
fn positions_are_ordered_and_written_with_width_and_fill(rt: HostRuntime) {
    compare_ascending(&rt, &[Position(1), Position(3), Position(256)]);
    compare_ascending(&rt, &[file::Position(3), file::Position(256)]);
    compare_texts(&rt, rt.alloc(), TEXTS);
}
