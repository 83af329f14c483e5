//! The commands, and what they answer.
//!
//! Their contracts are long, and here they end: these functions have none, so the proof of a test
//! does not go over them once more.

use graph_commands::run::{
    WriteFailed, run_ancestor, run_distinct, run_find, run_list, run_verify,
};
use graph_folder::folder::Memory;
use graph_vectors::{Sink, Source};
use std::alloc::Global;
use std::process::Abort;

/// A command with what it is asked about: bytes, or the path of a graph and texts of ids.
#[derive(Clone, Copy)]
pub enum Asked<'a> {
    /// The listing of the layer that these bytes are.
    List(&'a [u8]),
    /// A check of the graph at this path.
    Verify(&'a str),
    /// The same, and that no id stands in two of its layers.
    Distinct(&'a str),
    /// A search for the commit with an id.
    Find(&'a str, &'a str),
    /// A search for a walk from the commit with one id to that with another.
    Ancestor(&'a str, &'a str, &'a str),
}

/// What a command answers, and what it writes.
pub fn answer(
    alloc: Global,
    folder: &mut Memory,
    asked: Asked<'_>,
    out: &mut Sink,
) -> Result<u8, WriteFailed> {
    match asked {
        Asked::List(bytes) => run_list(alloc, &mut Source::new(bytes, usize::MAX, None), out),
        Asked::Verify(path) => run_verify(alloc, folder, path, out),
        Asked::Distinct(path) => run_distinct(alloc, folder, path, out),
        Asked::Find(path, id) => run_find(alloc, folder, path, id, out),
        Asked::Ancestor(path, first, second) => {
            run_ancestor(alloc, folder, path, first, second, out)
        }
    }
}

/// The exit status of a command, and the text that it writes.
pub type Told<'a> = (u8, &'a str);

/// Asserts that something holds of an answer, of which this text is wanted. A proof has little to
/// go over where the message stands in a function alone.
pub fn ensure(rt: &impl Abort, want: &str, holds: bool) {
    assert!(rt; holds, "{want}");
}

/// Asserts what a command answers, and what it writes.
pub fn expect(
    rt: &impl Abort,
    alloc: Global,
    folder: &mut Memory,
    asked: Asked<'_>,
    (status, want): Told<'_>,
) {
    let mut out = Sink::new(alloc, usize::MAX, None);
    let answered = answer(alloc, folder, asked, &mut out);
    ensure(rt, want, answered == Ok(status) && out.text() == want);
}

pub const ONES: &str = "1111111111111111111111111111111111111111";

pub const FOURS: &str = "4444444444444444444444444444444444444444";

pub const FIVES: &str = "5555555555555555555555555555555555555555";

pub const SIXES: &str = "6666666666666666666666666666666666666666";

/// The text of an id of the other kind of hash.
pub const LONG_FOURS: &str = "4444444444444444444444444444444444444444444444444444444444444444";

/// As many letters as an id has digits.
pub const ZS: &str = "zzzzzzzzzzzzzzzzzzzzzzzzzzzzzzzzzzzzzzzz";
