//! Calls of a folder in memory.

use crate::fixtures::{put, put_folders};
use graph_folder::folder::{Folder, Memory, ReadError};
use std::alloc::Global;
use std::process::Abort;

/// What stands at a path.
#[derive(Clone, Copy)]
pub enum Standing {
    File,
    Dir,
    Nothing,
}

/// What a read answers: the bytes of a file, or why there are none.
pub type Bytes<'a> = Result<&'a [u8], ReadError>;

/// Compares what stands at a path of a folder.
pub fn compare_standing<T: Folder>(
    rt: &impl Abort,
    alloc: Global,
    folder: &mut T,
    path: &str,
    standing: Standing,
) {
    let is_file = folder.is_file(alloc, path).expect(rt, "memory");
    let is_dir = folder.is_dir(alloc, path).expect(rt, "memory");
    assert!(rt; is_file == matches!(standing, Standing::File));
    assert!(rt; is_dir == matches!(standing, Standing::Dir));
}

/// Whether a read of a folder answers this.
fn reads<T: Folder>(alloc: Global, folder: &mut T, path: &str, want: &Bytes<'_>) -> bool {
    match (&folder.read(alloc, path), want) {
        (Ok(bytes), Ok(want)) => bytes.as_slice() == *want,
        (Err(error), Err(want)) => error == want,
        _ => false,
    }
}

/// Compares what a read of a folder answers, and how many of its reads failed up to then.
pub fn compare_read<T: Folder>(
    rt: &impl Abort,
    alloc: Global,
    folder: &mut T,
    path: &str,
    want: &Bytes<'_>,
    failures: u64,
) {
    assert!(rt; reads(alloc, folder, path, want));
    assert!(rt; folder.failures() == failures);
}

/// A call of a folder in memory, and what is wanted of it.
enum Call {
    /// Puts a file with these bytes.
    PutFile(&'static str, &'static [u8]),
    /// Puts a folder.
    PutDir(&'static str),
    /// Lets the read of this number fail, counted from here.
    FailRead(u32),
    /// Asks what stands at a path.
    Stands(&'static str, Standing),
    /// Reads a path, after which so many reads have failed.
    Read(&'static str, Bytes<'static>, u64),
}

/// Makes a call.
fn make(rt: &impl Abort, alloc: Global, memory: &mut Memory, call: &Call) {
    match call {
        Call::PutFile(path, bytes) => put(rt, alloc, memory, path, bytes),
        Call::PutDir(path) => put_folders(rt, alloc, memory, &[*path]),
        Call::FailRead(n) => memory.fail_read(*n),
        Call::Stands(path, standing) => compare_standing(rt, alloc, memory, path, *standing),
        Call::Read(path, want, failures) => {
            compare_read(rt, alloc, memory, path, want, *failures);
        }
    }
}

/// Puts files and folders, also in the place of others.
const PUTS: &[Call] = &[
    Call::Stands("", Standing::Nothing),
    Call::Stands("a", Standing::Nothing),
    Call::Read("a", Err(ReadError::NotOpened), 0),
    Call::PutDir("a"),
    Call::Stands("a", Standing::Dir),
    Call::Read("a", Err(ReadError::NotOpened), 0),
    Call::PutFile("a/b", b"old"),
    Call::Stands("a/b", Standing::File),
    Call::Read("a/b", Ok(b"old"), 0),
    Call::PutFile("a/b", b"newer"),
    Call::Stands("a/b", Standing::File),
    Call::Read("a/b", Ok(b"newer"), 0),
    Call::PutDir("a/b"),
    Call::Stands("a/b", Standing::Dir),
    Call::Read("a/b", Err(ReadError::NotOpened), 0),
    Call::PutDir("a/b"),
    Call::Stands("a/b", Standing::Dir),
    Call::PutFile("a/b", b""),
    Call::Stands("a/b", Standing::File),
    Call::Read("a/b", Ok(b""), 0),
    Call::Stands("a", Standing::Dir),
];

/// Paths are compared as texts, so a file needs no folder, and a slash more is another path.
const TEXTS: &[Call] = &[
    Call::PutDir("a"),
    Call::PutFile("a/b", b"\x00\xff"),
    Call::PutFile("c/d", b"one"),
    Call::Stands("c", Standing::Nothing),
    Call::Read("c/d", Ok(b"one"), 0),
    Call::Stands("a/", Standing::Nothing),
    Call::Stands("./a", Standing::Nothing),
    Call::Stands("A", Standing::Nothing),
    Call::Stands("b", Standing::Nothing),
    Call::Read("a//b", Err(ReadError::NotOpened), 0),
    Call::Read("a/b/", Err(ReadError::NotOpened), 0),
    Call::PutFile("a/", b"two"),
    Call::Stands("a", Standing::Dir),
    Call::Read("a/", Ok(b"two"), 0),
    Call::Read("a/b", Ok(b"\x00\xff"), 0),
];

/// Each read counts, whatever it answers, and no other call does. The one that is to fail does so
/// once, whatever stands at its path. What is asked later holds in place of what was asked before.
const READS: &[Call] = &[
    Call::PutDir("a"),
    Call::PutFile("a/b", b"new"),
    Call::FailRead(0),
    Call::FailRead(3),
    Call::Read("a/b", Ok(b"new"), 0),
    Call::Read("a", Err(ReadError::NotOpened), 0),
    Call::Read("missing", Err(ReadError::NotOpened), 0),
    Call::Read("a/b", Err(ReadError::Device), 1),
    Call::Read("a/b", Ok(b"new"), 1),
    Call::FailRead(1),
    Call::Read("a/b", Ok(b"new"), 1),
    Call::Stands("a/b", Standing::File),
    Call::PutFile("e", b"put"),
    Call::PutDir("f"),
    Call::Read("missing", Err(ReadError::Device), 2),
    Call::Read("missing", Err(ReadError::NotOpened), 2),
    Call::FailRead(2),
    Call::FailRead(0),
    Call::Read("a", Err(ReadError::Device), 3),
    Call::Read("a", Err(ReadError::NotOpened), 3),
    Call::Read("a/b", Ok(b"new"), 3),
    Call::Read("e", Ok(b"put"), 3),
    Call::Stands("f", Standing::Dir),
];

/// Makes calls of a new folder, one after another.
fn compare_calls(rt: &impl Abort, alloc: Global, calls: &[Call]) {
    let mut memory = Memory::new(alloc);
    assert!(rt; memory.failures() == 0);
    for call in calls {
        make(rt, alloc, &mut memory, call);
    }
}

#[test]
fn a_folder_in_memory_has_what_was_put_there(rt: HostRuntime) {
    compare_calls(&rt, rt.alloc(), PUTS);
    compare_calls(&rt, rt.alloc(), TEXTS);
    compare_calls(&rt, rt.alloc(), READS);
}
