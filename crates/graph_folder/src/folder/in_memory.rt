//! A folder in memory.

ghost use Rattle.std.specs.Prelude.{◌≡◌, true, false, Some, None, string_bytes};
ghost use Rattle.std.specs.Prelude.{OnOk, OnErr, IfOk, IfErr, IsErrOf, IsOkAnd};
ghost use Rattle.std.specs.FinMap as map;
ghost use Rattle.std.specs.Option.{option_map, option_copied};
ghost use Rattle.graph_folder.specs.Tree.{RegularFile, Directory, file_at, is_file, is_folder};
ghost use Rattle.graph_folder.specs.Memory.{nothing, put, will_fail, read_of, after_read};
ghost use Rattle.graph_folder.specs.Memory.{AnswersRead, AnswersPart};
ghost use Rattle.graph_folder.specs.Parts.{IsPartOf};

use super::{Folder, Part, ReadError};
use std::alloc::{AllocError, Global};
use std::collections::BTreeMap;
use std::marker::Model;

/// What stands at a path.
#[derive(Drop)]
enum Node {
    File(Vec<u8>),
    Dir,
}

/// A folder whose files are values, and in which one read can be made to fail. Paths are compared
/// as texts, so a file may stand below a path at which no folder stands.
#[derive(Drop)]
pub struct Memory {
    nodes: BTreeMap<String, Node>,
    failures: u64,
    reads_before_failure: Option<u32>,
}

impl Model for Memory {
    ghost use Rattle.graph_folder.specs.Memory.{Contents, coded_contents};

    ghost Value = { Contents };

    ghost coded = { coded_contents };

    ghost use Rattle.graph_folder.specs.Nodes.{contents_of};

    ghost view = { contents_of };
}

impl Memory {
    ghost use Rattle.graph_folder.specs.Nodes.{entry_of};

    /// An empty folder, in which no read has failed or is to fail. It allocates nothing.
    pub fn new(alloc: Global) -> Memory
        ensures { result ≡ nothing }
    {
        Memory {
            nodes: BTreeMap::new(alloc),
            failures: 0,
            reads_before_failure: None,
        }
    }

    /// Puts a file with these bytes in the place of what stands at the path. `AllocError` comes
    /// where an allocation failed: the folder is then as before, and the path and the bytes are
    /// dropped.
    pub fn put_file(&mut self, path: String, bytes: Vec<u8>) -> Result<(), AllocError>
        ensures ok { OnOk result (self.new
            ≡ put self.old (string_bytes path) (RegularFile bytes.items)) }
        ensures err { OnErr result (self.new ≡ self.old) }
    {
        self.nodes.insert(path, Node::File(bytes))?;
        Ok(())
    }

    /// Puts a folder in the place of what stands at the path. `AllocError` comes where an
    /// allocation failed: the folder is then as before, and the path is dropped.
    pub fn put_dir(&mut self, path: String) -> Result<(), AllocError>
        ensures ok { OnOk result (self.new ≡ put self.old (string_bytes path) Directory) }
        ensures err { OnErr result (self.new ≡ self.old) }
    {
        self.nodes.insert(path, Node::Dir)?;
        Ok(())
    }

    /// Makes the n-th read from now, counted from 0, answer `Device`, whatever stands at its path.
    /// Every read counts. What an earlier call asked for is forgotten.
    pub fn fail_read(&mut self, n: u32)
        ensures { self.new ≡ record self.old { reads_before_failure = Some n } }
    {
        self.reads_before_failure = Some(n);
    }

    /// What stands at a path.
    fn node(&self, path: &str) -> Option<&Node>
        ensures { option_map entry_of (option_copied result) ≡ map.get self.now.tree path.now }
    {
        self.nodes.get(path)
    }

    /// The bytes of the file at the path.
    fn file(&self, path: &str) -> Result<&[u8], ReadError>
        ensures bytes { IfOk result (λ bytes. file_at self.now.tree path.now ≡ Some bytes.now) }
        ensures missing { IsErrOf result ReadError.NotOpened
            → file_at self.now.tree path.now ≡ None }
        ensures error { IfErr result (λ error. error ≡ ReadError.NotOpened) }
    {
        match self.node(path) {
            Some(Node::File(bytes)) => Ok(bytes),
            _ => Err(ReadError::NotOpened),
        }
    }

    /// Counts a read, which answers `Device` where it is the one that is to fail.
    fn count_read(&mut self) -> Result<(), ReadError>
        ensures passed { OnOk result (will_fail self.old ≡ false) }
        ensures failed { OnErr result (will_fail self.old ≡ true) }
        ensures error { IfErr result (λ error. error ≡ ReadError.Device) }
        ensures after { self.new ≡ after_read self.old }
    {
        match self.reads_before_failure {
            Some(0) => {
                self.reads_before_failure = None;
                self.failures = self.failures.saturating_add(1);
                Err(ReadError::Device)
            }
            Some(n) => {
                self.reads_before_failure = Some(n - 1);
                Ok(())
            }
            None => Ok(()),
        }
    }
}

impl Folder for Memory {
    ghost tree = { λ m. Some m.tree };

    ghost failure_count = { λ m. m.failures };

    /// How many reads were made to fail so far.
    fn failures(&self) -> u64 {
        self.failures
    }

    /// Whether a file stands at the path. `AllocError` never comes.
    fn is_file(&mut self, _alloc: Global, path: &str) -> Result<bool, AllocError>
        ensures answer { IsOkAnd result (λ found. found ≡ is_file self.old.tree path.now) }
        ensures unchanged { self.new ≡ self.old }
    {
        Ok(matches!(self.node(path), Some(Node::File(_))))
    }

    /// Whether a folder stands at the path. `AllocError` never comes.
    fn is_dir(&mut self, _alloc: Global, path: &str) -> Result<bool, AllocError>
        ensures answer { IsOkAnd result (λ found. found ≡ is_folder self.old.tree path.now) }
        ensures unchanged { self.new ≡ self.old }
    {
        Ok(matches!(self.node(path), Some(Node::Dir)))
    }

    /// A copy of the bytes of the file at the path, `NotOpened` where no file stands there, and
    /// `Device` where this read was to fail. `OutOfMemory` comes only in place of bytes.
    fn read(&mut self, alloc: Global, path: &str) -> Result<Vec<u8>, ReadError>
        ensures answer { AnswersRead result (read_of self.old path.now) }
        ensures after { self.new ≡ after_read self.old }
    {
        self.count_read()?;
        let bytes = self.file(path)?;
        Vec::from_slice(alloc, bytes).map_err(|_| ReadError::OutOfMemory)
    }

    /// A copy of these bytes of the file at the path, with its length: as [`Memory::read`] answers,
    /// and never `None`.
    fn read_part(
        &mut self,
        alloc: Global,
        path: &str,
        start: u64,
        len: usize,
    ) -> Result<Option<Part>, ReadError>
        ensures answer { AnswersPart result (read_of self.old path.now) start len }
        ensures after { self.new ≡ after_read self.old }
    {
        self.count_read()?;
        let bytes = self.file(path)?;
        part_of(alloc, bytes, start, len).map(Some)
    }
}

/// The bytes from `start` on, at most `len` of them, and the length of them all.
fn part_of(alloc: Global, bytes: &[u8], start: u64, len: usize) -> Result<Part, ReadError>
    ensures part { IfOk result (IsPartOf bytes.now start len) }
    ensures memory { IfErr result (λ error. error ≡ ReadError.OutOfMemory) }
{
    let first = if start < bytes.len() as u64 {
        start as usize
    } else {
        bytes.len()
    };
    let end = if len < bytes.len() - first {
        first + len
    } else {
        bytes.len()
    };
    let copy = Vec::from_slice(alloc, &bytes[first..end]).map_err(|_| ReadError::OutOfMemory)?;
    Ok(Part {
        bytes: copy,
        file_len: bytes.len() as u64,
    })
}
