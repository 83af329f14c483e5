//! Folders of the tests: one that counts what is asked of it, in which a file may change between
//! two reads, and a call may find no memory; and one with a file that no memory holds.

ghost use Rattle.std.specs.Prelude.{None};

use crate::fixtures::graphs;
use graph_folder::folder::{Folder, Memory, Part, ReadError};
use std::alloc::{AllocError, Global};
use std::mem;
use std::process::Abort;

/// A folder in memory. No read fails: where one would, there is no memory here.
#[derive(Drop)]
pub struct Watched {
    pub memory: Memory,
    /// What stands there after so many reads more.
    pub later: Memory,
    pub reads_before: u32,
    /// How often something was asked, and the number of the call that finds no memory.
    pub calls: u32,
    pub refused: u32,
    /// How many files were read whole, how many parts were asked for, and how many bytes in all of
    /// these.
    pub whole: u32,
    pub parts: u32,
    pub bytes: u64,
}

/// The folder of the graphs, of which nothing was asked yet.
pub fn watched_graphs(rt: &impl Abort, alloc: Global) -> Watched {
    Watched {
        memory: graphs(rt, alloc),
        later: Memory::new(alloc),
        reads_before: u32::MAX,
        calls: 0,
        refused: u32::MAX,
        whole: 0,
        parts: 0,
        bytes: 0,
    }
}

impl Watched {
    /// Counts a call.
    fn call(&mut self) -> Result<(), AllocError> {
        let call = self.calls;
        self.calls = call.saturating_add(1);
        if call == self.refused {
            return Err(AllocError);
        }
        Ok(())
    }

    /// Counts a read, and has the files change before it if they are to.
    fn read_call(&mut self) -> Result<(), AllocError> {
        if self.reads_before == 0 {
            mem::swap(&mut self.memory, &mut self.later);
        }
        self.reads_before = self.reads_before.wrapping_sub(1);
        self.call()
    }
}

impl Folder for Watched {
    ghost tree = { λ _. None };

    ghost failure_count = { λ _. 0 };

    fn failures(&self) -> u64 {
        0
    }

    fn is_file(&mut self, alloc: Global, path: &str) -> Result<bool, AllocError> {
        self.call()?;
        self.memory.is_file(alloc, path)
    }

    fn is_dir(&mut self, alloc: Global, path: &str) -> Result<bool, AllocError> {
        self.call()?;
        self.memory.is_dir(alloc, path)
    }

    fn read(&mut self, alloc: Global, path: &str) -> Result<Vec<u8>, ReadError> {
        if self.read_call().is_err() {
            return Err(ReadError::OutOfMemory);
        }
        self.whole = self.whole.saturating_add(1);
        match self.memory.read(alloc, path) {
            Err(ReadError::Device) => Err(ReadError::OutOfMemory),
            answer => answer,
        }
    }

    fn read_part(
        &mut self,
        alloc: Global,
        path: &str,
        start: u64,
        len: usize,
    ) -> Result<Option<Part>, ReadError> {
        if self.read_call().is_err() {
            return Err(ReadError::OutOfMemory);
        }
        self.parts = self.parts.saturating_add(1);
        self.bytes = self.bytes.saturating_add(len as u64);
        match self.memory.read_part(alloc, path, start, len) {
            Err(ReadError::Device) => Err(ReadError::OutOfMemory),
            answer => answer,
        }
    }
}

/// A folder with one file of so many bytes, at each path. They are 0, but that a part which begins
/// at one of these places begins with the bytes beside it. There is no memory for the whole file.
#[derive(Drop)]
pub struct Vast<'a> {
    pub len: u64,
    pub fronts: &'a [(u64, &'a [u8])],
    /// How many parts were asked for, and how many bytes in all of them.
    pub parts: u32,
    pub bytes: u64,
}

impl<'a> Vast<'a> {
    /// Such a folder, of which nothing was asked yet.
    pub fn new(len: u64, fronts: &'a [(u64, &'a [u8])]) -> Vast<'a> {
        Vast {
            len,
            fronts,
            parts: 0,
            bytes: 0,
        }
    }
}

impl Folder for Vast<'_> {
    ghost tree = { λ _. None };

    ghost failure_count = { λ _. 0 };

    fn failures(&self) -> u64 {
        0
    }

    fn is_file(&mut self, _alloc: Global, _path: &str) -> Result<bool, AllocError> {
        Ok(true)
    }

    fn is_dir(&mut self, _alloc: Global, _path: &str) -> Result<bool, AllocError> {
        Ok(false)
    }

    fn read(&mut self, _alloc: Global, _path: &str) -> Result<Vec<u8>, ReadError> {
        Err(ReadError::OutOfMemory)
    }

    fn read_part(
        &mut self,
        alloc: Global,
        _path: &str,
        start: u64,
        len: usize,
    ) -> Result<Option<Part>, ReadError> {
        self.parts = self.parts.saturating_add(1);
        self.bytes = self.bytes.saturating_add(len as u64);
        let file_len = self.len;
        let count = file_len.saturating_sub(start).min(len as u64) as usize;
        let mut bytes = Vec::new(alloc);
        for (place, front) in self.fronts {
            if *place == start && bytes.extend_from_slice(front).is_err() {
                return Err(ReadError::OutOfMemory);
            }
        }
        if bytes.resize(count, 0).is_err() {
            return Err(ReadError::OutOfMemory);
        }
        Ok(Some(Part { bytes, file_len }))
    }
}
