//! Readers and writers that do as little as they may, or fail.

use std::alloc::Global;
use std::io;
use std::io::{ErrorKind, Read, Write};

/// A reader that gives so many bytes at a time at most, and fails where none are left if it is to.
#[derive(Drop)]
pub struct Pieces<'a> {
    pub bytes: &'a [u8],
    pub most: usize,
    pub fails: bool,
}

impl Read for Pieces<'_> {
    fn read(&mut self, buf: &mut [u8]) -> io::Result<usize> {
        if self.fails && self.bytes.is_empty() {
            return Err(io::Error::from(ErrorKind::Other));
        }
        let count = self.most.min(buf.len()).min(self.bytes.len());
        let (piece, rest) = self.bytes.split_at(count);
        buf[..count].copy_from_slice(piece);
        self.bytes = rest;
        Ok(count)
    }
}

/// A writer that remembers where it was flushed last, and fails at a write or a flush if it is to.
#[derive(Drop)]
pub struct Flushed {
    pub bytes: Vec<u8>,
    pub flushed: usize,
    pub fails_to_write: bool,
    pub fails_to_flush: bool,
}

impl Flushed {
    /// An empty writer that does not fail.
    pub fn new(alloc: Global) -> Flushed {
        Flushed {
            bytes: Vec::new(alloc),
            flushed: 0,
            fails_to_write: false,
            fails_to_flush: false,
        }
    }
}

impl Write for Flushed {
    fn write(&mut self, buf: &[u8]) -> io::Result<usize> {
        if self.fails_to_write {
            return Err(io::Error::from(ErrorKind::Other));
        }
        self.bytes.extend_from_slice(buf)?;
        Ok(buf.len())
    }

    fn flush(&mut self) -> io::Result<()> {
        if self.fails_to_flush {
            return Err(io::Error::from(ErrorKind::Other));
        }
        self.flushed = self.bytes.len();
        Ok(())
    }
}
