//! Readers and writers that fail.

use std::alloc::Global;
use std::io;
use std::io::{ErrorKind, Read, Write};

/// A reader that gives at most so many bytes a read, and whose read of this number fails.
#[derive(Drop)]
pub struct Source<'a> {
    rest: &'a [u8],
    most: usize,
    fails_at: Option<usize>,
    /// How often it was read.
    pub reads: usize,
}

impl Source<'_> {
    /// A reader of these bytes. The numbers of its reads count from 0.
    pub fn new(rest: &[u8], most: usize, fails_at: Option<usize>) -> Source<'_> {
        Source {
            rest,
            most,
            fails_at,
            reads: 0,
        }
    }
}

impl Read for Source<'_> {
    fn read(&mut self, buf: &mut [u8]) -> io::Result<usize> {
        let read = self.reads;
        self.reads = read.saturating_add(1);
        if self.fails_at == Some(read) {
            return Err(io::Error::from(ErrorKind::OutOfMemory));
        }
        let count = self.most.min(buf.len()).min(self.rest.len());
        buf[..count].copy_from_slice(&self.rest[..count]);
        self.rest = &self.rest[count..];
        Ok(count)
    }
}

/// A writer that takes at most so many bytes a write, and whose write of this number fails.
#[derive(Drop)]
pub struct Sink {
    /// What was written.
    pub bytes: Vec<u8>,
    most: usize,
    fails_at: Option<usize>,
    /// How often it was written to.
    pub writes: usize,
}

impl Sink {
    /// An empty writer. The numbers of its writes count from 0.
    pub fn new(alloc: Global, most: usize, fails_at: Option<usize>) -> Sink {
        Sink {
            bytes: Vec::new(alloc),
            most,
            fails_at,
            writes: 0,
        }
    }

    /// What was written, as a text.
    pub fn text(&self) -> &str {
        str::from_utf8(&self.bytes).unwrap_or("no text")
    }
}

impl Write for Sink {
    fn write(&mut self, buf: &[u8]) -> io::Result<usize> {
        let write = self.writes;
        self.writes = write.saturating_add(1);
        if self.fails_at == Some(write) {
            return Err(io::Error::from(ErrorKind::Other));
        }
        let count = self.most.min(buf.len());
        self.bytes.extend_from_slice(&buf[..count])?;
        Ok(count)
    }

    fn flush(&mut self) -> io::Result<()> {
        Ok(())
    }
}
