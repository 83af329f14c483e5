//! A reader and a writer that are lent for a while.

use std::io;
use std::io::{Read, Write};

/// A reader that is lent.
#[derive(Drop)]
pub(crate) struct LentReader<'a, R: Read> {
    pub(crate) reader: &'a mut R,
}

impl<R: Read> Read for LentReader<'_, R> {
    ghost remaining = { λ lent. R.remaining lent.reader.now };

    fn read(&mut self, buf: &mut [u8]) -> io::Result<usize> {
        self.reader.read(buf)
    }
}

/// A writer that is lent. What a contract sees of it are the name of the loan, and then the bytes
/// that the writer holds: where these are known, it is known to be the same writer.
#[derive(Drop)]
pub(crate) struct LentWriter<'a, W: Write> {
    pub(crate) writer: &'a mut W,
}

impl<W: Write> Write for LentWriter<'_, W> {
    ghost use Rattle.path_checks.specs.NamedLoan.{named};

    ghost contents = { λ lent. named lent.writer.ghost_name (W.contents lent.writer.now) };

    fn write(&mut self, buf: &[u8]) -> io::Result<usize> {
        self.writer.write(buf)
    }

    fn flush(&mut self) -> io::Result<()> {
        self.writer.flush()
    }
}
