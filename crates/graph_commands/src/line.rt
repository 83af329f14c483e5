//! A line that is written whole, as that of a refusal, and why it is not.

ghost use Rattle.std.specs.Prelude.{IfOk, IfSome, OnOk};
ghost use Rattle.std.specs.Fmt.{with_newline};
ghost use Rattle.std.specs.Io.KnownBytes.{Appends};
ghost use Rattle.graph_commands.specs.WrittenAnswer.{WritesRefusal};

use crate::refusal::Refusal;
use arrayvec::ArrayString;
use std::fmt::Display;
use std::io::Write;
use std::{fmt, io};

/// A write failed. How much went out before is not known.
#[derive(Clone, Copy, Debug, PartialEq, Eq)]
pub struct WriteFailed;

impl From<io::Error> for WriteFailed {
    fn from(_: io::Error) -> WriteFailed {
        WriteFailed
    }
}

/// The most bytes of a line that is made before it is written. Each line of the program fits.
const ROOM: usize = 128;

/// Writes a text and the end of its line. A line of at most 128 bytes is made first and handed to
/// the writer at once, so that none of it is written where that write fails. No memory is
/// allocated. `WriteFailed` comes where the writer fails.
pub fn write_line<W: Write, D: Display + Drop>(writer: &mut W, text: D) -> Result<(), WriteFailed>
    ensures written { OnOk result (IfSome (with_newline (D.output text))
        (Appends (W.contents writer.old) (W.contents writer.new))) }
{
    let mut line = ArrayString::<ROOM>::new();
    match fmt::Write::writeln(&mut line, &text) {
        Ok(()) => writer.write_all(line.as_str().as_bytes())?,
        Err(fmt::Error) => writer.writeln(text)?,
    }
    Ok(())
}

/// Writes the line of a refusal, and answers its exit status. `WriteFailed` comes where the writer
/// fails.
pub fn refuse<W: Write>(writer: &mut W, refusal: &Refusal) -> Result<u8, WriteFailed>
    ensures { IfOk result
        (WritesRefusal refusal.now (W.contents writer.old) (W.contents writer.new)) }
{
    write_line(writer, refusal)?;
    Ok(refusal.status())
}
