//! Bytes on their way to a writer, in buffers.

ghost use Rattle.std.specs.Prelude.{◌≡◌, ◌+◌, ◌≤◌, List, ℕ, [], ◌∷◌, length, take, decimal};
ghost use Rattle.std.specs.Prelude.{IfOk, OnOk};
ghost use Rattle.std.specs.Io.KnownBytes.{Appends, Keeps};
ghost use Rattle.hex.specs.Hex.{encode_lower};
ghost use Rattle.gix_hash_core.specs.Oid.{oid_bytes};
ghost use Rattle.graph_commands.specs.Buffer.{with_buffer};

use crate::bytes::{put_decimal, put_hex, put_text};
use crate::line::WriteFailed;
use gix_hash_core::oid;
use std::alloc::{AllocError, Global};
use std::io::Write;
use std::marker::Model;

/// How many bytes a buffer has room for.
const ROOM: usize = 64 * 1024;

/// The most digits of a number.
const MOST_DIGITS: usize = 20;

/// Bytes that a writer has not been given yet. Where they would not fit, those before are written
/// first. Nothing is allocated once the buffer is there.
#[derive(Drop)]
pub struct Buffer {
    bytes: Vec<u8>,
    len: usize,
}

impl Model for Buffer {
    ghost Value = { List ℕ };

    ghost view = { λ buffer. take buffer.len buffer.bytes.items };

    ghost invariant = { λ buffer. (buffer.len ≤ 65536) × (length buffer.bytes.items ≡ 65536) };
}

impl Buffer {
    /// A buffer with no bytes. `AllocError` comes where there is no memory for it.
    pub fn new(alloc: Global) -> Result<Buffer, AllocError>
        ensures { IfOk result (λ buffer. buffer ≡ []) }
    {
        Ok(Buffer {
            bytes: vec![in alloc; 0; ROOM]?,
            len: 0,
        })
    }

    /// Adds a text. `WriteFailed` comes where the writer fails.
    pub fn push_text<W: Write>(&mut self, writer: &mut W, text: &str) -> Result<(), WriteFailed>
        ensures { OnOk result (Appends (with_buffer (W.contents writer.old) self.old)
            (with_buffer (W.contents writer.new) self.new) text.now) }
    {
        let text = text.as_bytes();
        if text.len() > ROOM {
            self.write_out(writer)?;
            writer.write_all(text)?;
            return Ok(());
        }
        self.make_room(writer, text.len())?;
        self.len = put_text(&mut self.bytes, self.len, text);
        Ok(())
    }

    /// Adds one byte. `WriteFailed` comes where the writer fails.
    pub fn push_byte<W: Write>(&mut self, writer: &mut W, byte: u8) -> Result<(), WriteFailed>
        ensures { OnOk result (Appends (with_buffer (W.contents writer.old) self.old)
            (with_buffer (W.contents writer.new) self.new) (byte ∷ [])) }
    {
        self.make_room(writer, 1)?;
        self.bytes[self.len] = byte;
        self.len += 1;
        Ok(())
    }

    /// Adds a number in decimal digits. `WriteFailed` comes where the writer fails.
    pub fn push_decimal<W: Write>(&mut self, writer: &mut W, number: u64) -> Result<(), WriteFailed>
        ensures { OnOk result (Appends (with_buffer (W.contents writer.old) self.old)
            (with_buffer (W.contents writer.new) self.new) (decimal number)) }
    {
        self.make_room(writer, MOST_DIGITS)?;
        self.len = put_decimal(&mut self.bytes, self.len, number);
        Ok(())
    }

    /// Adds an id in lower-case hexadecimal. `WriteFailed` comes where the writer fails.
    pub fn push_id<W: Write>(&mut self, writer: &mut W, id: oid<'_>) -> Result<(), WriteFailed>
        ensures { OnOk result (Appends (with_buffer (W.contents writer.old) self.old)
            (with_buffer (W.contents writer.new) self.new) (encode_lower (oid_bytes id.entry))) }
    {
        let id = id.as_bytes();
        self.make_room(writer, 2 * id.len())?;
        self.len = put_hex(&mut self.bytes, self.len, id);
        Ok(())
    }

    /// Writes what the buffer has, and empties it. `WriteFailed` comes where the writer fails.
    pub fn write_out<W: Write>(&mut self, writer: &mut W) -> Result<(), WriteFailed>
        ensures written { OnOk result
            (Appends (W.contents writer.old) (W.contents writer.new) self.old) }
        ensures empty { OnOk result (self.new ≡ []) }
    {
        writer.write_all(&self.bytes[..self.len])?;
        self.len = 0;
        Ok(())
    }

    /// Writes what the buffer has if there is no room for so many more bytes.
    fn make_room<W: Write>(&mut self, writer: &mut W, count: usize) -> Result<(), WriteFailed>
        requires { count ≤ 65536 }
        ensures kept { OnOk result (Keeps (with_buffer (W.contents writer.old) self.old)
            (with_buffer (W.contents writer.new) self.new)) }
        ensures room { OnOk result (length self.new + count ≤ 65536) }
    {
        if count > ROOM - self.len {
            self.write_out(writer)?;
        }
        Ok(())
    }
}
