//! Paths in quotes, as Git quotes them.

ghost use Rattle.std.specs.Prelude.{◌≡◌, ◌<◌, Some};
ghost use Rattle.path_commands.specs.QuotedPath.{escape_letter};

use std::fmt;
use std::fmt::Write;

/// A path in double quotes. Each byte that is no printable character of ASCII is displayed by a
/// backslash and a letter, or by a backslash and three octal digits.
#[derive(Clone, Copy)]
pub(crate) struct Quoted<'a>(pub(crate) &'a [u8]);

impl fmt::Display for Quoted<'_> {
    ghost use Rattle.path_commands.specs.QuotedPath.{quoted_path};

    ghost output = { λ quoted. Some (quoted_path quoted.0.now) };

    fn fmt<W: fmt::Write>(&self, f: &mut fmt::Formatter<W>) -> fmt::Result {
        let path = self.0;
        f.write_str("\"")?;
        for byte in path {
            write!(f, "{}", QuotedByte(*byte))?;
        }
        f.write_str("\"")
    }
}

/// A byte of a path that stands in quotes.
#[derive(Clone, Copy)]
struct QuotedByte(u8);

impl fmt::Display for QuotedByte {
    ghost use Rattle.path_commands.specs.QuotedPath.{quoted_byte};

    ghost output = { λ byte. Some (quoted_byte byte.0) };

    fn fmt<W: fmt::Write>(&self, f: &mut fmt::Formatter<W>) -> fmt::Result {
        let byte = self.0;
        let letter = escape_letter(byte);
        if letter != 0 {
            f.write_str("\\")?;
            f.write_char(char::from(letter))
        } else if byte < b' ' || byte > b'~' {
            write!(f, "\\{}{}{}", byte / 64, byte / 8 % 8, byte % 8)
        } else {
            f.write_char(char::from(byte))
        }
    }
}

/// The character that stands for a byte behind a backslash, and 0 where none does.
#[tactic(auto, unfolding(crate::specs::QuotedPath::escape_letter))]
fn escape_letter(byte: u8) -> u8
    ensures letter { result ≡ escape_letter byte }
    ensures ascii { result < 128 }
{
    match byte {
        0x07 => b'a',
        0x08 => b'b',
        b'\t' => b't',
        b'\n' => b'n',
        0x0b => b'v',
        0x0c => b'f',
        b'\r' => b'r',
        b'"' | b'\\' => byte,
        _ => 0,
    }
}
