//! The line that says why a command was refused.

ghost use Rattle.std.specs.Prelude.{◌≡◌, Some};
ghost use Rattle.object_commands.specs.ObjectsRefusalLines.{entry_number, mismatch_number};

use gix_commitgraph::Position;
use gix_commitgraph::opening::OpenError;
use graph_commands::refusal::Refusal;
use graph_folder::folder::ReadError;
use graph_objects::{Mismatch, ObjectsError};
use object_stream::EntryError;
use std::fmt;

/// Why `ids` or `objects` was refused. It is displayed as its line, without the line's end.
#[derive(Debug, Drop)]
pub enum ObjectsRefusal {
    /// No graph was opened, or it fails its check.
    Graph(Refusal),
    /// The graph lacks some of the positions, or they end before they begin.
    Range {
        /// How many commits the graph has.
        commits: u32,
    },
    /// The stream is not that of the commits, or it could not be read.
    Stream(ObjectsError),
}

impl From<Refusal> for ObjectsRefusal {
    ghost use Rattle.object_commands.specs.declared.refusal.ObjectsRefusal.TheVariants.{Graph};

    ghost from_gives = { λ refusal found. found ≡ Graph refusal };

    fn from(refusal: Refusal) -> ObjectsRefusal {
        ObjectsRefusal::Graph(refusal)
    }
}

impl From<OpenError> for ObjectsRefusal {
    ghost use Rattle.object_commands.specs.declared.refusal.ObjectsRefusal.TheVariants.{Graph};
    ghost use Rattle.graph_commands.specs.declared.refusal.Refusal.TheVariants.{Open};

    ghost from_gives = { λ error found. found ≡ Graph (Open error) };

    fn from(error: OpenError) -> ObjectsRefusal {
        ObjectsRefusal::Graph(Refusal::Open(error))
    }
}

impl From<ObjectsError> for ObjectsRefusal {
    ghost use Rattle.object_commands.specs.declared.refusal.ObjectsRefusal.TheVariants.{Stream};

    ghost from_gives = { λ error found. found ≡ Stream error };

    fn from(error: ObjectsError) -> ObjectsRefusal {
        ObjectsRefusal::Stream(error)
    }
}

impl fmt::Display for ObjectsRefusal {
    ghost use Rattle.object_commands.specs.ObjectsRefusalLines.{objects_refusal_text};

    ghost output = { λ refusal. Some (objects_refusal_text refusal) };

    fn fmt<W: fmt::Write>(&self, f: &mut fmt::Formatter<W>) -> fmt::Result {
        match self {
            ObjectsRefusal::Graph(refusal) => write!(f, "{refusal}"),
            ObjectsRefusal::Range { commits } => write!(f, "refused range commits {commits}"),
            ObjectsRefusal::Stream(error) => write!(f, "{}", StreamText(*error)),
        }
    }
}

/// Why a stream is refused. It is displayed as the line of that.
#[derive(Clone, Copy)]
struct StreamText(ObjectsError);

impl fmt::Display for StreamText {
    ghost use Rattle.object_commands.specs.ObjectsRefusalLines.{stream_refusal_text};

    ghost output = { λ text. Some (stream_refusal_text text.0) };

    fn fmt<W: fmt::Write>(&self, f: &mut fmt::Formatter<W>) -> fmt::Result {
        match self.0 {
            ObjectsError::Entry(pos, error) => {
                write!(
                    f,
                    "refused objects {} position {}",
                    entry_number(error),
                    pos.0
                )
            }
            ObjectsError::Mismatch(pos, mismatch) => {
                write!(f, "refused objects {}", MismatchText(pos, mismatch))
            }
            ObjectsError::LeftOver => f.write_str("refused objects 11"),
            ObjectsError::Device => write!(f, "{}", Refusal::Read(ReadError::Device)),
            ObjectsError::OutOfMemory => write!(f, "{}", Refusal::Read(ReadError::OutOfMemory)),
        }
    }
}

/// Why the commit at a position does not match: what stands after `refused objects`.
#[derive(Clone, Copy)]
struct MismatchText(Position, Mismatch);

impl fmt::Display for MismatchText {
    ghost use Rattle.object_commands.specs.ObjectsRefusalLines.{mismatch_text};

    ghost output = { λ text. Some (mismatch_text text.0 text.1) };

    fn fmt<W: fmt::Write>(&self, f: &mut fmt::Formatter<W>) -> fmt::Result {
        let number = mismatch_number(self.1);
        let pos = self.0.0;
        match self.1 {
            Mismatch::Parent { index } => write!(f, "{number} position {pos} index {index}"),
            _ => write!(f, "{number} position {pos}"),
        }
    }
}

/// The number of the reason for which an entry is refused.
fn entry_number(error: EntryError) -> u8
    ensures { result ≡ entry_number error }
{
    match error {
        EntryError::Ends => 1,
        EntryError::NoEntry => 2,
        EntryError::OtherId => 3,
        EntryError::Missing => 4,
        EntryError::OtherType => 5,
        EntryError::OtherContents => 6,
    }
}

/// The number of the reason for which a record does not match its commit.
fn mismatch_number(mismatch: Mismatch) -> u8
    ensures { result ≡ mismatch_number mismatch }
{
    match mismatch {
        Mismatch::OtherContents => 6,
        Mismatch::Unreadable => 7,
        Mismatch::Tree => 8,
        Mismatch::Parent { .. } => 9,
        Mismatch::Time => 10,
    }
}
