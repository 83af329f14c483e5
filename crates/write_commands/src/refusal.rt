//! The line that says why `write` was refused.

ghost use Rattle.std.specs.Prelude.{◌≡◌, Some};
ghost use Rattle.write_commands.specs.WriteRefusalLines.{new_entry_number};

use crate::error::CommitsError;
use graph_commands::refusal::Refusal;
use graph_folder::folder::ReadError;
use graph_writer::WriteError;
use history_commands::CheckRefusal;
use object_stream::EntryError;
use std::fmt;

/// Why `write` was refused. It is displayed as its line, without the line's end.
#[derive(Debug, Drop)]
pub enum LayerRefusal {
    /// No graph was opened, or it fails its check.
    Graph(Refusal),
    /// The stream says no commits, or it could not be read.
    Stream(CommitsError),
    /// The commits make no layer.
    Commits(WriteError),
}

impl From<Refusal> for LayerRefusal {
    ghost use Rattle.write_commands.specs.declared.refusal.LayerRefusal.TheVariants.{Graph};

    ghost from_gives = { λ refusal found. found ≡ Graph refusal };

    fn from(refusal: Refusal) -> LayerRefusal {
        LayerRefusal::Graph(refusal)
    }
}

impl From<CommitsError> for LayerRefusal {
    ghost use Rattle.write_commands.specs.declared.refusal.LayerRefusal.TheVariants.{Stream};

    ghost from_gives = { λ error found. found ≡ Stream error };

    fn from(error: CommitsError) -> LayerRefusal {
        LayerRefusal::Stream(error)
    }
}

impl From<WriteError> for LayerRefusal {
    ghost use Rattle.write_commands.specs.declared.refusal.LayerRefusal.TheVariants.{Commits};

    ghost from_gives = { λ error found. found ≡ Commits error };

    fn from(error: WriteError) -> LayerRefusal {
        LayerRefusal::Commits(error)
    }
}

impl fmt::Display for LayerRefusal {
    ghost use Rattle.write_commands.specs.WriteRefusalLines.{layer_refusal_text};

    ghost output = { λ refusal. Some (layer_refusal_text refusal) };

    fn fmt<W: fmt::Write>(&self, f: &mut fmt::Formatter<W>) -> fmt::Result {
        match self {
            LayerRefusal::Graph(refusal) => write!(f, "{refusal}"),
            LayerRefusal::Stream(error) => write!(f, "{}", StreamText(*error)),
            LayerRefusal::Commits(error) => write!(f, "{}", CommitsText(*error)),
        }
    }
}

/// Why a stream is refused. It is displayed as the line of that.
#[derive(Clone, Copy)]
struct StreamText(CommitsError);

impl fmt::Display for StreamText {
    ghost use Rattle.write_commands.specs.WriteRefusalLines.{commits_refusal_text};

    ghost output = { λ text. Some (commits_refusal_text text.0) };

    fn fmt<W: fmt::Write>(&self, f: &mut fmt::Formatter<W>) -> fmt::Result {
        match self.0 {
            CommitsError::Entry(number, error) => {
                write!(f, "refused stream {} entry {number}", entry_number(error))
            }
            CommitsError::Unreadable(number) => write!(f, "refused stream 6 entry {number}"),
            CommitsError::Device => write!(f, "{}", Refusal::Read(ReadError::Device)),
            CommitsError::OutOfMemory => write!(f, "{}", Refusal::Read(ReadError::OutOfMemory)),
        }
    }
}

/// The number of the reason for which an entry is refused. No id is expected, so that none is
/// another.
fn entry_number(error: EntryError) -> u8
    ensures { result ≡ new_entry_number error }
{
    match error {
        EntryError::OtherId => 0,
        EntryError::Ends => 1,
        EntryError::NoEntry => 2,
        EntryError::Missing => 3,
        EntryError::OtherType => 4,
        EntryError::OtherContents => 5,
    }
}

/// Why commits make no layer. It is displayed as the line of that.
#[derive(Clone, Copy)]
struct CommitsText(WriteError);

impl fmt::Display for CommitsText {
    ghost use Rattle.write_commands.specs.WriteRefusalLines.{write_refusal_text};

    ghost output = { λ text. Some (write_refusal_text text.0) };

    fn fmt<W: fmt::Write>(&self, f: &mut fmt::Formatter<W>) -> fmt::Result {
        match self.0 {
            WriteError::Kind(i) => write!(f, "refused write 1 commit {i}"),
            WriteError::NullId(i) => write!(f, "refused write 2 commit {i}"),
            WriteError::NullTree(i) => write!(f, "refused write 3 commit {i}"),
            WriteError::Time(i) => write!(f, "refused write 4 commit {i}"),
            WriteError::Twice(i, j) => write!(f, "refused write 5 commit {i} earlier {j}"),
            WriteError::Below(i, pos) => {
                write!(f, "refused write 6 commit {i} position {}", pos.0)
            }
            WriteError::Parent(i, index) => write!(f, "refused write 7 commit {i} index {index}"),
            WriteError::Cycle(i) => write!(f, "refused write 8 commit {i}"),
            WriteError::Nothing => f.write_str("refused write 9"),
            WriteError::TooManyCommits => f.write_str("refused write 10 limit 1"),
            WriteError::TooManyEdges => f.write_str("refused write 10 limit 2"),
            WriteError::TooManyLayers => f.write_str("refused write 10 limit 3"),
            WriteError::Dates(error) => write!(f, "{}", CheckRefusal::Dates(error)),
            WriteError::OutOfMemory => f.write_str("refused write 11"),
        }
    }
}
