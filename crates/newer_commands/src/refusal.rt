//! The line that says why a question was refused.

ghost use Rattle.std.specs.Prelude.{◌≡◌, Some};
ghost use Rattle.newer_commands.specs.NewerRefusalLines.{newer_entry_number};
ghost use Rattle.newer_commands.specs.NewerRefusalLines.{newer_refusal_status};

use gix_hash_core::ObjectId;
use graph_commands::refusal::Refusal;
use graph_commands::status::Status;
use object_stream::EntryError;
use std::fmt;

/// Why a question was refused for which newer commits are asked for. It is displayed as its line,
/// without the line's end.
#[derive(Debug, Drop)]
pub enum NewerRefusal {
    /// A refusal that comes without newer commits too: a text is no id, no graph was opened, or it
    /// fails its check, or memory ran out; or that a read of the input failed.
    Common(Refusal),
    /// What answers the request for this id is not the entry of a commit with it. Where that is
    /// `Missing`, it is no id of the question.
    Entry(ObjectId, EntryError),
    /// The contents of the object with this id are no commit that Git could read.
    Unreadable(ObjectId),
    /// The commit with this id is its own ancestor. No digest is known that allows it.
    Cycle(ObjectId),
    /// There are more commits than a graph has positions, or the words of listed parents have no
    /// room.
    Full,
    /// Parts of the graph's files did not suffice while commits were asked for, and the whole graph
    /// is right: it has changed meanwhile. It can be asked again.
    Changed,
}

impl NewerRefusal {
    /// The exit status of the command.
    pub fn status(&self) -> u8
        ensures { result ≡ newer_refusal_status self.now }
    {
        match self {
            NewerRefusal::Common(refusal) => refusal.status(),
            _ => Status::No as u8,
        }
    }
}

impl fmt::Display for NewerRefusal {
    ghost use Rattle.newer_commands.specs.NewerRefusalLines.{newer_refusal_text};

    ghost output = { λ refusal. Some (newer_refusal_text refusal) };

    fn fmt<W: fmt::Write>(&self, f: &mut fmt::Formatter<W>) -> fmt::Result {
        match self {
            NewerRefusal::Common(refusal) => write!(f, "{refusal}"),
            NewerRefusal::Entry(id, error) => {
                write!(f, "refused newer {} id {id}", entry_number(*error))
            }
            NewerRefusal::Unreadable(id) => write!(f, "refused newer 7 id {id}"),
            NewerRefusal::Cycle(id) => write!(f, "refused newer 8 id {id}"),
            NewerRefusal::Full => f.write_str("refused newer 9"),
            NewerRefusal::Changed => f.write_str("refused newer 10"),
        }
    }
}

/// The number of the reason for which what answers a request is refused.
fn entry_number(error: EntryError) -> u8
    ensures { result ≡ newer_entry_number error }
{
    match error {
        EntryError::Ends => 1,
        EntryError::NoEntry => 2,
        EntryError::OtherId => 3,
        EntryError::Missing => 4,
        EntryError::OtherType => 5,
        EntryError::OtherContents => 6,
    }
}
