//! The line that says why the filters of a graph are not found right.

ghost use Rattle.std.specs.Prelude.{◌≡◌, Some};
ghost use Rattle.path_commands.specs.PathsLines.{fault_number, paths_entry_number};

use crate::quoted::Quoted;
use gix_commitgraph::Position;
use history_commands::CheckRefusal;
use object_stream::EntryError;
use path_checks::PathsFault;
use std::fmt;

/// Why the filters of a graph are not found right. It is displayed as its line, without the line's
/// end.
#[derive(Debug, Drop)]
pub enum PathsRefusal {
    /// What `check` says of no right graph, or of filters that are refused whatever the trees are;
    /// or a read of the input failed, or memory ran out.
    Common(CheckRefusal),
    /// The filter of the commit at this position is the first that is refused, and why.
    Filter(Position, PathsFault),
}

impl fmt::Display for PathsRefusal {
    ghost use Rattle.path_commands.specs.PathsLines.{paths_refusal_text};

    ghost output = { λ refusal. Some (paths_refusal_text refusal) };

    fn fmt<W: fmt::Write>(&self, f: &mut fmt::Formatter<W>) -> fmt::Result {
        match self {
            PathsRefusal::Common(refusal) => write!(f, "{refusal}"),
            PathsRefusal::Filter(pos, fault) => {
                let number = fault_number(fault);
                let text = FaultDetails(fault);
                write!(f, "refused paths {number} position {}{text}", pos.0)
            }
        }
    }
}

/// What is told of a fault besides its number and the position.
#[derive(Clone, Copy)]
struct FaultDetails<'a>(&'a PathsFault);

impl fmt::Display for FaultDetails<'_> {
    ghost use Rattle.path_commands.specs.PathsLines.{fault_details};

    ghost output = { λ text. Some (fault_details text.0.now) };

    fn fmt<W: fmt::Write>(&self, f: &mut fmt::Formatter<W>) -> fmt::Result {
        match self.0 {
            PathsFault::Entry(id, _) => write!(f, " id {id}"),
            PathsFault::Unreadable(id, entry) => write!(f, " entry {entry} id {id}"),
            PathsFault::Order(id, entry) => write!(f, " entry {entry} id {id}"),
            PathsFault::TooDeep => f.write_str(""),
            PathsFault::TooMuch => f.write_str(""),
            PathsFault::Lacks(path) => {
                let path = Quoted(path);
                write!(f, " path {path}")
            }
            PathsFault::Differs => f.write_str(""),
            PathsFault::Other => f.write_str(""),
        }
    }
}

/// The number of the reason for which the filter of a commit is refused.
fn fault_number(fault: &PathsFault) -> u8
    ensures { result ≡ fault_number fault.now }
{
    match fault {
        PathsFault::Entry(_, error) => entry_number(*error),
        PathsFault::Unreadable(..) => 7,
        PathsFault::Order(..) => 8,
        PathsFault::TooDeep => 9,
        PathsFault::TooMuch => 10,
        PathsFault::Lacks(_) => 11,
        PathsFault::Differs => 12,
        PathsFault::Other => 13,
    }
}

/// The number of the reason for which what answers a request is refused.
fn entry_number(error: EntryError) -> u8
    ensures { result ≡ paths_entry_number error }
{
    match error {
        EntryError::Ends => 1,
        EntryError::NoEntry => 2,
        EntryError::OtherId => 3,
        EntryError::Missing => 4,
        EntryError::OtherType => 5,
        EntryError::OtherContents => 6,
    }
}
