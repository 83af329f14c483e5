//! The lines of what a check and a search found. Writing them allocates nothing.

ghost use Rattle.std.specs.Prelude.{Some, OnOk};
ghost use Rattle.std.specs.BTreeMap.{IsOrdered};
ghost use Rattle.std.specs.Io.KnownBytes.{Appends};
ghost use Rattle.std.specs.Ordering.{nat_cmp};
ghost use Rattle.graph_commands.specs.Report.{outcome_text};

use crate::line::{WriteFailed, write_line};
use gix_commitgraph::Position;
use gix_commitgraph::verify::Outcome;
use std::fmt;
use std::io::Write;

/// Writes what the check of a graph found: a line for the whole, and one for each number of parents
/// that some commit has, ascending. Each line is written at once. `WriteFailed` comes where the
/// writer fails.
pub fn write_outcome<W: Write>(writer: &mut W, outcome: &Outcome) -> Result<(), WriteFailed>
    ensures written { OnOk result (Appends (W.contents writer.old) (W.contents writer.new)
        (outcome_text outcome.now)) }
    ensures ascending { OnOk result (IsOrdered nat_cmp outcome.now.parent_counts) }
{
    let commits = outcome.num_commits;
    let longest = LongestText(outcome.longest_path_length);
    write_line(
        writer,
        format_args!("ok commits {commits} longest {longest}"),
    )?;
    for (parents, commits) in &outcome.parent_counts {
        write_line(writer, format_args!("parents {parents} commits {commits}"))?;
    }
    Ok(())
}

/// A length, or that there is none.
#[derive(Clone, Copy)]
struct LongestText(Option<u32>);

impl fmt::Display for LongestText {
    ghost use Rattle.graph_commands.specs.Report.{longest_text};

    ghost output = { λ text. Some (longest_text text.0) };

    fn fmt<W: fmt::Write>(&self, f: &mut fmt::Formatter<W>) -> fmt::Result {
        match self.0 {
            Some(longest) => write!(f, "{longest}"),
            None => f.write_str("none"),
        }
    }
}

/// A commit that was found. It is displayed as its line, without the line's end.
#[derive(Clone, Copy, Debug, PartialEq, Eq)]
pub struct Found {
    /// Its position in the graph.
    pub pos: Position,
    /// Its generation number.
    pub generation: u32,
    /// Its committer's time, in seconds since the start of 1970 in UTC.
    pub time: u64,
}

impl fmt::Display for Found {
    ghost use Rattle.graph_commands.specs.Report.{commit_text};

    ghost output = { λ found. Some (commit_text found) };

    fn fmt<W: fmt::Write>(&self, f: &mut fmt::Formatter<W>) -> fmt::Result {
        let Found {
            pos: Position(pos),
            generation,
            time,
        } = *self;
        write!(f, "position {pos} generation {generation} time {time}")
    }
}
