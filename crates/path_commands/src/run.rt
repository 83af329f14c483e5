//! The command `paths`.

ghost use Rattle.std.specs.Prelude.{◌≡◌, ◌≢◌, Err, IfErr, IfOk, OnOk, length};
ghost use Rattle.std.specs.Io.KnownBytes.{Appends};
ghost use Rattle.gix_commitgraph.specs.Graph.{total};
ghost use Rattle.gix_commitgraph.specs.Sound.{Sound};
ghost use Rattle.graph_commands.specs.OpenerAnswer.{MayOpenIn};
ghost use Rattle.graph_commands.specs.Text.{◌⧺◌, newline};
ghost use Rattle.graph_commands.specs.WrittenAnswer.{WritesAnswer};
ghost use Rattle.path_commands.specs.ToldPaths.{AreAskingLines, AreUpTo, IsAskedAndFound};
ghost use Rattle.path_commands.specs.ToldPaths.{IsToldOfError};
ghost use Rattle.path_commands.specs.ToldPaths.{MayFallShort, MayFindPaths};
ghost use Rattle.path_commands.specs.ToldPaths.{MayTellPaths, computed_of, most_trees};
ghost use Rattle.path_commands.specs.ToldPaths.{paths_status, paths_text};
ghost use Rattle.path_commands.specs.ToldPaths.{paths_verdict_status, paths_verdict_text};

use crate::refusal::PathsRefusal;
use crate::standard::Standard;
use gix_commitgraph::Graph;
use graph_chunks::filters::GraphFilters;
use graph_commands::line::{WriteFailed, write_line};
use graph_commands::refusal::Refusal;
use graph_commands::status::Status;
use graph_folder::folder::{Folder, ReadError};
use graph_history::Checked;
use history_commands::CheckRefusal;
use history_commands::opening::open_checked;
use path_checks::{PathsError, check_by_requests, check_written_by_requests};
use std::alloc::Global;
use std::io::{Read, Write};

/// How many trees may be read for a commit, if it is not said how many.
const MOST_TREES: u32 = 1 << 22;

/// How many commits have a filter that was computed, if some layer has filters; or why the filters
/// are not found right.
type PathsVerdict = Result<Option<u32>, PathsRefusal>;

/// Checks the graph that the path opens, as `graphtool verify` does, and holds its changed-path
/// filters against the trees of its commits. Each filter that was computed has to be up to a
/// standard: by `Right` it has to answer as possible what its commit touches; by `Exact` it has to
/// be the one that Git writes, to the last bit. For each commit so many trees may be read, or 2^22
/// where it is not said how many.
///
/// It writes the id of each tree that it needs as a line, and reads its entry, as
/// `git cat-file --batch` writes it. An empty line ends what is asked for. Then it writes how many
/// commits have a filter that was computed, or `filters none`, if all filters are up to the
/// standard; or one line that says why they are not found to be. The answer is the exit status.
/// `WriteFailed` comes where the writer fails.
pub fn run_paths<R: Read, T: Folder, W: Write>(
    alloc: Global,
    reader: &mut R,
    folder: &mut T,
    path: &str,
    standard: Standard,
    trees: Option<u32>,
    writer: &mut W,
) -> Result<u8, WriteFailed>
    ensures written { IfOk result (WritesAnswer paths_text paths_status
        (MayTellPaths standard (most_trees trees) (R.remaining reader.old) (R.remaining reader.new)
        (MayOpenIn T.Folder folder.old folder.new path.now))
        (W.contents writer.old) (W.contents writer.new)) }
    ensures tree { T.tree folder.new ≡ T.tree folder.old }
{
    match open_checked(alloc, folder, path) {
        Ok(graph) => {
            let trees = most_trees(trees);
            check_in(alloc, reader, &graph.as_checked(), standard, trees, writer)
        }
        Err(refusal) => {
            let refusal = PathsRefusal::Common(CheckRefusal::Graph(refusal));
            tell_at_last(&Err(refusal), writer)
        }
    }
}

/// How many trees may be read for a commit.
fn most_trees(asked: Option<u32>) -> usize
    ensures { result ≡ most_trees asked }
{
    asked.unwrap_or(MOST_TREES) as usize
}

/// What is told of a graph that was checked. The answer is the exit status.
fn check_in<R: Read, W: Write>(
    alloc: Global,
    reader: &mut R,
    checked: &Checked<'_>,
    standard: Standard,
    trees: usize,
    writer: &mut W,
) -> Result<u8, WriteFailed>
    ensures { IfOk result (WritesAnswer paths_text paths_status
        (λ told. Sound checked.now.layers
        × MayFindPaths standard trees (R.remaining reader.old) checked.now.layers told.verdict)
        (W.contents writer.old) (W.contents writer.new)) }
{
    // The contract of `num_commits` says that the graph is right.
    let _commits = checked.num_commits();
    let verdict = find(alloc, reader, checked.graph(), standard, trees, writer)?;
    tell_at_last(&verdict, writer)
}

/// What is found of the filters of a right graph. `WriteFailed` comes where the writer fails.
fn find<R: Read, W: Write>(
    alloc: Global,
    reader: &mut R,
    graph: &Graph,
    standard: Standard,
    trees: usize,
    writer: &mut W,
) -> Result<PathsVerdict, WriteFailed>
    requires { Sound graph.now }
    ensures { IfOk result (λ verdict. IsAskedAndFound standard trees (R.remaining reader.old)
        graph.now (W.contents writer.old) (W.contents writer.new) verdict) }
{
    let filters = match GraphFilters::of_graph(alloc, graph) {
        Ok(filters) => filters,
        Err(error) => return Ok(Err(PathsRefusal::Common(CheckRefusal::Filters(error)))),
    };
    match check_against(alloc, reader, graph, &filters, standard, trees, writer) {
        Ok(()) => Ok(Ok(computed(&filters))),
        Err(error) => verdict_of(error),
    }
}

/// Whether the filters of a right graph are up to a standard.
fn check_against<R: Read, W: Write>(
    alloc: Global,
    reader: &mut R,
    graph: &Graph,
    filters: &GraphFilters<'_>,
    standard: Standard,
    trees: usize,
    writer: &mut W,
) -> Result<(), PathsError>
    requires sound { Sound graph.now }
    requires filters { length filters.now.filters ≡ total graph.now }
    ensures written { result ≢ Err PathsError.WriteFailed
        → AreAskingLines (W.contents writer.old) (W.contents writer.new) }
    ensures met { OnOk result
        (AreUpTo standard (R.remaining reader.old) graph.now filters.now) }
    ensures refused { IfErr result
        (MayFallShort standard (R.remaining reader.old) trees graph.now filters.now) }
{
    match standard {
        Standard::Right => check_by_requests(alloc, graph, filters, trees, reader, writer),
        Standard::Exact => check_written_by_requests(alloc, graph, filters, trees, reader, writer),
    }
}

/// How many filters were computed, if some layer has filters.
fn computed(filters: &GraphFilters<'_>) -> Option<u32>
    ensures { result ≡ computed_of filters.now }
{
    match filters.settings() {
        Some(_) => Some(filters.computed()),
        None => None,
    }
}

/// What is told of the error of a check. `WriteFailed` comes exactly where a write failed.
fn verdict_of(error: PathsError) -> Result<PathsVerdict, WriteFailed>
    ensures { IsToldOfError error result }
{
    match error {
        PathsError::Filter(pos, fault) => Ok(Err(PathsRefusal::Filter(pos, fault))),
        PathsError::Device => {
            let device = Refusal::Read(ReadError::Device);
            Ok(Err(PathsRefusal::Common(CheckRefusal::Graph(device))))
        }
        PathsError::OutOfMemory => {
            Ok(Err(PathsRefusal::Common(CheckRefusal::Graph(Refusal::Walk))))
        }
        PathsError::WriteFailed => Err(WriteFailed),
    }
}

/// Writes an empty line, which ends what is asked for, and then what is found, and answers the exit
/// status. `WriteFailed` comes where the writer fails.
fn tell_at_last<W: Write>(verdict: &PathsVerdict, writer: &mut W) -> Result<u8, WriteFailed>
    ensures { IfOk result (λ status. (status ≡ paths_verdict_status verdict.now)
        × Appends (W.contents writer.old) (W.contents writer.new)
        (newline ⧺ paths_verdict_text verdict.now)) }
{
    writer.write_all(b"\n")?;
    match verdict {
        Ok(Some(commits)) => {
            write_line(writer, format_args!("filters commits {commits}"))?;
            Ok(Status::Yes as u8)
        }
        Ok(None) => {
            write_line(writer, "filters none")?;
            Ok(Status::Yes as u8)
        }
        Err(refusal) => {
            write_line(writer, refusal)?;
            Ok(Status::No as u8)
        }
    }
}
