//! The command `check`, and the lines that it writes. Writing them allocates nothing.

ghost use Rattle.std.specs.Prelude.{◌≡◌, Some, IfErr, IfOk, OnOk, Ok};
ghost use Rattle.std.specs.BTreeMap.{IsOrdered};
ghost use Rattle.std.specs.Io.KnownBytes.{Appends};
ghost use Rattle.std.specs.Ordering.{nat_cmp};
ghost use Rattle.gix_commitgraph.specs.Sound.{Sound};
ghost use Rattle.graph_commands.specs.WrittenAnswer.{WritesAnswer};
ghost use Rattle.graph_commands.specs.OpenerAnswer.{MayOpenIn};
ghost use Rattle.graph_commands.specs.Report.{outcome_text};
ghost use Rattle.graph_commands.specs.Text.{◌⧺◌};
ghost use Rattle.history_commands.specs.Check.{AreChunksFound, AreDatesFound, AreFiltersFound};
ghost use Rattle.history_commands.specs.Check.{MayFindInAll, MayRefuseChunks, MayRefuseDates};
ghost use Rattle.history_commands.specs.Check.{MayRefuseFilters, MayRefuseToCheck};
ghost use Rattle.history_commands.specs.Check.{check_status, check_text, chunks_found_text};
ghost use Rattle.history_commands.specs.Check.{commits_line};

use crate::opening::open_checked;
use gix_commitgraph::Graph;
use gix_commitgraph::verify::Outcome;
use graph_chunks::dates::{CorrectedDates, DatesError};
use graph_chunks::filters::{FiltersError, GraphFilters};
use graph_commands::line::{WriteFailed, write_line};
use graph_commands::refusal::Refusal;
use graph_commands::report::write_outcome;
use graph_commands::status::Status;
use graph_folder::folder::Folder;
use graph_history::CheckedGraph;
use std::alloc::Global;
use std::fmt;
use std::io::Write;

/// What is found of the further chunks of a graph.
#[derive(Clone, Copy, Debug)]
pub struct ChunksFound {
    /// How many commits have a corrected date: all of them, or `None` where some layer has no
    /// dates.
    pub dates: Option<u32>,
    /// How many commits have a changed-path filter that was computed, or `None` where no layer has
    /// filters.
    pub filters: Option<u32>,
}

/// Why `check` refuses what a path opens. It is displayed as its line, without the line's end.
#[derive(Debug, Drop)]
pub enum CheckRefusal {
    /// No graph was opened, or it fails the check.
    Graph(Refusal),
    /// Its corrected dates are refused.
    Dates(DatesError),
    /// Its changed-path filters are refused.
    Filters(FiltersError),
}

impl From<Refusal> for CheckRefusal {
    ghost use Rattle.history_commands.specs.declared.check.CheckRefusal.TheVariants.{Graph};

    ghost from_gives = { λ refusal found. found ≡ Graph refusal };

    fn from(refusal: Refusal) -> CheckRefusal {
        CheckRefusal::Graph(refusal)
    }
}

impl From<DatesError> for CheckRefusal {
    ghost use Rattle.history_commands.specs.declared.check.CheckRefusal.TheVariants.{Dates};

    ghost from_gives = { λ error found. found ≡ Dates error };

    fn from(error: DatesError) -> CheckRefusal {
        CheckRefusal::Dates(error)
    }
}

impl From<FiltersError> for CheckRefusal {
    ghost use Rattle.history_commands.specs.declared.check.CheckRefusal.TheVariants.{Filters};

    ghost from_gives = { λ error found. found ≡ Filters error };

    fn from(error: FiltersError) -> CheckRefusal {
        CheckRefusal::Filters(error)
    }
}

impl fmt::Display for CheckRefusal {
    ghost use Rattle.history_commands.specs.Check.{check_refusal_text};

    ghost output = { λ refusal. Some (check_refusal_text refusal) };

    fn fmt<W: fmt::Write>(&self, f: &mut fmt::Formatter<W>) -> fmt::Result {
        match self {
            CheckRefusal::Graph(refusal) => write!(f, "{refusal}"),
            CheckRefusal::Dates(error) => write!(f, "refused dates {}", DatesText(*error)),
            CheckRefusal::Filters(error) => write!(f, "refused filters {}", FiltersText(*error)),
        }
    }
}

/// Why dates are refused: what stands after `refused dates`.
#[derive(Clone, Copy)]
struct DatesText(DatesError);

impl fmt::Display for DatesText {
    ghost use Rattle.history_commands.specs.Check.{dates_text};

    ghost output = { λ text. Some (dates_text text.0) };

    fn fmt<W: fmt::Write>(&self, f: &mut fmt::Formatter<W>) -> fmt::Result {
        match self.0 {
            DatesError::DataSize { layer } => write!(f, "1 layer {layer}"),
            DatesError::OverflowSize { layer } => write!(f, "2 layer {layer}"),
            DatesError::OverflowIndex { pos } => write!(f, "3 position {}", pos.0),
            DatesError::TooLarge { pos } => write!(f, "4 position {}", pos.0),
            DatesError::Date { pos, expected } => {
                write!(f, "5 position {} expected {expected}", pos.0)
            }
            DatesError::OutOfMemory => f.write_str("6"),
        }
    }
}

/// Why filters are refused: what stands after `refused filters`.
#[derive(Clone, Copy)]
struct FiltersText(FiltersError);

impl fmt::Display for FiltersText {
    ghost use Rattle.history_commands.specs.Check.{filters_text};

    ghost output = { λ text. Some (filters_text text.0) };

    fn fmt<W: fmt::Write>(&self, f: &mut fmt::Formatter<W>) -> fmt::Result {
        match self.0 {
            FiltersError::IndexSize { layer } => write!(f, "1 layer {layer}"),
            FiltersError::DataSize { layer } => write!(f, "2 layer {layer}"),
            FiltersError::Version { layer, version } => {
                write!(f, "3 layer {layer} version {version}")
            }
            FiltersError::Hashes { layer, .. } => write!(f, "4 layer {layer}"),
            FiltersError::NoBits { layer } => write!(f, "5 layer {layer}"),
            FiltersError::Falls { pos } => write!(f, "6 position {}", pos.0),
            FiltersError::PastEnd { pos } => write!(f, "7 position {}", pos.0),
            FiltersError::LeftOver { layer } => write!(f, "8 layer {layer}"),
            FiltersError::Settings { layer } => write!(f, "9 layer {layer}"),
            FiltersError::OutOfMemory => f.write_str("10"),
        }
    }
}

/// Checks the graph that the path opens, as `graphtool verify` does, and then its corrected commit
/// dates and its changed-path filters.
///
/// It writes the lines of `verify`; then how many commits have a corrected date, or `none` where
/// some layer has no dates; then how many commits have a filter that was computed, or `none` where
/// no layer has filters. Or it writes one line that says why the graph is refused: for what
/// `verify` refuses, or else for its dates, or else for its filters. The answer is the exit status.
/// `WriteFailed` comes where the writer fails.
pub fn run_check<T: Folder, W: Write>(
    alloc: Global,
    folder: &mut T,
    path: &str,
    writer: &mut W,
) -> Result<u8, WriteFailed>
    ensures written { IfOk result (WritesAnswer check_text check_status
        (MayFindInAll (MayOpenIn T.Folder folder.old folder.new path.now))
        (W.contents writer.old) (W.contents writer.new)) }
    ensures tree { T.tree folder.new ≡ T.tree folder.old }
{
    match check(alloc, folder, path) {
        Ok((graph, chunks)) => {
            write_findings(writer, graph.as_checked().outcome(), chunks)?;
            Ok(Status::Yes as u8)
        }
        Err(refusal) => {
            write_line(writer, refusal)?;
            Ok(Status::No as u8)
        }
    }
}

/// Writes the lines of what is found. Each line is written at once. `WriteFailed` comes where the
/// writer fails.
fn write_findings<W: Write>(
    writer: &mut W,
    outcome: &Outcome,
    chunks: ChunksFound,
) -> Result<(), WriteFailed>
    ensures written { OnOk result (Appends (W.contents writer.old) (W.contents writer.new)
        (outcome_text outcome.now ⧺ chunks_found_text chunks)) }
    ensures ascending { OnOk result (IsOrdered nat_cmp outcome.now.parent_counts) }
{
    write_outcome(writer, outcome)?;
    write_count(writer, "dates", chunks.dates)?;
    write_count(writer, "filters", chunks.filters)
}

/// Writes how many commits have what is counted, or `none`. `WriteFailed` comes where the writer
/// fails.
fn write_count<W: Write>(
    writer: &mut W,
    counted: &str,
    commits: Option<u32>,
) -> Result<(), WriteFailed>
    ensures { OnOk result (Appends (W.contents writer.old) (W.contents writer.new)
        (commits_line counted.now commits)) }
{
    match commits {
        Some(commits) => write_line(writer, format_args!("{counted} commits {commits}")),
        None => write_line(writer, format_args!("{counted} none")),
    }
}

/// The graph that the path opens, which was checked, and what its further chunks have.
fn check<T: Folder>(
    alloc: Global,
    folder: &mut T,
    path: &str,
) -> Result<(CheckedGraph, ChunksFound), CheckRefusal>
    ensures opened { IfOk result (λ checked.
        MayOpenIn T.Folder folder.old folder.new path.now (Ok checked.0.layers)) }
    ensures chunks { IfOk result (λ checked. AreChunksFound checked.0.layers checked.1) }
    ensures refused { IfErr result (MayRefuseToCheck
        (MayOpenIn T.Folder folder.old folder.new path.now)) }
    ensures tree { T.tree folder.new ≡ T.tree folder.old }
{
    let graph = open_checked(alloc, folder, path)?;
    let chunks = check_chunks(alloc, graph.as_checked().graph())?;
    Ok((graph, chunks))
}

/// Checks the further chunks of a graph that is right, as `check` does: its corrected dates, and
/// then its changed-path filters.
///
/// # Errors
///
/// `Dates`, the first fault of the dates, where each layer has some; else `Filters`, that of the
/// filters. Each comes also where memory ran out for it.
pub fn check_chunks(alloc: Global, graph: &Graph) -> Result<ChunksFound, CheckRefusal>
    requires { Sound graph.now }
    ensures found { IfOk result (AreChunksFound graph.now) }
    ensures refused { IfErr result (MayRefuseChunks graph.now) }
{
    let dates = count_dates(alloc, graph)?;
    let filters = count_filters(alloc, graph)?;
    Ok(ChunksFound { dates, filters })
}

/// How many commits have a corrected date, if each layer has dates, in a graph that is right.
#[tactic(auto, unfolding(crate::specs::Check::MayRefuseDates))]
fn count_dates(alloc: Global, graph: &Graph) -> Result<Option<u32>, DatesError>
    requires { Sound graph.now }
    ensures found { IfOk result (AreDatesFound graph.now) }
    ensures refused { IfErr result (MayRefuseDates graph.now) }
{
    match CorrectedDates::of_graph(alloc, graph) {
        Ok(Some(_dates)) => Ok(Some(graph.num_commits())),
        Ok(None) => Ok(None),
        Err(error) => Err(error),
    }
}

/// How many commits have a filter that was computed, if some layer has filters.
#[tactic(auto, unfolding(crate::specs::Check::MayRefuseFilters))]
fn count_filters(alloc: Global, graph: &Graph) -> Result<Option<u32>, FiltersError>
    ensures found { IfOk result (AreFiltersFound graph.now) }
    ensures refused { IfErr result (MayRefuseFilters graph.now) }
{
    match GraphFilters::of_graph(alloc, graph) {
        Ok(filters) if filters.settings().is_some() => Ok(Some(filters.computed())),
        Ok(_) => Ok(None),
        Err(error) => Err(error),
    }
}
