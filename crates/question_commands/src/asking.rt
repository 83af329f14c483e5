//! The command `ask`: many questions about the graph at a path, one a line.

ghost use Rattle.std.specs.Prelude.{◌≡◌, ◌+◌, [], ℕ, List, Option, Ok, IfErr, IfOk, OnOk, map};
ghost use Rattle.std.specs.Io.KnownBytes.{Appends, prepend_known};
ghost use Rattle.std.specs.List.{flat_map};
ghost use Rattle.gix_commitgraph.specs.Sound.{Sound};
ghost use Rattle.graph_commands.specs.Text.{◌⧺◌, newline};
ghost use Rattle.graph_folder.specs.Tree.{Tree};
ghost use Rattle.graph_history.specs.RightGraph.{plain_options};
ghost use Rattle.history_commands.specs.Check.{MayRefuseToStart};
ghost use Rattle.question_commands.specs.ReadOpening.{MayOpenAsRead};
ghost use Rattle.question_answers.specs.AnsweredLines.{AreAnswered, MayBeTold, StopsAt};
ghost use Rattle.question_answers.specs.AnsweredLines.{TellsStill};
ghost use Rattle.question_answers.specs.ReadLines.{AreLinesOf};
ghost use Rattle.question_answers.specs.Taken.{end_text, end_status, taken_line};
ghost use Rattle.question_commands.specs.Asking.{AreTurns, MayAsk, OpensAnew, State, Turn};
ghost use Rattle.question_commands.specs.Asking.{all_checked, turn_text};
ghost use Rattle.question_commands.specs.ChangingTrees.{MayOpenAmong, tree_after};
ghost use Rattle.question_commands.specs.Ending.{EndsAsked};

use crate::others::Others;
use crate::taking::take_anew;
use gix_commitgraph::opening::open_in;
use graph_commands::buffer::Buffer;
use graph_commands::line::WriteFailed;
use graph_commands::refusal::Refusal;
use graph_commands::run::refuse;
use graph_folder::folder::{Folder, ReadError};
use graph_history::CheckedGraph;
use history_commands::asker::CheckedAsker;
use question_answers::answering::{Next, answer_by};
use question_answers::turn::{end, write_count, write_refused};
use question_lines::lines::LineReader;
use std::alloc::Global;
use std::io::{Read, Write};

/// What came of questions about the graph at a path.
#[derive(Debug, Drop, PartialEq, Eq)]
pub struct Asked {
    /// The exit status: 1 where the graph was refused, or the lines were not read to their end.
    pub status: u8,
    /// How many commits were checked in all where `reload` took a graph, at most `u64::MAX`.
    pub checked: u64,
}

/// How the lines of an input ended.
#[derive(Drop)]
struct Ended {
    /// Why no further line could be read, if that is how they ended.
    failed: Option<ReadError>,
    /// How many commits were checked in all where `reload` took a graph.
    checked: u64,
}

/// Opens the graph at the path and checks it, writes how many commits it has, and answers the
/// questions that the reader gives, one a line, each before it waits for the next.
///
/// A question is `find ID`, `is-ancestor ID ID`, `walk ID ID`, `merge-base ID ID..` or
/// `parents ID`, with ids in hexadecimal digits of either case, and its answer has the lines that
/// the command of that name writes. For `reload` the path is opened anew and checked, and the graph
/// answers from then on, unless it is refused. Any other line is answered by `refused question`.
/// Each answer ends with an empty line, and is flushed with it.
///
/// Others may change what stands at the path while questions are answered: they have a turn before
/// each time that it is opened anew, and what is opened is what stands there then. Where it is not
/// known what stands there, others may write at any time: each graph that is opened, at first and
/// for each `reload`, has layers that are files which were there, as reads gave them.
///
/// Where the lowest layers of a graph that is opened anew are those of the graph that stands, with
/// the same bytes and the same paths, only the commits above them are checked.
///
/// Where the graph is refused at first, one line is written that says why, and nothing is read.
/// Where a read fails, or there is no memory for a line, such a line ends the answers.
/// `WriteFailed` comes where the writer fails.
pub fn run_ask<R: Read, T: Folder, E: Others<T>, W: Write>(
    alloc: Global,
    reader: &mut R,
    folder: &mut T,
    others: &mut E,
    path: &str,
    writer: &mut W,
) -> Result<Asked, WriteFailed>
    ensures written { IfOk result (EndsAsked
        (MayAsk (MayOpenAmong (E.makes others.old) (T.tree folder.old) T.gives path.now)
        (T.failure_count folder.old) (T.failure_count folder.new)
        (R.remaining reader.old) (R.remaining reader.new))
        (W.contents writer.old) (W.contents writer.new)) }
    ensures tree { (turns : ℕ) × (T.tree folder.new
        ≡ tree_after (E.makes others.old) (T.tree folder.old) turns) }
{
    match open_first(alloc, folder, path) {
        Ok(graph) => {
            write_taken(writer, &graph)?;
            let ended = answer_all(alloc, reader, folder, others, path, writer, graph)?;
            finish_all(writer, ended)
        }
        Err(refusal) => Ok(Asked {
            status: refuse(writer, &refusal)?,
            checked: 0,
        }),
    }
}

/// Opens the graph at the path, and checks it. Others may write meanwhile: the graph is one that
/// was read, also where its check refuses it.
fn open_first<T: Folder>(alloc: Global, folder: &mut T, path: &str) -> Result<CheckedGraph, Refusal>
    ensures opened { IfOk result (λ graph. MayOpenAsRead (T.tree folder.old) T.gives path.now
        (T.failure_count folder.old) (T.failure_count folder.new) (Ok graph.layers)) }
    ensures right { IfOk result (λ graph. Sound graph.layers) }
    ensures options { IfOk result (λ graph. graph.options ≡ plain_options) }
    ensures refused { IfErr result (MayRefuseToStart (MayOpenAsRead (T.tree folder.old) T.gives
        path.now (T.failure_count folder.old) (T.failure_count folder.new))) }
    ensures tree { T.tree folder.new ≡ T.tree folder.old }
{
    let graph = open_in(alloc, folder, path)?;
    Ok(CheckedGraph::new(alloc, graph)?)
}

/// Writes why the lines ended, if a read failed.
fn finish_all<W: Write>(writer: &mut W, ended: Ended) -> Result<Asked, WriteFailed>
    ensures { IfOk result (λ asked. Appends (W.contents writer.old) (W.contents writer.new)
        (end_text ended.failed) × (asked.status ≡ end_status ended.failed)
        × (asked.checked ≡ ended.checked)) }
{
    let Ended { failed, checked } = ended;
    Ok(Asked {
        status: end(writer, failed)?,
        checked,
    })
}

/// Writes how many commits a graph has, and an empty line.
fn write_taken<W: Write>(writer: &mut W, graph: &CheckedGraph) -> Result<(), WriteFailed>
    ensures { OnOk result (Appends (W.contents writer.old) (W.contents writer.new)
        (taken_line (Ok graph.now.layers) ⧺ newline)) }
{
    write_count(writer, graph.as_checked().num_commits())
}

/// Answers all lines, over the graph or those that are taken in its place.
fn answer_all<R: Read, T: Folder, E: Others<T>, W: Write>(
    alloc: Global,
    reader: &mut R,
    folder: &mut T,
    others: &mut E,
    path: &str,
    writer: &mut W,
    graph: CheckedGraph,
) -> Result<Ended, WriteFailed>
    requires options { graph.options ≡ plain_options }
    ensures answered { IfOk result (λ ended. (turns : List Turn) × (last : State)
        × AreTurns (MayOpenAmong (E.makes others.old) (T.tree folder.old) T.gives path.now)
        (record { layers = graph.layers; failures = T.failure_count folder.old; reloads = 0 })
        last turns
        × (last.failures ≡ T.failure_count folder.new)
        × AreLinesOf (R.remaining reader.old) (R.remaining reader.new)
        (map (λ turn. turn.line) turns) ended.failed
        × Appends (W.contents writer.old) (W.contents writer.new) (flat_map turn_text turns)
        × (ended.checked ≡ all_checked turns)) }
    ensures tree { (turns : ℕ) × (T.tree folder.new
        ≡ tree_after (E.makes others.old) (T.tree folder.old) turns) }
{
    let (Ok(mut lines), Ok(mut buffer)) = (LineReader::new(alloc), Buffer::new(alloc)) else {
        return Ok(Ended {
            failed: Some(ReadError::OutOfMemory),
            checked: 0,
        });
    };
    answer_lines(
        alloc,
        &mut lines,
        reader,
        folder,
        others,
        path,
        &mut buffer,
        writer,
        graph,
    )
}

/// Answers lines as `answer_all` does, with a reader of lines that has read none, and a buffer that
/// has nothing.
fn answer_lines<R: Read, T: Folder, E: Others<T>, W: Write>(
    alloc: Global,
    lines: &mut LineReader,
    reader: &mut R,
    folder: &mut T,
    others: &mut E,
    path: &str,
    buffer: &mut Buffer,
    writer: &mut W,
    graph: CheckedGraph,
) -> Result<Ended, WriteFailed>
    requires lines { lines.old.ahead ≡ [] }
    requires buffer { buffer.old ≡ [] }
    requires options { graph.options ≡ plain_options }
    ensures answered { IfOk result (λ ended. (turns : List Turn) × (last : State)
        × AreTurns (MayOpenAmong (E.makes others.old) (T.tree folder.old) T.gives path.now)
        (record { layers = graph.layers; failures = T.failure_count folder.old; reloads = 0 })
        last turns
        × (last.failures ≡ T.failure_count folder.new)
        × AreLinesOf (R.remaining reader.old) (R.remaining reader.new)
        (map (λ turn. turn.line) turns) ended.failed
        × Appends (W.contents writer.old) (W.contents writer.new) (flat_map turn_text turns)
        × (ended.checked ≡ all_checked turns)) }
    ensures tree { (turns : ℕ) × (T.tree folder.new
        ≡ tree_after (E.makes others.old) (T.tree folder.old) turns) }
{
    let (mut graph, mut checked) = (graph, 0u64);
    for _ in 0..u64::MAX {
        let next = answer_over(alloc, &graph, folder, lines, reader, buffer, writer)?;
        match next {
            Next::End => {
                return Ok(Ended {
                    failed: None,
                    checked,
                });
            }
            Next::Failed(error) => {
                return Ok(Ended {
                    failed: Some(error),
                    checked,
                });
            }
            Next::Reload => {
                let taken = reload(alloc, folder, others, path, writer, &mut graph)?;
                checked = checked.saturating_add(taken as u64);
            }
        }
    }
    Ok(Ended {
        failed: Some(ReadError::Device),
        checked,
    })
}

/// Answers lines over a graph, until none is left, or one asks for the graph to be opened anew.
fn answer_over<R: Read, T: Folder, W: Write>(
    alloc: Global,
    graph: &CheckedGraph,
    folder: &mut T,
    lines: &mut LineReader,
    reader: &mut R,
    buffer: &mut Buffer,
    writer: &mut W,
) -> Result<Next, WriteFailed>
    requires { buffer.old ≡ [] }
    ensures answered { IfOk result (λ next. (left : Option (List ℕ))
        × AreAnswered (MayBeTold (TellsStill graph.now.layers))
        (T.failure_count folder.old) (T.failure_count folder.new)
        (prepend_known lines.old.ahead (R.remaining reader.old)) left
        (W.contents writer.old) (W.contents writer.new)
        × StopsAt left (prepend_known lines.new.ahead (R.remaining reader.new)) next) }
    ensures buffer { OnOk result (buffer.new ≡ []) }
    ensures tree { T.tree folder.new ≡ T.tree folder.old }
{
    let checked = graph.as_checked();
    let mut asker = CheckedAsker::new(alloc, &checked);
    answer_by(alloc, &mut asker, folder, lines, reader, buffer, writer)
}

/// Gives others their turn, opens the graph at the path anew, and tells that. The graph that stands
/// then is the new one, or where that was refused the one before. It answers how many commits were
/// checked.
fn reload<T: Folder, E: Others<T>, W: Write>(
    alloc: Global,
    folder: &mut T,
    others: &mut E,
    path: &str,
    writer: &mut W,
    graph: &mut CheckedGraph,
) -> Result<u32, WriteFailed>
    requires { graph.old.options ≡ plain_options }
    ensures told { IfOk result (λ checked. (told : List ℕ)
        × OpensAnew (MayOpenAsRead (T.tree folder.new) T.gives path.now
        (T.failure_count folder.old) (T.failure_count folder.new))
        graph.old.layers told checked graph.new.layers
        × Appends (W.contents writer.old) (W.contents writer.new) (told ⧺ newline)) }
    ensures options { graph.new.options ≡ plain_options }
    ensures tree { T.tree folder.new ≡ E.makes others.old 0 (T.tree folder.old) }
    ensures later { (turn : ℕ) (tree : Option Tree)
        → E.makes others.new turn tree ≡ E.makes others.old (turn + 1) tree }
{
    others.act(folder);
    match take_anew(alloc, folder, path, graph) {
        Ok(checked) => {
            write_taken(writer, graph)?;
            Ok(checked)
        }
        Err(refusal) => {
            write_refused(writer, &refusal)?;
            Ok(0)
        }
    }
}
