//! The command `show`, and the lines of a graph.

ghost use Rattle.std.specs.Prelude.{◌≡◌, IfOk, OnOk, fold, max};
ghost use Rattle.std.specs.Io.KnownBytes.{Appends};
ghost use Rattle.graph_walks.specs.Counts.{greatest};
ghost use Rattle.graph_walks.specs.History.{generations};
ghost use Rattle.graph_format.specs.StoredHistory.{history_of};
ghost use Rattle.graph_commands.specs.OpenerAnswer.{MayOpenIn};
ghost use Rattle.graph_commands.specs.WrittenAnswer.{WritesAnswer};
ghost use Rattle.graph_commands.specs.Text.{◌⧺◌};
ghost use Rattle.show_commands.specs.Show.{MayShow, show_text, show_status};
ghost use Rattle.show_commands.specs.Show.{IsCheckVerdict, graph_line, graph_text};
ghost use Rattle.show_commands.specs.Show.{verdict_line, verdict_status};

use crate::checking::check_throughout;
use crate::layer::write_layer;
use gix_commitgraph::Graph;
use gix_commitgraph::opening::open_in;
use graph_commands::line::{WriteFailed, write_line};
use graph_commands::refusal::Refusal;
use graph_commands::run::refuse;
use graph_commands::status::Status;
use graph_folder::folder::Folder;
use graph_layer::fields::generations;
use std::alloc::Global;
use std::io::Write;

/// Shows the graph that the path opens, whether it is right or not.
///
/// It writes the lines of each layer, the lowest first: its number, how many commits it has, the
/// kind of its ids, how many layers are below it, whether it has corrected dates, and how its
/// filters are made, or `none`; its checksum; and the chunks of the format that its file has, each
/// with its number of bytes. Then comes a line of the whole: how many layers and commits there are,
/// and the greatest generation number. The last line is `right`, or the line by which `check`
/// refuses the graph. Where the path opens no graph, only the line that says why is written.
///
/// The answer is the exit status. `WriteFailed` comes where the writer fails.
pub fn run_show<T: Folder, W: Write>(
    alloc: Global,
    folder: &mut T,
    path: &str,
    writer: &mut W,
) -> Result<u8, WriteFailed>
    ensures written { IfOk result (WritesAnswer show_text show_status
        (MayShow (MayOpenIn T.Folder folder.old folder.new path.now))
        (W.contents writer.old) (W.contents writer.new)) }
    ensures tree { T.tree folder.new ≡ T.tree folder.old }
{
    match open_in(alloc, folder, path) {
        Ok(graph) => show(alloc, &graph, writer),
        Err(error) => refuse(writer, &Refusal::Open(error)),
    }
}

/// Writes the lines of a graph, and of what is found of it, and answers the exit status.
/// `WriteFailed` comes where the writer fails.
fn show<W: Write>(alloc: Global, graph: &Graph, writer: &mut W) -> Result<u8, WriteFailed>
    ensures { IfOk result (WritesAnswer
        (λ verdict. graph_text graph.now ⧺ verdict_line verdict) verdict_status
        (IsCheckVerdict graph.now) (W.contents writer.old) (W.contents writer.new)) }
{
    write_graph(writer, graph)?;
    match check_throughout(alloc, graph) {
        Ok(()) => {
            write_line(writer, "right")?;
            Ok(Status::Yes as u8)
        }
        Err(refusal) => {
            write_line(writer, refusal)?;
            Ok(Status::No as u8)
        }
    }
}

/// Writes the lines of a graph's layers, and that of the whole. `WriteFailed` comes where the
/// writer fails.
fn write_graph<W: Write>(writer: &mut W, graph: &Graph) -> Result<(), WriteFailed>
    ensures { OnOk result
        (Appends (W.contents writer.old) (W.contents writer.new) (graph_text graph.now)) }
{
    let layers = graph.layers();
    for number in 0..layers.len() {
        write_layer(writer, number, &layers[number])?;
    }
    write_totals(writer, graph)
}

/// Writes the line of the whole graph. `WriteFailed` comes where the writer fails.
fn write_totals<W: Write>(writer: &mut W, graph: &Graph) -> Result<(), WriteFailed>
    ensures { OnOk result
        (Appends (W.contents writer.old) (W.contents writer.new) (graph_line graph.now)) }
{
    let layers = graph.layers().len();
    let commits = graph.num_commits();
    let generation = greatest_generation(graph);
    write_line(
        writer,
        format_args!("graph layers {layers} commits {commits} generation {generation}"),
    )
}

/// The greatest generation number of a graph, 0 where it has no commits.
fn greatest_generation(graph: &Graph) -> u32
    ensures { result ≡ greatest (generations (history_of graph.now)) }
{
    let mut greatest = 0;
    for file in graph.layers() {
        greatest = greatest_of(greatest, generations(file));
    }
    greatest
}

/// The greatest of a number and others.
fn greatest_of(number: u32, others: &[u32]) -> u32
    ensures { result ≡ fold max number others.now }
{
    let mut greatest = number;
    for other in others {
        greatest = greatest.max(*other);
    }
    greatest
}
