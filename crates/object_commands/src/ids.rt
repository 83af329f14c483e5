//! The command `ids`, and the lines that it writes. Writing them allocates nothing.

ghost use Rattle.std.specs.Prelude.{◌≡◌, [], Err, IfErr, IfOk, Ok, OnOk};
ghost use Rattle.std.specs.Io.KnownBytes.{Appends};
ghost use Rattle.std.specs.List.{flat_map};
ghost use Rattle.graph_commands.specs.WrittenAnswer.{WritesAnswer};
ghost use Rattle.graph_commands.specs.OpenerAnswer.{MayOpenIn};
ghost use Rattle.object_commands.specs.AskedRange.{IsRangeOf, asked_range};
ghost use Rattle.object_commands.specs.CommitIds.{MayListIds, ids_in_range, line_of_id};
ghost use Rattle.object_commands.specs.CommitIds.{ids_text, ids_status};

use crate::range::PositionRange;
use crate::refusal::ObjectsRefusal;
use gix_commitgraph::opening::{OpenError, open_in};
use gix_commitgraph::{Graph, Position};
use graph_commands::buffer::Buffer;
use graph_commands::line::{WriteFailed, write_line};
use graph_commands::status::Status;
use graph_folder::folder::Folder;
use std::alloc::Global;
use std::io::Write;

/// Writes the ids of the commits of the graph that the path opens, by position, a line for each:
/// those at the positions of the range, or all where none is given. The graph is not checked.
///
/// Or it writes one line that says why no graph was opened, or that the graph lacks positions of
/// the range. The answer is the exit status. `WriteFailed` comes where the writer fails.
pub fn run_ids<T: Folder, W: Write>(
    alloc: Global,
    folder: &mut T,
    path: &str,
    range: Option<PositionRange>,
    writer: &mut W,
) -> Result<u8, WriteFailed>
    ensures written { IfOk result (WritesAnswer ids_text ids_status
        (MayListIds range (MayOpenIn T.Folder folder.old folder.new path.now))
        (W.contents writer.old) (W.contents writer.new)) }
    ensures tree { T.tree folder.new ≡ T.tree folder.old }
{
    match prepare(alloc, folder, path, range) {
        Ok((graph, range, mut buffer)) => {
            write_ids(&mut buffer, writer, &graph, range)?;
            Ok(Status::Yes as u8)
        }
        Err(refusal) => {
            write_line(writer, refusal)?;
            Ok(Status::No as u8)
        }
    }
}

/// The graph that the path opens, the positions of it that are asked for, and a buffer to write
/// their ids with. The buffer is there before anything is opened.
fn prepare<T: Folder>(
    alloc: Global,
    folder: &mut T,
    path: &str,
    range: Option<PositionRange>,
) -> Result<(Graph, PositionRange, Buffer), ObjectsRefusal>
    ensures opened { IfOk result (λ prepared.
        MayOpenIn T.Folder folder.old folder.new path.now (Ok prepared.0)) }
    ensures range { IfOk result (λ prepared. (prepared.1 ≡ asked_range prepared.0 range)
        × IsRangeOf prepared.0 prepared.1) }
    ensures buffer { IfOk result (λ prepared. prepared.2 ≡ []) }
    ensures refused { IfErr result (λ refusal. MayListIds range
        (MayOpenIn T.Folder folder.old folder.new path.now)
        (Err refusal)) }
    ensures tree { T.tree folder.new ≡ T.tree folder.old }
{
    let buffer = Buffer::new(alloc).map_err(|_| OpenError::OutOfMemory)?;
    let graph = open_in(alloc, folder, path)?;
    let range = PositionRange::of_graph(&graph, range)?;
    Ok((graph, range, buffer))
}

/// Writes the ids at the positions of a range, a line for each.
fn write_ids<W: Write>(
    buffer: &mut Buffer,
    writer: &mut W,
    graph: &Graph,
    range: PositionRange,
) -> Result<(), WriteFailed>
    requires empty { buffer.old ≡ [] }
    requires within { IsRangeOf graph.now range }
    ensures { OnOk result (Appends (W.contents writer.old) (W.contents writer.new)
        (flat_map line_of_id (ids_in_range graph.now range))) }
{
    for number in range.from..range.to {
        buffer.push_id(writer, graph.id_at(Position(number)))?;
        buffer.push_byte(writer, b'\n')?;
    }
    buffer.write_out(writer)
}
