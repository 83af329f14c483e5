//! The command `objects`, and the line that it writes.

ghost use Rattle.std.specs.Prelude.{◌≡◌, IfErr, IfOk, Ok};
ghost use Rattle.gix_commitgraph.specs.Sound.{Sound};
ghost use Rattle.graph_commands.specs.WrittenAnswer.{WritesAnswer};
ghost use Rattle.graph_commands.specs.OpenerAnswer.{MayOpenIn};
ghost use Rattle.object_commands.specs.ComparedObjects.{MayCompareObjects, MayFindNoRightGraph};
ghost use Rattle.object_commands.specs.ComparedObjects.{objects_text, objects_status};

use crate::range::PositionRange;
use crate::refusal::ObjectsRefusal;
use gix_commitgraph::Graph;
use gix_commitgraph::opening::open_in;
use graph_ancestors::check;
use graph_commands::line::{WriteFailed, write_line};
use graph_commands::refusal::Refusal;
use graph_commands::status::Status;
use graph_folder::folder::Folder;
use graph_objects::check_objects;
use std::alloc::Global;
use std::io::{Read, Write};

/// Checks the graph that the path opens, as `graphtool verify` does, and compares its commits with
/// the stream that `git cat-file --batch` wrote for their ids: those at the positions of the range,
/// in their order, or all where none is given. The reader gives the stream, and nothing is read of
/// it before the graph has passed its check.
///
/// It writes how many commits were compared; or one line that says why there is no right graph, or
/// else that the graph lacks positions of the range, or else why the stream is not that of the
/// commits or could not be read. The answer is the exit status. `WriteFailed` comes where the
/// writer fails.
pub fn run_objects<R: Read, T: Folder, W: Write>(
    alloc: Global,
    reader: &mut R,
    folder: &mut T,
    path: &str,
    range: Option<PositionRange>,
    writer: &mut W,
) -> Result<u8, WriteFailed>
    ensures written { IfOk result (WritesAnswer objects_text objects_status
        (MayCompareObjects range (R.remaining reader.old) (R.remaining reader.new)
        (MayOpenIn T.Folder folder.old folder.new path.now))
        (W.contents writer.old) (W.contents writer.new)) }
    ensures tree { T.tree folder.new ≡ T.tree folder.old }
{
    match compare(alloc, reader, folder, path, range) {
        Ok(commits) => {
            write_line(writer, format_args!("ok commits {commits}"))?;
            Ok(Status::Yes as u8)
        }
        Err(refusal) => {
            write_line(writer, refusal)?;
            Ok(Status::No as u8)
        }
    }
}

/// Compares the commits at the positions of the range with the stream, and answers how many they
/// are.
fn compare<R: Read, T: Folder>(
    alloc: Global,
    reader: &mut R,
    folder: &mut T,
    path: &str,
    range: Option<PositionRange>,
) -> Result<u32, ObjectsRefusal>
    ensures may { MayCompareObjects range (R.remaining reader.old) (R.remaining reader.new)
        (MayOpenIn T.Folder folder.old folder.new path.now)
        result }
    ensures tree { T.tree folder.new ≡ T.tree folder.old }
{
    let graph = open_checked(alloc, folder, path)?;
    let range = PositionRange::of_graph(&graph, range)?;
    check_objects(alloc, &graph, reader, range.from, range.to)?;
    Ok(range.to - range.from)
}

/// Opens the graph at the path, and checks it.
fn open_checked<T: Folder>(alloc: Global, folder: &mut T, path: &str) -> Result<Graph, Refusal>
    ensures opened { IfOk result (λ graph.
        MayOpenIn T.Folder folder.old folder.new path.now (Ok graph)) }
    ensures right { IfOk result Sound }
    ensures refused { IfErr result (MayFindNoRightGraph
        (MayOpenIn T.Folder folder.old folder.new path.now)) }
    ensures tree { T.tree folder.new ≡ T.tree folder.old }
{
    let graph = open_in(alloc, folder, path)?;
    let _outcome = check(alloc, &graph)?;
    Ok(graph)
}
