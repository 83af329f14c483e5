//! The command `write`.

ghost use Rattle.std.specs.Prelude.{◌≡◌, IfErr, IfOk, Ok, Err, option_map};
ghost use Rattle.graph_commands.specs.OpenerAnswer.{MayOpenIn};
ghost use Rattle.graph_commands.specs.WrittenAnswer.{WritesAnswer};
ghost use Rattle.graph_writer.specs.NewCommits.{layers_of_below};
ghost use Rattle.write_commands.specs.WrittenCommits.{MayComeOf, MayWriteLayer, kind_below};
ghost use Rattle.write_commands.specs.LayerAnswer.{written_text, written_status};

use crate::read::read_commits;
use crate::refusal::LayerRefusal;
use gix_hash_core::Kind;
use graph_commands::line::{WriteFailed, write_line};
use graph_commands::status::Status;
use graph_folder::folder::Folder;
use graph_history::Checked;
use graph_writer::write_layer;
use history_commands::opening::open_checked;
use std::alloc::Global;
use std::io::{Read, Write};

/// Writes the file of a layer with the commits that the reader gives, as `git cat-file --batch`
/// wrote them, in any order: what Git writes of them without changed-path filters. Where there is a
/// path, the graph there is checked, as `graphtool verify` does, before anything is read, and the
/// layer is one for its top.
///
/// Or it writes one line that says why there is no right graph at the path, or else why the stream
/// says no commits or could not be read, or else why they make no layer. The answer is the exit
/// status. `WriteFailed` comes where the writer fails.
pub fn run_write<R: Read, T: Folder, W: Write>(
    alloc: Global,
    reader: &mut R,
    folder: &mut T,
    path: Option<&str>,
    writer: &mut W,
) -> Result<u8, WriteFailed>
    ensures written { IfOk result (WritesAnswer written_text written_status
        (MayWriteLayer (option_map (λ p. p.now) path.entry) (folder.new ≡ folder.old)
        (MayOpenIn T.Folder folder.old folder.new)
        (R.remaining reader.old) (R.remaining reader.new))
        (W.contents writer.old) (W.contents writer.new)) }
    ensures tree { T.tree folder.new ≡ T.tree folder.old }
{
    match layer_on(alloc, reader, folder, path) {
        Ok(bytes) => {
            writer.write_all(&bytes)?;
            Ok(Status::Yes as u8)
        }
        Err(refusal) => {
            write_line(writer, refusal)?;
            Ok(Status::No as u8)
        }
    }
}

/// The file of a layer with the commits that the reader gives, on top of the graph at the path, or
/// on none.
fn layer_on<R: Read, T: Folder>(
    alloc: Global,
    reader: &mut R,
    folder: &mut T,
    path: Option<&str>,
) -> Result<Vec<u8>, LayerRefusal>
    ensures written { IfOk result (λ bytes.
        MayWriteLayer (option_map (λ p. p.now) path.entry) (folder.new ≡ folder.old)
        (MayOpenIn T.Folder folder.old folder.new)
        (R.remaining reader.old) (R.remaining reader.new) (Ok bytes.items)) }
    ensures refused { IfErr result (λ refusal.
        MayWriteLayer (option_map (λ p. p.now) path.entry) (folder.new ≡ folder.old)
        (MayOpenIn T.Folder folder.old folder.new)
        (R.remaining reader.old) (R.remaining reader.new) (Err refusal)) }
    ensures tree { T.tree folder.new ≡ T.tree folder.old }
{
    match path {
        None => layer_of(alloc, reader, None),
        Some(path) => {
            let graph = open_checked(alloc, folder, path)?;
            layer_of(alloc, reader, Some(&graph.as_checked()))
        }
    }
}

/// The file of a layer with the commits that the reader gives, on top of a graph or on none.
fn layer_of<R: Read>(
    alloc: Global,
    reader: &mut R,
    below: Option<&Checked<'_>>,
) -> Result<Vec<u8>, LayerRefusal>
    ensures written { IfOk result (λ bytes. MayComeOf (layers_of_below below.entry)
        (R.remaining reader.old) (R.remaining reader.new) (Ok bytes.items)) }
    ensures refused { IfErr result (λ refusal. MayComeOf (layers_of_below below.entry)
        (R.remaining reader.old) (R.remaining reader.new) (Err refusal)) }
{
    let commits = read_commits(alloc, kind_of_graph(below), reader)?;
    Ok(write_layer(alloc, below, &commits)?)
}

/// The kind of the ids of a graph, if there is one.
fn kind_of_graph(below: Option<&Checked<'_>>) -> Option<Kind>
    ensures { result ≡ kind_below (layers_of_below below.entry) }
{
    match below {
        Some(checked) => Some(checked.graph().object_hash()),
        None => None,
    }
}
