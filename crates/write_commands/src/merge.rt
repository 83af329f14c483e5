//! The command `merge`.

ghost use Rattle.std.specs.Prelude.{◌≡◌, ◌<◌, IfErr, IfOk, OnErr, Ok, Err};
ghost use Rattle.gix_commitgraph.specs.Graph.{total};
ghost use Rattle.graph_commands.specs.OpenerAnswer.{MayOpenIn};
ghost use Rattle.graph_commands.specs.WrittenAnswer.{WritesAnswer};
ghost use Rattle.write_commands.specs.CarriedFilters.{AreCarried};
ghost use Rattle.write_commands.specs.GraphCommits.{AreCommitsOf};
ghost use Rattle.write_commands.specs.MergedCommits.{AreFoundCommits, MayMerge};
ghost use Rattle.write_commands.specs.LayerAnswer.{written_text, written_status};

use crate::filters::filters_of;
use crate::graph_commits::commits_of;
use crate::refusal::LayerRefusal;
use graph_commands::line::{WriteFailed, write_line};
use graph_commands::status::Status;
use graph_folder::folder::Folder;
use graph_history::Checked;
use graph_writer::{NewCommit, NewFilters, WriteError, write_layer_with_filters};
use history_commands::opening::open_checked;
use std::alloc::{AllocError, Global};
use std::io::Write;

/// Writes the file of one layer with the commits of the graph at the path, which is checked before,
/// as `graphtool verify` does: what Git writes of these commits. It has their changed-path filters
/// where all layers have filters by the same settings, which nothing refuses, and where there is
/// room for them.
///
/// Or it writes one line that says why there is no right graph at the path, or else why its commits
/// make no layer: commits are named by their positions there. The answer is the exit status.
/// `WriteFailed` comes where the writer fails.
pub fn run_merge<T: Folder, W: Write>(
    alloc: Global,
    folder: &mut T,
    path: &str,
    writer: &mut W,
) -> Result<u8, WriteFailed>
    ensures written { IfOk result (WritesAnswer written_text written_status
        (MayMerge (MayOpenIn T.Folder folder.old folder.new path.now))
        (W.contents writer.old) (W.contents writer.new)) }
    ensures tree { T.tree folder.new ≡ T.tree folder.old }
{
    match merged(alloc, folder, path) {
        Ok(bytes) => {
            writer.write_all(&bytes)?;
            Ok(Status::Yes as u8)
        }
        Err(refusal) => {
            write_line(writer, refusal)?;
            Ok(Status::No as u8)
        }
    }
}

/// The file of a layer with the commits of the graph at the path.
fn merged<T: Folder>(alloc: Global, folder: &mut T, path: &str) -> Result<Vec<u8>, LayerRefusal>
    ensures written { IfOk result (λ bytes. MayMerge
        (MayOpenIn T.Folder folder.old folder.new path.now) (Ok bytes.items)) }
    ensures refused { IfErr result (λ refusal. MayMerge
        (MayOpenIn T.Folder folder.old folder.new path.now) (Err refusal)) }
    ensures tree { T.tree folder.new ≡ T.tree folder.old }
{
    let found = find_commits(alloc, folder, path)?;
    let filters = found.filters.as_ref();
    Ok(write_layer_with_filters(alloc, None, &found.commits, filters)?)
}

/// What a file with the commits of a graph is to have.
#[derive(Drop)]
struct Gathered {
    /// The commits.
    commits: Vec<NewCommit>,
    /// Their changed-path filters, if it is to have filters.
    filters: Option<NewFilters>,
}

/// The commits of the graph at the path, which is right, and their filters. Of the graph nothing
/// else is kept.
fn find_commits<T: Folder>(
    alloc: Global,
    folder: &mut T,
    path: &str,
) -> Result<Gathered, LayerRefusal>
    ensures found { IfOk result (λ found. AreFoundCommits
        (MayOpenIn T.Folder folder.old folder.new path.now) found.commits.items found.filters) }
    ensures refused { IfErr result (λ refusal. MayMerge
        (MayOpenIn T.Folder folder.old folder.new path.now) (Err refusal)) }
    ensures tree { T.tree folder.new ≡ T.tree folder.old }
{
    let graph = open_checked(alloc, folder, path)?;
    match gather(alloc, &graph.as_checked()) {
        Ok(found) => Ok(found),
        Err(_) => Err(LayerRefusal::Commits(WriteError::OutOfMemory)),
    }
}

/// The commits of a right graph, and their filters.
fn gather(alloc: Global, graph: &Checked<'_>) -> Result<Gathered, AllocError>
    ensures commits { IfOk result (λ found.
        AreCommitsOf graph.now.layers found.commits.items) }
    ensures filters { IfOk result (λ found. AreCarried graph.now.layers found.filters) }
    ensures some { OnErr result (0 < total graph.now.layers) }
{
    Ok(Gathered {
        commits: commits_of(alloc, graph)?,
        filters: filters_of(alloc, graph)?,
    })
}
