//! Opening a commit-graph by the path of a file or of a folder.
//!
//! Each opener reads from a [`Folder`]: a tree of files whose reads a device may fail. A contract
//! says what is opened where the contents of the tree are known, what holds of each answer whether
//! they are known or not, and that no opener changes the tree. Where they are not known, others may
//! write while an opener reads: the layers are files that were there, each as it was read, and
//! those of a chain are named by the lines of a chain file as it was read. Over the file system, a
//! [`Disk`](graph_folder::folder::Disk), the same openers are [`Graph::at`], [`Graph::from_file`],
//! [`Graph::from_info_dir`] and [`Graph::from_commit_graphs_dir`].

ghost use Rattle.std.specs.Prelude.{◌≡◌, IfOk, IfErr, IsErrOf, MatchResult};
ghost use Rattle.std.specs.Option.{ForSome};
ghost use Rattle.gix_commitgraph.specs.Graph.{IsGraph};
ghost use Rattle.gix_commitgraph.specs.OpenAlways.{IsErrorOfLayers, IsFromPath, IsPathError};
ghost use Rattle.gix_commitgraph.specs.Opening.{Opens, MetFailureIfDevice};
ghost use Rattle.gix_commitgraph.specs.Opening.{graph_of_layers, standing_at};
ghost use Rattle.gix_commitgraph.specs.WasRead.{PathWasRead};
ghost use Rattle.graph_layer.specs.OpenAnswer.{IsAsExpected};
ghost use Rattle.graph_layer.specs.OpenRefusals.{OutOfMemoryStandsAlone};

mod by_path;
mod by_standing;
mod chain;
mod file;
mod info;
pub mod path;
mod whole;

use crate::file::File;
use crate::graph::Graph;
pub use by_standing::{Opener, open_by, open_info_by};
use chain::has_chain;
pub use chain::{open_chain_dir_in, open_lines, read_chain, text_of};
pub use file::open_file_in;
use graph_folder::folder::Folder;
pub use graph_layer::opening::OpenError;
pub use info::{is_settled, open_info_dir_in};
use std::alloc::{AllocError, Global};
use whole::WholeOpener;

/// What stands at a path.
#[derive(Clone, Copy, Debug, PartialEq, Eq)]
pub enum Standing {
    /// A file.
    File,
    /// A chain folder: a file `commit-graph-chain` stands in it.
    ChainDir,
    /// Any other folder, which is taken for an info folder.
    InfoDir,
    /// Neither a file nor a folder.
    Nothing,
}

/// What stands at the path. `AllocError` comes only where an allocation failed.
pub fn stands_at<T: Folder>(
    alloc: Global,
    folder: &mut T,
    path: &str,
) -> Result<Standing, AllocError>
    ensures answer { ForSome (T.tree folder.old) (λ tree.
        IfOk result (λ standing. standing ≡ standing_at tree path.now)) }
    ensures tree { T.tree folder.new ≡ T.tree folder.old }
    ensures failures { T.failure_count folder.new ≡ T.failure_count folder.old }
{
    if folder.is_file(alloc, path)? {
        Ok(Standing::File)
    } else if !folder.is_dir(alloc, path)? {
        Ok(Standing::Nothing)
    } else if has_chain(alloc, folder, path)? {
        Ok(Standing::ChainDir)
    } else {
        Ok(Standing::InfoDir)
    }
}

/// Opens what stands at the path: a file as [`open_file_in`] does, a folder in which a file
/// `commit-graph-chain` stands as [`open_chain_dir_in`] does, and any other folder as
/// [`open_info_dir_in`] does.
///
/// # Errors
///
/// `NothingFound` where neither a file nor a folder stands at the path, and else those of the
/// opener. `OutOfMemory` comes where an allocation failed, and `Device` only where the folder's
/// count of failures has risen.
pub fn open_in<T: Folder>(alloc: Global, folder: &mut T, path: &str) -> Result<Graph, OpenError>
    ensures opens { ForSome (T.tree folder.old)
        (λ tree. Opens tree path.now (T.failure_count folder.old) (T.failure_count folder.new)
        result) }
    ensures device { MetFailureIfDevice result (T.failure_count folder.old)
        (T.failure_count folder.new) }
    ensures tree { T.tree folder.new ≡ T.tree folder.old }
    ensures from { MatchResult result (IsFromPath path.now) IsPathError }
    ensures given { IfOk result (PathWasRead T.gives path.now) }
    ensures graph { IfOk result IsGraph }
    ensures memory { IfErr result OutOfMemoryStandsAlone }
{
    open_by(alloc, folder, path, &mut WholeOpener)
}

/// The graph of the layers that an opener has read.
fn new_graph(alloc: Global, files: Vec<File>) -> Result<Graph, OpenError>
    ensures opens { IsAsExpected result (graph_of_layers files.items) }
    ensures no_device { ¬ (IsErrOf result OpenError.Device) }
    ensures layers { IfOk result (λ layers. layers ≡ files.items) }
    ensures errors { IfErr result (IsErrorOfLayers files.items) }
    ensures graph { IfOk result IsGraph }
    ensures memory { IfErr result OutOfMemoryStandsAlone }
{
    Ok(Graph::new(alloc, files)?)
}
