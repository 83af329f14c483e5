//! The opener of a file, as a graph of one layer.

ghost use Rattle.std.specs.Prelude.{◌≡◌, IfOk, IfErr, MatchResult};
ghost use Rattle.std.specs.Option.{ForSome};
ghost use Rattle.gix_commitgraph.specs.Graph.{IsGraph};
ghost use Rattle.gix_commitgraph.specs.OpenAlways.{IsFromFile, IsFileError};
ghost use Rattle.graph_layer.specs.OpenAnswer.{IsAsExpected, failures_after_opening};
ghost use Rattle.gix_commitgraph.specs.Opening.{file_opened};
ghost use Rattle.gix_commitgraph.specs.WasRead.{FileWasRead};
ghost use Rattle.graph_layer.specs.OpenRefusals.{OutOfMemoryStandsAlone};

use crate::graph::Graph;
use crate::opening::{OpenError, new_graph};
use graph_folder::folder::Folder;
use graph_layer::opening::open_layer;
use std::alloc::Global;

/// Opens the file at the path as a graph of one layer.
///
/// # Errors
///
/// The first of these that holds:
///
/// 1. `NotOpened`: no file stands at the path, or it may not be read.
/// 2. `Device`: a read of it failed. The folder's count of failures has risen then, and in no other
///    case.
/// 3. `Layer`: the bytes are refused, as layer 0.
/// 4. `Graph`, with `TooManyCommits`: the layer has more commits than a graph can have.
///
/// `OutOfMemory` comes where an allocation failed.
pub fn open_file_in<T: Folder>(
    alloc: Global,
    folder: &mut T,
    path: &str,
) -> Result<Graph, OpenError>
    ensures opens { ForSome (T.tree folder.old) (λ tree.
        IsAsExpected result (file_opened tree path.now)) }
    ensures tree { T.tree folder.new ≡ T.tree folder.old }
    ensures failures { T.failure_count folder.new
        ≡ failures_after_opening result (T.failure_count folder.old) }
    ensures from { MatchResult result (IsFromFile path.now) IsFileError }
    ensures given { IfOk result (FileWasRead T.gives path.now) }
    ensures graph { IfOk result IsGraph }
    ensures memory { IfErr result OutOfMemoryStandsAlone }
{
    let file = open_layer(alloc, folder, 0, String::from_str(alloc, path)?)?;
    let mut files = Vec::new(alloc);
    files.push(file)?;
    new_graph(alloc, files)
}
