//! Reads Git's commit-graph files, version 1, and what they say of commits.
//!
//! A [`File`] is one layer of a commit-graph, opened from its bytes. It is opened exactly where the
//! bytes have the written format; else a [`FileError`] names the first rule that they break. A
//! [`Graph`] is a list of such layers, the lowest first. [`Graph::verify_integrity`] checks whether
//! it is right, and the openers of the module [`opening`] open one by its path.
//!
//! Opening decodes the commits, and a check keeps counts: both allocate, as does copying a check's
//! outcome, and can answer that memory ran out. Accessors, iterators and lookups allocate nothing.
#![tactic(auto)]

ghost use Rattle.std.specs.Prelude.{IfOk, IfErr, MatchResult};
ghost use Rattle.gix_commitgraph.specs.Graph.{IsGraph};
ghost use Rattle.gix_commitgraph.specs.OpenAlways.{IsFromPath, IsPathError};
ghost use Rattle.gix_commitgraph.specs.WasRead.{PathWasRead};
ghost use Rattle.graph_folder.specs.Reads.{AreAllOfFile};
ghost use Rattle.graph_layer.specs.OpenRefusals.{OutOfMemoryStandsAlone};

mod access;
mod graph;
pub mod init;
mod iter;
pub mod law;
pub mod opening;
pub mod verify;

pub use file::File;
pub use graph::Graph;
pub use graph_format::error::FileError;
pub use graph_format::{GENERATION_NUMBER_INFINITY, MAX_COMMITS, Position};
pub use graph_layer::file;
pub use graph_walks::GENERATION_NUMBER_MAX;
pub use init::GraphError;
pub use iter::{GraphCommits, GraphIds};
use opening::OpenError;
use std::alloc::Global;
use std::rt::Files;

/// Opens the commit-graph at a path, which is that of a file, a chain folder or an info folder:
/// [`Graph::at`].
pub fn at<R: Files>(rt: &R, alloc: Global, path: &str) -> Result<Graph, OpenError>
    ensures from { MatchResult result (IsFromPath path.now) IsPathError }
    ensures given { IfOk result (PathWasRead
        (λ _ bytes. AreAllOfFile R.File.remaining bytes) path.now) }
    ensures graph { IfOk result IsGraph }
    ensures memory { IfErr result OutOfMemoryStandsAlone }
{
    Graph::at(rt, alloc, path)
}
