//! The openers over the file system.

ghost use Rattle.std.specs.Prelude.{IfOk, IfErr, MatchResult};
ghost use Rattle.gix_commitgraph.specs.Graph.{IsGraph};
ghost use Rattle.gix_commitgraph.specs.OpenAlways.{IsFromFile, IsFromChain, IsFromInfo, IsFromPath};
ghost use Rattle.gix_commitgraph.specs.OpenAlways.{IsFileError, IsFolderError, IsPathError};
ghost use Rattle.gix_commitgraph.specs.WasRead.{ChainWasRead, FileWasRead};
ghost use Rattle.gix_commitgraph.specs.WasRead.{InfoWasRead, PathWasRead};
ghost use Rattle.graph_folder.specs.Reads.{AreAllOfFile};
ghost use Rattle.graph_layer.specs.OpenRefusals.{OutOfMemoryStandsAlone};

use crate::graph::Graph;
use crate::opening::{OpenError, open_chain_dir_in, open_file_in, open_in, open_info_dir_in};
use graph_folder::folder::Disk;
use std::alloc::Global;
use std::rt::Files;

impl Graph {
    /// Opens what stands at the path: a file, a chain folder or an info folder, as [`open_in`] does
    /// over the file system, with its errors.
    pub fn at<R: Files>(rt: &R, alloc: Global, path: &str) -> Result<Graph, OpenError>
        ensures from { MatchResult result (IsFromPath path.now) IsPathError }
        ensures given { IfOk result (PathWasRead
            (λ _ bytes. AreAllOfFile R.File.remaining bytes) path.now) }
        ensures graph { IfOk result IsGraph }
        ensures memory { IfErr result OutOfMemoryStandsAlone }
    {
        open_in(alloc, &mut Disk::new(rt), path)
    }

    /// Opens the file at the path as a graph of one layer, as [`open_file_in`] does over the file
    /// system, with its errors.
    pub fn from_file<R: Files>(rt: &R, alloc: Global, path: &str) -> Result<Graph, OpenError>
        ensures from { MatchResult result (IsFromFile path.now) IsFileError }
        ensures given { IfOk result (FileWasRead
            (λ _ bytes. AreAllOfFile R.File.remaining bytes) path.now) }
        ensures graph { IfOk result IsGraph }
        ensures memory { IfErr result OutOfMemoryStandsAlone }
    {
        open_file_in(alloc, &mut Disk::new(rt), path)
    }

    /// Opens the info folder at the path, in most repositories `.git/objects/info`, as
    /// [`open_info_dir_in`] does over the file system, with its errors.
    pub fn from_info_dir<R: Files>(rt: &R, alloc: Global, path: &str) -> Result<Graph, OpenError>
        ensures from { MatchResult result (IsFromInfo path.now) IsFolderError }
        ensures given { IfOk result (InfoWasRead
            (λ _ bytes. AreAllOfFile R.File.remaining bytes) path.now) }
        ensures graph { IfOk result IsGraph }
        ensures memory { IfErr result OutOfMemoryStandsAlone }
    {
        open_info_dir_in(alloc, &mut Disk::new(rt), path)
    }

    /// Opens the chain folder at the path, in most repositories `.git/objects/info/commit-graphs`,
    /// as [`open_chain_dir_in`] does over the file system, with its errors.
    pub fn from_commit_graphs_dir<R: Files>(
        rt: &R,
        alloc: Global,
        path: &str,
    ) -> Result<Graph, OpenError>
        ensures from { MatchResult result (IsFromChain path.now) IsFolderError }
        ensures given { IfOk result (ChainWasRead
            (λ _ bytes. AreAllOfFile R.File.remaining bytes) path.now) }
        ensures graph { IfOk result IsGraph }
        ensures memory { IfErr result OutOfMemoryStandsAlone }
    {
        open_chain_dir_in(alloc, &mut Disk::new(rt), path)
    }
}
