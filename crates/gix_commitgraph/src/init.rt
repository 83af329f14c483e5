//! Building a graph from its layers.

ghost use Rattle.std.specs.Prelude.{◌≡◌, ◌<◌, ◌≤◌, ◌⊎◌, ◌∷◌, ◌++◌, [], All, length, Some, None};
ghost use Rattle.std.specs.Prelude.{IfOk, MatchOption, MatchResult, OnErr, OnOk};
ghost use Rattle.graph_format.specs.Reports.{Reports};
ghost use Rattle.graph_format.specs.Layer.{IsOpened};
ghost use Rattle.gix_commitgraph.specs.Graph.{IsGraph, total};
ghost use Rattle.gix_commitgraph.specs.GraphRefusal.{mismatch_refusal, graph_refusal};
ghost use Rattle.gix_commitgraph.specs.LayerStarts.{AreStarts};
ghost use Rattle.graph_format.specs.declared.TheConstants as limits;

use crate::MAX_COMMITS;
use crate::file::File;
use crate::graph::Graph;
pub use graph_format::error::GraphError;
use std::alloc::{AllocError, Global};

impl Graph {
    /// The graph of these files, which are its layers, the lowest first. It takes any files of one
    /// kind, at least one, that have no more than [`MAX_COMMITS`] commits together: that each file
    /// names those before it as its base layers is not checked here.
    ///
    /// # Errors
    ///
    /// The first of these that holds; the files are then dropped:
    ///
    /// 1. `NoFiles`: there is no file.
    /// 2. `TooManyCommits`: the files have more commits together, and this is their number.
    /// 3. `HashMismatch`: the first file of another kind than the one before it.
    /// 4. `OutOfMemory`: an allocation failed.
    pub fn new(alloc: Global, files: Vec<File>) -> Result<Graph, GraphError>
        ensures layers { IfOk result (λ graph. graph ≡ files.items) }
        ensures refusal { MatchResult result (λ _. graph_refusal files.items ≡ None)
            (λ e. (graph_refusal files.items ≡ Some e)
            ⊎ ((e ≡ GraphError.OutOfMemory) × (graph_refusal files.items ≡ None))) }
    {
        check(&files)?;
        let Ok(starts) = starts_of(alloc, &files) else {
            return Err(GraphError::OutOfMemory);
        };
        Ok(Graph { files, starts })
    }

    /// Puts a file on top of the layers, as one more of them. As with [`Graph::new`], that it names
    /// those before it as its base layers is not checked here.
    ///
    /// # Errors
    ///
    /// The first of these that holds; the file is then dropped, and the graph is as it was:
    ///
    /// 1. `TooManyCommits`: with the file there are more than [`MAX_COMMITS`] commits, and this is
    ///    their number.
    /// 2. `HashMismatch`: the file is of another kind than the layers before it.
    /// 3. `OutOfMemory`: an allocation failed.
    pub fn push(&mut self, file: File) -> Result<(), GraphError>
        ensures pushed { OnOk result (self.new ≡ self.old ++ file ∷ []) }
        ensures kept { OnErr result (self.new ≡ self.old) }
        ensures graph { IsGraph self.new }
        ensures refusal { MatchResult result
            (λ _. graph_refusal (self.old ++ file ∷ []) ≡ None)
            (λ e. (graph_refusal (self.old ++ file ∷ []) ≡ Some e)
            ⊎ ((e ≡ GraphError.OutOfMemory) × (graph_refusal (self.old ++ file ∷ []) ≡ None))) }
    {
        let start = self.num_commits();
        if let Err(error) = check_above(self, &file) {
            return Err(error);
        }
        if self.starts.push(start).is_err() {
            return Err(GraphError::OutOfMemory);
        }
        if self.files.push(file).is_err() {
            self.starts.pop();
            return Err(GraphError::OutOfMemory);
        }
        Ok(())
    }

    /// Takes the highest layer off, unless it is the only one.
    pub fn pop(&mut self) -> Option<File>
        ensures { MatchOption result ((self.new ≡ self.old) × (length self.old ≡ 1))
            (λ file. self.old ≡ self.new ++ file ∷ []) }
    {
        if self.files.len() == 1 {
            return None;
        }
        self.starts.pop();
        self.files.pop()
    }
}

/// Refuses a file that makes no graph on top of the layers of this one.
fn check_above(graph: &Graph, file: &File) -> Result<(), GraphError>
    ensures refusal { Reports result (graph_refusal (graph.now ++ file.now ∷ [])) }
    ensures opened { All IsOpened (graph.now ++ file.now ∷ []) }
{
    let sum = graph.num_commits() as u128 + file.num_commits() as u128;
    if sum > MAX_COMMITS as u128 {
        return Err(GraphError::TooManyCommits(sum));
    }
    if graph.object_hash() != file.object_hash() {
        return Err(GraphError::HashMismatch {
            layer: graph.layers().len(),
        });
    }
    Ok(())
}

/// Refuses files that make no graph.
#[tactic(auto, unfolding(crate::specs::GraphRefusal::graph_refusal))]
fn check(files: &[File]) -> Result<(), GraphError>
    ensures refusal { Reports result (graph_refusal files.now) }
    ensures opened { All IsOpened files.now }
{
    // The sum comes first, since its contract says besides that each file was opened.
    let commits = commits_of_all(files);
    if files.is_empty() {
        return Err(GraphError::NoFiles);
    }
    if commits > MAX_COMMITS as u128 {
        return Err(GraphError::TooManyCommits(commits));
    }
    check_kinds(files)
}

/// How many commits the files have together.
fn commits_of_all(files: &[File]) -> u128
    ensures sum { result ≡ total files.now }
    ensures opened { All IsOpened files.now }
{
    let mut commits = 0;
    for file in files {
        commits += file.num_commits() as u128;
    }
    commits
}

/// Refuses files of two kinds.
fn check_kinds(files: &[File]) -> Result<(), GraphError>
    requires { 0 < length files.now }
    ensures { Reports result (mismatch_refusal files.now) }
{
    for below in 0..files.len() - 1 {
        if files[below].object_hash() != files[below + 1].object_hash() {
            return Err(GraphError::HashMismatch { layer: below + 1 });
        }
    }
    Ok(())
}

/// For each file, how many commits the files before it have together.
fn starts_of(alloc: Global, files: &[File]) -> Result<Vec<u32>, AllocError>
    requires { total files.now ≤ limits.MAX_COMMITS }
    ensures { IfOk result (λ starts. AreStarts files.now starts.items) }
{
    let mut starts = Vec::with_capacity(alloc, files.len())?;
    let mut start = 0;
    for file in files {
        starts.push(start)?;
        start += file.num_commits();
    }
    Ok(starts)
}
