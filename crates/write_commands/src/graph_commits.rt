//! The commits of a graph, as a new file is to have them.

ghost use Rattle.std.specs.Prelude.{◌<◌, IfOk, OnErr};
ghost use Rattle.graph_walks.specs.History.{parents_at};
ghost use Rattle.graph_format.specs.StoredHistory.{history_of};
ghost use Rattle.gix_commitgraph.specs.Graph.{graph_ids, total};
ghost use Rattle.graph_writer.specs.NewCommits.{HoldIds};
ghost use Rattle.write_commands.specs.GraphCommits.{AreCommitsOf, IsCommitAt};

use gix_commitgraph::Position;
use gix_hash_core::ObjectId;
use graph_history::Checked;
use graph_writer::NewCommit;
use std::alloc::{AllocError, Global};

/// The commits of a right graph, by position. The error is that an allocation failed; it comes
/// only where there are commits.
pub(crate) fn commits_of(alloc: Global, graph: &Checked<'_>) -> Result<Vec<NewCommit>, AllocError>
    ensures all { IfOk result (λ commits. AreCommitsOf graph.now.layers commits.items) }
    ensures some { OnErr result (0 < total graph.now.layers) }
{
    let mut commits = Vec::with_capacity(alloc, graph.num_commits() as usize)?;
    for number in 0..graph.num_commits() {
        commits.push(commit_at(alloc, graph, Position(number))?)?;
    }
    Ok(commits)
}

/// The commit at a position.
fn commit_at(alloc: Global, graph: &Checked<'_>, pos: Position) -> Result<NewCommit, AllocError>
    requires { pos.0 < total graph.now.layers }
    ensures { IfOk result (IsCommitAt graph.now.layers pos.0) }
{
    Ok(NewCommit {
        id: graph.id(pos).to_owned(),
        tree: graph.root_tree(pos).to_owned(),
        parents: ids_of_parents(alloc, graph, pos)?,
        time: graph.committer_time(pos),
    })
}

/// The ids of the parents of the commit at a position, first parent first. Most commits have one,
/// so there is room for one at first.
fn ids_of_parents(
    alloc: Global,
    graph: &Checked<'_>,
    pos: Position,
) -> Result<Vec<ObjectId>, AllocError>
    requires { pos.0 < total graph.now.layers }
    ensures { IfOk result (λ ids. HoldIds (graph_ids graph.now.layers)
        (parents_at (history_of graph.now.layers) pos.0) ids.items) }
{
    let mut ids = Vec::with_capacity(alloc, 1)?;
    for parent in graph.parents(pos) {
        ids.push(graph.id(parent).to_owned())?;
    }
    Ok(ids)
}
