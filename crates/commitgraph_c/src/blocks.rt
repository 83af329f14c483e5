//! The commits from a position on, many in one call, and their parents.

ghost use Rattle.std.specs.Prelude.{◌≡◌, ◌+◌, ◌≤◌, IfSome, drop, length, map, min, slice_get};
ghost use Rattle.graph_layer.specs.Commit.{commit_parents};
ghost use Rattle.gix_commitgraph.specs.Graph.{graph_commits, start, total};
ghost use Rattle.commitgraph_c.specs.QueryAnswers.{TellsParents};
ghost use Rattle.c_opening.specs.Answers.{layers_of, told_commit, written};
ghost use Rattle.commitgraph_c.specs.Blocks.{TellsBlock, block_of, commits_from};

use crate::parents::{CgParents, write_parents};
use c_opening::read::told;
use c_opening::{CgCommit, CgGraph};
use gix_commitgraph::file::{self, Commit};
use gix_commitgraph::law::graph::the_commits_of_layers_add_up;
use gix_commitgraph::{Graph, Position};
use graph_format::parents::NO_PARENT;
use graph_layer::fields::parent_fields;

/// Writes what the records from a position on say, as many as there is room for. Answers how many
/// commits there are from there on.
pub fn cg_commits(graph: CgGraph, first: u32, out: &mut [CgCommit]) -> u32
    ensures count { result ≡ length (commits_from (layers_of graph.address.held) first) }
    ensures room { let commits = commits_from (layers_of graph.address.held) first in
        out.new ≡ written (map told_commit commits) out.old }
{
    match graph.graph() {
        Some(graph) => write_commits(graph, first, out),
        None => 0,
    }
}

/// Writes what the records from a position on say, as many as there is room for, and answers how
/// many there are.
fn write_commits(graph: &Graph, first: u32, out: &mut [CgCommit]) -> u32
    ensures count { result ≡ length (drop first (graph_commits graph.now)) }
    ensures room { out.new ≡ written (map told_commit (drop first (graph_commits graph.now)))
        out.old }
{
    the_commits_of_layers_add_up();
    let count = graph.num_commits().saturating_sub(first);
    let mut commits = graph.iter_commits_from(Position(first));
    for place in 0..out.len() {
        let Some(commit) = commits.next() else {
            break;
        };
        out[place] = told(commit);
    }
    count
}

/// Of how many commits a block tells, and how many parents they have.
#[repr(C)]
#[derive(Clone, Copy)]
pub struct CgBlock {
    pub commits: u32,
    pub length: u64,
}

/// Tells of the parents of the commits from a position on, of each as `cg_parents` does, and writes
/// their positions, one commit's after another's. It ends where `answers` is full or no commit is
/// left, and after a commit whose parents find too little room.
pub fn cg_parents_from(
    graph: CgGraph,
    first: u32,
    answers: &mut [CgParents],
    out: &mut [u32],
) -> CgBlock
    ensures { let commits = commits_from (layers_of graph.address.held) first in
        let told = block_of (length answers.old) (length out.old) commits in
        TellsBlock told result answers.old answers.new out.old out.new }
{
    match graph.graph() {
        Some(graph) => write_block(graph, first, answers, out),
        None => CgBlock {
            commits: 0,
            length: 0,
        },
    }
}

/// Writes a block of parents, one layer's after another's.
fn write_block(graph: &Graph, first: u32, answers: &mut [CgParents], out: &mut [u32]) -> CgBlock
    ensures { let commits = drop first (graph_commits graph.now) in
        let told = block_of (length answers.old) (length out.old) commits in
        TellsBlock told result answers.old answers.new out.old out.new }
{
    let (lowest, mut from) = place_of(graph, first);
    let (mut place, mut used) = (0, 0);
    for layer in lowest..graph.layers().len() {
        if place == answers.len() {
            break;
        }
        let file = &graph.layers()[layer];
        let fields = parent_fields(file);
        let end = from + (fields.len() - from).min(answers.len() - place);
        for pos in from..end {
            // Most commits have one parent.
            let (parent, second) = fields[pos];
            if parent < NO_PARENT && second == NO_PARENT && used < out.len() {
                out[used] = parent;
                answers[place] = CgParents { code: 0, count: 1 };
                place += 1;
                used += 1;
                continue;
            }
            let room = (out.len() - used) as u64;
            let told = write_others(file.commit_at(file::Position(pos as u32)), &mut out[used..]);
            answers[place] = told;
            place += 1;
            if told.count > room {
                return CgBlock {
                    commits: place as u32,
                    length: (used as u64).saturating_add(told.count),
                };
            }
            used += told.count as usize;
        }
        from = 0;
    }
    CgBlock {
        commits: place as u32,
        length: used as u64,
    }
}

/// The layer in which a position lies, and the position there; past the last layer where the graph
/// has no such position.
fn place_of(graph: &Graph, pos: u32) -> (usize, usize)
    ensures place { start graph.now result.0 + result.1 ≡ min pos (total graph.now) }
    ensures within { IfSome (slice_get graph.now result.0) (λ layer.
        result.1 ≤ length layer.ids) }
{
    if pos >= graph.num_commits() {
        return (graph.layers().len(), 0);
    }
    let pos = Position(pos);
    let (layer, _) = graph.layer_of_counted(pos);
    let place = graph.commit_at(pos).position();
    (layer, place.0 as usize)
}

/// Writes the positions of the parents of a commit that has not one alone. This stays a call of its
/// own, so that for the others no more is found out than that they have one.
#[inline(never)]
fn write_others(commit: Commit<'_>, out: &mut [u32]) -> CgParents
    ensures { TellsParents (commit_parents commit.entry) result out.old out.new }
{
    write_parents(commit, out)
}
