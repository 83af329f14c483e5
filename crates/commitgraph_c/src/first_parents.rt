//! The first parents of a commit, in the time of as many steps as there is room for.

ghost use Rattle.std.specs.Prelude.{◌≡◌, ◌≢◌, ◌↔◌, ◌≤◌, ◌⊎◌, IfSome, IsSomeAnd, List, None};
ghost use Rattle.std.specs.Prelude.{Option, Some, if◌then◌else◌, length, min, nat_le, ℕ};
ghost use Rattle.graph_format.specs.Parents.{both_parents, second_parents};
ghost use Rattle.graph_layer.specs.Commit.{commit_parents};
ghost use Rattle.gix_commitgraph.specs.Graph.{total};
ghost use Rattle.c_opening.specs.Answers.{HasCommit, layers_of};
ghost use Rattle.commitgraph_c.specs.QueryAnswers.{parents_in};
ghost use Rattle.c_opening.specs.Codes.{closed_graph, more_parents, no_such_position};
ghost use Rattle.commitgraph_c.specs.FirstParents.{TellsFirstParents};

use crate::commit_at::{commit_in, usual_edges};
use crate::parents::{CgParents, write_at};
use c_opening::CgGraph;
use c_opening::codes::{CLOSED_GRAPH, MORE_PARENTS, NO_SUCH_POSITION, parent_code};
use gix_commitgraph::Graph;
use gix_commitgraph::file::Commit;
use graph_format::parents::ParentEdge;
use graph_layer::fields::parent_edges;

/// Writes the positions of the first parents of the commit at a position, as many as there is room
/// for, and reads no more than the one after them.
pub fn cg_first_parents(graph: CgGraph, pos: u32, out: &mut [u32]) -> CgParents
    ensures parents { result.code ≢ no_such_position → result.code ≢ closed_graph
        → HasCommit (layers_of graph.address.held) pos (λ commit.
        TellsFirstParents (parents_in commit) result out.old out.new) }
    ensures nowhere { result.code ≡ no_such_position
        ↔ IsSomeAnd (layers_of graph.address.held) (λ layers. total layers ≤ pos) }
    ensures closed { result.code ≡ closed_graph ↔ layers_of graph.address.held ≡ None }
    ensures kept { (result.code ≡ no_such_position) ⊎ (result.code ≡ closed_graph)
        → (out.new ≡ out.old) × (result.count ≡ 0) }
{
    if !graph.is_open() {
        return CgParents {
            code: CLOSED_GRAPH,
            count: 0,
        };
    }
    let graph = graph.open_graph();
    if out.len() == 1 && graph.layers().len() == 1 {
        first_in_layer(graph, pos, out)
    } else {
        first_in_graph(graph, pos, out)
    }
}

/// The same of a graph of one layer, where there is room for one parent.
#[inline(always)]
#[tactic(auto, using(crate::proofs::FirstRoom::told_by_record))]
fn first_in_layer(graph: &Graph, pos: u32, out: &mut [u32]) -> CgParents
    requires layer { length graph.now ≡ 1 }
    requires room { length out.old ≡ 1 }
    ensures parents { result.code ≢ no_such_position → HasCommit (Some graph.now) pos (λ commit.
        TellsFirstParents (parents_in commit) result out.old out.new) }
    ensures nowhere { result.code ≡ no_such_position ↔ total graph.now ≤ pos }
    ensures open { result.code ≢ closed_graph }
    ensures kept { result.code ≡ no_such_position
        → (out.new ≡ out.old) × (result.count ≡ 0) }
{
    if let Some((first, second)) = usual_edges(graph, pos)
        && let Some(code) = write_one(first, second, out)
    {
        return CgParents { code, count: 1 };
    }
    first_in_graph(graph, pos, out)
}

/// The same of any graph and any room. This stays a call of its own, so that where there is one
/// layer and room for one parent no register is saved for it.
#[inline(never)]
fn first_in_graph(graph: &Graph, pos: u32, out: &mut [u32]) -> CgParents
    ensures parents { result.code ≢ no_such_position → HasCommit (Some graph.now) pos (λ commit.
        TellsFirstParents (parents_in commit) result out.old out.new) }
    ensures nowhere { result.code ≡ no_such_position ↔ total graph.now ≤ pos }
    ensures open { result.code ≢ closed_graph }
    ensures kept { result.code ≡ no_such_position
        → (out.new ≡ out.old) × (result.count ≡ 0) }
{
    match commit_in(graph, pos) {
        Some(commit) => write_first(commit, out),
        None => CgParents {
            code: NO_SUCH_POSITION,
            count: 0,
        },
    }
}

/// Writes the positions of a commit's first parents, as many as there is room for.
#[inline(always)]
fn write_first(commit: Commit<'_>, out: &mut [u32]) -> CgParents
    ensures { TellsFirstParents (commit_parents commit.entry) result out.old out.new }
{
    if out.len() == 1 {
        let (first, second) = parent_edges(&commit);
        if let Some(code) = write_one(first, second, out) {
            return CgParents { code, count: 1 };
        }
    }
    write_some(commit, out)
}

/// Writes the position of a first parent, for which alone there is room, if both fields tell all of
/// it, and answers what is told after it.
#[inline(always)]
fn write_one(first: ParentEdge, second: ParentEdge, out: &mut [u32]) -> Option<u32>
    requires { length out.old ≡ 1 }
    ensures told { IfSome result (λ code. (edges : Option (List ℕ))
        → TellsFirstParents (both_parents first second edges) (record { code = code; count = 1 })
        out.old out.new) }
    ensures codes { IfSome result (λ code. (code ≡ 0) ⊎ (code ≡ more_parents)) }
    ensures kept { result ≡ None → out.new ≡ out.old }
{
    if let ParentEdge::GraphPosition(pos) = first
        && let Some(code) = code_after(second)
    {
        out[0] = pos.0;
        return Some(code);
    }
    None
}

/// What is told after the first parent where there is no room for more, by the second field; `None`
/// where the extra edge list has to say it.
#[inline(always)]
fn code_after(second: ParentEdge) -> Option<u32>
    ensures after { IfSome result (λ code. (edges : Option (List ℕ))
        → ((second_parents second edges).fault ≡ None)
        × (code ≡ (if nat_le (length (second_parents second edges).positions) 0
        then 0 else more_parents))) }
    ensures codes { IfSome result (λ code. (code ≡ 0) ⊎ (code ≡ more_parents)) }
{
    if matches!(second, ParentEdge::ExtraEdgeIndex(_)) {
        return None;
    }
    // Which of both it is cannot be foreseen: a branch costs more than a choice of two numbers.
    let is_none = matches!(second, ParentEdge::None);
    Some(if is_none { 0 } else { MORE_PARENTS })
}

/// Writes the positions of a commit's first parents, whatever there is room for. This stays a call
/// of its own, so that where there is room for one no register is saved for it.
#[inline(never)]
fn write_some(commit: Commit<'_>, out: &mut [u32]) -> CgParents
    ensures { TellsFirstParents (commit_parents commit.entry) result out.old out.new }
{
    let room = out.len();
    match parent_edges(&commit) {
        (ParentEdge::None, ParentEdge::None) => told(0, room),
        (ParentEdge::GraphPosition(first), ParentEdge::None) => {
            write_at(out, 0, first);
            told(1, room)
        }
        (ParentEdge::GraphPosition(first), ParentEdge::GraphPosition(second)) => {
            write_at(out, 0, first);
            write_at(out, 1, second);
            told(2, room)
        }
        _ => write_items(commit, out),
    }
}

/// What is told of so many parents, as there is room for so many.
#[inline(always)]
fn told(parents: usize, room: usize) -> CgParents
    ensures count { result.count ≡ min parents room }
    ensures code { result.code ≡ (if nat_le parents room then 0 else more_parents) }
{
    let (code, count) = if parents <= room {
        (0, parents)
    } else {
        (MORE_PARENTS, room)
    };
    CgParents {
        code,
        count: count as u64,
    }
}

/// Writes the positions of a commit's first parents, one by one.
#[cold]
#[inline(never)]
fn write_items(commit: Commit<'_>, out: &mut [u32]) -> CgParents
    ensures { TellsFirstParents (commit_parents commit.entry) result out.old out.new }
{
    let mut count: u64 = 0;
    for parent in commit.iter_parents() {
        match parent {
            Ok(pos) => {
                if count >= out.len() as u64 {
                    let code = MORE_PARENTS;
                    return CgParents { code, count };
                }
                out[count as usize] = pos.0;
                count = count.saturating_add(1);
            }
            Err(error) => {
                let code = parent_code(error);
                return CgParents { code, count };
            }
        }
    }
    CgParents { code: 0, count }
}
