//! The parents of a commit.

ghost use Rattle.std.specs.Prelude.{◌≡◌, ◌≢◌, ◌↔◌, ◌<◌, ◌≤◌, ◌⊎◌, None, IfSome, IsSomeAnd, set};
ghost use Rattle.std.specs.Prelude.{true};
ghost use Rattle.graph_layer.specs.Commit.{commit_parents};
ghost use Rattle.gix_commitgraph.specs.Graph.{total};
ghost use Rattle.c_opening.specs.Answers.{HasCommit, layers_of};
ghost use Rattle.commitgraph_c.specs.QueryAnswers.{TellsParents, parents_in};
ghost use Rattle.c_opening.specs.Codes.{closed_graph, no_such_position};

use c_opening::CgGraph;
use c_opening::codes::{CLOSED_GRAPH, NO_SUCH_POSITION, parent_code};
use gix_commitgraph::Position;
use gix_commitgraph::file::Commit;
use gix_commitgraph::law::sound::the_parents_of_a_right_graph_are_there;
use graph_format::parents::ParentEdge;
use graph_layer::fields::parent_edges;

/// The parents of a commit, as far as they can be decoded.
#[repr(C)]
#[derive(Clone, Copy)]
pub struct CgParents {
    /// 0 where there are no more, else the number of the fault that comes after them, or of why
    /// none were looked for.
    pub code: u32,
    pub count: u64,
}

/// Writes the positions of the parents of the commit at a position, first parent first, as many as
/// there is room for.
pub fn cg_parents(graph: CgGraph, pos: u32, out: &mut [u32]) -> CgParents
    ensures parents { result.code ≢ no_such_position → result.code ≢ closed_graph
        → HasCommit (layers_of graph.address.held) pos (λ commit.
        TellsParents (parents_in commit) result out.old out.new) }
    ensures nowhere { result.code ≡ no_such_position
        ↔ IsSomeAnd (layers_of graph.address.held) (λ layers.
        total layers ≤ pos) }
    ensures closed { result.code ≡ closed_graph ↔ layers_of graph.address.held ≡ None }

    // In a graph that was found right each position has all its parents.
    ensures right { IfSome graph.address.held (λ held.
        held.1 ≡ true → pos < total held.0 → result.code ≡ 0) }
    ensures kept { (result.code ≡ no_such_position) ⊎ (result.code ≡ closed_graph)
        → (out.new ≡ out.old) × (result.count ≡ 0) }
{
    the_parents_of_a_right_graph_are_there();
    let Some(opened) = graph.opened() else {
        return CgParents {
            code: CLOSED_GRAPH,
            count: 0,
        };
    };
    let graph = opened.graph();
    if pos >= graph.num_commits() {
        return CgParents {
            code: NO_SUCH_POSITION,
            count: 0,
        };
    }
    write_parents(graph.commit_at(Position(pos)), out)
}

/// Writes the positions of a commit's parents, as many as there is room for.
#[inline(always)]
pub(crate) fn write_parents(commit: Commit<'_>, out: &mut [u32]) -> CgParents
    ensures { TellsParents (commit_parents commit.entry) result out.old out.new }
{
    match parent_edges(&commit) {
        (ParentEdge::None, ParentEdge::None) => CgParents { code: 0, count: 0 },
        (ParentEdge::GraphPosition(first), ParentEdge::None) => {
            write_at(out, 0, first);
            CgParents { code: 0, count: 1 }
        }
        (ParentEdge::GraphPosition(first), ParentEdge::GraphPosition(second)) => {
            write_at(out, 0, first);
            write_at(out, 1, second);
            CgParents { code: 0, count: 2 }
        }
        _ => write_items(commit, out),
    }
}

/// Writes a position at a place, if there is room for it.
#[inline(always)]
pub(crate) fn write_at(out: &mut [u32], place: usize, pos: Position)
    ensures { out.new ≡ set out.old place pos.0 }
{
    if place < out.len() {
        out[place] = pos.0;
    }
}

/// Writes the positions of a commit's parents, one by one.
#[cold]
#[inline(never)]
fn write_items(commit: Commit<'_>, out: &mut [u32]) -> CgParents
    ensures { TellsParents (commit_parents commit.entry) result out.old out.new }
{
    let mut count: u64 = 0;
    for parent in commit.iter_parents() {
        match parent {
            Ok(pos) => {
                if count < out.len() as u64 {
                    out[count as usize] = pos.0;
                }
                count = count.saturating_add(1);
            }
            Err(error) => {
                let code = parent_code(error);
                return CgParents { code, count };
            }
        }
    }
    CgParents { code: 0, count }
}
