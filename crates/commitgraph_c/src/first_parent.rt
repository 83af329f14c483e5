//! The first parent of a commit, and none of the others.

ghost use Rattle.std.specs.Prelude.{◌≡◌, ◌≢◌, ◌↔◌, ◌≤◌, ◌⊎◌, IsSomeAnd, None, Some};
ghost use Rattle.graph_format.specs.Parents.{first_of, items_of};
ghost use Rattle.graph_layer.specs.Commit.{commit_parents};
ghost use Rattle.gix_commitgraph.specs.Graph.{total};
ghost use Rattle.c_opening.specs.Answers.{HasCommit, layers_of, nowhere};
ghost use Rattle.c_opening.specs.Codes.{closed_graph, no_such_position};
ghost use Rattle.commitgraph_c.specs.FirstParents.{no_first, told_first};
ghost use Rattle.commitgraph_c.specs.QueryAnswers.{parents_in};

use crate::commit_at::{commit_in, usual_edges};
use c_opening::CgGraph;
use c_opening::codes::{CLOSED_GRAPH, NO_SUCH_POSITION, parent_code};
use gix_commitgraph::file::Commit;
use gix_commitgraph::{Graph, Position};
use graph_format::parents::{ParentEdge, ParentError};
use graph_layer::fields::parent_edges;

/// The answer where there is no position.
const NOWHERE: u32 = 0xffff_ffff;

/// What is told of a commit's first parent: for C two numbers that come back in one register.
#[repr(C)]
#[derive(Clone, Copy)]
pub struct CgParent {
    /// 0 where there is a first parent or no parent, else the number of the fault in its place, or
    /// of why none was looked for.
    pub code: u32,
    /// The position of the first parent, else 0xffffffff.
    pub position: u32,
}

/// The first parent of the commit at a position. What the second field says of the others is not
/// told.
pub fn cg_first_parent(graph: CgGraph, pos: u32) -> CgParent
    ensures told { result.code ≢ no_such_position → result.code ≢ closed_graph
        → HasCommit (layers_of graph.address.held) pos (λ commit.
        result ≡ told_first (first_of (items_of (parents_in commit)))) }
    ensures nowhere { result.code ≡ no_such_position
        ↔ IsSomeAnd (layers_of graph.address.held) (λ layers. total layers ≤ pos) }
    ensures closed { result.code ≡ closed_graph ↔ layers_of graph.address.held ≡ None }
    ensures none { (result.code ≡ no_such_position) ⊎ (result.code ≡ closed_graph)
        → result.position ≡ nowhere }
{
    if !graph.is_open() {
        return none(CLOSED_GRAPH);
    }
    first_in(graph.open_graph(), pos)
}

/// The same of an open graph. Where there is one layer, none is looked for.
#[inline(always)]
#[tactic(auto, using(crate::proofs::FirstRoom::told_by_first_field))]
fn first_in(graph: &Graph, pos: u32) -> CgParent
    ensures told { result.code ≢ no_such_position → HasCommit (Some graph.now) pos (λ commit.
        result ≡ told_first (first_of (items_of (parents_in commit)))) }
    ensures nowhere { result.code ≡ no_such_position ↔ total graph.now ≤ pos }
    ensures open { result.code ≢ closed_graph }
    ensures none { result.code ≡ no_such_position → result.position ≡ nowhere }
{
    if graph.layers().len() == 1
        && let Some((ParentEdge::GraphPosition(first), _)) = usual_edges(graph, pos)
    {
        return first_at(first);
    }
    match commit_in(graph, pos) {
        Some(commit) => first_parent_of(commit),
        None => none(NO_SUCH_POSITION),
    }
}

/// What is told of a commit's first parent. Where its first field names it, no more is decoded.
#[inline(always)]
fn first_parent_of(commit: Commit<'_>) -> CgParent
    ensures told { result ≡ told_first (first_of (items_of (commit_parents commit.entry))) }
    ensures there { result.code ≢ no_such_position }
    ensures open { result.code ≢ closed_graph }
{
    match parent_edges(&commit) {
        (ParentEdge::GraphPosition(first), _) => first_at(first),
        _ => decoded(commit),
    }
}

/// The same, where the first field does not say it. This stays a call of its own, so that where it
/// does no memory is used for the decoding.
#[cold]
#[inline(never)]
fn decoded(commit: Commit<'_>) -> CgParent
    ensures told { result ≡ told_first (first_of (items_of (commit_parents commit.entry))) }
    ensures there { result.code ≢ no_such_position }
    ensures open { result.code ≢ closed_graph }
{
    told(commit.parent1())
}

/// Tells a first parent.
fn first_at(first: Position) -> CgParent
    ensures { result ≡ record { code = 0; position = first.0 } }
{
    CgParent {
        code: 0,
        position: first.0,
    }
}

/// What is told of a first parent.
fn told(first: Result<Option<Position>, ParentError>) -> CgParent
    ensures told { result ≡ told_first first }
    ensures there { result.code ≢ no_such_position }
    ensures open { result.code ≢ closed_graph }
{
    match first {
        Ok(Some(first)) => first_at(first),
        Ok(None) => none(0),
        Err(error) => none(parent_code(error)),
    }
}

/// Tells no first parent.
fn none(code: u32) -> CgParent
    ensures { result ≡ no_first code }
{
    CgParent {
        code,
        position: NOWHERE,
    }
}
