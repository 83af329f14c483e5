//! Bytes that are lent: the ids of an open graph, and what a call has made.

ghost use Rattle.std.specs.Prelude.{◌≡◌, ◌≤◌, IfSome, IsTrue, Some, false, is_some};
ghost use Rattle.gix_commitgraph.specs.Graph.{total};
ghost use Rattle.c_opening.specs.Answers.{HasId, HasRecord, layers_of};

use c_opening::{CgBytes, CgGraph};
use gix_commitgraph::Position;

/// Bytes that are lent: those of an id until the graph is closed, those that a call has made until
/// they are freed. For C they are a pointer and a length.
#[repr(C)]
#[derive(Clone, Copy)]
pub struct CgLent {
    pub bytes: &'static [u8],
}

/// Lends the id at a position. Answers whether there is one.
pub fn cg_lend_id(graph: CgGraph, pos: u32, out: &mut CgLent) -> bool
    ensures id { IsTrue result → HasId (layers_of graph.address.held) pos out.new.bytes.now }
    ensures none { result ≡ false → IfSome (layers_of graph.address.held) (λ layers.
        total layers ≤ pos) }
    ensures kept { result ≡ false → out.new ≡ out.old }
{
    let Some(graph) = graph.graph() else {
        return false;
    };
    if pos >= graph.num_commits() {
        return false;
    }
    let bytes = graph.id_at(Position(pos)).as_bytes();
    *out = CgLent { bytes };
    true
}

/// Lends the id of the root tree of the commit at a position, as `cg_lend_id` lends its own.
pub fn cg_lend_tree(graph: CgGraph, pos: u32, out: &mut CgLent) -> bool
    ensures id { IsTrue result → HasRecord (layers_of graph.address.held) pos (λ r.
        out.new.bytes.now ≡ r.tree) }
    ensures none { result ≡ false → IfSome (layers_of graph.address.held) (λ layers.
        total layers ≤ pos) }
    ensures kept { result ≡ false → out.new ≡ out.old }
{
    let Some(graph) = graph.graph() else {
        return false;
    };
    if pos >= graph.num_commits() {
        return false;
    }
    let bytes = graph.commit_at(Position(pos)).root_tree_id().as_bytes();
    *out = CgLent { bytes };
    true
}

/// Lends the bytes that a call has made, until they are freed. Answers whether there are some.
pub fn cg_lend_bytes(bytes: CgBytes, out: &mut CgLent) -> bool
    ensures lent { IsTrue result → bytes.address.held ≡ Some out.new.bytes.now }
    ensures some { result ≡ is_some bytes.address.held }
    ensures kept { result ≡ false → out.new ≡ out.old }
{
    let Some(kept) = bytes.kept() else {
        return false;
    };
    *out = CgLent {
        bytes: kept.bytes(),
    };
    true
}
