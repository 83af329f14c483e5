//! Ids and positions, many in one call.

ghost use Rattle.std.specs.Prelude.{◌≡◌, ◌↔◌, ◌/◌, ◌<◌, ◌≤◌, ◌⊎◌, All, IfSome, IsSomeAnd, IsTrue};
ghost use Rattle.std.specs.Prelude.{None, false, is_some, length, min, slice_get, take};
ghost use Rattle.gix_hash_core.specs.Kind.{id_len, is_id_len};
ghost use Rattle.gix_hash_core.specs.Oid.{oid_bytes};
ghost use Rattle.graph_format.specs.Format.{pieces};
ghost use Rattle.gix_commitgraph.specs.Graph.{total};
ghost use Rattle.c_opening.specs.Answers.{layers_of};
ghost use Rattle.c_opening.specs.Codes.{closed_graph, no_such_position};
ghost use Rattle.commitgraph_c.specs.Many.{AnswersFirst};
ghost use Rattle.c_opening.specs.Answers.{AnswersLookup};
ghost use Rattle.commitgraph_c.specs.ManyIds.{TellsIds};

use crate::pairs::CgAnswered;
use c_opening::codes::{CLOSED_GRAPH, NO_SUCH_POSITION};
use c_opening::read::look_up;
use c_opening::{CgGraph, Opened};
use gix_commitgraph::{Graph, Position};
use gix_hash_core::oid;

/// Looks up ids of this size, which stand one after another, and writes the position of each, or
/// 0xffffffff, as many as there is room for. Answers how many ids there are.
pub fn cg_lookup_all(graph: CgGraph, ids: &[u8], size: usize, out: &mut [u32]) -> u64
    ensures count { IsTrue (is_some graph.address.held) → IsTrue (is_id_len size)
        → result ≡ length (pieces size ids.now) }
    ensures answers { IfSome graph.address.held (λ held. IsTrue (is_id_len size)
        → AnswersFirst (AnswersLookup held) (pieces size ids.now) (min result (length out.old))
        out.old out.new) }
    ensures size { is_id_len size ≡ false → (result ≡ 0) × (out.new ≡ out.old) }
    ensures closed { graph.address.held ≡ None → (result ≡ 0) × (out.new ≡ out.old) }
{
    let Some(opened) = graph.opened() else {
        return 0;
    };
    if size != 20 && size != 32 {
        return 0;
    }
    look_up_all(opened, ids, size, out)
}

/// Looks up ids, one after another.
#[tactic(auto, using(crate::proofs::ManyRoom::answer_laws))]
fn look_up_all(opened: &Opened, ids: &[u8], size: usize, out: &mut [u32]) -> u64
    requires { IsTrue (is_id_len size) }
    ensures count { result ≡ length (pieces size ids.now) }
    ensures answers { AnswersFirst (AnswersLookup opened.now) (pieces size ids.now)
        (min result (length out.old)) out.old out.new }
{
    let count = ids.len() / size;
    for place in 0..count.min(out.len()) {
        let start = size * place;
        out[place] = look_up(opened, &ids[start..start + size]);
    }
    count as u64
}

/// Writes the ids at these positions, one after another, as long as there is room.
pub fn cg_ids_at(graph: CgGraph, positions: &[u32], out: &mut [u8]) -> CgAnswered
    ensures ids { IfSome (layers_of graph.address.held) (λ layers.
        TellsIds layers (take result.answered positions.now) out.old out.new) }
    ensures all { result.code ≡ 0 → IsSomeAnd (layers_of graph.address.held) (All (λ layer.
        result.answered ≡ min (length positions.now) (length out.old / id_len layer.kind))) }
    ensures left { result.code ≡ no_such_position → IsSomeAnd (layers_of graph.address.held)
        (All (λ layer.
        result.answered < min (length positions.now) (length out.old / id_len layer.kind))) }
    ensures nowhere { result.code ≡ no_such_position → IsSomeAnd (layers_of graph.address.held)
        (λ layers. IsSomeAnd (slice_get positions.now result.answered) (λ pos.
        total layers ≤ pos)) }
    ensures closed { result.code ≡ closed_graph ↔ graph.address.held ≡ None }
    ensures codes { (result.code ≡ 0) ⊎ ((result.code ≡ no_such_position)
        ⊎ (result.code ≡ closed_graph)) }
    ensures kept { result.code ≡ closed_graph → (result.answered ≡ 0) × (out.new ≡ out.old) }
{
    match graph.graph() {
        Some(graph) => write_ids(graph, positions, out),
        None => CgAnswered {
            code: CLOSED_GRAPH,
            answered: 0,
        },
    }
}

/// Writes the ids at these positions, one after another.
fn write_ids(graph: &Graph, positions: &[u32], out: &mut [u8]) -> CgAnswered
    ensures ids { TellsIds graph.now (take result.answered positions.now) out.old out.new }
    ensures all { result.code ≡ 0 → All (λ layer.
        result.answered ≡ min (length positions.now) (length out.old / id_len layer.kind))
        graph.now }
    ensures left { result.code ≡ no_such_position → All (λ layer.
        result.answered < min (length positions.now) (length out.old / id_len layer.kind))
        graph.now }
    ensures nowhere { result.code ≡ no_such_position
        → IsSomeAnd (slice_get positions.now result.answered) (λ pos. total graph.now ≤ pos) }
    ensures codes { (result.code ≡ 0) ⊎ (result.code ≡ no_such_position) }
{
    let commits = graph.num_commits();
    let size = graph.object_hash().len_in_bytes();
    let places = positions.len().min(out.len() / size);
    for place in 0..places {
        let pos = positions[place];
        if pos >= commits {
            return CgAnswered {
                code: NO_SUCH_POSITION,
                answered: place as u64,
            };
        }
        let start = size * place;
        write_id(graph.id_at(Position(pos)), &mut out[start..start + size]);
    }
    CgAnswered {
        code: 0,
        answered: places as u64,
    }
}

/// Writes an id into a room of its size.
fn write_id(id: oid<'_>, out: &mut [u8])
    requires { length (oid_bytes id) ≡ length out.old }
    ensures { out.new ≡ oid_bytes id.entry }
{
    out.copy_from_slice(id.as_bytes());
}
