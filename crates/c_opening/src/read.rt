//! Reading a graph.

ghost use Rattle.std.specs.Prelude.{◌≡◌, ◌≢◌, ◌<◌, ◌≤◌, All, IfNone, IfSome, IsSomeAnd, IsTrue};
ghost use Rattle.std.specs.Prelude.{None, Some, false, length, slice_get, true};
ghost use Rattle.std.specs.Option.{option_map_or};
ghost use Rattle.gix_hash_core.specs.Kind.{id_len, is_id_len};
ghost use Rattle.gix_hash_core.specs.Oid.{oid_bytes};
ghost use Rattle.gix_hash_core.specs.declared.kind.Kind.TheVariants.{Sha256};
ghost use Rattle.graph_format.specs.Lookup.{scan};
ghost use Rattle.graph_layer.specs.Commit.{layer_and_position};
ghost use Rattle.gix_commitgraph.specs.Graph.{graph_ids, total};
ghost use Rattle.gix_commitgraph.specs.GraphLookup.{FoundIn, position_number};
ghost use Rattle.c_opening.specs.Answers.{HasCommit, HasId, HasRecord};
ghost use Rattle.c_opening.specs.Answers.{layers_of, nowhere, told_commit, told_position};
ghost use Rattle.c_opening.specs.Answers.{AnswersLookup};

use crate::handle::CgGraph;
use crate::opened::Opened;
use gix_commitgraph::file::Commit;
use gix_commitgraph::law::graph::the_commits_of_layers_add_up;
use gix_commitgraph::law::sound::a_lookup_in_a_right_graph_is_a_scan;
use gix_commitgraph::{Graph, Position};
use gix_hash_core::{Kind, oid};
use graph_layer::lookups;

/// The answer where there is no position.
const NOWHERE: u32 = 0xffff_ffff;

/// What the record of a commit says, but for its tree and its parents.
#[repr(C)]
#[derive(Clone, Copy)]
pub struct CgCommit {
    pub time: u64,
    pub generation: u32,
}

/// The number of commits.
pub fn cg_num_commits(graph: CgGraph) -> u32
    ensures { result ≡ option_map_or total (layers_of graph.address.held) 0 }
{
    match graph.graph() {
        Some(graph) => graph.num_commits(),
        None => 0,
    }
}

/// The number of bytes of an id.
pub fn cg_id_len(graph: CgGraph) -> usize
    ensures open { IfSome (layers_of graph.address.held) (All (λ layer.
        id_len layer.kind ≡ result)) }
    ensures closed { IfNone (layers_of graph.address.held) (result ≡ 0) }
{
    match graph.graph() {
        Some(graph) => graph.object_hash().len_in_bytes(),
        None => 0,
    }
}

/// The position of an id, or 0xffffffff.
pub fn cg_lookup(graph: CgGraph, id: &[u8]) -> u32
    ensures holds { result ≢ nowhere → HasId (layers_of graph.address.held) result id.now }
    ensures unchecked { IsTrue (is_id_len (length id.now)) → IfSome graph.address.held (λ held.
        held.1 ≡ false → FoundIn held.0 id.now (told_position result)) }
    ensures checked { IsTrue (is_id_len (length id.now)) → IfSome graph.address.held (λ held.
        held.1 ≡ true → told_position result ≡ scan (graph_ids held.0) id.now) }
    ensures size { is_id_len (length id.now) ≡ false → result ≡ nowhere }
    ensures closed { IfNone graph.address.held (result ≡ nowhere) }
{
    match graph.opened() {
        Some(opened) => look_up(opened, id),
        None => NOWHERE,
    }
}

/// The position of an id, or 0xffffffff.
pub fn look_up(opened: &Opened, id: &[u8]) -> u32
    ensures answer { IsTrue (is_id_len (length id.now)) → AnswersLookup opened.now id.now result }
    ensures size { is_id_len (length id.now) ≡ false → result ≡ nowhere }
{
    let Some(id) = oid::try_from_bytes(id) else {
        return NOWHERE;
    };
    a_lookup_in_a_right_graph_is_a_scan();
    lookup_in(opened.graph(), id)
}

/// The position of an id, as a number.
#[inline(always)]
fn lookup_in(graph: &Graph, id: oid<'_>) -> u32
    ensures holds { result ≢ nowhere
        → slice_get (graph_ids graph.now) result ≡ Some (oid_bytes id.entry) }
    ensures found { FoundIn graph.now (oid_bytes id.entry) (told_position result) }
{
    match id.kind() {
        Kind::Sha1 => lookup_of_kind(graph, id, Kind::Sha1),
        Kind::Sha256 => lookup_of_sha256(graph, id),
    }
}

/// The position of an id of SHA-256. This stays a call of its own, so that for an id of SHA-1 no
/// register is saved for it.
#[inline(never)]
fn lookup_of_sha256(graph: &Graph, id: oid<'_>) -> u32
    requires { length (oid_bytes id) ≡ id_len Sha256 }
    ensures holds { result ≢ nowhere
        → slice_get (graph_ids graph.now) result ≡ Some (oid_bytes id.entry) }
    ensures found { FoundIn graph.now (oid_bytes id.entry) (told_position result) }
{
    lookup_of_kind(graph, id, Kind::Sha256)
}

/// The position of an id of this kind. Most graphs have one layer.
#[inline(always)]
fn lookup_of_kind(graph: &Graph, id: oid<'_>, kind: Kind) -> u32
    requires { length (oid_bytes id) ≡ id_len kind }
    ensures holds { result ≢ nowhere
        → slice_get (graph_ids graph.now) result ≡ Some (oid_bytes id.entry) }
    ensures found { FoundIn graph.now (oid_bytes id.entry) (told_position result) }
{
    if graph.layers().len() == 1 {
        number(graph, lookup_in_layer(graph, id, kind))
    } else {
        lookup_in_layers(graph, id)
    }
}

/// The position of an id of this kind in a graph of one layer.
#[inline(always)]
#[tactic(auto, using(crate::proofs::OneLayer::lookup_laws))]
fn lookup_in_layer(graph: &Graph, id: oid<'_>, kind: Kind) -> Option<Position>
    requires one { length graph.now ≡ 1 }
    requires kind { length (oid_bytes id) ≡ id_len kind }
    ensures holds { IfSome result (λ pos.
        slice_get (graph_ids graph.now) pos.0 ≡ Some (oid_bytes id.entry)) }
    ensures found { FoundIn graph.now (oid_bytes id.entry) (position_number result) }
{
    match lookups::lookup_of_kind(&graph.layers()[0], id, kind) {
        Some(pos) => Some(Position(pos.0)),
        None => None,
    }
}

/// The position of an id in any graph, as a number. This stays a call of its own, so that where
/// there is one layer no register is saved for it.
#[inline(never)]
fn lookup_in_layers(graph: &Graph, id: oid<'_>) -> u32
    ensures holds { result ≢ nowhere
        → slice_get (graph_ids graph.now) result ≡ Some (oid_bytes id.entry) }
    ensures found { FoundIn graph.now (oid_bytes id.entry) (told_position result) }
{
    number(graph, graph.lookup(id))
}

/// Writes the id at a position. Answers its length, or 0 where there is no such position or where
/// the room is of another size.
pub fn cg_id_at(graph: CgGraph, pos: u32, out: &mut [u8]) -> usize
    ensures id { result ≢ 0 → HasId (layers_of graph.address.held) pos out.new }
    ensures length { result ≢ 0 → result ≡ length out.new }
    ensures none { result ≡ 0 → IfSome (layers_of graph.address.held) (λ layers.
        pos < total layers → IsSomeAnd (slice_get (graph_ids layers) pos) (λ id.
        length id ≢ length out.old)) }
    ensures kept { result ≡ 0 → out.new ≡ out.old }
{
    let Some(graph) = graph.graph() else {
        return 0;
    };
    if pos >= graph.num_commits() {
        return 0;
    }
    put(graph.id_at(Position(pos)), out)
}

/// Writes the id of the root tree of the commit at a position, as `cg_id_at` does.
pub fn cg_tree_at(graph: CgGraph, pos: u32, out: &mut [u8]) -> usize
    ensures id { result ≢ 0 → HasRecord (layers_of graph.address.held) pos (λ r. out.new ≡ r.tree) }
    ensures length { result ≢ 0 → result ≡ length out.new }
    ensures none { result ≡ 0 → IfSome (layers_of graph.address.held) (λ layers.
        pos < total layers → HasRecord (Some layers) pos (λ r. length r.tree ≢ length out.old)) }
    ensures kept { result ≡ 0 → out.new ≡ out.old }
{
    let Some(graph) = graph.graph() else {
        return 0;
    };
    if pos >= graph.num_commits() {
        return 0;
    }
    put(graph.commit_at(Position(pos)).root_tree_id(), out)
}

/// Writes an id, if the room is of its size, and answers its length.
pub fn put(id: oid<'_>, out: &mut [u8]) -> usize
    ensures id { result ≢ 0 → out.new ≡ oid_bytes id.entry }
    ensures length { result ≢ 0 → result ≡ length out.new }
    ensures none { result ≡ 0 → length (oid_bytes id.entry) ≢ length out.old }
    ensures kept { result ≡ 0 → out.new ≡ out.old }
{
    let id = id.as_bytes();
    if id.len() != out.len() {
        return 0;
    }
    out.copy_from_slice(id);
    id.len()
}

/// Writes what the record at a position says. Answers whether there is one.
pub fn cg_commit_at(graph: CgGraph, pos: u32, out: &mut CgCommit) -> bool
    ensures tells { IsTrue result → HasCommit (layers_of graph.address.held) pos (λ commit.
        out.new ≡ told_commit commit) }
    ensures none { result ≡ false → IfSome (layers_of graph.address.held) (λ layers.
        total layers ≤ pos) }
    ensures kept { result ≡ false → out.new ≡ out.old }
{
    let Some(graph) = graph.graph() else {
        return false;
    };
    if pos >= graph.num_commits() {
        return false;
    }
    *out = told(graph.commit_at(Position(pos)));
    true
}

/// The generation number of the commit at a position, and 0 where there is none.
pub fn cg_generation_at(graph: CgGraph, pos: u32) -> u32
    ensures number { IfSome (layers_of graph.address.held) (λ layers.
        pos < total layers → HasRecord (Some layers) pos (λ r. result ≡ r.generation)) }
    ensures none { IfSome (layers_of graph.address.held) (λ layers.
        total layers ≤ pos → result ≡ 0) }
    ensures closed { IfNone (layers_of graph.address.held) (result ≡ 0) }
{
    let Some(graph) = graph.graph() else {
        return 0;
    };
    if pos >= graph.num_commits() {
        return 0;
    }
    graph.commit_at(Position(pos)).generation()
}

/// What is told of a commit.
pub fn told(commit: Commit<'_>) -> CgCommit
    ensures { result ≡ told_commit (layer_and_position commit.entry) }
{
    CgCommit {
        time: commit.committer_timestamp(),
        generation: commit.generation(),
    }
}

/// A position as a number, or 0xffffffff.
fn number(graph: &Graph, pos: Option<Position>) -> u32
    requires { IfSome pos (λ pos. slice_get (graph_ids graph.now) pos.0 ≢ None) }
    ensures { told_position result ≡ position_number pos }
{
    the_commits_of_layers_add_up();
    let _commits = graph.num_commits();
    match pos {
        Some(pos) => pos.0,
        None => NOWHERE,
    }
}
