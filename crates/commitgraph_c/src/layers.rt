//! The layers of a graph, each of which is a file.

ghost use Rattle.std.specs.Prelude.{◌≡◌, ◌≢◌, ◌≤◌, IfSome, IsSomeAnd, IsTrue, false, length};
ghost use Rattle.std.specs.Prelude.{option_map, slice_get};
ghost use Rattle.std.specs.Option.{option_map_or};
ghost use Rattle.c_opening.specs.Answers.{layers_of};
ghost use Rattle.commitgraph_c.specs.Layers.{HasLayer, hash_number, told_layer};

use c_opening::CgGraph;
use c_opening::check::commits_below;
use c_opening::read::put;
use gix_commitgraph::{File, Graph};
use gix_hash_core::Kind;
use graph_layer::fields::base_id_at;

/// What is told of a layer.
#[repr(C)]
#[derive(Clone, Copy)]
pub struct CgLayer {
    /// The position of its first commit.
    pub first: u32,
    pub num_commits: u32,
    /// How many base ids it has.
    pub bases: u32,
    /// The number of its kind of hash: 1 is SHA-1, and 2 is SHA-256.
    pub hash: u32,
}

/// The number of layers.
pub fn cg_num_layers(graph: CgGraph) -> u64
    ensures { result ≡ option_map_or length (layers_of graph.address.held) 0 }
{
    match graph.graph() {
        Some(graph) => graph.layers().len() as u64,
        None => 0,
    }
}

/// Writes what is told of a layer, which counts from the lowest. Answers whether there is one.
pub fn cg_layer(graph: CgGraph, layer: u64, out: &mut CgLayer) -> bool
    ensures tells { IsTrue result → IsSomeAnd (layers_of graph.address.held) (λ layers.
        IsSomeAnd (slice_get layers layer) (λ it. out.new ≡ told_layer layers layer it)) }
    ensures none { result ≡ false → IfSome (layers_of graph.address.held) (λ layers.
        length layers ≤ layer) }
    ensures kept { result ≡ false → out.new ≡ out.old }
{
    let Some(graph) = graph.graph() else {
        return false;
    };
    let Some(file) = file_of(graph, layer) else {
        return false;
    };
    *out = CgLayer {
        first: commits_below(graph, layer as usize),
        num_commits: file.num_commits(),
        bases: u32::from(file.base_graph_count()),
        hash: hash_number(file.object_hash()),
    };
    true
}

/// Writes the checksum of a layer. Answers its length, or 0 where there is no such layer or where
/// the room is of another size.
pub fn cg_layer_checksum(graph: CgGraph, layer: u64, out: &mut [u8]) -> usize
    ensures id { result ≢ 0 → HasLayer (layers_of graph.address.held) layer (λ it.
        out.new ≡ it.checksum) }
    ensures length { result ≢ 0 → result ≡ length out.new }
    ensures none { result ≡ 0 → IfSome (layers_of graph.address.held) (λ layers.
        IfSome (slice_get layers layer) (λ it. length it.checksum ≢ length out.old)) }
    ensures kept { result ≡ 0 → out.new ≡ out.old }
{
    let Some(graph) = graph.graph() else {
        return 0;
    };
    match file_of(graph, layer) {
        Some(file) => put(file.checksum(), out),
        None => 0,
    }
}

/// Writes a base id of a layer, which counts from 0, as `cg_layer_checksum` writes a checksum.
pub fn cg_base_id_at(graph: CgGraph, layer: u64, index: u64, out: &mut [u8]) -> usize
    ensures id { result ≢ 0 → HasLayer (layers_of graph.address.held) layer (λ it.
        IsSomeAnd (slice_get it.bases index) (λ id. out.new ≡ id)) }
    ensures length { result ≢ 0 → result ≡ length out.new }
    ensures none { result ≡ 0 → IfSome (layers_of graph.address.held) (λ layers.
        IfSome (slice_get layers layer) (λ it. IfSome (slice_get it.bases index) (λ id.
        length id ≢ length out.old))) }
    ensures kept { result ≡ 0 → out.new ≡ out.old }
{
    let Some(graph) = graph.graph() else {
        return 0;
    };
    let Some(file) = file_of(graph, layer) else {
        return 0;
    };
    if index >= u64::from(file.base_graph_count()) {
        return 0;
    }
    put(base_id_at(file, index as u8), out)
}

/// The file of a layer, if there is such a layer.
pub(crate) fn file_of(graph: &Graph, layer: u64) -> Option<&File>
    ensures { option_map (λ file. file.now) result ≡ slice_get graph.now layer }
{
    let files = graph.layers();
    if layer >= files.len() as u64 {
        return None;
    }
    Some(&files[layer as usize])
}

/// The number of a kind of hash, in a file's header.
fn hash_number(kind: Kind) -> u32
    ensures { result ≡ hash_number kind }
{
    match kind {
        Kind::Sha1 => 1,
        Kind::Sha256 => 2,
    }
}
