//! The check of one layer, without those below it.

ghost use Rattle.std.specs.Prelude.{◌≡◌, ◌≢◌, ◌↔◌, ◌≤◌, ◌⊎◌, IsSomeAnd, None, length};
ghost use Rattle.c_opening.specs.Answers.{layers_of};
ghost use Rattle.c_opening.specs.Codes.{closed_graph, no_such_layer};
ghost use Rattle.commitgraph_c.specs.Layers.{HasLayer};
ghost use Rattle.commitgraph_c.specs.LayerVerdict.{IsLayerVerdict, TellsLayerOutcome};
ghost use Rattle.commitgraph_c.specs.LayerVerdict.{refusal_in, refusal_of_layer};

use crate::layers::file_of;
use c_opening::CgGraph;
use c_opening::codes::{
    CLOSED_GRAPH, NO_SUCH_LAYER, OUT_OF_MEMORY, commit_code, layer_code, parent_code,
};
use gix_commitgraph::File;
use gix_commitgraph::file::Commit;
use gix_commitgraph::file::verify::{Outcome, TraverseError};
use gix_commitgraph::verify::{CommitFault, LayerFault};
use graph_history::NoFault;
use std::alloc::Global;

/// What the check of a layer found: `code` is 0 where it is right, else the number of the cause.
#[repr(C)]
#[derive(Clone, Copy)]
pub struct CgLayerVerdict {
    pub code: u32,
    pub num_commits: u32,
    pub min_generation: u32,
    pub max_generation: u32,
    /// The greatest number of parents.
    pub max_parents: u32,
    /// The position in the layer of the commit that has a fault.
    pub position: u32,
    /// The byte at which the fan is wrong.
    pub byte: u32,
}

/// Checks a layer, which counts from the lowest, as a file of its own: what it says of the layers
/// below it is not looked at. The answer is the verdict's code.
pub fn cg_verify_layer(alloc: Global, graph: CgGraph, layer: u64, out: &mut CgLayerVerdict) -> u32
    ensures code { result ≡ out.new.code }
    ensures verdict { result ≢ no_such_layer → result ≢ closed_graph
        → HasLayer (layers_of graph.address.held) layer (λ it. IsLayerVerdict it out.new) }
    ensures nowhere { result ≡ no_such_layer ↔ IsSomeAnd (layers_of graph.address.held)
        (λ layers. length layers ≤ layer) }
    ensures closed { result ≡ closed_graph ↔ layers_of graph.address.held ≡ None }
    ensures nothing { (result ≡ no_such_layer) ⊎ (result ≡ closed_graph)
        → out.new ≡ refusal_in result 0 0 }
{
    let verdict = match graph.graph() {
        None => refused(CLOSED_GRAPH),
        Some(graph) => match file_of(graph, layer) {
            None => refused(NO_SUCH_LAYER),
            Some(file) => verdict_on(alloc, file),
        },
    };
    *out = verdict;
    verdict.code
}

/// Checks a layer, and tells what was found.
fn verdict_on(alloc: Global, file: &File) -> CgLayerVerdict
    ensures verdict { IsLayerVerdict file.now result }
    ensures code { (result.code ≢ no_such_layer) × (result.code ≢ closed_graph) }
{
    match file.traverse(alloc, &mut |_: &Commit<'_>| Ok::<(), NoFault>(())) {
        Ok(outcome) => right(&outcome),
        Err(error) => wrong(error),
    }
}

/// Tells the statistics of a layer that is right.
fn right(outcome: &Outcome) -> CgLayerVerdict
    ensures { TellsLayerOutcome outcome.now result }
{
    CgLayerVerdict {
        num_commits: outcome.num_commits,
        min_generation: outcome.min_generation,
        max_generation: outcome.max_generation,
        max_parents: outcome.max_parents,
        ..refused(0)
    }
}

/// Tells why a layer is refused.
fn wrong(error: TraverseError<NoFault>) -> CgLayerVerdict
    ensures told { result ≡ refusal_of_layer error }
    ensures code { result.code ≢ 0 }
    ensures others { (result.code ≢ no_such_layer) × (result.code ≢ closed_graph) }
{
    match error {
        TraverseError::Checksum => refused(layer_code(LayerFault::Checksum)),
        TraverseError::FileName => refused(layer_code(LayerFault::FileName)),
        TraverseError::Fan { byte } => CgLayerVerdict {
            byte: byte as u32,
            ..refused(layer_code(LayerFault::Fan { byte }))
        },
        TraverseError::NullId { pos } => at(commit_code(CommitFault::NullId), pos.0),
        TraverseError::Order { pos } => at(commit_code(CommitFault::Order), pos.0),
        TraverseError::NullTree { pos } => at(commit_code(CommitFault::NullTree), pos.0),
        TraverseError::Processor { pos, .. } => at(309, pos.0),
        TraverseError::Parent { pos, error } => at(parent_code(error), pos.0),
        TraverseError::OutOfMemory => refused(OUT_OF_MEMORY),
    }
}

/// Tells of a fault of the commit at a position of the layer.
fn at(code: u32, position: u32) -> CgLayerVerdict
    ensures { result ≡ refusal_in code position 0 }
{
    CgLayerVerdict {
        position,
        ..refused(code)
    }
}

/// Tells a code alone.
fn refused(code: u32) -> CgLayerVerdict
    ensures { result ≡ refusal_in code 0 0 }
{
    CgLayerVerdict {
        code,
        num_commits: 0,
        min_generation: 0,
        max_generation: 0,
        max_parents: 0,
        position: 0,
        byte: 0,
    }
}
