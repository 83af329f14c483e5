//! Files that a program has in memory.

ghost use Rattle.std.specs.Prelude.{◌≡◌, ◌∷◌, [], IfErr, IfOk};
ghost use Rattle.gix_commitgraph.specs.Layer.{IsLayer, Layer};
ghost use Rattle.gix_commitgraph.specs.OpenRefusals.{layer_refused};
ghost use Rattle.graph_uses.specs.PathRefusals.{MayRefuseBytes};

use gix_commitgraph::opening::OpenError;
use gix_commitgraph::{File, FileError, Graph};
use std::alloc::Global;

/// The graph of one layer whose file has these bytes. Nothing is read from a disk, and the graph is
/// not checked.
///
/// The error is `Layer` where the bytes are no layer, `Graph` where the layer has more commits than
/// a graph can have, and `OutOfMemory` where the bytes are a layer and an allocation failed.
pub fn open_bytes(alloc: Global, bytes: Vec<u8>) -> Result<Graph, OpenError>
    ensures layer { IfOk result (λ graph. (layer : Layer) × IsLayer bytes.items [] layer
        × (graph ≡ layer ∷ [])) }
    ensures refused { IfErr result (MayRefuseBytes bytes.items) }
{
    let file = File::new(alloc, bytes, String::new(alloc)).map_err(|error| refusal_of(error))?;
    let mut files = Vec::new(alloc);
    files.push(file)?;
    Ok(Graph::new(alloc, files)?)
}

/// The refusal of the one layer.
fn refusal_of(error: FileError) -> OpenError
    ensures { result ≡ layer_refused 0 error }
{
    match error {
        FileError::OutOfMemory => OpenError::OutOfMemory,
        error => OpenError::Layer { layer: 0, error },
    }
}
