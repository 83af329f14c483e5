//! Opening the graph of a chain in which a file may stand several times, for C.

ghost use Rattle.std.specs.Prelude.{◌≡◌, ◌≢◌, ◌<◌, All, IfErr, IfNone, IfOk, IfSome, IsSomeAnd};
ghost use Rattle.std.specs.Prelude.{false, length, nat_le, position};
ghost use Rattle.c_opening.specs.Chain.{IsChainOf, IsLayerAt, RefusesChain, files_at};
ghost use Rattle.c_opening.specs.Files.{IsOpenedFrom, RefusesFiles, no_error};

use crate::codes::NO_SUCH_LAYER;
use crate::handle::CgOwner;
use crate::layer::open_known_layer;
use crate::open::{CgError, CgFile, add, error, file_error, graph_error, write_unchecked};
use gix_commitgraph::{File, FileError, Graph};
use std::alloc::Global;
use std::collections::BTreeMap;

/// Opens the graph of a chain as `cg_open_lent` does, whose layers are the files at these places,
/// the lowest first. A file is decoded once, however many layers it is. Where a place is past the
/// end of the files, the first layer with such a place is told, and no file is opened. Where the
/// graph is refused, nothing is written.
pub fn cg_open_chain(
    alloc: Global,
    files: &[CgFile<'static>],
    places: &[u64],
    out: &mut CgOwner,
) -> CgError
    ensures opened { result.code ≡ 0 → IsSomeAnd out.new.address.held (λ held.
        (held.1 ≡ false) × IsChainOf files.now places.now held.0) }
    ensures told { result.code ≡ 0 → result ≡ no_error }
    ensures kept { result.code ≢ 0 → out.new ≡ out.old }
    ensures refused { result.code ≢ 0 → RefusesChain files.now places.now result }
{
    if let Some(layer) = first_without_file(files.len(), places) {
        return error(NO_SUCH_LAYER, layer as u64);
    }
    match open_at(alloc, files, places) {
        Ok(graph) => write_unchecked(alloc, graph, out),
        Err(refusal) => refusal,
    }
}

/// The first layer whose place is past the end of so many files.
fn first_without_file(count: usize, places: &[u64]) -> Option<usize>
    ensures first { result ≡ position (λ place. nat_le count place) places.now }
    ensures all { IfNone result (All (λ place. place < count) places.now) }
{
    places.iter().position(|place| *place >= count as u64)
}

/// Opens each of the files at these places once, and makes a graph of the layers.
fn open_at(alloc: Global, files: &[CgFile<'static>], places: &[u64]) -> Result<Graph, CgError>
    requires { All (λ place. place < length files.now) places.now }
    ensures opened { IfOk result (IsOpenedFrom (files_at files.now places.now)) }
    ensures refused { IfErr result (RefusesFiles (files_at files.now places.now)) }
    ensures code { IfErr result (λ e. e.code ≢ 0) }
{
    let mut layers = Vec::new(alloc);
    let mut numbers = BTreeMap::new(alloc);
    for place in places {
        let number = layers.len();
        let known = layer_at(&layers, places, *place, numbers.get(place).copied());
        let is_new = known.is_none();
        let layer = open_known_layer(alloc, files[*place as usize], known, number as u64)?;
        add(&mut layers, layer, number as u64)?;
        if is_new && numbers.insert(*place, number).is_err() {
            return Err(file_error(&FileError::OutOfMemory, number as u64));
        }
    }
    match Graph::new(alloc, layers) {
        Ok(graph) => Ok(graph),
        Err(refusal) => Err(graph_error(&refusal)),
    }
}

/// The layer of this number, if it was opened of the file at this place.
fn layer_at<'a>(
    layers: &'a [File],
    places: &[u64],
    place: u64,
    number: Option<usize>,
) -> Option<&'a File>
    ensures { IfSome result (λ layer. IsLayerAt layers.now places.now place layer.now) }
{
    let number = number?;
    if *places.get(number)? == place {
        layers.get(number)
    } else {
        None
    }
}
