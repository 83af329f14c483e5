//! Opening a graph from the bytes of its layers, and giving it back.

ghost use Rattle.std.specs.Prelude.{◌≡◌, ◌≢◌, ◌⊎◌, ◌++◌, ◌∷◌, [], IfErr, IfNone, IfOk, IfSome};
ghost use Rattle.std.specs.Prelude.{IsSomeAnd, OnOk};
ghost use Rattle.std.specs.Prelude.{None, Some, false, is_some, string_bytes, true};
ghost use Rattle.std.specs.Str.{IsUtf8};
ghost use Rattle.graph_format.specs.Layer.{IsLayer};
ghost use Rattle.graph_format.specs.Refusal.{refusal};
ghost use Rattle.gix_commitgraph.specs.GraphRefusal.{graph_refusal};
ghost use Rattle.gix_commitgraph.specs.Distinct.{IsSoundWith};
ghost use Rattle.c_opening.specs.Files.{IsOpenedFrom, RefusesFile, RefusesFiles};
ghost use Rattle.c_opening.specs.Files.{no_error, told_file, told_graph};
ghost use Rattle.c_opening.specs.Verdict.{FailsCheck, TellsCounts, TellsStats, options_of};
ghost use Rattle.c_opening.specs.Verdict.{TellsRefusal, closed_verdict, told_unopened};

use crate::check::{CgCount, CgVerdict, refused, right, wrong};
use crate::codes::{CLOSED_GRAPH, file_code, graph_code};
use crate::handle::CgOwner;
use crate::layer::{open_layer, open_lent_layer};
use crate::opened::Opened;
use gix_commitgraph::verify::VerifyOptions;
use gix_commitgraph::{File, FileError, Graph, GraphError};
use graph_history::CheckedGraph;
use std::alloc::Global;

/// The bytes of a layer, and the path of its file: for C two pointers, each with a length.
#[repr(C)]
#[derive(Clone, Copy)]
pub struct CgFile<'a> {
    pub bytes: &'a [u8],
    pub path: &'a [u8],
}

/// What was answered: 0, or why not.
#[repr(C)]
#[derive(Clone, Copy)]
pub struct CgError {
    /// 0 where there is no error, else the number of the cause.
    pub code: u32,
    /// The layer that is refused.
    pub layer: u64,
}

pub(crate) fn error(code: u32, layer: u64) -> CgError
    ensures code { result.code ≡ code }
    ensures layer { result.layer ≡ layer }
{
    CgError { code, layer }
}

/// Opens the graph of these layers, the lowest first. Where it is refused, nothing is written.
pub fn cg_open(alloc: Global, files: &[CgFile<'_>], out: &mut CgOwner) -> CgError
    ensures opened { result.code ≡ 0 → IsSomeAnd out.new.address.held (λ held.
        (held.1 ≡ false) × IsOpenedFrom files.now held.0) }
    ensures told { result.code ≡ 0 → result ≡ no_error }
    ensures kept { result.code ≢ 0 → out.new ≡ out.old }
    ensures refused { result.code ≢ 0 → RefusesFiles files.now result }
{
    match open(alloc, files) {
        Ok(graph) => write_unchecked(alloc, graph, out),
        Err(error) => error,
    }
}

/// Opens the graph of these layers as `cg_open` does, and keeps their bytes where they are. Where
/// it is refused, nothing is written.
pub fn cg_open_lent(alloc: Global, files: &[CgFile<'static>], out: &mut CgOwner) -> CgError
    ensures opened { result.code ≡ 0 → IsSomeAnd out.new.address.held (λ held.
        (held.1 ≡ false) × IsOpenedFrom files.now held.0) }
    ensures told { result.code ≡ 0 → result ≡ no_error }
    ensures kept { result.code ≢ 0 → out.new ≡ out.old }
    ensures refused { result.code ≢ 0 → RefusesFiles files.now result }
{
    match open_lent(alloc, files) {
        Ok(lent) => write_unchecked(alloc, lent, out),
        Err(refusal) => refusal,
    }
}

/// Writes a graph that was not checked, unless there is no memory for its block.
pub(crate) fn write_unchecked(alloc: Global, graph: Graph, out: &mut CgOwner) -> CgError
    ensures opened { result.code ≡ 0 → out.new.address.held ≡ Some (graph, false) }
    ensures told { result.code ≡ 0 → result ≡ no_error }
    ensures refused { result.code ≢ 0 → result ≡ told_graph GraphError.OutOfMemory }
    ensures kept { result.code ≢ 0 → out.new ≡ out.old }
{
    match boxed(alloc, Opened::unchecked(graph)) {
        Ok(opened) => {
            out.write(opened);
            error(0, 0)
        }
        Err(error) => error,
    }
}

/// Opens and checks the graph of these layers, the lowest first. Where it is refused, no graph is
/// written, and the verdict has the same code.
pub fn cg_open_checked(
    alloc: Global,
    files: &[CgFile<'_>],
    distinct_ids: bool,
    verdict: &mut CgVerdict,
    counts: &mut [CgCount],
    out: &mut CgOwner,
) -> CgError
    ensures opened { result.code ≡ 0 → IsSomeAnd out.new.address.held (λ held.
        IsOpenedFrom files.now held.0) }
    ensures right { result.code ≡ 0 → IsSomeAnd out.new.address.held (λ held.
        (held.1 ≡ true) × IsSoundWith (options_of distinct_ids) held.0) }
    ensures verdict { result.code ≡ 0 → IsSomeAnd out.new.address.held (λ held.
        TellsStats held.0 verdict.new × TellsCounts held.0 verdict.new counts.old counts.new) }
    ensures told { result.code ≡ 0 → result ≡ no_error }
    ensures kept { result.code ≢ 0 → (out.new ≡ out.old) × (counts.new ≡ counts.old) }
    ensures refused { result.code ≢ 0
        → (RefusesFiles files.now result × (verdict.new ≡ told_unopened result))
        ⊎ FailsCheck (options_of distinct_ids) files.now verdict.new result }
{
    let graph = match open(alloc, files) {
        Ok(graph) => graph,
        Err(error) => return unopened(error, verdict),
    };
    match CheckedGraph::new_with(alloc, VerifyOptions { distinct_ids }, graph) {
        Ok(graph) => hand_out(alloc, graph, verdict, counts, out),
        Err(refusal) => {
            let found = wrong(refusal);
            *verdict = found;
            error(found.code, 0)
        }
    }
}

/// Checks an open graph and hands it out checked. None is left where the graph that is passed was,
/// also where it is refused, and it is freed then. The answer is the verdict's code.
pub fn cg_check(
    alloc: Global,
    graph: &mut CgOwner,
    distinct_ids: bool,
    verdict: &mut CgVerdict,
    counts: &mut [CgCount],
    out: &mut CgOwner,
) -> u32
    ensures code { result ≡ verdict.new.code }
    ensures taken { graph.new.address.held ≡ None }
    ensures opened { result ≡ 0 → IsSomeAnd graph.old.address.held (λ was.
        out.new.address.held ≡ Some (was.0, true)) }
    ensures right { result ≡ 0 → IsSomeAnd graph.old.address.held (λ was.
        IsSoundWith (options_of distinct_ids) was.0) }
    ensures verdict { result ≡ 0 → IsSomeAnd graph.old.address.held (λ was.
        TellsStats was.0 verdict.new × TellsCounts was.0 verdict.new counts.old counts.new) }
    ensures refused { result ≢ 0 → IfSome graph.old.address.held (λ was.
        TellsRefusal (options_of distinct_ids) was.0 verdict.new
        ⊎ (verdict.new ≡ told_unopened (told_graph GraphError.OutOfMemory))) }
    ensures uncalled { result ≢ 0 → verdict.new.called ≡ 0 }
    ensures closed { IfNone graph.old.address.held (verdict.new ≡ closed_verdict) }
    ensures kept { result ≢ 0 → (out.new ≡ out.old) × (counts.new ≡ counts.old) }
{
    let Some(opened) = graph.take(alloc) else {
        *verdict = refused(CLOSED_GRAPH);
        return CLOSED_GRAPH;
    };
    let unchecked = Box::into_inner(opened).into_graph();
    let options = VerifyOptions { distinct_ids };
    match CheckedGraph::new_with(alloc, options, unchecked) {
        Ok(checked) => hand_out(alloc, checked, verdict, counts, out).code,
        Err(refusal) => {
            *verdict = wrong(refusal);
            verdict.code
        }
    }
}

/// Tells in the verdict too that no graph was opened.
fn unopened(error: CgError, verdict: &mut CgVerdict) -> CgError
    ensures same { result ≡ error }
    ensures verdict { verdict.new ≡ told_unopened error }
{
    *verdict = CgVerdict {
        layer: error.layer,
        ..refused(error.code)
    };
    error
}

/// Writes a graph that was checked, and its statistics, unless there is no memory for its block.
pub(crate) fn hand_out(
    alloc: Global,
    graph: CheckedGraph,
    verdict: &mut CgVerdict,
    counts: &mut [CgCount],
    out: &mut CgOwner,
) -> CgError
    ensures opened { result.code ≡ 0 → out.new.address.held ≡ Some (graph.layers, true) }
    ensures stats { result.code ≡ 0 → TellsStats graph.layers verdict.new }
    ensures counts { result.code ≡ 0 → TellsCounts graph.layers verdict.new counts.old counts.new }
    ensures told { result.code ≡ 0 → result ≡ no_error }
    ensures refused { result.code ≢ 0 → result ≡ told_graph GraphError.OutOfMemory }
    ensures untold { result.code ≢ 0 → verdict.new ≡ told_unopened result }
    ensures kept { result.code ≢ 0 → (out.new ≡ out.old) × (counts.new ≡ counts.old) }
{
    let opened = match boxed(alloc, Opened::checked(graph)) {
        Ok(opened) => opened,
        Err(error) => return unopened(error, verdict),
    };
    write_stats(&opened, verdict, counts);
    out.write(opened);
    error(0, 0)
}

/// Writes the statistics of a graph that was checked.
fn write_stats(opened: &Opened, verdict: &mut CgVerdict, counts: &mut [CgCount])
    requires { opened.now.1 ≡ true }
    ensures stats { TellsStats opened.now.0 verdict.new }
    ensures counts { TellsCounts opened.now.0 verdict.new counts.old counts.new }
{
    if let Some(checked) = opened.as_checked() {
        *verdict = right(checked.outcome(), counts);
    }
}

/// A graph in a block of its own, if there is memory for one.
pub(crate) fn boxed(alloc: Global, opened: Opened) -> Result<Box<Opened>, CgError>
    ensures same { IfOk result (λ graph. graph.value ≡ opened) }
    ensures refused { IfErr result (λ error. error ≡ told_graph GraphError.OutOfMemory) }
{
    match Box::new(alloc, opened) {
        Ok(opened) => Ok(opened),
        Err(_) => Err(graph_error(&GraphError::OutOfMemory)),
    }
}

/// Frees a graph, leaves none where it was, and answers whether there was one to free.
pub fn cg_close(alloc: Global, graph: &mut CgOwner) -> bool
    ensures freed { result ≡ is_some graph.old.address.held }
    ensures taken { graph.new.address.held ≡ None }
{
    match graph.take(alloc) {
        Some(opened) => {
            drop(opened);
            true
        }
        None => false,
    }
}

/// Opens each file, and makes a graph of the layers.
fn open(alloc: Global, files: &[CgFile<'_>]) -> Result<Graph, CgError>
    ensures opened { IfOk result (IsOpenedFrom files.now) }
    ensures refused { IfErr result (RefusesFiles files.now) }
    ensures code { IfErr result (λ e. e.code ≢ 0) }
{
    let mut layers = Vec::new(alloc);
    for file in files {
        let place = layers.len() as u64;
        let layer = open_layer(alloc, *file, place)?;
        add(&mut layers, layer, place)?;
    }
    match Graph::new(alloc, layers) {
        Ok(graph) => Ok(graph),
        Err(refusal) => Err(graph_error(&refusal)),
    }
}

/// Opens each file with its bytes where they are, and makes a graph of the layers.
fn open_lent(alloc: Global, files: &[CgFile<'static>]) -> Result<Graph, CgError>
    ensures opened { IfOk result (IsOpenedFrom files.now) }
    ensures refused { IfErr result (RefusesFiles files.now) }
    ensures code { IfErr result (λ e. e.code ≢ 0) }
{
    let mut layers = Vec::new(alloc);
    for file in files {
        let place = layers.len() as u64;
        let layer = open_lent_layer(alloc, *file, place)?;
        add(&mut layers, layer, place)?;
    }
    let made = Graph::new(alloc, layers);
    match made {
        Ok(graph) => Ok(graph),
        Err(refusal) => Err(graph_error(&refusal)),
    }
}

/// Tells why the bytes of a layer are refused.
pub(crate) fn file_error(refusal: &FileError, layer: u64) -> CgError
    ensures told { result ≡ told_file layer refusal.now }
    ensures code { result.code ≢ 0 }
{
    error(file_code(refusal), layer)
}

/// Tells why layers make no graph.
pub(crate) fn graph_error(refusal: &GraphError) -> CgError
    ensures told { result ≡ told_graph refusal.now }
    ensures code { result.code ≢ 0 }
{
    let layer = match refusal {
        GraphError::HashMismatch { layer } => *layer as u64,
        _ => 0,
    };
    error(graph_code(refusal), layer)
}

/// Adds a layer, if there is memory.
pub(crate) fn add(layers: &mut Vec<File>, layer: File, place: u64) -> Result<(), CgError>
    ensures items { OnOk result (layers.new.items ≡ layers.old.items ++ layer ∷ []) }
    ensures error { IfErr result (λ e. e ≡ told_file place FileError.OutOfMemory) }
    ensures code { IfErr result (λ e. e.code ≢ 0) }
{
    match layers.push(layer) {
        Ok(()) => Ok(()),
        Err(_) => Err(file_error(&FileError::OutOfMemory, place)),
    }
}
