//! The opener of a chain folder.

ghost use Rattle.std.specs.Prelude.{◌≡◌, Contains, IfOk, IfErr, IfSome, MatchResult, Ok, is_some};
ghost use Rattle.std.specs.Prelude.{All, length, map, ℕ};
ghost use Rattle.std.specs.Option.{ForSome};
ghost use Rattle.std.specs.Str.{is_utf8};
ghost use Rattle.graph_folder.specs.Tree.{is_file};
ghost use Rattle.gix_commitgraph.specs.Graph.{IsGraph};
ghost use Rattle.gix_commitgraph.specs.OpenAlways.{IsFromChain, IsFolderError, IsLineError};
ghost use Rattle.gix_commitgraph.specs.OpenAlways.{IsErrorOfLines};
ghost use Rattle.graph_layer.specs.LayerOpening.{IsReadError, LayerWasRead, bytes_at};
ghost use Rattle.graph_layer.specs.LayerOpening.{layer_at};
ghost use Rattle.graph_layer.specs.OpenAnswer.{IsAsExpected, failures_after_opening, result_map};
ghost use Rattle.gix_commitgraph.specs.Opening.{layer_of_line, layers_from, chain_opened};
ghost use Rattle.gix_commitgraph.specs.WasRead.{ChainWasRead};
ghost use Rattle.graph_layer.specs.OpenRefusals.{OutOfMemoryStandsAlone};
ghost use Rattle.gix_commitgraph.specs.Paths.{chain_path, layer_path};

use crate::file::File;
use crate::graph::Graph;
use crate::opening::path::{chain_path, layer_path};
use crate::opening::{OpenError, new_graph};
use graph_folder::chain::Lines;
use graph_folder::folder::Folder;
use graph_layer::opening::{open_layer, read_file, share_layer};
use std::alloc::{AllocError, Global};
use std::collections::BTreeMap;

/// Opens the chain folder at the path: the graph of the layers that the lines of its file
/// `commit-graph-chain` name, the lowest first. The line L names the file `graph-L.graph` in the
/// same folder ("Commit-Graphs Chains" of Git's commit-graph design). The chain file is read whole
/// before the first layer, and it is not checked that a line is hexadecimal.
///
/// # Errors
///
/// The first of these that holds:
///
/// 1. `NotOpened`, `Device`: the chain file does not stand at its path or may not be read, or a
///    read of it failed. The folder's count of failures rises with each `Device`, and in no other
///    case.
/// 2. For each line in turn:
///    1. `ChainNotText`: it is not UTF-8.
///    2. `NotOpened`, `Device`: the same of the file of its layer.
///    3. `Layer`: the bytes of the layer are refused.
/// 3. `Graph`: the layers are refused as a graph.
///
/// `OutOfMemory` comes where an allocation failed.
pub fn open_chain_dir_in<T: Folder>(
    alloc: Global,
    folder: &mut T,
    path: &str,
) -> Result<Graph, OpenError>
    ensures opens { ForSome (T.tree folder.old) (λ tree.
        IsAsExpected result (chain_opened tree path.now)) }
    ensures tree { T.tree folder.new ≡ T.tree folder.old }
    ensures failures { T.failure_count folder.new
        ≡ failures_after_opening result (T.failure_count folder.old) }
    ensures from { MatchResult result (IsFromChain path.now) IsFolderError }
    ensures given { IfOk result (ChainWasRead T.gives path.now) }
    ensures graph { IfOk result IsGraph }
    ensures memory { IfErr result OutOfMemoryStandsAlone }
{
    let text = read_chain(alloc, folder, path)?;
    let files = open_lines(alloc, folder, path, &[], Lines::new(text.as_slice()))?;
    new_graph(alloc, files)
}

/// Whether a chain file stands in the folder.
pub(super) fn has_chain<T: Folder>(
    alloc: Global,
    folder: &mut T,
    path: &str,
) -> Result<bool, AllocError>
    ensures answer { ForSome (T.tree folder.old) (λ tree.
        IfOk result (λ found. found ≡ is_file tree (chain_path path.now))) }
    ensures tree { T.tree folder.new ≡ T.tree folder.old }
    ensures failures { T.failure_count folder.new ≡ T.failure_count folder.old }
{
    let chain = chain_path(alloc, path)?;
    folder.is_file(alloc, chain.as_str())
}

/// The bytes of the chain file in the folder at the path. The errors are those of its read:
/// `NotOpened`, `Device` and `OutOfMemory`.
pub fn read_chain<T: Folder>(
    alloc: Global,
    folder: &mut T,
    path: &str,
) -> Result<Vec<u8>, OpenError>
    ensures opens { ForSome (T.tree folder.old)
        (λ tree. IsAsExpected (result_map (λ text. text.items) result)
        (bytes_at tree (chain_path path.now))) }
    ensures given { IfOk result (λ text. T.gives (chain_path path.now) text.items) }
    ensures tree { T.tree folder.new ≡ T.tree folder.old }
    ensures failures { T.failure_count folder.new
        ≡ failures_after_opening result (T.failure_count folder.old) }
    ensures errors { IfErr result IsReadError }
    ensures memory { IfErr result OutOfMemoryStandsAlone }
{
    let chain = chain_path(alloc, path)?;
    read_file(alloc, folder, chain.as_str())
}

/// The layers that these lines of a chain name, in order, above those that earlier lines name. A
/// file that several of these lines name is read once, and their layers share all that is kept.
///
/// # Errors
///
/// For each line in turn `ChainNotText`, `NotOpened`, `Device` and `Layer`, as in
/// [`open_chain_dir_in`]. Lines are counted from the lowest layer below. `OutOfMemory` comes where
/// an allocation failed.
pub fn open_lines<T: Folder>(
    alloc: Global,
    folder: &mut T,
    path: &str,
    below: &[File],
    lines: Lines<'_>,
) -> Result<Vec<File>, OpenError>
    ensures opens { ForSome (T.tree folder.old)
        (λ tree. IsAsExpected (result_map (λ files. files.items) result)
        (layers_from tree path.now (length below.now) lines.entry)) }
    ensures tree { T.tree folder.new ≡ T.tree folder.old }
    ensures failures { T.failure_count folder.new
        ≡ failures_after_opening result (T.failure_count folder.old) }
    ensures from { MatchResult result (λ files. IsFromChain path.now files.items)
        (IsErrorOfLines (length below.now) (length lines.entry)) }
    ensures named { IfOk result (λ files. map (λ layer. layer.path) files.items
        ≡ map (layer_path path.now) lines.entry) }
    ensures given { IfOk result (λ files. All (LayerWasRead T.gives) files.items) }
    ensures memory { IfErr result OutOfMemoryStandsAlone }
{
    let mut files = Vec::new(alloc);
    let mut places = BTreeMap::new(alloc);
    for line in lines {
        let place = places.get(line).copied();
        if place.is_none() {
            places.insert(line, files.len())?;
        }
        let layer = below.len() + files.len();
        let known = at_place(&files, place);
        let file = open_line(alloc, folder, path, layer, line, known)?;
        files.push(file)?;
    }
    Ok(files)
}

/// The layer at a place, if there is one.
fn at_place(files: &[File], place: Option<usize>) -> Option<&File>
    ensures { IfSome result (λ file. Contains files.now file.now) }
{
    files.get(place?)
}

/// The layer that a line of a chain names. It is this one that is known, if that has its path.
fn open_line<T: Folder>(
    alloc: Global,
    folder: &mut T,
    path: &str,
    layer: usize,
    line: &[u8],
    known: Option<&File>,
) -> Result<File, OpenError>
    requires known { ForSome (T.tree folder.old) (λ tree. IfSome known (λ file.
        (i : ℕ) → Ok file.now ≡ layer_at tree i file.now.path)) }
    requires given { IfSome known (λ file. LayerWasRead T.gives file.now) }
    ensures opens { ForSome (T.tree folder.old) (λ tree.
        IsAsExpected result (layer_of_line tree path.now layer line.now)) }
    ensures tree { T.tree folder.new ≡ T.tree folder.old }
    ensures failures { T.failure_count folder.new
        ≡ failures_after_opening result (T.failure_count folder.old) }
    ensures path { IfOk result (λ file. file.path ≡ layer_path path.now line.now) }
    ensures given { IfOk result (LayerWasRead T.gives) }
    ensures errors { IfErr result (IsLineError layer) }
    ensures memory { IfErr result OutOfMemoryStandsAlone }
{
    let Some(name) = text_of(line) else {
        return Err(OpenError::ChainNotText { line: layer });
    };
    let path = layer_path(alloc, path, name)?;
    match known {
        Some(file) if file.path() == path.as_str() => Ok(share_layer(file)?),
        _ => open_layer(alloc, folder, layer, path),
    }
}

/// A line of a chain as text, if it is UTF-8.
pub fn text_of(line: &[u8]) -> Option<&str>
    ensures variant { is_some result ≡ is_utf8 line.now }
    ensures value { IfSome result (λ text. text.now ≡ line.now) }
{
    str::from_utf8(line).ok()
}
