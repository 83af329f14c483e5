//! The layers of a chain, of which the heads are read.

ghost use Rattle.std.specs.Prelude.{◌≡◌, All, sum_by, IfOk, IfSome, IsTrue};
ghost use Rattle.std.specs.List.{AllZip};
ghost use Rattle.std.specs.Str.Lines.{lines};
ghost use Rattle.graph_folder.specs.Failures.{failures_after};
ghost use Rattle.graph_find.specs.ChainHeads.{AreHeadsOfChain, IsHeadOfLine, SayGraph};
ghost use Rattle.graph_find.specs.PartsRead.{HeadsWereRead, LineWasRead};

use crate::head::Head;
use crate::reading::read_head;
use gix_commitgraph::MAX_COMMITS;
use gix_commitgraph::opening::path::{chain_path, layer_path};
use gix_hash_core::Kind;
use graph_folder::chain::Lines;
use graph_folder::folder::{Folder, ReadError};
use std::alloc::Global;

/// The file of a layer, and its head.
#[derive(Drop)]
pub struct ChainLayer {
    /// The path of the file.
    pub path: String,
    /// Its head.
    pub head: Head,
}

/// The layers that the chain file of the folder names, the lowest first, if the head of each is
/// read by parts and accepted.
///
/// # Errors
///
/// Those of a read of the chain file or of a layer: `NotOpened`, `Device` and `OutOfMemory`, the
/// first that comes.
pub fn read_layers<T: Folder>(
    alloc: Global,
    folder: &mut T,
    path: &str,
) -> Result<Option<Vec<ChainLayer>>, ReadError>
    ensures heads { IfOk result (λ answer. IfSome answer (λ layers.
        AreHeadsOfChain (T.tree folder.old) path.now layers.items)) }
    ensures given { IfOk result (λ answer. IfSome answer (λ layers.
        HeadsWereRead T.gives T.gives_part path.now layers.items)) }
    ensures tree { T.tree folder.new ≡ T.tree folder.old }
    ensures failures { T.failure_count folder.new
        ≡ failures_after result (T.failure_count folder.old) }
{
    let chain = chain_path(alloc, path).map_err(|_| ReadError::OutOfMemory)?;
    let text = folder.read(alloc, chain.as_str())?;
    read_lines(alloc, folder, path, text.as_slice())
}

/// The layers that the lines of a chain name.
fn read_lines<T: Folder>(
    alloc: Global,
    folder: &mut T,
    path: &str,
    text: &[u8],
) -> Result<Option<Vec<ChainLayer>>, ReadError>
    ensures heads { IfOk result (λ answer. IfSome answer (λ layers.
        AllZip (IsHeadOfLine (T.tree folder.old) path.now) (lines text.now) layers.items)) }
    ensures given { IfOk result (λ answer. IfSome answer (λ layers.
        AllZip (LineWasRead T.gives_part path.now) (lines text.now) layers.items)) }
    ensures tree { T.tree folder.new ≡ T.tree folder.old }
    ensures failures { T.failure_count folder.new
        ≡ failures_after result (T.failure_count folder.old) }
{
    let mut layers = Vec::new(alloc);
    for line in Lines::new(text) {
        let Some(layer) = read_line(alloc, folder, path, line)? else {
            return Ok(None);
        };
        layers.push(layer).map_err(|_| ReadError::OutOfMemory)?;
    }
    Ok(Some(layers))
}

/// The layer that a line of a chain names.
fn read_line<T: Folder>(
    alloc: Global,
    folder: &mut T,
    path: &str,
    line: &[u8],
) -> Result<Option<ChainLayer>, ReadError>
    ensures head { IfOk result (λ answer. IfSome answer
        (IsHeadOfLine (T.tree folder.old) path.now line.now)) }
    ensures given { IfOk result (λ answer. IfSome answer
        (LineWasRead T.gives_part path.now line.now)) }
    ensures tree { T.tree folder.new ≡ T.tree folder.old }
    ensures failures { T.failure_count folder.new
        ≡ failures_after result (T.failure_count folder.old) }
{
    let Ok(name) = str::from_utf8(line) else {
        return Ok(None);
    };
    let path = layer_path(alloc, path, name).map_err(|_| ReadError::OutOfMemory)?;
    match read_head(alloc, folder, path.as_str())? {
        Some(head) => Ok(Some(ChainLayer { path, head })),
        None => Ok(None),
    }
}

/// Whether layers with these heads make a graph.
pub fn make_graph(layers: &[ChainLayer]) -> bool
    ensures { IsTrue result → SayGraph layers.now }
{
    let Some(first) = layers.first() else {
        return false;
    };
    commits_of_all(layers) <= MAX_COMMITS as u128 && are_alike(layers, first.head.layout.kind)
}

/// Whether all layers are of this kind.
fn are_alike(layers: &[ChainLayer], kind: Kind) -> bool
    ensures { IsTrue result → All (λ layer. layer.head.layout.kind ≡ kind) layers.now }
{
    layers.iter().all(|layer| layer.head.layout.kind == kind)
}

/// How many commits the layers have together.
fn commits_of_all(layers: &[ChainLayer]) -> u128
    ensures { result ≡ sum_by (λ layer. layer.head.layout.commits) layers.now }
{
    let mut commits = 0;
    for layer in layers {
        commits += layer.head.layout.commits as u128;
    }
    commits
}
