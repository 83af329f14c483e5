//! The search for an id in a file, and in the layers of a chain.

ghost use Rattle.std.specs.Prelude.{◌≡◌, IfOk, IsErrOf, None, All};
ghost use Rattle.std.specs.Option.{ForSome};
ghost use Rattle.gix_hash_core.specs.Oid.{oid_bytes};
ghost use Rattle.graph_folder.specs.Tree.{file_at};
ghost use Rattle.graph_folder.specs.Failures.{failures_after};
ghost use Rattle.graph_find.specs.ChainHeads.{IsHeadOfLayer, SayGraph};
ghost use Rattle.graph_find.specs.ChainFinding.{FindsInLayers};
ghost use Rattle.graph_find.specs.Finding.{FindsInFile, FindsInChain};

pub use crate::answer::{FoundCommit, SearchAnswer};
use crate::chain::{ChainLayer, make_graph, read_layers};
use crate::layer::find_in_layer;
use crate::reading::read_head;
use gix_hash_core::oid;
use graph_folder::folder::{Folder, ReadError};
use std::alloc::Global;

/// Searches the file at the path for an id, as the lookup in a graph of this file alone does, and
/// reads only parts of it: its first bytes, the ids that begin with the same byte, and one record.
///
/// # Errors
///
/// Those of a read of the file: `NotOpened`, `Device` and `OutOfMemory`, the first that comes. The
/// folder's count of failures rises with `Device`.
pub fn find_in_file<T: Folder>(
    alloc: Global,
    folder: &mut T,
    path: &str,
    id: oid<'_>,
) -> Result<SearchAnswer, ReadError>
    ensures found { IfOk result (FindsInFile (T.tree folder.old) path.now (oid_bytes id.entry)) }
    ensures not_opened { ForSome (T.tree folder.old) (λ tree.
        IsErrOf result ReadError.NotOpened → file_at tree path.now ≡ None) }
    ensures tree { T.tree folder.new ≡ T.tree folder.old }
    ensures failures { T.failure_count folder.new
        ≡ failures_after result (T.failure_count folder.old) }
{
    match read_head(alloc, folder, path)? {
        Some(head) => find_in_layer(alloc, folder, path, &head, id),
        None => Ok(SearchAnswer::NotByParts),
    }
}

/// Searches the chain folder at the path for an id, as the lookup in its graph does. It reads the
/// chain file and the first bytes of each layer; then of the layers, from the lowest on and until
/// the id is found, the ids that begin with the same byte; and one record.
///
/// # Errors
///
/// `Device` where a read failed, and the folder's count of failures rises with it, and
/// `OutOfMemory`. A file that is not opened is none: the chain is to be opened whole then.
pub fn find_in_chain<T: Folder>(
    alloc: Global,
    folder: &mut T,
    path: &str,
    id: oid<'_>,
) -> Result<SearchAnswer, ReadError>
    ensures found { IfOk result (FindsInChain (T.tree folder.old) path.now (oid_bytes id.entry)) }
    ensures opened { ¬ (IsErrOf result ReadError.NotOpened) }
    ensures tree { T.tree folder.new ≡ T.tree folder.old }
    ensures failures { T.failure_count folder.new
        ≡ failures_after result (T.failure_count folder.old) }
{
    match search_chain(alloc, folder, path, id) {
        Err(ReadError::NotOpened) => Ok(SearchAnswer::NotByParts),
        answer => answer,
    }
}

/// The same, with `NotOpened` where a file is not opened.
fn search_chain<T: Folder>(
    alloc: Global,
    folder: &mut T,
    path: &str,
    id: oid<'_>,
) -> Result<SearchAnswer, ReadError>
    ensures found { IfOk result (FindsInChain (T.tree folder.old) path.now (oid_bytes id.entry)) }
    ensures tree { T.tree folder.new ≡ T.tree folder.old }
    ensures failures { T.failure_count folder.new
        ≡ failures_after result (T.failure_count folder.old) }
{
    let Some(layers) = read_layers(alloc, folder, path)? else {
        return Ok(SearchAnswer::NotByParts);
    };
    if !make_graph(&layers) {
        return Ok(SearchAnswer::NotByParts);
    }
    find_in_layers(alloc, folder, &layers, id)
}

/// Searches the layers one after another.
fn find_in_layers<T: Folder>(
    alloc: Global,
    folder: &mut T,
    layers: &[ChainLayer],
    id: oid<'_>,
) -> Result<SearchAnswer, ReadError>
    requires heads { All (IsHeadOfLayer (T.tree folder.old)) layers.now }
    requires graph { SayGraph layers.now }
    ensures found { IfOk result
        (FindsInLayers (T.tree folder.old) layers.now (oid_bytes id.entry)) }
    ensures tree { T.tree folder.new ≡ T.tree folder.old }
    ensures failures { T.failure_count folder.new
        ≡ failures_after result (T.failure_count folder.old) }
{
    let mut start = 0;
    for layer in layers {
        match find_in_layer(alloc, folder, layer.path.as_str(), &layer.head, id)? {
            SearchAnswer::Found(commit) => {
                return Ok(SearchAnswer::Found(FoundCommit {
                    pos: start + commit.pos,
                    ..commit
                }));
            }
            SearchAnswer::Missing => start += layer.head.layout.commits,
            SearchAnswer::NotByParts => return Ok(SearchAnswer::NotByParts),
        }
    }
    Ok(SearchAnswer::Missing)
}
