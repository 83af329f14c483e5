//! The paths of a graph's files and folders.

ghost use Rattle.std.specs.Prelude.{◌≡◌, IfOk, string_bytes};
ghost use Rattle.gix_commitgraph.specs.Paths.{join_path, chain_path, layer_path};
ghost use Rattle.gix_commitgraph.specs.Paths.{info_file, info_chain};

use std::alloc::{AllocError, Global};

/// The path of `name` below `folder`: a slash stands between them unless the folder's path is empty
/// or ends with one. `AllocError` comes where an allocation failed.
pub fn join(alloc: Global, folder: &str, name: &str) -> Result<String, AllocError>
    ensures { IfOk result (λ path. string_bytes path ≡ join_path folder.now name.now) }
{
    let mut path = String::from_str(alloc, folder)?;
    if !folder.is_empty() && !folder.ends_with('/') {
        path.push('/')?;
    }
    path.push_str(name)?;
    Ok(path)
}

/// The path of the file of an info folder. `AllocError` comes where an allocation failed.
pub fn info_file_path(alloc: Global, folder: &str) -> Result<String, AllocError>
    ensures { IfOk result (λ path. string_bytes path ≡ info_file folder.now) }
{
    join(alloc, folder, "commit-graph")
}

/// The path of the chain folder of an info folder. `AllocError` comes where an allocation failed.
pub fn info_chain_path(alloc: Global, folder: &str) -> Result<String, AllocError>
    ensures { IfOk result (λ path. string_bytes path ≡ info_chain folder.now) }
{
    join(alloc, folder, "commit-graphs")
}

/// The path of the chain file of a chain folder. `AllocError` comes where an allocation failed.
pub fn chain_path(alloc: Global, folder: &str) -> Result<String, AllocError>
    ensures { IfOk result (λ path. string_bytes path ≡ chain_path folder.now) }
{
    join(alloc, folder, "commit-graph-chain")
}

/// The path of the layer that a line of the folder's chain file names. `AllocError` comes where an
/// allocation failed.
#[tactic(auto, using(crate::proofs::opening::PathLemmas::join_laws))]
pub fn layer_path(alloc: Global, folder: &str, line: &str) -> Result<String, AllocError>
    ensures { IfOk result (λ path. string_bytes path ≡ layer_path folder.now line.now) }
{
    let mut path = join(alloc, folder, "graph-")?;
    path.push_str(line)?;
    path.push_str(".graph")?;
    Ok(path)
}
