//! Opening a graph by a path, over the file system and over any folder.

ghost use Rattle.std.specs.Prelude.{◌≡◌, IfOk, string_bytes};
ghost use Rattle.gix_commitgraph.specs.Paths.{join_path, layer_path};

use crate::bounds;
use gix_commitgraph::opening::{self, OpenError, Opener, Standing, path};
use gix_commitgraph::{File, FileError, Graph, GraphError};
use graph_folder::chain::Lines;
use graph_folder::folder::{Folder, ReadError};
use std::alloc::{AllocError, AllocFailed, Global};
use std::rt::Files;

fn at_root<R: Files>(rt: &R, alloc: Global, path: &str) -> Result<Graph, OpenError> {
    gix_commitgraph::at(rt, alloc, path)
}

fn at<R: Files>(rt: &R, alloc: Global, path: &str) -> Result<Graph, OpenError> {
    Graph::at(rt, alloc, path)
}

fn from_file<R: Files>(rt: &R, alloc: Global, path: &str) -> Result<Graph, OpenError> {
    Graph::from_file(rt, alloc, path)
}

fn from_info_dir<R: Files>(rt: &R, alloc: Global, path: &str) -> Result<Graph, OpenError> {
    Graph::from_info_dir(rt, alloc, path)
}

fn from_commit_graphs_dir<R: Files>(rt: &R, alloc: Global, path: &str) -> Result<Graph, OpenError> {
    Graph::from_commit_graphs_dir(rt, alloc, path)
}

fn in_folder<T: Folder>(alloc: Global, folder: &mut T, path: &str) -> Result<Graph, OpenError> {
    opening::open_in(alloc, folder, path)
}

fn file_in<T: Folder>(alloc: Global, folder: &mut T, path: &str) -> Result<Graph, OpenError> {
    opening::open_file_in(alloc, folder, path)
}

fn info_dir_in<T: Folder>(alloc: Global, folder: &mut T, path: &str) -> Result<Graph, OpenError> {
    opening::open_info_dir_in(alloc, folder, path)
}

fn chain_dir_in<T: Folder>(alloc: Global, folder: &mut T, path: &str) -> Result<Graph, OpenError> {
    opening::open_chain_dir_in(alloc, folder, path)
}

fn by_opener<T: Folder, O: Opener>(
    alloc: Global,
    folder: &mut T,
    path: &str,
    opener: &mut O,
) -> Result<O::Opened, OpenError>
    requires { O.is_ready opener.old }
{
    opening::open_by(alloc, folder, path, opener)
}

fn info_by_opener<T: Folder, O: Opener>(
    alloc: Global,
    folder: &mut T,
    path: &str,
    opener: &mut O,
) -> Result<O::Opened, OpenError>
    requires { O.is_ready opener.old }
{
    opening::open_info_by(alloc, folder, path, opener)
}

fn file_by_opener<T: Folder, O: Opener>(
    alloc: Global,
    folder: &mut T,
    path: &str,
    opener: &mut O,
) -> Result<O::Opened, OpenError>
    requires { O.is_ready opener.old }
{
    Opener::file(opener, alloc, folder, path)
}

fn chain_by_opener<T: Folder, O: Opener>(
    alloc: Global,
    folder: &mut T,
    path: &str,
    opener: &mut O,
) -> Result<O::Opened, OpenError>
    requires { O.is_ready opener.old }
{
    Opener::chain(opener, alloc, folder, path)
}

fn read_chain<T: Folder>(alloc: Global, folder: &mut T, path: &str) -> Result<Vec<u8>, OpenError> {
    opening::read_chain(alloc, folder, path)
}

fn open_lines<T: Folder>(
    alloc: Global,
    folder: &mut T,
    path: &str,
    below: &[File],
    lines: Lines<'_>,
) -> Result<Vec<File>, OpenError> {
    opening::open_lines(alloc, folder, path, below, lines)
}

fn text_of(line: &[u8]) -> Option<&str> {
    opening::text_of(line)
}

fn stands_at<T: Folder>(alloc: Global, folder: &mut T, path: &str) -> Result<Standing, AllocError> {
    opening::stands_at(alloc, folder, path)
}

fn standings(standing: Standing) {
    bounds::plain::<Standing>();
    match standing {
        Standing::File | Standing::ChainDir | Standing::InfoDir | Standing::Nothing => {}
    }
}

fn is_settled<A>(answer: &Result<A, OpenError>) -> bool {
    opening::is_settled(answer)
}

fn join(alloc: Global, folder: &str, name: &str) -> Result<String, AllocError>
    ensures { IfOk result (λ path. string_bytes path ≡ join_path folder.now name.now) }
{
    path::join(alloc, folder, name)
}

fn info_file_path(alloc: Global, folder: &str) -> Result<String, AllocError> {
    path::info_file_path(alloc, folder)
}

fn info_chain_path(alloc: Global, folder: &str) -> Result<String, AllocError> {
    path::info_chain_path(alloc, folder)
}

fn chain_path(alloc: Global, folder: &str) -> Result<String, AllocError> {
    path::chain_path(alloc, folder)
}

fn layer_path(alloc: Global, folder: &str, line: &str) -> Result<String, AllocError>
    ensures { IfOk result (λ path. string_bytes path ≡ layer_path folder.now line.now) }
{
    path::layer_path(alloc, folder, line)
}

fn open_errors<T: Drop>(error: &OpenError) {
    bounds::error::<OpenError>();
    bounds::from::<AllocError, OpenError>();
    bounds::from::<AllocFailed<T>, OpenError>();
    bounds::from::<ReadError, OpenError>();
    bounds::from::<GraphError, OpenError>();
    use OpenError::*;
    match error {
        NothingFound | NotOpened | Device | OutOfMemory => {}
        ChainNotText { line } => bounds::of_type::<usize>(line),
        Layer { layer, error } => bounds::of_types::<usize, FileError>(layer, error),
        Graph(error) => bounds::of_type::<GraphError>(error),
    }
}
