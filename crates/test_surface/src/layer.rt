//! One layer: opening it from bytes, its accessors and its iterators.

ghost use Rattle.std.specs.Prelude.{◌≡◌, ◌<◌, length, Some};
ghost use Rattle.gix_commitgraph.specs.Remaining.{base_ids_left, commits_left, ids_left};

mod checks;
mod commits;

use crate::bounds;
use gix_chunk_core::ChunkError;
use gix_commitgraph::FileError;
use gix_commitgraph::file::{BaseIds, Commit, Commits, File, Ids, Position};
use gix_commitgraph::opening::OpenError;
use gix_hash_core::{Kind, oid};
use std::alloc::Global;
use std::rt::Files;

fn files() {
    bounds::shown::<File>();
}

fn new(alloc: Global, bytes: Vec<u8>, path: String) -> Result<File, FileError> {
    File::new(alloc, bytes, path)
}

fn from_static(alloc: Global, bytes: &'static [u8], path: String) -> Result<File, FileError> {
    File::from_static(alloc, bytes, path)
}

fn at<R: Files>(rt: &R, alloc: Global, path: &str) -> Result<File, OpenError> {
    File::at(rt, alloc, path)
}

fn base_graph_count(file: &File) -> u8 {
    File::base_graph_count(file)
}

fn object_hash(file: &File) -> Kind {
    File::object_hash(file)
}

fn num_commits(file: &File) -> u32 {
    File::num_commits(file)
}

fn path(file: &File) -> &str {
    File::path(file)
}

fn bytes(file: &File) -> &[u8] {
    File::bytes(file)
}

fn chunk(file: &File, id: [u8; 4]) -> Option<&[u8]> {
    File::chunk(file, id)
}

fn checksum(file: &File) -> oid<'_> {
    File::checksum(file)
}

fn id_at(file: &File, pos: Position) -> oid<'_>
    requires { pos.0 < length file.now.ids }
{
    File::id_at(file, pos)
}

fn commit_at(file: &File, pos: Position) -> Commit<'_>
    requires { pos.0 < length file.now.ids }
{
    File::commit_at(file, pos)
}

fn lookup(file: &File, id: oid<'_>) -> Option<Position> {
    File::lookup(file, id)
}

fn lookup_counted(file: &File, id: oid<'_>) -> (Option<Position>, u32) {
    File::lookup_counted(file, id)
}

fn iter_base_graph_ids<'f>(file: &'f File) -> BaseIds<'f> {
    bounds::iterator::<oid<'f>, BaseIds<'f>>();
    File::iter_base_graph_ids(file)
}

fn iter_ids<'f>(file: &'f File) -> Ids<'f> {
    bounds::iterator::<oid<'f>, Ids<'f>>();
    File::iter_ids(file)
}

fn iter_commits<'f>(file: &'f File) -> Commits<'f> {
    bounds::iterator::<Commit<'f>, Commits<'f>>();
    File::iter_commits(file)
}

fn base_ids_hint(ids: &BaseIds<'_>) -> (usize, Option<usize>)
    ensures { result ≡ (length (base_ids_left ids.now), Some (length (base_ids_left ids.now))) }
{
    ids.size_hint()
}

fn ids_hint(ids: &Ids<'_>) -> (usize, Option<usize>)
    ensures { result ≡ (length (ids_left ids.now), Some (length (ids_left ids.now))) }
{
    ids.size_hint()
}

fn commits_hint(commits: &Commits<'_>) -> (usize, Option<usize>)
    ensures { result
        ≡ (length (commits_left commits.now), Some (length (commits_left commits.now))) }
{
    commits.size_hint()
}

fn positions(number: u32) -> Position {
    bounds::ordered::<Position>();
    Position(number)
}

fn file_errors(error: &FileError) {
    bounds::error::<FileError>();
    use FileError::*;
    match error {
        TooSmall | Signature | BaseSize | BaseCount | NoCommitData | CommitDataSize | NoFan => {}
        FanSize | NoIds | IdsSize | TooManyEdges | Trailer | BaseMissing | IdCount => {}
        RecordCount | OutOfMemory => {}
        Version(byte) | Hash(byte) | FanFalls { at: byte } => bounds::of_type::<u8>(byte),
        Chunks(error) => bounds::of_type::<ChunkError>(error),
    }
}
