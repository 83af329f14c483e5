//! The search for an id, in the graph that a path opens. Only parts of the files are read, where
//! they suffice.

ghost use Rattle.std.specs.Prelude.{◌≡◌};
ghost use Rattle.gix_hash_core.specs.Oid.{oid_bytes};
ghost use Rattle.graph_layer.specs.OpenAnswer.{failures_after_opening};
ghost use Rattle.gix_commitgraph.specs.Opening.{file_opened, chain_opened};
ghost use Rattle.graph_commands.specs.OpenerAnswer.{MayOpen, OpensAs};
ghost use Rattle.graph_commands.specs.Find.{FindsBy, MayBeFound};

use crate::report::Found;
use gix_commitgraph::opening::{OpenError, Opener, open_by, open_chain_dir_in, open_file_in};
use gix_commitgraph::{Graph, Position};
use gix_hash_core::oid;
use graph_find::search::{FoundCommit, SearchAnswer, find_in_chain, find_in_file};
use graph_folder::folder::Folder;
use std::alloc::Global;

/// The commit with an id, in the graph that the path opens.
pub(crate) fn find_at<T: Folder>(
    alloc: Global,
    folder: &mut T,
    path: &str,
    id: oid<'_>,
) -> Result<Option<Found>, OpenError>
    ensures finds { FindsBy
        (MayOpen (T.tree folder.old) path.now (T.failure_count folder.old)
        (T.failure_count folder.new)) (oid_bytes id.entry) result }
    ensures tree { T.tree folder.new ≡ T.tree folder.old }
{
    open_by(alloc, folder, path, &mut Finder { id })
}

/// Searches the graphs of files and of chain folders for the commit with an id.
#[derive(Drop)]
struct Finder<'i> {
    id: oid<'i>,
}

impl Opener for Finder<'_> {
    ghost use Rattle.std.specs.Prelude.{ℕ, List, ⊤};
    ghost use Rattle.gix_hash_core.specs.Oid.{oid_bytes};
    ghost use Rattle.gix_commitgraph.specs.Opening.{chain_opened, file_opened};
    ghost use Rattle.graph_commands.specs.Find.{FindsBy};
    ghost use Rattle.graph_commands.specs.OpenerAnswer.{OpensStopping};

    type Opened = Option<Found>;

    ghost Known = { List ℕ };

    ghost known = { λ finder. oid_bytes finder.id };

    ghost is_ready = { λ _. ⊤ };

    ghost of_file = { λ id known _ _ path old new _ _.
        FindsBy (OpensStopping known (λ tree. file_opened tree path) old new) id };

    ghost of_chain = { λ id known _ _ path old new _ _.
        FindsBy (OpensStopping known (λ tree. chain_opened tree path) old new) id };

    fn file<T: Folder>(
        &mut self,
        alloc: Global,
        folder: &mut T,
        path: &str,
    ) -> Result<Option<Found>, OpenError> {
        find_in_one(alloc, folder, path, self.id)
    }

    fn chain<T: Folder>(
        &mut self,
        alloc: Global,
        folder: &mut T,
        path: &str,
    ) -> Result<Option<Found>, OpenError> {
        find_in_layers(alloc, folder, path, self.id)
    }
}

/// The commit with an id, in the graph of the file at the path.
fn find_in_one<T: Folder>(
    alloc: Global,
    folder: &mut T,
    path: &str,
    id: oid<'_>,
) -> Result<Option<Found>, OpenError>
    ensures finds { FindsBy (OpensAs (T.tree folder.old) (λ tree. file_opened tree path.now))
        (oid_bytes id.entry) result }
    ensures tree { T.tree folder.new ≡ T.tree folder.old }
    ensures failures { T.failure_count folder.new
        ≡ failures_after_opening result (T.failure_count folder.old) }
{
    match find_in_file(alloc, folder, path, id)? {
        SearchAnswer::Found(commit) => Ok(Some(found_at(commit))),
        SearchAnswer::Missing => Ok(None),
        SearchAnswer::NotByParts => {
            let graph = open_file_in(alloc, folder, path)?;
            Ok(found_in(&graph, id))
        }
    }
}

/// The commit with an id, in the graph of the chain folder at the path.
fn find_in_layers<T: Folder>(
    alloc: Global,
    folder: &mut T,
    path: &str,
    id: oid<'_>,
) -> Result<Option<Found>, OpenError>
    ensures finds { FindsBy (OpensAs (T.tree folder.old) (λ tree. chain_opened tree path.now))
        (oid_bytes id.entry) result }
    ensures tree { T.tree folder.new ≡ T.tree folder.old }
    ensures failures { T.failure_count folder.new
        ≡ failures_after_opening result (T.failure_count folder.old) }
{
    match find_in_chain(alloc, folder, path, id)? {
        SearchAnswer::Found(commit) => Ok(Some(found_at(commit))),
        SearchAnswer::Missing => Ok(None),
        SearchAnswer::NotByParts => {
            let graph = open_chain_dir_in(alloc, folder, path)?;
            Ok(found_in(&graph, id))
        }
    }
}

/// What is reported of a commit that was found by parts.
fn found_at(commit: FoundCommit) -> Found
    ensures pos { result.pos.0 ≡ commit.pos }
    ensures generation { result.generation ≡ commit.generation }
    ensures time { result.time ≡ commit.time }
{
    Found {
        pos: Position(commit.pos),
        generation: commit.generation,
        time: commit.time,
    }
}

/// The commit with an id in the graph.
pub fn found_in(graph: &Graph, id: oid<'_>) -> Option<Found>
    ensures { MayBeFound graph.now (oid_bytes id.entry) result }
{
    let pos = graph.lookup(id)?;
    let commit = graph.commit_at(pos);
    Some(Found {
        pos,
        generation: commit.generation(),
        time: commit.committer_timestamp(),
    })
}
