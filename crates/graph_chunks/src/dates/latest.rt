//! The latest corrected date of the parents of a commit.
//!
//! Commits may share an extra edge list, or the end of one. So a list is gone over once for all of
//! them. The memory for that is taken before any dates are compared.

ghost use Rattle.std.specs.Prelude.{◌≡◌, IfOk, length};
ghost use Rattle.graph_format.specs.Parents.{extra_edge_of, extra_parent, second_parents};
ghost use Rattle.graph_format.specs.Parents.{DecodedParents};
ghost use Rattle.graph_layer.specs.Commit.{commit_layer, commit_parents};
ghost use Rattle.graph_walks.specs.Dates.{number_at};
ghost use Rattle.graph_chunks.specs.Latest.{latest_of, AreLatest, words_in, HasRoomForLists};

use gix_commitgraph::file::commit::{ExtraEdge, ParentEdge};
use gix_commitgraph::file::{Commit, File};
use gix_commitgraph::{Graph, Position};
use graph_layer::fields::{extra_edges, parent_edges};
use std::alloc::{AllocError, Global};

/// The date of the commit at a position, 0 past the last one.
fn date_at(dates: &[u64], pos: Position) -> u64
    ensures { result ≡ number_at dates.now pos.0 }
{
    dates.get(pos.0 as usize).copied().unwrap_or(0)
}

/// The latest date of the parents that are listed from a word on, where `rest` is that from the
/// next word on.
#[tactic(auto, using(crate::proofs::LatestLemmas::latest_laws))]
fn latest_from(dates: &[u64], word: u32, rest: u64) -> u64
    ensures { (parents : DecodedParents) → rest ≡ latest_of dates.now parents
        → result ≡ latest_of dates.now (extra_parent (extra_edge_of word) parents) }
{
    match ExtraEdge::from_raw(word) {
        ExtraEdge::Internal(pos) => date_at(dates, pos).max(rest),
        ExtraEdge::Last(pos) => date_at(dates, pos),
    }
}

/// The words of a layer's extra edge list, none where it has no such list.
pub(super) fn words_of(file: &File) -> &[u32]
    ensures { result.now ≡ words_in file.now }
{
    extra_edges(file).unwrap_or(&[])
}

/// Room for one number for each word of the extra edge list of any one layer.
pub(super) fn room_for_lists(alloc: Global, graph: &Graph) -> Result<Vec<u64>, AllocError>
    ensures { IfOk result (λ room. HasRoomForLists graph.now room.items) }
{
    let layers = graph.layers();
    let mut longest = 0;
    for layer in 0..layers.len() {
        longest = words_of(&layers[layer]).len().max(longest);
    }
    vec![in alloc; 0; longest]
}

/// Puts in, for each word of a layer's extra edge list, the latest date of the parents that are
/// listed from it on.
pub(super) fn put_latest(latest: &mut [u64], dates: &[u64], file: &File)
    requires { length latest.old ≡ length (words_in file.now) }
    ensures { AreLatest dates.now file.now.edges latest.new }
{
    let words = words_of(file);
    let mut listed = 0;
    for index in (0..words.len()).rev() {
        listed = latest_from(dates, words[index], listed);
        latest[index] = listed;
    }
}

/// The latest date of the parents that the second field of a commit gives.
fn latest_after_first(dates: &[u64], latest: &[u64], second: ParentEdge) -> u64
    ensures { (edges : _) → AreLatest dates.now edges latest.now
        → result ≡ latest_of dates.now (second_parents second edges) }
{
    match second {
        ParentEdge::None => 0,
        ParentEdge::GraphPosition(pos) => date_at(dates, pos),
        ParentEdge::ExtraEdgeIndex(index) => latest.get(index as usize).copied().unwrap_or(0),
    }
}

/// The latest date of the parents of a commit, 0 where there are none.
pub(super) fn latest_of_parents(dates: &[u64], latest: &[u64], commit: &Commit<'_>) -> u64
    requires { AreLatest dates.now (commit_layer commit.now).edges latest.now }
    ensures { result ≡ latest_of dates.now (commit_parents commit.now) }
{
    match parent_edges(commit) {
        (ParentEdge::GraphPosition(first), second) => {
            date_at(dates, first).max(latest_after_first(dates, latest, second))
        }
        _ => 0,
    }
}
