//! What is read of commits by parts, for a search along parents.

ghost use Rattle.std.specs.Prelude.{◌≡◌, ◌<◌, ℕ, IfOk};
ghost use Rattle.graph_walks.specs.History.{generation_at};
ghost use Rattle.commit_search.specs.Source.{AreFieldsRead, IsWordRead, Told};
ghost use Rattle.graph_parts.specs.PartFiles.{commits_in_all};
ghost use Rattle.graph_parts.specs.Shown.{AreGraphParts, files_of};
ghost use Rattle.graph_parts.specs.Spots.{LiesInFile};
ghost use Rattle.graph_unchecked.specs.PartSource.{IsWordOf, PartsTell, ReadsOn, told_dates};
ghost use Rattle.graph_unchecked.specs.PartSource.{word_total};
ghost use Rattle.graph_unchecked.specs.Unread.{failures_after_reads};

use crate::fields::{are_fields_there, is_word_there, words_in};
use crate::unread::Unread;
use gix_commitgraph::Position;
use gix_commitgraph::file::commit::{ExtraEdge, ParentEdge};
use gix_commitgraph::law::graph::{
    a_commit_lies_in_its_layer, a_position_lies_in_one_layer,
    the_history_of_a_graph_is_that_of_its_layers, the_history_of_a_graph_says_what_its_records_say,
};
use graph_folder::folder::Folder;
use graph_parts::parts::GraphParts;
use std::alloc::Global;

/// The generation number of the commit at a position.
#[tactic(auto, using(crate::proofs::SourceLemmas::reads_on, crate::proofs::SourceLemmas::as_many))]
pub(crate) fn read_number<T: Folder>(
    alloc: Global,
    folder: &mut T,
    parts: &mut GraphParts,
    pos: Position,
) -> Result<u32, Unread>
    requires parts { AreGraphParts parts.old }
    requires pos { pos.0 < commits_in_all (files_of parts.old) }
    ensures reads { ReadsOn (T.tree folder.old) parts.old parts.new }
    ensures number { IfOk result (λ number. (t : Told) → PartsTell (T.tree folder.old) parts.new t
        → number ≡ generation_at t.history pos.0) }
    ensures tree { T.tree folder.new ≡ T.tree folder.old }
    ensures failures { T.failure_count folder.new
        ≡ failures_after_reads result (T.failure_count folder.old) }
{
    the_history_of_a_graph_says_what_its_records_say();
    let Some(commit) = parts.commit_at(alloc, folder, pos)? else {
        return Err(Unread::NotByParts);
    };
    Ok(commit.generation)
}

/// The corrected date that is stored of the commit at a position, up to the greatest number of 64
/// bits.
#[tactic(auto, using(crate::proofs::SourceLemmas::reads_on, crate::proofs::SourceLemmas::as_many))]
pub(crate) fn read_date<T: Folder>(
    alloc: Global,
    folder: &mut T,
    parts: &mut GraphParts,
    pos: Position,
) -> Result<u64, Unread>
    requires parts { AreGraphParts parts.old }
    requires pos { pos.0 < commits_in_all (files_of parts.old) }
    ensures reads { ReadsOn (T.tree folder.old) parts.old parts.new }
    ensures date { IfOk result (λ date. (t : Told) → PartsTell (T.tree folder.old) parts.new t
        → date ≡ (told_dates t).rank pos.0) }
    ensures tree { T.tree folder.new ≡ T.tree folder.old }
    ensures failures { T.failure_count folder.new
        ≡ failures_after_reads result (T.failure_count folder.old) }
{
    match parts.date_at(alloc, folder, pos)? {
        Some(date) => Ok(date),
        None => Err(Unread::NotByParts),
    }
}

/// What both parent fields of the commit at a position say. They are refused where they cannot be
/// those of a right graph.
#[tactic(auto, using(crate::proofs::SourceLemmas::reads_on, crate::proofs::SourceLemmas::as_many))]
pub(crate) fn read_fields<T: Folder>(
    alloc: Global,
    folder: &mut T,
    parts: &mut GraphParts,
    pos: Position,
) -> Result<(ParentEdge, ParentEdge), Unread>
    requires parts { AreGraphParts parts.old }
    requires pos { pos.0 < commits_in_all (files_of parts.old) }
    ensures reads { ReadsOn (T.tree folder.old) parts.old parts.new }
    ensures fields { IfOk result (let files = files_of parts.old in
        AreFieldsRead (commits_in_all files) (IsWordOf files) (LiesInFile files)
        (PartsTell (T.tree folder.old) parts.new) pos.0) }
    ensures tree { T.tree folder.new ≡ T.tree folder.old }
    ensures failures { T.failure_count folder.new
        ≡ failures_after_reads result (T.failure_count folder.old) }
{
    the_history_of_a_graph_is_that_of_its_layers();
    the_history_of_a_graph_says_what_its_records_say();
    a_position_lies_in_one_layer();
    a_commit_lies_in_its_layer();
    let layer = parts.layer_of(pos);
    let words = words_in(parts, layer);
    let count = parts.commits();
    let Some(commit) = parts.commit_at(alloc, folder, pos)? else {
        return Err(Unread::NotByParts);
    };
    if !are_fields_there(commit.first, commit.second, count, words) {
        return Err(Unread::NotByParts);
    }
    Ok((commit.first, commit.second))
}

/// What a word of the extra edge list says of the layer in which a position lies. It is refused
/// where it cannot be that of a right graph.
#[tactic(auto, using(crate::proofs::SourceLemmas::reads_on, crate::proofs::SourceLemmas::as_many))]
pub(crate) fn read_word<T: Folder>(
    alloc: Global,
    folder: &mut T,
    parts: &mut GraphParts,
    pos: Position,
    layer: usize,
    index: u32,
) -> Result<ExtraEdge, Unread>
    requires parts { AreGraphParts parts.old }
    requires lies { LiesInFile (files_of parts.old) pos.0 layer }
    requires index { index < word_total (files_of parts.old) layer }
    ensures reads { ReadsOn (T.tree folder.old) parts.old parts.new }
    ensures word { IfOk result (let files = files_of parts.old in
        IsWordRead (commits_in_all files) (word_total files layer) (IsWordOf files)
        (PartsTell (T.tree folder.old) parts.new) pos.0 layer index) }
    ensures tree { T.tree folder.new ≡ T.tree folder.old }
    ensures failures { T.failure_count folder.new
        ≡ failures_after_reads result (T.failure_count folder.old) }
{
    let words = words_in(parts, layer);
    let count = parts.commits();
    let Some(word) = parts.edge_at(alloc, folder, layer, index as usize)? else {
        return Err(Unread::NotByParts);
    };
    if !is_word_there(word, index, count, words) {
        return Err(Unread::NotByParts);
    }
    Ok(word)
}
