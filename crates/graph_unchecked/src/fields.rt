//! Whether what was read of a commit can be that of a commit of a right graph.

ghost use Rattle.std.specs.Prelude.{◌≡◌, ◌<◌, ◌≤◌, ◌-◌, ◌^◌, IsTrue};
ghost use Rattle.commit_search.specs.Source.{IsFieldWithin};
ghost use Rattle.graph_parts.specs.Shown.{AreGraphParts, files_of};
ghost use Rattle.graph_unchecked.specs.PartSource.{AreFieldsThere, IsFollowed, IsWordThere};
ghost use Rattle.graph_unchecked.specs.PartSource.{word_total};

use commit_search::edges::parent_of;
use gix_commitgraph::file::commit::{ExtraEdge, ParentEdge};
use graph_parts::parts::GraphParts;

/// How many words the extra edge list of a layer has, of those that have a number.
pub(crate) fn words_in(parts: &GraphParts, layer: usize) -> u32
    requires { AreGraphParts parts.now }
    ensures { result ≡ word_total (files_of parts.now) layer }
{
    parts.edges_of(layer).min(u32::MAX as usize) as u32
}

/// Whether both parent fields of a commit can be decoded, and name some of so many commits and
/// words.
pub(crate) fn are_fields_there(
    first: ParentEdge,
    second: ParentEdge,
    count: u32,
    words: u32,
) -> bool
    ensures { IsTrue result → AreFieldsThere count words first second }
{
    match first {
        ParentEdge::None => matches!(second, ParentEdge::None),
        ParentEdge::GraphPosition(pos) => pos.0 < count && is_field_there(second, count, words),
        ParentEdge::ExtraEdgeIndex(_) => false,
    }
}

/// Whether a parent field names one of so many commits or words, or nothing.
fn is_field_there(field: ParentEdge, count: u32, words: u32) -> bool
    ensures { IsTrue result → IsFieldWithin count (λ index. index < words) field }
{
    match field {
        ParentEdge::None => true,
        ParentEdge::GraphPosition(pos) => pos.0 < count,
        ParentEdge::ExtraEdgeIndex(index) => index < words,
    }
}

/// Whether the word of an index names one of so many commits, and another follows it, unless it is
/// the last of its commit.
pub(crate) fn is_word_there(word: ExtraEdge, index: u32, count: u32, words: u32) -> bool
    requires { index < words }
    ensures { IsTrue result → IsWordThere count words index word }
{
    parent_of(word).0 < count && is_followed(word, index, words)
}

/// Whether another word follows, unless this is the last of its commit.
fn is_followed(word: ExtraEdge, index: u32, words: u32) -> bool
    requires { index < words }
    ensures { IsTrue result → IsFollowed words index word }
{
    match word {
        ExtraEdge::Internal(_) => index + 1 < words,
        ExtraEdge::Last(_) => true,
    }
}
