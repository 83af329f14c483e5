//! The words of an extra edge list ("Extra Edge List").

ghost use Rattle.std.specs.Prelude.{◌≡◌};
ghost use Rattle.commit_search.specs.EdgeLists.{named_by};

use graph_format::Position;
use graph_format::parents::ExtraEdge;

/// The parent that a word of an extra edge list names ("Extra Edge List").
pub fn parent_of(edge: ExtraEdge) -> Position
    ensures { result.0 ≡ named_by edge }
{
    match edge {
        ExtraEdge::Internal(parent) => parent,
        ExtraEdge::Last(parent) => parent,
    }
}
