//! What the fields of a commit and the words of the extra edge list say of parents: the sections
//! "Commit Data" and "Extra Edge List" of Git's commit-graph format.

ghost use Rattle.std.specs.Prelude.{◌≡◌};

use crate::Position;
use thiserror::Error;

/// What a parent field holds where there is no parent.
pub const NO_PARENT: u32 = 0x7000_0000;

/// The top bit of a word. A parent field with it is an index into the extra edge list, and a word
/// of that list with it is the last parent.
pub const TOP_BIT: u32 = 0x8000_0000;

/// Why the parents of a commit, or some of them, cannot be decoded. Displayed as the name of the
/// variant.
#[derive(Clone, Copy, Debug, PartialEq, Eq, Error)]
pub enum ParentError {
    /// There is a second parent, or an index into the extra edge list, and no first parent.
    #[error("SecondWithoutFirst")]
    SecondWithoutFirst,
    /// The first parent field is an index into the extra edge list.
    #[error("FirstIsEdgeIndex")]
    FirstIsEdgeIndex,
    /// The second parent field is an index into the extra edge list, and the file has no such list.
    #[error("NoEdgeList")]
    NoEdgeList,
    /// The extra edge list ends before a word that is a last parent. The parents up to its end were
    /// given; there are none where the index is past its end.
    #[error("EdgeOverflow")]
    EdgeOverflow,
}

/// What a parent field of a commit says: the section "Commit Data".
#[derive(Clone, Copy, Debug, PartialEq, Eq)]
pub enum ParentEdge {
    /// No parent.
    None,
    /// The position of the parent in the graph.
    GraphPosition(Position),
    /// The index of the word of the extra edge list at which the parents from the second on begin.
    ExtraEdgeIndex(u32),
}

impl ParentEdge {
    ghost use Rattle.graph_format.specs.Parents.{edge_of};

    /// Reads a parent field: `None` for 0x70000000; else, with the top bit set, the index that the
    /// other bits are; else a position.
    pub fn from_raw(raw: u32) -> ParentEdge
        ensures { result ≡ edge_of raw }
    {
        if raw == NO_PARENT {
            ParentEdge::None
        } else if raw >= TOP_BIT {
            ParentEdge::ExtraEdgeIndex(raw - TOP_BIT)
        } else {
            ParentEdge::GraphPosition(Position(raw))
        }
    }
}

/// What a word of the section "Extra Edge List" says.
#[derive(Clone, Copy, Debug, PartialEq, Eq)]
pub enum ExtraEdge {
    /// The position of a parent that is not the last: the next word is a parent too.
    Internal(Position),
    /// The position of the last parent.
    Last(Position),
}

impl ExtraEdge {
    ghost use Rattle.graph_format.specs.Parents.{extra_edge_of};

    /// Reads a word: with the top bit set, the last parent, at the position that the other bits
    /// are; else the position of a parent. No word stands for "no parent": 0x70000000 is the
    /// position 1879048192.
    pub fn from_raw(raw: u32) -> ExtraEdge
        ensures { result ≡ extra_edge_of raw }
    {
        if raw >= TOP_BIT {
            ExtraEdge::Last(Position(raw - TOP_BIT))
        } else {
            ExtraEdge::Internal(Position(raw))
        }
    }
}
