//! Positions in one layer of a commit-graph.

ghost use Rattle.std.specs.Prelude.{Some};
ghost use Rattle.std.specs.Fmt.{styled_decimal};

use std::fmt;

/// A position in one layer: the number of a commit there, counted from 0 in the order of its ids.
/// A [`crate::Position`] counts over all layers of a graph.
#[derive(Clone, Copy, Debug, PartialEq, Eq, PartialOrd, Ord, Hash)]
pub struct Position(pub u32);

/// The number, with the formatter's width and fill.
impl fmt::Display for Position {
    ghost styled_output = { λ position spec. Some (styled_decimal spec position.0) };

    fn fmt<W: fmt::Write>(&self, f: &mut fmt::Formatter<W>) -> fmt::Result {
        self.0.fmt(f)
    }
}
