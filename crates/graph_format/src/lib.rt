//! What Git's commit-graph files say, version 1: their layout, the conditions under which bytes are
//! a layer, records, parents and extra edges, and the points that a check goes through.
//!
//! Beside definitions and their laws there is what is done with the bytes before there is a layer:
//! where its parts lie, and how its fan, its records and its extra edge list are decoded.
#![tactic(auto)]

ghost use Rattle.std.specs.Prelude.{Some};
ghost use Rattle.std.specs.Fmt.{styled_decimal};

pub mod chunks;
pub mod error;
pub mod error_numbers;
pub mod fan;
pub mod fault;
pub mod file;
mod header;
pub mod integers;
pub mod law;
pub mod layout;
pub mod parents;
pub mod records;

use std::fmt;

/// The generation number of a commit that has none yet, which is above every other.
pub const GENERATION_NUMBER_INFINITY: u32 = 0xffff_ffff;

/// The greatest number of commits that a graph can have, as positions of parents are stored.
pub const MAX_COMMITS: u32 = (1 << 30) + (1 << 29) + (1 << 28) - 1;

/// A position in a graph: the number of a commit, counted from 0 over all of its layers, the lowest
/// layer first. A [`file::Position`] counts within one layer.
#[derive(Clone, Copy, Debug, PartialEq, Eq, PartialOrd, Ord, Hash)]
pub struct Position(pub u32);

/// The number, with the formatter's width and fill.
impl fmt::Display for Position {
    ghost styled_output = { λ position spec. Some (styled_decimal spec position.0) };

    fn fmt<W: fmt::Write>(&self, f: &mut fmt::Formatter<W>) -> fmt::Result {
        self.0.fmt(f)
    }
}
