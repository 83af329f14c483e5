//! The positions that a command is asked for.

ghost use Rattle.std.specs.Prelude.{◌≡◌, ◌≢◌, ◌↔◌, ◌<◌, ◌^◌, ℕ, IfSome, IsNone, IsTrue};
ghost use Rattle.std.specs.Prelude.{MatchOption, MatchResult, Some, decimal};
ghost use Rattle.gix_commitgraph.specs.Graph.{total};
ghost use Rattle.object_commands.specs.AskedRange.{SpellsRange, IsRangeOf, asked_range};
ghost use Rattle.object_commands.specs.declared.range.PositionRange as declared;

use crate::refusal::ObjectsRefusal;
use gix_commitgraph::Graph;
use itoa::Buffer;

/// The positions from `from` up to and without `to`.
#[derive(Clone, Copy, Debug, PartialEq, Eq)]
pub struct PositionRange {
    /// The first position.
    pub from: u32,
    /// The one after the last.
    pub to: u32,
}

impl PositionRange {
    /// The range that two texts spell: numbers below 2^32 in decimal, without signs and leading
    /// zeros. It is none where one of them is no such number. Whether the first is above the second
    /// is not looked at.
    pub fn from_texts(from: &str, to: &str) -> Option<PositionRange>
        ensures spelled { IfSome result (SpellsRange from.now to.now) }
        ensures other { IsNone result
            → (range : declared.PositionRange) → ¬ SpellsRange from.now to.now range }
    {
        let from = number_in(from)?;
        let to = number_in(to)?;
        Some(PositionRange { from, to })
    }

    /// The positions of a graph that are asked for: those of the range, or all where none is given.
    /// The error is `Range` where the graph lacks some of them, or the range ends before it begins.
    pub(crate) fn of_graph(
        graph: &Graph,
        asked: Option<PositionRange>,
    ) -> Result<PositionRange, ObjectsRefusal>
        ensures { MatchResult result
            (λ range. (range ≡ asked_range graph.now asked) × IsRangeOf graph.now range)
            (λ refusal. (refusal ≡ ObjectsRefusal.Range (total graph.now))
            × ¬ IsRangeOf graph.now (asked_range graph.now asked)) }
    {
        let commits = graph.num_commits();
        let range = asked.unwrap_or(PositionRange {
            from: 0,
            to: commits,
        });
        if range.from <= range.to && range.to <= commits {
            Ok(range)
        } else {
            Err(ObjectsRefusal::Range { commits })
        }
    }
}

/// The number below 2^32 that a text is in decimal, without a sign and leading zeros.
pub fn number_in(text: &str) -> Option<u32>
    ensures { MatchOption result ((n : ℕ) → n < 2 ^ 32 → text.now ≢ decimal n)
        (λ n. text.now ≡ decimal n) }
{
    let number = parsed(text)?;
    if is_decimal(number, text) {
        Some(number)
    } else {
        None
    }
}

/// The number that a text spells, also with a sign or leading zeros.
fn parsed(text: &str) -> Option<u32>
    ensures { (n : ℕ) → n < 2 ^ 32 → text.now ≡ decimal n → result ≡ Some n }
{
    text.parse::<u32>().ok()
}

/// Whether the text is the number in decimal.
fn is_decimal(number: u32, text: &str) -> bool
    ensures { IsTrue result ↔ (text.now ≡ decimal number) }
{
    let mut buffer = Buffer::new();
    buffer.format(number) == text
}
