//! Where a byte is.

ghost use Rattle.std.specs.Prelude.{MatchOption};
ghost use Rattle.question_lines.specs.BytePlaces.{HasNone, IsFirstPlace};

/// The first place of a byte, if it is there.
pub(crate) fn place_of(byte: u8, bytes: &[u8]) -> Option<usize>
    ensures { MatchOption result (HasNone byte bytes.now) (IsFirstPlace byte bytes.now) }
{
    for (place, found) in bytes.iter().enumerate() {
        if *found == byte {
            return Some(place);
        }
    }
    None
}
