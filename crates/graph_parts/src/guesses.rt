//! Where an id is guessed to stand among those that begin with the same byte.

ghost use Rattle.std.specs.Prelude.{◌<◌, ◌≤◌};

use graph_format::integers::word_at;

/// How many guesses are made before the ids that are left are halved.
const MOST_GUESSES: u32 = 8;

/// Guesses of where an id stands. Ids are digests, so those between two of them are spread evenly,
/// and the wanted one is looked for at its share of them. Few guesses suffice where that is so; in
/// any case there are not many.
#[derive(Drop)]
pub(crate) struct Guesses {
    wanted: u32,
    low: u32,
    high: u32,
    left: u32,
}

impl Guesses {
    /// No guess was made yet of where the id stands.
    pub(crate) fn new(wanted: &[u8]) -> Guesses {
        Guesses {
            wanted: number_of(wanted),
            low: 0,
            high: u32::MAX,
            left: MOST_GUESSES,
        }
    }

    /// The next one to look at of the ids from `start` to before `end`.
    pub(crate) fn next(&mut self, start: u32, end: u32) -> u32
        requires { start < end }
        ensures from { start ≤ result }
        ensures within { result < end }
    {
        if self.left == 0 {
            return start + (end - start) / 2;
        }
        self.left -= 1;
        let part = u64::from(self.wanted.saturating_sub(self.low));
        let whole = u64::from(self.high.saturating_sub(self.low)).max(1);
        let share = part * u64::from(end - start) / whole;
        start + share.min(u64::from(end - start - 1)) as u32
    }

    /// The wanted id stands after this one.
    pub(crate) fn is_after(&mut self, id: &[u8]) {
        self.low = number_of(id);
    }

    /// The wanted id stands before this one.
    pub(crate) fn is_before(&mut self, id: &[u8]) {
        self.high = number_of(id);
    }
}

/// The number that the bytes of an id after the first begin with, 0 where they are too few.
fn number_of(id: &[u8]) -> u32 {
    if id.len() < 5 { 0 } else { word_at(id, 1) }
}
