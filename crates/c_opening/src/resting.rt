//! A searcher that rests between queries, which one query at a time has.

ghost use Rattle.std.specs.Prelude.{⊤};

use commit_search::AnySearcher;
use counted_slot::{Counted, FREE, Fits, TAKEN};
use std::alloc::Global;

/// The word of a slot whose searcher a query has.
const IN_USE: u64 = 1 << 32;

/// A searcher, with the memory of the queries that it has answered.
#[derive(Drop)]
struct Rested {
    searcher: AnySearcher,
}

impl Fits for Rested {
    type Tag = ();

    ghost fits = { λ _ _. ⊤ };
}

/// Where a searcher rests. No thread waits for another.
#[derive(Drop)]
pub(crate) struct Resting {
    slot: Counted<Option<Rested>>,
}

impl Resting {
    /// No searcher has answered a query yet.
    pub(crate) fn new() -> Resting {
        Resting {
            slot: Counted::new(None, &()),
        }
    }

    /// The searcher, which is new at the first time; or none, while a query has it.
    pub(crate) fn take(&self, alloc: Global) -> Option<AnySearcher> {
        let (found, claim) = self.slot.turn(FREE, TAKEN);
        if found != FREE {
            claim.done();
            return None;
        }
        match claim.put(None, IN_USE) {
            Some(Rested { searcher }) => Some(searcher),
            None => Some(AnySearcher::new(alloc)),
        }
    }

    /// Lets a searcher rest that was taken.
    pub(crate) fn put_back(&self, searcher: AnySearcher) {
        let (found, claim) = self.slot.turn(IN_USE, TAKEN);
        if found == IN_USE {
            claim.put(Some(Rested { searcher }), FREE);
        } else {
            claim.done();
        }
    }
}
