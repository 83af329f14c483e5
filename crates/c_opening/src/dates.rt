//! The corrected dates of an open graph, which lie in it once a search has looked for them.

ghost use Rattle.std.specs.Prelude.{◌≡◌, ◌%◌, ◌<◌, All, IfOk, IfSome};
ghost use Rattle.gix_commitgraph.specs.Graph.{total};
ghost use Rattle.commit_search.specs.Positions.{numbers_of};
ghost use Rattle.counted_slot.specs.Counting.{readers};
ghost use Rattle.c_opening.specs.ComparisonOrder.{AreFoundDates, IsOrderedComparison};

use counted_slot::{Claim, Counted, FREE, Fits, MOST_READERS, ONE_READER, PRESENT, TAKEN};
use gix_commitgraph::{Graph, Position};
use graph_chunks::dates::CorrectedDates;
use graph_history::{Checked, Comparer, Comparison};
use std::alloc::{AllocError, Global};
use std::marker::Model;

/// What was found where the corrected dates of a right graph were looked for.
#[derive(Drop)]
struct Looked {
    found: Option<CorrectedDates>,
}

impl Fits for Looked {
    type Tag = Graph;

    ghost fits = { λ layers looked. AreFoundDates layers looked.found };
}

impl Looked {
    /// Looks for the dates of a graph.
    fn new(alloc: Global, graph: &Checked<'_>) -> Result<Looked, AllocError>
        ensures { IfOk result (λ looked. AreFoundDates graph.now.layers looked.found) }
    {
        let found = graph.dates(alloc)?;
        Ok(Looked { found })
    }

    /// What commits of the graph have in common.
    fn compare(
        &self,
        comparer: &mut Comparer<'_, '_>,
        first: Position,
        others: &[Position],
    ) -> Result<Comparison, AllocError>
        requires dates { AreFoundDates comparer.old.layers self.now.found }
        requires first { first.0 < total comparer.old.layers }
        requires others { All (λ other. other.0 < total comparer.old.layers) others.now }
        ensures graph { comparer.new ≡ comparer.old }
        ensures exact { IfOk result (IsOrderedComparison comparer.old.layers first.0
            (numbers_of others.now)) }
    {
        match &self.found {
            Some(dates) => comparer.compare_by_dates(dates, first, others),
            None => comparer.compare(first, others),
        }
    }
}

/// Where the dates of a graph lie, once they were looked for. No thread waits for another. A
/// contract sees it as the graph's layers.
#[derive(Drop)]
pub(crate) struct KeptDates {
    slot: Counted<Option<Looked>>,
}

impl Model for KeptDates {
    ghost use Rattle.std.specs.Prelude.{List};
    ghost use Rattle.graph_format.specs.Layer.{Layer};

    ghost Value = { List Layer };

    ghost view = { λ a. a.slot };
}

impl KeptDates {
    /// Those of a graph, which were not looked for yet.
    pub(crate) fn new(graph: &Graph) -> KeptDates
        ensures { result ≡ graph.now }
    {
        KeptDates {
            slot: Counted::new(None, graph),
        }
    }

    /// What commits of the graph have in common, by a search in the order of its corrected dates,
    /// if each layer has dates and all are right, and else of its generation numbers.
    pub(crate) fn compare(
        &self,
        alloc: Global,
        comparer: &mut Comparer<'_, '_>,
        first: Position,
        others: &[Position],
    ) -> Result<Comparison, AllocError>
        requires graph { comparer.old.layers ≡ self.now }
        requires first { first.0 < total self.now }
        requires others { All (λ other. other.0 < total self.now) others.now }
        ensures graph { comparer.new ≡ comparer.old }
        ensures exact { IfOk result (IsOrderedComparison self.now first.0
            (numbers_of others.now)) }
    {
        if let Some(claim) = self.reader() {
            if let Some(looked) = claim.get() {
                let compared = looked.compare(comparer, first, others);
                claim.leave();
                return compared;
            }
            claim.leave();
        }
        let looked = Looked::new(alloc, comparer.graph())?;
        let compared = looked.compare(comparer, first, others);
        self.keep(looked);
        compared
    }

    /// The right to read what lies here, if that was looked for.
    fn reader(&self) -> Option<Claim<'_, Option<Looked>>>
        ensures right { IfSome result (λ claim. claim.right ≡ 1) }
        ensures graph { IfSome result (λ claim. claim.tag ≡ self.now) }
    {
        let mut seen = PRESENT;
        for _ in 0..u64::MAX {
            if state_of(seen) != PRESENT || reader_count(seen) == MOST_READERS {
                return None;
            }
            let (found, claim) = self.slot.turn(seen, seen + ONE_READER);
            if found == seen {
                return Some(claim);
            }
            claim.done();
            seen = found;
        }
        None
    }

    /// Keeps what was found, unless another search has kept it before.
    fn keep(&self, looked: Looked)
        requires { AreFoundDates self.now looked.found }
    {
        let (found, claim) = self.slot.turn(FREE, TAKEN);
        if found == FREE {
            claim.put(Some(looked), PRESENT);
        } else {
            claim.done();
        }
    }
}

/// The state of a word of the slot.
fn state_of(word: u64) -> u64
    ensures { result ≡ word % 4 }
{
    word % 4
}

/// How many searches read what lies in the slot.
fn reader_count(word: u64) -> u64
    ensures { result ≡ readers word }
{
    word % 0x1_0000_0000 / 4
}
