//! The corrected dates of a graph that was checked, for searches in their order.

ghost use Rattle.std.specs.Prelude.{◌≡◌, IfSome, None};
ghost use Rattle.graph_history.specs.GraphComparison.{AreDatesOf};

use graph_chunks::dates::CorrectedDates;
use graph_history::Checked;
use std::alloc::Global;

/// The corrected dates of a graph, once they were looked for and found right.
#[derive(Drop)]
pub(crate) struct KnownDates {
    pub(crate) found: Option<CorrectedDates>,
    has_looked: bool,
    /// Whether a search that can do without them was made before.
    is_asked_again: bool,
}

impl KnownDates {
    /// Nothing was looked for.
    pub(crate) fn new() -> KnownDates
        ensures { result.found ≡ None }
    {
        KnownDates {
            found: None,
            has_looked: false,
            is_asked_again: false,
        }
    }

    /// Looks for the dates of a graph, unless that was done before. Where memory runs out, none are
    /// known.
    pub(crate) fn look(&mut self, alloc: Global, graph: &Checked<'_>)
        requires { IfSome self.old.found (AreDatesOf graph.now.layers) }
        ensures { IfSome self.new.found (AreDatesOf graph.now.layers) }
    {
        if self.has_looked {
            return;
        }
        self.has_looked = true;
        if let Ok(found) = graph.dates(alloc) {
            self.found = found;
        }
    }

    /// Looks for the dates of a graph as `look` does, but not at the first call: to check them
    /// takes longer than one search for an ancestor that goes without them.
    pub(crate) fn look_again(&mut self, alloc: Global, graph: &Checked<'_>)
        requires { IfSome self.old.found (AreDatesOf graph.now.layers) }
        ensures { IfSome self.new.found (AreDatesOf graph.now.layers) }
    {
        if self.is_asked_again {
            self.look(alloc, graph);
        }
        self.is_asked_again = true;
    }
}
