//! The corrected dates of a right graph, and searches in their order.

ghost use Rattle.std.specs.Prelude.{◌≡◌, ◌≢◌, ◌⊎◌, ◌↔◌, ◌<◌, ℕ, List, All, IfNone, IfOk, IfSome};
ghost use Rattle.std.specs.Prelude.{IsTrue, OnErr};
ghost use Rattle.graph_walks.specs.Walks.{Reaches};
ghost use Rattle.graph_format.specs.StoredHistory.{history_of};
ghost use Rattle.gix_commitgraph.specs.Graph.{total};
ghost use Rattle.commit_search.specs.Positions.{numbers_of};
ghost use Rattle.commit_search.specs.Ranks.{by_date};
ghost use Rattle.commit_search.specs.WalkAnswer.{BothMayLead, IsAnswerBy};
ghost use Rattle.graph_history.specs.GraphComparison.{AreDatesOf, IsComparisonOfBy};

use crate::bases::Comparer;
use crate::checked::Checked;
use commit_search::CommitSource;
use gix_commitgraph::law::graph::the_history_of_a_graph_is_that_of_its_layers;
use gix_commitgraph::{Graph, Position};
use graph_ancestors::{InMemory, Reached, Searcher};
use graph_bases::law::corrected_dates_fall_along_parents;
use graph_bases::{Comparison, Ranks};
use graph_chunks::dates::{CorrectedDates, DatesError};
use std::alloc::{AllocError, Global};
use std::marker::Model;

/// Corrected dates as ranks of the commits that have them, and 0 of all others.
#[derive(Drop)]
pub(crate) struct DateRanks<'d> {
    dates: &'d CorrectedDates,
    /// How many there are.
    count: u32,
}

impl<'d> Model for DateRanks<'d> {
    ghost use Rattle.std.specs.Prelude.{◌≡◌, ℕ, List, length};

    ghost Value = { List ℕ };

    ghost view = { λ a. a.dates.now };

    ghost invariant = { λ a. a.count ≡ length a.dates.now };
}

impl<'d> DateRanks<'d> {
    /// Those of a graph.
    fn new(graph: &Graph, dates: &'d CorrectedDates) -> DateRanks<'d>
        requires { AreDatesOf graph.now dates.now }
        ensures { result ≡ dates.now }
    {
        the_history_of_a_graph_is_that_of_its_layers();
        let count = graph.num_commits();
        let ranks = DateRanks { dates, count };
        ranks
    }
}

impl<'d, S: CommitSource> Ranks<S> for DateRanks<'d> {
    ghost ranking = { λ dates _. by_date dates };

    fn cap(&self) -> u64 {
        u64::MAX
    }

    fn rank(&self, _: &mut S, pos: Position) -> Result<u64, S::Error> {
        if pos.0 < self.count {
            Ok(self.dates.of(pos))
        } else {
            Ok(0)
        }
    }
}

impl<'g> Checked<'g> {
    /// The corrected dates of the graph, where each layer has dates and all are right, and else
    /// `None`: Git orders its searches by them ("corrected commit date" in its commit-graph
    /// design), and so does [`Comparer::compare_by_dates`]. They are checked for that.
    ///
    /// # Errors
    ///
    /// An allocation failed.
    pub fn dates(&self, alloc: Global) -> Result<Option<CorrectedDates>, AllocError>
        ensures some { IfOk result (λ found. IfSome found (AreDatesOf self.now.layers)) }
        ensures none { IfOk result (λ found. IfNone found
            ((dates : List ℕ) → ¬ AreDatesOf self.now.layers dates)) }
    {
        match CorrectedDates::of_graph(alloc, self.graph()) {
            Ok(found) => Ok(found),
            Err(DatesError::OutOfMemory) => Err(AllocError),
            Err(_) => Ok(None),
        }
    }

    /// Looks for a shortest walk as [`Searcher::ancestor_walk`] does, by a search that leaves out
    /// each commit whose generation number or whose corrected date is below that of `to`. Where
    /// branches begin far back, or with a root of their own, it visits far fewer commits: these
    /// have low generation numbers, and late dates. The searcher and the dates are the graph's own.
    ///
    /// # Errors
    ///
    /// An allocation failed: only where the two commits are one, or both numbers allow a walk. The
    /// searcher can be asked again.
    pub fn ancestor_walk_by_dates(
        &self,
        searcher: &mut Searcher<'_>,
        dates: &CorrectedDates,
        from: Position,
        to: Position,
    ) -> Result<Reached, AllocError>
        requires searcher { searcher.old ≡ self.now.layers }
        requires dates { AreDatesOf self.now.layers dates.now }
        requires from { from.0 < total self.now.layers }
        requires to { to.0 < total self.now.layers }
        ensures searcher { searcher.new ≡ searcher.old }
        ensures answer { IfOk result (IsAnswerBy (history_of self.now.layers)
            (by_date dates.now) from.0 to.0) }
        ensures refused { OnErr result ((from.0 ≡ to.0)
            ⊎ BothMayLead (history_of self.now.layers) (by_date dates.now) from.0 to.0) }
    {
        corrected_dates_fall_along_parents();
        let ranks = DateRanks::new(self.graph(), dates);
        searcher.ancestor_walk_by(&ranks, from, to)
    }

    /// Whether one commit is an ancestor of another, or the same, as [`Searcher::is_ancestor`]
    /// tells it, by a search that leaves out commits as [`Checked::ancestor_walk_by_dates`] does.
    ///
    /// # Errors
    ///
    /// An allocation failed: only where the commits are two, and both numbers allow a walk. The
    /// searcher can be asked again.
    pub fn is_ancestor_by_dates(
        &self,
        searcher: &mut Searcher<'_>,
        dates: &CorrectedDates,
        ancestor: Position,
        descendant: Position,
    ) -> Result<bool, AllocError>
        requires searcher { searcher.old ≡ self.now.layers }
        requires dates { AreDatesOf self.now.layers dates.now }
        requires ancestor { ancestor.0 < total self.now.layers }
        requires descendant { descendant.0 < total self.now.layers }
        ensures searcher { searcher.new ≡ searcher.old }
        ensures found { IfOk result (λ found.
            IsTrue found ↔ Reaches (history_of self.now.layers) descendant.0 ancestor.0) }
        ensures refused { OnErr result ((descendant.0 ≢ ancestor.0)
            × BothMayLead (history_of self.now.layers) (by_date dates.now)
            descendant.0 ancestor.0) }
    {
        corrected_dates_fall_along_parents();
        let ranks = DateRanks::new(self.graph(), dates);
        searcher.is_ancestor_by(&ranks, ancestor, descendant)
    }
}

impl<'c, 'g> Comparer<'c, 'g> {
    /// What [`Comparer::compare`] answers, by a search that visits the commits with the latest
    /// corrected dates first. Where branches begin far back, or with a root of their own, it visits
    /// far fewer commits: these have low generation numbers, and late dates.
    ///
    /// # Errors
    ///
    /// Those of [`Comparer::compare`].
    pub fn compare_by_dates(
        &mut self,
        dates: &CorrectedDates,
        first: Position,
        others: &[Position],
    ) -> Result<Comparison, AllocError>
        requires dates { AreDatesOf self.old.layers dates.now }
        requires first { first.0 < total self.old.layers }
        requires others { All (λ other. other.0 < total self.old.layers) others.now }
        ensures graph { self.new ≡ self.old }
        ensures exact { IfOk result (IsComparisonOfBy self.old.layers (by_date dates.now) first.0
            (numbers_of others.now)) }
    {
        corrected_dates_fall_along_parents();
        let graph = self.graph.graph();
        let ranks = DateRanks::new(graph, dates);
        let mut commits = InMemory::new(graph);
        self.comparer
            .compare_by(&mut commits, &ranks, first, others)
    }
}
