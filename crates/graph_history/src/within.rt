//! Searches and checks within a limit.

ghost use Rattle.std.specs.Prelude.{◌≡◌, ◌≢◌, ◌⊎◌, ◌↔◌, ◌+◌, ◌*◌, ◌<◌, ◌≤◌, All, IfErr, IfOk};
ghost use Rattle.std.specs.Prelude.{IsTrue, ⊤};
ghost use Rattle.graph_walks.specs.Walks.{Reaches};
ghost use Rattle.graph_format.specs.StoredHistory.{history_of};
ghost use Rattle.gix_commitgraph.specs.Distinct.{IsSoundWith};
ghost use Rattle.gix_commitgraph.specs.Graph.{total};
ghost use Rattle.commit_search.specs.Cardinality.{AtLeast};
ghost use Rattle.commit_search.specs.WalkAnswer.{IsAnswer, IsAtOrAbove, MayLead};
ghost use Rattle.commit_search.specs.Positions.{numbers_of};
ghost use Rattle.graph_history.specs.GraphComparison.{IsComparisonOf};
ghost use Rattle.graph_history.specs.Limits.{EndsEarly, IsSource, IsToldWithin, MayBeStopped};
ghost use Rattle.graph_history.specs.Limits.{MayRefuseWithin, SearchMayBeStopped, bound_of};

use crate::checked::Checked;
use crate::limit::{Limit, LimitError, Stopped};
use crate::limited::Limited;
use crate::owned::CheckedGraph;
use commit_search::FewSearcher;
use gix_commitgraph::file::Commit;
use gix_commitgraph::law::check::a_check_of_a_graph_calls_on_each_position_once;
use gix_commitgraph::verify::{VerifyError, VerifyOptions};
use gix_commitgraph::{Graph, Position};
use graph_ancestors::{InMemory, Reached};
use graph_bases::{AnyComparer, Comparison};
use std::alloc::{AllocError, Global};

impl<'g> Checked<'g> {
    /// What [`Checked::ancestor_walk`] answers, where no more commits are visited for it than the
    /// limit allows.
    ///
    /// # Errors
    ///
    /// `Stopped`, where more would have to be visited, or the flag was raised. Without a flag it
    /// comes only where `from` reaches more commits than the limit allows whose generation numbers
    /// are at least that of `to`. `Source`, where an allocation failed, as in
    /// [`Checked::ancestor_walk`].
    pub fn ancestor_walk_within(
        &self,
        alloc: Global,
        from: Position,
        to: Position,
        limit: Limit<'_>,
    ) -> Result<Reached, LimitError<AllocError>>
        requires from { from.0 < total self.now.layers }
        requires to { to.0 < total self.now.layers }
        ensures answer { IfOk result (IsAnswer (history_of self.now.layers) from.0 to.0) }
        ensures within { IfOk result (λ reached. reached.visits ≤ limit.entry.visits) }
        ensures refused { IfErr result (EndsEarly
            (SearchMayBeStopped (bound_of limit.entry) (history_of self.now.layers) from.0 to.0)
            ((from.0 ≡ to.0) ⊎ MayLead (history_of self.now.layers) from.0 to.0)) }
    {
        let most = limit.visits;
        if limit.flag.is_none() {
            return self.unflagged_walk(alloc, from, to, most);
        }
        let mut commits = Limited::new(InMemory::new(self.graph), limit.flag_alone());
        match FewSearcher::new(alloc).ancestor_walk_within(&mut commits, from, to, most) {
            Ok(Some(reached)) => Ok(reached),
            Ok(None) => Err(LimitError::Stopped),
            Err(error) => Err(error),
        }
    }

    /// What [`Checked::ancestor_walk_within`] answers for this number of visits, without a flag.
    fn unflagged_walk(
        &self,
        alloc: Global,
        from: Position,
        to: Position,
        most: u64,
    ) -> Result<Reached, LimitError<AllocError>>
        requires from { from.0 < total self.now.layers }
        requires to { to.0 < total self.now.layers }
        ensures answer { IfOk result (IsAnswer (history_of self.now.layers) from.0 to.0) }
        ensures within { IfOk result (λ reached. reached.visits ≤ most) }
        ensures refused { IfErr result (EndsEarly
            (AtLeast (most + 1) (IsAtOrAbove (history_of self.now.layers) from.0 to.0))
            ((from.0 ≡ to.0) ⊎ MayLead (history_of self.now.layers) from.0 to.0)) }
    {
        let mut whole = InMemory::new(self.graph);
        match FewSearcher::new(alloc).ancestor_walk_within(&mut whole, from, to, most) {
            Ok(Some(reached)) => Ok(reached),
            Ok(None) => Err(LimitError::Stopped),
            Err(error) => Err(LimitError::Source(error)),
        }
    }

    /// What [`Checked::is_ancestor`] answers, where the parents of no more commits are read for it
    /// than the limit allows.
    ///
    /// # Errors
    ///
    /// `Stopped`, where those of more would have to be read, or the flag was raised. Without a flag
    /// it comes only where `descendant` reaches more commits than the limit allows whose generation
    /// numbers are at least that of `ancestor`. `Source`, where an allocation failed, as in
    /// [`Checked::is_ancestor`].
    pub fn is_ancestor_within(
        &self,
        alloc: Global,
        ancestor: Position,
        descendant: Position,
        limit: Limit<'_>,
    ) -> Result<bool, LimitError<AllocError>>
        requires ancestor { ancestor.0 < total self.now.layers }
        requires descendant { descendant.0 < total self.now.layers }
        ensures found { IfOk result (λ found.
            IsTrue found ↔ Reaches (history_of self.now.layers) descendant.0 ancestor.0) }
        ensures within { IfOk result (IsToldWithin limit.entry.visits
            (history_of self.now.layers) descendant.0 ancestor.0) }
        ensures refused { IfErr result (EndsEarly
            (SearchMayBeStopped (bound_of limit.entry)
            (history_of self.now.layers) descendant.0 ancestor.0)
            ((descendant.0 ≢ ancestor.0)
            × MayLead (history_of self.now.layers) descendant.0 ancestor.0)) }
    {
        let most = limit.visits;
        if limit.flag.is_none() {
            return self.unflagged_search(alloc, ancestor, descendant, most);
        }
        let mut commits = Limited::new(InMemory::new(self.graph), limit.flag_alone());
        let mut searcher = FewSearcher::new(alloc);
        match searcher.is_ancestor_within(&mut commits, ancestor, descendant, most) {
            Ok(Some((found, _))) => Ok(found),
            Ok(None) => Err(LimitError::Stopped),
            Err(error) => Err(error),
        }
    }

    /// What [`Checked::is_ancestor_within`] answers for this number of visits, without a flag.
    fn unflagged_search(
        &self,
        alloc: Global,
        ancestor: Position,
        descendant: Position,
        most: u64,
    ) -> Result<bool, LimitError<AllocError>>
        requires ancestor { ancestor.0 < total self.now.layers }
        requires descendant { descendant.0 < total self.now.layers }
        ensures found { IfOk result (λ found.
            IsTrue found ↔ Reaches (history_of self.now.layers) descendant.0 ancestor.0) }
        ensures within { IfOk result (IsToldWithin most
            (history_of self.now.layers) descendant.0 ancestor.0) }
        ensures refused { IfErr result (EndsEarly
            (AtLeast (most + 1)
            (IsAtOrAbove (history_of self.now.layers) descendant.0 ancestor.0))
            ((descendant.0 ≢ ancestor.0)
            × MayLead (history_of self.now.layers) descendant.0 ancestor.0)) }
    {
        let mut whole = InMemory::new(self.graph);
        let mut searcher = FewSearcher::new(alloc);
        match searcher.is_ancestor_within(&mut whole, ancestor, descendant, most) {
            Ok(Some((found, _))) => Ok(found),
            Ok(None) => Err(LimitError::Stopped),
            Err(error) => Err(LimitError::Source(error)),
        }
    }

    /// What [`Checked::compare`] answers, where no more commits are visited for it than the limit
    /// allows.
    ///
    /// # Errors
    ///
    /// `Stopped`, where more would have to be visited, or the flag was raised; never where the
    /// limit allows three times as many as the graph has, and has no flag. `Source`, where an
    /// allocation failed.
    pub fn compare_within(
        &self,
        alloc: Global,
        first: Position,
        others: &[Position],
        limit: Limit<'_>,
    ) -> Result<Comparison, LimitError<AllocError>>
        requires first { first.0 < total self.now.layers }
        requires others { All (λ other. other.0 < total self.now.layers) others.now }
        ensures exact { IfOk result (IsComparisonOf self.now.layers first.0
            (numbers_of others.now)) }
        ensures within { IfOk result (λ c. c.bases.visits ≤ limit.entry.visits) }
        ensures refused { IfErr result
            (EndsEarly (MayBeStopped (bound_of limit.entry) (3 * total self.now.layers)) ⊤) }
    {
        if limit.allows(3 * self.graph.num_commits() as u64) {
            return self.whole_comparison(alloc, first, others);
        }
        let mut commits = Limited::new(InMemory::new(self.graph), limit);
        match AnyComparer::new(alloc).compare(&mut commits, first, others) {
            Ok(comparison) if comparison.bases.visits <= limit.visits => Ok(comparison),
            Ok(_) => Err(LimitError::Stopped),
            Err(error) => Err(error),
        }
    }

    /// What [`Checked::compare`] answers. No commit is visited more than three times.
    fn whole_comparison(
        &self,
        alloc: Global,
        first: Position,
        others: &[Position],
    ) -> Result<Comparison, LimitError<AllocError>>
        requires first { first.0 < total self.now.layers }
        requires others { All (λ other. other.0 < total self.now.layers) others.now }
        ensures exact { IfOk result (IsComparisonOf self.now.layers first.0
            (numbers_of others.now)) }
        ensures visits { IfOk result (λ c. c.bases.visits ≤ 3 * total self.now.layers) }
        ensures refused { IfErr result (IsSource (λ _. ⊤)) }
    {
        let mut whole = InMemory::new(self.graph);
        match AnyComparer::new(alloc).compare(&mut whole, first, others) {
            Ok(comparison) => Ok(comparison),
            Err(error) => Err(LimitError::Source(error)),
        }
    }
}

impl CheckedGraph {
    /// Checks a graph as [`CheckedGraph::new_with`] does, and keeps it, unless the limit stops the
    /// check. The commits that it visits are those on which the processor of
    /// [`Graph::verify_integrity_with`] is called: a digest of a file is not stopped.
    ///
    /// # Errors
    ///
    /// Those of [`CheckedGraph::new_with`], and `Processor` at the first commit that is not to be
    /// visited: that after as many as the limit allows, or an earlier one where there is a flag.
    /// Nothing that the check looks at before it is wrong. The graph is dropped then.
    pub fn new_within(
        alloc: Global,
        options: VerifyOptions,
        graph: Graph,
        limit: Limit<'_>,
    ) -> Result<CheckedGraph, VerifyError<Stopped>>
        ensures graph { IfOk result (λ checked. checked.layers ≡ graph) }
        ensures options { IfOk result (λ checked. checked.options ≡ options) }
        ensures sound { IfOk result (λ _. IsSoundWith options graph) }
        ensures within { IfOk result (λ _. total graph ≤ limit.entry.visits) }
        ensures refusal { IfErr result (MayRefuseWithin (bound_of limit.entry) options graph) }
    {
        a_check_of_a_graph_calls_on_each_position_once::<Stopped>();
        let mut visits = 0u32;
        let found = graph.verify_integrity_with(
            alloc,
            options,
            &mut |_: &Commit<'_>| {
                if limit.stops_after(visits as u64) {
                    Err(Stopped)
                } else {
                    visits = visits.saturating_add(1);
                    Ok(())
                }
            },
        );
        match found {
            Ok(outcome) => Ok(CheckedGraph {
                graph,
                options,
                outcome,
            }),
            Err(error) => Err(error),
        }
    }
}
