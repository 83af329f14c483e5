//! A graph that was opened, whether it was checked, and what searches keep in it.

ghost use Rattle.std.specs.Prelude.{◌≡◌, ◌≢◌, ◌⊎◌, ◌↔◌, ◌<◌, false, true, All, IfOk, IfSome};
ghost use Rattle.std.specs.Prelude.{IsTrue, OnErr, is_some};
ghost use Rattle.graph_walks.specs.Walks.{Reaches};
ghost use Rattle.graph_format.specs.StoredHistory.{history_of};
ghost use Rattle.gix_commitgraph.specs.Graph.{total};
ghost use Rattle.gix_commitgraph.specs.Sound.{Sound};
ghost use Rattle.commit_search.specs.Positions.{numbers_of};
ghost use Rattle.commit_search.specs.WalkAnswer.{IsAnswer, MayLead};
ghost use Rattle.c_opening.specs.ComparisonOrder.{IsOrderedComparison};

use crate::dates::KeptDates;
use crate::resting::Resting;
use commit_search::FewSearcher;
use gix_commitgraph::{Graph, Position};
use graph_ancestors::{InMemory, Reached};
use graph_history::{Checked, CheckedGraph, Comparer, Comparison};
use std::alloc::{AllocError, Global};
use std::marker::Model;

/// A graph, as it was opened.
#[derive(Drop)]
pub(crate) enum State {
    /// It was not checked.
    Unchecked(Graph),
    /// A check has found it right.
    Checked(CheckedGraph),
}

/// A graph that was opened. A contract sees it as the list of the graph's layers, and whether a
/// check has found it right.
#[derive(Drop)]
pub struct Opened {
    state: State,
    resting: Resting,
    dates: KeptDates,
}

impl Model for Opened {
    ghost use Rattle.std.specs.Prelude.{◌≡◌};
    ghost use Rattle.std.specs.Prelude.{List, Bool};
    ghost use Rattle.graph_format.specs.Layer.{Layer};
    ghost use Rattle.c_opening.specs.State.{content_of};

    ghost Value = { List Layer × Bool };

    ghost view = { λ a. content_of a.state };

    ghost invariant = { λ a. a.dates ≡ (content_of a.state).0 };
}

impl Opened {
    /// A graph that was not checked.
    pub fn unchecked(graph: Graph) -> Opened
        ensures { result ≡ (graph, false) }
    {
        let dates = KeptDates::new(&graph);
        Opened {
            state: State::Unchecked(graph),
            resting: Resting::new(),
            dates,
        }
    }

    /// A graph that a check has found right.
    pub fn checked(graph: CheckedGraph) -> Opened
        ensures { result ≡ (graph.layers, true) }
    {
        let dates = KeptDates::new(graph.as_checked().graph());
        Opened {
            state: State::Checked(graph),
            resting: Resting::new(),
            dates,
        }
    }

    /// The graph.
    pub fn graph(&self) -> &Graph
        ensures same { result.now ≡ self.now.0 }
        ensures right { self.now.1 ≡ true → Sound self.now.0 }
    {
        match &self.state {
            State::Unchecked(graph) => graph,
            State::Checked(graph) => graph.as_checked().graph(),
        }
    }

    /// The graph alone.
    pub fn into_graph(self) -> Graph
        ensures { result ≡ self.0 }
    {
        let Opened { state, .. } = self;
        match state {
            State::Unchecked(graph) => graph,
            State::Checked(graph) => graph.into_graph(),
        }
    }

    /// The graph for queries, if it was checked.
    pub fn as_checked(&self) -> Option<Checked<'_>>
        ensures graph { IfSome result (λ checked. checked.layers ≡ self.now.0) }
        ensures right { IfSome result (λ _. Sound self.now.0) }
        ensures some { is_some result ≡ self.now.1 }
    {
        match &self.state {
            State::Unchecked(_) => None,
            State::Checked(graph) => Some(graph.as_checked()),
        }
    }

    /// Looks for a shortest walk as [`Checked::ancestor_walk`] does, in a graph that was checked.
    ///
    /// # Errors
    ///
    /// Those of [`Checked::ancestor_walk`].
    pub fn ancestor_walk(
        &self,
        alloc: Global,
        from: Position,
        to: Position,
    ) -> Result<Reached, AllocError>
        requires checked { self.now.1 ≡ true }
        requires from { from.0 < total self.now.0 }
        requires to { to.0 < total self.now.0 }
        ensures answer { IfOk result (IsAnswer (history_of self.now.0) from.0 to.0) }
        ensures refused { OnErr result
            ((from.0 ≡ to.0) ⊎ MayLead (history_of self.now.0) from.0 to.0) }
    {
        let mut commits = InMemory::new(self.graph());
        let Some(mut searcher) = self.resting.take(alloc) else {
            return FewSearcher::new(alloc).ancestor_walk(&mut commits, from, to);
        };
        let reached = searcher.ancestor_walk(&mut commits, from, to);
        self.resting.put_back(searcher);
        reached
    }

    /// Whether one commit is an ancestor of another as [`Checked::is_ancestor`] says it, in a graph
    /// that was checked.
    ///
    /// # Errors
    ///
    /// Those of [`Checked::is_ancestor`].
    pub fn is_ancestor(
        &self,
        alloc: Global,
        ancestor: Position,
        descendant: Position,
    ) -> Result<bool, AllocError>
        requires checked { self.now.1 ≡ true }
        requires ancestor { ancestor.0 < total self.now.0 }
        requires descendant { descendant.0 < total self.now.0 }
        ensures found { IfOk result (λ found.
            IsTrue found ↔ Reaches (history_of self.now.0) descendant.0 ancestor.0) }
        ensures refused { OnErr result ((descendant.0 ≢ ancestor.0)
            × MayLead (history_of self.now.0) descendant.0 ancestor.0) }
    {
        let mut commits = InMemory::new(self.graph());
        let Some(mut searcher) = self.resting.take(alloc) else {
            return FewSearcher::new(alloc).is_ancestor(&mut commits, ancestor, descendant);
        };
        let found = searcher.is_ancestor(&mut commits, ancestor, descendant);
        self.resting.put_back(searcher);
        found
    }

    /// What [`Comparer::compare`] answers, by a comparer over the same graph, which was checked.
    /// The search visits the commits with the latest corrected dates first, if each layer has dates
    /// and all are right, and else those with the highest generation numbers. The first call reads
    /// and checks the dates, and keeps eight bytes for each commit.
    ///
    /// # Errors
    ///
    /// Those of [`Comparer::compare`], or there was no memory for the dates.
    pub fn compare(
        &self,
        alloc: Global,
        comparer: &mut Comparer<'_, '_>,
        first: Position,
        others: &[Position],
    ) -> Result<Comparison, AllocError>
        requires graph { comparer.old.layers ≡ self.now.0 }
        requires first { first.0 < total self.now.0 }
        requires others { All (λ other. other.0 < total self.now.0) others.now }
        ensures graph { comparer.new ≡ comparer.old }
        ensures exact { IfOk result (IsOrderedComparison self.now.0 first.0
            (numbers_of others.now)) }
    {
        self.dates.compare(alloc, comparer, first, others)
    }
}
