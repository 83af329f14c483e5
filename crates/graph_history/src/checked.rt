//! A graph that was checked and is right.

ghost use Rattle.std.specs.Prelude.{◌≡◌, ◌≢◌, ◌⊎◌, ◌↔◌, ◌<◌, IfErr, IfOk, IsTrue, OnErr};
ghost use Rattle.graph_walks.specs.Walks.{Reaches};
ghost use Rattle.graph_format.specs.StoredHistory.{history_of};
ghost use Rattle.gix_commitgraph.specs.Distinct.{IsSoundWith};
ghost use Rattle.gix_commitgraph.specs.Graph.{total};
ghost use Rattle.gix_commitgraph.specs.Headline.{Stats};
ghost use Rattle.gix_commitgraph.specs.Sound.{Sound};
ghost use Rattle.commit_search.specs.WalkAnswer.{IsAnswer, MayLead};
ghost use Rattle.graph_ancestors.specs.RefusedGraph.{MayRefuseGraph};
ghost use Rattle.graph_history.specs.Checked.{MayRefuseWith};
ghost use Rattle.graph_history.specs.RightGraph.{plain_options};

use commit_search::FewSearcher;
use gix_commitgraph::file::Commit;
use gix_commitgraph::verify::{Outcome, VerifyError, VerifyOptions};
use gix_commitgraph::{Graph, Position};
use graph_ancestors::{InMemory, NoFault, Reached, Searcher, check};
use std::alloc::{AllocError, Global};
use std::borrow::Cow;
use std::marker::Model;

/// The options of a check that looks for nothing besides what every right graph keeps.
pub(crate) const PLAIN: VerifyOptions = VerifyOptions {
    distinct_ids: false,
};

/// A graph that was checked and is right, with its statistics. It borrows the graph, and a
/// [`CheckedGraph`](crate::CheckedGraph) owns one. A contract sees it as the graph's layers and the
/// options of the check.
#[derive(Drop)]
pub struct Checked<'g> {
    pub(crate) graph: &'g Graph,
    pub(crate) options: VerifyOptions,
    pub(crate) outcome: Cow<'g, Outcome>,
}

impl<'g> Model for Checked<'g> {
    ghost use Rattle.std.specs.Cow.{cow_value};
    ghost use Rattle.graph_history.specs.RightGraph.{CheckedLayers, IsRight};

    ghost Value = { CheckedLayers };

    ghost view = { λ a. record { layers = a.graph.now; options = a.options } };

    ghost invariant = { λ a. IsRight a.options a.graph.now (cow_value a.outcome) };
}

impl<'g> Checked<'g> {
    /// Checks a graph with [`Graph::verify_integrity`], and accepts each commit.
    ///
    /// # Errors
    ///
    /// The first check that fails, in the order of [`Graph::verify_integrity`], or `OutOfMemory`
    /// where an allocation failed; never `Processor`. The check asks for memory as it goes: where
    /// it gets none, no later fault is told.
    pub fn new(alloc: Global, graph: &'g Graph) -> Result<Checked<'g>, VerifyError<NoFault>>
        ensures graph { IfOk result (λ checked. checked.layers ≡ graph.now) }
        ensures options { IfOk result (λ checked. checked.options ≡ plain_options) }

        // Only a graph that is right is accepted. It is refused only where an allocation failed.
        ensures sound { IfOk result (λ _. Sound graph.now) }
        ensures refusal { IfErr result (MayRefuseGraph graph.now) }
    {
        let outcome = check(alloc, graph)?;
        Ok(Checked {
            graph,
            options: PLAIN,
            outcome: Cow::Owned(outcome),
        })
    }

    /// Checks a graph with [`Graph::verify_integrity_with`], and accepts each commit. Where the
    /// options ask for distinct ids, no id stands at two positions of a graph that is accepted.
    ///
    /// # Errors
    ///
    /// The first check that fails, in the order of [`Graph::verify_integrity_with`], or
    /// `OutOfMemory` where an allocation failed, as in [`Checked::new`]; never `Processor`.
    pub fn new_with(
        alloc: Global,
        options: VerifyOptions,
        graph: &'g Graph,
    ) -> Result<Checked<'g>, VerifyError<NoFault>>
        ensures graph { IfOk result (λ checked. checked.layers ≡ graph.now) }
        ensures options { IfOk result (λ checked. checked.options ≡ options) }
        ensures sound { IfOk result (λ _. IsSoundWith options graph.now) }
        ensures refusal { IfErr result (MayRefuseWith options graph.now) }
    {
        let outcome = graph.verify_integrity_with(alloc, options, &mut |_: &Commit<'_>| Ok(()))?;
        Ok(Checked {
            graph,
            options,
            outcome: Cow::Owned(outcome),
        })
    }

    /// The graph.
    pub fn graph(&self) -> &'g Graph
        ensures same { result.now ≡ self.now.layers }
        ensures right { IsSoundWith self.now.options self.now.layers }
    {
        self.graph
    }

    /// The statistics of the graph.
    pub fn outcome(&self) -> &Outcome
        ensures { Stats self.now.layers result.now }
    {
        match &self.outcome {
            Cow::Borrowed(outcome) => outcome,
            Cow::Owned(outcome) => outcome,
        }
    }

    /// The options of the check: what the graph keeps besides what every right graph keeps. Where
    /// they ask for distinct ids, [`Checked::find`] answers the only position of an id.
    pub fn options(&self) -> VerifyOptions
        ensures same { result ≡ self.now.options }
        ensures kept { IsSoundWith result self.now.layers }
    {
        self.options
    }

    /// A searcher over the graph, for several queries one after another. Nothing is allocated yet.
    pub fn searcher(&self, alloc: Global) -> Searcher<'g>
        ensures { result ≡ self.now.layers }
    {
        Searcher::new(alloc, self.graph)
    }

    /// Whether one commit is an ancestor of another, or the same commit, at positions that are
    /// below the graph's `num_commits()`: whether a walk along parents leads from `descendant` to
    /// `ancestor`. They have the order of `git merge-base --is-ancestor`.
    ///
    /// # Errors
    ///
    /// An allocation failed: only where the commits are two, and their generation numbers allow a
    /// walk.
    pub fn is_ancestor(
        &self,
        alloc: Global,
        ancestor: Position,
        descendant: Position,
    ) -> Result<bool, AllocError>
        requires ancestor { ancestor.0 < total self.now.layers }
        requires descendant { descendant.0 < total self.now.layers }
        ensures found { IfOk result (λ found.
            IsTrue found ↔ Reaches (history_of self.now.layers) descendant.0 ancestor.0) }
        ensures refused { OnErr result ((descendant.0 ≢ ancestor.0)
            × MayLead (history_of self.now.layers) descendant.0 ancestor.0) }
    {
        let mut commits = InMemory::new(self.graph);
        FewSearcher::new(alloc).is_ancestor(&mut commits, ancestor, descendant)
    }

    /// Looks for a shortest walk along parents from one commit to another, at positions that are
    /// below the graph's `num_commits()`.
    ///
    /// The search goes breadth first. It visits no commit twice, and none whose generation number
    /// is below that of `to`. Which of several shortest walks it answers is left open.
    ///
    /// # Errors
    ///
    /// An allocation failed: only where the two commits are one, or their generation numbers allow
    /// a walk.
    pub fn ancestor_walk(
        &self,
        alloc: Global,
        from: Position,
        to: Position,
    ) -> Result<Reached, AllocError>
        requires from { from.0 < total self.now.layers }
        requires to { to.0 < total self.now.layers }
        ensures answer { IfOk result (IsAnswer (history_of self.now.layers) from.0 to.0) }
        ensures refused { OnErr result
            ((from.0 ≡ to.0) ⊎ MayLead (history_of self.now.layers) from.0 to.0) }
    {
        let mut commits = InMemory::new(self.graph);
        FewSearcher::new(alloc).ancestor_walk(&mut commits, from, to)
    }
}
