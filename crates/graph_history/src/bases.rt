//! What commits of a right graph have in common, and how far they have come apart.

ghost use Rattle.std.specs.Prelude.{◌≡◌, ◌<◌, All, IfOk};
ghost use Rattle.graph_format.specs.StoredHistory.{history_of};
ghost use Rattle.gix_commitgraph.specs.Graph.{total};
ghost use Rattle.commit_search.specs.Positions.{numbers_of};
ghost use Rattle.graph_bases.specs.Bases.{AreMergeBases, IsAhead, IsBehind};
ghost use Rattle.graph_bases.specs.Bases.{AreVisits};
ghost use Rattle.graph_history.specs.GraphComparison.{IsComparisonOf};
ghost use Rattle.commit_search.specs.Cardinality.{IsNumberOf};

use crate::checked::Checked;
use gix_commitgraph::Position;
use graph_ancestors::InMemory;
use graph_bases::{AnyComparer, Bases, Comparison, Divergence};
use std::alloc::{AllocError, Global};
use std::marker::Model;

impl<'g> Checked<'g> {
    /// The merge bases of a commit and some others, at positions that are below the graph's
    /// `num_commits()`: of the commits to which the first and some of the others lead, those that
    /// are no proper ancestors of another such commit. A commit leads to itself. They are what
    /// `git merge-base --all FIRST OTHERS..` names. Each comes once, the least position first.
    ///
    /// The search visits commits with the highest generation numbers first, until none is left but
    /// ancestors of common ancestors. Where no generation number of the first and the others is at
    /// the cap, it visits no commit twice, and none below all of the first, the others and the
    /// parents of the commits on one side alone. At the cap it visits a commit again each time that
    /// more is found out about it, three times at most.
    ///
    /// # Errors
    ///
    /// An allocation failed.
    pub fn merge_bases(
        &self,
        alloc: Global,
        first: Position,
        others: &[Position],
    ) -> Result<Bases, AllocError>
        requires first { first.0 < total self.now.layers }
        requires others { All (λ other. other.0 < total self.now.layers) others.now }
        ensures exact { IfOk result (λ bases. AreMergeBases (history_of self.now.layers) first.0
            (numbers_of others.now) (numbers_of bases.positions.items)) }
        ensures within { IfOk result (λ bases.
            All (λ base. base.0 < total self.now.layers) bases.positions.items) }
        ensures visits { IfOk result (λ bases. AreVisits (history_of self.now.layers) first.0
            (numbers_of others.now) bases.visits) }
    {
        Ok(self.compare(alloc, first, others)?.bases)
    }

    /// How far a commit and some others have come apart, at positions that are below the graph's
    /// `num_commits()`. For one other these are the numbers that
    /// `git rev-list --left-right --count FIRST...OTHER` prints.
    ///
    /// # Errors
    ///
    /// An allocation failed.
    pub fn divergence(
        &self,
        alloc: Global,
        first: Position,
        others: &[Position],
    ) -> Result<Divergence, AllocError>
        requires first { first.0 < total self.now.layers }
        requires others { All (λ other. other.0 < total self.now.layers) others.now }
        ensures ahead { IfOk result (λ d. IsNumberOf d.ahead
            (IsAhead (history_of self.now.layers) first.0 (numbers_of others.now))) }
        ensures behind { IfOk result (λ d. IsNumberOf d.behind
            (IsBehind (history_of self.now.layers) first.0 (numbers_of others.now))) }
    {
        Ok(self.compare(alloc, first, others)?.divergence)
    }

    /// What [`Checked::merge_bases`] and [`Checked::divergence`] answer, by one search.
    ///
    /// # Errors
    ///
    /// An allocation failed.
    pub fn compare(
        &self,
        alloc: Global,
        first: Position,
        others: &[Position],
    ) -> Result<Comparison, AllocError>
        requires first { first.0 < total self.now.layers }
        requires others { All (λ other. other.0 < total self.now.layers) others.now }
        ensures bases { IfOk result (λ c. AreMergeBases (history_of self.now.layers) first.0
            (numbers_of others.now) (numbers_of c.bases.positions.items)) }
        ensures within { IfOk result (λ c.
            All (λ base. base.0 < total self.now.layers) c.bases.positions.items) }
        ensures visits { IfOk result (λ c. AreVisits (history_of self.now.layers) first.0
            (numbers_of others.now) c.bases.visits) }
        ensures ahead { IfOk result (λ c. IsNumberOf c.divergence.ahead
            (IsAhead (history_of self.now.layers) first.0 (numbers_of others.now))) }
        ensures behind { IfOk result (λ c. IsNumberOf c.divergence.behind
            (IsBehind (history_of self.now.layers) first.0 (numbers_of others.now))) }
    {
        Comparer::new(alloc, self).compare(first, others)
    }
}

/// Compares commits of a graph that is right, and keeps its memory from one call to the next: two
/// bytes for each commit of the graph, asked for at the first call; and, of the layers whose extra
/// edge lists a call has read, a byte for each word of the list and a few for each commit with more
/// than two parents. What a call marks there is cleared after it, and no more than that.
///
/// A contract sees it as the checked graph: its layers and the options of the check.
#[derive(Drop)]
pub struct Comparer<'c, 'g> {
    pub(crate) graph: &'c Checked<'g>,
    pub(crate) comparer: AnyComparer,
}

impl<'c, 'g> Model for Comparer<'c, 'g> {
    ghost use Rattle.graph_history.specs.RightGraph.{CheckedLayers};

    ghost Value = { CheckedLayers };

    ghost view = { λ a. a.graph.now };
}

impl<'c, 'g> Comparer<'c, 'g> {
    /// For the commits of a graph. Nothing is allocated yet.
    pub fn new(alloc: Global, graph: &'c Checked<'g>) -> Comparer<'c, 'g>
        ensures { result ≡ graph.now }
    {
        Comparer {
            graph,
            comparer: AnyComparer::new(alloc),
        }
    }

    /// The checked graph.
    pub fn graph(&self) -> &'c Checked<'g>
        ensures { result.now ≡ self.now }
    {
        self.graph
    }

    /// What [`Checked::compare`] answers. After the first call, one costs no more than what it
    /// visits.
    ///
    /// # Errors
    ///
    /// An allocation failed. Further calls may be made, and the first asks for the memory again.
    pub fn compare(
        &mut self,
        first: Position,
        others: &[Position],
    ) -> Result<Comparison, AllocError>
        requires first { first.0 < total self.old.layers }
        requires others { All (λ other. other.0 < total self.old.layers) others.now }
        ensures graph { self.new ≡ self.old }
        ensures exact { IfOk result (IsComparisonOf self.old.layers first.0
            (numbers_of others.now)) }
    {
        let mut commits = InMemory::new(self.graph.graph());
        self.comparer.compare(&mut commits, first, others)
    }
}
