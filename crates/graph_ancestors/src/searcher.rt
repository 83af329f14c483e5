//! A searcher, which answers queries one after another.

ghost use Rattle.std.specs.Prelude.{◌≡◌, ◌≢◌, ◌⊎◌, ◌↔◌, ◌<◌, IfOk, IsTrue, OnErr};
ghost use Rattle.graph_walks.specs.Walks.{Reaches};
ghost use Rattle.graph_format.specs.StoredHistory.{history_of};
ghost use Rattle.gix_commitgraph.specs.Graph.{total};
ghost use Rattle.gix_commitgraph.specs.Sound.{Sound};
ghost use Rattle.commit_search.specs.Ranks.{FallsAlongParents};
ghost use Rattle.commit_search.specs.Source.{told_of};
ghost use Rattle.commit_search.specs.WalkAnswer.{BothMayLead, IsAnswer, IsAnswerBy, MayLead};

use crate::Reached;
use crate::in_memory::InMemory;
use commit_search::{AnySearcher, Ranks};
use gix_commitgraph::{Graph, Position};
use std::alloc::{AllocError, Global};
use std::marker::Model;

/// Answers queries over a graph that is right, and keeps its memory from one to the next: a bit for
/// each commit of the graph, asked for at the first query that needs them, and eight bytes for each
/// commit that a query reaches. What a query marks there is cleared after it, and no more.
///
/// A contract sees it as the list of the graph's layers.
#[derive(Drop)]
pub struct Searcher<'g> {
    commits: InMemory<'g>,
    searcher: AnySearcher,
}

impl<'g> Model for Searcher<'g> {
    ghost use Rattle.std.specs.Prelude.{List};
    ghost use Rattle.graph_format.specs.Layer.{Layer};

    ghost Value = { List Layer };

    ghost view = { λ a. a.commits };
}

impl<'g> Searcher<'g> {
    /// A searcher over a right graph. Nothing is allocated.
    pub fn new(alloc: Global, graph: &'g Graph) -> Searcher<'g>
        requires { Sound graph.now }
        ensures { result ≡ graph.now }
    {
        Searcher {
            commits: InMemory::new(graph),
            searcher: AnySearcher::new(alloc),
        }
    }

    /// The graph.
    pub fn graph(&self) -> &'g Graph
        ensures same { result.now ≡ self.now }
        ensures right { Sound self.now }
    {
        self.commits.graph()
    }

    /// Looks for a shortest walk along parents from one commit to another, at positions that are
    /// below the graph's `num_commits()`.
    ///
    /// The search goes breadth first. It visits no commit twice, and none whose generation number
    /// is below that of `to`, and goes over no word of an extra edge list twice. Which of several
    /// shortest walks it answers is left open. Where the two commits are one, it visits that one
    /// alone, and where the generation numbers allow no walk, none.
    ///
    /// # Errors
    ///
    /// An allocation failed: only where the two commits are one, or their generation numbers allow
    /// a walk. The searcher can be asked again.
    pub fn ancestor_walk(&mut self, from: Position, to: Position) -> Result<Reached, AllocError>
        requires from { from.0 < total self.old }
        requires to { to.0 < total self.old }
        ensures graph { self.new ≡ self.old }
        ensures answer { IfOk result (IsAnswer (history_of self.old) from.0 to.0) }
        ensures refused { OnErr result
            ((from.0 ≡ to.0) ⊎ MayLead (history_of self.old) from.0 to.0) }
    {
        // The contract of `graph` says that the graph is right.
        let _graph = self.graph();
        self.searcher.ancestor_walk(&mut self.commits, from, to)
    }

    /// Whether one commit is an ancestor of another, or the same commit, at positions that are
    /// below the graph's `num_commits()`: whether a walk along parents leads from `descendant` to
    /// `ancestor`. They have the order of `git merge-base --is-ancestor`.
    ///
    /// The search goes depth first, first parents first. It visits and leaves out commits as
    /// [`Searcher::ancestor_walk`] does, and goes over no word of an extra edge list twice.
    ///
    /// # Errors
    ///
    /// An allocation failed: only where the commits are two, and their generation numbers allow a
    /// walk. The searcher can be asked again.
    pub fn is_ancestor(
        &mut self,
        ancestor: Position,
        descendant: Position,
    ) -> Result<bool, AllocError>
        requires ancestor { ancestor.0 < total self.old }
        requires descendant { descendant.0 < total self.old }
        ensures graph { self.new ≡ self.old }
        ensures found { IfOk result (λ found.
            IsTrue found ↔ Reaches (history_of self.old) descendant.0 ancestor.0) }
        ensures refused { OnErr result ((descendant.0 ≢ ancestor.0)
            × MayLead (history_of self.old) descendant.0 ancestor.0) }
    {
        // The contract of `graph` says that the graph is right.
        let _graph = self.graph();
        self.searcher
            .is_ancestor(&mut self.commits, ancestor, descendant)
    }

    /// What [`Searcher::ancestor_walk`] answers, by a search that leaves out each commit whose
    /// generation number or whose rank is below that of `to`. The ranks fall along parents, as
    /// corrected dates do: see [`Ranks`]. It finds a shortest walk exactly where there is one.
    ///
    /// # Errors
    ///
    /// An allocation failed: only where the two commits are one, or both numbers allow a walk. The
    /// searcher can be asked again.
    pub fn ancestor_walk_by<R: Ranks<InMemory<'g>>>(
        &mut self,
        ranks: &R,
        from: Position,
        to: Position,
    ) -> Result<Reached, AllocError>
        requires from { from.0 < total self.old }
        requires to { to.0 < total self.old }
        requires ranks { FallsAlongParents (history_of self.old)
            (R.ranking ranks.now (told_of self.old)) }
        ensures graph { self.new ≡ self.old }
        ensures answer { IfOk result (IsAnswerBy (history_of self.old)
            (R.ranking ranks.now (told_of self.old)) from.0 to.0) }
        ensures refused { OnErr result ((from.0 ≡ to.0) ⊎ BothMayLead (history_of self.old)
            (R.ranking ranks.now (told_of self.old)) from.0 to.0) }
    {
        // The contract of `graph` says that the graph is right.
        let _graph = self.graph();
        self.searcher
            .ancestor_walk_by(&mut self.commits, ranks, from, to)
    }

    /// What [`Searcher::is_ancestor`] answers, by a search that leaves out commits as
    /// [`Searcher::ancestor_walk_by`] does.
    ///
    /// # Errors
    ///
    /// An allocation failed: only where the commits are two, and both numbers allow a walk. The
    /// searcher can be asked again.
    pub fn is_ancestor_by<R: Ranks<InMemory<'g>>>(
        &mut self,
        ranks: &R,
        ancestor: Position,
        descendant: Position,
    ) -> Result<bool, AllocError>
        requires ancestor { ancestor.0 < total self.old }
        requires descendant { descendant.0 < total self.old }
        requires ranks { FallsAlongParents (history_of self.old)
            (R.ranking ranks.now (told_of self.old)) }
        ensures graph { self.new ≡ self.old }
        ensures found { IfOk result (λ found.
            IsTrue found ↔ Reaches (history_of self.old) descendant.0 ancestor.0) }
        ensures refused { OnErr result ((descendant.0 ≢ ancestor.0)
            × BothMayLead (history_of self.old) (R.ranking ranks.now (told_of self.old))
            descendant.0 ancestor.0) }
    {
        // The contract of `graph` says that the graph is right.
        let _graph = self.graph();
        let searcher = &mut self.searcher;
        match searcher.is_ancestor_by(&mut self.commits, ranks, ancestor, descendant) {
            Ok((found, _)) => Ok(found),
            Err(error) => Err(error),
        }
    }
}
