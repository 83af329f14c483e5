//! The statistics of a graph, gathered commit by commit.

ghost use Rattle.std.specs.Prelude.{◌≡◌, ◌+◌, ◌<◌, ◌^◌, ◌∷◌, ◌++◌, [], List, length, IfOk, OnOk};

use crate::GENERATION_NUMBER_MAX;
use crate::verify::Outcome;
use graph_layer::counts::ParentCounts;
use std::alloc::{AllocError, Global};

/// The statistics of the commits so far.
#[derive(Drop)]
pub(super) struct Statistics {
    max_generation: u32,
    num_commits: u32,
    parent_counts: ParentCounts,
}

impl Statistics {
    ghost use Rattle.graph_walks.specs.History.{Node};
    ghost use Rattle.gix_commitgraph.specs.Verify.{Summarizes};
    ghost use Rattle.gix_commitgraph.specs.Statistics.{AreNumbered, AreStatistics};

    /// The statistics of no commits.
    pub(super) fn new(alloc: Global) -> Statistics
        ensures { AreStatistics [] result }
    {
        Statistics {
            max_generation: 0,
            num_commits: 0,
            parent_counts: ParentCounts::new(alloc),
        }
    }

    /// The statistics of the commits that have this outcome.
    pub(super) fn from_outcome(outcome: &Outcome) -> Result<Statistics, AllocError>
        requires { (seen : List Node) × Summarizes seen outcome.now }
        ensures { IfOk result (λ statistics. (seen : List Node) → AreNumbered seen
            → Summarizes seen outcome.now → AreStatistics seen statistics) }
    {
        let max_generation = match outcome.longest_path_length {
            Some(_) if outcome.num_commits == 0 => 0,
            Some(edges) => edges.saturating_add(1),
            None => GENERATION_NUMBER_MAX,
        };
        Ok(Statistics {
            max_generation,
            num_commits: outcome.num_commits,
            parent_counts: ParentCounts::from_map(outcome.try_clone()?.parent_counts),
        })
    }

    /// Adds a commit with this generation number and this number of parents.
    pub(super) fn add(&mut self, generation: u32, parents: u32) -> Result<(), AllocError>
        requires { (seen : List Node) × AreStatistics seen self.old × (length seen + 1 < 2 ^ 32) }
        ensures { OnOk result ((seen : List Node) (node : Node) → AreStatistics seen self.old
            → generation ≡ node.generation → parents ≡ length node.parents
            → AreStatistics (seen ++ node ∷ []) self.new) }
    {
        self.parent_counts.add(parents)?;
        self.max_generation = self.max_generation.max(generation);
        self.num_commits += 1;
        Ok(())
    }

    /// The statistics as an outcome, once all commits are added.
    pub(super) fn outcome(self) -> Result<Outcome, AllocError>
        ensures { IfOk result (λ outcome.
            (seen : List Node) → AreStatistics seen self → Summarizes seen outcome) }
    {
        Ok(Outcome {
            longest_path_length: if self.max_generation < GENERATION_NUMBER_MAX {
                Some(self.max_generation.saturating_sub(1))
            } else {
                None
            },
            num_commits: self.num_commits,
            parent_counts: self.parent_counts.into_map()?,
        })
    }
}
