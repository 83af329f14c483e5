//! The statistics of a layer, gathered commit by commit.

ghost use Rattle.std.specs.Prelude.{◌≡◌, ◌+◌, ◌<◌, ◌^◌, [], ℕ, List, length, take, nat_eq, IfOk};
ghost use Rattle.std.specs.Prelude.{OnOk};
ghost use Rattle.std.specs.Ordering.{nat_cmp};
ghost use Rattle.std.specs.HashMap.{get};
ghost use Rattle.std.specs.BTreeMap as tree;

use crate::counts::ParentCounts;
use crate::file::Commit;
use crate::file::verify::Outcome;
use std::alloc::{AllocError, Global};
use std::collections::{BTreeMap, HashMap};

/// The statistics of the commits so far.
#[derive(Drop)]
pub(super) struct Statistics {
    max_generation: u32,
    min_generation: u32,
    max_parents: u32,
    num_commits: u32,
    parent_counts: ParentCounts,
}

impl Statistics {
    ghost use Rattle.graph_walks.specs.History.{Node};
    ghost use Rattle.graph_layer.specs.Commit.{commit_layer, commit_pos, commit_parents};
    ghost use Rattle.graph_format.specs.StoredHistory.{layer_history};
    ghost use Rattle.graph_layer.specs.LayerStatistics.{AreLayerStatistics};
    ghost use Rattle.graph_layer.specs.Traverse.{SummarizesLayer};

    /// The statistics of no commits.
    pub(super) fn new(alloc: Global) -> Statistics
        ensures { AreLayerStatistics [] result }
    {
        Statistics {
            max_generation: 0,
            min_generation: 0,
            max_parents: 0,
            num_commits: 0,
            parent_counts: ParentCounts::new(alloc),
        }
    }

    /// Adds a commit with this number of parents to those before it in its layer.
    pub(super) fn add(&mut self, commit: &Commit<'_>, parents: u32) -> Result<(), AllocError>
        requires small { commit_pos commit.now + 1 < 2 ^ 32 }
        requires record { commit_pos commit.now < length (commit_layer commit.now).records }
        requires parents { parents ≡ length (commit_parents commit.now).positions }
        requires before { AreLayerStatistics
            (take (commit_pos commit.now) (layer_history (commit_layer commit.now))) self.old }
        ensures { OnOk result
            (AreLayerStatistics
            (take (commit_pos commit.now + 1) (layer_history (commit_layer commit.now))) self.new) }
    {
        self.parent_counts.add(parents)?;
        let generation = commit.generation();
        self.min_generation = if self.num_commits == 0 {
            generation
        } else {
            self.min_generation.min(generation)
        };
        self.max_generation = self.max_generation.max(generation);
        self.max_parents = self.max_parents.max(parents);
        self.num_commits += 1;
        Ok(())
    }

    /// The statistics as an outcome, once all commits are added.
    pub(super) fn outcome(self, alloc: Global) -> Result<Outcome, AllocError>
        ensures { IfOk result (λ outcome.
            (seen : List Node) → AreLayerStatistics seen self → SummarizesLayer seen outcome) }
    {
        Ok(Outcome {
            max_generation: self.max_generation,
            min_generation: self.min_generation,
            max_parents: self.max_parents,
            num_commits: self.num_commits,
            parent_counts: hashed(self.parent_counts.into_map()?, alloc)?,
        })
    }
}

/// A map that is equal, by hashes in place of order.
fn hashed(map: BTreeMap<u32, u32>, alloc: Global) -> Result<HashMap<u32, u32>, AllocError>
    ensures { IfOk result (λ hashed. (k : ℕ) → get nat_eq hashed k ≡ tree.get nat_cmp map k) }
{
    let mut hashed = HashMap::with_capacity(alloc, map.len())?;
    hashed.extend(map)?;
    Ok(hashed)
}
