//! The statistics of the lowest layers of a graph, which were checked before. They are counted, and
//! nothing is checked.
//!
//! Commits may share an extra edge list, or the end of one. So a list is gone over once for all.

ghost use Rattle.std.specs.Prelude.{◌≡◌, ◌+◌, ◌/◌, ◌<◌, ◌≤◌, ◌^◌, ◌∷◌, ◌++◌, [], List, length};
ghost use Rattle.std.specs.Prelude.{take, option_map, IfOk, IfSome, OnOk};
ghost use Rattle.graph_walks.specs.History.{Node};
ghost use Rattle.graph_format.specs.RightLayer.{AreParentsDecoded};
ghost use Rattle.graph_format.specs.StoredHistory.{history_of, layer_history};
ghost use Rattle.graph_layer.specs.Commit.{commit_layer, commit_parents};
ghost use Rattle.graph_layer.specs.ListedParents.{AreListed, IsCount};
ghost use Rattle.gix_commitgraph.specs.Sound.{Sound};
ghost use Rattle.gix_commitgraph.specs.Verify.{Summarizes};
ghost use Rattle.graph_history.specs.LowerStatistics.{AreLowerStatistics};

use gix_commitgraph::file::{self, Commit, File};
use gix_commitgraph::verify::Outcome;
use gix_commitgraph::{GENERATION_NUMBER_MAX, Graph};
use graph_format::parents::{ExtraEdge, ParentEdge};
use graph_layer::counts::ParentCounts;
use graph_layer::fields::{extra_edges, parent_edges};
use std::alloc::{AllocError, Global};

/// The statistics of so many of the lowest layers, which are right. The error is that an allocation
/// failed.
pub(crate) fn outcome_of_lowest(
    alloc: Global,
    graph: &Graph,
    layers: usize,
) -> Result<Outcome, AllocError>
    requires within { layers ≤ length graph.now }
    requires sound { Sound (take layers graph.now) }
    ensures { IfOk result (Summarizes (history_of (take layers graph.now))) }
{
    let files = graph.layers();
    let mut statistics = LowerStatistics::new(alloc);
    for layer in 0..layers {
        statistics.add_layer(alloc, &files[layer])?;
    }
    statistics.outcome()
}

/// The statistics of the commits so far.
#[derive(Drop)]
struct LowerStatistics {
    max_generation: u32,
    num_commits: u32,
    parent_counts: ParentCounts,
}

impl LowerStatistics {
    /// The statistics of no commits.
    fn new(alloc: Global) -> LowerStatistics
        ensures { AreLowerStatistics [] result }
    {
        LowerStatistics {
            max_generation: 0,
            num_commits: 0,
            parent_counts: ParentCounts::new(alloc),
        }
    }

    /// Adds the commits of a layer, whose parents can be decoded.
    fn add_layer(&mut self, alloc: Global, file: &File) -> Result<(), AllocError>
        requires few { (seen : List Node) × AreLowerStatistics seen self.old
            × (length seen + length file.now.ids < 2 ^ 32) }
        requires decoded { AreParentsDecoded file.now }
        ensures { OnOk result ((seen : List Node) → AreLowerStatistics seen self.old
            → AreLowerStatistics (seen ++ layer_history file.now) self.new) }
    {
        let commits = file.num_commits();
        let counts = count_lists(alloc, file)?;
        for number in 0..commits {
            let commit = file.commit_at(file::Position(number));
            let parents = count_parents(&commit, &counts).unwrap_or(0);
            self.add(commit.generation(), parents)?;
        }
        Ok(())
    }

    /// Adds a commit with this generation number and this number of parents.
    fn add(&mut self, generation: u32, parents: u32) -> Result<(), AllocError>
        requires { (seen : List Node) × AreLowerStatistics seen self.old
            × (length seen + 1 < 2 ^ 32) }
        ensures { OnOk result ((seen : List Node) (node : Node) → AreLowerStatistics seen self.old
            → generation ≡ node.generation → parents ≡ length node.parents
            → AreLowerStatistics (seen ++ node ∷ []) self.new) }
    {
        self.parent_counts.add(parents)?;
        self.max_generation = self.max_generation.max(generation);
        self.num_commits += 1;
        Ok(())
    }

    /// The statistics as an outcome, once all commits are added.
    fn outcome(self) -> Result<Outcome, AllocError>
        ensures { IfOk result (λ outcome.
            (seen : List Node) → AreLowerStatistics seen self → Summarizes seen outcome) }
    {
        Ok(Outcome {
            longest_path_length: if self.max_generation < GENERATION_NUMBER_MAX {
                Some(self.max_generation.saturating_sub(1))
            } else {
                None
            },
            num_commits: self.num_commits,
            parent_counts: self.parent_counts.into_map()?,
        })
    }
}

/// For each word of a layer's extra edge list, the number of the parents that are listed from it
/// on, and `None` exactly where they cannot be decoded. Memory is asked for only where there are
/// words.
fn count_lists(alloc: Global, file: &File) -> Result<Vec<Option<u32>>, AllocError>
    requires { IfSome file.now.edges (λ chunk. length chunk / 4 ≤ 4294967294) }
    ensures { IfOk result (λ counts. AreListed IsCount file.now.edges counts.items) }
{
    let mut counts = Vec::new(alloc);
    if let Some(words) = extra_edges(file) {
        counts.reserve(words.len())?;
        let mut listed = None;
        for word in words.iter().rev() {
            listed = match ExtraEdge::from_raw(*word) {
                ExtraEdge::Internal(_) => one_more(listed),
                ExtraEdge::Last(_) => Some(1),
            };
            counts.push(listed)?;
        }
        counts.reverse();
    }
    Ok(counts)
}

/// The number of a commit's parents, by the counts of its layer's extra edge list, and `None`
/// exactly where they cannot be decoded.
fn count_parents(commit: &Commit<'_>, counts: &[Option<u32>]) -> Option<u32>
    requires few { length (commit_parents commit.now).positions < 2 ^ 32 }
    requires counts { AreListed IsCount (commit_layer commit.now).edges counts.now }
    ensures { IsCount (commit_parents commit.now) result }
{
    match parent_edges(commit) {
        (ParentEdge::None, ParentEdge::None) => Some(0),
        (ParentEdge::GraphPosition(_), ParentEdge::None) => Some(1),
        (ParentEdge::GraphPosition(_), ParentEdge::GraphPosition(_)) => Some(2),
        (ParentEdge::GraphPosition(_), ParentEdge::ExtraEdgeIndex(index)) => {
            one_more(*counts.get(index as usize)?)
        }
        _ => None,
    }
}

/// The number of others and one more.
fn one_more(others: Option<u32>) -> Option<u32>
    requires { IfSome others (λ count. count < 4294967295) }
    ensures { result ≡ option_map (λ count. count + 1) others }
{
    Some(others? + 1)
}
