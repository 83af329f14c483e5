//! Parent count and greatest parent generation of many commits, gathered before their check.
//!
//! Parents stand anywhere in a layer, so reading their generation numbers misses the cache. In a
//! loop this short the processor overlaps the misses of several commits. So one or two parents that
//! stand in the commit's own layer are read there, with no branch on their number, and all others
//! in a call.

ghost use Rattle.std.specs.Prelude.{◌≡◌, ◌+◌, ◌%◌, ◌<◌, Some, IfSome, length, map};

use crate::file;
use crate::file::commit::ParentEdge;
use crate::graph::Graph;
use crate::verify::lists::{ListedTally, NO_PARENTS};
use crate::verify::parents::ParentTally;
use crate::verify::span::LayerSpan;
use graph_format::parents::NO_PARENT;
use graph_layer::fields::{generations, parent_edges, parent_fields};

/// For how many commits parents are gathered at a time.
const BATCH: usize = 256;

/// What is gathered of the commits of a batch.
pub(super) type Batch = [Option<ParentTally>; BATCH];

/// What is gathered before the first batch.
pub(super) const NOTHING: Batch = [None; BATCH];

impl Graph {
    ghost use Rattle.graph_format.specs.Layer.{record_at};
    ghost use Rattle.graph_format.specs.Parents.{second_parents};
    ghost use Rattle.graph_format.specs.StoredHistory.{history_of};
    ghost use Rattle.gix_commitgraph.specs.LayerSpans.{IsSpan};
    ghost use Rattle.gix_commitgraph.specs.Tallies.{IsGathered, AreGathered, IsBatch};
    ghost use Rattle.gix_commitgraph.specs.ListedTallies.{AreTallied, IsTally};

    /// The tally of the parents of the commit at this position of a layer, and `None` exactly where
    /// they cannot be decoded or do not all stand before the end of the layer. At the first commit
    /// of a batch, the whole batch is gathered.
    #[inline(always)]
    pub(super) fn gathered(
        &self,
        span: LayerSpan<'_>,
        tallies: &[ListedTally],
        layer_pos: u32,
        batch: &mut Batch,
    ) -> Option<ParentTally>
        requires span { IsSpan self.now span }
        requires tallies { AreTallied self.now span tallies.now }
        requires within { layer_pos < length span.file.now.ids }
        requires before { IsBatch self.now span layer_pos batch.old }
        ensures result { IsGathered self.now span.entry layer_pos result }
        ensures after { IsBatch self.now span.entry (layer_pos + 1) batch.new }
    {
        let index = layer_pos as usize % BATCH;
        if index == 0 {
            self.gather(span, tallies, layer_pos, batch);
        }
        batch[index]
    }

    /// Gathers as many commits as a batch has, from this position on.
    #[inline(never)]
    fn gather(&self, span: LayerSpan<'_>, tallies: &[ListedTally], first: u32, batch: &mut Batch)
        requires span { IsSpan self.now span }
        requires tallies { AreTallied self.now span tallies.now }
        requires within { first < length span.file.now.ids }
        requires begins { first % 256 ≡ 0 }
        ensures { AreGathered self.now span.entry first batch.new }
    {
        let fields = parent_fields(span.file);
        let numbers = generations(span.file);
        let count = (span.file.num_commits() - first).min(BATCH as u32);
        for index in 0..count {
            let layer_pos = first + index;
            let (parent1, parent2) = fields[layer_pos as usize];
            match self.tally_within(span, layer_pos, parent1, parent2, numbers) {
                Some(tally) => batch[index as usize] = Some(tally),
                None => self.gather_any(span, tallies, layer_pos, &mut batch[index as usize]),
            }
        }
    }

    /// The tally of the parents of the commit at this position, with these parent fields, where
    /// there are one or two, and they stand in its own layer ("Commit Data"). Of others it is
    /// `None`.
    ///
    /// A field that is a position of the layer is neither "no parent" nor an index, since all
    /// positions are below those. One that stands before the layer wraps to a number past its end.
    #[inline(always)]
    fn tally_within(
        &self,
        span: LayerSpan<'_>,
        layer_pos: u32,
        first: u32,
        second: u32,
        numbers: &[u32],
    ) -> Option<ParentTally>
        requires span { IsSpan self.now span }
        requires within { layer_pos < length span.file.now.ids }
        requires first { first ≡ (record_at span.file.now layer_pos).parent1 }
        requires second { second ≡ (record_at span.file.now layer_pos).parent2 }
        requires numbers { numbers.now ≡ map (λ r. r.generation) span.file.now.records }
        ensures { IfSome result (λ tally. IsGathered self.now span.entry layer_pos (Some tally)) }
    {
        let (count, last) = if second == NO_PARENT {
            (1, first)
        } else {
            (2, second)
        };
        let one = first.wrapping_sub(span.start) as usize;
        let other = last.wrapping_sub(span.start) as usize;
        if one >= numbers.len() || other >= numbers.len() {
            return None;
        }
        Some(ParentTally {
            count,
            max_generation: numbers[one].max(numbers[other]),
        })
    }

    /// Gathers one commit, whatever its parents are.
    #[cold]
    #[inline(never)]
    fn gather_any(
        &self,
        span: LayerSpan<'_>,
        tallies: &[ListedTally],
        layer_pos: u32,
        gathered: &mut Option<ParentTally>,
    )
        requires span { IsSpan self.now span }
        requires tallies { AreTallied self.now span tallies.now }
        requires within { layer_pos < length span.file.now.ids }
        ensures { IsGathered self.now span.entry layer_pos gathered.new }
    {
        *gathered = self.gather_one(span, tallies, layer_pos);
    }

    /// The tally of the parents of one commit.
    #[inline(always)]
    fn gather_one(
        &self,
        span: LayerSpan<'_>,
        tallies: &[ListedTally],
        layer_pos: u32,
    ) -> Option<ParentTally>
        requires span { IsSpan self.now span }
        requires tallies { AreTallied self.now span tallies.now }
        requires within { layer_pos < length span.file.now.ids }
        ensures { IsGathered self.now span.entry layer_pos result }
    {
        let commit = span.file.commit_at(file::Position(layer_pos));
        match parent_edges(&commit) {
            (ParentEdge::None, ParentEdge::None) => Some(NO_PARENTS),
            (ParentEdge::GraphPosition(first), second) => {
                self.with_parent(span, first, self.after_first(span, tallies, second))
            }
            _ => None,
        }
    }

    /// The tally of the parents that the second field of a commit gives.
    #[inline(always)]
    fn after_first(
        &self,
        span: LayerSpan<'_>,
        tallies: &[ListedTally],
        second: ParentEdge,
    ) -> Option<ParentTally>
        requires span { IsSpan self.now span }
        requires tallies { AreTallied self.now span tallies.now }
        ensures { IsTally (history_of self.now) span.entry.stop
            (second_parents second span.entry.file.now.edges) result }
    {
        match second {
            ParentEdge::None => Some(NO_PARENTS),
            ParentEdge::GraphPosition(pos) => self.with_parent(span, pos, Some(NO_PARENTS)),
            ParentEdge::ExtraEdgeIndex(index) => tallies.get(index as usize)?.get(),
        }
    }
}
