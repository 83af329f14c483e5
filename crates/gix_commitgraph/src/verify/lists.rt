//! Parent count and greatest parent generation, for each suffix of an extra edge list.
//!
//! Commits may share a list, or the end of one. So a list is gone over once for all of them.

ghost use Rattle.std.specs.Prelude.{◌≡◌, ◌<◌, IfSome, IfOk};

use crate::Position;
use crate::file::commit::ExtraEdge;
use crate::graph::Graph;
use crate::verify::parents::ParentTally;
use crate::verify::span::LayerSpan;
use graph_layer::fields::extra_edges;
use std::alloc::{AllocError, Global};
use std::marker::Model;

/// The tally of no parents.
pub(super) const NO_PARENTS: ParentTally = ParentTally {
    count: 0,
    max_generation: 0,
};

/// An `Option<ParentTally>` in eight bytes, of parents from a word of an extra edge list on. They
/// are one at least, so that the tally of no parents stands for `None`.
#[derive(Drop)]
pub(super) struct ListedTally {
    tally: ParentTally,
}

impl Model for ListedTally {
    ghost use Rattle.std.specs.Prelude.{◌==◌, if◌then◌else◌, Option, Some, None};
    ghost use Rattle.gix_commitgraph.specs.declared.verify.parents.ParentTally.{ParentTally};

    ghost Value = { Option ParentTally };

    ghost view = { λ a. if a.tally.count == 0 then None else Some a.tally };
}

impl ListedTally {
    fn new(tally: Option<ParentTally>) -> ListedTally
        requires { IfSome tally (λ parents. 0 < parents.count) }
        ensures { result ≡ tally }
    {
        ListedTally {
            tally: tally.unwrap_or(NO_PARENTS),
        }
    }

    /// The tally of these parents.
    #[inline(always)]
    pub(super) fn get(&self) -> Option<ParentTally>
        ensures { result ≡ self.now }
    {
        if self.tally.count == 0 {
            None
        } else {
            Some(self.tally)
        }
    }
}

impl Graph {
    ghost use Rattle.graph_format.specs.StoredHistory.{history_of};
    ghost use Rattle.graph_format.specs.Parents.{DecodedParents, followed_by};
    ghost use Rattle.gix_commitgraph.specs.LayerSpans.{IsSpan};
    ghost use Rattle.gix_commitgraph.specs.ListedTallies.{IsTally, AreTallied};

    /// For each word of a layer's extra edge list, the tally of the parents that are listed from it
    /// on, and `None` exactly where they cannot be decoded or do not all stand before the end of
    /// the layer. Memory is asked for only where there are words.
    pub(super) fn tally_lists(
        &self,
        span: LayerSpan<'_>,
        alloc: Global,
    ) -> Result<Vec<ListedTally>, AllocError>
        requires { IsSpan self.now span }
        ensures { IfOk result (λ tallies. AreTallied self.now span.entry tallies.items) }
    {
        let mut tallies = Vec::new(alloc);
        if let Some(words) = extra_edges(span.file) {
            tallies.reserve(words.len())?;
            let mut listed = None;
            for word in words.iter().rev() {
                listed = match ExtraEdge::from_raw(*word) {
                    ExtraEdge::Internal(pos) => self.with_parent(span, pos, listed),
                    ExtraEdge::Last(pos) => self.with_parent(span, pos, Some(NO_PARENTS)),
                };
                tallies.push(ListedTally::new(listed))?;
            }
            tallies.reverse();
        }
        Ok(tallies)
    }

    /// The tally of one parent before others, and `None` exactly where that of the others is, or
    /// the one does not stand before the end of the layer.
    #[inline(always)]
    pub(super) fn with_parent(
        &self,
        span: LayerSpan<'_>,
        pos: Position,
        others: Option<ParentTally>,
    ) -> Option<ParentTally>
        requires span { IsSpan self.now span }
        requires few { IfSome others (λ tally. tally.count < 4294967295) }
        ensures some { IfSome result (λ tally. 0 < tally.count) }
        ensures tally { (parents : DecodedParents)
            → IsTally (history_of self.now) span.entry.stop parents others
            → IsTally (history_of self.now) span.entry.stop (followed_by pos parents) result }
    {
        let others = others?;
        if pos.0 >= span.stop {
            return None;
        }
        Some(ParentTally {
            count: others.count + 1,
            max_generation: self.generation_at(span, pos).max(others.max_generation),
        })
    }
}
