//! The parents of a commit, one after another.

ghost use Rattle.std.specs.Prelude.{◌≡◌, ◌≢◌, ◌⊎◌, ◌<◌, ◌≤◌, ◌∷◌, [], true, Some, length, IfSome};
ghost use Rattle.graph_format.specs.Parents.{edge_of, items_of, both_parents};

use crate::file::File;
use graph_format::Position;
use graph_format::parents::{ExtraEdge, NO_PARENT, ParentError, TOP_BIT};

/// An iterator over the parents of a commit, as the sections "Commit Data" and "Extra Edge List" of
/// Git's commit-graph format have them.
///
/// It gives the position of each parent, in order. Where the parents cannot be decoded, or not all
/// of them, one [`ParentError`] is the last item. After the last item it gives `None` for good.
#[derive(Drop)]
pub struct Parents<'a> {
    file: &'a File,
    /// The parent field that gives the next item. In the extra edge list it is the index of the
    /// next word, with the top bit of a field added; an index may need more bits than a field has.
    next: u64,
    /// The parent field after that one.
    after: u32,
    /// Whether the first field was read.
    started: bool,
    ghost second_is_last: { started ≡ true → after ≡ 0x70000000 },
}

impl<'a> Parents<'a> {
    ghost use Rattle.std.specs.Iterator.{YieldsFirst};
    ghost use Rattle.graph_layer.specs.RemainingParents.{parents_left, parents_hint, first_hint};
    ghost use Rattle.graph_layer.specs.RemainingParents.{hint_after};

    /// The parents that both fields of a commit of this file give.
    pub(crate) fn new(file: &'a File, first: u32, second: u32) -> Parents<'a>
        ensures items { parents_left result
            ≡ items_of (both_parents (edge_of first) (edge_of second) file.now.edges) }
        ensures hint { parents_hint result ≡ first_hint (edge_of first) (edge_of second) }
    {
        Parents {
            file,
            next: first as u64,
            after: second,
            started: false,
        }
    }

    /// The next parent, or the error that ends them, or `None` where nothing is left.
    ///
    /// It is the trait's `next`, whose `next_gives` says the same of the item and of the bounds
    /// that `size_hint` answers.
    pub fn next(&mut self) -> Option<Result<Position, ParentError>>
        ensures steps { YieldsFirst parents_left self.old result self.new }
        ensures hint { parents_hint self.new
            ≡ hint_after (parents_hint self.old) (parents_left self.new) }
    {
        let word = self.next;
        if word < TOP_BIT as u64 && word != NO_PARENT as u64 {
            self.next = self.after as u64;
            self.after = NO_PARENT;
            self.started = true;
            Some(Ok(Position(word as u32)))
        } else if word == NO_PARENT as u64 && self.after == NO_PARENT {
            None
        } else {
            Some(self.next_beyond_fields())
        }
    }

    /// The next item where it is not a position in a parent field: one of the extra edge list, or
    /// the error that ends the parents.
    #[cold]
    #[inline(never)]
    fn next_beyond_fields(&mut self) -> Result<Position, ParentError>
        requires { 0x80000000 ≤ self.old.next
            ⊎ ((self.old.next ≡ 0x70000000) × (self.old.after ≢ 0x70000000)) }
        ensures items { parents_left self.old ≡ result ∷ parents_left self.new }
        ensures hint { parents_hint self.new
            ≡ hint_after (parents_hint self.old) (parents_left self.new) }
    {
        let word = self.next;
        self.next = NO_PARENT as u64;
        self.after = NO_PARENT;
        if !self.started {
            return Err(if word < TOP_BIT as u64 {
                ParentError::SecondWithoutFirst
            } else {
                ParentError::FirstIsEdgeIndex
            });
        }
        let Some(edges) = self.file.extra_edges() else {
            return Err(ParentError::NoEdgeList);
        };
        let index = (word - TOP_BIT as u64) as usize;
        if index >= edges.len() {
            return Err(ParentError::EdgeOverflow);
        }
        match ExtraEdge::from_raw(edges[index]) {
            ExtraEdge::Internal(pos) => {
                self.next = word + 1;
                Ok(pos)
            }
            ExtraEdge::Last(pos) => Ok(pos),
        }
    }
}

impl<'a> Iterator for Parents<'a> {
    ghost use Rattle.std.specs.Iterator.{item_count, UpTo};
    ghost use Rattle.std.specs.Iterator.SizeHint.{IsWithinCount};
    ghost use Rattle.graph_layer.specs.RemainingParents.{parents_left, parents_hint, GivesParent};

    type Item = Result<Position, ParentError>;

    ghost next_gives = { GivesParent };

    ghost remaining = { item_count parents_left };

    fn next(&mut self) -> Option<Result<Position, ParentError>> {
        Parents::next(self)
    }

    /// Bounds on the number of items that are left. Both are exact, unless the second parent field
    /// is an index into the extra edge list: then, up to the last item, no upper one is known.
    #[tactic(auto, using(crate::proofs::ParentBoundLemmas::hint_laws))]
    fn size_hint(&self) -> (usize, Option<usize>)
        ensures table { result ≡ parents_hint self.now }

        // Where nothing is left the bounds say so, where something is left the lower one is 1 at
        // least, and the upper one is exact wherever it is known.
        ensures none { parents_left self.now ≡ [] → result ≡ (0, Some 0) }
        ensures some { 0 < length (parents_left self.now) → 1 ≤ result.0 }
        ensures exact { IfSome result.1 (λ most.
            (most ≡ length (parents_left self.now)) × (result.0 ≡ most)) }

        // The number of items that are left lies within the bounds.
        ensures lower { IsWithinCount result.0 (item_count parents_left self.now) }
        ensures upper { IfSome result.1 (UpTo (item_count parents_left self.now)) }
    {
        if self.next >= TOP_BIT as u64 {
            if self.started {
                (1, None)
            } else {
                (1, Some(1))
            }
        } else if self.next == NO_PARENT as u64 {
            if self.after == NO_PARENT {
                (0, Some(0))
            } else {
                (1, Some(1))
            }
        } else if self.after == NO_PARENT {
            (1, Some(1))
        } else if self.after >= TOP_BIT {
            (2, None)
        } else {
            (2, Some(2))
        }
    }
}
