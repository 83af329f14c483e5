//! Marks of numbers, which are kept from one search to the next.

ghost use Rattle.std.specs.Prelude.{◌≡◌, ◌↔◌, ◌<◌, ◌≤◌, ◌++◌, ◌∷◌, [], length, IsTrue, OnOk};
ghost use Rattle.commit_search.specs.Marks.{Marking, IsMarked, number_in, mark_in};

use std::alloc::{AllocError, Global};

/// A number that is marked, and its mark.
#[derive(Clone, Copy)]
pub struct Marked {
    /// The number.
    pub number: u32,
    /// Its mark.
    pub mark: u32,
}

/// Marks of the numbers below a bound. A contract sees the bound, and the numbers that are marked
/// in the order in which they were, each with its mark.
///
/// A search is compiled for one kind of them: [`BitMarks`] or [`FewMarks`].
///
/// [`BitMarks`]: crate::BitMarks
/// [`FewMarks`]: crate::FewMarks
pub trait Marks: Drop {
    /// The numbers that are marked.
    ghost marking: { Self → Marking };

    /// No marks, and no room for any. Nothing is allocated.
    fn new(alloc: Global) -> Self
        ensures { marking result ≡ record { bound = 0; marked = [] } };

    /// Makes room for marks of all numbers below a bound.
    ///
    /// # Errors
    ///
    /// An allocation failed.
    fn grow_to(&mut self, bound: u32) -> Result<(), AllocError>
        ensures bound { OnOk result (bound ≤ (marking self.new).bound) }
        ensures marked { (marking self.new).marked ≡ (marking self.old).marked };

    /// Whether a number has a mark.
    fn is_marked(&self, number: u32) -> bool
        requires { number < (marking self.now).bound }
        ensures { IsTrue result ↔ IsMarked (marking self.now).marked number };

    /// Marks a number that has no mark.
    ///
    /// # Errors
    ///
    /// An allocation failed. Whether the number is marked then is left open.
    fn set(&mut self, number: u32, mark: u32) -> Result<(), AllocError>
        requires bound { number < (marking self.old).bound }
        requires clear { ¬ IsMarked (marking self.old).marked number }
        ensures bound { (marking self.new).bound ≡ (marking self.old).bound }
        ensures marked { OnOk result ((marking self.new).marked
            ≡ (marking self.old).marked ++ record { number = number; mark = mark } ∷ []) };

    /// How many numbers are marked.
    fn len(&self) -> usize
        ensures { result ≡ length (marking self.now).marked };

    /// The number that was marked after so many others.
    fn number_at(&self, place: usize) -> u32
        requires { place < length (marking self.now).marked }
        ensures { result ≡ number_in (marking self.now).marked place };

    /// Its mark.
    fn mark_at(&self, place: usize) -> u32
        requires { place < length (marking self.now).marked }
        ensures { result ≡ mark_in (marking self.now).marked place };

    /// Clears each mark. Only the numbers that are marked are gone over.
    fn clear(&mut self)
        ensures { (marking self.new).marked ≡ [] };
}
