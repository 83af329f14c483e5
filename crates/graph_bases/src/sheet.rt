//! A coat for each commit of a graph.

ghost use Rattle.std.specs.Prelude.{◌≡◌, ◌<◌, ℕ, List, length, slice_set, IfOk, OnOk};
ghost use Rattle.graph_bases.specs.Sheet.{bare, coat_at};
ghost use Rattle.graph_bases.specs.declared.paint.Coat.{Coat};

use crate::paint::Coat;
use std::alloc::{AllocError, Global};
use std::marker::Model;

/// A coat for each of so many commits. A contract sees them as a list.
///
/// A painting is compiled for one kind of them: [`AllCoats`] or [`FewCoats`].
///
/// [`AllCoats`]: crate::AllCoats
/// [`FewCoats`]: crate::FewCoats
pub trait CoatTable: Drop {
    /// The coats.
    ghost coats: { Self → List Coat };

    /// Bare coats of so many commits.
    ///
    /// # Errors
    ///
    /// An allocation failed.
    fn new(alloc: Global, commits: u32) -> Result<Self, AllocError>
        ensures len { IfOk result (λ table. length (coats table) ≡ commits) }
        ensures bare { IfOk result (λ table. (p : ℕ) → coat_at (coats table) p ≡ bare) };

    /// How many there are.
    fn len(&self) -> usize
        ensures { result ≡ length (coats self.now) };

    /// The coat of a commit.
    fn at(&self, commit: u32) -> Coat
        requires { commit < length (coats self.now) }
        ensures { result ≡ coat_at (coats self.now) commit };

    /// Changes the coat of a commit.
    ///
    /// # Errors
    ///
    /// An allocation failed.
    fn set(&mut self, commit: u32, coat: Coat) -> Result<(), AllocError>
        requires { commit < length (coats self.old) }
        ensures { OnOk result (coats self.new ≡ slice_set (coats self.old) commit coat) };

    /// Makes all coats bare. No more of them are gone over than were changed.
    fn clear(&mut self)
        ensures len { length (coats self.new) ≡ length (coats self.old) }
        ensures bare { (p : ℕ) → coat_at (coats self.new) p ≡ bare };
}

/// A table of coats, which a contract sees as a list whatever its kind is.
#[derive(Drop)]
pub(crate) struct Sheet<T: CoatTable> {
    table: T,
}

impl<T: CoatTable> Model for Sheet<T> {
    ghost use Rattle.std.specs.Prelude.{List};
    ghost use Rattle.graph_bases.specs.declared.paint.Coat.{Coat};

    ghost Value = { List Coat };

    ghost view = { λ a. T.coats a.table };
}

impl<T: CoatTable> Sheet<T> {
    /// Bare coats of so many commits.
    pub(crate) fn new(alloc: Global, commits: u32) -> Result<Sheet<T>, AllocError>
        ensures len { IfOk result (λ s. length s ≡ commits) }
        ensures bare { IfOk result (λ s. (p : ℕ) → coat_at s p ≡ bare) }
    {
        let table = T::new(alloc, commits)?;
        Ok(Sheet { table })
    }

    /// How many there are.
    pub(crate) fn len(&self) -> usize
        ensures { result ≡ length self.now }
    {
        self.table.len()
    }

    /// The coat of a commit.
    pub(crate) fn at(&self, commit: u32) -> Coat
        requires { commit < length self.now }
        ensures { result ≡ coat_at self.now commit }
    {
        self.table.at(commit)
    }

    /// Changes the coat of a commit.
    pub(crate) fn set(&mut self, commit: u32, coat: Coat) -> Result<(), AllocError>
        requires { commit < length self.old }
        ensures { OnOk result (self.new ≡ slice_set self.old commit coat) }
    {
        self.table.set(commit, coat)
    }

    /// Makes all coats bare.
    pub(crate) fn clear(&mut self)
        ensures len { length self.new ≡ length self.old }
        ensures bare { (p : ℕ) → coat_at self.new p ≡ bare }
    {
        self.table.clear()
    }
}
