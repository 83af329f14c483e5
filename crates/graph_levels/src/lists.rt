//! The parents of commits, in one allocation for all of them.

ghost use Rattle.std.specs.Prelude.{◌≡◌, ◌+◌, ◌<◌, ◌≤◌, ℕ, length, OnOk, OnErr};
ghost use Rattle.graph_levels.specs.ListEnds.{HasEnds, start_in};

use std::alloc::{AllocError, Global};

/// The parents of each of some commits, first parent first, as positions.
#[derive(Debug, Drop)]
pub struct ParentLists {
    positions: Vec<u32>,
    ends: Vec<usize>,
    ghost whole: { HasEnds positions.items ends.items },
}

impl ParentLists {
    ghost use Rattle.graph_levels.specs.ParentLists.{commit_count, parent_list};

    /// The lists of no commits.
    pub fn new(alloc: Global) -> ParentLists
        ensures { commit_count result ≡ 0 }
    {
        ParentLists {
            positions: Vec::new(alloc),
            ends: Vec::new(alloc),
        }
    }

    /// Adds the parents of one more commit.
    ///
    /// # Errors
    ///
    /// `AllocError` where an allocation failed; the lists are as they were then.
    pub fn push(&mut self, parents: &[u32]) -> Result<(), AllocError>
        ensures len { OnOk result (commit_count self.new ≡ commit_count self.old + 1) }
        ensures new { OnOk result (parent_list self.new (commit_count self.old) ≡ parents.now) }
        ensures old { (i : ℕ) → i < commit_count self.old
            → parent_list self.new i ≡ parent_list self.old i }
        ensures err { OnErr result (commit_count self.new ≡ commit_count self.old) }
    {
        self.ends.reserve(1)?;
        self.positions.extend_from_slice(parents)?;
        self.ends.push_reserved(self.positions.len());
        Ok(())
    }

    /// How many commits there are.
    pub fn len(&self) -> usize
        ensures { result ≡ commit_count self.now }
    {
        self.ends.len()
    }

    /// The parents of the commit of this number.
    pub fn of(&self, commit: usize) -> &[u32]
        requires { commit < commit_count self.now }
        ensures { result.now ≡ parent_list self.now commit }
    {
        let start = self.start_of(commit);
        &self.positions[start..self.ends[commit]]
    }

    /// Where the parents of the commit of this number begin.
    fn start_of(&self, commit: usize) -> usize
        requires { commit < commit_count self.now }
        ensures { result ≡ start_in self.now.ends.items commit }
    {
        if commit == 0 {
            0
        } else {
            self.ends[commit - 1]
        }
    }
}
