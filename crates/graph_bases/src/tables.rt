//! Tables of coats: one for searches that may reach many commits, and one for those that reach few.

ghost use Rattle.std.specs.Prelude.{◌≡◌};

use crate::paint::{BARE, Coat};
use crate::sheet::CoatTable;
use commit_search::Places;
use std::alloc::{AllocError, Global};
use std::marker::Model;

/// Coats that take two bytes for each commit, and four for each that was painted.
#[derive(Drop)]
pub struct AllCoats {
    coats: Vec<Coat>,
    /// The commits that were painted since all coats were bare.
    painted: Vec<u32>,
}

impl Model for AllCoats {
    ghost use Rattle.std.specs.Prelude.{List};
    ghost use Rattle.graph_bases.specs.Sheet.{AreChanged};
    ghost use Rattle.graph_bases.specs.declared.paint.Coat.{Coat};

    ghost Value = { List Coat };

    ghost view = { λ a. a.coats.items };

    ghost invariant = { λ a. AreChanged a.coats.items a.painted.items };
}

impl CoatTable for AllCoats {
    ghost coats = { λ coats. coats };

    fn new(alloc: Global, commits: u32) -> Result<Self, AllocError> {
        let coats = vec![in alloc; BARE; commits as usize]?;
        let painted = Vec::new(alloc);
        Ok(AllCoats { coats, painted })
    }

    fn len(&self) -> usize {
        self.coats.len()
    }

    fn at(&self, commit: u32) -> Coat {
        self.coats[commit as usize]
    }

    fn set(&mut self, commit: u32, coat: Coat) -> Result<(), AllocError> {
        if self.coats[commit as usize].paint.is_bare() {
            self.painted.push(commit)?;
        }
        self.coats[commit as usize] = coat;
        Ok(())
    }

    fn clear(&mut self) {
        while let Some(commit) = self.painted.pop() {
            self.coats[commit as usize] = BARE;
        }
    }
}

/// Coats that take some twenty bytes for each commit that was painted, and none for the others.
#[derive(Drop)]
pub struct FewCoats {
    /// The commits that were painted.
    painted: Places,
    /// Their coats, in the order in which they were painted.
    coats: Vec<Coat>,
    /// How many commits there are.
    count: u32,
}

impl Model for FewCoats {
    ghost use Rattle.std.specs.Prelude.{List};
    ghost use Rattle.graph_bases.specs.Sheet.{AreKeptCoats, sheet_of};
    ghost use Rattle.graph_bases.specs.declared.paint.Coat.{Coat};

    ghost Value = { List Coat };

    ghost view = { λ a. sheet_of a.painted a.coats.items a.count };

    ghost invariant = { λ a. AreKeptCoats a.painted a.coats.items };
}

impl CoatTable for FewCoats {
    ghost coats = { λ coats. coats };

    fn new(alloc: Global, commits: u32) -> Result<Self, AllocError> {
        Ok(FewCoats {
            painted: Places::new(alloc),
            coats: Vec::new(alloc),
            count: commits,
        })
    }

    fn len(&self) -> usize {
        self.count as usize
    }

    fn at(&self, commit: u32) -> Coat {
        match self.painted.place_of(commit) {
            Some(place) => self.coats[place],
            None => BARE,
        }
    }

    fn set(&mut self, commit: u32, coat: Coat) -> Result<(), AllocError> {
        if let Some(place) = self.painted.place_of(commit) {
            self.coats[place] = coat;
            return Ok(());
        }
        self.coats.push(coat)?;
        match self.painted.push(commit) {
            Ok(()) => Ok(()),
            Err(error) => {
                self.coats.pop();
                Err(error)
            }
        }
    }

    fn clear(&mut self) {
        self.painted.clear();
        self.coats.clear();
    }
}
