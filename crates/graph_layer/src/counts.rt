//! How many commits have each number of parents.

ghost use Rattle.std.specs.Prelude.{◌≡◌, ◌≢◌, ◌==◌, ℕ, ◌+◌, ◌<◌, ◌≤◌, ◌^◌, Some, None, OnOk, IfOk};
ghost use Rattle.std.specs.Prelude.{if◌then◌else◌, unwrap_or};
ghost use Rattle.std.specs.Ordering.{nat_cmp};
ghost use Rattle.std.specs.BTreeMap.{get};

use std::alloc::{AllocError, Global};
use std::collections::BTreeMap;

/// How many commits have each number of parents. Those with more than 2, which are rare, are
/// counted in a map. The others are counted in an array: in a map they would take most of a check's
/// time.
#[derive(Drop)]
pub struct ParentCounts {
    few: [u32; 3],
    more: BTreeMap<u32, u32>,
    ghost above: { (k : ℕ) → k < 3 → get nat_cmp more k ≡ None },
}

impl ParentCounts {
    ghost use Rattle.graph_layer.specs.ParentCounts.{counted};

    /// The counts of no commits.
    pub fn new(alloc: Global) -> ParentCounts
        ensures { (k : ℕ) → counted result k ≡ None }
    {
        ParentCounts {
            few: [0; 3],
            more: BTreeMap::new(alloc),
        }
    }

    /// The counts that a map has, none of which is 0.
    pub fn from_map(map: BTreeMap<u32, u32>) -> ParentCounts
        requires { (k : ℕ) → get nat_cmp map k ≢ Some 0 }
        ensures { (k : ℕ) → counted result k ≡ get nat_cmp map k }
    {
        let mut more = map;
        let none = more.remove(&0).unwrap_or(0);
        let one = more.remove(&1).unwrap_or(0);
        let two = more.remove(&2).unwrap_or(0);
        ParentCounts {
            few: [none, one, two],
            more,
        }
    }

    /// Counts one more commit with so many parents. The error is that an allocation failed.
    #[inline(always)]
    pub fn add(&mut self, parents: u32) -> Result<(), AllocError>
        requires { unwrap_or (counted self.old parents) 0 + 1 < 2 ^ 32 }
        ensures { OnOk result ((k : ℕ) → counted self.new k
            ≡ (if k == parents then Some (unwrap_or (counted self.old parents) 0 + 1) else counted
            self.old k)) }
    {
        if parents < 3 {
            self.few[parents as usize] += 1;
            Ok(())
        } else {
            self.add_more(parents)
        }
    }

    /// Counts one more commit with more than 2 parents. The error is that an allocation failed.
    #[cold]
    #[inline(never)]
    fn add_more(&mut self, parents: u32) -> Result<(), AllocError>
        requires many { 3 ≤ parents }
        requires few { unwrap_or (counted self.old parents) 0 + 1 < 2 ^ 32 }
        ensures { OnOk result ((k : ℕ) → counted self.new k
            ≡ (if k == parents then Some (unwrap_or (counted self.old parents) 0 + 1) else counted
            self.old k)) }
    {
        *self.more.entry(parents)?.or_insert(0) += 1;
        Ok(())
    }

    /// For each number of parents that some commit has, the number of commits that have it. The
    /// error is that an allocation failed.
    pub fn into_map(self) -> Result<BTreeMap<u32, u32>, AllocError>
        ensures { IfOk result (λ map. (k : ℕ) → get nat_cmp map k ≡ counted self k) }
    {
        let few = self.few;
        let mut counts = self.more;
        for parents in 0..3 {
            let count = few[parents as usize];
            if count > 0 {
                counts.insert(parents, count)?;
            }
        }
        Ok(counts)
    }
}
