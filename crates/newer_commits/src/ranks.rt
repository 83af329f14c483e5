//! The order of a search over a base and the newer commits on top of it.

ghost use Rattle.std.specs.Prelude.{◌≡◌, length, min};
ghost use Rattle.newer_commits.specs.RanksOnTop.{rank_on_top};

use crate::base::Base;
use crate::newer::Newer;
use commit_search::Ranks;
use graph_chunks::dates::CorrectedDates;
use graph_format::Position;
use std::marker::Model;

/// The ranks of the commits of a base, which are their corrected dates, and those of newer commits
/// on top of it: above all dates, and above the ranks of those that were added before. So a search
/// visits the newer commits first, each of which was read already, and then those of the base with
/// the latest dates. Git too takes a commit that the graph lacks for a later one than all others
/// ("generation number infinity" in its commit-graph design).
///
/// A contract sees them as the dates of the base.
#[derive(Drop)]
pub struct RanksOnTop<'d> {
    dates: &'d CorrectedDates,
    /// How many these are.
    below: u32,
    /// The latest of them, 0 where there are none.
    latest: u64,
}

impl<'d> Model for RanksOnTop<'d> {
    ghost use Rattle.std.specs.Prelude.{◌≡◌, ℕ, List, length};
    ghost use Rattle.graph_walks.specs.Counts.{greatest};

    ghost Value = { List ℕ };

    ghost view = { λ a. a.dates.now };

    ghost invariant = { λ a. (a.below ≡ length a.dates.now) × (a.latest ≡ greatest a.dates.now) };
}

impl<'d> RanksOnTop<'d> {
    /// Those over a base with these dates, of which there are so many.
    pub fn new(dates: &'d CorrectedDates, count: u32) -> RanksOnTop<'d>
        requires { count ≡ length dates.now }
        ensures { result ≡ dates.now }
    {
        let mut latest = 0;
        for number in 0..count {
            latest = dates.of(Position(number)).max(latest);
        }
        RanksOnTop {
            dates,
            below: count,
            latest,
        }
    }

    /// The rank of the commit at a position.
    fn rank_of(&self, pos: Position) -> u64
        ensures { result ≡ min (rank_on_top self.now pos.0) 18446744073709551615 }
    {
        if pos.0 < self.below {
            self.dates.of(pos)
        } else {
            let newer = u64::from(pos.0 - self.below);
            self.latest.saturating_add(1).saturating_add(newer)
        }
    }
}

impl<'d, S: Base> Ranks<Newer<S>> for RanksOnTop<'d> {
    ghost use Rattle.newer_commits.specs.RanksOnTop.{ranking_on_top};

    ghost ranking = { λ ranks _. ranking_on_top ranks };

    fn cap(&self) -> u64 {
        u64::MAX
    }

    fn rank(&self, _: &mut Newer<S>, pos: Position) -> Result<u64, S::Error> {
        Ok(self.rank_of(pos))
    }
}
