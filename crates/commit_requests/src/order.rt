//! An order of commits in which each comes after its parents.

ghost use Rattle.std.specs.Prelude.{◌≡◌, ◌<◌, ◌^◌, All, IfErr, IfOk, length, map, List, ℕ};
ghost use Rattle.graph_levels.specs.OnTop.{IsLevelsRefusal, level_at};
ghost use Rattle.graph_levels.specs.ParentLists.{commit_count, parent_list};
ghost use Rattle.commit_requests.specs.Placing.{ComeAfterParents};
ghost use Rattle.commit_requests.specs.Dated.{AreDated, AreDatedPlaces};

use graph_levels::{Level, LevelsError, ParentLists, levels};
use std::alloc::{AllocError, Global};

/// A commit, by its number, and how far it is from a commit without parents.
#[derive(Clone, Copy, Debug, Drop)]
pub(crate) struct Placed {
    pub(crate) date: u64,
    pub(crate) number: usize,
}

/// All these commits, each after its parents.
pub(crate) fn order_of(alloc: Global, lists: &ParentLists) -> Result<Vec<Placed>, LevelsError>
    requires few { commit_count lists.now < 2 ^ 32 }
    requires within { (i : ℕ) → i < commit_count lists.now
        → All (λ q. q < commit_count lists.now) (parent_list lists.now i) }
    ensures order { IfOk result (λ places. ComeAfterParents lists.now
        (map (λ place. place.number) places.items)) }
    ensures cycle { IfErr result (IsLevelsRefusal 0 lists.now) }
{
    let times = vec![in alloc; 0; lists.len()]?;
    let found = levels(alloc, &[], lists, &times)?;
    Ok(by_date(alloc, &found)?)
}

/// The commits of these levels, those with early dates first.
fn by_date(alloc: Global, levels: &[Level]) -> Result<Vec<Placed>, AllocError>
    ensures { IfOk result (λ places. AreDated levels.now places.items) }
{
    let mut places = places_of(alloc, levels)?;
    places.sort_unstable_by_key(|place| place.date);
    Ok(places)
}

/// The commits of these levels, by their numbers.
fn places_of(alloc: Global, levels: &[Level]) -> Result<Vec<Placed>, AllocError>
    ensures { IfOk result (λ places. AreDatedPlaces levels.now places.items) }
{
    let mut places = Vec::with_capacity(alloc, levels.len())?;
    for number in 0..levels.len() {
        places.push(Placed {
            date: levels[number].date,
            number,
        })?;
    }
    Ok(places)
}
