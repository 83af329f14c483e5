//! What the words of the contracts mean.

ghost use Rattle.std.specs.Prelude.{◌↔◌, ◌≤◌, ℕ, List, length};
ghost use Rattle.graph_walks.specs.Dates.{AreRight};
ghost use Rattle.graph_walks.specs.History.{Node};
ghost use Rattle.graph_walks.specs.Walks.{CountWalks};
ghost use Rattle.commit_search.specs.WalkAnswer.{IsAtOrAbove, IsAbove};
ghost use Rattle.commit_search.specs.Cardinality.{AtLeast, AtMost, Lists};
ghost use Rattle.commit_search.specs.Ranks.{FallsAlongParents, by_date, by_generation};

use graph_walks::law::{
    generations_fall_along_walks, generations_never_rise_along_walks, right_dates_fall_along_walks,
};

/// How many commits have a property is the length of a list that has each of them once, and no
/// others. At least n commits are reached at or above the generation number of another exactly
/// where the list of those has at least n. At most n are reached above it exactly where the list of
/// those has at most n.
pub fn numbers_of_commits_are_lengths_of_lists()
    ensures least { (history : List Node) (from to n : ℕ) (ps : List ℕ)
        → Lists ps (IsAtOrAbove history from to) → AtLeast n (IsAtOrAbove history from to)
        ↔ (n ≤ length ps) }
    ensures most { (history : List Node) (from to n : ℕ) (ps : List ℕ)
        → Lists ps (IsAbove history from to) → AtMost n (IsAbove history from to)
        ↔ (length ps ≤ n) }
{}

/// Where generation numbers count the commits of the longest walks, they fall along parents below
/// their cap, so a search may go by them.
pub fn generation_numbers_fall_along_parents()
    ensures { (history : List Node) → CountWalks history
        → FallsAlongParents history (by_generation history) }
{
    generations_never_rise_along_walks();
    generations_fall_along_walks();
}

/// Where corrected dates are right, they fall along all parents, so a search may go by them.
pub fn corrected_dates_fall_along_parents()
    ensures { (history : List Node) (times dates : List ℕ) → AreRight history times dates
        → FallsAlongParents history (by_date dates) }
{
    right_dates_fall_along_walks();
}
