//! What generation numbers and corrected dates mean: laws of walks along parents ("topological
//! level" and "corrected commit date" in Git's commit-graph design). They hold of every history,
//! whether or not it has cycles.

ghost use Rattle.std.specs.Prelude.{◌≡◌, ◌↔◌, ◌<◌, ◌≤◌, ◌+◌, ◌-◌, ℕ, List, length, max};
ghost use Rattle.graph_walks.specs.Counts.{greatest};
ghost use Rattle.graph_walks.specs.History.{Node, generation_at, generations};
ghost use Rattle.graph_walks.specs.Generations.{AreLocal};
ghost use Rattle.graph_walks.specs.Walks.{Reaches, IsProperAncestor, CountWalks, IsLongestWalk};
ghost use Rattle.graph_walks.specs.Dates.{AreRight, AreGreatest, number_at};

use crate::GENERATION_NUMBER_MAX;

/// The cap of generation numbers is the greatest number of 30 bits.
pub fn the_cap_is_this_number()
    ensures { GENERATION_NUMBER_MAX ≡ 1073741823 }
{}

/// Where each generation number is one more than the greatest of its parents', up to the cap, each
/// counts the commits of the longest walk, up to the cap.
pub fn local_generations_count_walks()
    ensures { (history : List Node) → AreLocal history → CountWalks history }
{}

/// Where each generation number counts the commits of the longest walk, up to the cap, each is one
/// more than the greatest of its parents', up to the cap.
pub fn generations_that_count_walks_are_local()
    ensures { (history : List Node) → CountWalks history → AreLocal history }
{}

/// Along a walk the generation number never rises, also at the cap.
pub fn generations_never_rise_along_walks()
    ensures { (history : List Node) (p q : ℕ) → CountWalks history → Reaches history p q
        → generation_at history q ≤ generation_at history p }
{}

/// Along a walk of two commits or more it falls, unless the walk ends at the cap.
pub fn generations_fall_along_walks()
    ensures { (history : List Node) (p q : ℕ) → CountWalks history → IsProperAncestor history p q
        → generation_at history q < GENERATION_NUMBER_MAX
        → generation_at history q < generation_at history p }
{}

/// No commit with a generation number below the cap lies on a cycle.
pub fn cycles_are_at_the_cap()
    ensures { (history : List Node) (p : ℕ) → CountWalks history → IsProperAncestor history p p
        → generation_at history p ≡ GENERATION_NUMBER_MAX }
{}

/// Where no generation number is at the cap, the greatest of them less one is the number of edges
/// of the longest walk, and 0 where there are no commits.
pub fn greatest_generation_is_the_longest_walk()
    ensures { (history : List Node) → CountWalks history
        → ((p : ℕ) → p < length history → generation_at history p < GENERATION_NUMBER_MAX)
        → IsLongestWalk history (greatest (generations history) - 1) }
{}

/// Each corrected date is the commit's time, or one more than the greatest date of its parents,
/// whichever is later, exactly where each is the greatest date that a walk from the commit asks
/// for.
pub fn dates_are_right_exactly_where_they_are_greatest()
    ensures { (history : List Node) (times dates : List ℕ)
        → AreRight history times dates ↔ AreGreatest history times dates }
{}

/// Where corrected dates are right, each is above those of all ancestors of its commit.
pub fn right_dates_fall_along_walks()
    ensures { (history : List Node) (times dates : List ℕ) (p q : ℕ) → AreRight history times dates
        → IsProperAncestor history p q → number_at dates q < number_at dates p }
{}

/// Where corrected dates are right, no commit lies on a cycle.
pub fn right_dates_leave_no_cycle()
    ensures { (history : List Node) (times dates : List ℕ) (p : ℕ) → AreRight history times dates
        → ¬ IsProperAncestor history p p }
{}

/// A history with its times has one list of right corrected dates at most.
pub fn right_dates_are_one()
    ensures { (history : List Node) (times dates others : List ℕ) (p : ℕ)
        → AreRight history times dates → AreRight history times others
        → number_at dates p ≡ number_at others p }
{}

/// Where corrected dates are right, each is at most the greatest of 1 and the times, and one second
/// for each other commit of the history.
pub fn right_dates_are_early()
    ensures { (history : List Node) (times dates : List ℕ) (p : ℕ) → AreRight history times dates
        → number_at dates p ≤ max 1 (greatest times) + (length history - 1) }
{}
