//! What the words of the contracts mean.

ghost use Rattle.std.specs.Prelude.{◌≡◌, ◌↔◌, ◌<◌, ℕ, List, [], ◌∷◌};
ghost use Rattle.graph_walks.specs.History.{Node, generation_at};
ghost use Rattle.graph_walks.specs.Walks.{CountWalks, IsProperAncestor, Reaches};
ghost use Rattle.graph_bases.specs.Bases.{AreMergeBases, IsCommonAncestor, IsMergeBase};
ghost use Rattle.graph_bases.specs.Bases.{IsReachedFromSome};

pub use commit_search::law::{
    corrected_dates_fall_along_parents, generation_numbers_fall_along_parents,
};
use graph_walks::GENERATION_NUMBER_MAX;
use graph_walks::law::{generations_fall_along_walks, generations_never_rise_along_walks};

/// Where the generation number of the first commit is below the cap, it and others with a common
/// ancestor have a merge base. (At the cap there may be cycles, whose commits are proper ancestors
/// of themselves, and so no bases.)
pub fn common_ancestors_have_a_base()
    ensures { (history : List Node) (first : ℕ) (others : List ℕ) → CountWalks history
        → generation_at history first < GENERATION_NUMBER_MAX
        → ((p : ℕ) → ¬ IsMergeBase history first others p)
        → (p : ℕ) → ¬ IsCommonAncestor history first others p }
{
    generations_never_rise_along_walks();
    generations_fall_along_walks();
}

/// Of one commit, some leads to another exactly where it does.
pub fn from_some_of_one_is_from_it()
    ensures { (history : List Node) (start p : ℕ)
        → IsReachedFromSome history (start ∷ []) p ↔ Reaches history start p }
{}

/// The merge bases of two commits are the same in both orders.
pub fn merge_bases_are_the_same_in_both_orders()
    ensures each { (history : List Node) (first other p : ℕ)
        → IsMergeBase history first (other ∷ []) p ↔ IsMergeBase history other (first ∷ []) p }
    ensures all { (history : List Node) (first other : ℕ) (bases : List ℕ)
        → AreMergeBases history first (other ∷ []) bases
        ↔ AreMergeBases history other (first ∷ []) bases }
{}

/// No merge base is a proper ancestor of another, or of itself.
pub fn no_merge_base_is_an_ancestor_of_another()
    ensures { (history : List Node) (first : ℕ) (others : List ℕ) (p q : ℕ)
        → IsMergeBase history first others p → IsMergeBase history first others q
        → ¬ IsProperAncestor history p q }
{}

/// Where a commit leads to another, whose generation number is below the cap, that one is the only
/// merge base of the two.
pub fn an_ancestor_is_the_only_merge_base()
    ensures { (history : List Node) (first other p : ℕ) → CountWalks history
        → generation_at history other < GENERATION_NUMBER_MAX → Reaches history first other
        → IsMergeBase history first (other ∷ []) p ↔ (p ≡ other) }
{
    generations_never_rise_along_walks();
    generations_fall_along_walks();
}
