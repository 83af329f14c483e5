//! What the words of the contracts mean.

ghost use Rattle.std.specs.Prelude.{◌≡◌, ◌↔◌, ◌+◌, ◌<◌, ◌++◌, ◌∷◌, [], ℕ, List, length};
ghost use Rattle.gix_hash_core.specs.declared.kind.Kind.{Kind};
ghost use Rattle.graph_walks.specs.History.{IsParent, Node};
ghost use Rattle.graph_walks.specs.Walks.{CountWalks, IsWalkBetween, Reaches};
ghost use Rattle.commit_search.specs.Ranks.{FallsAlongParents, by_date};
ghost use Rattle.graph_objects.specs.CommitWalks.{CommitsLead};
ghost use Rattle.newer_commits.specs.Adding.{AddsCommit};
ghost use Rattle.newer_commits.specs.CommitsOf.{AnswersOnce, AreCommitsOf, newer_id};
ghost use Rattle.newer_commits.specs.CommitsOnTop.{AreAfterParents, CommitsOnTop, nodes_on_top};
ghost use Rattle.newer_commits.specs.JoinedHistory.{AreNumberedOnTop, joined_history};
ghost use Rattle.newer_commits.specs.RanksOnTop.{ranking_on_top};

use crate::base::Base;

/// Where each generation number of the base counts the commits of the longest walk, so does each of
/// the joined history.
pub fn right_numbers_stay_right()
    ensures { (base newer : List Node) → CountWalks base → AreNumberedOnTop base newer
        → CountWalks (joined_history base newer) }
{}

/// Where the dates of the base fall along all parents, as right corrected dates do, so do the ranks
/// of the base and the newer commits together.
pub fn ranks_on_top_fall_along_all_parents()
    ensures { (base : List Node) (top : CommitsOnTop) (dates : List ℕ)
        → length base ≡ top.below → length dates ≡ top.below → AreAfterParents top
        → FallsAlongParents base (by_date dates)
        → FallsAlongParents (joined_history base (nodes_on_top top)) (ranking_on_top dates) }
{}

/// Commits of the base have the parents and the walks that they have without newer commits.
pub fn walks_of_the_base_stay_the_same()
    ensures parents { (base newer : List Node) (p q : ℕ) → p < length base
        → IsParent (joined_history base newer) p q ↔ IsParent base p q }
    ensures walks { (base newer : List Node) (p q : ℕ) (walk : List ℕ) → p < length base
        → IsWalkBetween (joined_history base newer) p q walk ↔ IsWalkBetween base p q walk }
{}

/// One newer commit leads to another along parents only where a list of the commits with their
/// contents leads from the one's id to the other's, each named in a `parent` line of the one before
/// it. It does so exactly there, if the base answers one thing for each id.
pub fn walks_of_newer_commits_are_those_along_parent_lines<S: Base>()
    ensures only { (kind : Kind) (facts : S.Facts) (top : CommitsOnTop)
        (contents : List (List ℕ)) (base : List Node) (i j : ℕ)
        → AreCommitsOf kind (S.finds facts) top contents → length base ≡ top.below
        → i < length top.commits → j < length top.commits
        → Reaches (joined_history base (nodes_on_top top)) (top.below + i) (top.below + j)
        → CommitsLead kind contents (newer_id top i) (newer_id top j) }
    ensures exactly { (kind : Kind) (facts : S.Facts) (top : CommitsOnTop)
        (contents : List (List ℕ)) (base : List Node) (i j : ℕ)
        → AreCommitsOf kind (S.finds facts) top contents → length base ≡ top.below
        → i < length top.commits → j < length top.commits → AnswersOnce (S.finds facts)
        → Reaches (joined_history base (nodes_on_top top)) (top.below + i) (top.below + j)
        ↔ CommitsLead kind contents (newer_id top i) (newer_id top j) }
{}

/// No newer commits are those with no contents, and with each that is added its contents are.
pub fn added_commits_are_those_with_their_contents<S: Base>()
    ensures none { (kind : Kind) (facts : S.Facts) (top : CommitsOnTop)
        → top.commits ≡ [] → AreCommitsOf kind (S.finds facts) top [] }
    ensures one_more { (kind : Kind) (facts : S.Facts)
        (old new : CommitsOnTop) (contents : List (List ℕ)) (bytes : List ℕ) (pos : ℕ)
        → AreCommitsOf kind (S.finds facts) old contents
        → AddsCommit kind (S.finds facts) old new bytes pos
        → AreCommitsOf kind (S.finds facts) new (contents ++ bytes ∷ []) }
{}
