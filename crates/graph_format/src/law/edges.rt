//! What the section "Extra Edge List" gives, said with no recursion.

ghost use Rattle.std.specs.Prelude.{◌≡◌, ℕ, ◌≤◌, ◌⊎◌, List, length};
ghost use Rattle.graph_format.specs.Format.{words};
ghost use Rattle.graph_format.specs.Parents.{extra_parents, faulty};
ghost use Rattle.graph_format.specs.EdgeLaw.{EndsAt, RunsOut, up_to_last, all_from};

use crate::parents::ParentError;

/// Of the words of an extra edge list from some index on, either one is the first with its top bit
/// set, and the parents are the words before it, and then that word without the bit; or none has
/// the bit set, and the parents are all of these words, followed by `EdgeOverflow`. Where the index
/// is the list's end or past it, that error comes alone.
#[tactic(auto, using(crate::proofs::ExtraEdgeLemmas::edge_laws))]
pub fn each_edge_list_ends_or_runs_out()
    ensures ends { (bytes : List ℕ) (k j : ℕ) → EndsAt (words bytes) k j
        → extra_parents bytes k ≡ up_to_last (words bytes) k j }
    ensures runs_out { (bytes : List ℕ) (k : ℕ) → RunsOut (words bytes) k
        → extra_parents bytes k ≡ all_from (words bytes) k }
    ensures past { (bytes : List ℕ) (k : ℕ) → length (words bytes) ≤ k
        → extra_parents bytes k ≡ faulty ParentError.EdgeOverflow }

    // One of the two is always so.
    ensures either { (bytes : List ℕ) (k : ℕ) → ((j : ℕ) × EndsAt (words bytes) k j)
        ⊎ RunsOut (words bytes) k }
{}
