//! Laws of the bytes of trees.

ghost use Rattle.std.specs.Prelude.{◌≡◌, ◌∷◌, ℕ, List, []};
ghost use Rattle.gix_hash_core.specs.declared.kind.Kind.{Kind};
ghost use Rattle.tree_objects.specs.Tree.{TreeEntry, BeginsWithTreeEntry, AreEntriesAnd, IsTree};
ghost use Rattle.tree_objects.specs.Refusal.{IsTreeRefusal};
ghost use Rattle.tree_objects.specs.declared.check.TreeError.{TreeError};

/// Bytes begin with one entry at most, and what follows it is one thing.
pub fn bytes_begin_with_one_entry()
    ensures { (kind : Kind) (bytes : List ℕ) (one other : TreeEntry) (next rest : List ℕ)
        → BeginsWithTreeEntry kind bytes one next → BeginsWithTreeEntry kind bytes other rest
        → (one ≡ other) × (next ≡ rest) }
{}

/// Entries that are read from bytes begin with the one with which the bytes begin, and the others
/// are read from what follows it.
pub fn entries_go_on_behind_the_first()
    ensures { (kind : Kind) (bytes : List ℕ) (entries : List TreeEntry) (first : TreeEntry)
        (next : List ℕ) → AreEntriesAnd kind bytes entries []
        → BeginsWithTreeEntry kind bytes first next
        → (others : List TreeEntry) × (entries ≡ first ∷ others)
        × AreEntriesAnd kind next others [] }
{}

/// The bytes of a tree are the entries of one tree alone.
#[tactic(auto, using(crate::proofs::ReadLemmas::one_tree))]
pub fn a_tree_has_one_list_of_entries()
    ensures { (kind : Kind) (bytes : List ℕ) (one other : List TreeEntry)
        → IsTree kind bytes one → IsTree kind bytes other → one ≡ other }
{}

/// Bytes for which there is a refusal are no tree.
#[tactic(auto, using(crate::proofs::ReadLemmas::refused_is_none))]
pub fn what_is_refused_is_no_tree()
    ensures { (kind : Kind) (bytes : List ℕ) (error : TreeError) (entries : List TreeEntry)
        → IsTreeRefusal kind bytes error → ¬ IsTree kind bytes entries }
{}

/// For bytes there is one refusal at most.
#[tactic(auto, using(crate::proofs::ReadLemmas::one_refusal))]
pub fn bytes_have_one_refusal()
    ensures { (kind : Kind) (bytes : List ℕ) (one other : TreeError)
        → IsTreeRefusal kind bytes one → IsTreeRefusal kind bytes other → one ≡ other }
{}
