//! What the definitions of entries mean.

ghost use Rattle.std.specs.Prelude.{◌≡◌, ℕ, List, Option};
ghost use Rattle.hex.specs.Hex.{encode_lower};
ghost use Rattle.gix_hash_core.specs.declared.kind.Kind.{Kind};
ghost use Rattle.object_stream.specs.BatchEntry.{BeginsWithEntry};
ghost use Rattle.object_stream.specs.NextEntry.{IsEntryError, IsExpected};
ghost use Rattle.object_stream.specs.TypedObject.{typed_id};
ghost use Rattle.object_stream.specs.declared.error.EntryError.{EntryError};
ghost use Rattle.object_stream.specs.declared.object_type.ObjectType.{ObjectType};

/// What stands in a stream is refused for one reason alone.
#[tactic(auto, using(crate::proofs::OnceLemmas::entry_error_once))]
pub fn an_entry_is_refused_for_one_reason()
    ensures { (kind : Kind) (type : ObjectType) (expected : Option (List ℕ)) (bytes : List ℕ)
        (error other : EntryError)
        → IsEntryError kind type expected bytes error → IsEntryError kind type expected bytes other
        → error ≡ other }
{}

/// An entry whose id is that of its contents and the expected one, where one is, is not refused.
/// So [`next_entry`](crate::next_entry) gives it, unless a read fails or memory is wanting.
#[tactic(auto, using(crate::proofs::OnceLemmas::entry_not_refused))]
pub fn a_right_entry_is_not_refused()
    ensures { (kind : Kind) (type : ObjectType) (expected : Option (List ℕ))
        (bytes contents next : List ℕ) (error : EntryError)
        → BeginsWithEntry type (typed_id kind type contents) bytes contents next
        → IsExpected expected (encode_lower (typed_id kind type contents))
        → ¬ IsEntryError kind type expected bytes error }
{}
