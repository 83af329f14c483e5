//! What the answers of filters mean.

ghost use Rattle.std.specs.Prelude.{◌≡◌, ◌∷◌, [], ℕ, ◌<◌, List, All, Contains, None, codes, drop};
ghost use Rattle.std.specs.Prelude.{map};
ghost use Rattle.std.specs.List.{concat, range_with_len};
ghost use Rattle.changed_paths.specs.Murmur3.{murmur3};
ghost use Rattle.changed_paths.specs.Filter.{MayRead, IsAbsent, HasPaths, probe};
ghost use Rattle.changed_paths.specs.Filters.{filters_of, filters_refusal};
ghost use Rattle.changed_paths.specs.declared.filters.HashVersion.{HashVersion};
ghost use Rattle.changed_paths.specs.declared.murmur3.ByteReading.{ByteReading};
ghost use Rattle.changed_paths.specs.declared.murmur3.ByteReading.TheVariants.{Signed, Unsigned};

/// A path that is absent from a filter is none of the paths whose bits it has, in whatever reading
/// that its version allows they were set.
pub fn an_absent_path_is_not_in_the_filter()
    ensures { (version : HashVersion) (reading : ByteReading) (hashes : ℕ) (filter path : List ℕ)
        (paths : List (List ℕ)) → MayRead version reading → HasPaths reading hashes filter paths
        → IsAbsent version hashes filter path → ¬ Contains paths path }
{}

/// Both readings agree on each text of which all bytes are below 128.
pub fn readings_agree_on_ascii()
    ensures { (seed : ℕ) (bytes : List ℕ) → All (λ byte. byte < 128) bytes
        → murmur3 Signed seed bytes ≡ murmur3 Unsigned seed bytes }
{}

/// The filters of a layer, one after another, are all bytes of `BDAT` after its first twelve.
pub fn filters_are_all_of_the_data()
    ensures { (commits : ℕ) (index body : List ℕ) → filters_refusal commits index body ≡ None
        → concat (filters_of index body) ≡ drop 12 body }
{}

/// Known hashes: published ones of murmur3, those of both readings, and the seven probes of the
/// empty text.
#[tactic(auto, unfolding(crate::specs::Murmur3::murmur3, crate::specs::Murmur3::with_words, crate::specs::Filter::probe))]
pub fn known_hashes()
    ensures empty { murmur3 Unsigned 0 (codes "") ≡ 0 }
    ensures hello { murmur3 Unsigned 0 (codes "Hello world!") ≡ 0x627b0c2c }
    ensures fox { murmur3 Unsigned 0 (codes "The quick brown fox jumps over the lazy dog")
        ≡ 0x2e4ff723 }
    ensures empty_seeded { murmur3 Unsigned 0x293ae76f (codes "") ≡ 0x5615800c }
    ensures space { murmur3 Unsigned 0x293ae76f (codes " ") ≡ 0xf178874c }
    ensures seeded { murmur3 Unsigned 0x293ae76f (codes "Hello world!") ≡ 0xb270de9b }
    ensures unsigned { murmur3 Unsigned 0
        (0x99 ∷ 0xaa ∷ 0xbb ∷ 0xcc ∷ 0xdd ∷ 0xee ∷ 0xff ∷ []) ≡ 0xa183ccfd }
    ensures signed { murmur3 Signed 0x293ae76f
        (0x99 ∷ 0xaa ∷ 0xbb ∷ 0xcc ∷ 0xdd ∷ 0xee ∷ 0xff ∷ []) ≡ 0x9fd515d2 }
    ensures probes { map (probe Unsigned []) (range_with_len 0 7)
        ≡ 0x5615800c ∷ 0x5b966560 ∷ 0x61174ab4 ∷ 0x66983008 ∷ 0x6c19155c ∷ 0x7199fab0
        ∷ 0x771ae004 ∷ [] }
{}
