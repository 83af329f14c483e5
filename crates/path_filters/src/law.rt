//! What the filters that Git writes say of paths.

ghost use Rattle.std.specs.Prelude.{◌≡◌, ◌<◌, ◌∷◌, [], ℕ, List, All, Option};
ghost use Rattle.changed_paths.specs.Filter.{IsAbsent};
ghost use Rattle.changed_paths.specs.declared.filters.HashVersion.{HashVersion};
ghost use Rattle.changed_paths.specs.declared.murmur3.ByteReading.{ByteReading};
ghost use Rattle.tree_changes.specs.Stands.{World};
ghost use Rattle.tree_changes.specs.Changes.{IsChangedText};
ghost use Rattle.path_filters.specs.Touched.{LeadsTo};
ghost use Rattle.path_filters.specs.Made.{IsFilterOf, IsRight, IsWritten};
ghost use Rattle.path_filters.specs.declared.settings.Settings.{Settings};

/// The filter that Git writes for a commit is right: each path that is touched is possible.
pub fn a_filter_that_git_writes_is_right()
    ensures { (settings : Settings) (world : World) (old new : Option (List ℕ)) (filter : List ℕ)
        → IsWritten settings (IsChangedText world old new) filter
        → IsRight settings.version settings.hashes (IsChangedText world old new) filter }
{}

/// A path that a right filter answers as absent was not changed, nor any below it.
pub fn nothing_changed_at_an_absent_path()
    ensures { (version : HashVersion) (hashes : ℕ) (world : World) (old new : Option (List ℕ))
        (filter path : List ℕ) → IsRight version hashes (IsChangedText world old new) filter
        → IsAbsent version hashes filter path
        → ¬ IsChangedText world old new path
        × ((below : List ℕ) → LeadsTo path below → ¬ IsChangedText world old new below) }
{}

/// The filter of no path is one byte without a bit.
pub fn the_filter_of_no_path_is_one_clear_byte()
    ensures { (reading : ByteReading) (bits hashes : ℕ) (filter : List ℕ)
        → All (λ byte. byte < 256) filter → IsFilterOf reading bits hashes [] filter
        → filter ≡ 0 ∷ [] }
{}

/// The bytes of a filter are fixed by its paths.
pub fn paths_have_one_filter()
    ensures { (reading : ByteReading) (bits hashes : ℕ) (paths : List (List ℕ))
        (one other : List ℕ) → All (λ byte. byte < 256) one → All (λ byte. byte < 256) other
        → IsFilterOf reading bits hashes paths one → IsFilterOf reading bits hashes paths other
        → one ≡ other }
{}

/// For what is changed from one tree to another, Git writes one filter.
pub fn git_writes_one_filter()
    ensures { (settings : Settings) (world : World) (old new : Option (List ℕ))
        (one other : List ℕ) → All (λ byte. byte < 256) one → All (λ byte. byte < 256) other
        → IsWritten settings (IsChangedText world old new) one
        → IsWritten settings (IsChangedText world old new) other → one ≡ other }
{}
