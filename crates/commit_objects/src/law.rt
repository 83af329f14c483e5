//! The law of what commits say.

ghost use Rattle.std.specs.Prelude.{◌≡◌, ℕ, List};
ghost use Rattle.commit_objects.specs.CommitContents.{Said, Says};
ghost use Rattle.gix_hash_core.specs.declared.kind.Kind.{Kind};

/// Bytes say one thing at most.
pub fn commits_say_one_thing()
    ensures { (kind : Kind) (bytes : List ℕ) (said other : Said) → Says kind bytes said
        → Says kind bytes other → said ≡ other }
{}
