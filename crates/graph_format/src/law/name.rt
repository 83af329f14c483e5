//! What the rule for the name of a layer's file means.

ghost use Rattle.std.specs.Prelude.{◌≡◌, ◌↔◌, ℕ, List, true};
ghost use Rattle.graph_format.specs.NameRule.{KeepsNameRule, is_named_right};

/// The test of a file's name passes exactly where the rule for such names holds.
pub fn the_test_of_a_name_is_the_rule()
    ensures { (path checksum : List ℕ) → (is_named_right path checksum ≡ true)
        ↔ KeepsNameRule path checksum }
{}
