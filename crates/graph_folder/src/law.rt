//! The law of the lines of a text.

ghost use Rattle.std.specs.Prelude.{◌≡◌, ◌≢◌, ◌<◌, ◌++◌, ◌∷◌, [], ℕ, List, length};
ghost use Rattle.std.specs.List.{All};
ghost use Rattle.std.specs.Str.Lines.{lines, strip_carriage_return};

/// A text without a newline is one line, unless it is empty. Else its first line is what stands
/// before its first newline, less one carriage return at its end if one stands there, and its other
/// lines are those of what follows that newline.
#[tactic(auto, using(crate::proofs::LineLemmas::cut_laws))]
pub fn texts_are_cut_into_lines()
    ensures none { lines [] ≡ [] }
    ensures last { (line : List ℕ) → 0 < length line → All (λ byte. byte ≢ 10) line
        → lines line ≡ line ∷ [] }
    ensures first { (line rest : List ℕ) → All (λ byte. byte ≢ 10) line
        → lines (line ++ 10 ∷ rest) ≡ strip_carriage_return line ∷ lines rest }
    ensures stripped { (line : List ℕ) → strip_carriage_return (line ++ 13 ∷ []) ≡ line }
    ensures kept { (line : List ℕ) (byte : ℕ) → byte ≢ 13
        → strip_carriage_return (line ++ byte ∷ []) ≡ line ++ byte ∷ [] }
    ensures empty { strip_carriage_return [] ≡ [] }
{}
