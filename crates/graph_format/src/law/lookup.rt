//! Laws of lookups: what a plain scan answers, and what a number of digits is.

ghost use Rattle.std.specs.Prelude.{ℕ, List};
ghost use Rattle.graph_format.specs.Lookup.{scan, digits};
ghost use Rattle.graph_format.specs.LookupLaw.{IsFirst, IsDigitCount};

/// A plain scan answers the least position that holds the id, and none where no position does.
#[tactic(auto, using(crate::proofs::ScanLemmas::scan_laws))]
pub fn a_scan_answers_the_first_position()
    ensures { (ids : List (List ℕ)) (id : List ℕ) → IsFirst ids id (scan ids id) }
{}

/// A number is written with its number of binary digits, and with no fewer.
#[tactic(auto, using(crate::proofs::DigitLemmas::digit_laws))]
pub fn digits_are_binary_digits()
    ensures { (n : ℕ) → IsDigitCount n (digits n) }
{}
