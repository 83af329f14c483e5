//! What is exchanged with the program that answers.

use std::marker::Brand;

/// What the bytes are that go back and forth: the reader and the writer as they were before
/// anything was asked for. A caller picks both for each of its calls.
pub trait Exchange {
    ghost use Rattle.std.specs.Prelude.{ℕ, List, Option};

    /// The stream: all that the reader gives, where it is known.
    ghost stream: { Option (List ℕ) };

    /// What the writer had been given, where it is known.
    ghost written: { Option (List ℕ) };
}

impl Exchange for Brand {
    ghost use Rattle.std.specs.Prelude.{None};

    ghost stream = { None };

    ghost written = { None };
}
