//! Bytes that a call has made, and that this library keeps for C.

ghost use Rattle.std.specs.Prelude.{◌≡◌};

use std::marker::Model;

/// Bytes that were made. A contract sees them as their list.
#[derive(Drop)]
pub struct Kept {
    bytes: Vec<u8>,
}

impl Model for Kept {
    ghost use Rattle.std.specs.Prelude.{List, ℕ};

    ghost Value = { List ℕ };

    ghost view = { λ a. a.bytes.items };
}

impl Kept {
    /// These bytes.
    pub fn new(bytes: Vec<u8>) -> Kept
        ensures { result ≡ bytes.items }
    {
        Kept { bytes }
    }

    /// The bytes.
    pub fn bytes(&self) -> &[u8]
        ensures { result.now ≡ self.now }
    {
        self.bytes.as_slice()
    }
}
