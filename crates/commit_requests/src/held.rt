//! Contents of commits that are held.

ghost use Rattle.std.specs.Prelude.{◌≡◌, ◌<◌, ◌++◌, ◌∷◌, [], Some, OnErr, OnOk, length};
ghost use Rattle.std.specs.Prelude.{slice_get};

use std::alloc::{AllocError, Global};
use std::marker::Model;

/// Contents of commits, in the order in which they came. A contract sees the list of them.
#[derive(Drop)]
pub(crate) struct HeldContents {
    each: Vec<Vec<u8>>,
}

impl Model for HeldContents {
    ghost use Rattle.std.specs.Prelude.{List, map, ℕ};

    ghost Value = { List (List ℕ) };

    ghost view = { λ h. map (λ bytes. bytes.items) h.each.items };
}

impl HeldContents {
    /// None yet.
    pub(crate) fn new(alloc: Global) -> HeldContents
        ensures { result ≡ [] }
    {
        HeldContents {
            each: Vec::new(alloc),
        }
    }

    /// How many there are.
    pub(crate) fn len(&self) -> usize
        ensures { result ≡ length self.now }
    {
        self.each.len()
    }

    /// Those with this number.
    pub(crate) fn of(&self, number: usize) -> &[u8]
        requires { number < length self.now }
        ensures { slice_get self.now number ≡ Some result.now }
    {
        &self.each[number]
    }

    /// Holds one more. At an error all is as before.
    pub(crate) fn push(&mut self, alloc: Global, contents: &[u8]) -> Result<(), AllocError>
        ensures ok { OnOk result (self.new ≡ self.old ++ contents.now ∷ []) }
        ensures err { OnErr result (self.new ≡ self.old) }
    {
        let bytes = Vec::from_slice(alloc, contents)?;
        match self.each.push(bytes) {
            Ok(()) => Ok(()),
            Err(_) => Err(AllocError),
        }
    }
}
