//! A flag that this library keeps for C.

use graph_history::Flag;
use std::marker::Model;

/// A flag. A contract sees nothing of it: any thread may raise it at any time.
#[derive(Drop)]
pub(crate) struct KeptFlag {
    flag: Flag,
}

impl Model for KeptFlag {
    ghost Value = { Unit {0} };

    ghost view = { λ _. tt };
}

impl KeptFlag {
    /// A flag that is not raised.
    pub fn new() -> KeptFlag {
        KeptFlag { flag: Flag::new() }
    }

    /// The flag.
    pub fn flag(&self) -> &Flag {
        &self.flag
    }
}
