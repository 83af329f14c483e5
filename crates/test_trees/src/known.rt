//! A source of trees in memory.

ghost use Rattle.std.specs.Prelude.{◌≡◌, Contains, IfSome};

use gix_hash_core::Kind;
use std::alloc::AllocError;
use tree_changes::TreeSource;
use tree_objects::{TreeError, check_tree};

/// A tree, and its id.
#[derive(Drop)]
pub struct KnownTree {
    /// Its id.
    pub id: Vec<u8>,
    /// Its bytes.
    pub contents: Vec<u8>,
}

/// Why a tree is not read.
#[derive(Debug, PartialEq, Eq, Drop)]
pub enum ReadError {
    /// No tree has this id.
    Missing,
    /// The bytes with this id are no tree.
    NoTree(TreeError),
    /// Memory ran out.
    OutOfMemory,
}

impl From<AllocError> for ReadError {
    fn from(_: AllocError) -> ReadError {
        ReadError::OutOfMemory
    }
}

/// Trees in memory, which counts how often one is read.
#[derive(Drop)]
pub struct KnownTrees {
    /// The kind of their ids.
    pub kind: Kind,
    /// The trees.
    pub trees: Vec<KnownTree>,
    /// How many trees were asked for.
    pub reads: usize,
}

impl TreeSource for KnownTrees {
    ghost use Rattle.test_trees.specs.Known.{HasTrees};

    type Error = ReadError;

    ghost says = { λ source world. HasTrees source.kind source.trees.items world };

    ghost kind_is = { λ source. source.kind };

    ghost has_refused = { λ source id error. Unit {0} };

    fn kind(&self) -> Kind {
        self.kind
    }

    fn read(&mut self, id: &[u8], contents: &mut Vec<u8>) -> Result<(), ReadError> {
        self.reads = self.reads.saturating_add(1);
        let Some(tree) = find(&self.trees, id) else {
            return Err(ReadError::Missing);
        };
        if let Err(error) = check_tree(self.kind, &tree.contents) {
            return Err(ReadError::NoTree(error));
        }
        contents.clear();
        contents.extend_from_slice(&tree.contents)?;
        Ok(())
    }

    fn hint(&mut self, _id: &[u8]) {}
}

/// The first of these trees with an id.
fn find<'a>(trees: &'a [KnownTree], id: &[u8]) -> Option<&'a KnownTree>
    ensures { IfSome result (λ tree. Contains trees.now tree.now
        × (tree.now.id.items ≡ id.now)) }
{
    for tree in trees {
        if tree.id.as_slice() == id {
            return Some(tree);
        }
    }
    None
}
