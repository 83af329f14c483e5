//! Trees that were read, and may be wanted again.

ghost use Rattle.std.specs.Prelude.{◌≡◌, ◌≤◌, ◌+◌, Option, List, ℕ, IfSome, length};
ghost use Rattle.std.specs.Ordering.{nat_cmp};
ghost use Rattle.std.specs.Cmp.Lexicographic.{slice_cmp};
ghost use Rattle.std.specs.BTreeMap as tree;
ghost use Rattle.gix_hash_core.specs.declared.kind.Kind.{Kind as HashKind};
ghost use Rattle.tree_requests.specs.TakenTree.{IsKeptTree};
ghost use Rattle.tree_requests.specs.StoredTrees.{AreStored};

use gix_hash_core::ObjectId;
use std::alloc::Global;
use std::collections::BTreeMap;

/// How many bytes of trees are kept at most.
const MOST_BYTES: usize = 64 * 1024 * 1024;

/// How many trees are kept at most. With their ids and places they take some 40 MB beside their
/// bytes.
const MOST_TREES: usize = 262_144;

/// Where a tree stands among the bytes of all.
#[derive(Clone, Copy)]
pub(crate) struct Span {
    pub(crate) start: usize,
    pub(crate) end: usize,
}

/// Trees by their ids. Where one more has no room, all are forgotten: those that are wanted again
/// are asked for again.
#[derive(Drop)]
pub(crate) struct TreeStore {
    pub(crate) bytes: Vec<u8>,
    pub(crate) spans: BTreeMap<ObjectId, Span>,
    ghost few: { length bytes.items ≤ 67108864 },
}

impl TreeStore {
    /// No trees.
    pub(crate) fn new(alloc: Global) -> TreeStore
        ensures { (kind : HashKind) (stream : Option (List ℕ))
            → AreStored kind stream result.bytes.items result.spans }
    {
        TreeStore {
            bytes: Vec::new(alloc),
            spans: BTreeMap::new(alloc),
        }
    }

    /// The tree with an id, if it is kept.
    pub(crate) fn get(&self, id: &ObjectId) -> Option<&[u8]>
        ensures { (kind : HashKind) (stream : Option (List ℕ))
            → AreStored kind stream self.now.bytes.items self.now.spans
            → IfSome result (λ contents. IsKeptTree kind stream id.now contents.now) }
    {
        match self.span_of(id) {
            Some(span) if span.start <= span.end && span.end <= self.bytes.len() => {
                Some(&self.bytes[span.start..span.end])
            }
            _ => None,
        }
    }

    /// Where the tree with an id stands, if it is kept.
    fn span_of(&self, id: &ObjectId) -> Option<Span>
        ensures { result ≡ tree.get (slice_cmp nat_cmp) self.now.spans id.now }
    {
        self.spans.get(id).copied()
    }

    /// Keeps a tree, if there is memory for it.
    pub(crate) fn put(&mut self, id: ObjectId, contents: &[u8])
        ensures { (kind : HashKind) (stream : Option (List ℕ))
            → AreStored kind stream self.old.bytes.items self.old.spans
            → IsKeptTree kind stream id contents.now
            → AreStored kind stream self.new.bytes.items self.new.spans }
    {
        if contents.len() > MOST_BYTES {
            return;
        }
        self.make_room(contents.len());
        let start = self.bytes.len();
        let Ok(()) = self.bytes.extend_from_slice(contents) else {
            return;
        };
        let span = Span {
            start,
            end: self.bytes.len(),
        };
        let _is_kept = self.spans.insert(id, span).is_ok();
    }

    /// Forgets all trees where one more of this many bytes has no room.
    fn make_room(&mut self, count: usize)
        requires { count ≤ 67108864 }
        ensures kept { (kind : HashKind) (stream : Option (List ℕ))
            → AreStored kind stream self.old.bytes.items self.old.spans
            → AreStored kind stream self.new.bytes.items self.new.spans }
        ensures room { length self.new.bytes.items + count ≤ 67108864 }
    {
        if self.bytes.len() + count > MOST_BYTES || self.spans.len() >= MOST_TREES {
            self.spans.clear();
            self.bytes.clear();
        }
    }
}
