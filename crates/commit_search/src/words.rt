//! Over which words of the extra edge lists a search has gone.

ghost use Rattle.std.specs.Prelude.{◌≡◌, ◌≢◌, ◌↔◌, ◌<◌, ◌≤◌, ◌++◌, ◌∷◌, [], ℕ, IsTrue, OnOk};
ghost use Rattle.commit_search.specs.Marks.{IsMarked, marked_at, bound_at};

use crate::bits::BitMarks;
use crate::marks::Marks;
use std::alloc::{AllocError, Global};

/// Marks of the words of the extra edge lists of a graph's layers.
#[derive(Drop)]
pub(crate) struct WordMarks {
    alloc: Global,
    /// Those of each layer up to the last one where there are any.
    layers: Vec<BitMarks>,
}

impl WordMarks {
    /// No marks, and no room for any. Nothing is allocated.
    pub(crate) fn new(alloc: Global) -> WordMarks
        ensures { (l : ℕ) → marked_at result.layers.items l ≡ [] }
    {
        WordMarks {
            alloc,
            layers: Vec::new(alloc),
        }
    }

    /// Makes room for marks of all words of a layer's list.
    pub(crate) fn grow_to(&mut self, layer: usize, words: u32) -> Result<(), AllocError>
        ensures room { OnOk result (words ≤ bound_at self.new.layers.items layer) }
        ensures marked { (l : ℕ)
            → marked_at self.new.layers.items l ≡ marked_at self.old.layers.items l }
    {
        while self.layers.len() <= layer {
            self.layers.push(BitMarks::new(self.alloc))?;
        }
        self.layers[layer].grow_to(words)
    }

    /// Whether a word is marked.
    pub(crate) fn is_marked(&self, layer: usize, word: u32) -> bool
        requires { word < bound_at self.now.layers.items layer }
        ensures { IsTrue result ↔ IsMarked (marked_at self.now.layers.items layer) word }
    {
        self.layers[layer].is_marked(word)
    }

    /// Marks a word that has no mark.
    pub(crate) fn set(&mut self, layer: usize, word: u32) -> Result<(), AllocError>
        requires bound { word < bound_at self.old.layers.items layer }
        requires clear { ¬ IsMarked (marked_at self.old.layers.items layer) word }
        ensures bounds { (l : ℕ)
            → bound_at self.new.layers.items l ≡ bound_at self.old.layers.items l }
        ensures marked { OnOk result (marked_at self.new.layers.items layer
            ≡ marked_at self.old.layers.items layer ++ record { number = word; mark = 0 } ∷ []) }
        ensures others { (l : ℕ) → l ≢ layer
            → marked_at self.new.layers.items l ≡ marked_at self.old.layers.items l }
    {
        self.layers[layer].set(word, 0)
    }

    /// Clears each mark, and leaves the room.
    pub(crate) fn clear(&mut self)
        ensures { (l : ℕ) → marked_at self.new.layers.items l ≡ [] }
    {
        for layer in 0..self.layers.len() {
            self.layers[layer].clear();
        }
    }
}
