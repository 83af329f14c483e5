//! With which paint words of the extra edge lists were passed.

ghost use Rattle.std.specs.Prelude.{◌≡◌, ◌≢◌, ◌<◌, ◌≤◌, [], ℕ, length, OnOk};
ghost use Rattle.graph_bases.specs.Paint.{joined};
ghost use Rattle.graph_bases.specs.Trails.{trail_at, trail_in};
ghost use Rattle.graph_bases.specs.declared.paint.Paint.TheVariants.{Bare};

use crate::paint::Paint;
use std::alloc::{AllocError, Global};
use std::marker::Model;

/// With which paint words of a layer's extra edge list were passed. A contract sees it as the paint
/// of each word for which there is room.
#[derive(Drop)]
pub(crate) struct Trail {
    /// The paint of each word, bare where it was not passed.
    words: Vec<Paint>,
    /// Words that were passed, of which the one before was not passed then.
    starts: Vec<u32>,
}

impl Model for Trail {
    ghost use Rattle.std.specs.Prelude.{List};
    ghost use Rattle.graph_bases.specs.Trails.{AreTrailStarts};
    ghost use Rattle.graph_bases.specs.declared.paint.Paint.{Paint};

    ghost Value = { List Paint };

    ghost view = { λ a. a.words.items };

    ghost invariant = { λ a. AreTrailStarts a.words.items a.starts.items };
}

impl Trail {
    /// That of no words. Nothing is allocated.
    fn new(alloc: Global) -> Trail
        ensures { result ≡ [] }
    {
        Trail {
            words: Vec::new(alloc),
            starts: Vec::new(alloc),
        }
    }

    /// Makes room for so many words.
    fn grow_to(&mut self, words: usize) -> Result<(), AllocError>
        ensures room { OnOk result (words ≤ length self.new) }
        ensures same { (w : ℕ) → trail_at self.new w ≡ trail_at self.old w }
    {
        if self.words.len() < words {
            self.words.resize(words, Paint::Bare)?;
        }
        Ok(())
    }

    /// The paint of a word.
    fn at(&self, word: u32) -> Paint
        requires { word < length self.now }
        ensures { result ≡ trail_at self.now word }
    {
        self.words[word as usize]
    }

    /// Adds paint to that of a word.
    fn add(&mut self, word: u32, paint: Paint) -> Result<(), AllocError>
        requires { word < length self.old }
        ensures len { length self.new ≡ length self.old }
        ensures here { OnOk result (trail_at self.new word
            ≡ joined (trail_at self.old word) paint) }
        ensures there { (w : ℕ) → w ≢ word → trail_at self.new w ≡ trail_at self.old w }
    {
        let at = word as usize;
        if at == 0 || self.words[at - 1].is_bare() {
            self.starts.push(word)?;
        }
        self.words[at] = self.words[at].join(paint);
        Ok(())
    }

    /// Makes each word bare again, and leaves the room. Only words that were passed are gone over.
    fn clear(&mut self)
        ensures { (w : ℕ) → trail_at self.new w ≡ Bare }
    {
        while let Some(start) = self.starts.pop() {
            let mut at = start as usize;
            while at < self.words.len() && !self.words[at].is_bare() {
                self.words[at] = Paint::Bare;
                at += 1;
            }
        }
    }
}

/// With which paint words of the extra edge lists of a graph's layers were passed.
#[derive(Drop)]
pub(crate) struct Trails {
    alloc: Global,
    /// Those of each layer up to the last one where a word was passed.
    layers: Vec<Trail>,
}

impl Trails {
    /// Those of words that were not passed. Nothing is allocated.
    pub(crate) fn new(alloc: Global) -> Trails
        ensures { (l w : ℕ) → trail_at (trail_in result.layers.items l) w ≡ Bare }
    {
        Trails {
            alloc,
            layers: Vec::new(alloc),
        }
    }

    /// Makes room for the paint of all words of a layer's list.
    pub(crate) fn grow_to(&mut self, layer: usize, words: usize) -> Result<(), AllocError>
        ensures room { OnOk result (words ≤ length (trail_in self.new.layers.items layer)) }
        ensures same { (l w : ℕ) → trail_at (trail_in self.new.layers.items l) w
            ≡ trail_at (trail_in self.old.layers.items l) w }
    {
        while self.layers.len() <= layer {
            self.layers.push(Trail::new(self.alloc))?;
        }
        self.layers[layer].grow_to(words)
    }

    /// The paint with which a word was passed.
    pub(crate) fn at(&self, layer: usize, word: u32) -> Paint
        requires { word < length (trail_in self.now.layers.items layer) }
        ensures { result ≡ trail_at (trail_in self.now.layers.items layer) word }
    {
        self.layers[layer].at(word)
    }

    /// Passes a word with paint.
    pub(crate) fn add(&mut self, layer: usize, word: u32, paint: Paint) -> Result<(), AllocError>
        requires { word < length (trail_in self.old.layers.items layer) }
        ensures bounds { (l : ℕ) → length (trail_in self.new.layers.items l)
            ≡ length (trail_in self.old.layers.items l) }
        ensures here { OnOk result (trail_at (trail_in self.new.layers.items layer) word
            ≡ joined (trail_at (trail_in self.old.layers.items layer) word) paint) }
        ensures there { (w : ℕ) → w ≢ word → trail_at (trail_in self.new.layers.items layer) w
            ≡ trail_at (trail_in self.old.layers.items layer) w }
        ensures others { (l : ℕ) → l ≢ layer
            → trail_in self.new.layers.items l ≡ trail_in self.old.layers.items l }
    {
        self.layers[layer].add(word, paint)
    }

    /// Makes each word bare again, and leaves the room. Only words that were passed are gone over.
    pub(crate) fn clear(&mut self)
        ensures { (l w : ℕ) → trail_at (trail_in self.new.layers.items l) w ≡ Bare }
    {
        for layer in 0..self.layers.len() {
            self.layers[layer].clear();
        }
    }
}
