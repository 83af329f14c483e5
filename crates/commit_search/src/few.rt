//! Marks of numbers of which few are marked, in a hash table, and in bits once they are many.

ghost use Rattle.std.specs.Prelude.{◌≡◌, ◌↔◌, ◌*◌, ◌^◌, ◌<◌, ◌≤◌, ℕ, IfNone, IfOk, IfSome, IsTrue};
ghost use Rattle.std.specs.Prelude.{true, length, slice_index_or};
ghost use Rattle.commit_search.specs.Marks.{IsMarked, AreBits, number_in};
ghost use Rattle.commit_search.specs.HashTable.{AreFew, AreHeld};

use crate::bits::{is_set, set_bit};
use crate::hash_table::{STEPS, looked_at, put};
use crate::marks::{Marked, Marks};
use std::alloc::{AllocError, Global};
use std::marker::Model;

/// How many slots a table has at least.
const LEAST: usize = 4096;

/// How many times more slots the next table has.
const GROWTH: usize = 4;

/// A table has at most a slot for so many numbers: a bit for each would take less than twice its
/// memory.
const SHARE: usize = 64;

/// Marks that take memory for the numbers that are marked, and none for the others: a table of 16
/// KiB at first, and then up to 40 bytes for each. Where a larger table would not be much less than
/// a bit for each number below the bound, there are these bits in its place.
#[derive(Drop)]
pub struct FewMarks {
    alloc: Global,
    bound: u32,
    /// A hash table, as long as there are no bits. A slot has 0, or one more than the place of a
    /// number among those that are marked.
    table: Vec<u32>,
    /// A bit for each number, or none.
    bits: Vec<u64>,
    marked: Vec<Marked>,
}

impl Model for FewMarks {
    ghost use Rattle.commit_search.specs.Marks.{Marking};
    ghost use Rattle.commit_search.specs.HashTable.{AreHeld};

    ghost Value = { Marking };

    ghost view = { λ a. record { bound = a.bound; marked = a.marked.items } };

    ghost invariant = { λ a. AreHeld a.bound a.table.items a.bits.items a.marked.items };
}

impl Marks for FewMarks {
    ghost marking = { λ marking. marking };

    fn new(alloc: Global) -> Self {
        FewMarks {
            alloc,
            bound: 0,
            table: Vec::new(alloc),
            bits: Vec::new(alloc),
            marked: Vec::new(alloc),
        }
    }

    fn grow_to(&mut self, bound: u32) -> Result<(), AllocError> {
        let bound = self.bound.max(bound);
        if !self.bits.is_empty() {
            self.bits = bits_of(self.alloc, &self.marked, bound)?;
        }
        self.bound = bound;
        Ok(())
    }

    fn is_marked(&self, number: u32) -> bool {
        if self.bits.is_empty() {
            stands_in(&self.table, &self.marked, number)
        } else {
            is_set(&self.bits, number)
        }
    }

    fn set(&mut self, number: u32, mark: u32) -> Result<(), AllocError> {
        let place = self.marked.len();
        self.marked.push(Marked { number, mark })?;
        if !self.bits.is_empty() {
            set_bit(&mut self.bits, number);
            return Ok(());
        }
        if place < self.table.len() / 2 && put(&mut self.table, number, place as u32) {
            return Ok(());
        }
        match grown(self.alloc, &self.marked, self.table.len(), self.bound) {
            Ok((table, bits)) => {
                self.table = table;
                self.bits = bits;
                Ok(())
            }
            Err(error) => {
                self.marked.pop();
                Err(error)
            }
        }
    }

    fn len(&self) -> usize {
        self.marked.len()
    }

    fn number_at(&self, place: usize) -> u32 {
        self.marked[place].number
    }

    fn mark_at(&self, place: usize) -> u32 {
        self.marked[place].mark
    }

    fn clear(&mut self) {
        self.table.clear();
        self.bits.clear();
        self.marked.clear();
    }
}

/// The number at a place.
fn number_at(marked: &Vec<Marked>, place: usize) -> u32
    requires { place < length marked.now.items }
    ensures { result ≡ number_in marked.now.items place }
{
    marked[place].number
}

/// Whether a number is marked, as a table says.
fn stands_in(table: &Vec<u32>, marked: &Vec<Marked>, number: u32) -> bool
    requires { AreFew table.now.items marked.now.items }
    ensures { IsTrue result ↔ IsMarked marked.now.items number }
{
    !table.is_empty() && found(table, marked, number).is_some()
}

/// The place of a number, as a table says.
fn found(table: &Vec<u32>, marked: &Vec<Marked>, number: u32) -> Option<usize>
    requires some { 0 < length table.now.items }
    requires few { AreFew table.now.items marked.now.items }
    ensures within { IfSome result (λ place. place < length marked.now.items) }
    ensures some { IfSome result (λ place. number_in marked.now.items place ≡ number) }
    ensures none { IfNone result (¬ IsMarked marked.now.items number) }
{
    for step in 0..STEPS {
        let place = looked_at(table, number, step) as usize;
        if place == 0 {
            return None;
        }
        if number_at(marked, place - 1) == number {
            return Some(place - 1);
        }
    }
    None
}

/// Puts the places of all numbers that are marked into an empty table, unless one of them finds no
/// slot.
fn fill(table: &mut Vec<u32>, marked: &Vec<Marked>) -> bool
    requires some { 0 < length table.old.items }
    requires few { length table.old.items < 2 ^ 32 }
    requires most { length marked.now.items ≤ 2 ^ 31 }
    requires empty { (i : ℕ) → slice_index_or table.old.items i 0 ≡ 0 }
    ensures { result ≡ true → AreFew table.new.items marked.now.items }
{
    for place in 0..marked.len() {
        if !put(table, number_at(marked, place), place as u32) {
            return false;
        }
    }
    true
}

/// A bit for each number below a bound, set for those that are marked.
fn bits_of(alloc: Global, marked: &Vec<Marked>, bound: u32) -> Result<Vec<u64>, AllocError>
    requires { (n : ℕ) → IsMarked marked.now.items n → n < bound }
    ensures { IfOk result (λ bits. AreBits bound bits.items marked.now.items) }
{
    let mut bits = vec![in alloc; 0; bound as usize / 64 + 1]?;
    for place in 0..marked.len() {
        set_bit(&mut bits, number_at(marked, place));
    }
    Ok(bits)
}

/// What keeps all numbers that are marked, once a table of so many slots cannot: a larger table and
/// no bits; or, if that were large, or a number found no slot in it, no table and the bits.
fn grown(
    alloc: Global,
    marked: &Vec<Marked>,
    slots: usize,
    bound: u32,
) -> Result<(Vec<u32>, Vec<u64>), AllocError>
    requires slots { slots < 2 ^ 32 }
    requires within { (n : ℕ) → IsMarked marked.now.items n → n < bound }
    ensures { IfOk result (λ both. AreHeld bound both.0.items both.1.items marked.now.items) }
{
    let slots = (slots * GROWTH).max(LEAST);
    if slots <= bound as usize / SHARE && marked.len() <= slots / 2 {
        let mut table = vec![in alloc; 0; slots]?;
        if fill(&mut table, marked) {
            return Ok((table, Vec::new(alloc)));
        }
    }
    let bits = bits_of(alloc, marked, bound)?;
    Ok((Vec::new(alloc), bits))
}
