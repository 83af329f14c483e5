//! Numbers in the order in which they were added, and the place of each, by a hash table.

ghost use Rattle.std.specs.Prelude.{◌≡◌, ◌^◌, ◌<◌, ◌≤◌, ◌++◌, ◌∷◌, [], ℕ, IfNone, IfOk};
ghost use Rattle.std.specs.Prelude.{IfSome, OnErr, OnOk, true, length, slice_index_or};
ghost use Rattle.commit_search.specs.Places.{IsListed};
ghost use Rattle.commit_search.specs.HashTable.{HasPlacesOf};

use crate::hash_table::{STEPS, looked_at, put};
use std::alloc::{AllocError, Global};
use std::marker::Model;

/// How many slots a table has at least.
const LEAST: usize = 1024;

/// At how many slots a table no longer grows.
const MOST: usize = 1 << 31;

/// Numbers in the order in which they were added, with the place of each. A contract sees their
/// list.
///
/// Numbers near to each other come to slots near to each other, and as many slots as the highest
/// number keep all of them apart.
#[derive(Drop)]
pub struct Places {
    alloc: Global,
    /// A hash table. A slot has 0, or one more than the place of a number in the list.
    table: Vec<u32>,
    numbers: Vec<u32>,
}

impl Model for Places {
    ghost use Rattle.std.specs.Prelude.{ℕ, List};
    ghost use Rattle.commit_search.specs.HashTable.{HasPlacesOf};

    ghost Value = { List ℕ };

    ghost view = { λ a. a.numbers.items };

    ghost invariant = { λ a. HasPlacesOf a.table.items a.numbers.items };
}

impl Places {
    /// No numbers. Nothing is allocated.
    pub fn new(alloc: Global) -> Places
        ensures { result ≡ [] }
    {
        Places {
            alloc,
            table: Vec::new(alloc),
            numbers: Vec::new(alloc),
        }
    }

    /// The place of a number in the list, if it is there.
    pub fn place_of(&self, number: u32) -> Option<usize>
        ensures within { IfSome result (λ place. place < length self.now) }
        ensures some { IfSome result (λ place. slice_index_or self.now place 0 ≡ number) }
        ensures none { IfNone result (¬ IsListed self.now number) }
    {
        if self.table.is_empty() {
            return None;
        }
        found(&self.table, &self.numbers, number)
    }

    /// Adds a number.
    ///
    /// # Errors
    ///
    /// An allocation failed, or too many numbers stand near to this one. The list is as before.
    pub fn push(&mut self, number: u32) -> Result<(), AllocError>
        ensures added { OnOk result (self.new ≡ self.old ++ number ∷ []) }
        ensures same { OnErr result (self.new ≡ self.old) }
    {
        let place = self.numbers.len();
        self.numbers.push(number)?;
        if place < self.table.len() / 2 && put(&mut self.table, number, place as u32) {
            return Ok(());
        }
        match table_of(self.alloc, &self.numbers, self.table.len()) {
            Ok(table) => {
                self.table = table;
                Ok(())
            }
            Err(error) => {
                self.numbers.pop();
                Err(error)
            }
        }
    }

    /// Forgets all numbers.
    pub fn clear(&mut self)
        ensures { self.new ≡ [] }
    {
        self.table.clear();
        self.numbers.clear();
    }
}

/// The number at a place.
fn number_at(numbers: &Vec<u32>, place: usize) -> u32
    requires { place < length numbers.now.items }
    ensures { result ≡ slice_index_or numbers.now.items place 0 }
{
    numbers[place]
}

/// The place of a number, as a table says.
fn found(table: &Vec<u32>, numbers: &Vec<u32>, number: u32) -> Option<usize>
    requires some { 0 < length table.now.items }
    requires listed { HasPlacesOf table.now.items numbers.now.items }
    ensures within { IfSome result (λ place. place < length numbers.now.items) }
    ensures some { IfSome result (λ place. slice_index_or numbers.now.items place 0 ≡ number) }
    ensures none { IfNone result (¬ IsListed numbers.now.items number) }
{
    for step in 0..STEPS {
        let place = looked_at(table, number, step) as usize;
        if place == 0 {
            return None;
        }
        if number_at(numbers, place - 1) == number {
            return Some(place - 1);
        }
    }
    None
}

/// Puts the places of all numbers into an empty table, unless one of them finds no slot.
fn fill(table: &mut Vec<u32>, numbers: &Vec<u32>) -> bool
    requires some { 0 < length table.old.items }
    requires few { length table.old.items < 2 ^ 32 }
    requires most { length numbers.now.items ≤ 2 ^ 31 }
    requires empty { (i : ℕ) → slice_index_or table.old.items i 0 ≡ 0 }
    ensures { result ≡ true → HasPlacesOf table.new.items numbers.now.items }
{
    for place in 0..numbers.len() {
        if !put(table, number_at(numbers, place), place as u32) {
            return false;
        }
    }
    true
}

/// A table for all numbers, with more slots than this, and twice as many as there are numbers.
fn table_of(alloc: Global, numbers: &Vec<u32>, slots: usize) -> Result<Vec<u32>, AllocError>
    requires { slots < 2 ^ 32 }
    ensures { IfOk result (λ table. HasPlacesOf table.items numbers.now.items) }
{
    let mut slots = slots.max(LEAST / 2);
    while slots < MOST {
        slots *= 2;
        let mut table = vec![in alloc; 0; slots]?;
        if numbers.len() <= slots / 2 && fill(&mut table, numbers) {
            return Ok(table);
        }
    }
    Err(AllocError)
}
