//! Marks of numbers of which there is a bit for each.

ghost use Rattle.std.specs.Prelude.{◌≡◌, ◌↔◌, ◌*◌, ◌<◌, ◌++◌, ◌∷◌, [], List, IsTrue, length};
ghost use Rattle.commit_search.specs.Marks.{Marked, AreMarks, bit_of};

use crate::marks::{Marked, Marks};
use std::alloc::{AllocError, Global};
use std::marker::Model;

/// Marks that take a bit for each number below the bound.
#[derive(Drop)]
pub struct BitMarks {
    /// A bit for each number, 64 in a word, which is set where the number is marked.
    bits: Vec<u64>,
    marked: Vec<Marked>,
}

impl Model for BitMarks {
    ghost use Rattle.commit_search.specs.Marks.{Marking, marking_of, AreMarks};

    ghost Value = { Marking };

    ghost view = { λ a. marking_of a.bits.items a.marked.items };

    ghost invariant = { λ a. AreMarks a.bits.items a.marked.items };
}

impl Marks for BitMarks {
    ghost marking = { λ marking. marking };

    fn new(alloc: Global) -> Self {
        BitMarks {
            bits: Vec::new(alloc),
            marked: Vec::new(alloc),
        }
    }

    fn grow_to(&mut self, bound: u32) -> Result<(), AllocError> {
        let words = bound as usize / 64 + 1;
        if self.bits.len() < words {
            self.bits.resize(words, 0)?;
        }
        Ok(())
    }

    fn is_marked(&self, number: u32) -> bool {
        is_set(&self.bits, number)
    }

    fn set(&mut self, number: u32, mark: u32) -> Result<(), AllocError> {
        self.marked.push(Marked { number, mark })?;
        set_bit(&mut self.bits, number);
        Ok(())
    }

    fn len(&self) -> usize {
        self.marked.len()
    }

    fn number_at(&self, place: usize) -> u32 {
        self.marked[place].number
    }

    fn mark_at(&self, place: usize) -> u32 {
        self.marked[place].mark
    }

    fn clear(&mut self) {
        while let Some(marked) = self.marked.pop() {
            self.bits[marked.number as usize / 64] = 0;
        }
    }
}

/// Whether the bit of a number is set.
pub(crate) fn is_set(bits: &Vec<u64>, number: u32) -> bool
    requires { number < 64 * length bits.now.items }
    ensures { IsTrue result ↔ (bit_of bits.now.items number ≡ 1) }
{
    let word = bits[number as usize / 64];
    (word >> (number % 64)) & 1 == 1
}

/// Sets the bit of a number, which is marked after all others.
pub(crate) fn set_bit(bits: &mut Vec<u64>, number: u32)
    requires { number < 64 * length bits.old.items }
    ensures len { length bits.new.items ≡ length bits.old.items }
    ensures marks { (marked : List Marked) (one : Marked) → one.number ≡ number
        → AreMarks bits.old.items marked → AreMarks bits.new.items (marked ++ one ∷ []) }
{
    bits[number as usize / 64] |= 1 << (number % 64);
}
