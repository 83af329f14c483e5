//! The changed-path filters of commits that are handed in, in one allocation for all of them.
//! ("Bloom Filter Index" and "Bloom Filter Data".)

ghost use Rattle.std.specs.Prelude.{◌≡◌, ◌+◌, ◌<◌, ◌^◌, ◌↔◌, ℕ, IsTrue, IfOk, OnOk, OnErr, All};
ghost use Rattle.std.specs.Prelude.{length};
ghost use Rattle.graph_encoder.specs.Written.{numbers_before};
ghost use Rattle.graph_levels.specs.ListEnds.{HasEnds, start_in};

use graph_encoder::{FilterNumbers, PlanFilters};
use std::alloc::{AllocError, Global};

/// All filters of a file have fewer bytes than this, since where one ends stands in four.
const ROOM: usize = 0x100000000;

/// The changed-path filters of some commits, one for each. They have fewer than 2^32 bytes
/// together.
#[derive(Debug, Drop)]
pub struct NewFilters {
    pub(crate) parts: PlanFilters,
    ghost whole: { HasEnds parts.bytes.items parts.ends.items },
    ghost few: { length parts.bytes.items < 2 ^ 32 },
    ghost fit: { All (λ n. n < 2 ^ 32) (numbers_before parts.numbers) },
}

/// Three numbers, of which each fits in four bytes.
fn numbers_of(version: u32, hashes: u32, bits_per_entry: u32) -> FilterNumbers
    ensures fit { All (λ n. n < 2 ^ 32) (numbers_before result) }
    ensures version { result.version ≡ version }
    ensures hashes { result.hashes ≡ hashes }
    ensures bits { result.bits_per_entry ≡ bits_per_entry }
{
    FilterNumbers {
        version,
        hashes,
        bits_per_entry,
    }
}

impl NewFilters {
    ghost use Rattle.graph_writer.specs.NewFilters.{filter_numbers, filter_count, new_filter};
    ghost use Rattle.graph_writer.specs.NewFilters.{byte_count};
    ghost use Rattle.graph_writer.specs.FiltersInOrder.{AreFiltersInOrder};
    ghost use Rattle.graph_writer.specs.SortedPlaces.{IsMixed};

    /// No filters yet. These numbers are to stand before them.
    pub fn new(alloc: Global, numbers: FilterNumbers) -> NewFilters
        ensures none { filter_count result ≡ 0 }
        ensures empty { byte_count result ≡ 0 }
        ensures numbers { filter_numbers result ≡ numbers }
    {
        let FilterNumbers {
            version,
            hashes,
            bits_per_entry,
        } = numbers;
        NewFilters {
            parts: PlanFilters {
                numbers: numbers_of(version, hashes, bits_per_entry),
                ends: Vec::new(alloc),
                bytes: Vec::new(alloc),
            },
        }
    }

    /// No filters yet, with room for so many, which have so many bytes together.
    fn with_room(
        alloc: Global,
        numbers: FilterNumbers,
        filters: usize,
        bytes: usize,
    ) -> Result<NewFilters, AllocError>
        ensures none { IfOk result (λ made. filter_count made ≡ 0) }
        ensures empty { IfOk result (λ made. byte_count made ≡ 0) }
        ensures numbers { IfOk result (λ made. filter_numbers made ≡ numbers) }
    {
        let mut made = NewFilters::new(alloc, numbers);
        made.parts.ends.reserve(filters)?;
        made.parts.bytes.reserve(bytes)?;
        Ok(made)
    }

    /// How many filters there are.
    pub fn len(&self) -> usize
        ensures { result ≡ filter_count self.now }
    {
        self.parts.ends.len()
    }

    /// Whether there is room for a filter of so many bytes.
    pub fn has_room(&self, bytes: usize) -> bool
        ensures { IsTrue result ↔ (byte_count self.now + bytes < 2 ^ 32) }
    {
        bytes < ROOM - self.parts.bytes.len()
    }

    /// Adds the filter of one more commit.
    ///
    /// # Errors
    ///
    /// `AllocError` where an allocation failed; the filters are as they were then.
    pub fn push(&mut self, filter: &[u8]) -> Result<(), AllocError>
        requires { byte_count self.old + length filter.now < 2 ^ 32 }
        ensures len { OnOk result (filter_count self.new ≡ filter_count self.old + 1) }
        ensures new { OnOk result (new_filter self.new (filter_count self.old) ≡ filter.now) }
        ensures bytes { OnOk result
            (byte_count self.new ≡ byte_count self.old + length filter.now) }
        ensures old { (i : ℕ) → i < filter_count self.old
            → new_filter self.new i ≡ new_filter self.old i }
        ensures numbers { filter_numbers self.new ≡ filter_numbers self.old }
        ensures none_new { OnErr result (filter_count self.new ≡ filter_count self.old) }
        ensures no_bytes { OnErr result (byte_count self.new ≡ byte_count self.old) }
    {
        self.parts.ends.reserve(1)?;
        self.parts.bytes.extend_from_slice(filter)?;
        self.parts.ends.push_reserved(self.parts.bytes.len() as u32);
        Ok(())
    }

    /// The bytes of the filter of this number.
    pub fn of(&self, number: usize) -> &[u8]
        requires { number < filter_count self.now }
        ensures { result.now ≡ new_filter self.now number }
    {
        let start = self.start_of(number);
        &self.parts.bytes[start..self.parts.ends[number] as usize]
    }

    /// Where the filter of this number begins.
    fn start_of(&self, number: usize) -> usize
        requires { number < filter_count self.now }
        ensures { result ≡ start_in self.now.parts.ends.items number }
    {
        if number == 0 {
            0
        } else {
            self.parts.ends[number - 1] as usize
        }
    }

    /// The filters in this order of their numbers.
    pub(crate) fn in_order(&self, alloc: Global, order: &[usize]) -> Result<NewFilters, AllocError>
        requires { IsMixed (filter_count self.now) order.now }
        ensures { IfOk result (AreFiltersInOrder order.now self.now) }
    {
        let bytes = self.parts.bytes.len();
        let mut sorted = NewFilters::with_room(alloc, self.parts.numbers, order.len(), bytes)?;
        for number in order {
            sorted.push(self.of(*number))?;
        }
        Ok(sorted)
    }
}
