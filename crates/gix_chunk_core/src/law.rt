//! Laws of the first fault, and of the table of chunks.

ghost use Rattle.std.specs.Prelude.{◌≡◌, ◌<◌, ◌≤◌, ◌↔◌, ℕ, List, length, Option, Some, None};
ghost use Rattle.std.specs.Prelude.{Contains};
ghost use Rattle.gix_chunk_core.specs.Entry.{end_id};
ghost use Rattle.gix_chunk_core.specs.Fault.{table_fault};
ghost use Rattle.gix_chunk_core.specs.FirstFault.{first_below, IsLeastGiving};
ghost use Rattle.gix_chunk_core.specs.Table.{Table, Chunks, range_of};

/// Of the conditions at the numbers below `n`, the one at the least number that gives a fault is
/// the first; where none gives one, there is no first.
#[tactic(auto, using(crate::proofs::FirstFaultLemmas::least_laws))]
pub fn first_is_at_the_least_number<T>()
    ensures some { (f : ℕ → Option T) (n : ℕ) (x : T)
        → (first_below f n ≡ Some x) ↔ ((i : ℕ) × IsLeastGiving f n i x) }
    ensures none { (f : ℕ → Option T) (n : ℕ) → (first_below f n ≡ None)
        ↔ ((i : ℕ) → i < n → f i ≡ None) }
{}

/// Bytes have a table of so many chunks at an offset exactly where no condition refuses it, and
/// they then have one such table alone.
#[tactic(auto, using(crate::proofs::TableLemmas::decided_laws))]
pub fn tables_are_read_or_refused()
    ensures decided { (bytes : List ℕ) (at count : ℕ)
        → (table_fault bytes at count ≡ None) ↔ ((table : Table) × Chunks bytes at count table) }
    ensures one { (bytes : List ℕ) (at count : ℕ) (table other : Table)
        → Chunks bytes at count table → Chunks bytes at count other → table ≡ other }
{}

/// In the table of chunks of some bytes, what is found for an id is where the chunk with that id
/// lies, within the bytes; and the id 0 is never found.
#[tactic(auto, using(crate::proofs::TableLemmas::found_laws))]
pub fn chunks_are_found_by_id()
    ensures found { (bytes : List ℕ) (at count : ℕ) (table : Table) (id : List ℕ) (start end : ℕ)
        → Chunks bytes at count table
        → (range_of table id ≡ Some (start, end))
        ↔ Contains table.chunks (record { id = id; start = start; end = end }) }
    ensures end_id { (bytes : List ℕ) (at count : ℕ) (table : Table)
        → Chunks bytes at count table → range_of table end_id ≡ None }
    ensures within { (bytes : List ℕ) (at count : ℕ) (table : Table) (id : List ℕ) (start end : ℕ)
        → Chunks bytes at count table → range_of table id ≡ Some (start, end)
        → (start ≤ end) × (end ≤ table.end) × (table.end ≤ length bytes) }
{}
