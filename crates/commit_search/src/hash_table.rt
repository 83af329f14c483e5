//! A hash table of numbers: which slots a number may stand in.

ghost use Rattle.std.specs.Prelude.{◌≡◌, ◌^◌, ◌<◌, true, false, length};
ghost use Rattle.commit_search.specs.HashTable.{slot_in, looked_at, Puts};
ghost use Rattle.commit_search.specs.declared.hash_table.TheConstants.{STEPS};

/// In how many slots a number may stand: in that of its last bits, or in one of those after it.
pub(crate) const STEPS: usize = 64;

/// The slot of a table of so many in which a number is looked for after so many steps.
fn slot_of(number: u32, step: usize, slots: usize) -> usize
    requires some { 0 < slots }
    requires step { step < STEPS }
    ensures slot { result ≡ slot_in slots number step }
    ensures within { result < slots }
{
    (number as usize + step) & (slots - 1)
}

/// What stands in that slot.
pub(crate) fn looked_at(table: &Vec<u32>, number: u32, step: usize) -> u32
    requires some { 0 < length table.now.items }
    requires step { step < STEPS }
    ensures { result ≡ looked_at table.now.items number step }
{
    table[slot_of(number, step, table.len())]
}

/// Puts the place of a number into the first slot of a table that is empty, of those in which it
/// may stand.
pub(crate) fn put(table: &mut Vec<u32>, number: u32, place: u32) -> bool
    requires some { 0 < length table.old.items }
    requires place { place < 2 ^ 31 }
    ensures done { result ≡ true → Puts table.old.items table.new.items number place }
    ensures full { result ≡ false → table.new.items ≡ table.old.items }
{
    for step in 0..STEPS {
        if looked_at(table, number, step) == 0 {
            let slot = slot_of(number, step, table.len());
            table[slot] = place + 1;
            return true;
        }
    }
    false
}
