//! The bits of filters.

ghost use Rattle.std.specs.Prelude.{◌≡◌, ◌<◌, ◌*◌, ◌^◌, ◌+◌, ◌/◌, ◌%◌, ◌⊎◌, ℕ, IfOk, length, map};
ghost use Rattle.std.specs.Prelude.{max};
ghost use Rattle.changed_paths.specs.Filter.{AllHit, bit_hit};
ghost use Rattle.path_filters.specs.Made.{IsFilterOf};
ghost use Rattle.path_filters.specs.Steps.{AreSet};

use changed_paths::murmur3::{ByteReading, murmur3};
use std::alloc::{AllocError, Global};

/// The filter of these paths: so many bits for each, and as many probes of each as there are
/// hashes.
pub(crate) fn filter_of(
    alloc: Global,
    reading: ByteReading,
    bits: u32,
    hashes: u32,
    paths: &[&[u8]],
) -> Result<Vec<u8>, AllocError>
    requires { length paths.now < 2 ^ 32 }
    ensures { IfOk result (λ filter. IsFilterOf reading bits hashes
        (map (λ path. path.now) paths.now) filter.items) }
{
    let mut filter = vec![in alloc; 0; size_of(bits, paths.len())]?;
    for path in paths {
        set_bits(&mut filter, reading, hashes, path);
    }
    Ok(filter)
}

/// How many bytes a filter of so many bits for each of so many paths has: at least one.
fn size_of(bits: u32, count: usize) -> usize
    requires { count < 2 ^ 32 }
    ensures size { result ≡ max 1 ((bits * count + 7) / 8) }
    ensures small { 8 * result < 2 ^ 64 }
{
    (bits as usize * count).div_ceil(8).max(1)
}

/// Sets the bits that the probes of a path are.
fn set_bits(filter: &mut [u8], reading: ByteReading, hashes: u32, path: &[u8])
    requires some { 0 < length filter.old }
    requires small { 8 * length filter.old < 2 ^ 64 }
    ensures hit { AllHit reading hashes filter.new path.now }
    ensures set { AreSet reading path.now hashes filter.old filter.new }
{
    let first = murmur3(reading, 0x293a_e76f, path);
    let step = murmur3(reading, 0x7e64_6e2c, path);
    for i in 0..hashes {
        set_bit(filter, first.wrapping_add(i.wrapping_mul(step)));
    }
}

/// Sets the bit that a probe is.
fn set_bit(filter: &mut [u8], probe: u32)
    requires some { 0 < length filter.old }
    requires small { 8 * length filter.old < 2 ^ 64 }
    ensures set { bit_hit filter.new probe ≡ 1 }
    ensures kept { (x : ℕ) → bit_hit filter.old x ≡ 1 → bit_hit filter.new x ≡ 1 }
    ensures no_others { (x : ℕ) → bit_hit filter.new x ≡ 1 → (bit_hit filter.old x ≡ 1)
        ⊎ (probe % (8 * length filter.old) ≡ x % (8 * length filter.old)) }
{
    let bit = probe as usize % (8 * filter.len());
    filter[bit / 8] |= 1 << (bit % 8);
}
