//! A path by which filters are asked.

ghost use Rattle.std.specs.Prelude.{◌≡◌, ◌*◌, ◌^◌, ◌<◌, length, true, false};
ghost use Rattle.changed_paths.specs.Filter.{bit_hit, AllHit, SomeMisses};
ghost use Rattle.changed_paths.specs.Key.{AreHashes};

use crate::murmur3::{ByteReading, murmur3};
use std::marker::Model;

/// Two hashes of a path, of which its probes are made: the first probe, and the step from one to
/// the next.
#[derive(Clone, Copy)]
pub(crate) struct Hashes {
    first: u32,
    step: u32,
}

/// A path with its hashes, made once to ask many filters. A contract sees it as the path's bytes.
///
/// Paths are bytes, with `/` between their parts and none at either end.
#[derive(Drop)]
pub struct PathKey<'a> {
    path: &'a [u8],
    signed: Hashes,
    unsigned: Hashes,
}

impl<'a> Model for PathKey<'a> {
    ghost use Rattle.std.specs.Prelude.{ℕ, List};
    ghost use Rattle.changed_paths.specs.Key.{AreHashes};
    ghost use Rattle.changed_paths.specs.declared.murmur3.ByteReading.TheVariants as reading;

    ghost Value = { List ℕ };

    ghost view = { λ a. a.path.now };

    ghost invariant = { λ a. AreHashes reading.Signed a.path.now a.signed
        × AreHashes reading.Unsigned a.path.now a.unsigned };
}

/// The hashes of a path.
fn hashes_of(reading: ByteReading, path: &[u8]) -> Hashes
    ensures { AreHashes reading path.now result }
{
    Hashes {
        first: murmur3(reading, 0x293a_e76f, path),
        step: murmur3(reading, 0x7e64_6e2c, path),
    }
}

/// Whether the bit of a filter that a probe hits is set.
#[tactic(auto, unfolding(crate::specs::Filter::bit_hit))]
fn is_hit(filter: &[u8], probe: u32) -> bool
    requires some { 0 < length filter.now }
    requires small { 8 * length filter.now < 2 ^ 64 }
    ensures set { result ≡ true → bit_hit filter.now probe ≡ 1 }
    ensures clear { result ≡ false → bit_hit filter.now probe ≡ 0 }
{
    let bit = probe as u64 % (8 * filter.len() as u64);
    (filter[(bit / 8) as usize] >> (bit % 8)) % 2 == 1
}

impl<'a> PathKey<'a> {
    /// The key of a path.
    pub fn new(path: &'a [u8]) -> PathKey<'a>
        ensures { result ≡ path.now }
    {
        PathKey {
            path,
            signed: hashes_of(ByteReading::Signed, path),
            unsigned: hashes_of(ByteReading::Unsigned, path),
        }
    }

    fn hashes(&self, reading: ByteReading) -> Hashes
        ensures { AreHashes reading self.now result }
    {
        match reading {
            ByteReading::Signed => self.signed,
            ByteReading::Unsigned => self.unsigned,
        }
    }

    /// Whether each of so many probes of the path, read this way, hits a bit of the filter that is
    /// set.
    #[tactic(auto, unfolding(crate::specs::Filter::AllHit, crate::specs::Filter::SomeMisses, crate::specs::Filter::probe))]
    pub(crate) fn all_hit(&self, reading: ByteReading, count: u32, filter: &[u8]) -> bool
        requires some { 0 < length filter.now }
        requires small { 8 * length filter.now < 2 ^ 64 }
        ensures hit { result ≡ true → AllHit reading count filter.now self.now }
        ensures missed { result ≡ false → SomeMisses reading count filter.now self.now }
    {
        let Hashes { first, step } = self.hashes(reading);
        for i in 0..count {
            if !is_hit(filter, first.wrapping_add(i.wrapping_mul(step))) {
                return false;
            }
        }
        true
    }
}
