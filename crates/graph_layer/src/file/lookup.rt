//! Lookup of an id by the fan.

ghost use Rattle.std.specs.Prelude.{◌≡◌, ℕ, ◌-◌, ◌<◌, ◌≤◌, length, slice_index, slice_get, Some};
ghost use Rattle.std.specs.Prelude.{OnSome};
ghost use Rattle.gix_hash_core.specs.Kind.{id_len};
ghost use Rattle.gix_hash_core.specs.Oid.{oid_bytes};
ghost use Rattle.graph_format.specs.Lookup.{Found, file_position_number, bucket_start, bucket_size};
ghost use Rattle.graph_format.specs.Lookup.{digits};

use crate::file::compare::compare_ids;
use crate::file::{File, Position};
use gix_hash_core::{Kind, oid};
use graph_format::fan::fan_at;
use std::cmp::Ordering;

#[tactic(auto, using(crate::proofs::BucketLemmas::bucket_laws))]
impl File {
    /// The position of an id. The first byte of the id names the positions that are searched: from
    /// the number that the fan has at the byte before it, 0 for the byte 0, up to but not including
    /// the number that it has at the byte.
    ///
    /// A position that is answered always holds the id. Where the ids strictly ascend and the fan
    /// is exact, the answer is `None` only for an id that is not in the layer. Opening checks
    /// neither, so in a damaged file an id that is there may be missed, and it is left open which
    /// of several equal ids is found. See "OID Fanout" and "OID Lookup" of Git's commit-graph
    /// format.
    pub fn lookup(&self, id: oid<'_>) -> Option<Position>
        ensures { Found self.now (oid_bytes id.entry) (file_position_number result) }
    {
        self.lookup_counted(id).0
    }

    /// An answer as `lookup` gives it, and how many times the id was compared with an id of
    /// the file. One comparison has one of three outcomes: less, equal or greater. An id of another
    /// kind is compared with none.
    pub fn lookup_counted(&self, id: oid<'_>) -> (Option<Position>, u32)
        ensures found { Found self.now (oid_bytes id.entry) (file_position_number result.0) }

        // At most as many comparisons as the size of the id's bucket has binary digits.
        ensures most { result.1 ≤ digits
            (bucket_size self.now.fan (slice_index (oid_bytes id.entry) 0)) }
        ensures least { OnSome result.0 (1 ≤ result.1) }
    {
        match id.kind() {
            Kind::Sha1 => self.lookup_of_kind(id, Kind::Sha1),
            Kind::Sha256 => self.lookup_of_kind(id, Kind::Sha256),
        }
    }

    /// The answer of `lookup_counted` for an id of this kind. It is compiled into its callers:
    /// where these name the kind, the number of an id's bytes is a constant.
    #[inline(always)]
    pub(crate) fn lookup_of_kind(&self, id: oid<'_>, kind: Kind) -> (Option<Position>, u32)
        requires { length (oid_bytes id) ≡ id_len kind }
        ensures found { Found self.now (oid_bytes id.entry) (file_position_number result.0) }
        ensures most { result.1 ≤ digits
            (bucket_size self.now.fan (slice_index (oid_bytes id.entry) 0)) }
        ensures least { OnSome result.0 (1 ≤ result.1) }
    {
        let wanted = id.as_bytes();
        let size = kind.len_in_bytes();
        let mut comparisons = 0;
        let shared = self.shared();
        if shared.layout.kind.len_in_bytes() != size {
            return (None, comparisons);
        }
        let bytes = shared.bytes.as_slice();
        let ids = shared.layout.chunks.ids.start;
        let (low, high) = self.bucket(wanted[0]);
        // So many ids are left, the first of which begins at `first`. Before the middle one there
        // are `left / 2`, and after it `(left - 1) / 2`.
        let mut left = (high - low) as usize;
        let mut first = ids + size * low as usize;
        while left > 0 {
            let middle = first + size * (left / 2);
            let other = &bytes[middle..middle + size];
            comparisons += 1;
            match compare_ids(wanted, other) {
                Ordering::Less => {}
                Ordering::Equal => {
                    let pos = (middle - ids) / size;
                    return (Some(Position(pos as u32)), comparisons);
                }
                Ordering::Greater => {
                    first = middle + size;
                    left -= 1;
                }
            }
            left /= 2;
        }
        (None, comparisons)
    }

    /// The first position of the bucket of a byte, and the first past it.
    fn bucket(&self, byte: u8) -> (u32, u32)
        ensures start { result.0 ≡ bucket_start self.now.fan byte }
        ensures end { result.1 ≡ slice_index self.now.fan byte }
        ensures order { result.0 ≤ result.1 }
        ensures within { result.1 ≤ length self.now.ids }
    {
        let end = self.fan_number(byte);
        if byte == 0 {
            (0, end)
        } else {
            (self.fan_number(byte - 1), end)
        }
    }

    /// The number that the fan has at a byte.
    pub(super) fn fan_number(&self, byte: u8) -> u32
        ensures number { result ≡ slice_index self.now.fan byte }
        ensures rises { 0 < byte → slice_index self.now.fan (byte - 1) ≤ result }
        ensures within { result ≤ length self.now.ids }
    {
        let shared = self.shared();
        fan_at(
            shared.bytes.as_slice(),
            shared.layout.chunks.fan,
            byte as usize,
        )
    }

    /// The bytes of the id at a position, where ids have so many bytes.
    pub(super) fn id_bytes_at(&self, pos: u32, size: usize) -> &[u8]
        requires within { pos < length self.now.ids }
        requires size { size ≡ id_len self.now.kind }
        ensures id { slice_get self.now.ids pos ≡ Some result.now }
        ensures len { length result.now ≡ size }
    {
        let bytes = self.shared.bytes.as_slice();
        let start = self.shared.layout.chunks.ids.start + size * pos as usize;
        &bytes[start..start + size]
    }
}
