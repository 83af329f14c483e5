//! How ids compare.

ghost use Rattle.std.specs.Prelude.{◌≡◌, ◌≤◌, length};
ghost use Rattle.std.specs.Ordering.{nat_cmp};
ghost use Rattle.std.specs.Cmp.Lexicographic.{slice_cmp};

use graph_format::integers::long_at;
use std::cmp::Ordering;

/// How two ids compare. Eight bytes at a time are compared as numbers, of which the first hardly
/// ever agree. The last eight bytes may overlap those before.
#[inline(always)]
pub fn compare_ids(one: &[u8], other: &[u8]) -> Ordering
    requires one { 8 ≤ length one.now }
    requires same { length one.now ≡ length other.now }
    ensures { result ≡ slice_cmp nat_cmp one.now other.now }
{
    let (first, second) = (long_at(one, 0), long_at(other, 0));
    if first < second {
        return Ordering::Less;
    }
    if second < first {
        return Ordering::Greater;
    }
    let last = one.len() - 8;
    let mut at = 8;
    while at < last {
        let found = long_at(one, at).cmp(&long_at(other, at));
        if found.is_ne() {
            return found;
        }
        at += 8;
    }
    long_at(one, last).cmp(&long_at(other, last))
}
