//! The search for an id among those that begin with the same byte.

ghost use Rattle.std.specs.Prelude.{◌≡◌, ◌-◌, ◌*◌, ◌<◌, ◌≤◌, ℕ, List, length, option_map, IfSome};
ghost use Rattle.std.specs.Prelude.{OnSome};
ghost use Rattle.graph_format.specs.Layer.{Layer};
ghost use Rattle.graph_format.specs.Lookup.{Found, digits};
ghost use Rattle.graph_find.specs.Bucket.{IsBucket};

use crate::head::Span;
use std::cmp::Ordering;

/// The position of an id, by the ids of its bucket, one after another, and how many of them it was
/// compared with.
pub(crate) fn find_in_bucket(ids: &[u8], span: Span, wanted: &[u8]) -> (Option<u32>, u32)
    requires order { span.start ≤ span.end }
    requires room { length ids.now ≡ length wanted.now * (span.end - span.start) }
    ensures within { IfSome result.0 (λ pos. pos < span.end) }
    ensures from { IfSome result.0 (λ pos. span.start ≤ pos) }
    ensures found { (layer : Layer) → IsBucket layer wanted.now span.start span.end ids.now
        → Found layer wanted.now result.0 }

    // At most as many comparisons as the size of the bucket has binary digits.
    ensures most { result.1 ≤ digits (span.end - span.start) }
    ensures least { OnSome result.0 (1 ≤ result.1) }
{
    let size = wanted.len();
    let (mut low, mut high) = (span.start, span.end);
    let mut comparisons = 0;
    while low < high {
        let middle = low + (high - low) / 2;
        let start = size * (middle - span.start) as usize;
        comparisons += 1;
        match wanted.cmp(&ids[start..start + size]) {
            Ordering::Less => high = middle,
            Ordering::Equal => return (Some(middle), comparisons),
            Ordering::Greater => low = middle + 1,
        }
    }
    (None, comparisons)
}
