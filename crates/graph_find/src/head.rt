//! The first bytes of a file.

ghost use Rattle.std.specs.Prelude.{◌≡◌, ◌<◌, ◌≤◌, ℕ, List, length, slice_index, take, IfSome};
ghost use Rattle.std.specs.Prelude.{IsTrue};
ghost use Rattle.graph_format.specs.Format.{fan_of};
ghost use Rattle.graph_format.specs.Head.{BeginsWith};
ghost use Rattle.graph_find.specs.ReadHead.{IsHead, LieInOrder, IsBucketSpan};

use gix_commitgraph::MAX_COMMITS;
use graph_format::chunks::record_len;
use graph_format::integers::word_at;
use graph_format::layout::{Layout, layout_of_head};

/// The first bytes of a file, up to the end of its fan, and where its parts lie.
#[derive(Drop)]
pub struct Head {
    /// The first bytes.
    pub front: Vec<u8>,
    /// How many bytes the file has.
    pub len: usize,
    /// Where its parts lie.
    pub layout: Layout,
}

/// The positions of the ids that begin with one byte: from `start` up to but not including `end`.
#[derive(Clone, Copy)]
pub struct Span {
    /// The first of them.
    pub start: u32,
    /// The one after the last.
    pub end: u32,
}

/// The head of a file that has `len` bytes and begins with these, if it is accepted, and its fan,
/// its ids and its records lie in that order.
pub(crate) fn head_of(front: Vec<u8>, len: usize) -> Option<Head>
    requires { length front.items ≤ len }
    ensures head { IfSome result IsHead }
    ensures begins { IfSome result (λ head. (file : List ℕ) → BeginsWith file front.items len
        → BeginsWith file head.front.items head.len) }
    ensures first { IfSome result (λ head. (head.len ≡ len)
        × (take (length head.front.items) front.items ≡ head.front.items)) }
{
    let mut front = front;
    let Ok(Some(first)) = layout_of_head(&front, len) else {
        return None;
    };
    front.truncate(first.chunks.fan.end);
    let Ok(Some(layout)) = layout_of_head(&front, len) else {
        return None;
    };
    if is_in_order(&layout, front.len(), len) {
        Some(Head { front, len, layout })
    } else {
        None
    }
}

/// Whether the ids follow these first bytes, and the records the ids, within so many bytes.
fn is_in_order(layout: &Layout, front_len: usize, len: usize) -> bool
    ensures { IsTrue result → LieInOrder layout.now front_len len }
{
    let commits = layout.commits as usize;
    let ids = layout.chunks.ids.start;
    let records = layout.chunks.records.start;
    let ids_end = ids.saturating_add(layout.kind.len_in_bytes() * commits);
    let records_end = records.saturating_add(record_len(layout.kind) * commits);
    layout.commits <= MAX_COMMITS
        && front_len <= ids
        && ids_end <= records
        && ids_end < usize::MAX
        && records_end <= len
        && records_end < usize::MAX
}

impl Head {
    /// The number of the fan at a byte.
    #[tactic(auto, using(crate::proofs::HeadLemmas::fan_laws))]
    fn fan_number(&self, byte: usize) -> u32
        requires head { IsHead self.now }
        requires within { byte < 256 }
        ensures { (file : List ℕ) → BeginsWith file self.now.front.items self.now.len
            → result ≡ slice_index (fan_of file) byte }
    {
        word_at(&self.front, self.layout.chunks.fan.start + 4 * byte)
    }

    /// The positions of the ids that begin with a byte.
    pub fn span(&self, byte: u8) -> Span
        requires { IsHead self.now }
        ensures fan { (file : List ℕ) → BeginsWith file self.now.front.items self.now.len
            → IsBucketSpan (fan_of file) byte result }
    {
        let end = self.fan_number(byte as usize);
        let start = if byte == 0 {
            0
        } else {
            self.fan_number(byte as usize - 1)
        };
        Span { start, end }
    }
}
