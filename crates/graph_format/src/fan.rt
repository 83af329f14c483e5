//! The fan of a file: for each first byte how many ids begin with it or a lesser one.

ghost use Rattle.std.specs.Prelude.{◌≡◌, ◌+◌, ◌<◌, ◌≤◌, length, slice_index};
ghost use Rattle.gix_chunk_core.specs.FirstBytes.{filled};
ghost use Rattle.graph_format.specs.Reports.{Reports};
ghost use Rattle.graph_format.specs.Format.{fan_of, fan_id};
ghost use Rattle.graph_format.specs.Refusal.{falling_refusal};
ghost use Rattle.graph_format.specs.ChunkRanges.{IsChunkAt};

use crate::chunks::ChunkRange;
use crate::error::FileError;
use crate::integers::word_at;

/// The number at a place of the fan.
#[tactic(auto, using(gix_chunk_core::proofs::HeadLemmas::whole_laws))]
pub fn fan_at(bytes: &[u8], fan: ChunkRange, i: usize) -> u32
    requires place { IsChunkAt bytes.now fan_id fan }
    requires size { fan.end ≡ fan.start + 1024 }
    requires within { i < 256 }
    ensures { result ≡ slice_index (fan_of bytes.now) i }
{
    fan_at_head(bytes, bytes.len(), fan, i)
}

/// The number at a place of the fan of a file that has `len` bytes, and begins with these.
#[tactic(auto, using(crate::proofs::FanLemmas::fan_laws, gix_chunk_core::proofs::HeadLemmas::head_laws))]
pub(crate) fn fan_at_head(front: &[u8], len: usize, fan: ChunkRange, i: usize) -> u32
    requires place { IsChunkAt (filled front.now len) fan_id fan }
    requires size { fan.end ≡ fan.start + 1024 }
    requires front { fan.end ≤ length front.now }
    requires within { i < 256 }
    ensures { result ≡ slice_index (fan_of (filled front.now len)) i }
{
    word_at(front, fan.start + 4 * i)
}

/// Refuses a fan that falls.
#[tactic(auto, using(crate::proofs::FanLemmas::first_laws), unfolding(crate::specs::Refusal::falling_refusal))]
pub(crate) fn check_rising(front: &[u8], len: usize, fan: ChunkRange) -> Result<(), FileError>
    requires place { IsChunkAt (filled front.now len) fan_id fan }
    requires size { fan.end ≡ fan.start + 1024 }
    requires front { fan.end ≤ length front.now }
    ensures { Reports result (falling_refusal (fan_of (filled front.now len))) }
{
    for i in 0..255 {
        if fan_at_head(front, len, fan, i + 1) < fan_at_head(front, len, fan, i) {
            return Err(FileError::FanFalls { at: i as u8 + 1 });
        }
    }
    Ok(())
}
