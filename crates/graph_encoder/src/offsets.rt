//! How far corrected dates are past the times of their commits. (gitformat-commit-graph,
//! "Generation Data" and "Generation Data Overflow".)

ghost use Rattle.std.specs.Prelude.{◌≡◌, ◌+◌, ◌<◌, ◌≤◌, ◌++◌, ◌↔◌, IsTrue, OnOk, length};
ghost use Rattle.std.specs.Prelude.{if◌then◌else◌, [], unwrap_or};
ghost use Rattle.graph_encoder.specs.ExtraEdges.{top_bit};
ghost use Rattle.graph_encoder.specs.DateOffsets.{is_large, large_offsets, offset_words};
ghost use Rattle.graph_encoder.specs.DateOffsets.{offsets_of};
ghost use Rattle.graph_encoder.specs.Written.{words_bytes, longs_bytes};

use crate::push::{push_long, push_word};
use crate::view::PlanView;
use graph_format::parents::TOP_BIT;
use std::alloc::AllocError;

/// An offset from this one on has no room beside a word's top bit.
const LARGE_OFFSET: u64 = 0x80000000;

/// Whether the offset stands in "Generation Data Overflow".
fn is_large(offset: u64) -> bool
    ensures { result ≡ is_large offset }
{
    offset >= LARGE_OFFSET
}

/// How many of the offsets stand there.
pub(crate) fn count_large(offsets: &[u64]) -> usize
    requires { length offsets.now < top_bit }
    ensures { result ≡ length (large_offsets offsets.now) }
{
    let mut count = 0;
    for offset in offsets {
        count += usize::from(is_large(*offset));
    }
    count
}

/// The word of an offset, before which so many large ones come.
fn word_of(offset: u64, index: u32) -> u32
    requires { index < top_bit }
    ensures { result ≡ (if is_large offset then top_bit + index else offset) }
{
    if is_large(offset) {
        TOP_BIT + index
    } else {
        offset as u32
    }
}

/// Adds a word for each of these offsets.
pub(crate) fn push_offset_words(file: &mut Vec<u8>, offsets: &[u64]) -> Result<(), AllocError>
    requires { length offsets.now < top_bit }
    ensures { OnOk result (file.new.items
        ≡ file.old.items ++ words_bytes (offset_words offsets.now)) }
{
    let mut index = 0;
    for offset in offsets {
        push_word(file, word_of(*offset, index))?;
        index += u32::from(is_large(*offset));
    }
    Ok(())
}

/// Adds the large ones of these offsets.
pub(crate) fn push_large_offsets(file: &mut Vec<u8>, offsets: &[u64]) -> Result<(), AllocError>
    ensures { OnOk result (file.new.items
        ≡ file.old.items ++ longs_bytes (large_offsets offsets.now)) }
{
    for offset in offsets {
        if is_large(*offset) {
            push_long(file, *offset)?;
        }
    }
    Ok(())
}

/// The offsets of a plan, none of them where it has no dates.
pub(crate) fn offsets_or_none<P: PlanView>(plan: &P) -> &[u64]
    ensures { result.now ≡ unwrap_or (offsets_of (P.as_plan plan.now)) [] }
{
    match plan.offsets() {
        Some(offsets) => offsets,
        None => &[],
    }
}
