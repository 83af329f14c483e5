//! The corrected commit dates that the chunks of a layer store ("Generation Data" and "Generation
//! Data Overflow" of Git's commit-graph format).

ghost use Rattle.std.specs.Prelude.{◌≡◌, ◌+◌, ◌*◌, ◌%◌, ◌<◌, ◌≤◌, ◌^◌, ◌++◌, All, length, Some};
ghost use Rattle.std.specs.Prelude.{None, IfOk, IfErr, IfSome, ℕ, List};
ghost use Rattle.graph_format.specs.Reports.{Reports};
ghost use Rattle.graph_format.specs.OptionalChunks.{offset_of, date_of, stored_dates};
ghost use Rattle.graph_chunks.specs.StoredDates.{date_fault, dates_refusal};
ghost use Rattle.graph_chunks.specs.StoredDates.{MayRefuseLayerDates, NamesOneOf};

use graph_format::file::Position;
use graph_format::integers::{long_at, word_at};
use thiserror::Error;

/// Where the words of `GDA2` begin that name numbers of the overflow list.
const OVERFLOW_BIT: u32 = 1 << 31;

/// Where the dates begin that are refused. Right dates are far below it.
const DATE_LIMIT: u64 = 1 << 63;

/// Why the chunks `GDA2` and `GDO2` of a layer are refused: the first of these that holds, where
/// `OverflowIndex` and `TooLarge` are looked for together, commit by commit, and `OutOfMemory` only
/// where no other does. Its text is the name of the variant alone.
#[derive(Clone, Copy, Debug, PartialEq, Eq, Error)]
pub enum LayerDatesError {
    /// `GDA2` has not four bytes for each commit ("Generation Data").
    #[error("DataSize")]
    DataSize,
    /// The length of `GDO2` is no multiple of eight ("Generation Data Overflow").
    #[error("OverflowSize")]
    OverflowSize,
    /// The word of this commit names a number that `GDO2` does not have.
    #[error("OverflowIndex")]
    OverflowIndex(Position),
    /// The date of this commit is 2^63 or more.
    #[error("TooLarge")]
    TooLarge(Position),
    /// An allocation failed.
    #[error("OutOfMemory")]
    OutOfMemory,
}

/// The offset of a commit, if it has one.
fn offset_of(offsets: &[u8], overflow: &[u8], pos: usize) -> Option<u64>
    requires { 4 * pos + 4 ≤ length offsets.now }
    ensures { result ≡ offset_of offsets.now overflow.now pos }
{
    let word = word_at(offsets, 4 * pos);
    if word < OVERFLOW_BIT {
        return Some(word as u64);
    }
    let index = (word - OVERFLOW_BIT) as usize;
    if index < overflow.len() / 8 {
        Some(long_at(overflow, 8 * index))
    } else {
        None
    }
}

/// The date of a commit, or why it has none.
fn date_of(offsets: &[u8], overflow: &[u8], times: &[u64], pos: u32) -> Result<u64, LayerDatesError>
    requires offsets { 4 * pos + 4 ≤ length offsets.now }
    requires times { pos < length times.now }
    ensures fault { Reports result (date_fault offsets.now overflow.now times.now pos) }
    ensures date { IfOk result (λ date. date ≡ date_of offsets.now overflow.now times.now pos) }
    ensures small { IfOk result (λ date. date < 2 ^ 63) }
    ensures place { IfErr result (NamesOneOf (length times.now)) }
{
    let Some(offset) = offset_of(offsets, overflow, pos as usize) else {
        return Err(LayerDatesError::OverflowIndex(Position(pos)));
    };
    match times[pos as usize].checked_add(offset) {
        Some(date) if date < DATE_LIMIT => Ok(date),
        _ => Err(LayerDatesError::TooLarge(Position(pos))),
    }
}

/// Refuses chunks of a wrong size.
#[tactic(auto, unfolding(crate::specs::StoredDates::dates_refusal))]
fn check_sizes(offsets: &[u8], overflow: &[u8], times: &[u64]) -> Result<(), LayerDatesError>
    ensures offsets { IfOk result (λ _. length offsets.now ≡ 4 * length times.now) }
    ensures overflow { IfOk result (λ _. length overflow.now % 8 ≡ 0) }
    ensures fault { IfErr result (λ fault.
        dates_refusal offsets.now overflow.now times.now ≡ Some fault) }
    ensures place { IfErr result (NamesOneOf (length times.now)) }
{
    if offsets.len() != 4 * times.len() {
        return Err(LayerDatesError::DataSize);
    }
    if overflow.len() % 8 != 0 {
        return Err(LayerDatesError::OverflowSize);
    }
    Ok(())
}

/// Why [`decode_dates`] refuses the chunks `GDA2` and `GDO2` of a layer, if it does: the first of
/// [`LayerDatesError`] that holds. It takes no memory.
#[tactic(auto, using(crate::proofs::DecodingLemmas::decoding_laws))]
pub fn refusal_of(offsets: &[u8], overflow: &[u8], times: &[u64]) -> Option<LayerDatesError>
    requires { length times.now < 2 ^ 32 }
    ensures refusal { result ≡ dates_refusal offsets.now overflow.now times.now }
    ensures place { IfSome result (NamesOneOf (length times.now)) }
{
    if let Err(fault) = check_sizes(offsets, overflow, times) {
        return Some(fault);
    }
    for pos in 0..times.len() as u32 {
        if let Err(fault) = date_of(offsets, overflow, times, pos) {
            return Some(fault);
        }
    }
    None
}

/// What is answered where there is no memory: the refusal of the chunks, if there is one.
fn refusal_without_memory(offsets: &[u8], overflow: &[u8], times: &[u64]) -> LayerDatesError
    requires { length times.now < 2 ^ 32 }
    ensures fault { MayRefuseLayerDates offsets.now overflow.now times.now result }
    ensures place { NamesOneOf (length times.now) result }
{
    match refusal_of(offsets, overflow, times) {
        Some(fault) => fault,
        None => LayerDatesError::OutOfMemory,
    }
}

/// Puts the dates of a layer, in seconds since 1970-01-01 00:00:00 UTC, after those of the layers
/// below it. They come from the chunks `GDA2` and `GDO2` (empty where the layer has none) and from
/// the times of its commits, each in the order of the commits.
///
/// # Errors
///
/// The first of [`LayerDatesError`] that holds, and `OutOfMemory` only where no other does. Dates
/// of some commits may then stand after those of the layers below, which are as they were.
#[tactic(auto, using(crate::proofs::DecodingLemmas::decoding_laws))]
pub fn decode_dates(
    dates: &mut Vec<u64>,
    offsets: &[u8],
    overflow: &[u8],
    times: &[u64],
) -> Result<(), LayerDatesError>
    requires { length times.now < 2 ^ 32 }
    ensures dates { IfOk result (λ _. dates.new.items
        ≡ dates.old.items ++ stored_dates offsets.now overflow.now times.now) }
    ensures small { IfOk result (λ _. All (λ date. date < 2 ^ 63) dates.old.items
        → All (λ date. date < 2 ^ 63) dates.new.items) }
    ensures none { IfOk result (λ _. dates_refusal offsets.now overflow.now times.now ≡ None) }
    ensures fault { IfErr result (MayRefuseLayerDates offsets.now overflow.now times.now) }
    ensures place { IfErr result (NamesOneOf (length times.now)) }
    ensures kept { (more : List ℕ) × (dates.new.items ≡ dates.old.items ++ more) }
{
    check_sizes(offsets, overflow, times)?;
    for pos in 0..times.len() as u32 {
        let date = match date_of(offsets, overflow, times, pos) {
            Ok(date) => date,
            Err(fault) => return Err(fault),
        };
        if dates.push(date).is_err() {
            return Err(refusal_without_memory(offsets, overflow, times));
        }
    }
    Ok(())
}
