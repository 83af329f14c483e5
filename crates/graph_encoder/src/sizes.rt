//! How many bytes the chunks of a file have.

ghost use Rattle.std.specs.Prelude.{◌≡◌, ◌+◌, ◌*◌, ◌<◌, ◌≤◌, ◌^◌, length, option_map};
ghost use Rattle.graph_encoder.specs.Plan.{IsPlan};
ghost use Rattle.graph_encoder.specs.Sizes.{sizes_of, unless_zero, number_there, total_size};
ghost use Rattle.graph_encoder.specs.Chunks.{table_len};
ghost use Rattle.graph_encoder.specs.DateOffsets.{offsets_of};

use crate::edges::count_extra_words;
use crate::filters::{filter_data_size, filter_index_size};
use crate::offsets::{count_large, offsets_or_none};
use crate::view::PlanView;

/// The fan has 256 numbers of four bytes.
const FAN_SIZE: usize = 1024;

/// The bytes of a record beside its tree's id.
const RECORD_FIELDS_LEN: usize = 16;

const WORD_LEN: usize = 4;

const LONG_LEN: usize = 8;

const HEADER_LEN: usize = 8;

const TABLE_ENTRY_LEN: usize = 12;

/// A chunk that a file may have: its name, and its size in bytes, or `None` where the file does not
/// have it.
#[derive(Clone, Copy)]
pub(crate) struct ChunkSize {
    pub(crate) id: [u8; 4],
    pub(crate) size: Option<usize>,
}

/// All chunks that the plan's file may have, in their order.
pub(crate) fn chunk_sizes<P: PlanView>(plan: &P) -> [ChunkSize; 9]
    requires { IsPlan (P.as_plan plan.now) }
    ensures { result ≡ sizes_of (P.as_plan plan.now) }
{
    let id_len = plan.kind().len_in_bytes();
    let commits = plan.commit_count();
    let words = count_extra_words(plan);
    [
        sized(*b"OIDF", Some(FAN_SIZE)),
        sized(*b"OIDL", Some(id_len * commits)),
        sized(*b"CDAT", Some((id_len + RECORD_FIELDS_LEN) * commits)),
        sized(*b"GDA2", offsets_size(plan)),
        sized(
            *b"GDO2",
            unless_zero(LONG_LEN * count_large(offsets_or_none(plan))),
        ),
        sized(*b"EDGE", unless_zero(WORD_LEN * words)),
        sized(*b"BIDX", filter_index_size(plan)),
        sized(*b"BDAT", filter_data_size(plan)),
        sized(*b"BASE", unless_zero(id_len * plan.bases().len())),
    ]
}

fn sized(id: [u8; 4], size: Option<usize>) -> ChunkSize
    ensures id { result.id ≡ id }
    ensures size { result.size ≡ size }
{
    ChunkSize { id, size }
}

/// A size, or `None` where a chunk is left out, since it would have no bytes.
fn unless_zero(size: usize) -> Option<usize>
    ensures { result ≡ unless_zero size }
{
    if size > 0 { Some(size) } else { None }
}

/// The size of "Generation Data", which is there where the plan has dates.
fn offsets_size<P: PlanView>(plan: &P) -> Option<usize>
    requires { IsPlan (P.as_plan plan.now) }
    ensures { result
        ≡ option_map (λ offsets. 4 * length offsets) (offsets_of (P.as_plan plan.now)) }
{
    match plan.offsets() {
        Some(offsets) => Some(WORD_LEN * offsets.len()),
        None => None,
    }
}

/// How many of the chunks are there.
pub(crate) fn chunk_count(chunks: &[ChunkSize]) -> u8
    requires { length chunks.now ≤ 255 }
    ensures { result ≡ number_there chunks.now }
{
    let mut count = 0;
    for chunk in chunks {
        count += u8::from(chunk.size.is_some());
    }
    count
}

/// Where the first chunk begins, directly after the header and a table of so many chunks.
pub(crate) fn first_offset(count: u8) -> usize
    ensures { result ≡ 8 + table_len count }
{
    HEADER_LEN + TABLE_ENTRY_LEN * (usize::from(count) + 1)
}

/// How many bytes the chunks have together.
pub(crate) fn total_size(chunks: &[ChunkSize]) -> usize
    requires { total_size chunks.now < 2 ^ 64 }
    ensures { result ≡ total_size chunks.now }
{
    let mut total = 0;
    for chunk in chunks {
        total += chunk.size.unwrap_or(0);
    }
    total
}
