//! Numbers and ids, added at the end of a file.

ghost use Rattle.std.specs.Prelude.{◌≡◌, ◌++◌, OnOk};
ghost use Rattle.gix_hash_core.specs.Oid.{oid_bytes};
ghost use Rattle.graph_encoder.specs.Chunks.{word_bytes, long_bytes};
ghost use Rattle.graph_encoder.specs.Written.{ids_of, ids_bytes, words_bytes};

use crate::view::PlanView;
use gix_hash_core::{ObjectId, oid};
use std::alloc::AllocError;

/// The length of most ids. Where a copy has a length that is known, the processor waits for several
/// ids at once.
const SHORT_LEN: usize = 20;

/// Adds a number of four bytes.
#[tactic(auto, unfolding(crate::specs::Chunks::word_bytes))]
pub(crate) fn push_word(file: &mut Vec<u8>, number: u32) -> Result<(), AllocError>
    ensures { OnOk result (file.new.items ≡ file.old.items ++ word_bytes number) }
{
    file.extend_from_slice(&number.to_be_bytes())
}

/// Adds these numbers of four bytes, one after another.
pub(crate) fn push_words(file: &mut Vec<u8>, numbers: &[u32]) -> Result<(), AllocError>
    ensures { OnOk result (file.new.items ≡ file.old.items ++ words_bytes numbers.now) }
{
    for number in numbers {
        push_word(file, *number)?;
    }
    Ok(())
}

/// Adds a number of eight bytes.
#[tactic(auto, unfolding(crate::specs::Chunks::long_bytes))]
pub(crate) fn push_long(file: &mut Vec<u8>, number: u64) -> Result<(), AllocError>
    ensures { OnOk result (file.new.items ≡ file.old.items ++ long_bytes number) }
{
    file.extend_from_slice(&number.to_be_bytes())
}

/// Adds the bytes of an id.
pub(crate) fn push_id(file: &mut Vec<u8>, id: oid<'_>) -> Result<(), AllocError>
    ensures { OnOk result (file.new.items ≡ file.old.items ++ oid_bytes id.entry) }
{
    let bytes = id.as_bytes();
    if bytes.len() == SHORT_LEN {
        file.extend_from_slice(&bytes[..SHORT_LEN])
    } else {
        file.extend_from_slice(bytes)
    }
}

/// Adds the bytes of these ids, one after another.
pub(crate) fn push_ids(file: &mut Vec<u8>, ids: &[ObjectId]) -> Result<(), AllocError>
    ensures { OnOk result (file.new.items ≡ file.old.items ++ ids_bytes ids.now) }
{
    for id in ids {
        push_id(file, id.as_oid())?;
    }
    Ok(())
}

/// Adds the bytes of the ids of these commits, one after another.
pub(crate) fn push_commit_ids<P: PlanView>(file: &mut Vec<u8>, plan: &P) -> Result<(), AllocError>
    ensures { OnOk result (file.new.items
        ≡ file.old.items ++ ids_bytes (ids_of (P.as_plan plan.now).commits.items)) }
{
    for place in 0..plan.commit_count() {
        push_id(file, plan.row(place).id)?;
    }
    Ok(())
}
