//! Building a file from a plan.

ghost use Rattle.std.specs.Prelude.{◌≡◌, ◌<◌, ◌++◌, ℕ, List, OnOk, IfOk, All, slice_index};
ghost use Rattle.graph_encoder.specs.Plan.{IsPlan};
ghost use Rattle.graph_encoder.specs.Said.{IsFileOf};
ghost use Rattle.graph_encoder.specs.Sizes.{sizes_of};
ghost use Rattle.graph_encoder.specs.Written.{ids_of, planned_body, planned_file};

use crate::edges::push_edges;
use crate::fan::push_fan;
use crate::filters::push_filters;
use crate::offsets::{offsets_or_none, push_large_offsets, push_offset_words};
use crate::plan::FilePlan;
use crate::push::{push_commit_ids, push_id, push_ids};
use crate::records::push_records;
use crate::sizes::{ChunkSize, chunk_count, chunk_sizes, first_offset, total_size};
use crate::table::{push_header, push_table};
use crate::view::PlanView;
use gix_hash_core::digest;
use std::alloc::{AllocError, Global};

/// The file of a plan that [`FilePlan::is_buildable`]. Its chunks are `OIDF`, `OIDL`, `CDAT`, then
/// `GDA2` if the plan has date offsets, then `GDO2` if one of them is 0x80000000 or more, then
/// `EDGE` if some commit has more than two parents, then `BIDX` and `BDAT` if the plan has filters,
/// then `BASE` if there is a base. Each begins where the one before ends, the first directly after
/// the table. The second field of a commit with more than two parents is 0x80000000 plus the index
/// of its first extra word. Its extra words are its parents from the second on, the last with the
/// top bit set. The extra words of one commit follow those of the one before. The word of a commit
/// in `GDA2` is its date offset, or, where that is 0x80000000 or more, 0x80000000 plus its index in
/// `GDO2`. `BIDX` has the ends of the filters, `BDAT` the three numbers and then the bytes of the
/// filters. The trailer is the digest of all bytes before it.
/// (gitformat-commit-graph, "HEADER" to "TRAILER".)
///
/// # Errors
///
/// `AllocError` where an allocation failed.
pub fn build(alloc: Global, plan: &FilePlan) -> Result<Vec<u8>, AllocError>
    requires { IsPlan plan.now }
    ensures layout { IfOk result (λ bytes. bytes.items ≡ planned_file plan.now) }
    ensures layer { IfOk result (λ bytes. (path : List ℕ) → IsFileOf plan.now bytes.items path) }
{
    build_view(alloc, plan)
}

/// The same file of what a plan can be read off.
///
/// # Errors
///
/// `AllocError` where an allocation failed.
pub fn build_view<P: PlanView>(alloc: Global, plan: &P) -> Result<Vec<u8>, AllocError>
    requires { IsPlan (P.as_plan plan.now) }
    ensures layout { IfOk result (λ bytes. bytes.items ≡ planned_file (P.as_plan plan.now)) }
    ensures layer { IfOk result (λ bytes. (path : List ℕ)
        → IsFileOf (P.as_plan plan.now) bytes.items path) }
{
    let chunks = chunk_sizes(plan);
    let body = first_offset(chunk_count(&chunks)) + total_size(&chunks);
    let kind = plan.kind();
    let mut file = Vec::with_capacity(alloc, body + kind.len_in_bytes())?;
    push_body(&mut file, plan, &chunks)?;
    let checksum = digest(kind, &file);
    push_id(&mut file, checksum.as_oid())?;
    Ok(file)
}

/// Adds everything but the trailer.
fn push_body<P: PlanView>(
    file: &mut Vec<u8>,
    plan: &P,
    chunks: &[ChunkSize],
) -> Result<(), AllocError>
    requires plan { IsPlan (P.as_plan plan.now) }
    requires sizes { chunks.now ≡ sizes_of (P.as_plan plan.now) }
    ensures body { OnOk result
        (file.new.items ≡ file.old.items ++ planned_body (P.as_plan plan.now)) }
    ensures bytes { OnOk result
        (All (λ id. slice_index id 0 < 256) (ids_of (P.as_plan plan.now).commits.items)) }
{
    let count = chunk_count(chunks);
    push_header(file, plan, count)?;
    push_table(file, chunks, first_offset(count))?;
    push_fan(file, plan)?;
    push_commit_ids(file, plan)?;
    push_records(file, plan)?;
    push_offset_words(file, offsets_or_none(plan))?;
    push_large_offsets(file, offsets_or_none(plan))?;
    push_edges(file, plan)?;
    push_filters(file, plan)?;
    push_ids(file, plan.bases())?;
    Ok(())
}
