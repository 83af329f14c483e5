//! The header, and the table of chunks.

ghost use Rattle.std.specs.Prelude.{◌≡◌, ◌+◌, ◌<◌, ◌≤◌, ◌^◌, ◌++◌, OnOk, IfOk, length};
ghost use Rattle.graph_encoder.specs.Sizes.{bytes_in, entry_bytes, table_by_sizes, total_size};
ghost use Rattle.graph_encoder.specs.Written.{header};

use crate::push::push_long;
use crate::sizes::ChunkSize;
use crate::view::PlanView;
use gix_hash_core::Kind;
use std::alloc::AllocError;

const SIGNATURE: [u8; 4] = *b"CGPH";

const VERSION: u8 = 1;

/// The name of the entry that ends the table.
const END_ID: [u8; 4] = [0; 4];

/// Adds the header.
#[tactic(auto, unfolding(crate::specs::Written::header))]
pub(crate) fn push_header<P: PlanView>(
    file: &mut Vec<u8>,
    plan: &P,
    chunks: u8,
) -> Result<(), AllocError>
    requires { length (P.as_plan plan.now).bases.items ≤ 255 }
    ensures { let bases = length (P.as_plan plan.now).bases.items in
        OnOk result (file.new.items
        ≡ file.old.items ++ header (P.as_plan plan.now).kind chunks bases) }
{
    let kind = match plan.kind() {
        Kind::Sha1 => 1,
        Kind::Sha256 => 2,
    };
    file.extend_from_slice(&SIGNATURE)?;
    file.extend_from_slice(&[VERSION, kind, chunks, plan.bases().len() as u8])
}

/// Adds the entry of a chunk at this offset, if it is there, and returns where the next one begins.
fn push_entry(file: &mut Vec<u8>, chunk: &ChunkSize, offset: usize) -> Result<usize, AllocError>
    requires { offset + bytes_in chunk.now < 2 ^ 64 }
    ensures entry { OnOk result (file.new.items
        ≡ file.old.items ++ entry_bytes chunk.now.id chunk.now.size offset) }
    ensures next { IfOk result (λ next. next ≡ offset + bytes_in chunk.now) }
{
    match chunk.size {
        Some(size) => {
            file.extend_from_slice(&chunk.id)?;
            push_long(file, offset as u64)?;
            Ok(offset + size)
        }
        None => Ok(offset),
    }
}

/// Adds the table of these chunks, of which the first that is there begins at this offset.
pub(crate) fn push_table(
    file: &mut Vec<u8>,
    chunks: &[ChunkSize],
    first: usize,
) -> Result<(), AllocError>
    requires { first + total_size chunks.now < 2 ^ 64 }
    ensures { OnOk result (file.new.items ≡ file.old.items ++ table_by_sizes first chunks.now) }
{
    let mut offset = first;
    for chunk in chunks {
        offset = push_entry(file, chunk, offset)?;
    }
    file.extend_from_slice(&END_ID)?;
    push_long(file, offset as u64)
}
