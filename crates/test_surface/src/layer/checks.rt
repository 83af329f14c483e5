//! The check of one layer.

ghost use Rattle.gix_commitgraph.specs.Called.{InLayer, MayBeCalled};

use crate::bounds;
use gix_commitgraph::file::commit::{Commit, ParentError};
use gix_commitgraph::file::verify::{ChecksumMismatch, Outcome, TraverseError};
use gix_commitgraph::file::{File, Position};
use gix_hash_core::ObjectId;
use std::alloc::{AllocError, Global};
use std::collections::HashMap;
use std::fmt::Debug;

fn verify_checksum(file: &File) -> Result<ObjectId, ChecksumMismatch> {
    File::verify_checksum(file)
}

fn mismatches() -> ChecksumMismatch {
    bounds::plain_error::<ChecksumMismatch>();
    ChecksumMismatch
}

fn traverse<'f, F, E>(
    file: &'f File,
    alloc: Global,
    processor: &mut F,
) -> Result<Outcome, TraverseError<E>>
where
    F: FnMut(&Commit<'f>) -> Result<(), E>,
    requires { MayBeCalled F.FnMut (InLayer file.now) }
{
    File::traverse(file, alloc, processor)
}

fn outcomes(outcome: Outcome) -> ([u32; 4], HashMap<u32, u32>) {
    bounds::compared::<Outcome>();
    let Outcome {
        max_generation,
        min_generation,
        max_parents,
        num_commits,
        parent_counts,
    } = outcome;
    let numbers = [max_generation, min_generation, max_parents, num_commits];
    (numbers, parent_counts)
}

fn try_clone(outcome: &Outcome) -> Result<Outcome, AllocError> {
    Outcome::try_clone(outcome)
}

fn traverse_errors<E: Debug + Drop + Eq>(error: &TraverseError<E>) {
    bounds::error::<TraverseError<E>>();
    bounds::from::<AllocError, TraverseError<E>>();
    use TraverseError::*;
    match error {
        Checksum | FileName | OutOfMemory => {}
        Fan { byte } => bounds::of_type::<u8>(byte),
        NullId { pos } | Order { pos } | NullTree { pos } => bounds::of_type::<Position>(pos),
        Processor { pos, error } => bounds::of_types::<Position, E>(pos, error),
        Parent { pos, error } => bounds::of_types::<Position, ParentError>(pos, error),
    }
}
