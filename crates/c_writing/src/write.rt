//! Writing a layer.

ghost use Rattle.std.specs.Prelude.{◌≡◌, ◌≢◌, ◌↔◌, [], All, drop, false, IfErr, IfOk, IsSomeAnd};
ghost use Rattle.std.specs.Prelude.{None, is_some, length, unwrap_or};
ghost use Rattle.graph_writer.specs.NewCommits.{layers_of_below};
ghost use Rattle.c_opening.specs.Answers.{written};
ghost use Rattle.c_opening.specs.Codes.{no_ids, not_checked};
ghost use Rattle.c_writing.specs.HandedIn.{HaveIds, IsFirstWithoutIds};
ghost use Rattle.c_writing.specs.SaidCommits.{HasFewParents};
ghost use Rattle.c_writing.specs.ToldWrite.{IsFileFrom, RefusesCommits, open_layers};
ghost use Rattle.c_writing.specs.ToldWrite.{told_dates_below, told_write, write_code};

use crate::dates;
use crate::new_commits::{CgNewCommit, first_without_ids};
use c_opening::codes::{NO_IDS, NOT_CHECKED, OUT_OF_MEMORY};
use c_opening::paths::write_bytes;
use c_opening::{CgBytes, CgBytesOwner, CgGraph, Kept};
use graph_chunks::dates::DatesError;
use graph_history::Checked;
use graph_writer::{WriteError, write_layer_of};
use std::alloc::Global;

/// Why no layer was written.
#[repr(C)]
#[derive(Clone, Copy)]
pub struct CgWriteError {
    /// 0 where one was, else the number of the cause.
    pub code: u32,
    /// The commit of the graph below that is told.
    pub position: u32,
    /// The commit that is refused, by its number among those handed in.
    pub commit: u64,
    /// The earlier commit with its id, or the parent that is not known, by its number.
    pub other: u64,
    /// The layer below whose dates are refused.
    pub layer: u64,
    /// The date that is expected of the commit below.
    pub expected: u64,
}

/// Writes the file of a layer with these commits, on top of a graph that was checked, or of none.
/// Where they are refused, nothing is written.
pub fn cg_write(
    alloc: Global,
    graph: CgGraph,
    commits: &[CgNewCommit<'_>],
    out: &mut CgBytesOwner,
) -> CgWriteError
    ensures written { result.code ≡ 0 → IsSomeAnd out.new.address.held
        (IsFileFrom (open_layers graph.address.held) commits.now) }
    ensures told { result.code ≡ 0 → result ≡ write_code 0 0 0 0 }
    ensures kept { result.code ≢ 0 → out.new ≡ out.old }
    ensures unchecked { result.code ≡ not_checked ↔ IsSomeAnd graph.address.held (λ held.
        held.1 ≡ false) }
    ensures nothing { result.code ≡ not_checked → result ≡ write_code not_checked 0 0 0 }
    ensures ids { result.code ≡ no_ids → IsFirstWithoutIds commits.now result.commit
        × (result ≡ write_code no_ids 0 result.commit 0) }
    ensures refused { result.code ≢ 0 → result.code ≢ not_checked → result.code ≢ no_ids
        → RefusesCommits (open_layers graph.address.held) commits.now result }
{
    let Some(opened) = graph.opened() else {
        return write_on(alloc, None, commits, out);
    };
    match opened.as_checked() {
        Some(checked) => write_on(alloc, Some(&checked), commits, out),
        None => at(NOT_CHECKED, 0, 0),
    }
}

/// Writes the file of a layer on top of a graph, or of none.
fn write_on(
    alloc: Global,
    below: Option<&Checked<'_>>,
    commits: &[CgNewCommit<'_>],
    out: &mut CgBytesOwner,
) -> CgWriteError
    ensures written { result.code ≡ 0 → IsSomeAnd out.new.address.held
        (IsFileFrom (layers_of_below below.entry) commits.now) }
    ensures told { result.code ≡ 0 → result ≡ write_code 0 0 0 0 }
    ensures kept { result.code ≢ 0 → out.new ≡ out.old }
    ensures codes { result.code ≢ not_checked }
    ensures ids { result.code ≡ no_ids → IsFirstWithoutIds commits.now result.commit
        × (result ≡ write_code no_ids 0 result.commit 0) }
    ensures refused { result.code ≢ 0 → result.code ≢ no_ids
        → RefusesCommits (layers_of_below below.entry) commits.now result }
{
    if let Some(first) = first_without_ids(commits) {
        return at(NO_IDS, first, 0);
    }
    match new_file(alloc, below, commits) {
        Ok(bytes) => {
            out.write(bytes);
            at(0, 0, 0)
        }
        Err(error) => error,
    }
}

/// The bytes of the file, in an allocation of their own.
fn new_file(
    alloc: Global,
    below: Option<&Checked<'_>>,
    handed: &[CgNewCommit<'_>],
) -> Result<Box<Kept>, CgWriteError>
    requires ids { HaveIds handed.now }
    requires few { All HasFewParents handed.now }
    ensures file { IfOk result (λ bytes.
        IsFileFrom (layers_of_below below.entry) handed.now bytes.value) }
    ensures refused { IfErr result (RefusesCommits (layers_of_below below.entry) handed.now) }
    ensures code { IfErr result (λ e. e.code ≢ 0) }
    ensures other { IfErr result (λ e. (e.code ≢ not_checked) × (e.code ≢ no_ids)) }
{
    match write_layer_of(alloc, below, handed) {
        Ok(bytes) => boxed(alloc, bytes),
        Err(error) => Err(told(error)),
    }
}

/// Bytes in an allocation of their own, if there is memory for one.
fn boxed(alloc: Global, bytes: Vec<u8>) -> Result<Box<Kept>, CgWriteError>
    ensures same { IfOk result (λ kept. kept.value ≡ bytes.items) }
    ensures refused { IfErr result (λ e. e ≡ told_write WriteError.OutOfMemory) }
    ensures code { IfErr result (λ e. e.code ≢ 0) }
    ensures other { IfErr result (λ e. (e.code ≢ not_checked) × (e.code ≢ no_ids)) }
{
    match Box::new(alloc, Kept::new(bytes)) {
        Ok(kept) => Ok(kept),
        Err(_) => Err(told(WriteError::OutOfMemory)),
    }
}

/// Tells why no layer is written.
fn told(error: WriteError) -> CgWriteError
    ensures told { result ≡ told_write error }
    ensures code { result.code ≢ 0 }
    ensures other { (result.code ≢ not_checked) × (result.code ≢ no_ids) }
{
    match error {
        WriteError::Kind(commit) => at(701, commit, 0),
        WriteError::NullId(commit) => at(702, commit, 0),
        WriteError::NullTree(commit) => at(703, commit, 0),
        WriteError::Time(commit) => at(704, commit, 0),
        WriteError::Twice(commit, earlier) => at(705, commit, earlier),
        WriteError::Below(commit, pos) => CgWriteError {
            position: pos.0,
            ..at(706, commit, 0)
        },
        WriteError::Parent(commit, index) => at(707, commit, index),
        WriteError::Cycle(commit) => at(708, commit, 0),
        WriteError::Nothing => at(709, 0, 0),
        WriteError::TooManyCommits => at(721, 0, 0),
        WriteError::TooManyEdges => at(722, 0, 0),
        WriteError::TooManyLayers => at(723, 0, 0),
        WriteError::OutOfMemory => at(OUT_OF_MEMORY, 0, 0),
        WriteError::Dates(error) => below_wrong(error),
    }
}

/// Tells why the dates of the graph below are refused.
fn below_wrong(error: DatesError) -> CgWriteError
    ensures told { result ≡ told_dates_below error }
    ensures code { result.code ≢ 0 }
    ensures other { (result.code ≢ not_checked) × (result.code ≢ no_ids) }
{
    let refusal = dates::refused(error);
    CgWriteError {
        position: refusal.position,
        layer: refusal.layer,
        expected: refusal.expected,
        ..at(refusal.code, 0, 0)
    }
}

/// Tells a code, and a commit of those handed in with what it is refused for.
fn at(code: u32, commit: usize, other: usize) -> CgWriteError
    ensures { result ≡ write_code code 0 commit other }
{
    CgWriteError {
        code,
        position: 0,
        commit: commit as u64,
        other: other as u64,
        layer: 0,
        expected: 0,
    }
}

/// Writes bytes that are kept, from one on, as many as there is room for. Answers how many there
/// are from there on.
pub fn cg_bytes_copy(bytes: CgBytes, start: u64, out: &mut [u8]) -> u64
    ensures count { result ≡ length (drop start (unwrap_or bytes.address.held [])) }
    ensures room { out.new ≡ written (drop start (unwrap_or bytes.address.held [])) out.old }
{
    let Some(kept) = bytes.kept() else {
        return 0;
    };
    let all = kept.bytes();
    if start > all.len() as u64 {
        return 0;
    }
    let rest = &all[start as usize..];
    write_bytes(rest, out);
    rest.len() as u64
}

/// Frees bytes that are kept, leaves none where they were, and answers whether there were some to
/// free.
pub fn cg_bytes_free(alloc: Global, bytes: &mut CgBytesOwner) -> bool
    ensures freed { result ≡ is_some bytes.old.address.held }
    ensures taken { bytes.new.address.held ≡ None }
{
    match bytes.take(alloc) {
        Some(kept) => {
            drop(kept);
            true
        }
        None => false,
    }
}
