//! The check of a graph.

ghost use Rattle.std.specs.Prelude.{◌≡◌, ◌≢◌, IfNone, IfSome, length, map};
ghost use Rattle.std.specs.BTreeMap.{IsOrdered};
ghost use Rattle.std.specs.Ordering.{nat_cmp};
ghost use Rattle.gix_commitgraph.specs.Graph.{start};
ghost use Rattle.c_opening.specs.Answers.{layers_of, written};
ghost use Rattle.c_opening.specs.Verdict.{IsVerdict, TellsCounts, TellsCountsOf, TellsOutcome};
ghost use Rattle.c_opening.specs.Verdict.{TellsCalls, closed_verdict, refusal_in_commit};
ghost use Rattle.c_opening.specs.Verdict.{commits_before, refusal_in_layer};
ghost use Rattle.c_opening.specs.Verdict.{options_of, refusal_at, refusal_of, told_count};

use crate::codes::{
    CLOSED_GRAPH, OUT_OF_MEMORY, STOPPED, commit_code, fan_byte, layer_code, parent_code,
};
use crate::handle::CgGraph;
use gix_commitgraph::verify::{Outcome, VerifyError, VerifyOptions};
use gix_commitgraph::{Graph, Position};
use graph_history::{Checked, NoFault};
use std::alloc::Global;
use std::collections::BTreeMap;

/// What a check found: `code` is 0 where the graph is right, else the number of the cause.
#[repr(C)]
#[derive(Clone, Copy)]
pub struct CgVerdict {
    pub code: u32,
    pub num_commits: u32,
    pub longest: u32,
    /// 1 where `longest` is known, else 0.
    pub has_longest: u32,
    pub position: u32,
    pub other: u32,
    /// How many commits a processor would be called on before the first fault.
    pub called: u32,
    pub layer: u64,
    pub index: u64,
    /// How many different numbers of parents there are, each of which has an entry in `counts`.
    pub kinds: u64,
}

/// How many commits have this number of parents.
#[repr(C)]
#[derive(Clone, Copy)]
pub struct CgCount {
    pub parents: u32,
    pub commits: u32,
}

/// Checks a graph, and where it is asked for, that no id stands in two layers. The answer is the
/// verdict's code.
pub fn cg_verify(
    alloc: Global,
    graph: CgGraph,
    distinct_ids: bool,
    out: &mut CgVerdict,
    counts: &mut [CgCount],
) -> u32
    ensures code { result ≡ out.new.code }
    ensures open { IfSome (layers_of graph.address.held) (λ layers.
        IsVerdict (options_of distinct_ids) layers out.new) }
    ensures counts { IfSome (layers_of graph.address.held) (λ layers.
        out.new.code ≡ 0 → TellsCounts layers out.new counts.old counts.new) }
    ensures called { IfSome (layers_of graph.address.held) (λ layers.
        TellsCalls (options_of distinct_ids) layers out.new) }
    ensures closed { IfNone (layers_of graph.address.held) (out.new ≡ closed_verdict) }
    ensures kept { out.new.code ≢ 0 → counts.new ≡ counts.old }
{
    let verdict = match graph.graph() {
        Some(graph) => verdict_on(alloc, graph, distinct_ids, counts),
        None => refused(CLOSED_GRAPH),
    };
    *out = verdict;
    verdict.code
}

/// Checks a graph, and tells what was found.
fn verdict_on(alloc: Global, graph: &Graph, distinct_ids: bool, counts: &mut [CgCount]) -> CgVerdict
    ensures verdict { IsVerdict (options_of distinct_ids) graph.now result }
    ensures counts { result.code ≡ 0 → TellsCounts graph.now result counts.old counts.new }
    ensures called { TellsCalls (options_of distinct_ids) graph.now result }
    ensures kept { result.code ≢ 0 → counts.new ≡ counts.old }
{
    match Checked::new_with(alloc, VerifyOptions { distinct_ids }, graph) {
        Ok(checked) => right(checked.outcome(), counts),
        Err(error) => CgVerdict {
            called: commits_before(graph, &error),
            ..wrong(error)
        },
    }
}

/// How many commits stand before a fault: on so many the check would have called a processor.
fn commits_before(graph: &Graph, error: &VerifyError<NoFault>) -> u32
    ensures { result ≡ commits_before graph.now error.now }
{
    match error {
        VerifyError::TooManyFiles | VerifyError::OutOfMemory => 0,
        VerifyError::BaseCount { layer }
        | VerifyError::BaseId { layer, .. }
        | VerifyError::Layer { layer, .. } => commits_below(graph, *layer),
        VerifyError::Commit { pos, .. }
        | VerifyError::Parent { pos, .. }
        | VerifyError::ParentOutOfRange { pos, .. }
        | VerifyError::Generation { pos, .. }
        | VerifyError::Processor { pos, .. }
        | VerifyError::DuplicateId { pos, .. } => pos.0,
    }
}

/// How many commits the layers below one have.
pub fn commits_below(graph: &Graph, layer: usize) -> u32
    ensures { result ≡ start graph.now layer }
{
    let files = graph.layers();
    let mut commits = 0;
    for below in 0..layer.min(files.len()) {
        commits += files[below].num_commits();
    }
    commits
}

/// Tells that no graph is right, and neither where nor why.
pub(crate) fn refused(code: u32) -> CgVerdict
    ensures { result ≡ refusal_at code 0 0 0 0 }
{
    CgVerdict {
        code,
        num_commits: 0,
        longest: 0,
        has_longest: 0,
        position: 0,
        other: 0,
        called: 0,
        layer: 0,
        index: 0,
        kinds: 0,
    }
}

/// Tells of a fault of a layer.
fn in_layer(code: u32, layer: usize) -> CgVerdict
    ensures { result ≡ refusal_in_layer code layer 0 0 }
{
    CgVerdict {
        layer: layer as u64,
        ..refused(code)
    }
}

/// Tells of a fault of the commit at a position.
fn in_commit(code: u32, pos: Position, other: u32) -> CgVerdict
    ensures { result ≡ refusal_in_commit code pos other }
{
    CgVerdict {
        position: pos.0,
        other,
        ..refused(code)
    }
}

/// Tells the statistics of a graph that is right.
pub(crate) fn right(outcome: &Outcome, counts: &mut [CgCount]) -> CgVerdict
    ensures tells { TellsOutcome outcome.now result }
    ensures ascending { IsOrdered nat_cmp outcome.now.parent_counts }
    ensures counts { TellsCountsOf outcome.now result counts.old counts.new }
{
    CgVerdict {
        code: 0,
        num_commits: outcome.num_commits,
        longest: outcome.longest_path_length.unwrap_or(0),
        has_longest: outcome.longest_path_length.is_some() as u32,
        position: 0,
        other: 0,
        called: outcome.num_commits,
        layer: 0,
        index: 0,
        kinds: write_counts(&outcome.parent_counts, counts),
    }
}

/// Tells why a graph is refused. What a processor answers, stops the check.
pub(crate) fn wrong<E: Drop>(error: VerifyError<E>) -> CgVerdict
    ensures told { result ≡ refusal_of error }
    ensures code { result.code ≢ 0 }
    ensures called { result.called ≡ 0 }
{
    match error {
        VerifyError::TooManyFiles => refused(301),
        VerifyError::BaseCount { layer } => in_layer(302, layer),
        VerifyError::BaseId { layer, index } => CgVerdict {
            index: index as u64,
            ..in_layer(303, layer)
        },
        VerifyError::Layer { layer, fault } => CgVerdict {
            other: fan_byte(fault) as u32,
            ..in_layer(layer_code(fault), layer)
        },
        VerifyError::Commit { pos, fault } => in_commit(commit_code(fault), pos, 0),
        VerifyError::Parent { pos, error } => in_commit(parent_code(error), pos, 0),
        VerifyError::ParentOutOfRange { pos, parent } => in_commit(307, pos, parent.0),
        VerifyError::Generation { pos, expected } => in_commit(308, pos, expected),
        VerifyError::Processor { pos, .. } => in_commit(STOPPED, pos, 0),
        VerifyError::OutOfMemory => refused(OUT_OF_MEMORY),
        VerifyError::DuplicateId { pos, earlier } => in_commit(311, pos, earlier.0),
    }
}

/// Writes how many commits have each number of parents, from the least number on, as many as there
/// is room for, and answers how many such numbers there are.
fn write_counts(counts: &BTreeMap<u32, u32>, out: &mut [CgCount]) -> u64
    ensures ascending { IsOrdered nat_cmp counts.now }
    ensures kinds { result ≡ length counts.now.entries }
    ensures room { out.new ≡ written (map told_count counts.now.entries) out.old }
{
    let mut place = 0;
    for (parents, commits) in counts {
        if place < out.len() {
            out[place] = CgCount {
                parents: *parents,
                commits: *commits,
            };
            place += 1;
        }
    }
    counts.len() as u64
}
