//! The check of a graph.

ghost use Rattle.std.specs.Prelude.{◌≤◌, length, take};
ghost use Rattle.gix_commitgraph.specs.Called.{MayBeCalled};
ghost use Rattle.gix_commitgraph.specs.Distinct.{IsSoundWith};
ghost use Rattle.gix_commitgraph.specs.InGraph.{InGraph};
ghost use Rattle.gix_commitgraph.specs.StoredHistory.{history_of};
ghost use Rattle.gix_commitgraph.specs.Verify.{Summarizes};

use crate::bounds;
use gix_commitgraph::file::commit::{Commit, ParentError};
use gix_commitgraph::verify::{CommitFault, LayerFault, Outcome, VerifyError, VerifyOptions};
use gix_commitgraph::{Graph, Position};
use std::alloc::{AllocError, Global};
use std::collections::BTreeMap;
use std::fmt::Debug;

fn verify_integrity<'g, F, E>(
    graph: &'g Graph,
    alloc: Global,
    processor: &mut F,
) -> Result<Outcome, VerifyError<E>>
where
    F: FnMut(&Commit<'g>) -> Result<(), E>,
    requires { MayBeCalled F.FnMut (InGraph graph.now) }
{
    Graph::verify_integrity(graph, alloc, processor)
}

fn verify_integrity_with<'g, F, E>(
    graph: &'g Graph,
    alloc: Global,
    options: VerifyOptions,
    processor: &mut F,
) -> Result<Outcome, VerifyError<E>>
where
    F: FnMut(&Commit<'g>) -> Result<(), E>,
    requires { MayBeCalled F.FnMut (InGraph graph.now) }
{
    Graph::verify_integrity_with(graph, alloc, options, processor)
}

fn verify_integrity_from<'g, F, E>(
    graph: &'g Graph,
    alloc: Global,
    options: VerifyOptions,
    layer: usize,
    below: &Outcome,
    processor: &mut F,
) -> Result<Outcome, VerifyError<E>>
where
    F: FnMut(&Commit<'g>) -> Result<(), E>,
    requires callable { MayBeCalled F.FnMut (InGraph graph.now) }
    requires layer { layer ≤ length graph.now }
    requires sound { IsSoundWith options (take layer graph.now) }
    requires below { Summarizes (history_of (take layer graph.now)) below.now }
{
    Graph::verify_integrity_from(graph, alloc, options, layer, below, processor)
}

fn options(distinct_ids: bool) -> VerifyOptions {
    bounds::plain::<VerifyOptions>();
    VerifyOptions { distinct_ids }
}

fn outcomes(outcome: Outcome) -> (Option<u32>, u32, BTreeMap<u32, u32>) {
    bounds::compared::<Outcome>();
    let Outcome {
        longest_path_length,
        num_commits,
        parent_counts,
    } = outcome;
    (longest_path_length, num_commits, parent_counts)
}

fn try_clone(outcome: &Outcome) -> Result<Outcome, AllocError> {
    Outcome::try_clone(outcome)
}

fn layer_faults(fault: LayerFault) {
    bounds::plain_error::<LayerFault>();
    match fault {
        LayerFault::Checksum | LayerFault::FileName => {}
        LayerFault::Fan { byte } => bounds::of_type::<u8>(&byte),
    }
}

fn commit_faults(fault: CommitFault) {
    bounds::plain_error::<CommitFault>();
    match fault {
        CommitFault::NullId | CommitFault::Order | CommitFault::NullTree => {}
    }
}

fn verify_errors<E: Debug + Drop + Eq>(error: &VerifyError<E>) {
    bounds::error::<VerifyError<E>>();
    bounds::from::<AllocError, VerifyError<E>>();
    use VerifyError::*;
    match error {
        TooManyFiles | OutOfMemory => {}
        BaseCount { layer } => bounds::of_type::<usize>(layer),
        BaseId { layer, index } => bounds::of_types::<usize, usize>(layer, index),
        Layer { layer, fault } => bounds::of_types::<usize, LayerFault>(layer, fault),
        Commit { pos, fault } => bounds::of_types::<Position, CommitFault>(pos, fault),
        Parent { pos, error } => bounds::of_types::<Position, ParentError>(pos, error),
        ParentOutOfRange { pos, parent } => bounds::of_types::<Position, Position>(pos, parent),
        Generation { pos, expected } => bounds::of_types::<Position, u32>(pos, expected),
        Processor { pos, error } => bounds::of_types::<Position, E>(pos, error),
        DuplicateId { pos, earlier } => bounds::of_types::<Position, Position>(pos, earlier),
    }
}
