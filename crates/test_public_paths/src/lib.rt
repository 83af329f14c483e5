//! Names the laws of `gix_commitgraph`, from a crate that uses that crate alone, cites definitions
//! of its contracts, and calls it: this compiles only where all of them are there, and where its
//! caller has to list no other crate.
#![tactic(auto)]

ghost use Rattle.std.specs.Prelude.{IfOk, MatchResult};
ghost use Rattle.gix_commitgraph.specs.Distinct.{AreDistinct};
ghost use Rattle.gix_commitgraph.specs.Graph.{IsGraph};
ghost use Rattle.gix_commitgraph.specs.Headline.{IsDeserved, LookupsAreScans, Stats};
ghost use Rattle.gix_commitgraph.specs.OpenAlways.{IsFromPath, IsPathError};
ghost use Rattle.gix_commitgraph.specs.Sound.{Sound};

pub mod definitions;
mod laws;

use gix_commitgraph::file::Commit;
use gix_commitgraph::opening::OpenError;
use gix_commitgraph::verify::{Outcome, VerifyError, VerifyOptions};
use gix_commitgraph::{Graph, at};
use std::alloc::Global;
use std::convert::Infallible;
use std::rt::Files;

/// Opens a graph by its path.
pub fn open<R: Files>(rt: &R, alloc: Global, path: &str) -> Result<Graph, OpenError>
    ensures from { MatchResult result (IsFromPath path.now) IsPathError }
    ensures graph { IfOk result IsGraph }
{
    at(rt, alloc, path)
}

/// Checks a graph.
pub fn check(alloc: Global, graph: &Graph) -> Result<Outcome, VerifyError<Infallible>>
    ensures sound { MatchResult result (λ _. Sound graph.now) (IsDeserved graph.now) }
    ensures statistics { IfOk result (Stats graph.now) }
    ensures lookups { IfOk result (λ _. LookupsAreScans graph.now) }
{
    graph.verify_integrity(alloc, &mut |_: &Commit<'_>| Ok(()))
}

/// Checks a graph, and that its ids are distinct.
pub fn check_distinct(alloc: Global, graph: &Graph) -> Result<Outcome, VerifyError<Infallible>>
    ensures { IfOk result (λ _. AreDistinct graph.now) }
{
    let options = VerifyOptions { distinct_ids: true };
    graph.verify_integrity_with(alloc, options, &mut |_: &Commit<'_>| Ok(()))
}
