//! The calls. Each writes what it answered.

ghost use Rattle.std.specs.Prelude.{◌<◌, All, IfOk};
ghost use Rattle.gix_commitgraph.specs.Graph.{total};

use crate::told::{begin, tell};
use anyhow::{Result, bail, ensure};
use gix_commitgraph::file::Commit;
use gix_commitgraph::{File, Graph, Position};
use graph_folder::folder::{Folder, Memory};
use graph_history::{Checked, CheckedGraph};
use graph_vectors::{Row, build, plan_of_rows};
use std::alloc::{AllocError, Global};
use std::convert::Infallible;
use std::fs;

/// Opens a layer.
pub fn open_layer(rt: &HostRuntime, alloc: Global) -> Result<()> {
    begin(rt)?;
    let answer = File::at(rt, alloc, "f");
    tell(rt, &answer.map(|file| file.num_commits()))
}

/// Checks a layer, then copies what the check counted. Each has a line.
pub fn traverse(rt: &HostRuntime, alloc: Global) -> Result<()> {
    let layer = File::at(rt, alloc, "f")?;
    begin(rt)?;
    let mut calls = 0u32;
    let answer = layer.traverse(
        alloc,
        &mut |commit: &Commit<'_>| -> Result<(), Infallible> {
            calls = if commit.position().0 == calls {
                calls.saturating_add(1)
            } else {
                u32::MAX
            };
            Ok(())
        },
    );
    match answer {
        Ok(outcome) => {
            tell(rt, &(Ok::<u32, ()>(outcome.num_commits), calls))?;
            tell(rt, &outcome.try_clone().map(|copy| copy == outcome))
        }
        Err(error) => tell(rt, &(Err::<u32, _>(error), calls)),
    }
}

/// Checks a graph, then copies what the check counted. Each has a line.
pub fn verify_integrity(rt: &HostRuntime, alloc: Global) -> Result<()> {
    let graph = Graph::at(rt, alloc, "chain")?;
    begin(rt)?;
    let mut calls = 0u32;
    let answer = graph.verify_integrity(
        alloc,
        &mut |commit: &Commit<'_>| -> Result<(), Infallible> {
            calls = if u32::from(commit.id().first_byte()) == calls.saturating_add(1) {
                calls.saturating_add(1)
            } else {
                u32::MAX
            };
            Ok(())
        },
    );
    match answer {
        Ok(outcome) => {
            tell(rt, &(Ok::<u32, ()>(outcome.num_commits), calls))?;
            tell(rt, &outcome.try_clone().map(|copy| copy == outcome))
        }
        Err(error) => tell(rt, &(Err::<u32, _>(error), calls)),
    }
}

/// Checks a graph that is lent, and tells how many commits it has.
pub fn check(rt: &HostRuntime, alloc: Global) -> Result<()> {
    let graph = Graph::at(rt, alloc, "chain")?;
    begin(rt)?;
    let answer = Checked::new(alloc, &graph);
    tell(rt, &answer.map(|checked| checked.num_commits()))
}

/// Tells what the last commit of a graph and all its commits have in common, which is that commit,
/// and how far they have come apart.
pub fn merge_bases(rt: &HostRuntime, alloc: Global) -> Result<()> {
    let graph = Graph::at(rt, alloc, "chain")?;
    let checked = Checked::new(alloc, &graph)?;
    let all = positions(alloc, &checked)?;
    let Some(last) = all.last() else {
        bail!("no commit");
    };
    begin(rt)?;
    let bases = checked.merge_bases(alloc, *last, &all);
    tell(rt, &bases.map(|bases| bases.positions))?;
    tell(rt, &checked.divergence(alloc, *last, &all))
}

/// The positions of all commits.
fn positions(alloc: Global, checked: &Checked<'_>) -> Result<Vec<Position>, AllocError>
    ensures { IfOk result (λ all.
        All (λ pos. pos.0 < total checked.now.layers) all.items) }
{
    let mut all = Vec::new(alloc);
    for number in 0..checked.num_commits() {
        all.push(Position(number))?;
    }
    Ok(all)
}

/// Puts the upper layer of the chain on top of the lower one, which was checked, and tells how many
/// commits the graph has after that.
pub fn push(rt: &HostRuntime, alloc: Global) -> Result<()> {
    let mut lower = CheckedGraph::new(alloc, Graph::at(rt, alloc, "lower")?)?;
    let upper = File::at(rt, alloc, "upper")?;
    begin(rt)?;
    let answer = lower.push(alloc, upper);
    tell(rt, &(answer, lower.as_checked().num_commits()))
}

/// The commits of the file `f`.
const FOUR: &[Row<'static>] = &[(1, &[], 1), (2, &[0], 2), (3, &[1], 3), (4, &[0, 0, 2], 4)];

/// Builds a file, and tells whether it is `f`.
pub fn build_file(rt: &HostRuntime, alloc: Global) -> Result<()> {
    let plan = plan_of_rows(alloc, &[], FOUR)?;
    ensure!(plan.is_buildable(), "no file can hold it");
    let bytes = fs::read(rt, "f")?;
    begin(rt)?;
    tell(rt, &build(alloc, &plan).map(|built| built == bytes))
}

/// Puts a file into a folder, and tells what stands there.
pub fn put_file(rt: &HostRuntime, alloc: Global) -> Result<()> {
    let (path, bytes) = (String::from_str(alloc, "f")?, Vec::new(alloc));
    begin(rt)?;
    let mut memory = Memory::new(alloc);
    let answer = memory.put_file(path, bytes);
    tell(rt, &(answer, standing(alloc, &mut memory)))
}

/// Puts a folder into a folder, and tells what stands there.
pub fn put_dir(rt: &HostRuntime, alloc: Global) -> Result<()> {
    let path = String::from_str(alloc, "f")?;
    begin(rt)?;
    let mut memory = Memory::new(alloc);
    let answer = memory.put_dir(path);
    tell(rt, &(answer, standing(alloc, &mut memory)))
}

/// Whether a file stands there, and whether a folder does.
type Standing = (Result<bool, AllocError>, Result<bool, AllocError>);

fn standing(alloc: Global, memory: &mut Memory) -> Standing {
    (memory.is_file(alloc, "f"), memory.is_dir(alloc, "f"))
}
