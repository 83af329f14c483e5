//! What a new layer is to say of its commits.

ghost use Rattle.std.specs.Prelude.{◌≡◌, ◌≤◌, [], IfOk, IfErr, None, length};
ghost use Rattle.gix_chunk_core.specs.FirstFault.{first_below};
ghost use Rattle.gix_commitgraph.specs.Graph.{graph_ids, total};
ghost use Rattle.graph_format.specs.Reports.{Reports};
ghost use Rattle.graph_format.specs.declared.TheConstants as limits;
ghost use Rattle.graph_writer.specs.NewCommits.{layers_of_below};
ghost use Rattle.graph_writer.specs.WriteRefusal.{kind_to_write, below_at, new_layer_refusal};
ghost use Rattle.graph_writer.specs.WriteRefusal.{plain_refusal, MayRefuseNewLayer};

use crate::below::check_new;
use crate::check::check_each;
use crate::commit::{NewCommit, WriteError};
use crate::guide::Guide;
use crate::handed::{Handed, handed_in};
use crate::order::{order_of, places_by_front};
use crate::resolve::Known;
use crate::view::CommitView;
use gix_commitgraph::MAX_COMMITS;
use gix_hash_core::Kind;
use graph_history::Checked;
use graph_levels::ParentLists;
use std::alloc::Global;

/// What a new layer is to say of its commits: their order, and the positions of their parents.
#[derive(Debug, Drop)]
pub struct NewLayer {
    /// The numbers of the commits among those handed in, in the order of their ids.
    pub order: Vec<usize>,
    /// The positions of the parents of each, in that order. They count the commits below first.
    pub parents: ParentLists,
}

impl NewLayer {
    ghost use Rattle.graph_writer.specs.NewLayers.{IsNewLayer, times_in_order};

    /// The layer of these commits on top of a graph, or on none.
    ///
    /// # Errors
    ///
    /// The first of [`WriteError`] that holds, in their order. `OutOfMemory` comes only where there
    /// are commits and each is right by itself: ids are compared once they stand in memory.
    pub fn of(
        alloc: Global,
        below: Option<&Checked<'_>>,
        commits: &[NewCommit],
    ) -> Result<NewLayer, WriteError>
        ensures layer { IfOk result (IsNewLayer (layers_of_below below.entry) commits.now) }
        ensures accepted { IfOk result (λ _.
            new_layer_refusal (layers_of_below below.entry) commits.now ≡ None) }
        ensures refusal { IfErr result
            (MayRefuseNewLayer (layers_of_below below.entry) commits.now) }
    {
        let handed = handed_in(commits);
        let (new, _) = NewLayer::with_times(alloc, below, &handed)?;
        Ok(new)
    }

    /// The same, and the times of the commits in their order.
    pub(crate) fn with_times<C: CommitView>(
        alloc: Global,
        below: Option<&Checked<'_>>,
        commits: &Handed<'_, C>,
    ) -> Result<(NewLayer, Vec<u64>), WriteError>
        ensures layer { IfOk result (λ found.
            IsNewLayer (layers_of_below below.entry) commits.now found.0) }
        ensures times { IfOk result (λ found. found.1.items
            ≡ times_in_order commits.now found.0.order.items) }
        ensures accepted { IfOk result (λ _.
            new_layer_refusal (layers_of_below below.entry) commits.now ≡ None) }
        ensures refusal { IfErr result
            (MayRefuseNewLayer (layers_of_below below.entry) commits.now) }
    {
        let start = number_below(below);
        check_alone(below, commits)?;
        let places = places_by_front(alloc, commits)?;
        let order = order_of(alloc, commits, &places)?;
        check_all_new(below, commits)?;
        if commits.len() > MAX_COMMITS as usize - start as usize {
            return Err(WriteError::TooManyCommits);
        }
        let known = Known {
            below,
            start,
            commits,
            order: &order,
        };
        let guide = Guide::of(alloc, &places)?;
        let (parents, times) = known.resolve(alloc, &guide)?;
        Ok((NewLayer { order, parents }, times))
    }
}

/// Refuses commits for what needs no memory to be seen: one is wrong by itself, or there are none.
fn check_alone<C: CommitView>(
    below: Option<&Checked<'_>>,
    commits: &Handed<'_, C>,
) -> Result<(), WriteError>
    ensures { Reports result (plain_refusal (layers_of_below below.entry) commits.now) }
{
    check_each(kind_to_write(below, commits), commits)?;
    if commits.is_empty() {
        return Err(WriteError::Nothing);
    }
    Ok(())
}

/// The kind of hash of the layer.
pub(crate) fn kind_to_write<C: CommitView>(
    below: Option<&Checked<'_>>,
    commits: &Handed<'_, C>,
) -> Kind
    ensures { result ≡ kind_to_write (layers_of_below below.entry) commits.now }
{
    match below {
        Some(graph) => graph.graph().object_hash(),
        None => kind_of_first(commits),
    }
}

/// The kind of hash of the first commit.
fn kind_of_first<C: CommitView>(commits: &Handed<'_, C>) -> Kind
    ensures { result ≡ kind_to_write [] commits.now }
{
    if commits.is_empty() {
        return Kind::shortest();
    }
    let first = commits.at(0);
    first.id().kind()
}

/// Refuses the first commit whose id the graph below has, if there is a graph.
#[tactic(auto, using(crate::proofs::layers::RefusalSteps::none_below))]
fn check_all_new<C: CommitView>(
    below: Option<&Checked<'_>>,
    commits: &Handed<'_, C>,
) -> Result<(), WriteError>
    ensures { Reports result
        (first_below (below_at (graph_ids (layers_of_below below.entry)) commits.now)
        (length commits.now)) }
{
    match below {
        Some(graph) => check_new(graph, commits),
        None => Ok(()),
    }
}

/// The number of commits below.
fn number_below(below: Option<&Checked<'_>>) -> u32
    ensures commits { result ≡ total (layers_of_below below.entry) }
    ensures few { result ≤ limits.MAX_COMMITS }
{
    match below {
        Some(graph) => graph.num_commits(),
        None => 0,
    }
}
