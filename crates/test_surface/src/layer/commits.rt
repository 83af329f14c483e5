//! Commits, their parents, and what the fields of parents say.

ghost use Rattle.std.specs.Prelude.{◌≡◌};
ghost use Rattle.gix_commitgraph.specs.RemainingParents.{parents_hint};

use crate::bounds;
use gix_commitgraph::file::commit::{Commit, ExtraEdge, ParentEdge, ParentError, Parents};
use gix_commitgraph::{Position, file};
use gix_hash_core::oid;

/// The id is lent from the file, and outlives the `Commit`.
fn id<'f>(commit: &Commit<'f>) -> oid<'f> {
    Commit::id(commit)
}

fn root_tree_id<'f>(commit: &Commit<'f>) -> oid<'f> {
    Commit::root_tree_id(commit)
}

fn position(commit: &Commit<'_>) -> file::Position {
    Commit::position(commit)
}

fn generation(commit: &Commit<'_>) -> u32 {
    Commit::generation(commit)
}

fn committer_timestamp(commit: &Commit<'_>) -> u64 {
    Commit::committer_timestamp(commit)
}

fn parent1(commit: &Commit<'_>) -> Result<Option<Position>, ParentError> {
    Commit::parent1(commit)
}

fn iter_parents<'f>(commit: Commit<'f>) -> Parents<'f> {
    bounds::plain::<Commit<'f>>();
    bounds::iterator::<Result<Position, ParentError>, Parents<'f>>();
    Commit::iter_parents(commit)
}

/// The type has a `next` of its own, besides that of `Iterator`.
fn next(parents: &mut Parents<'_>) -> Option<Result<Position, ParentError>> {
    Parents::next(parents)
}

fn size_hint(parents: &Parents<'_>) -> (usize, Option<usize>)
    ensures { result ≡ parents_hint parents.now }
{
    parents.size_hint()
}

fn parent_errors(error: &ParentError) {
    bounds::plain_error::<ParentError>();
    use ParentError::*;
    match error {
        SecondWithoutFirst | FirstIsEdgeIndex | NoEdgeList | EdgeOverflow => {}
    }
}

fn parent_edges(edge: &ParentEdge) {
    bounds::plain::<ParentEdge>();
    match edge {
        ParentEdge::None => {}
        ParentEdge::GraphPosition(pos) => bounds::of_type::<Position>(pos),
        ParentEdge::ExtraEdgeIndex(index) => bounds::of_type::<u32>(index),
    }
}

fn parent_edge(raw: u32) -> ParentEdge {
    ParentEdge::from_raw(raw)
}

fn extra_edges(edge: &ExtraEdge) {
    bounds::plain::<ExtraEdge>();
    match edge {
        ExtraEdge::Internal(pos) | ExtraEdge::Last(pos) => bounds::of_type::<Position>(pos),
    }
}

fn extra_edge(raw: u32) -> ExtraEdge {
    ExtraEdge::from_raw(raw)
}
