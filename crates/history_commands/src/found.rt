//! What searches find in a graph that was checked, by the ids of commits.

ghost use Rattle.std.specs.Prelude.{◌≡◌, ◌<◌, [], ◌∷◌, All, IfErr, IfNone, IfOk, IfSome, IsNone};
ghost use Rattle.std.specs.Prelude.{length};
ghost use Rattle.std.specs.List.{AllZip};
ghost use Rattle.gix_hash_core.specs.Oid.{oid_bytes};
ghost use Rattle.graph_walks.specs.Walks.{Reaches};
ghost use Rattle.graph_format.specs.StoredHistory.{history_of};
ghost use Rattle.gix_commitgraph.specs.Graph.{IsGraph, total};
ghost use Rattle.gix_commitgraph.specs.IdWalks.{ids_at};
ghost use Rattle.commit_search.specs.Positions.{numbers_of};
ghost use Rattle.commit_search.specs.WalkAnswer.{IsShortestWalk};
ghost use Rattle.answers.specs.FoundOf.{FindsAt, IsFoundOf, OfFirst, OfTwo, known_map};
ghost use Rattle.answers.specs.FoundOf.{listed_comparison, listed_walk};
ghost use Rattle.graph_commands.specs.Ancestor.{IsThere};
ghost use Rattle.graph_history.specs.GraphComparison.{AreDatesOf, IsComparisonInOrder};
ghost use Rattle.history_commands.specs.CheckedReplies.{AreBasesOf, IsFirstMissing, IsTold};
ghost use Rattle.history_commands.specs.CheckedReplies.{IsWalkOfIds, Scans};

use crate::dates::KnownDates;
use answers::{Answer, IdComparison};
use gix_commitgraph::Position;
use gix_hash_core::{ObjectId, oid};
use graph_commands::refusal::Refusal;
use graph_history::{Checked, Comparer, Comparison, Searcher};
use std::alloc::{AllocError, Global};

/// Whether the commit with the first id is an ancestor of the one with the second, or the same.
/// From the second question on, the search goes by corrected dates too, where the graph has right
/// ones.
/// The error is `Walk`, where an allocation failed; both are there then.
pub(crate) fn is_ancestor(
    alloc: Global,
    graph: &Checked<'_>,
    searcher: &mut Searcher<'_>,
    dates: &mut KnownDates,
    first: oid<'_>,
    second: oid<'_>,
) -> Result<Answer<bool>, Refusal>
    requires searcher { searcher.old ≡ graph.now.layers }
    requires dates { IfSome dates.old.found (AreDatesOf graph.now.layers) }
    ensures found { IfOk result (IsFoundOf (Scans graph.now.layers)
        (OfTwo (IsTold graph.now.layers))
        (oid_bytes first.entry ∷ oid_bytes second.entry ∷ [])) }
    ensures refused { IfErr result (λ refusal. (refusal ≡ Refusal.Walk)
        × All (IsThere graph.now.layers) (oid_bytes first.entry ∷ oid_bytes second.entry ∷ [])) }
    ensures searcher { searcher.new ≡ searcher.old }
    ensures dates { IfSome dates.new.found (AreDatesOf graph.now.layers) }
{
    let Some(first) = graph.find(first) else {
        return Ok(Answer::Unknown(1));
    };
    let Some(second) = graph.find(second) else {
        return Ok(Answer::Unknown(2));
    };
    dates.look_again(alloc, graph);
    match told_between(graph, searcher, dates, first, second) {
        Ok(told) => Ok(Answer::Known(told)),
        Err(_) => Err(Refusal::Walk),
    }
}

/// Whether one commit is an ancestor of another, or the same, by a search that goes by corrected
/// dates too, where some are known.
fn told_between(
    graph: &Checked<'_>,
    searcher: &mut Searcher<'_>,
    dates: &KnownDates,
    ancestor: Position,
    descendant: Position,
) -> Result<bool, AllocError>
    requires searcher { searcher.old ≡ graph.now.layers }
    requires dates { IfSome dates.now.found (AreDatesOf graph.now.layers) }
    requires ancestor { ancestor.0 < total graph.now.layers }
    requires descendant { descendant.0 < total graph.now.layers }
    ensures told { IfOk result (IsTold graph.now.layers ancestor.0 descendant.0) }
    ensures searcher { searcher.new ≡ searcher.old }
{
    match &dates.found {
        Some(found) => graph.is_ancestor_by_dates(searcher, found, ancestor, descendant),
        None => searcher.is_ancestor(ancestor, descendant),
    }
}

/// The ids on a shortest walk along parents from the commit with the first id to the one with the
/// second. The search goes by the numbers that [`is_ancestor`] goes by. The error is `Walk`, where
/// an allocation failed; both are there then.
pub(crate) fn walk(
    alloc: Global,
    graph: &Checked<'_>,
    searcher: &mut Searcher<'_>,
    dates: &mut KnownDates,
    first: oid<'_>,
    second: oid<'_>,
) -> Result<Answer<Option<Vec<ObjectId>>>, Refusal>
    requires searcher { searcher.old ≡ graph.now.layers }
    requires dates { IfSome dates.old.found (AreDatesOf graph.now.layers) }
    ensures found { IfOk result (λ found. IsFoundOf (Scans graph.now.layers)
        (OfTwo (IsWalkOfIds graph.now.layers))
        (oid_bytes first.entry ∷ oid_bytes second.entry ∷ []) (known_map listed_walk found)) }
    ensures refused { IfErr result (λ refusal. (refusal ≡ Refusal.Walk)
        × All (IsThere graph.now.layers) (oid_bytes first.entry ∷ oid_bytes second.entry ∷ [])) }
    ensures searcher { searcher.new ≡ searcher.old }
    ensures dates { IfSome dates.new.found (AreDatesOf graph.now.layers) }
{
    let Some(first) = graph.find(first) else {
        return Ok(Answer::Unknown(1));
    };
    let Some(second) = graph.find(second) else {
        return Ok(Answer::Unknown(2));
    };
    dates.look_again(alloc, graph);
    match walk_between(alloc, graph, searcher, dates, first, second) {
        Ok(walk) => Ok(Answer::Known(walk)),
        Err(_) => Err(Refusal::Walk),
    }
}

/// The ids on a shortest walk along parents from one commit to another, or that there is none.
fn walk_between(
    alloc: Global,
    graph: &Checked<'_>,
    searcher: &mut Searcher<'_>,
    dates: &KnownDates,
    from: Position,
    to: Position,
) -> Result<Option<Vec<ObjectId>>, AllocError>
    requires searcher { searcher.old ≡ graph.now.layers }
    requires dates { IfSome dates.now.found (AreDatesOf graph.now.layers) }
    requires from { from.0 < total graph.now.layers }
    requires to { to.0 < total graph.now.layers }
    ensures walk { IfOk result (λ walk.
        IsWalkOfIds graph.now.layers from.0 to.0 (listed_walk walk)) }
    ensures searcher { searcher.new ≡ searcher.old }
{
    // The contract of `num_commits` says that the layers make a graph.
    let _commits = graph.num_commits();
    let found = steps_between(graph, searcher, dates, from, to)?;
    match found {
        Some(walk) => match ids_of(alloc, graph, &walk) {
            Ok(ids) => Ok(Some(ids)),
            Err(error) => Err(error),
        },
        None => Ok(None),
    }
}

/// The positions on a shortest walk along parents from one commit to another, or that there is
/// none, by a search that goes by corrected dates too, where some are known.
fn steps_between(
    graph: &Checked<'_>,
    searcher: &mut Searcher<'_>,
    dates: &KnownDates,
    from: Position,
    to: Position,
) -> Result<Option<Vec<Position>>, AllocError>
    requires searcher { searcher.old ≡ graph.now.layers }
    requires dates { IfSome dates.now.found (AreDatesOf graph.now.layers) }
    requires from { from.0 < total graph.now.layers }
    requires to { to.0 < total graph.now.layers }
    ensures walk { IfOk result (λ answer. IfSome answer (λ walk.
        IsShortestWalk (history_of graph.now.layers) from.0 to.0 (numbers_of walk.items))) }
    ensures none { IfOk result (λ answer. IfNone answer
        (¬ Reaches (history_of graph.now.layers) from.0 to.0)) }
    ensures searcher { searcher.new ≡ searcher.old }
{
    match &dates.found {
        Some(found) => {
            let reached = graph.ancestor_walk_by_dates(searcher, found, from, to)?;
            Ok(reached.walk)
        }
        None => {
            let reached = searcher.ancestor_walk(from, to)?;
            Ok(reached.walk)
        }
    }
}

/// The ids of the commits at some positions, in their order.
fn ids_of(
    alloc: Global,
    graph: &Checked<'_>,
    positions: &[Position],
) -> Result<Vec<ObjectId>, AllocError>
    requires { All (λ pos. pos.0 < total graph.now.layers) positions.now }
    ensures { IfOk result (λ ids.
        ids.items ≡ ids_at graph.now.layers (numbers_of positions.now)) }
{
    let mut ids = Vec::with_capacity(alloc, positions.len())?;
    for pos in positions {
        ids.push(graph.id(*pos).to_owned())?;
    }
    Ok(ids)
}

/// What the commit with the first id and those with the others have in common, in the graph of a
/// comparer, by a search in the order of its corrected dates, where it has right ones. The error is
/// `Walk`, where an allocation failed; all of them are there then.
pub(crate) fn compare(
    alloc: Global,
    comparer: &mut Comparer<'_, '_>,
    dates: &mut KnownDates,
    first: oid<'_>,
    others: &[ObjectId],
) -> Result<Answer<IdComparison<Vec<ObjectId>>>, Refusal>
    requires { IfSome dates.old.found (AreDatesOf comparer.old.layers) }
    ensures found { IfOk result (λ found. IsFoundOf (Scans comparer.old.layers)
        (OfFirst (AreBasesOf comparer.old.layers)) (oid_bytes first.entry ∷ others.now)
        (known_map listed_comparison found)) }
    ensures refused { IfErr result (λ refusal. (refusal ≡ Refusal.Walk)
        × All (IsThere comparer.old.layers) (oid_bytes first.entry ∷ others.now)) }
    ensures comparer { comparer.new ≡ comparer.old }
    ensures dates { IfSome dates.new.found (AreDatesOf comparer.old.layers) }
{
    let graph = comparer.graph();
    let Some(first) = graph.find(first) else {
        return Ok(Answer::Unknown(1));
    };
    if let Some(place) = find_missing(graph, others) {
        return Ok(Answer::Unknown(place as u64 + 2));
    }
    let Ok(others) = find_all(alloc, graph, others) else {
        return Err(Refusal::Walk);
    };
    dates.look(alloc, graph);
    match compare_at(alloc, comparer, dates, first, &others) {
        Ok(known) => Ok(Answer::Known(known)),
        Err(_) => Err(Refusal::Walk),
    }
}

/// What the commits at some positions have in common, with the ids of the merge bases.
fn compare_at(
    alloc: Global,
    comparer: &mut Comparer<'_, '_>,
    dates: &KnownDates,
    first: Position,
    others: &[Position],
) -> Result<IdComparison<Vec<ObjectId>>, AllocError>
    requires dates { IfSome dates.now.found (AreDatesOf comparer.old.layers) }
    requires first { first.0 < total comparer.old.layers }
    requires others { All (λ other. other.0 < total comparer.old.layers) others.now }
    ensures known { IfOk result (λ known. AreBasesOf comparer.old.layers first.0
        (numbers_of others.now) (listed_comparison known)) }
    ensures comparer { comparer.new ≡ comparer.old }
{
    let comparison = compare_in_order(comparer, dates, first, others)?;
    let base_ids = ids_of(alloc, comparer.graph(), &comparison.bases.positions)?;
    Ok(IdComparison {
        comparison,
        base_ids,
    })
}

/// What the commits at some positions have in common, by a search in the order of the corrected
/// dates, where some are known, and else of the generation numbers.
fn compare_in_order(
    comparer: &mut Comparer<'_, '_>,
    dates: &KnownDates,
    first: Position,
    others: &[Position],
) -> Result<Comparison, AllocError>
    requires dates { IfSome dates.now.found (AreDatesOf comparer.old.layers) }
    requires first { first.0 < total comparer.old.layers }
    requires others { All (λ other. other.0 < total comparer.old.layers) others.now }
    ensures exact { IfOk result (IsComparisonInOrder comparer.old.layers first.0
        (numbers_of others.now)) }
    ensures comparer { comparer.new ≡ comparer.old }
{
    match &dates.found {
        Some(found) => comparer.compare_by_dates(found, first, others),
        None => comparer.compare(first, others),
    }
}

/// The place of the first id that is not in a graph that was checked, if there is one. The first
/// place is 0.
fn find_missing(graph: &Checked<'_>, ids: &[ObjectId]) -> Option<usize>
    ensures missing { IfSome result (λ place. (place < length ids.now)
        × IsFirstMissing graph.now.layers ids.now place) }
    ensures there { IsNone result → All (IsThere graph.now.layers) ids.now }
{
    for (place, id) in ids.iter().enumerate() {
        if graph.find(id.as_oid()).is_none() {
            return Some(place);
        }
    }
    None
}

/// The positions of the commits with these ids, in a graph that was checked and has them all.
fn find_all(
    alloc: Global,
    graph: &Checked<'_>,
    ids: &[ObjectId],
) -> Result<Vec<Position>, AllocError>
    requires { All (IsThere graph.now.layers) ids.now }
    ensures found { IfOk result (λ found.
        AllZip (FindsAt (Scans graph.now.layers)) ids.now (numbers_of found.items)) }
    ensures within { IfOk result (λ found.
        All (λ pos. pos.0 < total graph.now.layers) found.items) }
{
    let mut found = Vec::new(alloc);
    for id in ids {
        let Some(pos) = graph.find(id.as_oid()) else {
            unreachable!()
        };
        found.push(pos)?;
    }
    Ok(found)
}
