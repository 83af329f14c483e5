//! The searches for walks along parents and for merge bases, over parts that are kept, as is their
//! memory.

ghost use Rattle.std.specs.Prelude.{◌≡◌, ◌<◌, ◌∷◌, All, List, IfOk, IfSome};
ghost use Rattle.std.specs.Option.{ForSome};
ghost use Rattle.gix_hash_core.specs.Oid.{oid_bytes};
ghost use Rattle.graph_format.specs.Layer.{Layer};
ghost use Rattle.graph_format.specs.OptionalChunks.{HasDates};
ghost use Rattle.gix_commitgraph.specs.Graph.{IsGraph};
ghost use Rattle.commit_search.specs.Positions.{numbers_of};
ghost use Rattle.graph_parts.specs.OfTree.{AreOfTree};
ghost use Rattle.graph_parts.specs.Shown.{AreGraphParts, Shows, commits_of_parts};
ghost use Rattle.graph_unchecked.specs.PartSearches.{AreBasesUnchecked, IsStepsUnchecked};
ghost use Rattle.graph_unchecked.specs.PartSource.{ReadsOn};
ghost use Rattle.graph_unchecked.specs.Unchecked.{IsComparedUnchecked, IsFoundAmong};
ghost use Rattle.graph_unchecked.specs.Unchecked.{IsFoundBetween, IsToldUnchecked};
ghost use Rattle.graph_unchecked.specs.Unchecked.{IsWalkUnchecked};
ghost use Rattle.graph_unchecked.specs.Unread.{failures_after_reads};

use crate::dates::PartDates;
use crate::ids::read_ids;
use crate::lookup::{find_all, find_both};
use crate::source::TrustedCommits;
use crate::unread::Unread;
use answers::{Answer, IdComparison};
use commit_search::FewSearcher;
use gix_commitgraph::Position;
use gix_hash_core::{ObjectId, oid};
use graph_bases::law::corrected_dates_fall_along_parents;
use graph_bases::{Comparison, FewComparer};
use graph_folder::folder::Folder;
use graph_parts::parts::GraphParts;
use std::alloc::Global;

/// So many commits a search for merge bases visits by generation numbers, before one by dates takes
/// its place: their dates are reads of their own, and few searches visit more.
const MOST_BY_GENERATIONS: u32 = 8192;

/// Whether the commit with the first id is an ancestor of the one with the second, or the same.
pub(crate) fn told_between<T: Folder>(
    searcher: &mut FewSearcher,
    alloc: Global,
    folder: &mut T,
    parts: &mut GraphParts,
    first: oid<'_>,
    second: oid<'_>,
) -> Result<Answer<bool>, Unread>
    requires parts { AreGraphParts parts.old }
    requires of { AreOfTree (T.tree folder.old) parts.old }
    ensures reads { ReadsOn (T.tree folder.old) parts.old parts.new }
    ensures told { ForSome (T.tree folder.old) (λ _. (layers : List Layer)
        → Shows (T.tree folder.old) parts.old layers → IsGraph layers
        → IfOk result (IsFoundBetween IsToldUnchecked
        (oid_bytes first.entry) (oid_bytes second.entry) layers)) }
    ensures tree { T.tree folder.new ≡ T.tree folder.old }
    ensures failures { T.failure_count folder.new
        ≡ failures_after_reads result (T.failure_count folder.old) }
{
    let found = find_both(alloc, folder, parts, first, second)?;
    match found {
        Answer::Unknown(number) => Ok(Answer::Unknown(number)),
        Answer::Known((first, second)) => {
            let told = told_of(searcher, alloc, folder, parts, first, second)?;
            Ok(Answer::Known(told))
        }
    }
}

/// The ids on a walk along parents from the commit with the first id to the one with the second.
pub(crate) fn walk_between_ids<T: Folder>(
    searcher: &mut FewSearcher,
    alloc: Global,
    folder: &mut T,
    parts: &mut GraphParts,
    first: oid<'_>,
    second: oid<'_>,
) -> Result<Answer<Option<Vec<ObjectId>>>, Unread>
    requires parts { AreGraphParts parts.old }
    requires of { AreOfTree (T.tree folder.old) parts.old }
    ensures reads { ReadsOn (T.tree folder.old) parts.old parts.new }
    ensures told { ForSome (T.tree folder.old) (λ _. (layers : List Layer)
        → Shows (T.tree folder.old) parts.old layers → IsGraph layers
        → IfOk result (IsFoundBetween IsWalkUnchecked
        (oid_bytes first.entry) (oid_bytes second.entry) layers)) }
    ensures tree { T.tree folder.new ≡ T.tree folder.old }
    ensures failures { T.failure_count folder.new
        ≡ failures_after_reads result (T.failure_count folder.old) }
{
    let found = find_both(alloc, folder, parts, first, second)?;
    match found {
        Answer::Unknown(number) => Ok(Answer::Unknown(number)),
        Answer::Known((first, second)) => {
            let walk = walk_ids(searcher, alloc, folder, parts, first, second)?;
            Ok(Answer::Known(walk))
        }
    }
}

/// What the commit with the first id and those with the others have in common, and the ids of the
/// merge bases.
pub(crate) fn compared_among<T: Folder>(
    comparer: &mut FewComparer,
    alloc: Global,
    folder: &mut T,
    parts: &mut GraphParts,
    first: oid<'_>,
    others: &[ObjectId],
) -> Result<Answer<IdComparison<Vec<ObjectId>>>, Unread>
    requires parts { AreGraphParts parts.old }
    requires of { AreOfTree (T.tree folder.old) parts.old }
    ensures reads { ReadsOn (T.tree folder.old) parts.old parts.new }
    ensures told { ForSome (T.tree folder.old) (λ _. (layers : List Layer)
        → Shows (T.tree folder.old) parts.old layers → IsGraph layers
        → IfOk result (IsFoundAmong IsComparedUnchecked
        (oid_bytes first.entry ∷ others.now) layers)) }
    ensures tree { T.tree folder.new ≡ T.tree folder.old }
    ensures failures { T.failure_count folder.new
        ≡ failures_after_reads result (T.failure_count folder.old) }
{
    let found = find_all(alloc, folder, parts, first, others)?;
    match found {
        Answer::Unknown(number) => Ok(Answer::Unknown(number)),
        Answer::Known((first, others)) => {
            let comparison = compared(comparer, alloc, folder, parts, first, &others)?;
            Ok(Answer::Known(comparison))
        }
    }
}

/// Whether the first commit is an ancestor of the second, or the same.
fn told_of<T: Folder>(
    searcher: &mut FewSearcher,
    alloc: Global,
    folder: &mut T,
    parts: &mut GraphParts,
    first: Position,
    second: Position,
) -> Result<bool, Unread>
    requires parts { AreGraphParts parts.old }
    requires of { AreOfTree (T.tree folder.old) parts.old }
    requires first { first.0 < commits_of_parts parts.old }
    requires second { second.0 < commits_of_parts parts.old }
    ensures reads { ReadsOn (T.tree folder.old) parts.old parts.new }
    ensures told { ForSome (T.tree folder.old) (λ _. (layers : List Layer)
        → Shows (T.tree folder.old) parts.old layers → IsGraph layers
        → IfOk result (IsToldUnchecked layers first.0 second.0)) }
    ensures tree { T.tree folder.new ≡ T.tree folder.old }
    ensures failures { T.failure_count folder.new
        ≡ failures_after_reads result (T.failure_count folder.old) }
{
    let failures = folder.failures();
    let mut commits = TrustedCommits {
        alloc,
        folder,
        parts,
        failures,
        failed: false,
        left: u32::MAX,
    };
    let told = searcher.is_ancestor(&mut commits, first, second);
    commits.unless_failed(told)
}

/// The ids on a walk along parents from the first commit to the second.
fn walk_ids<T: Folder>(
    searcher: &mut FewSearcher,
    alloc: Global,
    folder: &mut T,
    parts: &mut GraphParts,
    first: Position,
    second: Position,
) -> Result<Option<Vec<ObjectId>>, Unread>
    requires parts { AreGraphParts parts.old }
    requires of { AreOfTree (T.tree folder.old) parts.old }
    requires first { first.0 < commits_of_parts parts.old }
    requires second { second.0 < commits_of_parts parts.old }
    ensures reads { ReadsOn (T.tree folder.old) parts.old parts.new }
    ensures walk { ForSome (T.tree folder.old) (λ _. (layers : List Layer)
        → Shows (T.tree folder.old) parts.old layers → IsGraph layers
        → IfOk result (IsWalkUnchecked layers first.0 second.0)) }
    ensures tree { T.tree folder.new ≡ T.tree folder.old }
    ensures failures { T.failure_count folder.new
        ≡ failures_after_reads result (T.failure_count folder.old) }
{
    let found = walk_between(searcher, alloc, folder, parts, first, second)?;
    match found {
        Some(walk) => {
            let ids = read_ids(alloc, folder, parts, &walk)?;
            Ok(Some(ids))
        }
        None => Ok(None),
    }
}

/// The positions on a walk along parents from the first commit to the second.
fn walk_between<T: Folder>(
    searcher: &mut FewSearcher,
    alloc: Global,
    folder: &mut T,
    parts: &mut GraphParts,
    first: Position,
    second: Position,
) -> Result<Option<Vec<Position>>, Unread>
    requires parts { AreGraphParts parts.old }
    requires of { AreOfTree (T.tree folder.old) parts.old }
    requires first { first.0 < commits_of_parts parts.old }
    requires second { second.0 < commits_of_parts parts.old }
    ensures reads { ReadsOn (T.tree folder.old) parts.old parts.new }
    ensures walk { ForSome (T.tree folder.old) (λ _. (layers : List Layer)
        → Shows (T.tree folder.old) parts.old layers → IsGraph layers
        → IfOk result (IsStepsUnchecked layers first.0 second.0)) }
    ensures tree { T.tree folder.new ≡ T.tree folder.old }
    ensures failures { T.failure_count folder.new
        ≡ failures_after_reads result (T.failure_count folder.old) }
{
    let failures = folder.failures();
    let mut commits = TrustedCommits {
        alloc,
        folder,
        parts,
        failures,
        failed: false,
        left: u32::MAX,
    };
    let found = searcher.ancestor_walk(&mut commits, first, second);
    let reached = commits.unless_failed(found)?;
    Ok(reached.walk)
}

/// What the first commit and the others have in common, and the ids of the merge bases.
fn compared<T: Folder>(
    comparer: &mut FewComparer,
    alloc: Global,
    folder: &mut T,
    parts: &mut GraphParts,
    first: Position,
    others: &[Position],
) -> Result<IdComparison<Vec<ObjectId>>, Unread>
    requires parts { AreGraphParts parts.old }
    requires of { AreOfTree (T.tree folder.old) parts.old }
    requires first { first.0 < commits_of_parts parts.old }
    requires others { All (λ other. other.0 < commits_of_parts parts.old) others.now }
    ensures reads { ReadsOn (T.tree folder.old) parts.old parts.new }
    ensures compared { ForSome (T.tree folder.old) (λ _. (layers : List Layer)
        → Shows (T.tree folder.old) parts.old layers → IsGraph layers
        → IfOk result (IsComparedUnchecked layers first.0 (numbers_of others.now))) }
    ensures tree { T.tree folder.new ≡ T.tree folder.old }
    ensures failures { T.failure_count folder.new
        ≡ failures_after_reads result (T.failure_count folder.old) }
{
    let comparison = bases_of(comparer, alloc, folder, parts, first, others)?;
    let base_ids = read_ids(alloc, folder, parts, &comparison.bases.positions)?;
    Ok(IdComparison {
        comparison,
        base_ids,
    })
}

/// What the first commit and the others have in common. Where each layer has corrected dates, and a
/// search in the order of the generation numbers has visited many commits, it is found by one in
/// the order of the dates.
fn bases_of<T: Folder>(
    comparer: &mut FewComparer,
    alloc: Global,
    folder: &mut T,
    parts: &mut GraphParts,
    first: Position,
    others: &[Position],
) -> Result<Comparison, Unread>
    requires parts { AreGraphParts parts.old }
    requires of { AreOfTree (T.tree folder.old) parts.old }
    requires first { first.0 < commits_of_parts parts.old }
    requires others { All (λ other. other.0 < commits_of_parts parts.old) others.now }
    ensures reads { ReadsOn (T.tree folder.old) parts.old parts.new }
    ensures compared { ForSome (T.tree folder.old) (λ _. (layers : List Layer)
        → Shows (T.tree folder.old) parts.old layers → IsGraph layers
        → IfOk result (AreBasesUnchecked layers first.0 (numbers_of others.now))) }
    ensures tree { T.tree folder.new ≡ T.tree folder.old }
    ensures failures { T.failure_count folder.new
        ≡ failures_after_reads result (T.failure_count folder.old) }
{
    let most = if parts.has_dates() {
        MOST_BY_GENERATIONS
    } else {
        u32::MAX
    };
    let found = bases_by_generations(comparer, alloc, folder, parts, first, others, most)?;
    match found {
        Some(comparison) => Ok(comparison),
        None if parts.has_dates() => bases_by_dates(comparer, alloc, folder, parts, first, others),
        None => Err(Unread::NotByParts),
    }
}

/// What the first commit and the others have in common: the search visits the commits with the
/// highest generation numbers first, and no more than so many. `None` comes where these are not
/// enough.
fn bases_by_generations<T: Folder>(
    comparer: &mut FewComparer,
    alloc: Global,
    folder: &mut T,
    parts: &mut GraphParts,
    first: Position,
    others: &[Position],
    most: u32,
) -> Result<Option<Comparison>, Unread>
    requires parts { AreGraphParts parts.old }
    requires of { AreOfTree (T.tree folder.old) parts.old }
    requires first { first.0 < commits_of_parts parts.old }
    requires others { All (λ other. other.0 < commits_of_parts parts.old) others.now }
    ensures reads { ReadsOn (T.tree folder.old) parts.old parts.new }
    ensures compared { ForSome (T.tree folder.old) (λ _. (layers : List Layer)
        → Shows (T.tree folder.old) parts.old layers → IsGraph layers
        → IfOk result (λ found. IfSome found
        (AreBasesUnchecked layers first.0 (numbers_of others.now)))) }
    ensures tree { T.tree folder.new ≡ T.tree folder.old }
    ensures failures { T.failure_count folder.new
        ≡ failures_after_reads result (T.failure_count folder.old) }
{
    let failures = folder.failures();
    let mut commits = TrustedCommits {
        alloc,
        folder,
        parts,
        failures,
        failed: false,
        left: most,
    };
    let compared = comparer.compare(&mut commits, first, others);
    match commits.unless_failed(compared) {
        Ok(comparison) => Ok(Some(comparison)),
        Err(Unread::NotByParts) if commits.left == 0 => Ok(None),
        Err(error) => Err(error),
    }
}

/// What the first commit and the others have in common, where each layer has corrected dates: the
/// search visits the commits with the latest dates first.
fn bases_by_dates<T: Folder>(
    comparer: &mut FewComparer,
    alloc: Global,
    folder: &mut T,
    parts: &mut GraphParts,
    first: Position,
    others: &[Position],
) -> Result<Comparison, Unread>
    requires parts { AreGraphParts parts.old }
    requires of { AreOfTree (T.tree folder.old) parts.old }
    requires dates { (layers : List Layer) → Shows (T.tree folder.old) parts.old layers
        → All HasDates layers }
    requires first { first.0 < commits_of_parts parts.old }
    requires others { All (λ other. other.0 < commits_of_parts parts.old) others.now }
    ensures reads { ReadsOn (T.tree folder.old) parts.old parts.new }
    ensures compared { ForSome (T.tree folder.old) (λ _. (layers : List Layer)
        → Shows (T.tree folder.old) parts.old layers → IsGraph layers
        → IfOk result (AreBasesUnchecked layers first.0 (numbers_of others.now))) }
    ensures tree { T.tree folder.new ≡ T.tree folder.old }
    ensures failures { T.failure_count folder.new
        ≡ failures_after_reads result (T.failure_count folder.old) }
{
    corrected_dates_fall_along_parents();
    let failures = folder.failures();
    let mut commits = TrustedCommits {
        alloc,
        folder,
        parts,
        failures,
        failed: false,
        left: u32::MAX,
    };
    let compared = comparer.compare_by(&mut commits, &PartDates, first, others);
    commits.unless_failed(compared)
}
