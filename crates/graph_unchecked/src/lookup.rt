//! Which commits have some ids.

ghost use Rattle.std.specs.Prelude.{◌≡◌, ◌<◌, ◌∷◌, List, IfOk, IfSome};
ghost use Rattle.gix_hash_core.specs.Oid.{oid_bytes};
ghost use Rattle.graph_format.specs.Layer.{Layer};
ghost use Rattle.gix_commitgraph.specs.GraphLookup.{FoundIn, position_number};
ghost use Rattle.graph_parts.specs.Shown.{AreGraphParts, SeesMore, Shows, commits_of_parts};
ghost use Rattle.graph_unchecked.specs.PartLookups.{AreAllWithin, AreBoth, AreBothWithin};
ghost use Rattle.graph_unchecked.specs.PartLookups.{AreFirstAndOthers, AreOthersFound};
ghost use Rattle.graph_unchecked.specs.PartLookups.{AreOthersWithin};
ghost use Rattle.graph_unchecked.specs.Unchecked.{IsFoundAmong, IsFoundBetween};
ghost use Rattle.graph_unchecked.specs.Unread.{failures_after_reads};

use crate::unread::Unread;
use answers::Answer;
use gix_commitgraph::Position;
use gix_hash_core::{ObjectId, oid};
use graph_folder::folder::Folder;
use graph_parts::parts::{GraphParts, Lookup};
use std::alloc::Global;

/// The positions of two ids.
pub(crate) fn find_both<T: Folder>(
    alloc: Global,
    folder: &mut T,
    parts: &mut GraphParts,
    first: oid<'_>,
    second: oid<'_>,
) -> Result<Answer<(Position, Position)>, Unread>
    requires parts { AreGraphParts parts.old }
    ensures parts { AreGraphParts parts.new }
    ensures sees { SeesMore (T.tree folder.old) parts.old parts.new }
    ensures within { IfOk result (AreBothWithin (commits_of_parts parts.new)) }
    ensures found { IfOk result (λ found. (layers : List Layer)
        → Shows (T.tree folder.old) parts.new layers
        → IsFoundBetween AreBoth (oid_bytes first.entry) (oid_bytes second.entry) layers found) }
    ensures tree { T.tree folder.new ≡ T.tree folder.old }
    ensures failures { T.failure_count folder.new
        ≡ failures_after_reads result (T.failure_count folder.old) }
{
    let Some(first) = find(alloc, folder, parts, first)? else {
        return Ok(Answer::Unknown(1));
    };
    let Some(second) = find(alloc, folder, parts, second)? else {
        return Ok(Answer::Unknown(2));
    };
    Ok(Answer::Known((first, second)))
}

/// The positions of an id and of some others.
pub(crate) fn find_all<T: Folder>(
    alloc: Global,
    folder: &mut T,
    parts: &mut GraphParts,
    first: oid<'_>,
    others: &[ObjectId],
) -> Result<Answer<(Position, Vec<Position>)>, Unread>
    requires parts { AreGraphParts parts.old }
    ensures parts { AreGraphParts parts.new }
    ensures sees { SeesMore (T.tree folder.old) parts.old parts.new }
    ensures within { IfOk result (AreAllWithin (commits_of_parts parts.new)) }
    ensures found { IfOk result (λ found. (layers : List Layer)
        → Shows (T.tree folder.old) parts.new layers
        → IsFoundAmong AreFirstAndOthers (oid_bytes first.entry ∷ others.now) layers found) }
    ensures tree { T.tree folder.new ≡ T.tree folder.old }
    ensures failures { T.failure_count folder.new
        ≡ failures_after_reads result (T.failure_count folder.old) }
{
    let Some(first) = find(alloc, folder, parts, first)? else {
        return Ok(Answer::Unknown(1));
    };
    let found = find_others(alloc, folder, parts, others)?;
    match found {
        Answer::Unknown(number) => Ok(Answer::Unknown(number)),
        Answer::Known(others) => Ok(Answer::Known((first, others))),
    }
}

/// The positions of the ids after the first.
fn find_others<T: Folder>(
    alloc: Global,
    folder: &mut T,
    parts: &mut GraphParts,
    others: &[ObjectId],
) -> Result<Answer<Vec<Position>>, Unread>
    requires { AreGraphParts parts.old }
    ensures parts { AreGraphParts parts.new }
    ensures sees { SeesMore (T.tree folder.old) parts.old parts.new }
    ensures within { IfOk result (AreOthersWithin (commits_of_parts parts.old)) }
    ensures found { IfOk result (λ answer. (layers : List Layer)
        → Shows (T.tree folder.old) parts.new layers
        → AreOthersFound layers others.now answer) }
    ensures tree { T.tree folder.new ≡ T.tree folder.old }
    ensures failures { T.failure_count folder.new
        ≡ failures_after_reads result (T.failure_count folder.old) }
{
    let mut found = Vec::new(alloc);
    for (place, id) in others.iter().enumerate() {
        let Some(pos) = find(alloc, folder, parts, id.as_oid())? else {
            return Ok(Answer::Unknown(place as u64 + 2));
        };
        found.push(pos).map_err(|_| Unread::OutOfMemory)?;
    }
    Ok(Answer::Known(found))
}

/// The position of an id.
pub(crate) fn find<T: Folder>(
    alloc: Global,
    folder: &mut T,
    parts: &mut GraphParts,
    id: oid<'_>,
) -> Result<Option<Position>, Unread>
    requires { AreGraphParts parts.old }
    ensures parts { AreGraphParts parts.new }
    ensures sees { SeesMore (T.tree folder.old) parts.old parts.new }
    ensures within { IfOk result (λ answer. IfSome answer (λ pos.
        pos.0 < commits_of_parts parts.old)) }
    ensures found { IfOk result (λ answer. (layers : List Layer)
        → Shows (T.tree folder.old) parts.new layers
        → FoundIn layers (oid_bytes id.entry) (position_number answer)) }
    ensures tree { T.tree folder.new ≡ T.tree folder.old }
    ensures failures { T.failure_count folder.new
        ≡ failures_after_reads result (T.failure_count folder.old) }
{
    match parts.position_of(alloc, folder, id)? {
        Lookup::Found(pos) => Ok(Some(pos)),
        Lookup::Missing => Ok(None),
        Lookup::NotByParts => Err(Unread::NotByParts),
    }
}
