//! What the file of a new layer is to hold.

ghost use Rattle.std.specs.Prelude.{◌≡◌, ◌+◌, ◌<◌, ◌≤◌, ◌^◌, ℕ, true, false, IfOk, IfSome};
ghost use Rattle.std.specs.Prelude.{IfNone, length, map, slice_index};
ghost use Rattle.graph_levels.specs.OnTop.{level_at};
ghost use Rattle.graph_writer.specs.FiltersInOrder.{MaybeInOrder};
ghost use Rattle.graph_writer.specs.NewCommits.{layers_of_below};
ghost use Rattle.graph_writer.specs.NewFilters.{filter_count, filters_handed};
ghost use Rattle.graph_writer.specs.PlannedCommits.{AreOffsetsOf};
ghost use Rattle.graph_writer.specs.SortedPlaces.{IsMixed};

use crate::commit::NewCommit;
use crate::filters::NewFilters;
use gix_commitgraph::File;
use gix_hash_core::ObjectId;
use graph_history::Checked;
use graph_levels::Level;
use std::alloc::{AllocError, Global};

/// The checksums of the layers below, the lowest first.
pub(crate) fn checksums_below(
    alloc: Global,
    below: Option<&Checked<'_>>,
) -> Result<Vec<ObjectId>, AllocError>
    ensures { IfOk result (λ bases.
        bases.items ≡ map (λ layer. layer.checksum) (layers_of_below below.entry)) }
{
    match below {
        Some(graph) => checksums_of(alloc, graph.graph().layers()),
        None => Ok(Vec::new(alloc)),
    }
}

/// The checksums of layers.
fn checksums_of(alloc: Global, layers: &[File]) -> Result<Vec<ObjectId>, AllocError>
    ensures { IfOk result (λ bases. bases.items ≡ map (λ layer. layer.checksum) layers.now) }
{
    let mut checksums = Vec::with_capacity(alloc, layers.len())?;
    for layer in layers {
        checksums.push(layer.checksum().to_owned())?;
    }
    Ok(checksums)
}

/// For each commit how many seconds its corrected date is past its time, if the layer is to have
/// dates.
pub(crate) fn offsets_of(
    alloc: Global,
    have_dates: bool,
    times: &[u64],
    levels: &[Level],
) -> Result<Option<Vec<u64>>, AllocError>
    requires as_many { length times.now ≡ length levels.now }
    requires late { (i : ℕ) → i < length levels.now
        → slice_index times.now i ≤ (level_at levels.now i).date }
    ensures some { IfOk result (λ found. IfSome found (λ offsets. (have_dates ≡ true)
        × AreOffsetsOf times.now levels.now offsets.items)) }
    ensures none { IfOk result (λ found. IfNone found (have_dates ≡ false)) }
{
    if !have_dates {
        return Ok(None);
    }
    let mut offsets = Vec::with_capacity(alloc, levels.len())?;
    for place in 0..levels.len() {
        offsets.push(offset_of(levels[place].date, times[place]))?;
    }
    Ok(Some(offsets))
}

/// How many seconds a date is past a time.
fn offset_of(date: u64, time: u64) -> u64
    requires { time ≤ date }
    ensures sum { result + time ≡ date }
    ensures fits { result < 2 ^ 64 }
{
    date - time
}

/// The filters in this order of their numbers, if there are any.
pub(crate) fn filters_in_order(
    alloc: Global,
    filters: Option<&NewFilters>,
    order: &[usize],
) -> Result<Option<NewFilters>, AllocError>
    requires { IfSome (filters_handed filters) (λ f. IsMixed (filter_count f) order.now) }
    ensures { IfOk result (MaybeInOrder order.now (filters_handed filters.entry)) }
{
    match filters {
        Some(filters) => Ok(Some(filters.in_order(alloc, order)?)),
        None => Ok(None),
    }
}
