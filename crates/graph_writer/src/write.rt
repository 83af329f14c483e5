//! Writing a layer.

ghost use Rattle.std.specs.Prelude.{◌≡◌, ◌<◌, ◌≤◌, ℕ, List, IfOk, IfErr, IfSome, length};
ghost use Rattle.std.specs.Prelude.{All, map, slice_index};
ghost use Rattle.graph_walks.specs.Dates.{AreRight};
ghost use Rattle.graph_walks.specs.Generations.{AreLocal};
ghost use Rattle.graph_walks.specs.History.{Node};
ghost use Rattle.graph_levels.specs.OnTop.{AreClosedBelow, FitTogether, HasLevelDates};
ghost use Rattle.graph_levels.specs.OnTop.{HasLevelGenerations, HasNoCycleOnTop, HasOnTop};
ghost use Rattle.graph_levels.specs.OnTop.{level_at};
ghost use Rattle.graph_levels.specs.ParentLists.{commit_count};
ghost use Rattle.graph_writer.specs.NewCommits.{layers_of_below};
ghost use Rattle.graph_writer.specs.NewFilters.{filter_count, filters_handed};
ghost use Rattle.graph_writer.specs.OwnLevels.{MayHaveNoLevels};
ghost use Rattle.graph_writer.specs.WritingRefusal.{AreAccepted, MayRefuseWriting};
ghost use Rattle.graph_writer.specs.WrittenFiles.{IsWritten, IsWrittenWith};

use crate::commit::{NewCommit, WriteError};
use crate::filters::NewFilters;
use crate::handed::{Handed, handed_in};
use crate::levels_below::LevelsBelow;
use crate::new_layer::{NewLayer, kind_to_write};
use crate::new_plan::NewPlan;
use crate::plan::{checksums_below, filters_in_order, offsets_of};
use crate::view::CommitView;
use graph_encoder::{build_view, has_few_extra_words};
use graph_history::Checked;
use graph_levels::{Level, LevelsError, levels};
use graph_walks::GENERATION_NUMBER_MAX;
use std::alloc::Global;

/// The most layers that the header's byte can count below a layer.
const MOST_BELOW: usize = 255;

/// The bytes of a layer with these commits, on top of a graph or on none: what Git writes of them
/// without changed-path filters (gitformat-commit-graph). The layer has corrected dates where all
/// layers below have them, and where there are none below. Layers and commits fix each byte, and
/// the order of the commits changes none.
///
/// # Errors
///
/// The first of [`WriteError`] that holds, in their order. `OutOfMemory` comes only where there are
/// commits and each is right by itself: ids are compared once they stand in memory.
pub fn write_layer(
    alloc: Global,
    below: Option<&Checked<'_>>,
    commits: &[NewCommit],
) -> Result<Vec<u8>, WriteError>
    ensures written { IfOk result (λ bytes.
        IsWritten (layers_of_below below.entry) commits.now bytes.items) }
    ensures accepted { IfOk result (λ _.
        AreAccepted (layers_of_below below.entry) commits.now) }
    ensures refusal { IfErr result (MayRefuseWriting (layers_of_below below.entry) commits.now) }
{
    write_layer_with_filters(alloc, below, commits, None)
}

/// The bytes of a layer with these commits and with these changed-path filters, if there are any:
/// the first is that of the first commit, and so on.
///
/// # Errors
///
/// Those of [`write_layer`].
pub fn write_layer_with_filters(
    alloc: Global,
    below: Option<&Checked<'_>>,
    commits: &[NewCommit],
    filters: Option<&NewFilters>,
) -> Result<Vec<u8>, WriteError>
    requires { IfSome (filters_handed filters)
        (λ f. filter_count f ≡ length commits.now) }
    ensures written { IfOk result (λ bytes. IsWrittenWith (layers_of_below below.entry)
        commits.now (filters_handed filters.entry) bytes.items) }
    ensures accepted { IfOk result (λ _.
        AreAccepted (layers_of_below below.entry) commits.now) }
    ensures refusal { IfErr result (MayRefuseWriting (layers_of_below below.entry) commits.now) }
{
    let handed = handed_in(commits);
    write_handed(alloc, below, &handed, filters)
}

/// The bytes of a layer with these commits, on top of a graph or on none, as [`write_layer`] writes
/// them, wherever what the commits say stands. Nothing of them is copied.
///
/// # Errors
///
/// Those of [`write_layer`].
pub fn write_layer_of<C: CommitView>(
    alloc: Global,
    below: Option<&Checked<'_>>,
    commits: &[C],
) -> Result<Vec<u8>, WriteError>
    requires { All C.can_read commits.now }
    ensures written { IfOk result (λ bytes. IsWritten (layers_of_below below.entry)
        (map C.as_commit commits.now) bytes.items) }
    ensures accepted { IfOk result (λ _.
        AreAccepted (layers_of_below below.entry) (map C.as_commit commits.now)) }
    ensures refusal { IfErr result
        (MayRefuseWriting (layers_of_below below.entry) (map C.as_commit commits.now)) }
{
    let handed = Handed::of(commits);
    write_handed(alloc, below, &handed, None)
}

/// The bytes of a layer with these commits and with these changed-path filters, if there are any.
#[tactic(auto, using(crate::proofs::layers::RefusalSteps::memory_laws))]
fn write_handed<C: CommitView>(
    alloc: Global,
    below: Option<&Checked<'_>>,
    commits: &Handed<'_, C>,
    filters: Option<&NewFilters>,
) -> Result<Vec<u8>, WriteError>
    requires { IfSome (filters_handed filters)
        (λ f. filter_count f ≡ length commits.now) }
    ensures written { IfOk result (λ bytes. IsWrittenWith (layers_of_below below.entry)
        commits.now (filters_handed filters.entry) bytes.items) }
    ensures accepted { IfOk result (λ _.
        AreAccepted (layers_of_below below.entry) commits.now) }
    ensures refusal { IfErr result (MayRefuseWriting (layers_of_below below.entry) commits.now) }
{
    let (new, times) = NewLayer::with_times(alloc, below, commits)?;
    let known = LevelsBelow::of(alloc, below)?;
    let own = own_levels(alloc, &known.levels, &new, &times)?;
    let plan = NewPlan {
        kind: kind_to_write(below, commits),
        bases: checksums_below(alloc, below)?,
        commits,
        new: &new,
        levels: &own,
        offsets: offsets_of(alloc, known.have_dates, &times, &own)?,
        filters: filters_in_order(alloc, filters, &new.order)?,
    };
    if plan.bases.len() > MOST_BELOW {
        return Err(WriteError::TooManyLayers);
    }
    if !has_few_extra_words(&plan) {
        return Err(WriteError::TooManyEdges);
    }
    Ok(build_view(alloc, &plan)?)
}

/// The levels of the commits of a new layer, given those of the commits below.
fn own_levels(
    alloc: Global,
    below: &[Level],
    new: &NewLayer,
    times: &[u64],
) -> Result<Vec<Level>, WriteError>
    requires fits { FitTogether below.now new.now.parents times.now }
    requires ordered { length new.now.order.items ≡ commit_count new.now.parents }
    ensures len { IfOk result (λ own. length own.items ≡ commit_count new.now.parents) }
    ensures bounds { IfOk result (λ own. (i : ℕ) → i < length own.items
        → ((level_at own.items i).generation ≤ GENERATION_NUMBER_MAX)
        × (slice_index times.now i ≤ (level_at own.items i).date)) }
    ensures generations { IfOk result (λ own. (history : List Node)
        → HasOnTop history (length below.now) new.now.parents
        → HasLevelGenerations history below.now own.items → AreLocal history) }
    ensures dates { IfOk result (λ own. (history : List Node) (all dates : List ℕ)
        → HasOnTop history (length below.now) new.now.parents
        → HasLevelDates history all dates below.now own.items times.now
        → AreRight history all dates) }
    ensures acyclic { IfOk result (λ _. (history : List Node)
        → HasOnTop history (length below.now) new.now.parents
        → AreClosedBelow history (length below.now)
        → HasNoCycleOnTop history (length below.now)) }
    ensures refusal { IfErr result (MayHaveNoLevels (length below.now) new.now) }
{
    match levels(alloc, below, &new.parents, times) {
        Ok(own) => Ok(own),
        Err(LevelsError::Cycle(pos)) => {
            Err(WriteError::Cycle(new.order[pos as usize - below.len()]))
        }
        Err(LevelsError::OutOfMemory) => Err(WriteError::OutOfMemory),
    }
}
