//! The decoded fields of a layer, for the crates above: functions, so that [`File`] and [`Commit`]
//! have the methods of the Rust crate alone.

ghost use Rattle.std.specs.Prelude.{◌≡◌, ◌<◌, length, map, slice_get, option_map, Some};
ghost use Rattle.gix_hash_core.specs.Oid.{oid_bytes};
ghost use Rattle.graph_format.specs.DecodedRecords.{stored_parents};
ghost use Rattle.graph_format.specs.Format.{words};
ghost use Rattle.graph_format.specs.Parents.{edge_of};
ghost use Rattle.graph_layer.specs.Commit.{commit_record};

use crate::file::{Commit, File};
use gix_hash_core::oid;
use graph_format::parents::ParentEdge;

/// What both parent fields of a commit say ("Commit Data").
pub fn parent_edges(commit: &Commit<'_>) -> (ParentEdge, ParentEdge)
    ensures first { result.0 ≡ edge_of (commit_record commit.now).parent1 }
    ensures second { result.1 ≡ edge_of (commit_record commit.now).parent2 }
{
    let (first, second) = commit.parent_fields();
    (ParentEdge::from_raw(first), ParentEdge::from_raw(second))
}

/// The words of a layer's extra edge list, where it has one ("Extra Edge List").
pub fn extra_edges(file: &File) -> Option<&[u32]>
    ensures { option_map (λ edges. edges.now) result ≡ option_map words file.now.edges }
{
    file.extra_edges()
}

/// The committer's times of a layer's commits, in the order of their positions ("Commit Data").
pub fn times(file: &File) -> &[u64]
    ensures { result.now ≡ map (λ r. r.time) file.now.records }
{
    file.times()
}

/// Both parent fields of a layer's commits, in the order of their positions ("Commit Data").
pub fn parent_fields(file: &File) -> &[(u32, u32)]
    ensures { result.now ≡ map stored_parents file.now.records }
{
    file.parent_fields()
}

/// The generation numbers of a layer's commits, in the order of their positions ("Commit Data").
pub fn generations(file: &File) -> &[u32]
    ensures { result.now ≡ map (λ r. r.generation) file.now.records }
{
    file.generations()
}

/// The id of a layer below this one ("Base Graphs List").
pub fn base_id_at(file: &File, index: u8) -> oid<'_>
    requires { index < length file.now.bases }
    ensures { slice_get file.now.bases index ≡ Some (oid_bytes result) }
{
    file.base_id_at(index)
}
