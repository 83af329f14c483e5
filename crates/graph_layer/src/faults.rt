//! The faults of a layer and of its commits by themselves, for the crates above: functions, so that
//! [`File`] and [`Commit`] have the methods of the Rust crate alone.

ghost use Rattle.std.specs.Prelude.{◌≡◌};
ghost use Rattle.graph_format.specs.Faults.{layer_fault, id_fault, tree_fault};
ghost use Rattle.graph_layer.specs.Commit.{commit_layer, commit_pos};

use crate::file::{Commit, File};
use graph_format::fault::{CommitFault, LayerFault};

/// The first thing that is wrong with a layer as a whole: its checksum ("TRAILER"), the name of its
/// file ("Commit-Graphs Chains" of Git's commit-graph design), or its fan ("OID Fanout").
pub fn layer_fault(file: &File) -> Option<LayerFault>
    ensures { result ≡ layer_fault file.now }
{
    file.layer_fault()
}

/// The first thing that is wrong with a commit's own id ("OID Lookup").
pub fn id_fault(commit: &Commit<'_>) -> Option<CommitFault>
    ensures { result ≡ id_fault (commit_layer commit.now) (commit_pos commit.now) }
{
    commit.id_fault()
}

/// What is wrong with the id of a commit's root tree ("Commit Data").
pub fn tree_fault(commit: &Commit<'_>) -> Option<CommitFault>
    ensures { result ≡ tree_fault (commit_layer commit.now) (commit_pos commit.now) }
{
    commit.tree_fault()
}
