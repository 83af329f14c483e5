//! Which layers two graphs share, from the lowest on.

ghost use Rattle.std.specs.Prelude.{◌≡◌, ◌<◌, length, IsTrue};
ghost use Rattle.gix_commitgraph.specs.Graph.{IsGraph};
ghost use Rattle.graph_history.specs.Reload.{AreShared};

use gix_commitgraph::Graph;
use gix_commitgraph::file::{File, Position};

/// How many of the lowest layers are the same in both graphs. A layer without commits is not
/// compared, and ends them.
pub(crate) fn shared_layers(old: &Graph, new: &Graph) -> usize
    ensures shared { AreShared old.now new.now result }
    ensures old { IsGraph old.now }
    ensures new { IsGraph new.now }
{
    let (old_files, new_files) = (old.layers(), new.layers());
    let most = old_files.len().min(new_files.len());
    for layer in 0..most {
        if !is_same(&old_files[layer], &new_files[layer]) {
            return layer;
        }
    }
    most
}

/// Whether two files have the same bytes, the same path and some commit. Their bytes are compared
/// only where all else is the same.
fn is_same(one: &File, other: &File) -> bool
    ensures same { IsTrue result → one.now ≡ other.now }
    ensures told { one.now ≡ other.now → 0 < length one.now.ids → IsTrue result }
{
    if one.num_commits() == 0 || one.num_commits() != other.num_commits() {
        return false;
    }
    if one.checksum() != other.checksum() || one.path() != other.path() {
        return false;
    }
    // Commits are equal where their positions and the bytes of their files are.
    one.commit_at(Position(0)) == other.commit_at(Position(0))
}
