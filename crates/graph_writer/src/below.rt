//! Commits that the graph below has already.

ghost use Rattle.std.specs.Prelude.{◌≡◌, length};
ghost use Rattle.gix_chunk_core.specs.FirstFault.{first_below};
ghost use Rattle.gix_commitgraph.specs.Graph.{graph_ids};
ghost use Rattle.graph_format.specs.Reports.{Reports};
ghost use Rattle.graph_writer.specs.WriteRefusal.{below_at};

use crate::commit::WriteError;
use crate::handed::Handed;
use crate::view::CommitView;
use graph_history::Checked;

/// Refuses the first commit whose id the graph has.
pub(crate) fn check_new<C: CommitView>(
    graph: &Checked<'_>,
    commits: &Handed<'_, C>,
) -> Result<(), WriteError>
    ensures { Reports result
        (first_below (below_at (graph_ids graph.now.layers) commits.now) (length commits.now)) }
{
    for number in 0..commits.len() {
        let commit = commits.at(number);
        match graph.find(commit.id()) {
            Some(pos) => return Err(WriteError::Below(number, pos)),
            None => {}
        }
    }
    Ok(())
}
