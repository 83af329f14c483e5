//! The opener of an info folder.

ghost use Rattle.std.specs.Prelude.{◌≡◌, IfOk, IfErr, MatchResult};
ghost use Rattle.std.specs.Option.{ForSome};
ghost use Rattle.gix_commitgraph.specs.Graph.{IsGraph};
ghost use Rattle.gix_commitgraph.specs.OpenAlways.{IsFromInfo, IsFolderError};
ghost use Rattle.graph_layer.specs.OpenAnswer.{is_settled};
ghost use Rattle.gix_commitgraph.specs.Opening.{InfoOpens, MetFailureIfDevice};
ghost use Rattle.gix_commitgraph.specs.WasRead.{InfoWasRead};
ghost use Rattle.graph_layer.specs.OpenRefusals.{OutOfMemoryStandsAlone};

use crate::graph::Graph;
use crate::opening::whole::WholeOpener;
use crate::opening::{OpenError, open_info_by};
use graph_folder::folder::Folder;
use std::alloc::Global;

/// Opens the info folder at the path: the file `commit-graph` in it, or where that is refused the
/// chain folder `commit-graphs` in it. So damage of the file is hidden where the chain opens.
///
/// # Errors
///
/// Those of [`open_chain_dir_in`] for the chain folder. Where an allocation failed while the file
/// was opened, the chain is not tried, and the answer is `OutOfMemory`. `Device` comes only where
/// the folder's count of failures has risen.
pub fn open_info_dir_in<T: Folder>(
    alloc: Global,
    folder: &mut T,
    path: &str,
) -> Result<Graph, OpenError>
    ensures opens { ForSome (T.tree folder.old)
        (λ tree. InfoOpens tree path.now (T.failure_count folder.old) (T.failure_count folder.new)
        result) }
    ensures device { MetFailureIfDevice result (T.failure_count folder.old)
        (T.failure_count folder.new) }
    ensures tree { T.tree folder.new ≡ T.tree folder.old }
    ensures from { MatchResult result (IsFromInfo path.now) IsFolderError }
    ensures given { IfOk result (InfoWasRead T.gives path.now) }
    ensures graph { IfOk result IsGraph }
    ensures memory { IfErr result OutOfMemoryStandsAlone }
{
    open_info_by(alloc, folder, path, &mut WholeOpener)
}

/// Whether this answer of an info folder's file is that of the folder: the chain folder is not
/// tried after an answer that is no refusal, nor where memory ran out.
pub fn is_settled<A>(answer: &Result<A, OpenError>) -> bool
    ensures { result ≡ is_settled answer.now }
{
    matches!(answer, Ok(_) | Err(OpenError::OutOfMemory))
}
