//! The opener of whole graphs.

use crate::graph::Graph;
use crate::opening::by_standing::Opener;
use crate::opening::{OpenError, open_chain_dir_in, open_file_in};
use graph_folder::folder::Folder;
use std::alloc::Global;

/// Opens whole graphs: files as [`open_file_in`] does, chain folders as [`open_chain_dir_in`] does.
#[derive(Drop)]
pub(super) struct WholeOpener;

impl Opener for WholeOpener {
    ghost use Rattle.std.specs.Prelude.{⊤};
    ghost use Rattle.gix_commitgraph.specs.WholeOpening.{WholeChain, WholeFile};

    type Opened = Graph;

    ghost Known = { ⊤ };

    ghost known = { λ _. tt };

    ghost is_ready = { λ _. ⊤ };

    ghost of_file = { λ _ tree gives _ path old new _ _. WholeFile tree gives path old new };

    ghost of_chain = { λ _ tree gives _ path old new _ _. WholeChain tree gives path old new };

    fn file<T: Folder>(
        &mut self,
        alloc: Global,
        folder: &mut T,
        path: &str,
    ) -> Result<Graph, OpenError> {
        open_file_in(alloc, folder, path)
    }

    fn chain<T: Folder>(
        &mut self,
        alloc: Global,
        folder: &mut T,
        path: &str,
    ) -> Result<Graph, OpenError> {
        open_chain_dir_in(alloc, folder, path)
    }
}
