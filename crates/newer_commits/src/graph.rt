//! A right graph in memory, as a base.

ghost use Rattle.std.specs.Prelude.{◌≡◌, List, Some, length, slice_get};
ghost use Rattle.graph_format.specs.Layer.{Layer};
ghost use Rattle.gix_commitgraph.specs.Graph.{graph_ids};
ghost use Rattle.gix_commitgraph.specs.GraphLookup.{FoundIn};

use crate::base::Base;
use gix_commitgraph::Position;
use gix_commitgraph::law::graph::the_commits_of_layers_add_up;
use gix_hash_core::{ObjectId, oid};
use graph_ancestors::InMemory;
use std::alloc::AllocError;

/// The lookup of an id is that of the graph: the least position that holds it.
impl<'g> Base for InMemory<'g> {
    ghost Facts = { List Layer };

    ghost facts = { λ layers. layers };

    ghost finds = { λ layers id answer. FoundIn layers id answer };

    ghost has_id = { λ layers p id. slice_get (graph_ids layers) p ≡ Some id };

    ghost layers = { λ layers. length layers };

    ghost follow = { λ _ _ same. same };

    fn num_layers(&self) -> usize {
        self.graph().layers().len()
    }

    fn position_of(&mut self, id: oid<'_>) -> Result<Option<Position>, AllocError> {
        the_commits_of_layers_add_up();
        Ok(self.graph().lookup(id))
    }

    fn id_at(&mut self, pos: Position) -> Result<ObjectId, AllocError> {
        Ok(self.graph().id_at(pos).to_owned())
    }
}
