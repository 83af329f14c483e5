//! A graph in memory, as a source of commits.

ghost use Rattle.std.proofs.Common.{ap, ◌∙◌};
ghost use Rattle.std.specs.Prelude.{◌≡◌, ℕ, List, length};
ghost use Rattle.graph_format.specs.Layer.{Layer};
ghost use Rattle.graph_format.specs.StoredHistory.{history_of};
ghost use Rattle.gix_commitgraph.specs.Graph.{IsGraph, total};
ghost use Rattle.gix_commitgraph.specs.GraphLaw.{LiesIn};
ghost use Rattle.gix_commitgraph.specs.Sound.{Sound};
ghost use Rattle.commit_search.specs.EdgeLists.{list_in};
ghost use Rattle.graph_ancestors.specs.Commits.{IsReading};
ghost use Rattle.commit_search.specs.Source.{told_of};

use crate::commits::{generation_of, layer_of, list_of, parent_fields_of};
use commit_search::{CommitSource, SteadySource};
use gix_commitgraph::file::commit::{ExtraEdge, ParentEdge};
use gix_commitgraph::law::graph::{
    a_position_lies_in_one_layer, the_history_of_a_graph_is_that_of_its_layers,
};
use gix_commitgraph::{Graph, Position};
use std::alloc::AllocError;
use std::marker::Model;

/// A graph that is right. No read of it fails.
///
/// A contract sees it as the list of the graph's layers.
#[derive(Drop)]
pub struct InMemory<'g> {
    graph: &'g Graph,
}

impl<'g> Model for InMemory<'g> {
    ghost use Rattle.std.specs.Prelude.{List};
    ghost use Rattle.graph_format.specs.Layer.{Layer};
    ghost use Rattle.gix_commitgraph.specs.Graph.{IsGraph};
    ghost use Rattle.gix_commitgraph.specs.Sound.{Sound};

    ghost Value = { List Layer };

    ghost view = { λ a. a.graph.now };

    ghost invariant = { λ a. IsGraph a.graph.now × Sound a.graph.now };
}

impl<'g> InMemory<'g> {
    /// A right graph as a source.
    pub fn new(graph: &'g Graph) -> InMemory<'g>
        requires { Sound graph.now }
        ensures { result ≡ graph.now }
    {
        // The contract of `num_commits` says that the layers make a graph.
        let _commits = graph.num_commits();
        InMemory { graph }
    }

    /// The graph.
    pub fn graph(&self) -> &'g Graph
        ensures same { result.now ≡ self.now }
        ensures graph { IsGraph self.now }
        ensures right { Sound self.now }
    {
        self.graph
    }
}

impl<'g> CommitSource for InMemory<'g> {
    type Error = AllocError;

    ghost Known = { List Layer };

    ghost known = { λ layers. layers };

    ghost says = { λ layers t. t ≡ told_of layers };

    ghost count = { total };

    ghost lies = { λ layers p l. (layer : Layer) × LiesIn layers p l layer };

    ghost words = { λ layers l. length (list_in layers l) };

    ghost is_listed = { λ layers p index. (l : ℕ) (layer : Layer) → LiesIn layers p l layer
        → IsReading (history_of layers) (list_in layers l) p index };

    ghost may_fail = { λ _ _. ⊥ };

    fn num_commits(&self) -> u32 {
        the_history_of_a_graph_is_that_of_its_layers();
        self.graph().num_commits()
    }

    fn generation_number(&mut self, pos: Position) -> Result<u32, AllocError> {
        the_history_of_a_graph_is_that_of_its_layers();
        Ok(generation_of(self.graph(), pos))
    }

    fn parent_fields(&mut self, pos: Position) -> Result<(ParentEdge, ParentEdge), AllocError> {
        the_history_of_a_graph_is_that_of_its_layers();
        a_position_lies_in_one_layer();
        Ok(parent_fields_of(self.graph(), pos))
    }

    fn layer_of(&self, pos: Position) -> usize {
        the_history_of_a_graph_is_that_of_its_layers();
        layer_of(self.graph(), pos)
    }

    fn words_of(&self, _: Position, layer: usize, _: u32) -> u32 {
        list_of(self.graph(), layer).len() as u32
    }

    fn listed_parent(
        &mut self,
        _: Position,
        layer: usize,
        index: u32,
    ) -> Result<ExtraEdge, AllocError> {
        the_history_of_a_graph_is_that_of_its_layers();
        a_position_lies_in_one_layer();
        Ok(ExtraEdge::from_raw(list_of(self.graph(), layer)[index as usize]))
    }
}

impl<'g> SteadySource for InMemory<'g> {
    ghost steady = { λ one other t same told. told ∙ ap told_of same };
}
