//! The parents of a commit of a right graph, one after another.

ghost use Rattle.std.specs.Prelude.{◌≡◌, ◌<◌, All, map};
ghost use Rattle.graph_walks.specs.History.{parents_at};
ghost use Rattle.graph_format.specs.StoredHistory.{history_of};
ghost use Rattle.gix_commitgraph.specs.Graph.{total};
ghost use Rattle.gix_commitgraph.specs.Sound.{Sound};

use gix_commitgraph::file::commit::Parents;
use gix_commitgraph::law::graph::the_history_of_a_graph_says_what_its_records_say;
use gix_commitgraph::law::sound::the_parents_of_a_right_graph_are_there;
use gix_commitgraph::{Graph, Position};
use std::marker::Model;

/// An iterator over the parents of a commit of a right graph, by their positions, first parent
/// first. It gives each once, and then `None` for good. A contract sees it as the list of those to
/// come.
#[derive(Drop)]
pub struct ParentPositions<'g> {
    parents: Parents<'g>,
}

impl<'g> Model for ParentPositions<'g> {
    ghost use Rattle.std.specs.Prelude.{◌≡◌, List, Ok, map};
    ghost use Rattle.graph_format.specs.declared.Position.{Position};
    ghost use Rattle.graph_layer.specs.RemainingParents.{parents_left};
    ghost use Rattle.graph_history.specs.RightGraph.{positions_among};

    ghost Value = { List Position };

    ghost view = { λ a. positions_among (parents_left a.parents) };

    ghost invariant = { λ a. parents_left a.parents
        ≡ map (λ pos. Ok pos) (positions_among (parents_left a.parents)) };
}

impl<'g> ParentPositions<'g> {
    /// The parents of the commit at a position.
    pub(crate) fn new(graph: &'g Graph, pos: Position) -> ParentPositions<'g>
        requires sound { Sound graph.now }
        requires pos { pos.0 < total graph.now }
        ensures exact { map (λ q. q.0) result ≡ parents_at (history_of graph.now) pos.0 }
        ensures within { All (λ q. q.0 < total graph.now) result }
    {
        the_history_of_a_graph_says_what_its_records_say();
        the_parents_of_a_right_graph_are_there();
        prove!(pos.0 < graph.num_commits());
        ParentPositions {
            parents: graph.commit_at(pos).iter_parents(),
        }
    }
}

impl<'g> Iterator for ParentPositions<'g> {
    ghost use Rattle.std.specs.Iterator.{YieldsFirst, item_count};
    ghost use Rattle.graph_format.specs.declared.Position.{Position};
    ghost use Rattle.std.specs.Prelude.{List};

    type Item = Position;

    ghost next_gives = { YieldsFirst {S = List Position} (λ left. left) };

    ghost remaining = { item_count {S = List Position} (λ left. left) };

    fn next(&mut self) -> Option<Position> {
        let parent = self.parents.next()?;
        Some(parent.unwrap())
    }
}
