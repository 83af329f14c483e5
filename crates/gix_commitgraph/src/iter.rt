//! Iterators over the commits of a graph, in order.

ghost use Rattle.std.specs.Prelude.{◌≡◌, ◌∷◌, [], ◌++◌, ◌<◌, ◌≤◌, length, MatchOption, IfSome};
ghost use Rattle.std.specs.Prelude.{Some, drop};
ghost use Rattle.gix_commitgraph.specs.Graph.{graph_ids, graph_commits};
ghost use Rattle.graph_format.specs.Layer.{positions_from};

use crate::Position;
use crate::file::{self, Commit, File};
use crate::graph::Graph;
use gix_hash_core::oid;

/// Goes over the positions of each layer of a graph.
#[derive(Drop)]
struct LayerCursor<'a> {
    /// The layer that it stands in, and the next position there.
    file: &'a File,
    next: u32,
    /// The layers after it.
    rest: &'a [File],
    /// How many positions are left.
    left: usize,
    ghost within: { next ≤ length file.now.ids },
    ghost counted: { left ≡ length (positions_from file.now next ++ graph_commits rest.now) },
}

impl<'a> LayerCursor<'a> {
    ghost use Rattle.gix_commitgraph.specs.GraphRemaining.{cursor_left};

    fn new(graph: &'a Graph) -> LayerCursor<'a>
        ensures { cursor_left result ≡ graph_commits graph.now }
    {
        LayerCursor {
            file: &graph.files[0],
            next: 0,
            rest: &graph.files[1..],
            left: graph.num_commits() as usize,
        }
    }

    /// From a position on; at the end where that is none of the graph's.
    fn from(graph: &'a Graph, first: Position) -> LayerCursor<'a>
        ensures { cursor_left result ≡ drop first.0 (graph_commits graph.now) }
    {
        let commits = graph.num_commits();
        if first.0 >= commits {
            return LayerCursor::at_end(graph);
        }
        let (layer, _) = graph.layer_of_counted(first);
        LayerCursor {
            file: &graph.files[layer],
            next: first.0 - graph.starts[layer],
            rest: &graph.files[layer + 1..],
            left: (commits - first.0) as usize,
        }
    }

    /// At the end, where no position is left.
    fn at_end(graph: &'a Graph) -> LayerCursor<'a>
        ensures { cursor_left result ≡ [] }
    {
        let file = &graph.files[0];
        LayerCursor {
            file,
            next: file.num_commits(),
            rest: &[],
            left: 0,
        }
    }

    /// How many positions are left.
    fn len(&self) -> usize
        ensures { result ≡ length (cursor_left self.now) }
    {
        self.left
    }

    /// The next layer that has a position left, and that position.
    fn next(&mut self) -> Option<(&'a File, file::Position)>
        ensures next { MatchOption result ((cursor_left self.old ≡ [])
            × (cursor_left self.new ≡ []))
            (λ place. cursor_left self.old ≡ (place.0.now, place.1.0) ∷ cursor_left self.new) }
        ensures within { IfSome result (λ place. place.1.0 < length place.0.now.ids) }
    {
        while self.next == self.file.num_commits() {
            match self.rest.split_first() {
                None => return None,
                Some((file, rest)) => {
                    *self = LayerCursor {
                        file,
                        next: 0,
                        rest,
                        left: self.left,
                    };
                }
            }
        }
        let pos = file::Position(self.next);
        self.next += 1;
        self.left -= 1;
        Some((self.file, pos))
    }
}

/// An iterator over the ids of a graph: those of its layers, one layer after another. It gives each
/// once, and then `None` for good.
#[derive(Drop)]
pub struct GraphIds<'a> {
    places: LayerCursor<'a>,
}

impl<'a> GraphIds<'a> {
    ghost use Rattle.gix_commitgraph.specs.GraphRemaining.{graph_ids_left};

    pub(crate) fn new(graph: &'a Graph) -> GraphIds<'a>
        ensures { graph_ids_left result ≡ graph_ids graph.now }
    {
        GraphIds {
            places: LayerCursor::new(graph),
        }
    }
}

impl<'a> Iterator for GraphIds<'a> {
    ghost use Rattle.std.specs.Iterator.{YieldsFirstBy, item_count, UpTo};
    ghost use Rattle.std.specs.Iterator.SizeHint.{IsWithinCount};
    ghost use Rattle.gix_hash_core.specs.Oid.{oid_bytes};
    ghost use Rattle.gix_commitgraph.specs.GraphRemaining.{graph_ids_left};

    type Item = oid<'a>;

    ghost next_gives = { YieldsFirstBy oid_bytes graph_ids_left };

    ghost remaining = { item_count graph_ids_left };

    fn next(&mut self) -> Option<oid<'a>> {
        let (file, pos) = self.places.next()?;
        Some(file.id_at(pos))
    }

    fn size_hint(&self) -> (usize, Option<usize>)
        ensures exact { result
            ≡ (length (graph_ids_left self.now), Some (length (graph_ids_left self.now))) }
        ensures lower { IsWithinCount result.0 (item_count graph_ids_left self.now) }
        ensures upper { IfSome result.1 (UpTo (item_count graph_ids_left self.now)) }
    {
        let ids = self.places.len();
        (ids, Some(ids))
    }
}

/// An iterator over the commits of a graph: those of its layers, one layer after another. It gives
/// each once, and then `None` for good.
#[derive(Drop)]
pub struct GraphCommits<'a> {
    places: LayerCursor<'a>,
}

impl<'a> GraphCommits<'a> {
    ghost use Rattle.gix_commitgraph.specs.GraphRemaining.{graph_commits_left};

    pub(crate) fn new(graph: &'a Graph) -> GraphCommits<'a>
        ensures { graph_commits_left result ≡ graph_commits graph.now }
    {
        GraphCommits {
            places: LayerCursor::new(graph),
        }
    }

    pub(crate) fn from(graph: &'a Graph, first: Position) -> GraphCommits<'a>
        ensures { graph_commits_left result ≡ drop first.0 (graph_commits graph.now) }
    {
        GraphCommits {
            places: LayerCursor::from(graph, first),
        }
    }
}

impl<'a> Iterator for GraphCommits<'a> {
    ghost use Rattle.std.specs.Iterator.{YieldsFirstBy, item_count, UpTo};
    ghost use Rattle.std.specs.Iterator.SizeHint.{IsWithinCount};
    ghost use Rattle.graph_layer.specs.Commit.{layer_and_position};
    ghost use Rattle.gix_commitgraph.specs.GraphRemaining.{graph_commits_left};

    type Item = Commit<'a>;

    ghost next_gives = { YieldsFirstBy layer_and_position graph_commits_left };

    ghost remaining = { item_count graph_commits_left };

    fn next(&mut self) -> Option<Commit<'a>> {
        let (file, pos) = self.places.next()?;
        Some(file.commit_at(pos))
    }

    fn size_hint(&self) -> (usize, Option<usize>)
        ensures exact { result
            ≡ (length (graph_commits_left self.now), Some (length (graph_commits_left self.now))) }
        ensures lower { IsWithinCount result.0 (item_count graph_commits_left self.now) }
        ensures upper { IfSome result.1 (UpTo (item_count graph_commits_left self.now)) }
    {
        let commits = self.places.len();
        (commits, Some(commits))
    }
}
