//! A graph: its limits, building it from layers, its accessors and its iterators.

ghost use Rattle.std.specs.Prelude.{◌≡◌, ◌<◌, length, Some};
ghost use Rattle.gix_commitgraph.specs.Graph.{total};
ghost use Rattle.gix_commitgraph.specs.GraphRemaining.{graph_commits_left, graph_ids_left};

mod checks;
mod opening;

use crate::bounds;
use gix_commitgraph::file::Commit;
use gix_commitgraph::init::GraphError;
use gix_commitgraph::{
    File, GENERATION_NUMBER_INFINITY, GENERATION_NUMBER_MAX, Graph, GraphCommits, GraphIds,
    MAX_COMMITS, Position,
};
use gix_hash_core::{Kind, oid};
use std::alloc::Global;

const NUMBERS: [u32; 3] = [
    GENERATION_NUMBER_INFINITY,
    GENERATION_NUMBER_MAX,
    MAX_COMMITS,
];

const _: () = prove!(GENERATION_NUMBER_INFINITY == 4294967295);

const _: () = prove!(GENERATION_NUMBER_MAX == 1073741823);

const _: () = prove!(MAX_COMMITS == 1879048191);

fn positions(number: u32) -> Position {
    bounds::ordered::<Position>();
    Position(number)
}

fn graphs() {
    bounds::droppable::<Graph>();
}

fn new(alloc: Global, files: Vec<File>) -> Result<Graph, GraphError> {
    Graph::new(alloc, files)
}

fn push(graph: &mut Graph, file: File) -> Result<(), GraphError> {
    Graph::push(graph, file)
}

fn pop(graph: &mut Graph) -> Option<File> {
    Graph::pop(graph)
}

fn object_hash(graph: &Graph) -> Kind {
    Graph::object_hash(graph)
}

fn num_commits(graph: &Graph) -> u32 {
    Graph::num_commits(graph)
}

fn layers(graph: &Graph) -> &[File] {
    Graph::layers(graph)
}

fn id_at(graph: &Graph, pos: Position) -> oid<'_>
    requires { pos.0 < total graph.now }
{
    Graph::id_at(graph, pos)
}

fn commit_at(graph: &Graph, pos: Position) -> Commit<'_>
    requires { pos.0 < total graph.now }
{
    Graph::commit_at(graph, pos)
}

fn lookup(graph: &Graph, id: oid<'_>) -> Option<Position> {
    Graph::lookup(graph, id)
}

/// The commit is lent from the graph, whatever the id is lent from.
fn commit_by_id<'g>(graph: &'g Graph, id: oid<'_>) -> Option<Commit<'g>> {
    Graph::commit_by_id(graph, id)
}

fn layer_of_counted(graph: &Graph, pos: Position) -> (usize, u32)
    requires { pos.0 < total graph.now }
{
    Graph::layer_of_counted(graph, pos)
}

fn iter_ids<'g>(graph: &'g Graph) -> GraphIds<'g> {
    bounds::iterator::<oid<'g>, GraphIds<'g>>();
    Graph::iter_ids(graph)
}

fn iter_commits<'g>(graph: &'g Graph) -> GraphCommits<'g> {
    bounds::iterator::<Commit<'g>, GraphCommits<'g>>();
    Graph::iter_commits(graph)
}

fn iter_commits_from<'g>(graph: &'g Graph, first: Position) -> GraphCommits<'g> {
    Graph::iter_commits_from(graph, first)
}

fn ids_hint(ids: &GraphIds<'_>) -> (usize, Option<usize>)
    ensures { result ≡ (length (graph_ids_left ids.now), Some (length (graph_ids_left ids.now))) }
{
    ids.size_hint()
}

fn commits_hint(commits: &GraphCommits<'_>) -> (usize, Option<usize>)
    ensures { result ≡ (
      length (graph_commits_left commits.now),
      Some (length (graph_commits_left commits.now)),
    ) }
{
    commits.size_hint()
}

fn graph_errors(error: &GraphError) {
    bounds::error::<GraphError>();
    match error {
        GraphError::NoFiles | GraphError::OutOfMemory => {}
        GraphError::TooManyCommits(commits) => bounds::of_type::<u128>(commits),
        GraphError::HashMismatch { layer } => bounds::of_type::<usize>(layer),
    }
}

/// The root has the same error.
fn graph_error(error: GraphError) -> gix_commitgraph::GraphError {
    error
}
