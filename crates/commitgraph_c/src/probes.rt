//! What the changed-path filters of a graph say of a path.

ghost use Rattle.std.specs.Prelude.{◌≡◌, ◌≢◌, ◌↔◌, ◌<◌, ◌≤◌, ◌⊎◌, IsSomeAnd, None, length, min};
ghost use Rattle.std.specs.Prelude.{slice_get};
ghost use Rattle.gix_commitgraph.specs.Graph.{total};
ghost use Rattle.graph_chunks.specs.GraphFilters.{graph_filters_refusal};
ghost use Rattle.c_opening.specs.Answers.{layers_of};
ghost use Rattle.c_opening.specs.Codes.{closed_graph, no_such_position};
ghost use Rattle.commitgraph_c.specs.Many.{AnswersFirst};
ghost use Rattle.commitgraph_c.specs.Probes.{AnswersProbe, RefusesFilters, filters_told};
ghost use Rattle.commitgraph_c.specs.Probes.{told_filter_fault, with_probes, without_probes};

use c_opening::CgGraph;
use c_opening::codes::{CLOSED_GRAPH, NO_SUCH_POSITION, OUT_OF_MEMORY};
use changed_paths::filters::Answer;
use changed_paths::key::PathKey;
use gix_commitgraph::Position;
use graph_chunks::filters::{FiltersError, GraphFilters};
use std::alloc::Global;

/// How many commits were answered for, or why the filters are refused.
#[repr(C)]
#[derive(Clone, Copy)]
pub struct CgProbed {
    /// 0 where all commits were answered for which there is room, else the number of why not.
    pub code: u32,
    /// The commit whose filter is refused.
    pub position: u32,
    /// The version or the number of hashes that is refused.
    pub number: u32,
    /// The layer whose filters are refused.
    pub layer: u64,
    pub answered: u64,
}

/// Asks the filters of the commits at these positions for a path, and writes 0 where it is absent,
/// 1 where it is possible and 2 where there is no filter, in the order of the positions, as long as
/// there is room.
pub fn cg_probe_path(
    alloc: Global,
    graph: CgGraph,
    path: &[u8],
    positions: &[u32],
    out: &mut [u8],
) -> CgProbed
    ensures answers { (result.code ≡ 0) ⊎ (result.code ≡ no_such_position)
        → IsSomeAnd (layers_of graph.address.held) (λ layers.
        AnswersFirst (AnswersProbe (filters_told layers) path.now) positions.now result.answered
        out.old out.new) }
    ensures accepted { (result.code ≡ 0) ⊎ (result.code ≡ no_such_position)
        → IsSomeAnd (layers_of graph.address.held) (λ layers.
        graph_filters_refusal layers ≡ None) }
    ensures all { result.code ≡ 0
        → result.answered ≡ min (length positions.now) (length out.old) }
    ensures left { result.code ≡ no_such_position
        → result.answered < min (length positions.now) (length out.old) }
    ensures nowhere { result.code ≡ no_such_position
        → IsSomeAnd (layers_of graph.address.held) (λ layers.
        IsSomeAnd (slice_get positions.now result.answered) (λ pos. total layers ≤ pos)) }
    ensures told { (result.code ≡ 0) ⊎ (result.code ≡ no_such_position)
        → result ≡ with_probes result.code result.answered }
    ensures refused { result.code ≢ 0 → result.code ≢ no_such_position
        → result.code ≢ closed_graph → IsSomeAnd (layers_of graph.address.held) (λ layers.
        RefusesFilters layers result) }
    ensures closed { result.code ≡ closed_graph ↔ layers_of graph.address.held ≡ None }
    ensures nothing { result.code ≡ closed_graph → result ≡ without_probes result.code 0 0 0 }
    ensures kept { result.code ≢ 0 → result.code ≢ no_such_position → out.new ≡ out.old }
{
    let Some(graph) = graph.graph() else {
        return unanswered(CLOSED_GRAPH);
    };
    match GraphFilters::of_graph(alloc, graph) {
        Ok(filters) => {
            let path = PathKey::new(path);
            probe_all(&filters, graph.num_commits(), &path, positions, out)
        }
        Err(error) => refused(error),
    }
}

/// Asks the filters of these commits for a path, one after another.
#[tactic(auto, using(crate::proofs::ManyRoom::answer_laws))]
fn probe_all(
    filters: &GraphFilters<'_>,
    commits: u32,
    path: &PathKey<'_>,
    positions: &[u32],
    out: &mut [u8],
) -> CgProbed
    requires { length filters.now.filters ≡ commits }
    ensures answers { AnswersFirst (AnswersProbe filters.now path.now) positions.now
        result.answered out.old out.new }
    ensures all { result.code ≡ 0
        → result.answered ≡ min (length positions.now) (length out.old) }
    ensures left { result.code ≡ no_such_position
        → result.answered < min (length positions.now) (length out.old) }
    ensures nowhere { result.code ≡ no_such_position
        → IsSomeAnd (slice_get positions.now result.answered) (λ pos. commits ≤ pos) }
    ensures told { result ≡ with_probes result.code result.answered }
    ensures codes { (result.code ≡ 0) ⊎ (result.code ≡ no_such_position) }
{
    let places = positions.len().min(out.len());
    for place in 0..places {
        let pos = positions[place];
        if pos >= commits {
            return CgProbed {
                answered: place as u64,
                ..unanswered(NO_SUCH_POSITION)
            };
        }
        out[place] = probe(filters, Position(pos), path);
    }
    CgProbed {
        answered: places as u64,
        ..unanswered(0)
    }
}

/// Asks the filter of a commit for a path.
fn probe(filters: &GraphFilters<'_>, pos: Position, path: &PathKey<'_>) -> u8
    requires { pos.0 < length filters.now.filters }
    ensures { AnswersProbe filters.now path.now pos.0 result }
{
    match filters.probe(pos, path) {
        Answer::Absent => 0,
        Answer::Possible => 1,
        Answer::NotComputed => 2,
    }
}

/// Tells that nothing was answered, and nothing else.
fn unanswered(code: u32) -> CgProbed
    ensures { result ≡ without_probes code 0 0 0 }
{
    CgProbed {
        code,
        position: 0,
        number: 0,
        layer: 0,
        answered: 0,
    }
}

/// Tells that the filters of a layer are refused, and for which number.
fn in_layer(code: u32, layer: usize, number: u32) -> CgProbed
    ensures { result ≡ without_probes code 0 layer number }
{
    CgProbed {
        layer: layer as u64,
        number,
        ..unanswered(code)
    }
}

/// Tells that the filter of a commit is refused.
fn in_commit(code: u32, pos: Position) -> CgProbed
    ensures { result ≡ without_probes code pos.0 0 0 }
{
    CgProbed {
        position: pos.0,
        ..unanswered(code)
    }
}

/// Tells why filters are refused.
fn refused(error: FiltersError) -> CgProbed
    ensures { result ≡ told_filter_fault error }
{
    match error {
        FiltersError::IndexSize { layer } => in_layer(501, layer, 0),
        FiltersError::DataSize { layer } => in_layer(502, layer, 0),
        FiltersError::Version { layer, version } => in_layer(503, layer, version),
        FiltersError::Hashes { layer, hashes } => in_layer(504, layer, hashes),
        FiltersError::NoBits { layer } => in_layer(505, layer, 0),
        FiltersError::Falls { pos } => in_commit(506, pos),
        FiltersError::PastEnd { pos } => in_commit(507, pos),
        FiltersError::LeftOver { layer } => in_layer(508, layer, 0),
        FiltersError::Settings { layer } => in_layer(509, layer, 0),
        FiltersError::OutOfMemory => unanswered(OUT_OF_MEMORY),
    }
}
