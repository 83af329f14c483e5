//! What is known of the commits of the graph below.

ghost use Rattle.std.specs.Prelude.{◌≡◌, ◌<◌, ℕ, IfOk, IfErr, IfSome, [], length, unwrap_or};
ghost use Rattle.graph_walks.specs.Dates.{number_at};
ghost use Rattle.graph_walks.specs.History.{generation_at};
ghost use Rattle.graph_format.specs.StoredHistory.{history_of};
ghost use Rattle.gix_commitgraph.specs.Graph.{total};
ghost use Rattle.graph_levels.specs.OnTop.{level_at};
ghost use Rattle.graph_writer.specs.NewCommits.{layers_of_below};
ghost use Rattle.graph_writer.specs.LevelsBelow.{AreLevelsBelow, MayRefuseDatesBelow};

use crate::commit::WriteError;
use gix_commitgraph::Position;
use graph_chunks::dates::{CorrectedDates, DatesError};
use graph_history::Checked;
use graph_levels::Level;
use std::alloc::{AllocError, Global};

/// The levels of the commits of the graph below, in their order, and whether the graph has
/// corrected dates. Where it has none, the dates of the levels are 0. No graph counts as one
/// without layers, and each of them has dates.
#[derive(Drop)]
pub(crate) struct LevelsBelow {
    pub(crate) levels: Vec<Level>,
    pub(crate) have_dates: bool,
}

impl LevelsBelow {
    /// What is known of the commits below.
    pub(crate) fn of(alloc: Global, below: Option<&Checked<'_>>) -> Result<LevelsBelow, WriteError>
        ensures levels { IfOk result (AreLevelsBelow (layers_of_below below.entry)) }
        ensures refusal { IfErr result (MayRefuseDatesBelow (layers_of_below below.entry)) }
    {
        match below {
            Some(graph) => LevelsBelow::of_graph(alloc, graph),
            None => Ok(LevelsBelow {
                levels: Vec::new(alloc),
                have_dates: true,
            }),
        }
    }

    /// What is known of the commits of a graph.
    fn of_graph(alloc: Global, graph: &Checked<'_>) -> Result<LevelsBelow, WriteError>
        ensures levels { IfOk result (AreLevelsBelow graph.now.layers) }
        ensures refusal { IfErr result (MayRefuseDatesBelow graph.now.layers) }
    {
        let dates = match CorrectedDates::of_graph(alloc, graph.graph()) {
            Ok(dates) => dates,
            Err(DatesError::OutOfMemory) => return Err(WriteError::OutOfMemory),
            Err(error) => return Err(WriteError::Dates(error)),
        };
        let _commits = graph.num_commits();
        Ok(LevelsBelow {
            levels: levels_of(alloc, graph, &dates)?,
            have_dates: dates.is_some(),
        })
    }
}

/// The levels of the commits of a graph that has these dates, if it has dates.
fn levels_of(
    alloc: Global,
    graph: &Checked<'_>,
    dates: &Option<CorrectedDates>,
) -> Result<Vec<Level>, AllocError>
    requires { IfSome dates.now (λ dates. length dates ≡ total graph.now.layers) }
    ensures as_many { IfOk result (λ levels. length levels.items ≡ total graph.now.layers) }
    ensures generations { IfOk result (λ levels. (p : ℕ) → p < total graph.now.layers
        → generation_at (history_of graph.now.layers) p ≡ (level_at levels.items p).generation) }
    ensures dates { IfOk result (λ levels. (p : ℕ) → p < total graph.now.layers
        → number_at (unwrap_or dates.now []) p ≡ (level_at levels.items p).date) }
{
    let commits = graph.num_commits();
    let mut levels = Vec::with_capacity(alloc, commits as usize)?;
    for number in 0..commits {
        let pos = Position(number);
        levels.push(Level {
            generation: graph.generation(pos),
            date: date_at(dates, pos),
        })?;
    }
    Ok(levels)
}

/// The corrected date of the commit at a position, 0 where there are no dates.
fn date_at(dates: &Option<CorrectedDates>, pos: Position) -> u64
    requires { IfSome dates.now (λ dates. pos.0 < length dates) }
    ensures { result ≡ number_at (unwrap_or dates.now []) pos.0 }
{
    match dates {
        Some(dates) => dates.of(pos),
        None => 0,
    }
}
