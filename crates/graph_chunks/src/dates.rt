//! The corrected commit dates of a graph.

ghost use Rattle.std.specs.Prelude.{◌≡◌, ◌<◌, All, None, length};
ghost use Rattle.std.specs.Prelude.{IfOk, IfErr, IfSome, IfNone};
ghost use Rattle.graph_walks.specs.Dates.{number_at};
ghost use Rattle.gix_commitgraph.specs.Graph.{total};
ghost use Rattle.gix_commitgraph.specs.Sound.{Sound};
ghost use Rattle.graph_format.specs.OptionalChunks.{HasDates};
ghost use Rattle.graph_chunks.specs.GraphStoredDates.{dates_of};
ghost use Rattle.graph_chunks.specs.GraphDates.{graph_dates_refusal, MayRefuseGraphDates};
ghost use Rattle.graph_chunks.specs.GraphDates.{AreRightByDecodedParents, FollowAllParents};

mod check;
mod latest;
pub mod layer;
mod stored;

use crate::dates::check::check_dates;
use crate::dates::latest::room_for_lists;
use crate::dates::stored::{has_dates, read_dates};
use gix_commitgraph::{Graph, Position};
use std::alloc::Global;
use std::marker::Model;
use thiserror::Error;

/// Why the corrected dates of a graph are refused: the dates of the lowest layer that cannot be
/// read, and then the first date that is wrong. Its text is the name of the variant alone.
#[derive(Clone, Copy, Debug, PartialEq, Eq, Error)]
pub enum DatesError {
    /// The chunk `GDA2` of this layer has not four bytes for each commit ("Generation Data").
    #[error("DataSize")]
    DataSize { layer: usize },
    /// The length of the chunk `GDO2` of this layer is no multiple of eight ("Generation Data
    /// Overflow").
    #[error("OverflowSize")]
    OverflowSize { layer: usize },
    /// The word of this commit names a number that the chunk `GDO2` of its layer does not have.
    #[error("OverflowIndex")]
    OverflowIndex { pos: Position },
    /// The date of this commit is 2^63 or more.
    #[error("TooLarge")]
    TooLarge { pos: Position },
    /// The date of this commit is not the expected one: its time, or one second after the latest
    /// date of its parents, whichever is later. All dates could be read, and those before it are
    /// right.
    #[error("Date")]
    Date { pos: Position, expected: u64 },
    /// An allocation failed.
    #[error("OutOfMemory")]
    OutOfMemory,
}

/// The corrected dates of a graph, which are right. A contract sees them as a list, in the order of
/// the commits.
#[derive(Drop)]
pub struct CorrectedDates {
    dates: Vec<u64>,
}

impl Model for CorrectedDates {
    ghost use Rattle.std.specs.Prelude.{ℕ, List};

    ghost Value = { List ℕ };

    ghost view = { λ a. a.dates.items };
}

impl CorrectedDates {
    /// The corrected dates that a graph stores, and `None` where one of its layers has none: Git
    /// reads none then.
    ///
    /// The dates are right: each is the commit's time, or one second after the latest date of its
    /// parents, whichever is later. In a right graph all parents count. In one that was not
    /// checked, a parent that cannot be decoded is left out, with those listed after it, and one
    /// that is no commit of the graph counts as one with the date 0.
    ///
    /// # Errors
    ///
    /// The first of [`DatesError`] that holds, layer by layer, and then commit by commit.
    /// `OutOfMemory` comes only where all dates can be read: they are compared once they stand in
    /// memory. A graph of which a layer has no dates is never refused.
    #[tactic(auto, using(crate::proofs::DateCheckLemmas::refusal_laws))]
    pub fn of_graph(alloc: Global, graph: &Graph) -> Result<Option<CorrectedDates>, DatesError>
        ensures none { IfOk result (λ found. IfNone found (¬ All HasDates graph.now)) }
        ensures some { IfOk result (λ found. IfSome found (λ _. All HasDates graph.now)) }
        ensures stored { IfOk result (λ found. IfSome found (λ dates. dates ≡ dates_of graph.now)) }
        ensures right { IfOk result (λ found. IfSome found
            (AreRightByDecodedParents graph.now)) }
        ensures sound { IfOk result (λ found. IfSome found (λ dates.
            Sound graph.now → FollowAllParents graph.now dates)) }
        ensures commits { IfOk result (λ found. IfSome found
            (λ dates. length dates ≡ total graph.now)) }
        ensures accepted { IfOk result (λ found. IfSome found
            (λ _. graph_dates_refusal graph.now ≡ None)) }
        ensures all { IfErr result (λ _. All HasDates graph.now) }
        ensures refusal { IfErr result (MayRefuseGraphDates graph.now) }
    {
        if !has_dates(graph) {
            return Ok(None);
        }
        let _commits = graph.num_commits();
        let dates = match read_dates(alloc, graph) {
            Ok(dates) => dates,
            Err(error) => return Err(error),
        };
        let Ok(mut room) = room_for_lists(alloc, graph) else {
            return Err(DatesError::OutOfMemory);
        };
        match check_dates(graph, &dates, &mut room) {
            Ok(()) => Ok(Some(CorrectedDates { dates })),
            Err(error) => Err(error),
        }
    }

    /// The corrected date of the commit at a position, in seconds since 1970-01-01 00:00:00 UTC.
    pub fn of(&self, pos: Position) -> u64
        requires { pos.0 < length self.now }
        ensures { result ≡ number_at self.now pos.0 }
    {
        self.dates[pos.0 as usize]
    }
}
