//! The check of a graph: what may be wrong with it, and the statistics of its commits.

mod commit;
mod distinct;
mod gather;
mod ids;
mod layer;
mod lists;
mod parents;
mod span;
mod statistics;

ghost use Rattle.std.specs.Prelude.{◌≤◌, All, IfOk, IsTrue, MatchResult, length, take};

use crate::Position;
use crate::file::Commit;
use crate::file::commit::ParentError;
use crate::graph::Graph;
use crate::verify::statistics::Statistics;
pub use graph_format::fault::{CommitFault, LayerFault};
use std::alloc::{AllocError, Global};
use std::collections::BTreeMap;
use thiserror::Error;

/// The greatest number of layers of a right graph.
const MOST_LAYERS: usize = 256;

/// What the check of a graph looks for besides what every right graph keeps.
#[derive(Clone, Copy, Debug, PartialEq, Eq)]
pub struct VerifyOptions {
    /// That no id stands in two layers. Git's format does not forbid it.
    pub distinct_ids: bool,
}

/// Why a graph is refused: the first of its checks that fails, in their order, or a failed
/// allocation. Positions are those of the graph, and layers and base ids count from 0.
#[derive(Debug, Drop, PartialEq, Eq, Error)]
pub enum VerifyError<E> {
    /// There are more than 256 layers.
    #[error("TooManyFiles")]
    TooManyFiles,
    /// The layer does not have one base id for each layer before it ("Base Graphs List").
    #[error("BaseCount")]
    BaseCount { layer: usize },
    /// The base id of this index is not the checksum of the layer of that index ("Base Graphs
    /// List").
    #[error("BaseId")]
    BaseId { layer: usize, index: usize },
    /// Something is wrong with the layer as a whole.
    #[error("Layer")]
    Layer { layer: usize, fault: LayerFault },
    /// Something is wrong with the ids of the commit at this position.
    #[error("Commit")]
    Commit { pos: Position, fault: CommitFault },
    /// The parents of the commit at this position cannot be decoded ("Commit Data", "Extra Edge
    /// List").
    #[error("Parent")]
    Parent { pos: Position, error: ParentError },
    /// A parent of the commit at this position stands neither in the commit's layer nor in an
    /// earlier one ("Commit Data").
    #[error("ParentOutOfRange")]
    ParentOutOfRange { pos: Position, parent: Position },
    /// The generation number of the commit at this position is not the one that those of its
    /// parents make ("Commit Data").
    #[error("Generation")]
    Generation { pos: Position, expected: u32 },
    /// The processor answered this error on the commit at this position.
    #[error("Processor")]
    Processor { pos: Position, error: E },
    /// An allocation failed.
    #[error("OutOfMemory")]
    OutOfMemory,
    /// The id of the commit at this position stands at an earlier one too, in a layer below. It is
    /// the least such position. Only a check whose options ask for distinct ids answers this.
    #[error("DuplicateId")]
    DuplicateId { pos: Position, earlier: Position },
}

impl<E> From<AllocError> for VerifyError<E> {
    ghost use Rattle.std.specs.Prelude.{◌≡◌};
    ghost use Rattle.gix_commitgraph.specs.declared.verify.VerifyError.TheVariants.{OutOfMemory};

    ghost from_gives = { λ _ error. error ≡ OutOfMemory };

    fn from(_: AllocError) -> VerifyError<E> {
        VerifyError::OutOfMemory
    }
}

/// The statistics of a graph, gathered by [`Graph::verify_integrity`].
#[derive(Debug, Drop, PartialEq, Eq)]
pub struct Outcome {
    /// The number of edges of the longest walk along parents, 0 where there is no commit, and
    /// `None` where some generation number is
    /// [`GENERATION_NUMBER_MAX`](crate::GENERATION_NUMBER_MAX).
    pub longest_path_length: Option<u32>,
    /// The number of commits.
    pub num_commits: u32,
    /// For each number of parents that some commit has, the number of commits that have it.
    pub parent_counts: BTreeMap<u32, u32>,
}

impl Outcome {
    ghost use Rattle.gix_commitgraph.specs.Verify.{IsCopy};

    /// An equal outcome. The error is that an allocation failed.
    pub fn try_clone(&self) -> Result<Outcome, AllocError>
        ensures { IfOk result (IsCopy self.now) }
    {
        Ok(Outcome {
            parent_counts: self.parent_counts.clone()?,
            ..*self
        })
    }
}

impl Graph {
    ghost use Rattle.graph_format.specs.Points.{Agrees};
    ghost use Rattle.graph_layer.specs.Called.{MayBeCalled, CalledOn};
    ghost use Rattle.gix_commitgraph.specs.InGraph.{InGraph};
    ghost use Rattle.graph_format.specs.StoredHistory.{history_of};
    ghost use Rattle.gix_commitgraph.specs.Verify.{graph_points, points_from, points_with};
    ghost use Rattle.gix_commitgraph.specs.Verify.{cause_of, Summarizes};
    ghost use Rattle.gix_commitgraph.specs.GraphLaw.{IsInOrder};
    ghost use Rattle.gix_commitgraph.specs.Statistics.{AreStatistics};
    ghost use Rattle.gix_commitgraph.specs.Distinct.{IsSoundWith, IsDeservedWith, LookupsAreExact};
    ghost use Rattle.gix_commitgraph.specs.Graph.{IsGraph};
    ghost use Rattle.gix_commitgraph.specs.Sound.{Sound};
    ghost use Rattle.gix_commitgraph.specs.Headline.{Stats, LookupsAreScans, IsDeserved};

    /// Checks the graph, calls the processor on each commit, and answers the graph's statistics.
    ///
    /// The checks go over the layers from the lowest on, and over the commits of each in the order
    /// of their positions. A commit's processor is called once its own checks have passed. After an
    /// `Ok` it was called on each commit, once and in order, and accepted all of them.
    ///
    /// # Errors
    ///
    /// The first check that fails is answered. The processor was then called, once and in order, on
    /// the commits before it alone, and accepted them.
    ///
    /// 1. `TooManyFiles`: there are more than 256 layers.
    /// 2. For each layer:
    ///    1. `BaseCount`: it does not have one base id for each layer below it ("Base Graphs
    ///       List").
    ///    2. `BaseId`: a base id is not the checksum of its layer; the first such one.
    ///    3. `Layer`: its checksum, its file's name or its fan is wrong, in this order.
    ///    4. For each commit of it:
    ///       1. `Commit`: its id is null, or not above the one before it in the layer ("OID
    ///          Lookup"), or its root tree's id is null ("Commit Data"), in this order.
    ///       2. `Parent`, `ParentOutOfRange`: for each parent in turn, it cannot be decoded
    ///          ("Commit Data", "Extra Edge List"), or stands neither in this layer nor in one
    ///          below it.
    ///       3. `Generation`: its generation number is not 1 more than the greatest of its
    ///          parents', 1 where it has none, at most
    ///          [`GENERATION_NUMBER_MAX`](crate::GENERATION_NUMBER_MAX).
    ///       4. `Processor`: the processor was called on it, and answered this error. No commit
    ///          after it was looked at.
    ///
    /// `OutOfMemory` means that an allocation failed. The processor was then called, once and in
    /// order, on a prefix of the commits, whose checks had passed, and accepted each.
    pub fn verify_integrity<'a, F, E>(
        &'a self,
        alloc: Global,
        processor: &mut F,
    ) -> Result<Outcome, VerifyError<E>>
    where
        F: FnMut(&Commit<'a>) -> Result<(), E>,
        requires { MayBeCalled F.FnMut (InGraph self.now) }

        // It is `Ok` exactly where no check fails and the processor accepts each commit, once and
        // in order; else it names the first check that fails, or hands back the processor's error.
        ensures agrees { Agrees (CalledOn F.FnMut (InGraph self.now)) (graph_points self.now)
            processor.old processor.new cause_of result }
        ensures outcome { IfOk result (Summarizes (history_of self.now)) }

        // A graph that passes is right, and a graph that is right is refused only by the processor
        // or because an allocation failed.
        ensures sound { MatchResult result (λ _. Sound self.now) (IsDeserved self.now) }

        // In a graph that passes, the statistics are exact, and a lookup is a plain scan.
        ensures statistics { IfOk result (Stats self.now) }
        ensures lookup { IfOk result (λ _. LookupsAreScans self.now) }
    {
        let plain = VerifyOptions {
            distinct_ids: false,
        };
        self.verify_layers(alloc, plain, 0, Statistics::new(alloc), processor)
    }

    /// Checks the graph as [`Graph::verify_integrity`] does, and for what the options ask besides.
    /// Without options the two are the same.
    ///
    /// # Errors
    ///
    /// Those of [`Graph::verify_integrity`], in the same order, and with `distinct_ids` one more:
    ///
    /// - `DuplicateId`: the commit's id stands in a layer below, at this position and at none
    ///   before. It comes after `Commit` for the id, and before `Commit` for the root tree's.
    pub fn verify_integrity_with<'a, F, E>(
        &'a self,
        alloc: Global,
        options: VerifyOptions,
        processor: &mut F,
    ) -> Result<Outcome, VerifyError<E>>
    where
        F: FnMut(&Commit<'a>) -> Result<(), E>,
        requires { MayBeCalled F.FnMut (InGraph self.now) }

        // It is `Ok` exactly where no check fails and the processor accepts each commit, once and
        // in order; else it names the first check that fails, or hands back the processor's error.
        ensures agrees { Agrees (CalledOn F.FnMut (InGraph self.now)) (points_with options self.now)
            processor.old processor.new cause_of result }
        ensures outcome { IfOk result (Summarizes (history_of self.now)) }

        // A graph that passes keeps all that is asked, and one that keeps it is refused only by the
        // processor or because an allocation failed.
        ensures sound { MatchResult result (λ _. IsSoundWith options self.now)
            (IsDeservedWith options self.now) }

        // In a graph that passes, the statistics are exact, and a lookup is a plain scan.
        ensures statistics { IfOk result (Stats self.now) }
        ensures lookup { IfOk result (λ _. LookupsAreScans self.now) }

        // With distinct ids, a lookup answers a position exactly where it holds the id.
        ensures distinct { IfOk result (λ _.
            IsTrue options.distinct_ids → LookupsAreExact self.now) }
    {
        self.verify_layers(alloc, options, 0, Statistics::new(alloc), processor)
    }

    /// Goes on with a check where the layers below one were checked with the same options, and
    /// `below` is the answer: it checks that layer and those above it. What it answers is what
    /// [`Graph::verify_integrity_with`] would answer of the whole graph, without the calls on the
    /// commits below.
    ///
    /// # Errors
    ///
    /// Those of [`Graph::verify_integrity_with`], in the same order.
    pub fn verify_integrity_from<'a, F, E>(
        &'a self,
        alloc: Global,
        options: VerifyOptions,
        layer: usize,
        below: &Outcome,
        processor: &mut F,
    ) -> Result<Outcome, VerifyError<E>>
    where
        F: FnMut(&Commit<'a>) -> Result<(), E>,
        requires callable { MayBeCalled F.FnMut (InGraph self.now) }
        requires layer { layer ≤ length self.now }
        requires sound { IsSoundWith options (take layer self.now) }
        requires below { Summarizes (history_of (take layer self.now)) below.now }

        // It is `Ok` exactly where no check fails and the processor accepts each commit from the
        // layer on, once and in order; else it names the first check that fails, or hands back the
        // processor's error. That check is the first of all that fails, as the law
        // `the_first_fault_stands_above_right_layers` says.
        ensures agrees { Agrees (CalledOn F.FnMut (InGraph self.now))
            (points_from options self.now layer) processor.old processor.new cause_of result }
        ensures outcome { IfOk result (Summarizes (history_of self.now)) }

        // A graph that passes keeps all that is asked, and one that keeps it is refused only by the
        // processor or because an allocation failed.
        ensures sound { MatchResult result (λ _. IsSoundWith options self.now)
            (IsDeservedWith options self.now) }

        // In a graph that passes, the statistics are exact.
        ensures statistics { IfOk result (Stats self.now) }
    {
        let statistics = Statistics::from_outcome(below)?;
        self.verify_layers(alloc, options, layer, statistics, processor)
    }

    /// Checks the layers from one on, given the statistics of the layers below it. What its answer
    /// says of the graph as a whole is left to its callers.
    fn verify_layers<'a, F, E>(
        &'a self,
        alloc: Global,
        options: VerifyOptions,
        first: usize,
        statistics: Statistics,
        processor: &mut F,
    ) -> Result<Outcome, VerifyError<E>>
    where
        F: FnMut(&Commit<'a>) -> Result<(), E>,
        requires callable { MayBeCalled F.FnMut (InGraph self.now) }
        requires first { first ≤ length self.now }
        requires ordered { All IsInOrder (take first self.now) }
        requires statistics { AreStatistics (history_of (take first self.now)) statistics }
        ensures agrees { Agrees (CalledOn F.FnMut (InGraph self.now))
            (points_from options self.now first) processor.old processor.new cause_of result }
        ensures outcome { IfOk result (Summarizes (history_of self.now)) }
        ensures graph { IsGraph self.now }
    {
        if self.files.len() > MOST_LAYERS {
            return Err(VerifyError::TooManyFiles);
        }
        let distinct = self.distinct_below(options, first, alloc)?;
        let mut statistics = statistics;
        for layer in first..self.files.len() {
            let span = self.span_at(layer, distinct);
            self.verify_layer(options, span, alloc, &mut statistics, processor)?;
        }
        Ok(statistics.outcome()?)
    }
}
