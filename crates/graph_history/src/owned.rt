//! A graph that was checked and is right, with the graph itself.

ghost use Rattle.std.specs.Prelude.{◌≡◌, ◌<◌, ◌≤◌, ◌∷◌, ◌++◌, [], IfErr, IfOk, OnErr, OnOk};
ghost use Rattle.std.specs.Prelude.{drop, length, take};
ghost use Rattle.gix_commitgraph.specs.Distinct.{IsSoundWith};
ghost use Rattle.gix_commitgraph.specs.Graph.{IsGraph, total};
ghost use Rattle.gix_commitgraph.specs.Sound.{Sound};
ghost use Rattle.graph_ancestors.specs.RefusedGraph.{MayRefuseGraph};
ghost use Rattle.graph_history.specs.Checked.{MayRefuseAbove, MayRefuseLayers, MayRefuseSome};
ghost use Rattle.graph_history.specs.Checked.{MayRefuseWith};
ghost use Rattle.graph_history.specs.RightGraph.{IsRight, plain_options};

use crate::checked::{Checked, PLAIN};
use gix_commitgraph::file::Commit;
use gix_commitgraph::law::check::the_first_fault_stands_above_right_layers;
use gix_commitgraph::verify::{Outcome, VerifyError, VerifyOptions};
use gix_commitgraph::{File, Graph, GraphError};
use graph_ancestors::{NoFault, check};
use std::alloc::Global;
use std::borrow::Cow;
use std::marker::Model;
use thiserror::Error;

/// Why a file is not put on top of a checked graph.
#[derive(Debug, Drop, PartialEq, Eq, Error)]
pub enum PushError {
    /// The layers and the file make no graph.
    #[error("Graph")]
    Graph(GraphError),
    /// The layers and the file make a graph that is not right.
    #[error("Check")]
    Check(VerifyError<NoFault>),
}

/// A graph that was checked and is right, with its statistics. It owns the graph, and lends it as a
/// [`Checked`], which answers what is asked of it. A contract sees it as the graph's layers and the
/// options of the check.
#[derive(Drop)]
pub struct CheckedGraph {
    pub(crate) graph: Graph,
    pub(crate) options: VerifyOptions,
    pub(crate) outcome: Outcome,
}

impl Model for CheckedGraph {
    ghost use Rattle.graph_history.specs.RightGraph.{CheckedLayers, IsRight};

    ghost Value = { CheckedLayers };

    ghost view = { λ a. record { layers = a.graph; options = a.options } };

    ghost invariant = { λ a. IsRight a.options a.graph a.outcome };
}

impl CheckedGraph {
    /// Checks a graph as [`Checked::new`] does, and keeps it.
    ///
    /// # Errors
    ///
    /// Those of [`Checked::new`]. The graph is dropped then.
    pub fn new(alloc: Global, graph: Graph) -> Result<CheckedGraph, VerifyError<NoFault>>
        ensures graph { IfOk result (λ checked. checked.layers ≡ graph) }
        ensures options { IfOk result (λ checked. checked.options ≡ plain_options) }
        ensures sound { IfOk result (λ _. Sound graph) }
        ensures refusal { IfErr result (MayRefuseGraph graph) }
    {
        let outcome = check(alloc, &graph)?;
        Ok(CheckedGraph {
            graph,
            options: PLAIN,
            outcome,
        })
    }

    /// Checks a graph as [`Checked::new_with`] does, and keeps it.
    ///
    /// # Errors
    ///
    /// Those of [`Checked::new_with`]. The graph is dropped then.
    pub fn new_with(
        alloc: Global,
        options: VerifyOptions,
        graph: Graph,
    ) -> Result<CheckedGraph, VerifyError<NoFault>>
        ensures graph { IfOk result (λ checked. checked.layers ≡ graph) }
        ensures options { IfOk result (λ checked. checked.options ≡ options) }
        ensures sound { IfOk result (λ _. IsSoundWith options graph) }
        ensures refusal { IfErr result (MayRefuseWith options graph) }
    {
        let outcome = graph.verify_integrity_with(alloc, options, &mut |_: &Commit<'_>| Ok(()))?;
        Ok(CheckedGraph {
            graph,
            options,
            outcome,
        })
    }

    /// The checked graph, lent.
    pub fn as_checked(&self) -> Checked<'_>
        ensures same { result ≡ self.now }
        ensures right { IsSoundWith self.now.options self.now.layers }
    {
        Checked {
            graph: &self.graph,
            options: self.options,
            outcome: Cow::Borrowed(&self.outcome),
        }
    }

    /// Puts a file on top of the layers and checks it, at the cost of that file alone: what stands
    /// below was checked. After an `Ok` the graph is as if all of it had been checked with the same
    /// options, statistics included.
    ///
    /// # Errors
    ///
    /// Those of [`Graph::push`], and then those of a check of all layers with the options of the
    /// graph's check: the first check of all that fails, or `OutOfMemory` as in [`Checked::new`].
    /// The file is then dropped, and the graph is as it was.
    pub fn push(&mut self, alloc: Global, file: File) -> Result<(), PushError>
        ensures pushed { OnOk result (self.new.layers ≡ self.old.layers ++ file ∷ []) }
        ensures kept { OnErr result (self.new.layers ≡ self.old.layers) }
        ensures options { self.new.options ≡ self.old.options }
        ensures right { IsSoundWith self.new.options self.new.layers }
        ensures refusal { IfErr result
            (MayRefuseLayers self.old.options (self.old.layers ++ file ∷ [])) }
    {
        let layers = self.graph.layers().len();
        if let Err(error) = self.graph.push(file) {
            return Err(PushError::Graph(error));
        }
        let checked = check_above(
            alloc,
            &mut self.graph,
            self.options,
            &mut self.outcome,
            layers,
        );
        match checked {
            Ok(_) => Ok(()),
            Err(error) => Err(PushError::Check(error)),
        }
    }

    /// Puts some files on top of the layers, the lowest of them first, and checks them, at the cost
    /// of these files alone. It answers how many commits it checked: those of the files. After an
    /// `Ok` the graph is as if all of it had been checked with the same options, statistics
    /// included.
    ///
    /// # Errors
    ///
    /// Those of [`Graph::push`] for the first of the files that it refuses, on top of those before
    /// it. Where there is none, those of a check of all layers, as in [`CheckedGraph::push`]. All
    /// files are then dropped, and the graph is as it was.
    pub fn push_all(&mut self, alloc: Global, files: Vec<File>) -> Result<u32, PushError>
        ensures pushed { OnOk result (self.new.layers ≡ self.old.layers ++ files.items) }
        ensures checked { IfOk result (λ checked. checked ≡ total files.items) }
        ensures kept { OnErr result (self.new.layers ≡ self.old.layers) }
        ensures options { self.new.options ≡ self.old.options }
        ensures graph { IsGraph self.new.layers }
        ensures right { IsSoundWith self.new.options self.new.layers }
        ensures refusal { IfErr result
            (MayRefuseAbove self.old.options self.old.layers files.items) }
    {
        let layers = self.graph.layers().len();
        if let Err(refused) = put_on(&mut self.graph, files) {
            return Err(PushError::Graph(refused));
        }
        let counted = check_above(
            alloc,
            &mut self.graph,
            self.options,
            &mut self.outcome,
            layers,
        );
        match counted {
            Ok(commits) => Ok(commits),
            Err(fault) => Err(PushError::Check(fault)),
        }
    }

    /// The graph.
    pub fn into_graph(self) -> Graph
        ensures same { result ≡ self.layers }
        ensures right { IsSoundWith self.options self.layers }
    {
        let CheckedGraph { graph, .. } = self;
        graph
    }
}

/// Puts files on top of the layers of a graph, all of them or none. The error is that of the first
/// that is refused.
fn put_on(graph: &mut Graph, files: Vec<File>) -> Result<(), GraphError>
    ensures put { OnOk result (graph.new ≡ graph.old ++ files.items) }
    ensures kept { OnErr result (graph.new ≡ graph.old) }
    ensures graph { IsGraph graph.new }
    ensures refusal { IfErr result (MayRefuseSome graph.old files.items) }
{
    let below = graph.layers().len();
    for file in files {
        if let Err(error) = graph.push(file) {
            take_off(graph, below);
            return Err(error);
        }
    }
    Ok(())
}

/// Checks a graph above so many of its lowest layers, which keep what the options ask for and have
/// these statistics. It answers how many commits it checked, and the statistics are then those of
/// all layers. Where the check fails, the layers above are taken off.
fn check_above(
    alloc: Global,
    graph: &mut Graph,
    options: VerifyOptions,
    outcome: &mut Outcome,
    layers: usize,
) -> Result<u32, VerifyError<NoFault>>
    requires graph { IsGraph graph.old }
    requires some { 0 < layers }
    requires within { layers ≤ length graph.old }
    requires below { IsRight options (take layers graph.old) outcome.old }
    ensures kept { OnOk result (graph.new ≡ graph.old) }
    ensures checked { IfOk result (λ checked. checked ≡ total (drop layers graph.old)) }
    ensures taken_off { OnErr result (graph.new ≡ take layers graph.old) }
    ensures right { IsRight options graph.new outcome.new }
    ensures refusal { IfErr result (MayRefuseWith options graph.old) }
{
    let mut checked = 0u32;
    let found = graph.verify_integrity_from(
        alloc,
        options,
        layers,
        outcome,
        &mut |_: &Commit<'_>| {
            checked = checked.saturating_add(1);
            Ok(())
        },
    );
    the_first_fault_stands_above_right_layers::<NoFault>();
    match found {
        Ok(of_all) => {
            *outcome = of_all;
            Ok(checked)
        }
        Err(error) => {
            take_off(graph, layers);
            Err(error)
        }
    }
}

/// Takes the highest layers off, so that as many are left.
fn take_off(graph: &mut Graph, layers: usize)
    requires some { 0 < layers }
    ensures { graph.new ≡ take layers graph.old }
{
    while graph.layers().len() > layers {
        let _ = graph.pop();
    }
}
