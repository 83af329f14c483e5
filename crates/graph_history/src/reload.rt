//! A graph that is checked where it differs from one that was checked before.

ghost use Rattle.std.specs.Prelude.{◌≡◌, ◌≤◌, IfErr, IfOk, length, take};
ghost use Rattle.graph_format.specs.StoredHistory.{history_of};
ghost use Rattle.gix_commitgraph.specs.Distinct.{IsSoundWith};
ghost use Rattle.gix_commitgraph.specs.Verify.{Summarizes};
ghost use Rattle.graph_history.specs.Checked.{MayRefuseWith};
ghost use Rattle.graph_history.specs.Reload.{StandAboveShared};

use crate::checked::Checked;
use crate::lower::outcome_of_lowest;
use crate::owned::CheckedGraph;
use crate::shared::shared_layers;
use gix_commitgraph::Graph;
use gix_commitgraph::file::Commit;
use gix_commitgraph::law::check::the_first_fault_stands_above_right_layers;
use gix_commitgraph::verify::{Outcome, VerifyError};
use graph_ancestors::NoFault;
use std::alloc::{AllocError, Global};
use std::borrow::Cow;

/// A graph that was checked where it differs from one that was checked before.
#[derive(Drop)]
pub struct Reloaded {
    /// The checked graph.
    pub graph: CheckedGraph,
    /// How many commits the check went over: those that stand above the shared layers.
    pub checked: u32,
}

impl<'g> Checked<'g> {
    /// Checks another graph, such as one that was opened anew at the path of this one, with the
    /// options of this one, and keeps it. The lowest layers of both that are the same are shared,
    /// and of these nothing is checked again: they are compared, byte by byte. Two layers are the
    /// same where their bytes and their paths are. A layer without commits ends the shared ones.
    ///
    /// After an `Ok` the graph is as if all of it had been checked, statistics included. This graph
    /// stays as it is, whatever the answer.
    ///
    /// # Errors
    ///
    /// Those of [`Checked::new_with`] for the other graph: the first check of all that fails, or
    /// `OutOfMemory` where an allocation failed. The other graph is dropped then.
    pub fn reload(&self, alloc: Global, graph: Graph) -> Result<Reloaded, VerifyError<NoFault>>
        ensures graph { IfOk result (λ reloaded. reloaded.graph.layers ≡ graph) }
        ensures options { IfOk result (λ reloaded.
            reloaded.graph.options ≡ self.now.options) }
        ensures sound { IfOk result (λ _. IsSoundWith self.now.options graph) }
        ensures refusal { IfErr result (MayRefuseWith self.now.options graph) }

        // The check went over the commits above the shared layers, and over no other.
        ensures checked { IfOk result (λ reloaded.
            StandAboveShared self.now.layers graph reloaded.checked) }
    {
        let shared = shared_layers(self.graph, &graph);
        let below = self.outcome_below(alloc, shared)?;
        the_first_fault_stands_above_right_layers::<NoFault>();
        let mut checked = 0u32;
        let outcome = graph.verify_integrity_from(
            alloc,
            self.options,
            shared,
            &below,
            &mut |_: &Commit<'_>| {
                checked = checked.saturating_add(1);
                Ok(())
            },
        )?;
        let graph = CheckedGraph {
            graph,
            options: self.options,
            outcome,
        };
        Ok(Reloaded { graph, checked })
    }

    /// The statistics of so many of the lowest layers. The error is that an allocation failed.
    fn outcome_below(&self, alloc: Global, layers: usize) -> Result<Outcome, AllocError>
        requires { layers ≤ length self.now.layers }
        ensures { IfOk result (Summarizes (history_of (take layers self.now.layers))) }
    {
        if layers < self.graph.layers().len() {
            return outcome_of_lowest(alloc, self.graph, layers);
        }
        match &self.outcome {
            Cow::Borrowed(outcome) => outcome.try_clone(),
            Cow::Owned(outcome) => outcome.try_clone(),
        }
    }
}
