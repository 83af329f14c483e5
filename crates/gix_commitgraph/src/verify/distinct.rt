//! Up to which position the ids of a graph are distinct.
//!
//! All ids are sorted once, so that equal ones stand side by side: first their fronts alone, and
//! whole only where two have the same front. A lookup of each id in each layer below would take
//! time that grows with the number of layers.

ghost use Rattle.std.specs.Prelude.{◌≡◌, ◌^◌, ◌<◌, length, IfOk, IsTrue};
ghost use Rattle.gix_commitgraph.specs.IdPlaces.{ComesBeforeRepeats};
ghost use Rattle.gix_commitgraph.specs.Fronts.{HaveDistinctFronts};
ghost use Rattle.gix_commitgraph.specs.Graph.{total};

use crate::Position;
use crate::graph::Graph;
use crate::verify::VerifyOptions;
use gix_hash_core::oid;
use graph_layer::faults::id_fault;
use std::alloc::{AllocError, Global};

/// The id of a commit, and the commit's position in the graph.
#[derive(Clone, Copy, PartialEq, Eq, PartialOrd, Ord)]
pub(super) struct IdPlace<'a> {
    id: oid<'a>,
    pos: Position,
}

impl Graph {
    ghost use Rattle.gix_commitgraph.specs.Distinct.{AreDistinct, AreDistinctBelow};
    ghost use Rattle.gix_commitgraph.specs.IdPlaces.{AreIdPlaces};

    /// A position below which no two commits have one id. Where distinct ids are asked for in more
    /// than one layer, it is that of the first commit whose id an earlier one has, or whose id has
    /// a fault, and else the number of commits. Otherwise it is 0, and no memory is asked for.
    ///
    /// The check looks for each id from there on, so that a lesser answer would cost time alone.
    pub(super) fn distinct_below(
        &self,
        options: VerifyOptions,
        first: usize,
        alloc: Global,
    ) -> Result<u32, AllocError>
        ensures distinct { IfOk result (AreDistinctBelow self.now) }
        // Where all fronts differ, no id is looked for.
        ensures fronts { IfOk result (λ below. IsTrue options.distinct_ids → first ≡ 0
            → 1 < length self.now → HaveDistinctFronts self.now → below ≡ total self.now) }
    {
        if !options.distinct_ids || first > 0 || self.files.len() == 1 {
            return Ok(0);
        }
        if self.has_distinct_fronts(alloc)? {
            return Ok(self.num_commits());
        }
        let mut places = self.id_places(alloc)?;
        places.sort()?;
        Ok(first_repeat(&places))
    }

    /// Whether no two ids have the same front. Then all are distinct.
    fn has_distinct_fronts(&self, alloc: Global) -> Result<bool, AllocError>
        ensures distinct { IfOk result (λ are. IsTrue are → AreDistinct self.now) }
        ensures fronts { IfOk result (λ are. HaveDistinctFronts self.now → IsTrue are) }
    {
        let mut fronts = Vec::new(alloc);
        fronts.reserve(self.num_commits() as usize)?;
        for id in self.iter_ids() {
            fronts.push(id.front())?;
        }
        fronts.sort()?;
        Ok(fronts.is_sorted_by(|front, next| front < next))
    }

    /// The ids of the first commits, up to one whose own id has a fault: the check gets no further.
    fn id_places(&self, alloc: Global) -> Result<Vec<IdPlace<'_>>, AllocError>
        ensures places { IfOk result (λ places. AreIdPlaces self.now places.items) }
        ensures few { IfOk result (λ places. length places.items < 2 ^ 32) }
    {
        let mut places = Vec::new(alloc);
        places.reserve(self.num_commits() as usize)?;
        let mut pos = 0;
        for commit in self.iter_commits() {
            if id_fault(&commit).is_some() {
                break;
            }
            places.push(IdPlace {
                id: commit.id(),
                pos: Position(pos),
            })?;
            pos += 1;
        }
        Ok(places)
    }
}

/// The least position of a place whose id is that of the place before it, and else the number of
/// places.
fn first_repeat(places: &[IdPlace<'_>]) -> u32
    requires { length places.now < 2 ^ 32 }
    ensures { ComesBeforeRepeats places.now result }
{
    let mut first = places.len() as u32;
    let mut before = None;
    for place in places {
        if before == Some(place.id) {
            first = first.min(place.pos.0);
        }
        before = Some(place.id);
    }
    first
}
