//! What the file of a new layer is to hold, read off the commits that are handed in: nothing of
//! them is copied.

ghost use Rattle.std.specs.Prelude.{◌≡◌, ◌<◌, length, All};
ghost use Rattle.graph_levels.specs.ParentLists.{commit_count};

use crate::filters::NewFilters;
use crate::handed::Handed;
use crate::new_layer::NewLayer;
use crate::view::CommitView;
use gix_hash_core::{Kind, ObjectId};
use graph_encoder::{PlanFilters, PlanRow, PlanView};
use graph_levels::Level;

/// What the file of a new layer is to hold.
#[derive(Drop)]
pub(crate) struct NewPlan<'a, C: CommitView> {
    /// The kind of all ids.
    pub(crate) kind: Kind,
    /// The checksums of the layers below, the lowest first.
    pub(crate) bases: Vec<ObjectId>,
    /// The commits that are handed in.
    pub(crate) commits: &'a Handed<'a, C>,
    /// Their order, and the positions of their parents.
    pub(crate) new: &'a NewLayer,
    /// Their levels, in that order.
    pub(crate) levels: &'a [Level],
    /// How many seconds their corrected dates are past their times, if the layer is to have dates.
    pub(crate) offsets: Option<Vec<u64>>,
    /// Their changed-path filters, in that order, if the layer is to have filters.
    pub(crate) filters: Option<NewFilters>,
    ghost each: { All (λ i. i < length commits.now) new.now.order.items },
    ghost listed: { commit_count new.now.parents ≡ length new.now.order.items },
    ghost leveled: { length levels.now ≡ length new.now.order.items },
}

impl<C: CommitView> NewPlan<'_, C> {
    ghost use Rattle.std.specs.Prelude.{ℕ, Some, slice_get};
    ghost use Rattle.graph_writer.specs.PlannedCommits.{IsNewRow};
    ghost use Rattle.graph_writer.specs.declared.commit.NewCommit.{NewCommit};

    /// What the file is to hold of the commit at a place.
    fn row_at(&self, place: usize) -> PlanRow<'_>
        requires { place < length self.now.new.now.order.items }
        ensures { (i : ℕ) (commit : NewCommit)
            → slice_get self.now.new.now.order.items place ≡ Some i
            → slice_get self.now.commits.now i ≡ Some commit
            → IsNewRow self.now place commit result }
    {
        let commit = self.commits.at(self.new.order[place]);
        PlanRow {
            id: commit.id(),
            tree: commit.tree(),
            parents: self.new.parents.of(place),
            generation: self.levels[place].generation,
            time: commit.time(),
        }
    }
}

#[tactic(auto, unfolding(crate::specs::PlannedCommits::plan_of))]
impl<C: CommitView> PlanView for NewPlan<'_, C> {
    ghost use Rattle.graph_writer.specs.PlannedCommits.{plan_of};

    ghost as_plan = { plan_of };

    fn kind(&self) -> Kind {
        self.kind
    }

    fn bases(&self) -> &[ObjectId] {
        &self.bases
    }

    fn commit_count(&self) -> usize {
        self.new.order.len()
    }

    fn row(&self, place: usize) -> PlanRow<'_> {
        self.row_at(place)
    }

    fn offsets(&self) -> Option<&[u64]> {
        match &self.offsets {
            Some(offsets) => Some(offsets),
            None => None,
        }
    }

    fn filters(&self) -> Option<&PlanFilters> {
        match &self.filters {
            Some(filters) => Some(&filters.parts),
            None => None,
        }
    }
}
