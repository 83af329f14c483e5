//! What a file for a test is to hold.

ghost use Rattle.std.specs.Prelude.{◌≡◌, ◌↔◌, IsTrue, IfOk, List, ℕ, length};
ghost use Rattle.graph_encoder.specs.Plan.{IsPlan};
ghost use Rattle.graph_encoder.specs.Said.{IsFileOf};
ghost use Rattle.graph_encoder.specs.Written.{planned_file};
ghost use Rattle.graph_vectors.specs.FilePlan.{file_plan};

use gix_hash_core::{Kind, ObjectId};
use graph_encoder::{PlanCommit, PlanFilters, PlanRow, PlanView, build_view, is_buildable};
use std::alloc::{AllocError, Global};

/// What one file is to hold: the commits of a layer, and the checksums of the layers below it. It
/// may be anything that the format has room for: ids need not ascend, ids and trees may be null,
/// parents need not exist, and generation numbers may be wrong.
#[derive(Debug, Drop)]
pub struct LayerPlan {
    /// The kind of all ids.
    pub kind: Kind,
    /// The checksums of the files below, the lowest first ("Base Graphs List").
    pub bases: Vec<ObjectId>,
    /// The commits in the order of the file.
    pub commits: Vec<PlanCommit>,
}

impl LayerPlan {
    ghost use Rattle.graph_encoder.specs.Plan.{IsPlan};
    ghost use Rattle.graph_vectors.specs.FilePlan.{file_plan};

    /// Whether a file can hold all of it: all ids are of the plan's kind, there are at most 255
    /// bases and fewer than 2147483648 commits, each generation number is at most 1073741823 and
    /// each time at most 17179869183, each parent is below 0x70000000, and there are fewer than
    /// 2147483648 extra words, which are the parents from the second on of each commit that has
    /// more than two.
    pub fn is_buildable(&self) -> bool
        ensures { IsTrue result ↔ IsPlan (file_plan self.now) }
    {
        is_buildable(self)
    }
}

/// The plan of a file without dates and filters.
impl PlanView for LayerPlan {
    ghost use Rattle.graph_vectors.specs.FilePlan.{file_plan};

    ghost as_plan = { file_plan };

    fn kind(&self) -> Kind {
        self.kind
    }

    fn bases(&self) -> &[ObjectId] {
        &self.bases
    }

    fn commit_count(&self) -> usize {
        self.commits.len()
    }

    fn row(&self, place: usize) -> PlanRow<'_> {
        let commit = &self.commits[place];
        PlanRow {
            id: commit.id.as_oid(),
            tree: commit.tree.as_oid(),
            parents: &commit.parents,
            generation: commit.generation,
            time: commit.time,
        }
    }

    fn offsets(&self) -> Option<&[u64]> {
        None
    }

    fn filters(&self) -> Option<&PlanFilters> {
        None
    }
}

/// The file of a plan that [`LayerPlan::is_buildable`]. Its chunks are `OIDF`, `OIDL`, `CDAT`, then
/// `EDGE` if some commit has more than two parents, then `BASE` if there is a base. Each begins
/// where the one before ends, the first directly after the table. The second field of a commit with
/// more than two parents is 0x80000000 plus the index of its first extra word. Its extra words are
/// its parents from the second on, the last with the top bit set. The extra words of one commit
/// follow those of the one before. The trailer is the digest of all bytes before it.
/// (gitformat-commit-graph, "HEADER" to "TRAILER".)
///
/// # Errors
///
/// `AllocError` where an allocation failed.
pub fn build(alloc: Global, plan: &LayerPlan) -> Result<Vec<u8>, AllocError>
    requires { IsPlan (file_plan plan.now) }
    ensures layout { IfOk result (λ bytes. bytes.items ≡ planned_file (file_plan plan.now)) }
    ensures layer { IfOk result (λ bytes. (path : List ℕ)
        → IsFileOf (file_plan plan.now) bytes.items path) }
{
    build_view(alloc, plan)
}
