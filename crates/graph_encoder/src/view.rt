//! Plans of files, wherever what they list stands.

ghost use Rattle.std.specs.Prelude.{◌≡◌, ◌<◌, Option, length, option_map};
ghost use Rattle.graph_encoder.specs.DateOffsets.{offsets_of};
ghost use Rattle.graph_encoder.specs.Rows.{IsRowAt};
ghost use Rattle.graph_encoder.specs.declared.plan.FilePlan.{FilePlan};

use crate::filters::PlanFilters;
use crate::row::PlanRow;
use gix_hash_core::{Kind, ObjectId};

/// What a file is to hold, wherever it stands: a plan can be read off, and nothing has to be copied
/// for it.
pub trait PlanView {
    ghost as_plan: { Self → FilePlan };

    /// The kind of all ids.
    fn kind(&self) -> Kind
        ensures { result ≡ (as_plan self.now).kind };

    /// The checksums of the files below, the lowest first.
    fn bases(&self) -> &[ObjectId]
        ensures { result.now ≡ (as_plan self.now).bases.items };

    /// How many commits there are.
    fn commit_count(&self) -> usize
        ensures { result ≡ length (as_plan self.now).commits.items };

    /// The commit at a place, in the order of the file.
    fn row(&self, place: usize) -> PlanRow<'_>
        requires { place < length (as_plan self.now).commits.items }
        ensures { IsRowAt (as_plan self.now) place result };

    /// For each commit how many seconds its corrected date is past its time, if there are dates.
    fn offsets(&self) -> Option<&[u64]>
        ensures { option_map (λ offsets. offsets.now) result ≡ offsets_of (as_plan self.now) };

    /// The changed-path filters of the commits, if there are any.
    fn filters(&self) -> Option<&PlanFilters>
        ensures { option_map (λ filters. filters.now) result ≡ (as_plan self.now).filters };
}
