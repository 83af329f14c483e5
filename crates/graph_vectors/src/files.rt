//! Files of plans, where no more is wanted than a file. The functions have no contract, so a test's
//! proof does not carry that of [`build`].

use crate::plan::{LayerPlan, build};
use crate::rows::{Row, plan_of_rows};
use gix_hash_core::ObjectId;
use std::alloc::Global;

/// The file of a plan, or `None` where no file can hold it, or an allocation failed.
pub fn file_of_plan(alloc: Global, plan: &LayerPlan) -> Option<Vec<u8>> {
    if plan.is_buildable() {
        build(alloc, plan).ok()
    } else {
        None
    }
}

/// The SHA-1 file of these commits on these bases, as [`plan_of_rows`] plans it, or `None` as
/// [`file_of_plan`] answers it.
pub fn file_of_rows(alloc: Global, bases: &[ObjectId], rows: &[Row<'_>]) -> Option<Vec<u8>> {
    file_of_plan(alloc, &plan_of_rows(alloc, bases, rows).ok()?)
}
