//! Writes a layer of a graph in Git's commit-graph format.
//!
//! A [`FilePlan`] lists what a file is to hold, and [`build`] makes the file: a layer whose
//! decoded values are the plan's. Its corrected dates are the times and offsets of the plan, and
//! its changed-path filters those of the plan.
#![tactic(auto)]

mod builder;
mod edges;
mod fan;
mod filters;
mod law;
mod offsets;
mod plan;
mod push;
mod records;
mod row;
mod sizes;
mod table;
mod view;

pub use builder::{build, build_view};
pub use edges::has_few_extra_words;
pub use filters::{FilterNumbers, PlanFilters};
pub use law::{
    a_file_in_git_layout_encodes_again, a_planned_file_encodes_again,
    planned_files_are_in_git_layout, planned_files_say_their_plans,
    plans_that_say_the_same_have_one_file,
};
pub use plan::{FilePlan, PlanCommit, is_buildable};
pub use row::PlanRow;
pub use view::PlanView;
