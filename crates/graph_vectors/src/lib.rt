//! Builds files in Git's commit-graph format from plans, for tests.
//!
//! A [`LayerPlan`] lists what a file is to hold, and [`build`] makes the file: a layer whose
//! decoded values are the plan's. A plan may break the rules of a graph, so that tests can have
//! damaged graphs: [`plan_of_rows`] plans small histories, row by row, and the module [`changed`]
//! writes over their files. [`reseal`] makes the checksum of changed bytes right again.
//! [`file_of_parts`] makes files that no plan does, and [`refused`] lists some that opening
//! refuses. [`Source`] and [`Sink`] fail where they are told.
#![tactic(auto)]

pub mod changed;
mod files;
mod plan;
mod raw;
pub mod refused;
mod rows;
mod streams;
mod trailer;

pub use files::{file_of_plan, file_of_rows};
pub use graph_encoder::PlanCommit;
pub use plan::{LayerPlan, build};
pub use raw::{END, Entry, file_of_parts, file_of_zeros, words};
pub use rows::{DIAMOND, OCTOPUS, Row, TEN, plan_of_rows, planned_commit};
pub use streams::{Sink, Source};
pub use trailer::reseal;
