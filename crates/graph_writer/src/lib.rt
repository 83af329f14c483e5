//! What a new layer of a commit-graph is to say, from the commits that it is to have: alone, or on
//! top of a graph.
#![tactic(auto)]

mod below;
mod check;
mod commit;
mod filters;
mod guide;
mod handed;
mod ids;
mod law;
mod levels_below;
mod new_layer;
mod new_plan;
mod numbers;
mod order;
mod plan;
mod resolve;
mod view;
mod write;

pub use commit::{NewCommit, WriteError};
pub use filters::NewFilters;
pub use law::{a_layer_has_one_file, a_layer_has_one_plan, the_order_of_commits_does_not_matter};
pub use new_layer::NewLayer;
pub use view::CommitView;
pub use write::{write_layer, write_layer_of, write_layer_with_filters};
