//! Laws: what the definitions that contracts cite say of all bytes, layers and graphs. Each
//! function does nothing, and its contract is the law.

pub mod check;
pub mod distinct;
pub mod graph;
pub mod layer;
pub mod sound;
pub mod stats;
pub mod walk;

pub use graph_format::law::{
    bytes_fall_into_pieces, each_id_has_a_record, each_is_answered, each_is_refused_or_read, edges,
    falling_fans_are_named, files_are_refused_for_their_heads, limits_are_these_numbers, lookup,
    positions_are_ordered_by_their_numbers,
};
