//! The questions that C asks of an open graph: by the reader of `gix_commitgraph`, the queries of
//! `graph_history`, the filters of `graph_chunks`, and the comparison of `graph_objects`.
//!
//! `building/proving.py` makes a static library of these functions and of those in `c_opening` and
//! `c_writing`, which exports each with its contract. Its header is `bindings/c/commitgraph.h`.
#![tactic(auto)]

mod bases;
mod blocks;
mod chain;
mod commit_at;
mod compare;
mod first_parent;
mod first_parents;
mod layer_check;
mod layers;
mod lent;
mod lookups;
mod matched;
mod pairs;
mod parents;
mod positions;
mod probes;
mod query;
mod version;
mod within;

pub use bases::{CgBases, cg_merge_bases};
pub use blocks::{CgBlock, cg_commits, cg_parents_from};
pub use chain::{CgLine, cg_chain_line};
pub use compare::{CgCompared, CgTwo, cg_merge_bases_of};
pub use first_parent::{CgParent, cg_first_parent};
pub use first_parents::cg_first_parents;
pub use layer_check::{CgLayerVerdict, cg_verify_layer};
pub use layers::{CgLayer, cg_base_id_at, cg_layer, cg_layer_checksum, cg_num_layers};
pub use lent::{CgLent, cg_lend_bytes, cg_lend_id, cg_lend_tree};
pub use lookups::{cg_ids_at, cg_lookup_all};
pub use matched::{CgMatched, cg_matches};
pub use pairs::{CgAnswered, CgPair, cg_are_ancestors};
pub use parents::{CgParents, cg_parents};
pub use probes::{CgProbed, cg_probe_path};
pub use query::{CgLeads, CgReached, cg_ancestor_walk, cg_is_ancestor};
pub use version::cg_version;
pub use within::{cg_ancestor_walk_within, cg_is_ancestor_within, cg_merge_bases_within};
