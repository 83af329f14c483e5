//! What C holds: an open graph, a flag, and bytes that a call has made; how a graph is opened, read
//! and checked; and the numbers by which the library tells causes. `building/proving.py` makes a
//! static library of the functions `cg_*` here and in the crates above.
//!
//! C holds an opened graph as a value of an address and a flag, which `cg_open` makes and
//! `cg_close` frees. No call has a `requires`: what is wrong is answered with a code.
#![tactic(auto)]

mod at_path;
pub mod check;
mod check_within;
pub mod codes;
mod dates;
mod flag;
mod flag_handle;
mod flags;
mod handle;
mod kept;
mod kept_handle;
mod known;
mod layer;
mod open;
mod open_chain;
mod opened;
pub mod paths;
pub mod read;
mod resting;

pub use check::{CgCount, CgVerdict, cg_verify};
pub use check_within::cg_check_within;
pub use flag_handle::{CgFlag, CgFlagAddress, CgFlagOwned, CgFlagOwner};
pub use flags::{CgLimit, cg_flag_free, cg_flag_new, cg_flag_raise};
pub use handle::{CgAddress, CgGraph, CgOwned, CgOwner};
pub use kept::Kept;
pub use kept_handle::{CgBytes, CgBytesAddress, CgBytesOwned, CgBytesOwner};
pub use known::CgKnown;
pub use open::{CgError, CgFile, cg_check, cg_close, cg_open, cg_open_checked, cg_open_lent};
pub use open_chain::cg_open_chain;
pub use opened::Opened;
pub use paths::{CgPathError, cg_open_known};
pub use read::{
    CgCommit, cg_commit_at, cg_generation_at, cg_id_at, cg_id_len, cg_lookup, cg_num_commits,
    cg_tree_at,
};
