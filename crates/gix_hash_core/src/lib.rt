//! Object ids, the kinds of hash that name objects, and digests.
//!
//! An id is its list of bytes: 20 of SHA-1 or 32 of SHA-256. Equality, order and hash are those of
//! the lists, so ids of different kinds are never equal. Nothing here allocates.
#![tactic(auto)]

mod borrowed;
mod digests;
mod kind;
pub mod law;
mod object_id;

pub use borrowed::oid;
pub use digests::digest;
pub use kind::Kind;
pub use object_id::{IdError, ObjectId};
