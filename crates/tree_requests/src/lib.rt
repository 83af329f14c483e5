//! Trees that are asked for by their ids, as a walk needs them, and read from the entries that
//! answer, as `git cat-file --batch` writes them.
//!
//! A tree that is given for an id has that id. Trees that will be needed can be asked for ahead,
//! and trees that were read are kept, up to 64 MiB of them.
#![tactic(auto)]

mod asker;
mod error;
mod exchange;
mod source;
mod store;

pub use error::TreeRequestError;
pub use exchange::Exchange;
pub use object_requests::{RequestError, Requests};
pub use source::TreeRequests;
pub use tree_objects::TreeError;
