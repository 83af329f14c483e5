//! Why no tree is given for an id.

use gix_hash_core::ObjectId;
use object_requests::RequestError;
use std::alloc::AllocError;
use thiserror::Error;
use tree_objects::TreeError;

/// Why no tree is given for an id.
#[derive(Clone, Copy, Debug, PartialEq, Eq, Error)]
pub enum TreeRequestError {
    /// What answers is not the entry that comes next: that of this tree, or of one that was asked
    /// for before it. Or a read or a write failed, or memory ran out.
    #[error("{0}")]
    Request(RequestError),
    /// The object has this id, but its contents are no tree.
    #[error("{1}")]
    NoTree(ObjectId, TreeError),
    /// The id has neither 20 bytes nor 32.
    #[error("NoId")]
    NoId,
}

impl From<RequestError> for TreeRequestError {
    ghost use Rattle.std.specs.Prelude.{◌≡◌};
    ghost use Rattle.tree_requests.specs.declared.error.TreeRequestError.TheVariants.{Request};

    ghost from_gives = { λ request error. error ≡ Request request };

    fn from(error: RequestError) -> TreeRequestError {
        TreeRequestError::Request(error)
    }
}

impl From<AllocError> for TreeRequestError {
    ghost use Rattle.std.specs.Prelude.{◌≡◌};
    ghost use Rattle.object_requests.specs.declared.error.RequestError.TheVariants.{OutOfMemory};
    ghost use Rattle.tree_requests.specs.declared.error.TreeRequestError.TheVariants.{Request};

    ghost from_gives = { λ _ error. error ≡ Request OutOfMemory };

    fn from(_: AllocError) -> TreeRequestError {
        TreeRequestError::Request(RequestError::OutOfMemory)
    }
}
