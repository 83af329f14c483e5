//! What is told of a filter that is refused.

ghost use Rattle.path_checks.specs.ToldFault.{IsErrorOf};

use crate::error::{PathsError, PathsFault};
use filter_checks::FilterRefusal;
use gix_commitgraph::Position;
use gix_hash_core::ObjectId;
use tree_changes::Refusal;
use tree_requests::{RequestError, TreeError, TreeRequestError};

/// What is told where the filter of the commit at a position is refused.
pub(crate) fn error_of(pos: Position, why: FilterRefusal<TreeRequestError>) -> PathsError
    ensures { IsErrorOf pos why result }
{
    match why {
        FilterRefusal::Lacks(path) => PathsError::Filter(pos, PathsFault::Lacks(path)),
        FilterRefusal::Trees(refusal) => error_of_trees(pos, refusal),
        FilterRefusal::Differs => PathsError::Filter(pos, PathsFault::Differs),
    }
}

/// The same where the trees do not tell what the commit changes.
fn error_of_trees(pos: Position, refusal: Refusal<TreeRequestError>) -> PathsError
    ensures { IsErrorOf pos (FilterRefusal.Trees refusal) result }
{
    match refusal {
        Refusal::TooMany => PathsError::Filter(pos, PathsFault::Other),
        Refusal::TooDeep => PathsError::Filter(pos, PathsFault::TooDeep),
        Refusal::TooMuch => PathsError::Filter(pos, PathsFault::TooMuch),
        Refusal::Source(error) => error_of_source(pos, error),
        Refusal::OutOfMemory => PathsError::OutOfMemory,
    }
}

/// The same where a tree that it needs is not given.
fn error_of_source(pos: Position, error: TreeRequestError) -> PathsError
    ensures { IsErrorOf pos (FilterRefusal.Trees (Refusal.Source error)) result }
{
    match error {
        TreeRequestError::Request(error) => error_of_request(pos, error),
        TreeRequestError::NoTree(id, error) => error_of_tree(pos, id, error),
        TreeRequestError::NoId => PathsError::Filter(pos, PathsFault::Other),
    }
}

/// The same where its entry is not what answers, or cannot be read.
fn error_of_request(pos: Position, error: RequestError) -> PathsError
    ensures { IsErrorOf pos
        (FilterRefusal.Trees (Refusal.Source (TreeRequestError.Request error))) result }
{
    match error {
        RequestError::Entry(id, error) => PathsError::Filter(pos, PathsFault::Entry(id, error)),
        RequestError::Device => PathsError::Device,
        RequestError::OutOfMemory => PathsError::OutOfMemory,
        RequestError::WriteFailed => PathsError::WriteFailed,
    }
}

/// The same where its contents are no tree.
fn error_of_tree(pos: Position, id: ObjectId, error: TreeError) -> PathsError
    ensures { IsErrorOf pos
        (FilterRefusal.Trees (Refusal.Source (TreeRequestError.NoTree id error))) result }
{
    match error {
        TreeError::Unreadable(entry) => PathsError::Filter(pos, PathsFault::Unreadable(id, entry)),
        TreeError::Order(entry) => PathsError::Filter(pos, PathsFault::Order(id, entry)),
    }
}
