//! Parsing commits.

ghost use Rattle.std.specs.Prelude.{◌≡◌, ℕ, List, MatchResult, MatchOption};
ghost use Rattle.commit_objects.specs.CommitContents.{Said, Says};
ghost use Rattle.commit_objects.specs.Lines.{AreLinesAndRest};
ghost use Rattle.commit_objects.specs.Time as spec;

use crate::hex_id::HexId;
use crate::line::split_id_line;
use crate::parents::Parents;
use crate::time;
use gix_hash_core::{Kind, ObjectId};
use std::marker::Model;
use thiserror::Error;

/// Why bytes are not the contents of a commit: they do not begin with the line of a tree, a line
/// that begins with `parent ` is not that of a parent, or nothing follows these lines.
#[derive(Clone, Copy, Debug, PartialEq, Eq, Error)]
#[error("Unreadable")]
pub struct Unreadable;

/// What the bytes of a commit say, borrowed from them: a contract sees the ids of its root tree and
/// of its parents, and the rest, in which its time stands.
#[derive(Drop)]
pub struct CommitObject<'a> {
    tree: HexId<'a>,
    parents: Parents<'a>,
    rest: &'a [u8],
}

impl<'a> Model for CommitObject<'a> {
    ghost use Rattle.commit_objects.specs.CommitContents.{Said};

    ghost Value = { Said };

    ghost view = { λ c. record { tree = c.tree; parents = c.parents; rest = c.rest.now } };
}

impl<'a> CommitObject<'a> {
    /// Reads the contents of a commit object whose ids are of this kind. `Unreadable` comes where
    /// they say nothing.
    pub fn parse(kind: Kind, contents: &'a [u8]) -> Result<CommitObject<'a>, Unreadable>
        ensures { MatchResult result (Says kind contents.now)
            (λ _. (said : Said) → ¬ Says kind contents.now said) }
    {
        let Some(tree) = split_id_line(kind, b"tree ", contents) else {
            return Err(Unreadable);
        };
        let Some(rest) = after_parents(kind, tree.next) else {
            return Err(Unreadable);
        };
        let lines = &tree.next[..tree.next.len() - rest.len()];
        Ok(CommitObject {
            tree: tree.id,
            parents: Parents::of_lines(kind, lines),
            rest,
        })
    }

    /// The id of the root tree.
    pub fn tree(&self) -> ObjectId
        ensures { result ≡ self.now.tree }
    {
        self.tree.decode()
    }

    /// The ids of the parents, in order.
    pub fn parents(&self) -> Parents<'a>
        ensures { result ≡ self.now.parents }
    {
        self.parents.again()
    }

    /// The committer's time, in seconds since 1970-01-01 00:00:00 UTC, as Git from 2.41 on reads
    /// it. It is 0 where Git finds none.
    pub fn newer_time(&self) -> u64
        ensures { result ≡ spec.newer_time self.now.rest }
    {
        time::newer_time(self.rest)
    }

    /// The committer's time, in seconds since 1970-01-01 00:00:00 UTC, as Git up to 2.40 reads it.
    /// It is 0 where Git finds none.
    pub fn older_time(&self) -> u64
        ensures { result ≡ spec.older_time self.now.rest }
    {
        time::older_time(self.rest)
    }
}

/// What follows the lines of parents, of which there may be none, or `None` where one is broken or
/// nothing follows them.
fn after_parents(kind: Kind, lines: &[u8]) -> Option<&[u8]>
    ensures { MatchOption result
        ((ids : List (List ℕ)) (rest : List ℕ) → ¬ AreLinesAndRest kind lines.now ids rest)
        (λ rest. (ids : List (List ℕ)) × AreLinesAndRest kind lines.now ids rest.now) }
{
    let mut rest = lines;
    while rest.starts_with(b"parent ") {
        let Some(line) = split_id_line(kind, b"parent ", rest) else {
            return None;
        };
        rest = line.next;
    }
    if rest.is_empty() {
        return None;
    }
    Some(rest)
}
