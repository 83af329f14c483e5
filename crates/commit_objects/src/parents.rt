//! The parents of a commit, one after another.

ghost use Rattle.std.specs.Prelude.{◌≡◌};
ghost use Rattle.commit_objects.specs.Lines.{AreParentLines};
ghost use Rattle.std.specs.Prelude.{ℕ, List};

use crate::line::first_parent;
use gix_hash_core::{Kind, ObjectId};
use std::marker::Model;

/// An iterator over the ids of a commit's parents, first parent first, read from its bytes. It
/// gives each once, and then `None` for good. A contract sees it as the list of those to come.
#[derive(Drop)]
pub struct Parents<'a> {
    kind: Kind,
    lines: &'a [u8],
}

impl<'a> Model for Parents<'a> {
    ghost use Rattle.std.specs.Prelude.{ℕ, List};
    ghost use Rattle.commit_objects.specs.Lines.{AreParentLines, ids_of_lines};

    ghost Value = { List (List ℕ) };

    ghost view = { λ p. ids_of_lines p.kind p.lines.now };

    ghost invariant = { λ p. (ids : List (List ℕ)) × AreParentLines p.kind ids p.lines.now };
}

impl<'a> Parents<'a> {
    /// The parents whose lines these are.
    pub(crate) fn of_lines(kind: Kind, lines: &'a [u8]) -> Parents<'a>
        requires { (ids : List (List ℕ)) × AreParentLines kind ids lines.now }
        ensures { (ids : List (List ℕ)) → AreParentLines kind ids lines.now → result ≡ ids }
    {
        Parents { kind, lines }
    }

    /// The same parents once more.
    pub(crate) fn again(&self) -> Parents<'a>
        ensures { result ≡ self.now }
    {
        Parents {
            kind: self.kind,
            lines: self.lines,
        }
    }
}

impl<'a> Iterator for Parents<'a> {
    ghost use Rattle.std.specs.Iterator.{YieldsFirst, item_count};
    ghost use Rattle.std.specs.Prelude.{ℕ, List};

    type Item = ObjectId;

    ghost next_gives = { YieldsFirst {S = List (List ℕ)} (λ left. left) };

    ghost remaining = { item_count {S = List (List ℕ)} (λ left. left) };

    fn next(&mut self) -> Option<ObjectId> {
        let Some(line) = first_parent(self.kind, self.lines) else {
            return None;
        };
        self.lines = line.next;
        Some(line.id.decode())
    }
}
