//! What is known of the ways to the commits of a graph from a commit and some others.

ghost use Rattle.std.specs.Prelude.{◌≡◌, ◌↔◌, ◌+◌, ◌<◌, ◌≤◌, ◌^◌, ℕ, cond, length, slice_set};
ghost use Rattle.std.specs.Prelude.{IfOk, IsTrue, OnOk};
ghost use Rattle.graph_bases.specs.Paint.{first_leads, others_lead, is_stale, is_ahead};
ghost use Rattle.graph_bases.specs.Paint.{is_behind, is_base, covers, joined, passed};
ghost use Rattle.graph_bases.specs.Paint.{is_fresh, bare, coat_at, AreIdle, IsCounted};
ghost use Rattle.graph_bases.specs.declared.paint.Paint.TheVariants.{Bare};

use crate::sheet::{CoatTable, Sheet};
use crate::trails::Trails;
use graph_format::Position;
use std::alloc::{AllocError, Global};

/// What is known of the ways to a commit from a commit and some others.
#[derive(Clone, Copy)]
pub enum Paint {
    /// Nothing.
    Bare,
    /// The first leads to it.
    First,
    /// Some of the others leads to it.
    Others,
    /// The first and some of the others lead to it.
    Both,
    /// These lead to a commit of which it is a proper ancestor.
    Stale,
}

impl Paint {
    fn first_leads(self) -> bool
        ensures { result ≡ first_leads self }
    {
        matches!(self, Paint::First | Paint::Both | Paint::Stale)
    }

    fn others_lead(self) -> bool
        ensures { result ≡ others_lead self }
    {
        matches!(self, Paint::Others | Paint::Both | Paint::Stale)
    }

    fn is_stale(self) -> bool
        ensures { result ≡ is_stale self }
    {
        matches!(self, Paint::Stale)
    }

    /// Whether nothing is known.
    pub(crate) fn is_bare(self) -> bool
        ensures { IsTrue result ↔ self ≡ Bare }
    {
        matches!(self, Paint::Bare)
    }

    /// Whether it is ahead, as far as is known.
    fn is_ahead(self) -> bool
        ensures { result ≡ is_ahead self }
    {
        matches!(self, Paint::First)
    }

    /// Whether it is behind, as far as is known.
    fn is_behind(self) -> bool
        ensures { result ≡ is_behind self }
    {
        matches!(self, Paint::Others)
    }

    /// Whether it is a merge base, as far as is known.
    pub(crate) fn is_base(self) -> bool
        ensures { result ≡ is_base self }
    {
        matches!(self, Paint::Both)
    }

    /// Whether this says all that the other says.
    pub(crate) fn covers(self, other: Paint) -> bool
        ensures { result ≡ covers self other }
    {
        match other {
            Paint::Bare => true,
            Paint::First => self.first_leads(),
            Paint::Others => self.others_lead(),
            Paint::Both => self.first_leads() && self.others_lead(),
            Paint::Stale => self.is_stale(),
        }
    }

    /// What the two say together.
    pub(crate) fn join(self, other: Paint) -> Paint
        ensures { result ≡ joined self other }
    {
        if self.covers(other) {
            self
        } else if other.covers(self) {
            other
        } else {
            Paint::Both
        }
    }

    /// What a commit says of its parents.
    pub(crate) fn passed(self) -> Paint
        ensures { result ≡ passed self }
    {
        if self.first_leads() && self.others_lead() {
            Paint::Stale
        } else {
            self
        }
    }
}

/// The paint of a commit.
#[derive(Clone, Copy)]
pub struct Coat {
    /// The paint.
    pub paint: Paint,
    /// Whether the commit is in the queue, since its parents have not heard of that paint.
    pub queued: bool,
}

/// The coat of a commit of which nothing is known.
pub(crate) const BARE: Coat = Coat {
    paint: Paint::Bare,
    queued: false,
};

impl Coat {
    /// Whether the commit is in the queue, and a base may lie there or below it.
    fn is_fresh(self) -> bool
        ensures { result ≡ is_fresh self }
    {
        self.queued && !self.paint.is_stale()
    }
}

/// The coats of all commits of a graph.
#[derive(Drop)]
pub(crate) struct Coats<T: CoatTable> {
    all: Sheet<T>,
    /// With which paint words of the extra edge lists were passed. All that is named from a word on
    /// to the last parent has heard of its paint, so no word is passed twice with the same.
    pub(crate) trails: Trails,
    /// How many of them are fresh.
    pub(crate) fresh: u32,
    /// How many commits are ahead, as far as is known.
    pub(crate) ahead: u32,
    /// How many are behind.
    pub(crate) behind: u32,
}

impl<T: CoatTable> Coats<T> {
    /// Those of so many commits, of which nothing is known.
    pub(crate) fn new(alloc: Global, commits: u32) -> Result<Coats<T>, AllocError>
        ensures { IfOk result (AreIdle commits) }
    {
        let all = Sheet::new(alloc, commits)?;
        Ok(Coats {
            all,
            trails: Trails::new(alloc),
            fresh: 0,
            ahead: 0,
            behind: 0,
        })
    }

    /// How many there are.
    pub(crate) fn len(&self) -> usize
        ensures { result ≡ length self.now.all }
    {
        self.all.len()
    }

    /// The coat of a commit.
    pub(crate) fn at(&self, commit: Position) -> Coat
        requires { commit.0 < length self.now.all }
        ensures { result ≡ coat_at self.now.all commit.0 }
    {
        self.all.at(commit.0)
    }

    /// Changes the coat of a commit, which was this old one.
    pub(crate) fn set(&mut self, commit: Position, old: Coat, coat: Coat) -> Result<(), AllocError>
        requires counted { IsCounted self.old }
        requires within { commit.0 < length self.old.all }
        requires old { old ≡ coat_at self.old.all commit.0 }
        requires few { length self.old.all < 2 ^ 32 }
        ensures coats { OnOk result (self.new.all ≡ slice_set self.old.all commit.0 coat) }
        ensures trails { self.new.trails ≡ self.old.trails }
        ensures counted { OnOk result (IsCounted self.new) }
    {
        self.fresh = recounted(self.fresh, old.is_fresh(), coat.is_fresh());
        self.ahead = recounted(self.ahead, old.paint.is_ahead(), coat.paint.is_ahead());
        self.behind = recounted(self.behind, old.paint.is_behind(), coat.paint.is_behind());
        self.all.set(commit.0, coat)
    }

    /// The same coats, all of them bare again, with right counts. Words are bare again.
    pub(crate) fn into_idle(self) -> Coats<T>
        ensures { AreIdle (length self.all) result }
    {
        let Coats {
            mut all,
            mut trails,
            ..
        } = self;
        all.clear();
        trails.clear();
        Coats {
            all,
            trails,
            fresh: 0,
            ahead: 0,
            behind: 0,
        }
    }
}

/// A count, after one of those that may be counted has changed.
fn recounted(count: u32, was: bool, is: bool) -> u32
    requires was { cond was 1 0 ≤ count }
    requires few { count + cond is 1 0 < 2 ^ 32 + cond was 1 0 }
    ensures { result + cond was 1 0 ≡ count + cond is 1 0 }
{
    match (was, is) {
        (true, false) => count - 1,
        (false, true) => count + 1,
        _ => count,
    }
}
