//! Limits of searches and of checks, and flags that stop them.

ghost use Rattle.std.specs.Prelude.{◌≡◌, ◌-◌, ◌^◌, ◌<◌, ◌≤◌, false, IsTrue, None};
ghost use Rattle.graph_history.specs.Limits.{MayBeStopped, StopsAfter, bound_of};

use std::alloc::AllocError;
use std::sync::atomic::{AtomicBool, Ordering};

/// A flag by which one thread stops what another one does. It is never lowered.
#[derive(Drop)]
pub struct Flag {
    raised: AtomicBool,
}

impl Flag {
    /// A flag that is not raised.
    pub fn new() -> Flag {
        Flag {
            raised: AtomicBool::new(false),
        }
    }

    /// Raises the flag: what looks at it stops.
    pub fn raise(&self) {
        self.raised.store(true, Ordering::SeqCst);
    }

    /// Whether it was raised.
    pub fn is_raised(&self) -> bool {
        self.raised.load(Ordering::SeqCst)
    }
}

/// When a search or a check stops before its end.
#[derive(Clone, Copy)]
pub struct Limit<'f> {
    /// How many commits it may visit.
    pub visits: u64,
    /// A flag that stops it once it is raised. It is looked at before each commit is visited.
    pub flag: Option<&'f Flag>,
}

impl<'f> Limit<'f> {
    /// Whether what visits at most so many commits is never stopped.
    pub(crate) fn allows(self, most: u64) -> bool
        ensures most { IsTrue result → most ≤ self.entry.visits }
        ensures flag { IsTrue result → self.entry.flag ≡ None }
        ensures stops { result ≡ false → MayBeStopped (bound_of self.entry) most }
    {
        self.visits >= most && self.flag.is_none()
    }

    /// Whether what has visited so many commits is stopped.
    pub(crate) fn stops_after(self, visits: u64) -> bool
        ensures stops { IsTrue result → StopsAfter (bound_of self.entry) visits }
        ensures on { result ≡ false → visits < self.entry.visits }
    {
        if visits >= self.visits {
            return true;
        }
        match self.flag {
            Some(flag) => flag.is_raised(),
            None => false,
        }
    }

    /// The same flag alone, with which any number of commits may be visited.
    pub(crate) fn flag_alone(self) -> Limit<'f>
        ensures flag { result.flag ≡ self.entry.flag }
        ensures visits { result.visits ≡ 2 ^ 64 - 1 }
    {
        Limit {
            visits: u64::MAX,
            ..self
        }
    }
}

/// A limit stopped a check.
#[derive(Clone, Copy, Debug, PartialEq, Eq)]
pub struct Stopped;

/// Why a search within a limit has no answer.
#[derive(Debug, Drop, PartialEq, Eq)]
pub enum LimitError<E> {
    /// The limit stopped it.
    Stopped,
    /// The error of the source of its commits.
    Source(E),
}

impl<E: From<AllocError>> From<AllocError> for LimitError<E> {
    ghost use Rattle.graph_history.specs.Limits.{IsSource};

    ghost from_gives = { λ given error. IsSource (E.from_gives given) error };

    fn from(error: AllocError) -> LimitError<E> {
        LimitError::Source(E::from(error))
    }
}
