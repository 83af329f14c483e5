//! The paths that change from one tree to another.

ghost use Rattle.std.specs.Prelude.{◌≡◌, ◌≤◌, ℕ, List, length, IfOk, IfErr, Some, map, option_map};
ghost use Rattle.gix_hash_core.specs.Oid.{oid_bytes};
ghost use Rattle.tree_changes.specs.Stands.{World};
ghost use Rattle.tree_changes.specs.Changes.{AreChanged, IsChangeRefusal};

use crate::source::TreeSource;
use crate::walk::Walk;
use gix_hash_core::oid;
use std::alloc::{AllocError, Global};

/// How far two trees are gone through.
#[derive(Clone, Copy, Debug)]
pub struct Limits {
    /// The most paths that may be changed.
    pub paths: usize,
    /// The most names that a path may have.
    pub names: usize,
    /// The most trees that may be read.
    pub trees: usize,
}

/// Why the paths that are changed are not told.
#[derive(Debug, Drop)]
pub enum Refusal<E> {
    /// More paths are changed than may be.
    TooMany,
    /// A path has more names than it may have: other directories stand at one that has as many.
    TooDeep,
    /// More trees have to be read than may be.
    TooMuch,
    /// The source has no tree that has to be read.
    Source(E),
    /// Memory ran out.
    OutOfMemory,
}

impl<E> From<AllocError> for Refusal<E> {
    ghost use Rattle.tree_changes.specs.declared.changes.Refusal.TheVariants.{OutOfMemory};

    ghost from_gives = { λ _ refusal. refusal ≡ OutOfMemory };

    fn from(_: AllocError) -> Refusal<E> {
        Refusal::OutOfMemory
    }
}

/// The paths that are changed from one tree to another, which are named by their ids: each once, in
/// the order of their bytes, names joined by `/`. Where there is no old tree, all paths of the new
/// one are changed.
///
/// Trees are read from the top down, the old one of a pair before the new one, and none where both
/// have one id.
///
/// # Errors
///
/// The first that comes on the way, path by path: `TooMany`, `TooDeep` and `TooMuch` by the
/// limits, and `Source` with the error of the first tree that the source refuses. `OutOfMemory`
/// may come in their place.
pub fn changed_paths<S: TreeSource>(
    alloc: Global,
    source: &mut S,
    old: Option<oid<'_>>,
    new: oid<'_>,
    limits: Limits,
) -> Result<Vec<Vec<u8>>, Refusal<S::Error>>
    ensures kind { S.kind_is source.new ≡ S.kind_is source.old }
    ensures kept { (world : World) → S.says source.new world → S.says source.old world }
    ensures changed { IfOk result (λ paths. (world : World) → S.says source.new world
        → AreChanged world (option_map oid_bytes old.entry) (Some (oid_bytes new.entry))
        (map (λ path. path.items) paths.items)) }
    ensures few { IfOk result (λ paths. length paths.items ≤ limits.paths) }
    ensures refused { IfErr result (λ refusal. (world : World) → S.says source.new world
        → IsChangeRefusal (S.has_refused source.new) limits.paths limits.names limits.trees world
        (option_map oid_bytes old.entry) (Some (oid_bytes new.entry)) refusal) }
{
    let mut found = Vec::new(alloc);
    let Some(mut walk) = Walk::begin(alloc, source, old, new, limits)? else {
        return Ok(found);
    };
    loop {
        match walk.next(alloc, source) {
            Ok(true) => {}
            Ok(false) => return Ok(found),
            Err(refusal) => return Err(refusal),
        }
        if found.len() >= limits.paths {
            return Err(Refusal::TooMany);
        }
        let mut path = Vec::new(alloc);
        path.extend_from_slice(walk.path())?;
        found.push(path).map_err(AllocError::from)?;
    }
}
