//! The paths that are changed from one tree to another, one after another.

ghost use Rattle.std.specs.Prelude.{◌≡◌, ℕ, List, [], IfOk, IfErr, Option, Some, option_map};
ghost use Rattle.gix_hash_core.specs.Oid.{oid_bytes};
ghost use Rattle.tree_changes.specs.Stands.{World};
ghost use Rattle.tree_changes.specs.Reads.{IsStopped};
ghost use Rattle.tree_changes.specs.InTurn.{HasTold, GoesOn, last_told};

use crate::changes::{Limits, Refusal};
use crate::source::TreeSource;
use crate::walk::Walk;
use gix_hash_core::oid;
use std::alloc::Global;

/// The paths that are changed from one tree to another, one after another, in the order of their
/// bytes. Of the trees, those that lead to the last path are held, and no others.
#[derive(Drop)]
pub struct ChangesInTurn {
    /// `None` where both trees have one id.
    pub(crate) walk: Option<Walk>,
}

impl ChangesInTurn {
    /// The paths that are changed from one tree to another, which are named by their ids, as in
    /// [`changed_paths`](crate::changed_paths). None was told yet. However many paths there are,
    /// they are no reason to refuse: `limits.paths` does not count.
    ///
    /// # Errors
    ///
    /// `TooMuch`, or `Source`, where one of both trees cannot be read; `OutOfMemory`.
    pub fn new<S: TreeSource>(
        alloc: Global,
        source: &mut S,
        old: Option<oid<'_>>,
        new: oid<'_>,
        limits: Limits,
    ) -> Result<ChangesInTurn, Refusal<S::Error>>
        ensures kind { S.kind_is source.new ≡ S.kind_is source.old }
        ensures kept { (world : World) → S.says source.new world → S.says source.old world }
        ensures none { IfOk result (λ changes. HasTold (S.kind_is source.new) (S.says source.new)
            (option_map oid_bytes old.entry) (Some (oid_bytes new.entry)) limits.names limits.trees
            [] changes) }
        ensures refused { IfErr result (λ refusal. (world : World) → S.says source.new world
            → IsStopped (S.has_refused source.new) limits.names limits.trees world
            (option_map oid_bytes old.entry) (Some (oid_bytes new.entry)) refusal) }
    {
        match Walk::begin(alloc, source, old, new, limits) {
            Ok(walk) => Ok(ChangesInTurn { walk }),
            Err(refusal) => Err(refusal),
        }
    }

    /// The path that was told last. There are no bytes where none was.
    pub fn path(&self) -> &[u8]
        ensures { result.now ≡ last_told self.now }
    {
        match &self.walk {
            Some(walk) => walk.path(),
            None => &[],
        }
    }

    /// Goes on to the next path that is changed. Answers `false` where there is none.
    ///
    /// # Errors
    ///
    /// The first that comes on the way there: `TooDeep` and `TooMuch` by the limits, which hold for
    /// the whole way, and `Source` with the error of the first tree that the source refuses.
    /// `OutOfMemory` may come in their place. After an error, no more is said of the paths.
    pub fn next<S: TreeSource>(
        &mut self,
        alloc: Global,
        source: &mut S,
    ) -> Result<bool, Refusal<S::Error>>
        ensures kind { S.kind_is source.new ≡ S.kind_is source.old }
        ensures kept { (world : World) → S.says source.new world → S.says source.old world }
        ensures next { IfOk result (λ more. (old new : Option (List ℕ)) (names trees : ℕ)
            (texts : List (List ℕ))
            → HasTold (S.kind_is source.old) (S.says source.old) old new names trees texts self.old
            → GoesOn (S.kind_is source.new) (S.says source.new) old new names trees texts more
            self.new) }
        ensures refused { IfErr result (λ refusal. (old new : Option (List ℕ)) (names trees : ℕ)
            (texts : List (List ℕ))
            → HasTold (S.kind_is source.old) (S.says source.old) old new names trees texts self.old
            → (world : World) → S.says source.new world
            → IsStopped (S.has_refused source.new) names trees world old new refusal) }
    {
        match &mut self.walk {
            Some(walk) => walk.next(alloc, source),
            None => Ok(false),
        }
    }
}
