//! Adding a commit on top of a base.

ghost use Rattle.std.specs.Prelude.{◌≡◌, ◌+◌, ◌<◌, ◌≤◌, ◌++◌, ◌∷◌, ◌^◌, [], ℕ, List, IfErr, IfOk};
ghost use Rattle.std.specs.Prelude.{None, OnErr};
ghost use Rattle.std.specs.Prelude.{length};
ghost use Rattle.commit_search.specs.Source.{Told};
ghost use Rattle.newer_commits.specs.Adding.{AddsCommit, IsAddRefusal};
ghost use Rattle.newer_commits.specs.FindingOnTop.{Finds};
ghost use Rattle.newer_commits.specs.FoundParents.{AreFoundParents, IsOneParentRefusal};
ghost use Rattle.newer_commits.specs.FoundParents.{IsParentRefusal, IsPrepared, IsPushRefusal};
ghost use Rattle.newer_commits.specs.FoundParents.{IsPushed};

use crate::base::Base;
use crate::error::AddError;
use crate::found::{FoundParents, Prepared, with_one};
use crate::newer::Newer;
use commit_objects::{CommitObject, Parents, object_id};
use commit_search::CommitSource;
use gix_hash_core::ObjectId;
use graph_format::Position;
use graph_walks::GENERATION_NUMBER_MAX;
use std::alloc::Global;

impl<S: Base> Newer<S> {
    /// Adds the commit with these contents, and answers its position.
    ///
    /// # Errors
    ///
    /// The first variant of [`AddError`] that holds. All is as before then.
    pub fn add(&mut self, alloc: Global, contents: &[u8]) -> Result<Position, AddError<S::Error>>
        ensures known { S.known self.new.base ≡ S.known self.old.base }
        ensures kept { (t : Told) → S.says self.new.base t → S.says self.old.base t }
        ensures kind { self.new.kind ≡ self.old.kind }
        ensures added { IfOk result (λ pos. AddsCommit self.old.kind
            (S.finds (S.facts self.old.base)) self.old.commits self.new.commits
            contents.now pos.0) }
        ensures refused { IfErr result (IsAddRefusal self.old.kind
            (S.finds (S.facts self.old.base)) (S.may_fail (S.known self.old.base))
            self.old.commits contents.now) }
        ensures same { OnErr result (self.new.commits ≡ self.old.commits) }
    {
        match self.prepare(alloc, contents) {
            Ok(prepared) => self.push(prepared.id, prepared.found),
            Err(error) => Err(error),
        }
    }

    /// What is known of the commit with these contents, which is to be added.
    ///
    /// # Errors
    ///
    /// `Unreadable`, `Known`, `Parent` and `Source`, as in [`Newer::add`].
    fn prepare(&mut self, alloc: Global, contents: &[u8]) -> Result<Prepared, AddError<S::Error>>
        ensures known { S.known self.new.base ≡ S.known self.old.base }
        ensures kept { (t : Told) → S.says self.new.base t → S.says self.old.base t }
        ensures kind { self.new.kind ≡ self.old.kind }
        ensures same { self.new.commits ≡ self.old.commits }
        ensures prepared { IfOk result (IsPrepared self.old.kind
            (S.finds (S.facts self.old.base)) (S.says self.new.base) self.old.commits
            contents.now) }
        ensures refused { IfErr result (IsAddRefusal self.old.kind
            (S.finds (S.facts self.old.base)) (S.may_fail (S.known self.old.base))
            self.old.commits contents.now) }
    {
        let Ok(commit) = CommitObject::parse(self.kind, contents) else {
            return Err(AddError::Unreadable);
        };
        let id = object_id(self.kind, contents);
        match self.position_of(id.as_oid()) {
            Ok(None) => {}
            Ok(Some(pos)) => return Err(AddError::Known(pos)),
            Err(error) => return Err(AddError::Source(error)),
        }
        match self.find_parents(alloc, commit.parents(), contents.len()) {
            Ok(found) => Ok(Prepared { id, found }),
            Err(error) => Err(error),
        }
    }

    /// What is found of parents, of which there are no more than this.
    ///
    /// # Errors
    ///
    /// `Parent` with the first that is not there; or `Source` where a read of the base failed.
    fn find_parents(
        &mut self,
        alloc: Global,
        parents: Parents<'_>,
        most: usize,
    ) -> Result<FoundParents, AddError<S::Error>>
        requires { length parents ≤ most }
        ensures known { S.known self.new.base ≡ S.known self.old.base }
        ensures kept { (t : Told) → S.says self.new.base t → S.says self.old.base t }
        ensures kind { self.new.kind ≡ self.old.kind }
        ensures same { self.new.commits ≡ self.old.commits }
        ensures found { IfOk result (AreFoundParents (S.finds (S.facts self.old.base))
            (S.says self.new.base) self.old.commits parents.entry) }
        ensures refused { IfErr result (IsParentRefusal (S.finds (S.facts self.old.base))
            (S.may_fail (S.known self.old.base)) self.old.commits parents.entry) }
    {
        let mut found = FoundParents {
            positions: Some(Vec::new(alloc)),
            count: 0,
            greatest: 0,
        };
        for id in parents {
            match self.with_parent(found, id) {
                Ok(more) => found = more,
                Err(error) => return Err(error),
            }
        }
        Ok(found)
    }

    /// What is found of parents, with one more.
    ///
    /// # Errors
    ///
    /// `Parent` where it is not there, or `Source` where a read of the base failed.
    fn with_parent(
        &mut self,
        found: FoundParents,
        id: ObjectId,
    ) -> Result<FoundParents, AddError<S::Error>>
        requires { found.count + 1 < 2 ^ 64 }
        ensures known { S.known self.new.base ≡ S.known self.old.base }
        ensures kept { (t : Told) → S.says self.new.base t → S.says self.old.base t }
        ensures kind { self.new.kind ≡ self.old.kind }
        ensures same { self.new.commits ≡ self.old.commits }
        ensures found { IfOk result (λ more. (ids : List (List ℕ))
            → AreFoundParents (S.finds (S.facts self.old.base)) (S.says self.new.base)
            self.old.commits ids found
            → AreFoundParents (S.finds (S.facts self.old.base)) (S.says self.new.base)
            self.old.commits (ids ++ id ∷ []) more) }
        ensures count { IfOk result (λ more. more.count ≡ found.count + 1) }
        ensures refused { IfErr result (IsOneParentRefusal (S.finds (S.facts self.old.base))
            (S.may_fail (S.known self.old.base)) self.old.commits found.count id) }
    {
        let pos = match self.position_of(id.as_oid()) {
            Ok(Some(pos)) => pos,
            Ok(None) => {
                return Err(AddError::Parent {
                    index: found.count,
                    id,
                });
            }
            Err(error) => return Err(AddError::Source(error)),
        };
        match self.number_at(pos) {
            Ok(number) => Ok(FoundParents {
                positions: with_one(found.positions, pos.0),
                count: found.count + 1,
                greatest: found.greatest.max(number),
            }),
            Err(error) => Err(AddError::Source(error)),
        }
    }

    /// Adds a commit that is not there, after its parents, and answers its position.
    ///
    /// # Errors
    ///
    /// `Full`, or `OutOfMemory` where an allocation failed.
    fn push(&mut self, id: ObjectId, found: FoundParents) -> Result<Position, AddError<S::Error>>
        requires absent { Finds (S.finds (S.facts self.old.base)) self.old.commits id None }
        requires found { (ids : List (List ℕ)) × AreFoundParents
            (S.finds (S.facts self.old.base)) (S.says self.old.base) self.old.commits ids found }
        ensures base { self.new.base ≡ self.old.base }
        ensures kind { self.new.kind ≡ self.old.kind }
        ensures added { IfOk result (λ pos. (ids : List (List ℕ)) → AreFoundParents
            (S.finds (S.facts self.old.base)) (S.says self.old.base) self.old.commits ids found
            → IsPushed (S.finds (S.facts self.old.base)) self.old.commits self.new.commits ids id
            pos.0) }
        ensures refused { IfErr result (IsPushRefusal self.old.commits found.count) }
        ensures same { OnErr result (self.new.commits ≡ self.old.commits) }
    {
        let FoundParents {
            positions,
            count,
            greatest,
        } = found;
        if self.commits.is_full(count) {
            return Err(AddError::Full);
        }
        let Some(parents) = positions else {
            return Err(AddError::OutOfMemory);
        };
        let generation = GENERATION_NUMBER_MAX.min(greatest.saturating_add(1));
        let pos = Position(self.base.num_commits() + self.commits.len());
        match self.commits.push(id, generation, &parents) {
            Ok(()) => Ok(pos),
            Err(_) => Err(AddError::OutOfMemory),
        }
    }
}
