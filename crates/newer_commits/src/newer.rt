//! A base with newer commits on top.

ghost use Rattle.std.specs.Prelude.{◌≡◌, ◌<◌, [], IfErr, IfOk, IfSome, length};
ghost use Rattle.gix_hash_core.specs.Oid.{oid_bytes};
ghost use Rattle.graph_walks.specs.History.{generation_at};
ghost use Rattle.gix_commitgraph.specs.GraphLookup.{position_number};
ghost use Rattle.commit_search.specs.Source.{Told};
ghost use Rattle.newer_commits.specs.CommitsOnTop.{end_of_top, nodes_on_top};
ghost use Rattle.newer_commits.specs.FindingOnTop.{Finds, HasId};
ghost use Rattle.newer_commits.specs.JoinedHistory.{AreNumberedOnTop, joined_history};

use crate::base::Base;
use crate::commits::NewerCommits;
use gix_hash_core::{Kind, ObjectId, oid};
use graph_format::Position;
use std::alloc::Global;

/// A base, and newer commits on top of it, which it lacks: a source of all of them. The newer ones
/// have the positions after those of the base, in the order in which they were added.
///
/// Where the generation numbers of the base are right, so are those of the newer commits.
#[derive(Drop)]
pub struct Newer<S: Base> {
    /// The base.
    pub base: S,
    /// The kind of the ids.
    pub kind: Kind,
    /// The newer commits.
    pub commits: NewerCommits,
    ghost below: { commits.below ≡ S.count (S.known base) },
    ghost numbered: { (t : Told) → S.says base t
        → AreNumberedOnTop t.history (nodes_on_top commits) },
}

impl<S: Base> Newer<S> {
    /// A base on which no commits stand yet. Nothing is allocated.
    pub fn new(alloc: Global, kind: Kind, base: S) -> Newer<S>
        ensures base { result.base ≡ base }
        ensures kind { result.kind ≡ kind }
        ensures none { result.commits.commits ≡ [] }
    {
        let commits = NewerCommits::new(alloc, base.num_commits());
        Newer {
            base,
            kind,
            commits,
        }
    }

    /// How many newer commits there are.
    pub fn num_newer(&self) -> u32
        ensures count { result ≡ length self.now.commits.commits }
        ensures numbered { (t : Told) → S.says self.now.base t
            → AreNumberedOnTop t.history (nodes_on_top self.now.commits) }
    {
        self.commits.len()
    }

    /// The position of the commit with an id. It is looked up in the base first.
    ///
    /// # Errors
    ///
    /// A read of the base failed.
    pub fn position_of(&mut self, id: oid<'_>) -> Result<Option<Position>, S::Error>
        ensures known { S.known self.new.base ≡ S.known self.old.base }
        ensures kept { (t : Told) → S.says self.new.base t → S.says self.old.base t }
        ensures kind { self.new.kind ≡ self.old.kind }
        ensures commits { self.new.commits ≡ self.old.commits }
        ensures found { IfOk result (λ answer. Finds (S.finds (S.facts self.old.base))
            self.old.commits (oid_bytes id.entry) (position_number answer)) }
        ensures within { IfOk result (λ answer.
            IfSome answer (λ pos. pos.0 < end_of_top self.old.commits)) }
        ensures failed { IfErr result (S.may_fail (S.known self.old.base)) }
    {
        match self.base.position_of(id)? {
            Some(pos) => Ok(Some(pos)),
            None => Ok(self.commits.position_of(id)),
        }
    }

    /// The id of the commit at a position.
    ///
    /// # Errors
    ///
    /// A read of the base failed.
    pub fn id_at(&mut self, pos: Position) -> Result<ObjectId, S::Error>
        requires { pos.0 < end_of_top self.old.commits }
        ensures known { S.known self.new.base ≡ S.known self.old.base }
        ensures kept { (t : Told) → S.says self.new.base t → S.says self.old.base t }
        ensures kind { self.new.kind ≡ self.old.kind }
        ensures commits { self.new.commits ≡ self.old.commits }
        ensures id { IfOk result (HasId (S.has_id (S.facts self.old.base)) self.old.commits pos.0) }
        ensures failed { IfErr result (S.may_fail (S.known self.old.base)) }
    {
        if pos.0 < self.base.num_commits() {
            self.base.id_at(pos)
        } else {
            Ok(self.commits.id_at(pos))
        }
    }

    /// The generation number of the commit at a position.
    ///
    /// # Errors
    ///
    /// A read of the base failed.
    pub(crate) fn number_at(&mut self, pos: Position) -> Result<u32, S::Error>
        requires { pos.0 < end_of_top self.old.commits }
        ensures known { S.known self.new.base ≡ S.known self.old.base }
        ensures kept { (t : Told) → S.says self.new.base t → S.says self.old.base t }
        ensures kind { self.new.kind ≡ self.old.kind }
        ensures commits { self.new.commits ≡ self.old.commits }
        ensures number { IfOk result (λ number. (t : Told) → S.says self.new.base t
            → number ≡ generation_at
            (joined_history t.history (nodes_on_top self.old.commits)) pos.0) }
        ensures failed { IfErr result (S.may_fail (S.known self.old.base)) }
    {
        if pos.0 < self.base.num_commits() {
            self.base.generation_number(pos)
        } else {
            Ok(self.commits.generation_at(pos))
        }
    }
}
