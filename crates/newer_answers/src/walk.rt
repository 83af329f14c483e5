//! Walks along parents, by the ids of their commits.

ghost use Rattle.std.specs.Prelude.{◌≡◌, ◌⊎◌, ◌<◌, [], ◌∷◌, All, IfErr, IfNone, IfOk, IfSome, Some};
ghost use Rattle.std.specs.Prelude.{alloc_error};
ghost use Rattle.gix_hash_core.specs.Oid.{oid_bytes};
ghost use Rattle.commit_search.specs.Positions.{numbers_of};
ghost use Rattle.answers.specs.FoundOf.{IsFoundOf, OfTwo};
ghost use Rattle.newer_commits.specs.CommitsOnTop.{end_of_top};
ghost use Rattle.newer_commits.specs.FindingOnTop.{Finds};
ghost use Rattle.newer_answers.specs.AnswersOnTop.{IsKeptOnTop, IsWalkOnTop, LeadsOnTop};
ghost use Rattle.newer_answers.specs.AnswersOnTop.{NeverLeadsOnTop};

use crate::ids::ids_of;
use crate::lookup::find_both;
use answers::Answer;
use commit_search::{CommitSource, MarkSearcher, Marks};
use gix_hash_core::{ObjectId, oid};
use graph_format::Position;
use newer_commits::{Base, Newer};
use std::alloc::Global;

/// The ids on a walk along parents from the commit with the first id to the one with the second,
/// both included.
///
/// # Errors
///
/// A read of the base failed, or an allocation.
pub fn ancestor_walk<S: Base, M: Marks>(
    alloc: Global,
    commits: &mut Newer<S>,
    searcher: &mut MarkSearcher<M>,
    first: oid<'_>,
    second: oid<'_>,
) -> Result<Answer<Option<Vec<ObjectId>>>, S::Error>
    ensures known { S.known commits.new.base ≡ S.known commits.old.base }
    ensures kept { IsKeptOnTop (S.layers (S.facts commits.old.base)) commits.old.commits
        (S.says commits.old.base) (S.says commits.new.base) }
    ensures kind { commits.new.kind ≡ commits.old.kind }
    ensures commits { commits.new.commits ≡ commits.old.commits }
    ensures found { IfOk result (IsFoundOf
        (Finds (S.finds (S.facts commits.old.base)) commits.old.commits)
        (OfTwo (IsWalkOnTop (S.says commits.new.base) (S.has_id (S.facts commits.old.base))
        commits.old.commits)) (oid_bytes first.entry ∷ oid_bytes second.entry ∷ [])) }
    ensures refused { IfErr result (λ e. S.may_fail (S.known commits.old.base) e
        ⊎ S.Error.from_gives alloc_error e) }
{
    let found = find_both(commits, first, second)?;
    match found {
        Answer::Unknown(number) => Ok(Answer::Unknown(number)),
        Answer::Known((first, second)) => {
            let walk = walk_between(alloc, commits, searcher, first, second)?;
            Ok(Answer::Known(walk))
        }
    }
}

/// The ids on a walk along parents from one commit to another, or that there is none.
fn walk_between<S: Base, M: Marks>(
    alloc: Global,
    commits: &mut Newer<S>,
    searcher: &mut MarkSearcher<M>,
    from: Position,
    to: Position,
) -> Result<Option<Vec<ObjectId>>, S::Error>
    requires from { from.0 < end_of_top commits.old.commits }
    requires to { to.0 < end_of_top commits.old.commits }
    ensures known { S.known commits.new.base ≡ S.known commits.old.base }
    ensures kept { IsKeptOnTop (S.layers (S.facts commits.old.base)) commits.old.commits
        (S.says commits.old.base) (S.says commits.new.base) }
    ensures kind { commits.new.kind ≡ commits.old.kind }
    ensures commits { commits.new.commits ≡ commits.old.commits }
    ensures walk { IfOk result (IsWalkOnTop (S.says commits.new.base)
        (S.has_id (S.facts commits.old.base)) commits.old.commits from.0 to.0) }
    ensures refused { IfErr result (λ e. S.may_fail (S.known commits.old.base) e
        ⊎ S.Error.from_gives alloc_error e) }
{
    let found = steps_between(commits, searcher, from, to)?;
    match found {
        Some(walk) => {
            let ids = ids_of(alloc, commits, &walk)?;
            Ok(Some(ids))
        }
        None => Ok(None),
    }
}

/// The positions on a walk along parents from one commit to another, or that there is none.
fn steps_between<S: Base, M: Marks>(
    commits: &mut Newer<S>,
    searcher: &mut MarkSearcher<M>,
    from: Position,
    to: Position,
) -> Result<Option<Vec<Position>>, S::Error>
    requires from { from.0 < end_of_top commits.old.commits }
    requires to { to.0 < end_of_top commits.old.commits }
    ensures known { S.known commits.new.base ≡ S.known commits.old.base }
    ensures kept { IsKeptOnTop (S.layers (S.facts commits.old.base)) commits.old.commits
        (S.says commits.old.base) (S.says commits.new.base) }
    ensures kind { commits.new.kind ≡ commits.old.kind }
    ensures commits { commits.new.commits ≡ commits.old.commits }
    ensures within { IfOk result (λ answer. IfSome answer (λ walk.
        All (λ pos. pos.0 < end_of_top commits.old.commits) walk.items)) }
    ensures walk { IfOk result (λ answer. IfSome answer (λ walk.
        LeadsOnTop (S.says commits.new.base) commits.old.commits from.0 to.0
        (numbers_of walk.items))) }
    ensures none { IfOk result (λ answer. IfNone answer
        (NeverLeadsOnTop (S.says commits.new.base) commits.old.commits from.0 to.0)) }
    ensures refused { IfErr result (λ e. S.may_fail (S.known commits.old.base) e
        ⊎ S.Error.from_gives alloc_error e) }
{
    let reached = searcher.ancestor_walk(commits, from, to)?;
    // By its contract the newer commits are numbered by their parents, in all that the base says.
    let _newer = commits.num_newer();
    Ok(unless_past(reached.walk, commits.num_commits()))
}

/// A walk, unless it has a position past the first of so many. In a history that agrees with all
/// that was read there is no such walk.
fn unless_past(walk: Option<Vec<Position>>, count: u32) -> Option<Vec<Position>>
    ensures same { IfSome result (λ kept. walk ≡ Some kept) }
    ensures within { IfSome result (λ kept. All (λ pos. pos.0 < count) kept.items) }
    ensures none { IfNone result (IfSome walk (λ steps.
        ¬ All (λ pos. pos.0 < count) steps.items)) }
{
    let walk = walk?;
    if walk.iter().all(|pos| pos.0 < count) {
        Some(walk)
    } else {
        None
    }
}
