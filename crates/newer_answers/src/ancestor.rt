//! Whether one commit is an ancestor of another.

ghost use Rattle.std.specs.Prelude.{◌≡◌, ◌⊎◌, ◌<◌, [], ◌∷◌, IfErr, IfOk, alloc_error};
ghost use Rattle.gix_hash_core.specs.Oid.{oid_bytes};
ghost use Rattle.answers.specs.FoundOf.{IsFoundOf, OfTwo};
ghost use Rattle.newer_commits.specs.CommitsOnTop.{end_of_top};
ghost use Rattle.newer_commits.specs.FindingOnTop.{Finds};
ghost use Rattle.newer_answers.specs.AnswersOnTop.{IsKeptOnTop, IsToldOnTop};

use crate::lookup::find_both;
use answers::Answer;
use commit_search::{MarkSearcher, Marks};
use gix_hash_core::oid;
use graph_format::Position;
use newer_commits::{Base, Newer};

/// Whether the commit with the first id is an ancestor of the one with the second, or the same, as
/// `git merge-base --is-ancestor` tells it.
///
/// # Errors
///
/// A read of the base failed, or an allocation.
pub fn is_ancestor<S: Base, M: Marks>(
    commits: &mut Newer<S>,
    searcher: &mut MarkSearcher<M>,
    first: oid<'_>,
    second: oid<'_>,
) -> Result<Answer<bool>, S::Error>
    ensures known { S.known commits.new.base ≡ S.known commits.old.base }
    ensures kept { IsKeptOnTop (S.layers (S.facts commits.old.base)) commits.old.commits
        (S.says commits.old.base) (S.says commits.new.base) }
    ensures kind { commits.new.kind ≡ commits.old.kind }
    ensures commits { commits.new.commits ≡ commits.old.commits }
    ensures found { IfOk result (IsFoundOf
        (Finds (S.finds (S.facts commits.old.base)) commits.old.commits)
        (OfTwo (IsToldOnTop (S.says commits.new.base) commits.old.commits))
        (oid_bytes first.entry ∷ oid_bytes second.entry ∷ [])) }
    ensures refused { IfErr result (λ e. S.may_fail (S.known commits.old.base) e
        ⊎ S.Error.from_gives alloc_error e) }
{
    let found = find_both(commits, first, second)?;
    match found {
        Answer::Unknown(number) => Ok(Answer::Unknown(number)),
        Answer::Known((first, second)) => {
            let told = told_between(commits, searcher, first, second)?;
            Ok(Answer::Known(told))
        }
    }
}

/// Whether one commit is an ancestor of another, or the same.
fn told_between<S: Base, M: Marks>(
    commits: &mut Newer<S>,
    searcher: &mut MarkSearcher<M>,
    ancestor: Position,
    descendant: Position,
) -> Result<bool, S::Error>
    requires ancestor { ancestor.0 < end_of_top commits.old.commits }
    requires descendant { descendant.0 < end_of_top commits.old.commits }
    ensures known { S.known commits.new.base ≡ S.known commits.old.base }
    ensures kept { IsKeptOnTop (S.layers (S.facts commits.old.base)) commits.old.commits
        (S.says commits.old.base) (S.says commits.new.base) }
    ensures kind { commits.new.kind ≡ commits.old.kind }
    ensures commits { commits.new.commits ≡ commits.old.commits }
    ensures told { IfOk result (IsToldOnTop (S.says commits.new.base) commits.old.commits
        ancestor.0 descendant.0) }
    ensures refused { IfErr result (λ e. S.may_fail (S.known commits.old.base) e
        ⊎ S.Error.from_gives alloc_error e) }
{
    let told = searcher.is_ancestor(commits, ancestor, descendant);
    // By its contract the newer commits are numbered by their parents, in all that the base says.
    let _newer = commits.num_newer();
    told
}
