//! Merge bases, and how far commits have come apart, by their ids.

ghost use Rattle.std.specs.Prelude.{◌≡◌, ◌⊎◌, ◌<◌, ◌∷◌, All, IfErr, IfOk, None, Some, alloc_error};
ghost use Rattle.gix_hash_core.specs.Oid.{oid_bytes};
ghost use Rattle.commit_search.specs.Positions.{numbers_of};
ghost use Rattle.answers.specs.FoundOf.{IsFoundOf, OfFirst};
ghost use Rattle.newer_commits.specs.CommitsOnTop.{end_of_top};
ghost use Rattle.newer_commits.specs.FindingOnTop.{Finds};
ghost use Rattle.newer_answers.specs.AnswersOnTop.{AreBasesOnTop, IsComparedOnTop, IsKeptOnTop};

use crate::ids::ids_of;
use crate::lookup::find_all;
use answers::{Answer, IdComparison};
use gix_hash_core::{ObjectId, oid};
use graph_bases::{CoatComparer, CoatTable, Comparison};
use graph_format::Position;
use newer_commits::{Base, Newer, RanksOnTop};
use std::alloc::Global;

/// What the commit with the first id and those with the others have in common, and the ids of the
/// merge bases. Where ranks are given, the search goes by these, and else by generation numbers.
///
/// # Errors
///
/// A read of the base failed, or an allocation.
pub fn compare<S: Base, T: CoatTable>(
    alloc: Global,
    commits: &mut Newer<S>,
    comparer: &mut CoatComparer<T>,
    ranks: Option<RanksOnTop<'_>>,
    first: oid<'_>,
    others: &[ObjectId],
) -> Result<Answer<IdComparison<Vec<ObjectId>>>, S::Error>
    ensures known { S.known commits.new.base ≡ S.known commits.old.base }
    ensures kept { IsKeptOnTop (S.layers (S.facts commits.old.base)) commits.old.commits
        (S.says commits.old.base) (S.says commits.new.base) }
    ensures kind { commits.new.kind ≡ commits.old.kind }
    ensures commits { commits.new.commits ≡ commits.old.commits }
    ensures found { IfOk result (IsFoundOf
        (Finds (S.finds (S.facts commits.old.base)) commits.old.commits)
        (OfFirst (IsComparedOnTop (S.says commits.new.base) (S.has_id (S.facts commits.old.base))
        commits.old.commits ranks.entry))
        (oid_bytes first.entry ∷ others.now)) }
    ensures refused { IfErr result (λ e. S.may_fail (S.known commits.old.base) e
        ⊎ S.Error.from_gives alloc_error e) }
{
    let found = find_all(alloc, commits, first, others)?;
    match found {
        Answer::Unknown(number) => Ok(Answer::Unknown(number)),
        Answer::Known((first, others)) => {
            let compared = compare_at(alloc, commits, comparer, ranks, first, &others)?;
            Ok(Answer::Known(compared))
        }
    }
}

/// What the commits at some positions have in common, with the ids of the merge bases.
fn compare_at<S: Base, T: CoatTable>(
    alloc: Global,
    commits: &mut Newer<S>,
    comparer: &mut CoatComparer<T>,
    ranks: Option<RanksOnTop<'_>>,
    first: Position,
    others: &[Position],
) -> Result<IdComparison<Vec<ObjectId>>, S::Error>
    requires first { first.0 < end_of_top commits.old.commits }
    requires others { All (λ other. other.0 < end_of_top commits.old.commits) others.now }
    ensures known { S.known commits.new.base ≡ S.known commits.old.base }
    ensures kept { IsKeptOnTop (S.layers (S.facts commits.old.base)) commits.old.commits
        (S.says commits.old.base) (S.says commits.new.base) }
    ensures kind { commits.new.kind ≡ commits.old.kind }
    ensures commits { commits.new.commits ≡ commits.old.commits }
    ensures compared { IfOk result (IsComparedOnTop (S.says commits.new.base)
        (S.has_id (S.facts commits.old.base)) commits.old.commits
        ranks.entry first.0 (numbers_of others.now)) }
    ensures refused { IfErr result (λ e. S.may_fail (S.known commits.old.base) e
        ⊎ S.Error.from_gives alloc_error e) }
{
    let comparison = bases_of(commits, comparer, ranks, first, others)?;
    let base_ids = ids_of(alloc, commits, &comparison.bases.positions)?;
    Ok(IdComparison {
        comparison,
        base_ids,
    })
}

/// What the commits at some positions have in common.
fn bases_of<S: Base, T: CoatTable>(
    commits: &mut Newer<S>,
    comparer: &mut CoatComparer<T>,
    ranks: Option<RanksOnTop<'_>>,
    first: Position,
    others: &[Position],
) -> Result<Comparison, S::Error>
    requires first { first.0 < end_of_top commits.old.commits }
    requires others { All (λ other. other.0 < end_of_top commits.old.commits) others.now }
    ensures known { S.known commits.new.base ≡ S.known commits.old.base }
    ensures kept { IsKeptOnTop (S.layers (S.facts commits.old.base)) commits.old.commits
        (S.says commits.old.base) (S.says commits.new.base) }
    ensures kind { commits.new.kind ≡ commits.old.kind }
    ensures commits { commits.new.commits ≡ commits.old.commits }
    ensures within { IfOk result (λ compared.
        All (λ base. base.0 < end_of_top commits.old.commits) compared.bases.positions.items) }
    ensures compared { IfOk result (AreBasesOnTop (S.says commits.new.base) commits.old.commits
        ranks.entry first.0 (numbers_of others.now)) }
    ensures refused { IfErr result (λ e. S.may_fail (S.known commits.old.base) e
        ⊎ S.Error.from_gives alloc_error e) }
{
    match ranks {
        Some(ranks) => bases_by_ranks(commits, comparer, &ranks, first, others),
        None => bases_by_generations(commits, comparer, first, others),
    }
}

/// What they have in common, by a search that goes by these ranks.
fn bases_by_ranks<S: Base, T: CoatTable>(
    commits: &mut Newer<S>,
    comparer: &mut CoatComparer<T>,
    ranks: &RanksOnTop<'_>,
    first: Position,
    others: &[Position],
) -> Result<Comparison, S::Error>
    requires first { first.0 < end_of_top commits.old.commits }
    requires others { All (λ other. other.0 < end_of_top commits.old.commits) others.now }
    ensures known { S.known commits.new.base ≡ S.known commits.old.base }
    ensures kept { IsKeptOnTop (S.layers (S.facts commits.old.base)) commits.old.commits
        (S.says commits.old.base) (S.says commits.new.base) }
    ensures kind { commits.new.kind ≡ commits.old.kind }
    ensures commits { commits.new.commits ≡ commits.old.commits }
    ensures within { IfOk result (λ compared.
        All (λ base. base.0 < end_of_top commits.old.commits) compared.bases.positions.items) }
    ensures compared { IfOk result (AreBasesOnTop (S.says commits.new.base) commits.old.commits
        (Some ranks.now) first.0 (numbers_of others.now)) }
    ensures refused { IfErr result (λ e. S.may_fail (S.known commits.old.base) e
        ⊎ S.Error.from_gives alloc_error e) }
{
    let compared = comparer.compare_by(commits, ranks, first, others);
    // By their contracts each newer commit comes after its parents, and whatever the base says is
    // said of so many commits.
    let _newer = commits.commits.len();
    let _commits = commits.base.num_commits();
    compared
}

/// What they have in common, by a search that goes by generation numbers.
fn bases_by_generations<S: Base, T: CoatTable>(
    commits: &mut Newer<S>,
    comparer: &mut CoatComparer<T>,
    first: Position,
    others: &[Position],
) -> Result<Comparison, S::Error>
    requires first { first.0 < end_of_top commits.old.commits }
    requires others { All (λ other. other.0 < end_of_top commits.old.commits) others.now }
    ensures known { S.known commits.new.base ≡ S.known commits.old.base }
    ensures kept { IsKeptOnTop (S.layers (S.facts commits.old.base)) commits.old.commits
        (S.says commits.old.base) (S.says commits.new.base) }
    ensures kind { commits.new.kind ≡ commits.old.kind }
    ensures commits { commits.new.commits ≡ commits.old.commits }
    ensures within { IfOk result (λ compared.
        All (λ base. base.0 < end_of_top commits.old.commits) compared.bases.positions.items) }
    ensures compared { IfOk result (AreBasesOnTop (S.says commits.new.base) commits.old.commits
        None first.0 (numbers_of others.now)) }
    ensures refused { IfErr result (λ e. S.may_fail (S.known commits.old.base) e
        ⊎ S.Error.from_gives alloc_error e) }
{
    let compared = comparer.compare(commits, first, others);
    // By its contract the newer commits are numbered by their parents, in all that the base says.
    let _newer = commits.num_newer();
    compared
}
