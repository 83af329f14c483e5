//! Which commits have some ids.

ghost use Rattle.std.specs.Prelude.{◌≡◌, ◌⊎◌, [], ◌∷◌, IfErr, IfOk, alloc_error};
ghost use Rattle.gix_hash_core.specs.Oid.{oid_bytes};
ghost use Rattle.commit_search.specs.Source.{Told};
ghost use Rattle.answers.specs.FoundOf.{IsFoundOf, OfFirst, OfTwo};
ghost use Rattle.newer_commits.specs.CommitsOnTop.{end_of_top};
ghost use Rattle.newer_commits.specs.FindingOnTop.{Finds};
ghost use Rattle.newer_answers.specs.FoundOnTop.{AreAllBelow, AreAllPlaces, AreOthersBelow};
ghost use Rattle.newer_answers.specs.FoundOnTop.{AreOthersPlaces, AreTwoBelow, AreTwoPlaces};

use answers::Answer;
use gix_hash_core::{ObjectId, oid};
use graph_format::Position;
use newer_commits::{Base, Newer};
use std::alloc::{AllocError, Global};

/// The positions of two ids.
pub(crate) fn find_both<S: Base>(
    commits: &mut Newer<S>,
    first: oid<'_>,
    second: oid<'_>,
) -> Result<Answer<(Position, Position)>, S::Error>
    ensures known { S.known commits.new.base ≡ S.known commits.old.base }
    ensures kept { (t : Told) → S.says commits.new.base t → S.says commits.old.base t }
    ensures kind { commits.new.kind ≡ commits.old.kind }
    ensures commits { commits.new.commits ≡ commits.old.commits }
    ensures within { IfOk result (AreTwoBelow (end_of_top commits.old.commits)) }
    ensures found { IfOk result (IsFoundOf
        (Finds (S.finds (S.facts commits.old.base)) commits.old.commits) (OfTwo AreTwoPlaces)
        (oid_bytes first.entry ∷ oid_bytes second.entry ∷ [])) }
    ensures failed { IfErr result (S.may_fail (S.known commits.old.base)) }
{
    let Some(first) = commits.position_of(first)? else {
        return Ok(Answer::Unknown(1));
    };
    let Some(second) = commits.position_of(second)? else {
        return Ok(Answer::Unknown(2));
    };
    Ok(Answer::Known((first, second)))
}

/// The positions of an id and of some others.
pub(crate) fn find_all<S: Base>(
    alloc: Global,
    commits: &mut Newer<S>,
    first: oid<'_>,
    others: &[ObjectId],
) -> Result<Answer<(Position, Vec<Position>)>, S::Error>
    ensures known { S.known commits.new.base ≡ S.known commits.old.base }
    ensures kept { (t : Told) → S.says commits.new.base t → S.says commits.old.base t }
    ensures kind { commits.new.kind ≡ commits.old.kind }
    ensures commits { commits.new.commits ≡ commits.old.commits }
    ensures within { IfOk result (AreAllBelow (end_of_top commits.old.commits)) }
    ensures found { IfOk result (IsFoundOf
        (Finds (S.finds (S.facts commits.old.base)) commits.old.commits) (OfFirst AreAllPlaces)
        (oid_bytes first.entry ∷ others.now)) }
    ensures refused { IfErr result (λ e. S.may_fail (S.known commits.old.base) e
        ⊎ S.Error.from_gives alloc_error e) }
{
    let Some(first) = commits.position_of(first)? else {
        return Ok(Answer::Unknown(1));
    };
    let found = find_others(alloc, commits, others)?;
    match found {
        Answer::Unknown(number) => Ok(Answer::Unknown(number)),
        Answer::Known(others) => Ok(Answer::Known((first, others))),
    }
}

/// The positions of the ids after the first.
fn find_others<S: Base>(
    alloc: Global,
    commits: &mut Newer<S>,
    others: &[ObjectId],
) -> Result<Answer<Vec<Position>>, S::Error>
    ensures known { S.known commits.new.base ≡ S.known commits.old.base }
    ensures kept { (t : Told) → S.says commits.new.base t → S.says commits.old.base t }
    ensures kind { commits.new.kind ≡ commits.old.kind }
    ensures commits { commits.new.commits ≡ commits.old.commits }
    ensures within { IfOk result (AreOthersBelow (end_of_top commits.old.commits)) }
    ensures found { IfOk result (AreOthersPlaces
        (Finds (S.finds (S.facts commits.old.base)) commits.old.commits) others.now) }
    ensures refused { IfErr result (λ e. S.may_fail (S.known commits.old.base) e
        ⊎ S.Error.from_gives alloc_error e) }
{
    let mut found = Vec::new(alloc);
    for (place, id) in others.iter().enumerate() {
        let Some(pos) = commits.position_of(id.as_oid())? else {
            return Ok(Answer::Unknown(place as u64 + 2));
        };
        found.push(pos).map_err(AllocError::from)?;
    }
    Ok(Answer::Known(found))
}
