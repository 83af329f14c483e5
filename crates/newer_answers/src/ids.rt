//! The ids of commits.

ghost use Rattle.std.specs.Prelude.{◌≡◌, ◌⊎◌, ◌<◌, All, IfErr, IfOk, alloc_error};
ghost use Rattle.std.specs.List.{AllZip};
ghost use Rattle.commit_search.specs.Positions.{numbers_of};
ghost use Rattle.commit_search.specs.Source.{Told};
ghost use Rattle.newer_commits.specs.CommitsOnTop.{end_of_top};
ghost use Rattle.newer_commits.specs.FindingOnTop.{HasId};

use gix_hash_core::ObjectId;
use graph_format::Position;
use newer_commits::{Base, Newer};
use std::alloc::{AllocError, Global};

/// The ids of the commits at some positions, in their order.
pub(crate) fn ids_of<S: Base>(
    alloc: Global,
    commits: &mut Newer<S>,
    positions: &[Position],
) -> Result<Vec<ObjectId>, S::Error>
    requires { All (λ pos. pos.0 < end_of_top commits.old.commits) positions.now }
    ensures known { S.known commits.new.base ≡ S.known commits.old.base }
    ensures kept { (t : Told) → S.says commits.new.base t → S.says commits.old.base t }
    ensures kind { commits.new.kind ≡ commits.old.kind }
    ensures commits { commits.new.commits ≡ commits.old.commits }
    ensures ids { IfOk result (λ ids.
        AllZip (HasId (S.has_id (S.facts commits.old.base)) commits.old.commits)
        (numbers_of positions.now) ids.items) }
    ensures refused { IfErr result (λ e. S.may_fail (S.known commits.old.base) e
        ⊎ S.Error.from_gives alloc_error e) }
{
    let mut ids = Vec::new(alloc);
    for pos in positions {
        let id = commits.id_at(*pos)?;
        ids.push(id).map_err(AllocError::from)?;
    }
    Ok(ids)
}
