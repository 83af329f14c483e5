//! Plans of small histories, row by row.

ghost use Rattle.std.specs.Prelude.{◌≡◌, IfOk, length};
ghost use Rattle.gix_hash_core.specs.declared.kind.Kind.TheVariants.{Sha1};

use crate::plan::LayerPlan;
use gix_hash_core::{Kind, ObjectId};
use graph_encoder::PlanCommit;
use std::alloc::{AllocError, Global};

/// A commit: the byte that its id repeats, its parents and its generation number.
pub type Row<'a> = (u8, &'a [u32], u32);

/// A diamond: a root, two commits on it, and their merge.
///
/// The fan of its file begins at byte 56, the ids at 1080, and the records, of 36 bytes each, at
/// 1160. The file has 1324 bytes.
pub const DIAMOND: &[Row<'static>] = &[
    (0x11, &[], 1),
    (0x22, &[0], 2),
    (0x33, &[0], 2),
    (0x44, &[1, 2], 3),
];

/// Three commits in a line, and a merge of the first, the first again and the third.
pub const OCTOPUS: &[Row<'static>] = &[
    (0x11, &[], 1),
    (0x22, &[0], 2),
    (0x33, &[1], 3),
    (0x44, &[0, 0, 2], 4),
];

/// Ten commits in a line.
pub const TEN: &[Row<'static>] = &[
    (0x11, &[], 1),
    (0x22, &[0], 2),
    (0x33, &[1], 3),
    (0x44, &[2], 4),
    (0x55, &[3], 5),
    (0x66, &[4], 6),
    (0x77, &[5], 7),
    (0x88, &[6], 8),
    (0x99, &[7], 9),
    (0xaa, &[8], 10),
];

/// What a file is to hold for a commit with this SHA-1 id. The id of its root tree repeats the byte
/// 0x99, and its time is 7.
///
/// # Errors
///
/// `AllocError` where an allocation failed.
pub fn planned_commit(
    alloc: Global,
    id: ObjectId,
    parents: &[u32],
    generation: u32,
) -> Result<PlanCommit, AllocError>
    ensures id { IfOk result (λ commit. commit.id ≡ id) }
    ensures parents { IfOk result (λ commit. commit.parents.items ≡ parents.now) }
    ensures generation { IfOk result (λ commit. commit.generation ≡ generation) }
    ensures time { IfOk result (λ commit. commit.time ≡ 7) }
{
    Ok(PlanCommit {
        id,
        tree: ObjectId::from([0x99; 20]),
        parents: Vec::from_slice(alloc, parents)?,
        generation,
        time: 7,
    })
}

/// The SHA-1 plan of these commits on these bases, each as [`planned_commit`] makes it.
///
/// # Errors
///
/// `AllocError` where an allocation failed.
pub fn plan_of_rows(
    alloc: Global,
    bases: &[ObjectId],
    rows: &[Row<'_>],
) -> Result<LayerPlan, AllocError>
    ensures kind { IfOk result (λ plan. plan.kind ≡ Sha1) }
    ensures bases { IfOk result (λ plan. plan.bases.items ≡ bases.now) }
    ensures commits { IfOk result (λ plan. length plan.commits.items ≡ length rows.now) }
{
    let mut commits = Vec::new(alloc);
    for (byte, parents, generation) in rows {
        let id = ObjectId::from([*byte; 20]);
        commits.push(planned_commit(alloc, id, parents, *generation)?)?;
    }
    let bases = Vec::from_slice(alloc, bases)?;
    Ok(LayerPlan {
        kind: Kind::Sha1,
        bases,
        commits,
    })
}
