//! What is found of the parents of a commit.

ghost use Rattle.std.specs.Prelude.{◌≡◌, ◌++◌, ◌∷◌, [], IfSome, IsSomeAnd};

use gix_hash_core::ObjectId;

/// What is found of the parents of a commit.
#[derive(Drop)]
pub(crate) struct FoundParents {
    /// Their positions, or `None` where an allocation failed.
    pub(crate) positions: Option<Vec<u32>>,
    /// How many they are.
    pub(crate) count: usize,
    /// The greatest of their generation numbers, 0 where there are none.
    pub(crate) greatest: u32,
}

/// A commit that is not there, and whose parents are.
#[derive(Drop)]
pub(crate) struct Prepared {
    pub(crate) id: ObjectId,
    /// What is found of its parents.
    pub(crate) found: FoundParents,
}

/// Positions with one more, or `None` where there are none or an allocation failed.
pub(crate) fn with_one(positions: Option<Vec<u32>>, position: u32) -> Option<Vec<u32>>
    ensures { IfSome result (λ new. IsSomeAnd positions
        (λ old. new.items ≡ old.items ++ position ∷ [])) }
{
    let mut positions = positions?;
    positions.push(position).ok()?;
    Some(positions)
}
