//! How the parents of a newer commit are kept: in two fields, and where there are more than two, in
//! words of an extra edge list ("Commit Data", "Extra Edge List").

ghost use Rattle.std.specs.Prelude.{◌≡◌, ◌+◌, ◌<◌, ◌≤◌, ◌^◌, ◌++◌, ◌∷◌, [], All, IfOk, List, ℕ};
ghost use Rattle.std.specs.Prelude.{OnErr};
ghost use Rattle.std.specs.Prelude.{OnOk, length};
ghost use Rattle.newer_commits.specs.KeptCommits.{AreWhole, fields_name};

use graph_format::Position;
use graph_format::parents::{ParentEdge, TOP_BIT};
use std::alloc::AllocError;

/// Both fields of a commit with these parents. The words of its list are added behind the others.
///
/// # Errors
///
/// An allocation failed. The words are as before.
pub(crate) fn store_parents(
    words: &mut Vec<u32>,
    parents: &[u32],
) -> Result<(ParentEdge, ParentEdge), AllocError>
    requires small { All (λ q. q < 2 ^ 31) parents.now }
    requires few { length words.old.items < 2 ^ 32 }
    ensures named { IfOk result (λ fields. fields_name words.new.items fields ≡ parents.now) }
    ensures whole { IfOk result (AreWhole words.new.items) }
    ensures more { OnOk result ((more : List ℕ) × (words.new.items ≡ words.old.items ++ more)
        × (length more ≤ length parents.now)) }
    ensures err { OnErr result (words.new.items ≡ words.old.items) }
{
    match parents {
        [] => Ok((ParentEdge::None, ParentEdge::None)),
        [first] => Ok((field_of(*first), ParentEdge::None)),
        [first, second] => Ok((field_of(*first), field_of(*second))),
        [first, others @ .., last] => {
            let index = words.len() as u32;
            push_list(words, others, *last)?;
            Ok((field_of(*first), ParentEdge::ExtraEdgeIndex(index)))
        }
    }
}

/// The field that names one parent.
fn field_of(parent: u32) -> ParentEdge
    ensures { result ≡ ParentEdge.GraphPosition (record { 0 = parent }) }
{
    ParentEdge::GraphPosition(Position(parent))
}

/// Adds words for some parents and a last one.
///
/// # Errors
///
/// An allocation failed. The words are as before.
fn push_list(words: &mut Vec<u32>, others: &[u32], last: u32) -> Result<(), AllocError>
    requires { last < 2 ^ 31 }
    ensures ok { OnOk result (words.new.items
        ≡ words.old.items ++ (others.now ++ (last + 2147483648) ∷ [])) }
    ensures err { OnErr result (words.new.items ≡ words.old.items) }
{
    let before = words.len();
    words.extend_from_slice(others)?;
    if words.push(last + TOP_BIT).is_err() {
        words.truncate(before);
        return Err(AllocError);
    }
    Ok(())
}
