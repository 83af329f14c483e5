//! The ids of a question.

ghost use Rattle.std.specs.Prelude.{◌≡◌, ◌∷◌, IfOk};
ghost use Rattle.history_commands.specs.CheckedReplies.{IsSearched};
ghost use Rattle.question_lines.specs.Questions.{question_ids};

use gix_hash_core::ObjectId;
use question_lines::question::Question;
use std::alloc::{AllocError, Global};

/// The ids of a question, in order. `AllocError` comes where an allocation failed.
pub(crate) fn ids_of(alloc: Global, question: &Question) -> Result<Vec<ObjectId>, AllocError>
    requires { IsSearched question.now }
    ensures { IfOk result (λ ids. ids.items ≡ question_ids question.now) }
{
    match question {
        Question::IsAncestor(first, second) => first_and(alloc, *first, &[*second]),
        Question::Walk(first, second) => first_and(alloc, *first, &[*second]),
        Question::MergeBase(first, others) => first_and(alloc, *first, others),
        Question::Find(_) => unreachable!(),
        Question::Parents(_) => unreachable!(),
        Question::Reload => unreachable!(),
    }
}

/// A first id, and then others. `AllocError` comes where an allocation failed.
fn first_and(
    alloc: Global,
    first: ObjectId,
    others: &[ObjectId],
) -> Result<Vec<ObjectId>, AllocError>
    ensures { IfOk result (λ ids. ids.items ≡ first ∷ others.now) }
{
    let mut ids = Vec::new(alloc);
    ids.push(first)?;
    ids.extend_from_slice(others)?;
    Ok(ids)
}
