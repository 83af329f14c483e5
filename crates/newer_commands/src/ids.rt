//! The kind of the ids of a question.

ghost use Rattle.std.specs.Prelude.{[]};
ghost use Rattle.history_commands.specs.CheckedReplies.{IsSearched};
ghost use Rattle.question_lines.specs.Questions.{question_ids};
ghost use Rattle.newer_commands.specs.KindOver.{IsKindOver};

use gix_hash_core::Kind;
use question_lines::question::Question;

/// The kind of the ids of a question where there is no graph: that of the first.
pub(crate) fn kind_of_first(question: &Question) -> Kind
    requires { IsSearched question.now }
    ensures { IsKindOver [] (question_ids question.now) result }
{
    match question {
        Question::IsAncestor(first, _) => first.as_oid().kind(),
        Question::Walk(first, _) => first.as_oid().kind(),
        Question::MergeBase(first, _) => first.as_oid().kind(),
        Question::Find(_) => unreachable!(),
        Question::Parents(_) => unreachable!(),
        Question::Reload => unreachable!(),
    }
}
