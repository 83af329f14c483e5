//! Answers over a graph, or over none, and over newer commits that are asked for.

ghost use Rattle.std.specs.Prelude.{◌≡◌, ℕ, List, Err, IfOk, IfSome};
ghost use Rattle.std.specs.Io.KnownBytes.{Appends};
ghost use Rattle.gix_commitgraph.specs.Sound.{Sound};
ghost use Rattle.graph_commands.specs.WrittenAnswer.{WritesAnswer};
ghost use Rattle.graph_history.specs.GraphComparison.{AreDatesOf};
ghost use Rattle.graph_commands.specs.declared.refusal.Refusal.TheVariants.{Walk};
ghost use Rattle.history_commands.specs.CheckedReplies.{IsSearched};
ghost use Rattle.question_lines.specs.Questions.{question_ids};
ghost use Rattle.commit_requests.specs.Requested.{request_lines};
ghost use Rattle.newer_commands.specs.AskedReply.{asked_status, asked_text, listed_verdict};
ghost use Rattle.newer_commands.specs.KindOver.{IsKindOver, layers_of_base};
ghost use Rattle.newer_commands.specs.RepliesOnTop.{MayTellOver};

use crate::refusal::NewerRefusal;
use crate::verdict::{Verdict, tell_at_last, verdict_of};
use answer_lines::reply::Form;
use gix_hash_core::Kind;
use graph_ancestors::InMemory;
use graph_commands::line::WriteFailed;
use graph_commands::refusal::Refusal;
use newer_commits::{BaseOrNone, RanksOnTop};
use newer_questions::answer_on_top;
use question_lines::question::Question;
use std::alloc::Global;
use std::io::{Read, Write};

/// Answers a question that asks for a search: asks for all commits that are lacking, and then
/// writes an empty line, and the lines of the answer, or why there is none. Merge bases are
/// searched for by the ranks that are given, and without some by generation numbers. The answer is
/// the exit status. `WriteFailed` comes where the writer fails.
pub(crate) fn answer_over<R: Read, W: Write>(
    alloc: Global,
    kind: Kind,
    base: BaseOrNone<InMemory<'_>>,
    ranks: Option<RanksOnTop<'_>>,
    question: &Question,
    form: Form,
    reader: &mut R,
    writer: &mut W,
) -> Result<u8, WriteFailed>
    requires searched { IsSearched question.now }
    requires right { IfSome base.base Sound }
    requires dates { IfSome ranks (AreDatesOf (layers_of_base base)) }
    requires kind { IsKindOver (layers_of_base base) (question_ids question.now) kind }
    ensures { IfOk result (WritesAnswer (asked_text form) asked_status
        (MayTellOver (layers_of_base base.entry) (R.remaining reader.old) question.now)
        (W.contents writer.old) (W.contents writer.new)) }
{
    let verdict = find_over(alloc, kind, base, ranks, question, reader, writer)?;
    tell_at_last(alloc, form, &verdict, writer)
}

/// What is answered to a question that asks for a search, once all commits that are lacking were
/// asked for. `WriteFailed` comes where the writer fails.
fn find_over<R: Read, W: Write>(
    alloc: Global,
    kind: Kind,
    mut base: BaseOrNone<InMemory<'_>>,
    ranks: Option<RanksOnTop<'_>>,
    question: &Question,
    reader: &mut R,
    writer: &mut W,
) -> Result<Verdict, WriteFailed>
    requires searched { IsSearched question.now }
    requires right { IfSome base.base Sound }
    requires dates { IfSome ranks (AreDatesOf (layers_of_base base)) }
    requires kind { IsKindOver (layers_of_base base) (question_ids question.now) kind }
    ensures { IfOk result (λ verdict. (asked : List (List ℕ))
        × Appends (W.contents writer.old) (W.contents writer.new) (request_lines asked)
        × MayTellOver (layers_of_base base.entry) (R.remaining reader.old) question.now
        (record { asked = asked; verdict = listed_verdict verdict })) }
{
    match answer_on_top(alloc, &mut base, kind, ranks, question, reader, writer) {
        Ok(reply) => Ok(Ok(reply)),
        Err(error) => match verdict_of(error)? {
            Ok(verdict) => Ok(verdict),
            Err(_) => Ok(no_memory()),
        },
    }
}

/// Memory ran out.
fn no_memory() -> Verdict
    ensures { result ≡ Err (NewerRefusal.Common Walk) }
{
    Err(NewerRefusal::Common(Refusal::Walk))
}
