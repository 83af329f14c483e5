//! The commands, over a folder, a reader and a writer.

ghost use Rattle.std.specs.Prelude.{◌≡◌, IfOk, IfSome, length, option_copied, option_map};
ghost use Rattle.std.specs.Io.KnownBytes.{Keeps};
ghost use Rattle.graph_commands.specs.OpenerAnswer.{MayOpenIn};
ghost use Rattle.graph_commands.specs.WrittenAnswer.{WritesAnswer};
ghost use Rattle.graph_history.specs.GraphComparison.{AreDatesOf};
ghost use Rattle.history_commands.specs.CheckedReplies.{IsSearched};
ghost use Rattle.history_commands.specs.SpelledQuestions.{spelled_name, spelled_texts};
ghost use Rattle.newer_commands.specs.AskedNewer.{MayAskNewer, MayReplyNewer};
ghost use Rattle.newer_commands.specs.AskedReply.{asked_status, asked_text};
ghost use Rattle.newer_commands.specs.RepliesOnTop.{MayTellOver};

use crate::answer::answer_over;
use crate::ids::kind_of_first;
use crate::verdict::refuse_at_once;
use answer_lines::reply::Form;
use graph_ancestors::InMemory;
use graph_chunks::dates::CorrectedDates;
use graph_commands::line::WriteFailed;
use graph_commands::refusal::Refusal;
use graph_folder::folder::Folder;
use graph_history::Checked;
use history_commands::SpelledQuestion;
use history_commands::opening::open_checked;
use newer_commits::{BaseOrNone, RanksOnTop};
use question_lines::question::Question;
use std::alloc::Global;
use std::io::{Read, Write};

/// Answers a question whose ids are texts, as `run_spelled` of `history_commands` does, also about
/// commits that the graph at the path lacks; without a path no graph is opened, and each commit is
/// such a one. The position of a newer commit is one after those of the graph.
///
/// It writes the id of each commit that is lacking as a line, and reads its entry, as
/// `git cat-file --batch` writes it, up to 64 of them together. An empty line ends what is asked
/// for. Then it writes the lines of the answer; or which id is that of no object; or why the
/// question is refused. A text that is no id opens and asks for nothing. The answer is the exit
/// status. `WriteFailed` comes where the writer fails.
pub fn run_spelled_newer<T: Folder, R: Read, W: Write>(
    alloc: Global,
    folder: &mut T,
    path: Option<&str>,
    question: SpelledQuestion<'_>,
    form: Form,
    reader: &mut R,
    writer: &mut W,
) -> Result<u8, WriteFailed>
    ensures written { IfOk result (WritesAnswer (asked_text form) asked_status
        (MayAskNewer (spelled_name question.entry) (spelled_texts question.entry)
        ((folder.new ≡ folder.old) × Keeps (R.remaining reader.old) (R.remaining reader.new))
        (MayReplyNewer (option_map (λ p. p.now) path.entry) (folder.new ≡ folder.old)
        (MayOpenIn T.Folder folder.old folder.new)
        (R.remaining reader.old) (R.remaining reader.new)))
        (W.contents writer.old) (W.contents writer.new)) }
    ensures tree { T.tree folder.new ≡ T.tree folder.old }
{
    match question.read(alloc) {
        Ok(question) => run_question_newer(alloc, folder, path, &question, form, reader, writer),
        Err(refusal) => refuse_at_once(refusal, writer),
    }
}

/// Answers a question that asks for a search, over the graph that the path opens, which is checked
/// first, or over none without a path, and over commits that are lacking there, for which it asks.
/// An empty line ends what is asked for. Then it writes the lines of the answer, or why the
/// question is refused. The answer is the exit status. `WriteFailed` comes where the writer fails.
pub fn run_question_newer<T: Folder, R: Read, W: Write>(
    alloc: Global,
    folder: &mut T,
    path: Option<&str>,
    question: &Question,
    form: Form,
    reader: &mut R,
    writer: &mut W,
) -> Result<u8, WriteFailed>
    requires { IsSearched question.now }
    ensures written { IfOk result (WritesAnswer (asked_text form) asked_status
        (MayReplyNewer (option_map (λ p. p.now) path.entry) (folder.new ≡ folder.old)
        (MayOpenIn T.Folder folder.old folder.new)
        (R.remaining reader.old) (R.remaining reader.new) question.now)
        (W.contents writer.old) (W.contents writer.new)) }
    ensures tree { T.tree folder.new ≡ T.tree folder.old }
{
    let Some(path) = path else {
        let kind = kind_of_first(question);
        let none = BaseOrNone { base: None };
        return answer_over(alloc, kind, none, None, question, form, reader, writer);
    };
    match open_checked(alloc, folder, path) {
        Ok(graph) => answer_in(alloc, &graph.as_checked(), question, form, reader, writer),
        Err(refusal) => refuse_at_once(refusal, writer),
    }
}

/// Answers a question that asks for a search over a graph that was checked, and over commits that
/// it lacks. The answer is the exit status. `WriteFailed` comes where the writer fails.
fn answer_in<R: Read, W: Write>(
    alloc: Global,
    checked: &Checked<'_>,
    question: &Question,
    form: Form,
    reader: &mut R,
    writer: &mut W,
) -> Result<u8, WriteFailed>
    requires { IsSearched question.now }
    ensures { IfOk result (WritesAnswer (asked_text form) asked_status
        (MayTellOver checked.now.layers (R.remaining reader.old) question.now)
        (W.contents writer.old) (W.contents writer.new)) }
{
    // The contract of `num_commits` says that the graph is right.
    let commits = checked.num_commits();
    let graph = checked.graph();
    let base = BaseOrNone {
        base: Some(InMemory::new(graph)),
    };
    let dates = dates_for(alloc, checked, question);
    let ranks = ranks_over(dates.as_ref(), commits);
    answer_over(
        alloc,
        graph.object_hash(),
        base,
        ranks,
        question,
        form,
        reader,
        writer,
    )
}

/// The corrected dates of a graph, where it has right ones, and the question asks for merge bases.
/// Where memory runs out, none are known.
fn dates_for(alloc: Global, checked: &Checked<'_>, question: &Question) -> Option<CorrectedDates>
    ensures { IfSome result (AreDatesOf checked.now.layers) }
{
    match question {
        Question::MergeBase(_, _) => checked.dates(alloc).ok()?,
        _ => None,
    }
}

/// The ranks by which merge bases are searched for over a graph with these dates, of which there
/// are so many.
fn ranks_over(dates: Option<&CorrectedDates>, commits: u32) -> Option<RanksOnTop<'_>>
    requires { IfSome (option_copied dates) (λ known. commits ≡ length known) }
    ensures { result ≡ option_copied dates.entry }
{
    let dates = dates?;
    Some(RanksOnTop::new(dates, commits))
}
