//! The commands, over a folder and a writer.

ghost use Rattle.std.specs.Prelude.{◌≡◌, IfOk};
ghost use Rattle.answer_lines.specs.Replies.{response_status, response_text};
ghost use Rattle.graph_commands.specs.OpenerAnswer.{MayOpenIn};
ghost use Rattle.graph_commands.specs.WrittenAnswer.{WritesAnswer};
ghost use Rattle.history_commands.specs.AskedOnce.{MayAskOnce, MayReplyAt};
ghost use Rattle.history_commands.specs.CheckedReplies.{IsSearched};
ghost use Rattle.history_commands.specs.SpelledQuestions.{spelled_name, spelled_texts};

use crate::asker::CheckedAsker;
pub use crate::check::run_check;
use crate::opening::open_checked;
use crate::spelled::SpelledQuestion;
use answer_lines::reply::Form;
use graph_commands::line::WriteFailed;
use graph_commands::refusal::Refusal;
use graph_commands::run::refuse;
use graph_folder::folder::Folder;
use question_lines::question::Question;
use std::alloc::Global;
use std::io::Write;

/// Answers a question whose ids are texts, in the graph that the path opens, which is checked
/// first. It writes the lines of the answer; or which id is not in the graph; or why the question
/// is refused. A text that is no id opens nothing. The answer is the exit status. `WriteFailed`
/// comes where the writer fails.
///
/// `IsAncestor` is answered with `yes` or `no`. `Walk` is answered with the ids on a shortest walk,
/// a line for each, or `none`. `MergeBase` is answered with the position and the id of each merge
/// base, a line for each, or `none`; then how many commits are ahead, and behind; then how many
/// were visited. Where the ids are asked for alone, they stand there alone, a line for each, or
/// `none`.
pub fn run_spelled<T: Folder, W: Write>(
    alloc: Global,
    folder: &mut T,
    path: &str,
    question: SpelledQuestion<'_>,
    form: Form,
    writer: &mut W,
) -> Result<u8, WriteFailed>
    ensures written { IfOk result (WritesAnswer (response_text form) response_status
        (MayAskOnce (spelled_name question.entry) (spelled_texts question.entry)
        (folder.new ≡ folder.old)
        (MayReplyAt (MayOpenIn T.Folder folder.old folder.new path.now)))
        (W.contents writer.old) (W.contents writer.new)) }
    ensures tree { T.tree folder.new ≡ T.tree folder.old }
{
    match question.read(alloc) {
        Ok(question) => run_question(alloc, folder, path, &question, form, writer),
        Err(refusal) => refuse(writer, &refusal),
    }
}

/// Answers a question that asks for a search, in the graph that the path opens, which is checked
/// first: it writes the lines of the answer, or why the question is refused. The answer is the exit
/// status. `WriteFailed` comes where the writer fails.
pub fn run_question<T: Folder, W: Write>(
    alloc: Global,
    folder: &mut T,
    path: &str,
    question: &Question,
    form: Form,
    writer: &mut W,
) -> Result<u8, WriteFailed>
    requires { IsSearched question.now }
    ensures written { IfOk result (WritesAnswer (response_text form) response_status
        (MayReplyAt (MayOpenIn T.Folder folder.old folder.new path.now) question.now)
        (W.contents writer.old) (W.contents writer.new)) }
    ensures tree { T.tree folder.new ≡ T.tree folder.old }
{
    let graph = match open_checked(alloc, folder, path) {
        Ok(graph) => graph,
        Err(refusal) => return refuse(writer, &refusal),
    };
    let checked = graph.as_checked();
    let mut asker = CheckedAsker::new(alloc, &checked);
    match asker.search(question) {
        Ok(reply) => reply.write(alloc, form, writer),
        Err(refusal) => refuse(writer, &refusal),
    }
}
