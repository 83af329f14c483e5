//! The commands, over a folder and a writer.

ghost use Rattle.std.specs.Prelude.{◌≡◌, IfOk, Ok};
ghost use Rattle.answer_lines.specs.Replies.{listed_reply, response_status, response_text};
ghost use Rattle.graph_commands.specs.OpenerAnswer.{MayOpen};
ghost use Rattle.graph_commands.specs.WrittenAnswer.{WritesAnswer};
ghost use Rattle.graph_unchecked.specs.Unread.{failures_after_reads};
ghost use Rattle.history_commands.specs.AskedOnce.{MayAskOnce};
ghost use Rattle.history_commands.specs.CheckedReplies.{IsSearched};
ghost use Rattle.history_commands.specs.SpelledQuestions.{spelled_name, spelled_texts};
ghost use Rattle.unchecked_commands.specs.OnlyAnswer.{IsReadByParts};
ghost use Rattle.unchecked_commands.specs.TrustedReplies.{IsReplyByParts, MayReplyTrusted};

use crate::by_parts::ask_by_parts;
use answer_lines::reply::{Form, Reply};
use gix_commitgraph::opening::OpenError;
use gix_hash_core::ObjectId;
use graph_commands::line::WriteFailed;
use graph_commands::refusal::Refusal;
use graph_commands::run::refuse;
use graph_folder::folder::Folder;
use graph_unchecked::trusted::TrustedGraph;
use graph_unchecked::unread::Unread;
use history_commands::SpelledQuestion;
use history_commands::run::run_question;
use question_lines::question::Question;
use std::alloc::Global;
use std::io::Write;

/// Answers a question whose ids are texts, in the lines of `run_spelled` of `history_commands` and
/// with its statuses, over a graph that is trusted: of its files only parts are read, and they are
/// not checked. Where they make a right graph, the answer is that of `run_spelled`. Where they do
/// not, a `yes`, the ids on a walk and each merge base, which is a common ancestor then, are still
/// there; but a walk need not be a shortest one, a base may be missing or not be a best one, and a
/// `no`, `none` or a number promises nothing.
///
/// Where parts do not suffice, or what was read cannot be that of a right graph, `run_spelled`
/// answers: it reads the files whole, and says why they are refused. A failed read is refused as
/// one of the opener, and want of memory as one of the search. `WriteFailed` comes where the writer
/// fails.
pub fn run_spelled_unchecked<T: Folder, W: Write>(
    alloc: Global,
    folder: &mut T,
    path: &str,
    question: SpelledQuestion<'_>,
    form: Form,
    writer: &mut W,
) -> Result<u8, WriteFailed>
    ensures written { IfOk result (WritesAnswer (response_text form) response_status
        (MayAskOnce (spelled_name question.entry) (spelled_texts question.entry)
        (folder.new ≡ folder.old) (MayReplyTrusted (MayOpen (T.tree folder.old) path.now)
        (T.failure_count folder.old) (T.failure_count folder.new)))
        (W.contents writer.old) (W.contents writer.new)) }
    ensures tree { T.tree folder.new ≡ T.tree folder.old }
{
    match question.read(alloc) {
        Ok(question) => run_question_unchecked(alloc, folder, path, &question, form, writer),
        Err(refusal) => refuse(writer, &refusal),
    }
}

/// Answers a question that asks for a search, by parts of the files of the graph that the path
/// opens; or where they do not suffice as `run_question` does.
fn run_question_unchecked<T: Folder, W: Write>(
    alloc: Global,
    folder: &mut T,
    path: &str,
    question: &Question,
    form: Form,
    writer: &mut W,
) -> Result<u8, WriteFailed>
    requires { IsSearched question.now }
    ensures written { IfOk result (WritesAnswer (response_text form) response_status
        (MayReplyTrusted (MayOpen (T.tree folder.old) path.now)
        (T.failure_count folder.old) (T.failure_count folder.new) question.now)
        (W.contents writer.old) (W.contents writer.new)) }
    ensures tree { T.tree folder.new ≡ T.tree folder.old }
{
    match reply_by_parts(alloc, folder, path, question) {
        Ok(reply) => reply.write(alloc, form, writer),
        Err(Unread::NotByParts) => run_question(alloc, folder, path, question, form, writer),
        Err(Unread::Device) => refuse(writer, &Refusal::Open(OpenError::Device)),
        Err(Unread::OutOfMemory) => refuse(writer, &Refusal::Walk),
    }
}

/// What parts of the files of the graph that the path opens answer to a question.
fn reply_by_parts<T: Folder>(
    alloc: Global,
    folder: &mut T,
    path: &str,
    question: &Question,
) -> Result<Reply<Vec<ObjectId>>, Unread>
    requires { IsSearched question.now }
    ensures reply { IfOk result (λ reply. IsReadByParts (MayOpen (T.tree folder.old) path.now)
        (T.failure_count folder.old) (T.failure_count folder.new)
        (λ layers. IsReplyByParts layers question.now) (Ok (listed_reply reply))) }
    ensures failures { T.failure_count folder.new
        ≡ failures_after_reads result (T.failure_count folder.old) }
    ensures tree { T.tree folder.new ≡ T.tree folder.old }
{
    match TrustedGraph::open(alloc, folder, path) {
        Ok(mut graph) => ask_by_parts(folder, &mut graph, question),
        Err(why) => Err(why),
    }
}
