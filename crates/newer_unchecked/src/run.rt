//! The commands, over a folder, a reader and a writer.

ghost use Rattle.std.specs.Prelude.{◌≡◌, IfOk, option_map};
ghost use Rattle.std.specs.Io.KnownBytes.{Keeps};
ghost use Rattle.graph_commands.specs.OpenerAnswer.{MayOpen, MayOpenIn};
ghost use Rattle.graph_commands.specs.WrittenAnswer.{WritesAnswer};
ghost use Rattle.graph_unchecked.specs.Trusted.{IsTrustedAt};
ghost use Rattle.history_commands.specs.CheckedReplies.{IsSearched};
ghost use Rattle.history_commands.specs.SpelledQuestions.{spelled_name, spelled_texts};
ghost use Rattle.newer_commands.specs.AskedNewer.{MayAskNewer};
ghost use Rattle.newer_commands.specs.AskedReply.{asked_status, asked_text};
ghost use Rattle.newer_unchecked.specs.TrustedOnTop.{IsRefusalOfWhole, IsToldByParts};
ghost use Rattle.newer_unchecked.specs.TrustedOnTop.{MayReplyTrustedNewer};

use crate::by_parts::find_by_parts;
use answer_lines::reply::Form;
use gix_commitgraph::opening::OpenError;
use graph_commands::line::WriteFailed;
use graph_commands::refusal::Refusal;
use graph_folder::folder::Folder;
use graph_unchecked::trusted::TrustedGraph;
use graph_unchecked::unread::Unread;
use history_commands::SpelledQuestion;
use history_commands::opening::open_checked;
use newer_commands::NewerRefusal;
use newer_commands::run::run_question_newer;
use newer_commands::verdict::{refuse_at_once, tell_at_last};
use question_lines::question::Question;
use std::alloc::Global;
use std::io::{Read, Write};

/// Answers a question whose ids are texts, in the lines of `run_spelled_newer` of `newer_commands`
/// and with its statuses, over a graph that is trusted: of its files only parts are read, and they
/// are not checked. Where they make a right graph, the answer is that of `run_spelled_newer`. Where
/// they do not, a `yes`, the ids on a walk and each merge base, which is a common ancestor then,
/// are still there; but a walk need not be a shortest one, a base may be missing or not be a best
/// one, and a `no`, `none` or a number promises nothing.
///
/// Where parts do not suffice to begin, or there is no path, `run_spelled_newer` answers. Where
/// they do not suffice later, the whole graph is opened and checked, and it is told why it is
/// refused, or that it has changed meanwhile: then one can ask again. A failed read of the graph is
/// refused as one of the opener. `WriteFailed` comes where the writer fails.
pub fn run_spelled_newer_unchecked<T: Folder, R: Read, W: Write>(
    alloc: Global,
    folder: &mut T,
    path: Option<&str>,
    question: SpelledQuestion<'_>,
    form: Form,
    reader: &mut R,
    writer: &mut W,
) -> Result<u8, WriteFailed>
    ensures written { IfOk result (WritesAnswer (asked_text form) asked_status
        (MayAskNewer (spelled_name question.entry) (spelled_texts question.entry)
        ((folder.new ≡ folder.old) × Keeps (R.remaining reader.old) (R.remaining reader.new))
        (MayReplyTrustedNewer (option_map (λ p. p.now) path.entry) (folder.new ≡ folder.old)
        (λ at. MayOpen (T.tree folder.old) at)
        (T.failure_count folder.old) (T.failure_count folder.new)
        (R.remaining reader.old) (R.remaining reader.new)))
        (W.contents writer.old) (W.contents writer.new)) }
    ensures tree { T.tree folder.new ≡ T.tree folder.old }
{
    match question.read(alloc) {
        Ok(question) => run_question_newer_unchecked(
            alloc, folder, path, &question, form, reader, writer,
        ),
        Err(refusal) => refuse_at_once(refusal, writer),
    }
}

/// Answers a question that asks for a search, by parts of the files of the graph that the path
/// opens, and over the commits that it lacks, for which it asks; or as `run_question_newer` does,
/// where there is no path, or parts do not suffice to begin. The answer is the exit status.
/// `WriteFailed` comes where the writer fails.
pub fn run_question_newer_unchecked<T: Folder, R: Read, W: Write>(
    alloc: Global,
    folder: &mut T,
    path: Option<&str>,
    question: &Question,
    form: Form,
    reader: &mut R,
    writer: &mut W,
) -> Result<u8, WriteFailed>
    requires { IsSearched question.now }
    ensures written { IfOk result (WritesAnswer (asked_text form) asked_status
        (MayReplyTrustedNewer (option_map (λ p. p.now) path.entry) (folder.new ≡ folder.old)
        (λ at. MayOpen (T.tree folder.old) at)
        (T.failure_count folder.old) (T.failure_count folder.new)
        (R.remaining reader.old) (R.remaining reader.new) question.now)
        (W.contents writer.old) (W.contents writer.new)) }
    ensures tree { T.tree folder.new ≡ T.tree folder.old }
{
    let Some(path) = path else {
        return run_question_newer(alloc, folder, None, question, form, reader, writer);
    };
    match TrustedGraph::open(alloc, folder, path) {
        Ok(graph) => tell_by_parts(alloc, folder, path, graph, question, form, reader, writer),
        Err(Unread::NotByParts) => {
            run_question_newer(alloc, folder, Some(path), question, form, reader, writer)
        }
        Err(Unread::Device) => refuse_at_once(Refusal::Open(OpenError::Device), writer),
        Err(Unread::OutOfMemory) => refuse_at_once(Refusal::Walk, writer),
    }
}

/// Answers a question that asks for a search, by parts of the files of a graph that was opened at
/// the path, and over the commits that it lacks. The answer is the exit status. `WriteFailed` comes
/// where the writer fails.
fn tell_by_parts<T: Folder, R: Read, W: Write>(
    alloc: Global,
    folder: &mut T,
    path: &str,
    mut graph: TrustedGraph,
    question: &Question,
    form: Form,
    reader: &mut R,
    writer: &mut W,
) -> Result<u8, WriteFailed>
    requires asks { IsSearched question.now }
    requires graph { IsTrustedAt (T.tree folder.old) path.now graph }
    ensures written { IfOk result (WritesAnswer (asked_text form) asked_status
        (IsToldByParts (MayOpen (T.tree folder.old) path.now)
        (T.failure_count folder.old) (T.failure_count folder.new)
        (R.remaining reader.old) question.now)
        (W.contents writer.old) (W.contents writer.new)) }
    ensures tree { T.tree folder.new ≡ T.tree folder.old }
{
    let found = find_by_parts(alloc, folder, &mut graph, question, reader, writer)?;
    match found {
        Some(verdict) => tell_at_last(alloc, form, &verdict, writer),
        None => {
            let refusal = refusal_of_whole(alloc, folder, path);
            tell_at_last(alloc, form, &Err(refusal), writer)
        }
    }
}

/// Why the whole graph at the path is refused, which is opened and checked; or that it has changed,
/// as it is right now.
fn refusal_of_whole<T: Folder>(alloc: Global, folder: &mut T, path: &str) -> NewerRefusal
    ensures refusal { IsRefusalOfWhole (MayOpenIn T.Folder folder.old folder.new path.now) result }
    ensures tree { T.tree folder.new ≡ T.tree folder.old }
{
    match open_checked(alloc, folder, path) {
        Ok(_) => NewerRefusal::Changed,
        Err(refusal) => NewerRefusal::Common(refusal),
    }
}
