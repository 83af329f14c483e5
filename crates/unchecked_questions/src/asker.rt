//! Who answers questions about the graph at a path, which is trusted.

ghost use Rattle.std.specs.Prelude.{◌≡◌, ◌≢◌, List, ℕ, Option, IfErr, IfOk, Ok, Err, OnOk, true};
ghost use Rattle.std.specs.Io.KnownBytes.{Appends};
ghost use Rattle.gix_commitgraph.specs.Opening.{MetNoFailure};
ghost use Rattle.gix_commitgraph.specs.Sound.{Sound};
ghost use Rattle.graph_commands.specs.Buffer.{with_buffer};
ghost use Rattle.graph_commands.specs.OpenerAnswer.{MayOpen};
ghost use Rattle.graph_folder.specs.Tree.{Tree};
ghost use Rattle.history_commands.specs.Check.{MayRefuseToStart};
ghost use Rattle.history_commands.specs.CheckedReplies.{TellsOver};
ghost use Rattle.question_answers.specs.Taken.{opened_line};
ghost use Rattle.unchecked_questions.specs.KeptGraphs.{IsKeptAt, MayStay, opened_count};
ghost use Rattle.unchecked_questions.specs.Trusting.{MayCount, MayTellAsked};

use answer_lines::reply::Form;
use gix_commitgraph::opening::OpenError;
use graph_commands::buffer::Buffer;
use graph_commands::line::{WriteFailed, write_line};
use graph_commands::refusal::Refusal;
use graph_folder::folder::Folder;
use graph_history::CheckedGraph;
use graph_unchecked::trusted::TrustedGraph;
use graph_unchecked::unread::Unread;
use history_commands::asker::CheckedAsker;
use history_commands::opening::open_checked;
use question_answers::asker::Asker;
use question_lines::question::Question;
use std::alloc::Global;
use std::io::Write;
use unchecked_commands::by_parts::ask_by_parts;

/// What is kept of a graph from one question to the next.
#[derive(Drop)]
pub(crate) enum Kept {
    /// The parts of its files that were read.
    Parts(TrustedGraph),
    /// All of it, which was checked.
    Whole(CheckedGraph),
    /// Nothing: it is opened for each question.
    Nothing,
}

/// A graph that was opened whole, and checked.
#[derive(Drop)]
struct Whole {
    graph: CheckedGraph,
    /// Whether it may answer more than one question: whether no read failed.
    stays: bool,
}

impl Whole {
    /// What is kept of it.
    fn keep(self) -> Kept
        ensures { (known : Option Tree) (path : List ℕ) → Sound self.graph.layers
            → (self.stays ≡ true → MayStay known path self.graph.layers)
            → IsKeptAt known path result }
    {
        if self.stays {
            Kept::Whole(self.graph)
        } else {
            Kept::Nothing
        }
    }
}

/// A graph that was opened.
#[derive(Drop)]
pub(crate) struct Opened {
    /// What is kept of it.
    pub(crate) kept: Kept,
    /// How many commits it has.
    pub(crate) commits: u32,
}

/// Answers questions about the graph at a path: by parts of its files, or where they do not suffice
/// over the whole of it, which is checked.
#[derive(Drop)]
pub(crate) struct TrustedAsker<'p> {
    pub(crate) alloc: Global,
    pub(crate) path: &'p str,
    pub(crate) kept: Kept,
}

impl Asker for TrustedAsker<'_> {
    ghost use Rattle.std.specs.Prelude.{ℕ, List};
    ghost use Rattle.graph_commands.specs.OpenerAnswer.{MayOpen};
    ghost use Rattle.unchecked_questions.specs.KeptGraphs.{IsKeptAt};
    ghost use Rattle.unchecked_questions.specs.Trusting.{MayTellAsked};

    ghost Known = { List ℕ };

    ghost known = { λ asker. asker.path.now };

    ghost is_of = { λ asker tree. IsKeptAt tree asker.path.now asker.kept };

    ghost may_tell = { λ path tree. MayTellAsked (MayOpen tree path) };

    fn answer<T: Folder, W: Write>(
        &mut self,
        folder: &mut T,
        question: &Question,
        buffer: &mut Buffer,
        writer: &mut W,
    ) -> Result<(), WriteFailed> {
        let kept = &mut self.kept;
        answer_question(
            self.alloc, folder, self.path, kept, question, buffer, writer,
        )
    }
}

/// Opens the graph at the path by parts; or where they do not suffice whole, to check it.
pub(crate) fn open_trusted<T: Folder>(
    alloc: Global,
    folder: &mut T,
    path: &str,
) -> Result<Opened, Refusal>
    ensures count { MayCount (MayOpen (T.tree folder.old) path.now)
        (T.failure_count folder.old) (T.failure_count folder.new)
        (opened_count result) }
    ensures kept { IfOk result (λ opened. IsKeptAt (T.tree folder.old) path.now opened.kept) }
    ensures tree { T.tree folder.new ≡ T.tree folder.old }
{
    match TrustedGraph::open(alloc, folder, path) {
        Ok(graph) => {
            let commits = graph.num_commits();
            Ok(Opened {
                kept: Kept::Parts(graph),
                commits,
            })
        }
        Err(Unread::Device) => Err(Refusal::Open(OpenError::Device)),
        Err(Unread::OutOfMemory) => Err(Refusal::Walk),
        Err(Unread::NotByParts) => match open_whole(alloc, folder, path) {
            Ok(whole) => {
                let commits = whole.graph.as_checked().num_commits();
                Ok(Opened {
                    kept: whole.keep(),
                    commits,
                })
            }
            Err(refusal) => Err(refusal),
        },
    }
}

/// Opens the graph at the path whole, and checks it.
fn open_whole<T: Folder>(alloc: Global, folder: &mut T, path: &str) -> Result<Whole, Refusal>
    ensures opened { IfOk result (λ whole.
        MayOpen (T.tree folder.old) path.now (T.failure_count folder.old)
        (T.failure_count folder.new) (Ok whole.graph.layers)) }
    ensures right { IfOk result (λ whole. Sound whole.graph.layers) }
    ensures stays { IfOk result (λ whole. whole.stays ≡ true
        → MayStay (T.tree folder.old) path.now whole.graph.layers) }
    ensures refused { IfErr result (MayRefuseToStart
        (MayOpen (T.tree folder.old) path.now (T.failure_count folder.old)
        (T.failure_count folder.new))) }
    ensures tree { T.tree folder.new ≡ T.tree folder.old }
{
    let failures = folder.failures();
    match open_checked(alloc, folder, path) {
        Ok(graph) => Ok(Whole {
            graph,
            stays: has_met_none(folder, failures),
        }),
        Err(refusal) => Err(refusal),
    }
}

/// Whether a folder, in which so many reads had failed, has met no failure since.
fn has_met_none<T: Folder>(folder: &T, failures: u64) -> bool
    ensures { result ≡ true → MetNoFailure failures (T.failure_count folder.now) }
{
    failures < u64::MAX && folder.failures() <= failures
}

/// Adds the lines of the answer to a question, which does not ask for the graph to be opened anew:
/// by parts, where they suffice.
fn answer_question<T: Folder, W: Write>(
    alloc: Global,
    folder: &mut T,
    path: &str,
    kept: &mut Kept,
    question: &Question,
    buffer: &mut Buffer,
    writer: &mut W,
) -> Result<(), WriteFailed>
    requires asks { question.now ≢ Question.Reload }
    requires kept { IsKeptAt (T.tree folder.old) path.now kept.old }
    ensures told { OnOk result ((told : List ℕ)
        × MayTellAsked (MayOpen (T.tree folder.old) path.now)
        (T.failure_count folder.old) (T.failure_count folder.new) question.now told
        × Appends (with_buffer (W.contents writer.old) buffer.old)
        (with_buffer (W.contents writer.new) buffer.new) told) }
    ensures kept { IsKeptAt (T.tree folder.old) path.now kept.new }
    ensures tree { T.tree folder.new ≡ T.tree folder.old }
{
    match kept {
        Kept::Parts(parts) => match ask_by_parts(folder, parts, question) {
            Ok(reply) => reply.push(Form::Whole, buffer, writer),
            Err(Unread::Device) => {
                push_refusal(buffer, writer, &Refusal::Open(OpenError::Device))
            }
            Err(Unread::OutOfMemory) => push_refusal(buffer, writer, &Refusal::Walk),
            Err(Unread::NotByParts) => {
                answer_checked(alloc, folder, path, kept, question, buffer, writer)
            }
        },
        Kept::Whole(graph) => answer_whole(alloc, graph, question, buffer, writer),
        Kept::Nothing => answer_checked(alloc, folder, path, kept, question, buffer, writer),
    }
}

/// Opens the graph at the path whole, checks it, and adds the lines of the answer to a question
/// over it, or why it is refused. The graph stays, where no read failed.
fn answer_checked<T: Folder, W: Write>(
    alloc: Global,
    folder: &mut T,
    path: &str,
    kept: &mut Kept,
    question: &Question,
    buffer: &mut Buffer,
    writer: &mut W,
) -> Result<(), WriteFailed>
    requires asks { question.now ≢ Question.Reload }
    requires kept { IsKeptAt (T.tree folder.old) path.now kept.old }
    ensures told { OnOk result ((told : List ℕ)
        × MayTellAsked (MayOpen (T.tree folder.old) path.now)
        (T.failure_count folder.old) (T.failure_count folder.new) question.now told
        × Appends (with_buffer (W.contents writer.old) buffer.old)
        (with_buffer (W.contents writer.new) buffer.new) told) }
    ensures kept { IsKeptAt (T.tree folder.old) path.now kept.new }
    ensures tree { T.tree folder.new ≡ T.tree folder.old }
{
    let whole = match open_whole(alloc, folder, path) {
        Ok(whole) => whole,
        Err(refusal) => return push_refusal(buffer, writer, &refusal),
    };
    answer_whole(alloc, &whole.graph, question, buffer, writer)?;
    *kept = whole.keep();
    Ok(())
}

/// Adds the lines of the answer to a question over a graph that was checked.
fn answer_whole<W: Write>(
    alloc: Global,
    graph: &CheckedGraph,
    question: &Question,
    buffer: &mut Buffer,
    writer: &mut W,
) -> Result<(), WriteFailed>
    requires { question.now ≢ Question.Reload }
    ensures { OnOk result ((told : List ℕ) × TellsOver graph.now.layers question.now told
        × Appends (with_buffer (W.contents writer.old) buffer.old)
        (with_buffer (W.contents writer.new) buffer.new) told) }
{
    let graph = graph.as_checked();
    CheckedAsker::new(alloc, &graph).tell(question, buffer, writer)
}

/// Adds the line of a refusal.
fn push_refusal<W: Write>(
    buffer: &mut Buffer,
    writer: &mut W,
    refusal: &Refusal,
) -> Result<(), WriteFailed>
    ensures { OnOk result (Appends (with_buffer (W.contents writer.old) buffer.old)
        (with_buffer (W.contents writer.new) buffer.new) (opened_line (Err refusal.now))) }
{
    buffer.write_out(writer)?;
    write_line(writer, refusal)
}
