//! Lines that are answered over one graph.

ghost use Rattle.std.specs.Prelude.{◌≡◌, [], ℕ, List, Option, IfOk, OnOk, true, false};
ghost use Rattle.std.specs.Io.KnownBytes.{prepend_known};
ghost use Rattle.question_answers.specs.AnsweredLines.{AddsTold, AreAnswered, MayBeTold, StopsAt};
ghost use Rattle.question_lines.specs.Questions.{Asks};

use crate::asker::Asker;
use crate::turn::finish;
use graph_commands::buffer::Buffer;
use graph_commands::line::WriteFailed;
use graph_folder::folder::{Folder, ReadError};
use question_lines::lines::LineReader;
use question_lines::question::{Question, read_question};
use std::alloc::Global;
use std::io::{Read, Write};

/// Why lines are no longer answered over a graph.
#[derive(Drop)]
pub enum Next {
    /// There is no line any more.
    End,
    /// No line could be read.
    Failed(ReadError),
    /// A line asks for the graph to be opened anew.
    Reload,
}

/// Answers lines by an asker, until none is left, or one asks for the graph to be opened anew. Each
/// answer ends with an empty line, and is flushed with it. `WriteFailed` comes where the writer
/// fails.
pub fn answer_by<A: Asker, T: Folder, R: Read, W: Write>(
    alloc: Global,
    asker: &mut A,
    folder: &mut T,
    lines: &mut LineReader,
    reader: &mut R,
    buffer: &mut Buffer,
    writer: &mut W,
) -> Result<Next, WriteFailed>
    requires buffer { buffer.old ≡ [] }
    requires of { A.is_of asker.old (T.tree folder.old) }
    ensures answered { IfOk result (λ next. (left : Option (List ℕ))
        × AreAnswered (MayBeTold (A.may_tell (A.known asker.old) (T.tree folder.old)))
        (T.failure_count folder.old) (T.failure_count folder.new)
        (prepend_known lines.old.ahead (R.remaining reader.old)) left
        (W.contents writer.old) (W.contents writer.new)
        × StopsAt left (prepend_known lines.new.ahead (R.remaining reader.new)) next) }
    ensures buffer { OnOk result (buffer.new ≡ []) }
    ensures known { A.known asker.new ≡ A.known asker.old }
    ensures of { A.is_of asker.new (T.tree folder.old) }
    ensures tree { T.tree folder.new ≡ T.tree folder.old }
{
    for _ in 0..u64::MAX {
        let more = match lines.read(reader) {
            Ok(more) => more,
            Err(error) => return Ok(Next::Failed(error)),
        };
        if !more {
            return Ok(Next::End);
        }
        if !answer_line(alloc, asker, folder, lines.line(), buffer, writer)? {
            return Ok(Next::Reload);
        }
    }
    Ok(Next::Failed(ReadError::Device))
}

/// Answers a line, and returns `true`; or `false`, and nothing is written, where the line asks for
/// the graph to be opened anew.
fn answer_line<A: Asker, T: Folder, W: Write>(
    alloc: Global,
    asker: &mut A,
    folder: &mut T,
    line: &[u8],
    buffer: &mut Buffer,
    writer: &mut W,
) -> Result<bool, WriteFailed>
    requires buffer { buffer.old ≡ [] }
    requires of { A.is_of asker.old (T.tree folder.old) }
    ensures told { IfOk result (λ told. told ≡ true → AddsTold
        (MayBeTold (A.may_tell (A.known asker.old) (T.tree folder.old))
        (T.failure_count folder.old) (T.failure_count folder.new) line.now)
        (W.contents writer.old) (W.contents writer.new)) }
    ensures reload { IfOk result (λ told. told ≡ false → Asks line.now Question.Reload
        × (writer.new ≡ writer.old) × (folder.new ≡ folder.old)) }
    ensures buffer { OnOk result (buffer.new ≡ []) }
    ensures known { A.known asker.new ≡ A.known asker.old }
    ensures of { A.is_of asker.new (T.tree folder.old) }
    ensures tree { T.tree folder.new ≡ T.tree folder.old }
{
    match read_question(alloc, line) {
        Ok(Some(Question::Reload)) => Ok(false),
        Ok(Some(question)) => {
            asker.answer(folder, &question, buffer, writer)?;
            finish(buffer, writer)
        }
        Ok(None) => {
            buffer.push_text(writer, "refused question\n")?;
            finish(buffer, writer)
        }
        Err(_) => {
            buffer.push_text(writer, "refused walk\n")?;
            finish(buffer, writer)
        }
    }
}
