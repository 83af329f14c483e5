//! What is told once nothing more is asked for, whatever the commits stand on.

ghost use Rattle.std.specs.Prelude.{◌≡◌, ◌≢◌, ◌+◌, ◌<◌, ◌^◌, ℕ, List, Err, IfOk, OnErr, OnOk};
ghost use Rattle.std.specs.Io.KnownBytes.{Appends};
ghost use Rattle.answer_lines.specs.declared.reply.Form as shown;
ghost use Rattle.graph_commands.specs.Text.{◌⧺◌, newline};
ghost use Rattle.graph_commands.specs.WrittenAnswer.{WritesAnswer};
ghost use Rattle.newer_commands.specs.AskedNewer.{IsRefusedAtOnce};
ghost use Rattle.newer_commands.specs.AskedReply.{IsToldFor, IsVerdictOf, asked_status};
ghost use Rattle.newer_commands.specs.AskedReply.{asked_text, listed_told, listed_verdict};
ghost use Rattle.newer_commands.specs.AskedReply.{status_of_verdict, verdict_text};

use crate::refusal::NewerRefusal;
use answer_lines::reply::{Form, Reply};
use answers::Answer;
use commit_requests::CompleteError;
use gix_hash_core::ObjectId;
use graph_commands::line::{WriteFailed, write_line};
use graph_commands::refusal::Refusal;
use graph_folder::folder::ReadError;
use std::alloc::Global;
use std::io::Write;

/// An answer, or why there is none.
pub type Verdict = Result<Reply<Vec<ObjectId>>, NewerRefusal>;

/// What is told where commits are not all there; or the error of the base, which is told otherwise
/// over each. `WriteFailed` comes exactly where a write failed.
pub fn verdict_of<E>(error: CompleteError<E>) -> Result<Result<Verdict, E>, WriteFailed>
    requires few { (number : ℕ) → error ≡ CompleteError.Unknown number → number + 1 < 2 ^ 64 }
    requires kept { (id : List ℕ) → error ≢ CompleteError.Lost id }
    ensures told { IfOk result (λ told. IsVerdictOf error (listed_told told)) }
    ensures failed { OnErr result (error ≡ CompleteError.WriteFailed) }
{
    match error {
        CompleteError::Unknown(number) => {
            Ok(Ok(Ok(Reply::Told(Answer::Unknown(number as u64 + 1)))))
        }
        CompleteError::Entry(id, error) => Ok(Ok(Err(NewerRefusal::Entry(id, error)))),
        CompleteError::Unreadable(id) => Ok(Ok(Err(NewerRefusal::Unreadable(id)))),
        CompleteError::Cycle(id) => Ok(Ok(Err(NewerRefusal::Cycle(id)))),
        CompleteError::Full => Ok(Ok(Err(NewerRefusal::Full))),
        CompleteError::OutOfMemory => Ok(Ok(Err(NewerRefusal::Common(Refusal::Walk)))),
        CompleteError::Device => {
            let device = Refusal::Read(ReadError::Device);
            Ok(Ok(Err(NewerRefusal::Common(device))))
        }
        CompleteError::WriteFailed => Err(WriteFailed),
        CompleteError::Lost(_) => unreachable!(),
        CompleteError::Source(error) => Ok(Err(error)),
    }
}

/// Writes an empty line, which ends what is asked for, and then the lines of the answer, or why
/// there is none, and answers the exit status. Where there is no memory to write an answer, that is
/// told in its place. `WriteFailed` comes where the writer fails.
pub fn tell_at_last<W: Write>(
    alloc: Global,
    form: Form,
    verdict: &Verdict,
    writer: &mut W,
) -> Result<u8, WriteFailed>
    ensures { IfOk result (WritesAnswer (λ told. newline ⧺ verdict_text form told) status_of_verdict
        (IsToldFor (listed_verdict verdict.now))
        (W.contents writer.old) (W.contents writer.new)) }
{
    end_requests(writer)?;
    match verdict {
        Ok(reply) => reply.write(alloc, form, writer),
        Err(refusal) => tell_refusal(refusal, writer),
    }
}

/// Writes the empty line where nothing is asked for, and the line of a refusal, and answers its
/// exit status. `WriteFailed` comes where the writer fails.
pub fn refuse_at_once<W: Write>(refusal: Refusal, writer: &mut W) -> Result<u8, WriteFailed>
    ensures { (form : shown.Form) → IfOk result (WritesAnswer (asked_text form) asked_status
        (IsRefusedAtOnce refusal) (W.contents writer.old) (W.contents writer.new)) }
{
    end_requests(writer)?;
    tell_refusal(&NewerRefusal::Common(refusal), writer)
}

/// Writes the line of a refusal, and answers its exit status. `WriteFailed` comes where the writer
/// fails.
fn tell_refusal<W: Write>(refusal: &NewerRefusal, writer: &mut W) -> Result<u8, WriteFailed>
    ensures { (form : shown.Form) → IfOk result (WritesAnswer (verdict_text form) status_of_verdict
        (λ told. told ≡ Err refusal.now) (W.contents writer.old) (W.contents writer.new)) }
{
    write_line(writer, refusal)?;
    Ok(refusal.status())
}

/// Writes the empty line that ends what is asked for. `WriteFailed` comes where the writer fails.
fn end_requests<W: Write>(writer: &mut W) -> Result<(), WriteFailed>
    ensures { OnOk result (Appends (W.contents writer.old) (W.contents writer.new) newline) }
{
    writer.write_all(b"\n")?;
    Ok(())
}
