//! What the programs have in common: a command that the words ask for is run, and for other words
//! and a failed write a line is written to standard error.

ghost use Rattle.std.specs.Prelude.{◌≡◌, ◌⊎◌, ℕ, List, Result, Option, IfOk, IfSome, IsNone};
ghost use Rattle.graph_format.specs.Layer.{Layer};
ghost use Rattle.graph_layer.specs.declared.opening.error.OpenError.{OpenError};
ghost use Rattle.graph_commands.specs.OpenerAnswer.{MayOpen};
ghost use Rattle.graph_commands.specs.WrittenAnswer.{Complains};

use crate::line::{WriteFailed, write_line};
use crate::status::Status;
use graph_folder::folder::Folder;
use std::alloc::Global;
use std::io::{Read, Write};

/// A command that a program can run.
pub trait Run {
    /// What the command may write, and with which status: given the bytes that the input has left
    /// before and after, where they are known; that the folder is as it was before; what the opener
    /// may answer at a path while the count of device failures goes from one number to another; the
    /// count before and after; and what the output holds before and after, where that is known.
    ghost MayWrite: { Self → Option (List ℕ) → Option (List ℕ) → Type 0
        → (List ℕ → ℕ → ℕ → Result (List Layer) OpenError → Type 0) → ℕ → ℕ
        → Option (List ℕ) → Option (List ℕ) → ℕ → Type 0 };

    /// Runs the command, and answers its exit status. `WriteFailed` comes where the output fails.
    fn run<R: Read, T: Folder, W: Write>(
        self,
        alloc: Global,
        input: &mut R,
        folder: &mut T,
        output: &mut W,
    ) -> Result<u8, WriteFailed>
        ensures written { IfOk result (MayWrite self
            (R.remaining input.old) (R.remaining input.new) (folder.new ≡ folder.old)
            (MayOpen (T.tree folder.old)) (T.failure_count folder.old) (T.failure_count folder.new)
            (W.contents output.old) (W.contents output.new)) }
        ensures tree { T.tree folder.new ≡ T.tree folder.old };
}

/// What a program writes to standard error: lines, without their ends.
#[derive(Clone, Copy, Debug)]
pub struct Complaints<'a> {
    /// The words are no command.
    pub usage: &'a str,
    /// The output could not be written.
    pub write_failed: &'a str,
}

/// Runs the command that the words of a command line ask for, if they ask for one, over an input, a
/// folder and an output, and answers the exit status.
///
/// The output gets the answer of the command, and nothing else. Where there is no command, and
/// where the output fails, standard error gets one line, and the status is 2. `WriteFailed` comes
/// where standard error fails.
pub fn respond<C: Run, R: Read, T: Folder, W: Write, E: Write>(
    alloc: Global,
    command: Option<C>,
    complaints: Complaints<'_>,
    input: &mut R,
    folder: &mut T,
    output: &mut W,
    errors: &mut E,
) -> Result<u8, WriteFailed>
    ensures refused { IsNone command → IfOk result (Complains complaints.entry.usage.now
        (E.contents errors.old) (E.contents errors.new)) }
    ensures untouched { IsNone command → (input.new ≡ input.old) × (folder.new ≡ folder.old)
        × (output.new ≡ output.old) }
    ensures answered { IfSome command (λ command. IfOk result (λ status.
        (C.MayWrite command (R.remaining input.old) (R.remaining input.new)
        (folder.new ≡ folder.old)
        (MayOpen (T.tree folder.old)) (T.failure_count folder.old) (T.failure_count folder.new)
        (W.contents output.old) (W.contents output.new) status × (errors.new ≡ errors.old))
        ⊎ Complains complaints.entry.write_failed.now
        (E.contents errors.old) (E.contents errors.new) status)) }
    ensures tree { T.tree folder.new ≡ T.tree folder.old }
{
    match command {
        Some(command) => match command.run(alloc, input, folder, output) {
            Ok(status) => Ok(status),
            Err(WriteFailed) => complain(errors, complaints.write_failed),
        },
        None => complain(errors, complaints.usage),
    }
}

/// Writes a line that says why there is no answer, and answers the exit status. `WriteFailed` comes
/// where the writer fails.
fn complain<E: Write>(errors: &mut E, line: &str) -> Result<u8, WriteFailed>
    ensures { IfOk result
        (Complains line.now (E.contents errors.old) (E.contents errors.new)) }
{
    write_line(errors, line)?;
    Ok(Status::Failed as u8)
}
