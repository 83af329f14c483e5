//! What is answered to a question about commits.

ghost use Rattle.std.specs.Prelude.{◌≡◌, IfOk, OnOk};
ghost use Rattle.std.specs.Io.KnownBytes.{Appends};
ghost use Rattle.answer_lines.specs.AnswerLines.{has_bases};
ghost use Rattle.answer_lines.specs.Replies.{IsKnown, is_yes, listed_reply, missing_of};
ghost use Rattle.answer_lines.specs.Replies.{reply_status};
ghost use Rattle.answer_lines.specs.Replies.{reply_text, response_status, response_text};
ghost use Rattle.graph_commands.specs.Buffer.{with_buffer};
ghost use Rattle.graph_commands.specs.WrittenAnswer.{IsToldOf, WritesAnswer};

use crate::push::{push_compared, push_found, push_parents, push_told, push_walk};
use answers::{Answer, IdComparison};
use gix_hash_core::ObjectId;
use graph_commands::buffer::Buffer;
use graph_commands::line::{WriteFailed, write_line};
use graph_commands::refusal::Refusal;
use graph_commands::report::Found;
use graph_commands::run::refuse;
use graph_commands::status::Status;
use graph_format::Position;
use std::alloc::Global;
use std::io::Write;

/// What is answered to a question about the commits with some ids. `I` is a list of ids.
#[derive(Debug, Drop)]
pub enum Reply<I> {
    /// The commit with an id, or that there is none.
    Found(Option<Found>),
    /// Whether a commit is an ancestor of another, or the same.
    Told(Answer<bool>),
    /// The ids on a walk, or that there is none.
    Walk(Answer<Option<I>>),
    /// What commits have in common.
    Compared(Answer<IdComparison<I>>),
    /// The ids of the parents of a commit.
    Parents(Answer<I>),
}

/// How merge bases are told.
#[derive(Clone, Copy, Debug)]
pub enum Form {
    /// Each by its position and its id, and then how far the commits have come apart.
    Whole,
    /// By their ids alone.
    IdsAlone,
}

impl Reply<Vec<ObjectId>> {
    /// Adds the lines of the answer, and allocates nothing. `WriteFailed` comes where the writer
    /// fails.
    pub fn push<W: Write>(
        &self,
        form: Form,
        buffer: &mut Buffer,
        writer: &mut W,
    ) -> Result<(), WriteFailed>
        ensures { OnOk result (Appends (with_buffer (W.contents writer.old) buffer.old)
            (with_buffer (W.contents writer.new) buffer.new)
            (reply_text form (listed_reply self.now))) }
    {
        match self {
            Reply::Found(found) => push_found(buffer, writer, *found),
            Reply::Told(told) => push_told(buffer, writer, told),
            Reply::Walk(walk) => push_walk(buffer, writer, walk),
            Reply::Compared(compared) => push_compared(form, buffer, writer, compared),
            Reply::Parents(parents) => push_parents(buffer, writer, parents),
        }
    }

    /// Writes the lines of the answer, and answers the exit status. They go through a buffer; where
    /// there is no memory for one, that is told in their place, unless an id is missing: this needs
    /// none. `WriteFailed` comes where the writer fails.
    pub fn write<W: Write>(
        &self,
        alloc: Global,
        form: Form,
        writer: &mut W,
    ) -> Result<u8, WriteFailed>
        ensures { IfOk result (WritesAnswer (response_text form) response_status
            (IsToldOf IsKnown (listed_reply self.now))
            (W.contents writer.old) (W.contents writer.new)) }
    {
        match Buffer::new(alloc) {
            Ok(mut buffer) => {
                self.push(form, &mut buffer, writer)?;
                buffer.write_out(writer)?;
                Ok(self.status())
            }
            Err(_) => self.write_unbuffered(writer),
        }
    }

    /// Writes which id is missing, or that there is no memory for more, and answers the status.
    fn write_unbuffered<W: Write>(&self, writer: &mut W) -> Result<u8, WriteFailed>
        ensures { (form : Form) → IfOk result (WritesAnswer (response_text form) response_status
            (IsToldOf IsKnown (listed_reply self.now))
            (W.contents writer.old) (W.contents writer.new)) }
    {
        match self.missing() {
            Some(number) => {
                write_line(writer, format_args!("unknown {number}"))?;
                Ok(Status::No as u8)
            }
            None => refuse(writer, &Refusal::Walk),
        }
    }

    /// The number of the first id that is missing, if one is.
    fn missing(&self) -> Option<u64>
        ensures { result ≡ missing_of (listed_reply self.now) }
    {
        match self {
            Reply::Found(_) => None,
            Reply::Told(told) => told.missing(),
            Reply::Walk(walk) => walk.missing(),
            Reply::Compared(compared) => compared.missing(),
            Reply::Parents(parents) => parents.missing(),
        }
    }

    /// The exit status of the command that answers so.
    fn status(&self) -> u8
        ensures { result ≡ reply_status (listed_reply self.now) }
    {
        if self.is_yes() {
            Status::Yes as u8
        } else {
            Status::No as u8
        }
    }

    /// Whether something is found, is so, or is there.
    fn is_yes(&self) -> bool
        ensures { result ≡ is_yes (listed_reply self.now) }
    {
        match self {
            Reply::Found(found) => found.is_some(),
            Reply::Told(Answer::Known(told)) => *told,
            Reply::Walk(Answer::Known(walk)) => walk.is_some(),
            Reply::Compared(Answer::Known(compared)) => {
                has_some(&compared.comparison.bases.positions)
            }
            Reply::Parents(Answer::Known(_)) => true,
            Reply::Told(Answer::Unknown(_)) => false,
            Reply::Walk(Answer::Unknown(_)) => false,
            Reply::Compared(Answer::Unknown(_)) => false,
            Reply::Parents(Answer::Unknown(_)) => false,
        }
    }
}

/// Whether there are merge bases.
fn has_some(bases: &[Position]) -> bool
    ensures { result ≡ has_bases bases.now }
{
    !bases.is_empty()
}
