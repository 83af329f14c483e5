//! The lines of answers, in a buffer. Adding them allocates nothing.

ghost use Rattle.std.specs.Prelude.{OnOk};
ghost use Rattle.std.specs.Io.KnownBytes.{Appends};
ghost use Rattle.std.specs.List.{flat_map, zip};
ghost use Rattle.gix_hash_core.specs.Oid.{oid_bytes};
ghost use Rattle.answers.specs.FoundOf.{known_map, listed_comparison, listed_ids, listed_walk};
ghost use Rattle.answer_lines.specs.AnswerLines.{answer_text, line_of_base, comparison_lines};
ghost use Rattle.answer_lines.specs.AnswerLines.{parent_text};
ghost use Rattle.answer_lines.specs.AnswerLines.{counts_text, id_line, lines_or_none};
ghost use Rattle.answer_lines.specs.AnswerLines.{parents_line, unknown_line, walk_lines, word_line};
ghost use Rattle.graph_commands.specs.Buffer.{with_buffer};
ghost use Rattle.graph_commands.specs.Report.{commit_text, found_line};
ghost use Rattle.graph_commands.specs.Text.{◌⧺◌, newline};

use crate::reply::Form;
use answers::{Answer, IdComparison};
use gix_hash_core::{ObjectId, oid};
use graph_bases::{Comparison, Divergence};
use graph_commands::buffer::Buffer;
use graph_commands::line::WriteFailed;
use graph_commands::report::Found;
use graph_format::Position;
use std::io::Write;

/// Adds the line of the first id that is missing, by its number. `WriteFailed` comes where the
/// writer fails.
pub fn push_missing<W: Write>(
    buffer: &mut Buffer,
    writer: &mut W,
    number: u64,
) -> Result<(), WriteFailed>
    ensures { OnOk result (Appends (with_buffer (W.contents writer.old) buffer.old)
        (with_buffer (W.contents writer.new) buffer.new) (unknown_line number)) }
{
    buffer.push_text(writer, "unknown ")?;
    buffer.push_decimal(writer, number)?;
    buffer.push_byte(writer, b'\n')
}

/// Adds the line of a commit that was found, or that there is none. `WriteFailed` comes where the
/// writer fails.
pub fn push_found<W: Write>(
    buffer: &mut Buffer,
    writer: &mut W,
    found: Option<Found>,
) -> Result<(), WriteFailed>
    ensures { OnOk result (Appends (with_buffer (W.contents writer.old) buffer.old)
        (with_buffer (W.contents writer.new) buffer.new) (found_line found)) }
{
    match found {
        Some(found) => push_commit(buffer, writer, found),
        None => buffer.push_text(writer, "none\n"),
    }
}

/// Adds the line of a commit.
fn push_commit<W: Write>(
    buffer: &mut Buffer,
    writer: &mut W,
    found: Found,
) -> Result<(), WriteFailed>
    ensures { OnOk result (Appends (with_buffer (W.contents writer.old) buffer.old)
        (with_buffer (W.contents writer.new) buffer.new) (commit_text found ⧺ newline)) }
{
    buffer.push_text(writer, "position ")?;
    buffer.push_decimal(writer, found.pos.0 as u64)?;
    buffer.push_text(writer, " generation ")?;
    buffer.push_decimal(writer, found.generation as u64)?;
    buffer.push_text(writer, " time ")?;
    buffer.push_decimal(writer, found.time)?;
    buffer.push_byte(writer, b'\n')
}

/// Adds the line of whether a commit is an ancestor of another.
pub(crate) fn push_told<W: Write>(
    buffer: &mut Buffer,
    writer: &mut W,
    told: &Answer<bool>,
) -> Result<(), WriteFailed>
    ensures { OnOk result (Appends (with_buffer (W.contents writer.old) buffer.old)
        (with_buffer (W.contents writer.new) buffer.new) (answer_text word_line told.now)) }
{
    match told {
        Answer::Unknown(number) => push_missing(buffer, writer, *number),
        Answer::Known(true) => buffer.push_text(writer, "yes\n"),
        Answer::Known(false) => buffer.push_text(writer, "no\n"),
    }
}

/// Adds the lines of the ids on a walk, or that there is none.
pub(crate) fn push_walk<W: Write>(
    buffer: &mut Buffer,
    writer: &mut W,
    walk: &Answer<Option<Vec<ObjectId>>>,
) -> Result<(), WriteFailed>
    ensures { OnOk result (Appends (with_buffer (W.contents writer.old) buffer.old)
        (with_buffer (W.contents writer.new) buffer.new)
        (answer_text walk_lines (known_map listed_walk walk.now))) }
{
    match walk {
        Answer::Unknown(number) => push_missing(buffer, writer, *number),
        Answer::Known(None) => buffer.push_text(writer, "none\n"),
        Answer::Known(Some(ids)) => push_ids(buffer, writer, ids),
    }
}

/// Adds ids, a line for each.
fn push_ids<W: Write>(
    buffer: &mut Buffer,
    writer: &mut W,
    ids: &[ObjectId],
) -> Result<(), WriteFailed>
    ensures { OnOk result (Appends (with_buffer (W.contents writer.old) buffer.old)
        (with_buffer (W.contents writer.new) buffer.new) (flat_map id_line ids.now)) }
{
    for id in ids {
        buffer.push_id(writer, id.as_oid())?;
        buffer.push_byte(writer, b'\n')?;
    }
    Ok(())
}

/// Adds the lines of what commits have in common.
pub(crate) fn push_compared<W: Write>(
    form: Form,
    buffer: &mut Buffer,
    writer: &mut W,
    compared: &Answer<IdComparison<Vec<ObjectId>>>,
) -> Result<(), WriteFailed>
    ensures { OnOk result (Appends (with_buffer (W.contents writer.old) buffer.old)
        (with_buffer (W.contents writer.new) buffer.new)
        (answer_text (comparison_lines form) (known_map listed_comparison compared.now))) }
{
    match compared {
        Answer::Unknown(number) => push_missing(buffer, writer, *number),
        Answer::Known(known) => push_comparison(form, buffer, writer, known),
    }
}

/// Adds the lines of what commits have in common, in a form.
fn push_comparison<W: Write>(
    form: Form,
    buffer: &mut Buffer,
    writer: &mut W,
    known: &IdComparison<Vec<ObjectId>>,
) -> Result<(), WriteFailed>
    ensures { OnOk result (Appends (with_buffer (W.contents writer.old) buffer.old)
        (with_buffer (W.contents writer.new) buffer.new)
        (comparison_lines form (listed_comparison known.now))) }
{
    let bases = &known.comparison.bases.positions;
    match form {
        Form::Whole => {
            push_bases(buffer, writer, bases, &known.base_ids)?;
            push_counts(buffer, writer, &known.comparison)
        }
        Form::IdsAlone => push_base_ids(buffer, writer, bases, &known.base_ids),
    }
}

/// Adds the lines of bases with their ids, or that there is none.
fn push_bases<W: Write>(
    buffer: &mut Buffer,
    writer: &mut W,
    bases: &[Position],
    ids: &[ObjectId],
) -> Result<(), WriteFailed>
    ensures { OnOk result (Appends (with_buffer (W.contents writer.old) buffer.old)
        (with_buffer (W.contents writer.new) buffer.new)
        (lines_or_none bases.now (flat_map line_of_base (zip bases.now ids.now)))) }
{
    if bases.is_empty() {
        return buffer.push_text(writer, "none\n");
    }
    push_base_lines(buffer, writer, bases, ids)
}

/// Adds the ids of bases, or that there is none.
fn push_base_ids<W: Write>(
    buffer: &mut Buffer,
    writer: &mut W,
    bases: &[Position],
    ids: &[ObjectId],
) -> Result<(), WriteFailed>
    ensures { OnOk result (Appends (with_buffer (W.contents writer.old) buffer.old)
        (with_buffer (W.contents writer.new) buffer.new)
        (lines_or_none bases.now (flat_map id_line ids.now))) }
{
    if bases.is_empty() {
        return buffer.push_text(writer, "none\n");
    }
    push_ids(buffer, writer, ids)
}

/// Adds the lines of bases: the position of each, and its id.
fn push_base_lines<W: Write>(
    buffer: &mut Buffer,
    writer: &mut W,
    bases: &[Position],
    ids: &[ObjectId],
) -> Result<(), WriteFailed>
    ensures { OnOk result (Appends (with_buffer (W.contents writer.old) buffer.old)
        (with_buffer (W.contents writer.new) buffer.new)
        (flat_map line_of_base (zip bases.now ids.now))) }
{
    for place in 0..bases.len().min(ids.len()) {
        push_base(buffer, writer, bases[place], ids[place].as_oid())?;
    }
    Ok(())
}

/// Adds the line of a base: its position and its id.
fn push_base<W: Write>(
    buffer: &mut Buffer,
    writer: &mut W,
    base: Position,
    id: oid<'_>,
) -> Result<(), WriteFailed>
    ensures { OnOk result (Appends (with_buffer (W.contents writer.old) buffer.old)
        (with_buffer (W.contents writer.new) buffer.new)
        (line_of_base (base, oid_bytes id.entry))) }
{
    buffer.push_text(writer, "base ")?;
    buffer.push_decimal(writer, base.0 as u64)?;
    buffer.push_byte(writer, b' ')?;
    buffer.push_id(writer, id)?;
    buffer.push_byte(writer, b'\n')
}

/// Adds how many commits are ahead and behind, and how many were visited.
fn push_counts<W: Write>(
    buffer: &mut Buffer,
    writer: &mut W,
    comparison: &Comparison,
) -> Result<(), WriteFailed>
    ensures { OnOk result (Appends (with_buffer (W.contents writer.old) buffer.old)
        (with_buffer (W.contents writer.new) buffer.new) (counts_text comparison.now)) }
{
    let Divergence { ahead, behind } = comparison.divergence;
    buffer.push_text(writer, "ahead ")?;
    buffer.push_decimal(writer, ahead as u64)?;
    buffer.push_text(writer, " behind ")?;
    buffer.push_decimal(writer, behind as u64)?;
    buffer.push_text(writer, "\nvisits ")?;
    buffer.push_decimal(writer, comparison.bases.visits)?;
    buffer.push_byte(writer, b'\n')
}

/// Adds the line of the parents with these ids.
pub(crate) fn push_parents<W: Write>(
    buffer: &mut Buffer,
    writer: &mut W,
    parents: &Answer<Vec<ObjectId>>,
) -> Result<(), WriteFailed>
    ensures { OnOk result (Appends (with_buffer (W.contents writer.old) buffer.old)
        (with_buffer (W.contents writer.new) buffer.new)
        (answer_text parents_line (known_map listed_ids parents.now))) }
{
    match parents {
        Answer::Unknown(number) => push_missing(buffer, writer, *number),
        Answer::Known(ids) => push_parent_ids(buffer, writer, ids),
    }
}

/// Adds the line of some parents.
fn push_parent_ids<W: Write>(
    buffer: &mut Buffer,
    writer: &mut W,
    ids: &[ObjectId],
) -> Result<(), WriteFailed>
    ensures { OnOk result (Appends (with_buffer (W.contents writer.old) buffer.old)
        (with_buffer (W.contents writer.new) buffer.new) (parents_line ids.now)) }
{
    buffer.push_text(writer, "parents")?;
    for id in ids {
        push_parent(buffer, writer, id.as_oid())?;
    }
    buffer.push_byte(writer, b'\n')
}

/// Adds a parent to the line of the parents. `WriteFailed` comes where the writer fails.
pub fn push_parent<W: Write>(
    buffer: &mut Buffer,
    writer: &mut W,
    id: oid<'_>,
) -> Result<(), WriteFailed>
    ensures { OnOk result (Appends (with_buffer (W.contents writer.old) buffer.old)
        (with_buffer (W.contents writer.new) buffer.new) (parent_text (oid_bytes id.entry))) }
{
    buffer.push_byte(writer, b' ')?;
    buffer.push_id(writer, id)
}
