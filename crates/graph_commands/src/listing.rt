//! The listing of a layer.

ghost use Rattle.std.specs.Prelude.{◌≡◌, ◌++◌, [], codes, decimal, length, OnOk, if◌then◌else◌};
ghost use Rattle.std.specs.Io.KnownBytes.{Appends};
ghost use Rattle.hex.specs.Hex.{encode_lower};
ghost use Rattle.gix_hash_core.specs.Oid.{oid_bytes};
ghost use Rattle.graph_layer.specs.Commit.{layer_and_position};
ghost use Rattle.graph_layer.specs.RemainingParents.{parents_left};
ghost use Rattle.graph_commands.specs.Buffer.{with_buffer};
ghost use Rattle.graph_commands.specs.Listing.{kind_text, item_text, parents_text, layer_line};
ghost use Rattle.graph_commands.specs.Listing.{base_line, listing_text};
ghost use Rattle.graph_commands.specs.PositionLines.{position_line};

use crate::buffer::Buffer;
use crate::line::WriteFailed;
use gix_commitgraph::file::commit::{ParentError, Parents};
use gix_commitgraph::{File, Position, file};
use gix_hash_core::{Kind, oid};
use graph_format::error_numbers::parent_number;
use std::io::Write;

/// Writes the whole listing of a layer through a buffer, which is empty before. `WriteFailed` comes
/// where the writer fails.
pub fn write_listing<W: Write>(
    buffer: &mut Buffer,
    writer: &mut W,
    layer: &File,
) -> Result<(), WriteFailed>
    requires { buffer.old ≡ [] }
    ensures { OnOk result
        (Appends (W.contents writer.old) (W.contents writer.new) (listing_text layer.now)) }
{
    push_head(buffer, writer, layer)?;
    for base in layer.iter_base_graph_ids() {
        push_base(buffer, writer, base)?;
    }
    for commit in layer.iter_commits() {
        push_commit(buffer, writer, commit)?;
    }
    buffer.write_out(writer)
}

/// Adds the line of the layer.
fn push_head<W: Write>(buffer: &mut Buffer, writer: &mut W, layer: &File) -> Result<(), WriteFailed>
    ensures line { OnOk result (Appends (with_buffer (W.contents writer.old) buffer.old)
        (with_buffer (W.contents writer.new) buffer.new) (layer_line layer.now)) }

    // As many commits as the line says have an id and a record.
    ensures commits { OnOk result (length layer.now.ids ≡ length layer.now.records) }
{
    buffer.push_text(writer, "layer ")?;
    buffer.push_text(writer, kind_name(layer.object_hash()))?;
    push_count(buffer, writer, " bases ", layer.base_graph_count() as u64)?;
    push_count(buffer, writer, " commits ", layer.num_commits() as u64)?;
    buffer.push_byte(writer, b'\n')
}

/// Adds what is counted, and how many there are.
fn push_count<W: Write>(
    buffer: &mut Buffer,
    writer: &mut W,
    what: &str,
    count: u64,
) -> Result<(), WriteFailed>
    ensures { OnOk result (Appends (with_buffer (W.contents writer.old) buffer.old)
        (with_buffer (W.contents writer.new) buffer.new) (what.now ++ decimal count)) }
{
    buffer.push_text(writer, what)?;
    buffer.push_decimal(writer, count)
}

fn kind_name(kind: Kind) -> &'static str
    ensures { result.now ≡ kind_text kind }
{
    match kind {
        Kind::Sha1 => "sha1",
        Kind::Sha256 => "sha256",
    }
}

/// Adds the line of a base id.
fn push_base<W: Write>(
    buffer: &mut Buffer,
    writer: &mut W,
    base: oid<'_>,
) -> Result<(), WriteFailed>
    ensures { OnOk result (Appends (with_buffer (W.contents writer.old) buffer.old)
        (with_buffer (W.contents writer.new) buffer.new) (base_line (oid_bytes base.entry))) }
{
    buffer.push_text(writer, "base ")?;
    buffer.push_id(writer, base)?;
    buffer.push_byte(writer, b'\n')
}

/// Adds the line of a commit.
fn push_commit<W: Write>(
    buffer: &mut Buffer,
    writer: &mut W,
    commit: file::Commit<'_>,
) -> Result<(), WriteFailed>
    ensures { OnOk result (Appends (with_buffer (W.contents writer.old) buffer.old)
        (with_buffer (W.contents writer.new) buffer.new)
        (position_line (layer_and_position commit.entry))) }
{
    push_number(buffer, writer, commit.position().0 as u64)?;
    push_id(buffer, writer, commit.id())?;
    push_id(buffer, writer, commit.root_tree_id())?;
    push_number(buffer, writer, commit.generation() as u64)?;
    push_number(buffer, writer, commit.committer_timestamp())?;
    push_parents(buffer, writer, commit.iter_parents())?;
    buffer.push_byte(writer, b'\n')
}

/// Adds a number and a space.
fn push_number<W: Write>(
    buffer: &mut Buffer,
    writer: &mut W,
    number: u64,
) -> Result<(), WriteFailed>
    ensures { OnOk result (Appends (with_buffer (W.contents writer.old) buffer.old)
        (with_buffer (W.contents writer.new) buffer.new) (decimal number ++ codes " ")) }
{
    buffer.push_decimal(writer, number)?;
    buffer.push_byte(writer, b' ')
}

/// Adds an id and a space.
fn push_id<W: Write>(buffer: &mut Buffer, writer: &mut W, id: oid<'_>) -> Result<(), WriteFailed>
    ensures { OnOk result (Appends (with_buffer (W.contents writer.old) buffer.old)
        (with_buffer (W.contents writer.new) buffer.new)
        (encode_lower (oid_bytes id.entry) ++ codes " ")) }
{
    buffer.push_id(writer, id)?;
    buffer.push_byte(writer, b' ')
}

/// Adds the items of a commit's parents, or a dash where there is none.
fn push_parents<W: Write>(
    buffer: &mut Buffer,
    writer: &mut W,
    parents: Parents<'_>,
) -> Result<(), WriteFailed>
    ensures { OnOk result (Appends (with_buffer (W.contents writer.old) buffer.old)
        (with_buffer (W.contents writer.new) buffer.new)
        (parents_text (parents_left parents.entry))) }
{
    let mut any = false;
    for item in parents {
        push_separator(buffer, writer, any)?;
        push_item(buffer, writer, item)?;
        any = true;
    }
    if !any {
        buffer.push_byte(writer, b'-')?;
    }
    Ok(())
}

/// Adds a comma, where an item comes before.
fn push_separator<W: Write>(
    buffer: &mut Buffer,
    writer: &mut W,
    any: bool,
) -> Result<(), WriteFailed>
    ensures { OnOk result (Appends (with_buffer (W.contents writer.old) buffer.old)
        (with_buffer (W.contents writer.new) buffer.new) (if any then codes "," else [])) }
{
    if any {
        buffer.push_byte(writer, b',')?;
    }
    Ok(())
}

/// Adds a parent, or the number of a fault.
fn push_item<W: Write>(
    buffer: &mut Buffer,
    writer: &mut W,
    item: Result<Position, ParentError>,
) -> Result<(), WriteFailed>
    ensures { OnOk result (Appends (with_buffer (W.contents writer.old) buffer.old)
        (with_buffer (W.contents writer.new) buffer.new) (item_text item)) }
{
    match item {
        Ok(Position(parent)) => buffer.push_decimal(writer, parent as u64),
        Err(error) => {
            buffer.push_byte(writer, b'!')?;
            buffer.push_decimal(writer, parent_number(error) as u64)
        }
    }
}
