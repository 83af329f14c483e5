//! The lines of a layer. Writing them allocates nothing.

ghost use Rattle.std.specs.Prelude.{◌≡◌, Some, OnOk, length, option_map};
ghost use Rattle.std.specs.Io.KnownBytes.{Appends};
ghost use Rattle.graph_format.specs.Format.{chunk_of};
ghost use Rattle.graph_format.specs.Layer.{bytes_of};
ghost use Rattle.graph_commands.specs.Listing.{kind_text};
ghost use Rattle.graph_encoder.specs.StoredNumbers.{numbers_at_head, stored_filter_numbers};
ghost use Rattle.show_commands.specs.LayerLines.{counts_line, dates_word, layer_lines};

use gix_commitgraph::File;
use gix_hash_core::Kind;
use graph_commands::line::{WriteFailed, write_line};
use graph_encoder::FilterNumbers;
use graph_format::integers::word_at;
use std::fmt;
use std::io::Write;

/// Writes the lines of a layer, which has this number. `WriteFailed` comes where the writer fails.
pub(crate) fn write_layer<W: Write>(
    writer: &mut W,
    number: usize,
    file: &File,
) -> Result<(), WriteFailed>
    ensures { OnOk result (Appends (W.contents writer.old) (W.contents writer.new)
        (layer_lines number file.now)) }
{
    write_counts(writer, number, file)?;
    write_line(writer, format_args!("checksum {}", file.checksum()))?;
    write_line(writer, ChunksText(file))
}

/// Writes the first line of the layer with this number. `WriteFailed` comes where the writer fails.
fn write_counts<W: Write>(writer: &mut W, layer: usize, file: &File) -> Result<(), WriteFailed>
    ensures { OnOk result (Appends (W.contents writer.old) (W.contents writer.new)
        (counts_line layer file.now)) }
{
    let commits = file.num_commits();
    let hash = hash_name(file.object_hash());
    let bases = file.base_graph_count();
    let dates = has_dates(file);
    let made = FilterNumbersText(filter_numbers(file));
    write_line(
        writer,
        format_args!(
            "layer {layer} commits {commits} hash {hash} bases {bases} dates {dates} filters {made}"
        ),
    )
}

/// The name of a kind of hash.
fn hash_name(kind: Kind) -> &'static str
    ensures { result.now ≡ kind_text kind }
{
    match kind {
        Kind::Sha1 => "sha1",
        Kind::Sha256 => "sha256",
    }
}

/// Whether a layer has corrected dates: `yes` or `no`.
fn has_dates(file: &File) -> &'static str
    ensures { result.now ≡ dates_word file.now }
{
    match chunk_size(file, *b"GDA2") {
        Some(_size) => "yes",
        None => "no",
    }
}

/// How many bytes the chunk with an id has, `None` where the file has no such chunk.
fn chunk_size(file: &File, id: [u8; 4]) -> Option<usize>
    ensures { result ≡ option_map length (chunk_of (bytes_of file.now) id) }
{
    match file.chunk(id) {
        Some(chunk) => Some(chunk.len()),
        None => None,
    }
}

/// How many bytes the three numbers have that stand before the filters of a layer.
const NUMBERS_LEN: usize = 12;

/// The numbers before the filters of a layer, `None` where it has no filters, or their data is too
/// short.
#[tactic(auto, unfolding(graph_encoder::specs::StoredNumbers::stored_filter_numbers))]
fn filter_numbers(file: &File) -> Option<FilterNumbers>
    ensures { result ≡ stored_filter_numbers file.now }
{
    match (file.chunk(*b"BIDX"), file.chunk(*b"BDAT")) {
        (Some(_index), Some(body)) => filter_numbers_of(body),
        _ => None,
    }
}

/// The numbers with which these bytes begin, if there are enough.
fn filter_numbers_of(body: &[u8]) -> Option<FilterNumbers>
    ensures { result ≡ numbers_at_head body.now }
{
    if body.len() < NUMBERS_LEN {
        return None;
    }
    Some(FilterNumbers {
        version: word_at(body, 0),
        hashes: word_at(body, 4),
        bits_per_entry: word_at(body, 8),
    })
}

/// How the filters of a layer are made, or `none`.
#[derive(Clone, Copy)]
struct FilterNumbersText(Option<FilterNumbers>);

impl fmt::Display for FilterNumbersText {
    ghost use Rattle.show_commands.specs.LayerLines.{filter_numbers_text};

    ghost output = { λ text. Some (filter_numbers_text text.0) };

    fn fmt<W: fmt::Write>(&self, f: &mut fmt::Formatter<W>) -> fmt::Result {
        match self.0 {
            Some(numbers) => {
                let FilterNumbers {
                    version,
                    hashes,
                    bits_per_entry,
                } = numbers;
                write!(f, "version {version} hashes {hashes} bits {bits_per_entry}")
            }
            None => f.write_str("none"),
        }
    }
}

/// The chunks of the format that a file has.
#[derive(Clone, Copy)]
struct ChunksText<'a>(&'a File);

impl fmt::Display for ChunksText<'_> {
    ghost use Rattle.show_commands.specs.LayerLines.{chunks_text};

    ghost output = { λ text. Some (chunks_text text.0.now) };

    fn fmt<W: fmt::Write>(&self, f: &mut fmt::Formatter<W>) -> fmt::Result {
        let file = self.0;
        write!(
            f,
            "chunks{}{}{}{}{}{}{}{}{}",
            ChunkText("OIDF", chunk_size(file, *b"OIDF")),
            ChunkText("OIDL", chunk_size(file, *b"OIDL")),
            ChunkText("CDAT", chunk_size(file, *b"CDAT")),
            ChunkText("GDA2", chunk_size(file, *b"GDA2")),
            ChunkText("GDO2", chunk_size(file, *b"GDO2")),
            ChunkText("EDGE", chunk_size(file, *b"EDGE")),
            ChunkText("BIDX", chunk_size(file, *b"BIDX")),
            ChunkText("BDAT", chunk_size(file, *b"BDAT")),
            ChunkText("BASE", chunk_size(file, *b"BASE"))
        )
    }
}

/// A chunk, by its name, and how many bytes it has, if it is there.
#[derive(Clone, Copy)]
struct ChunkText<'a>(&'a str, Option<usize>);

impl fmt::Display for ChunkText<'_> {
    ghost use Rattle.show_commands.specs.LayerLines.{chunk_text};

    ghost output = { λ text. Some (chunk_text text.0.now text.1) };

    fn fmt<W: fmt::Write>(&self, f: &mut fmt::Formatter<W>) -> fmt::Result {
        match self.1 {
            Some(size) => write!(f, " {} {size}", self.0),
            None => Ok(()),
        }
    }
}
