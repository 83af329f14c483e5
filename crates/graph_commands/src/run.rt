//! The commands, over their inputs and a writer.

ghost use Rattle.std.specs.Prelude.{◌≡◌, [], IfOk, IfErr, IfSome, Ok, Err};
ghost use Rattle.std.specs.BTreeMap.{IsOrdered};
ghost use Rattle.std.specs.Io.KnownBytes.{Appends};
ghost use Rattle.std.specs.Ordering.{nat_cmp};
ghost use Rattle.graph_format.specs.Layer.{IsLayer};
ghost use Rattle.graph_format.specs.Opened.{MayRefuse};
ghost use Rattle.graph_commands.specs.WrittenAnswer.{WritesAnswer, WritesRefusal};
ghost use Rattle.graph_commands.specs.OpenerAnswer.{MayOpenIn};
ghost use Rattle.graph_commands.specs.List.{MayList, list_path, list_status, list_text};
ghost use Rattle.graph_commands.specs.Find.{MayFind, find_text, find_status};
ghost use Rattle.graph_commands.specs.Report.{outcome_text};
ghost use Rattle.graph_commands.specs.CheckAnswers.{MayVerify, MayVerifyDistinct};
ghost use Rattle.graph_commands.specs.CheckAnswers.{verify_text, verify_status};

pub use crate::ancestor::{Ancestry, run_ancestor};
use crate::buffer::Buffer;
use crate::find::find_at;
use crate::line::write_line;
pub use crate::line::{WriteFailed, refuse};
use crate::listing::write_listing;
use crate::refusal::Refusal;
use crate::report::{Found, write_outcome};
use crate::status::Status;
use gix_commitgraph::file::Commit;
use gix_commitgraph::opening::open_in;
use gix_commitgraph::verify::{Outcome, VerifyError, VerifyOptions};
use gix_commitgraph::{File, FileError};
use gix_hash_core::ObjectId;
use graph_ancestors::NoFault;
use graph_folder::folder::{Folder, read_all};
use graph_format::layout::layout_of;
use std::alloc::Global;
use std::io::{Read, Write};

/// Writes the listing of the layer that the reader gives, or one line that says why it is refused.
/// The answer is the exit status. `WriteFailed` comes where the writer fails.
pub fn run_list<R: Read, W: Write>(
    alloc: Global,
    reader: &mut R,
    writer: &mut W,
) -> Result<u8, WriteFailed>
    ensures written { IfOk result (λ status. IfSome (R.remaining reader.old) (λ input.
        WritesAnswer list_text list_status (MayList input)
        (W.contents writer.old) (W.contents writer.new) status)) }
{
    match prepare(alloc, reader) {
        Ok((layer, mut buffer)) => {
            write_listing(&mut buffer, writer, &layer)?;
            Ok(Status::Yes as u8)
        }
        Err(refusal) => refuse(writer, &refusal),
    }
}

/// The layer that the reader gives, and a buffer to write its listing with: all that a listing
/// needs memory for is there before the first write.
fn prepare<R: Read>(alloc: Global, reader: &mut R) -> Result<(File, Buffer), Refusal>
    ensures layer { IfOk result (λ prepared. IfSome (R.remaining reader.old) (λ input.
        MayList input (Ok prepared.0))) }
    ensures buffer { IfOk result (λ prepared. prepared.1 ≡ []) }
    ensures refused { IfErr result (λ refusal. IfSome (R.remaining reader.old) (λ input.
        MayList input (Err refusal))) }
{
    let input = read_all(alloc, reader)?;
    Ok(prepare_layer(alloc, input)?)
}

/// The layer of these bytes, and a buffer. Memory is taken only once nothing refuses the bytes.
fn prepare_layer(alloc: Global, input: Vec<u8>) -> Result<(File, Buffer), FileError>
    ensures layer { IfOk result (λ prepared. IsLayer input.items list_path prepared.0) }
    ensures buffer { IfOk result (λ prepared. prepared.1 ≡ []) }
    ensures refused { IfErr result (MayRefuse input.items) }
{
    layout_of(&input)?;
    let path = String::from_str(alloc, "-").map_err(|_| FileError::OutOfMemory)?;
    let buffer = Buffer::new(alloc).map_err(|_| FileError::OutOfMemory)?;
    let layer = File::new(alloc, input, path)?;
    Ok((layer, buffer))
}

/// Checks the graph that the path opens, and writes the statistics of its commits, or one line that
/// says why the graph is refused. The answer is the exit status. `WriteFailed` comes where the
/// writer fails.
pub fn run_verify<T: Folder, W: Write>(
    alloc: Global,
    folder: &mut T,
    path: &str,
    writer: &mut W,
) -> Result<u8, WriteFailed>
    ensures written { IfOk result (WritesAnswer verify_text verify_status
        (MayVerify (MayOpenIn T.Folder folder.old folder.new path.now))
        (W.contents writer.old) (W.contents writer.new)) }
    ensures tree { T.tree folder.new ≡ T.tree folder.old }
{
    match open_in(alloc, folder, path) {
        Ok(graph) => {
            let answer = graph.verify_integrity(alloc, &mut |_: &Commit<'_>| Ok(()));
            write_answer(writer, answer)
        }
        Err(error) => refuse(writer, &Refusal::Open(error)),
    }
}

/// Checks the graph that the path opens, and that no id stands in two of its layers. It writes
/// the statistics of its commits, or one line that says why the graph is refused. The answer is the
/// exit status. `WriteFailed` comes where the writer fails.
pub fn run_distinct<T: Folder, W: Write>(
    alloc: Global,
    folder: &mut T,
    path: &str,
    writer: &mut W,
) -> Result<u8, WriteFailed>
    ensures written { IfOk result (WritesAnswer verify_text verify_status
        (MayVerifyDistinct (MayOpenIn T.Folder folder.old folder.new path.now))
        (W.contents writer.old) (W.contents writer.new)) }
    ensures tree { T.tree folder.new ≡ T.tree folder.old }
{
    match open_in(alloc, folder, path) {
        Ok(graph) => {
            let distinct = VerifyOptions { distinct_ids: true };
            let answer = graph.verify_integrity_with(alloc, distinct, &mut |_: &Commit<'_>| Ok(()));
            write_answer(writer, answer)
        }
        Err(error) => refuse(writer, &Refusal::Open(error)),
    }
}

/// Writes what the check of a graph found, or why it refuses the graph, and answers the exit
/// status.
fn write_answer<W: Write>(
    writer: &mut W,
    answer: Result<Outcome, VerifyError<NoFault>>,
) -> Result<u8, WriteFailed>
    ensures found { IfOk answer (λ outcome. IfOk result (λ status.
        Appends (W.contents writer.old) (W.contents writer.new) (outcome_text outcome)
        × IsOrdered nat_cmp outcome.parent_counts × (status ≡ 0))) }
    ensures refused { IfErr answer (λ error. IfOk result
        (WritesRefusal (Refusal.Verify error) (W.contents writer.old) (W.contents writer.new))) }
{
    match answer {
        Ok(outcome) => {
            write_outcome(writer, &outcome)?;
            Ok(Status::Yes as u8)
        }
        Err(error) => refuse(writer, &Refusal::Verify(error)),
    }
}

/// Looks up the commit with an id, given in hexadecimal digits of either case, in the graph that
/// the path opens. It writes one line: the commit's position, its generation number and its time;
/// or that it is not there; or why the search is refused. A text that is no id opens nothing. The
/// graph is not checked. The answer is the exit status. `WriteFailed` comes where the writer fails.
pub fn run_find<T: Folder, W: Write>(
    alloc: Global,
    folder: &mut T,
    path: &str,
    hex: &str,
    writer: &mut W,
) -> Result<u8, WriteFailed>
    ensures written { IfOk result (WritesAnswer find_text find_status
        (MayFind hex.now (folder.new ≡ folder.old)
        (MayOpenIn T.Folder folder.old folder.new path.now))
        (W.contents writer.old) (W.contents writer.new)) }
    ensures tree { T.tree folder.new ≡ T.tree folder.old }
{
    match find(alloc, folder, path, hex) {
        Ok(Some(found)) => {
            write_line(writer, found)?;
            Ok(Status::Yes as u8)
        }
        Ok(None) => {
            write_line(writer, "none")?;
            Ok(Status::No as u8)
        }
        Err(refusal) => refuse(writer, &refusal),
    }
}

/// The commit whose id the digits spell, in the graph that the path opens.
fn find<T: Folder>(
    alloc: Global,
    folder: &mut T,
    path: &str,
    hex: &str,
) -> Result<Option<Found>, Refusal>
    ensures may { MayFind hex.now (folder.new ≡ folder.old)
        (MayOpenIn T.Folder folder.old folder.new path.now) result }
    ensures tree { T.tree folder.new ≡ T.tree folder.old }
{
    let id = ObjectId::from_hex(hex.as_bytes())?;
    Ok(find_at(alloc, folder, path, id.as_oid())?)
}
