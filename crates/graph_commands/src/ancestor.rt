//! The command `ancestor`, and the lines that it writes. Writing them allocates nothing.

ghost use Rattle.std.specs.Prelude.{◌≡◌, ◌++◌, [], IfOk, OnOk, codes};
ghost use Rattle.std.specs.Io.KnownBytes.{Appends};
ghost use Rattle.std.specs.List.{flat_map};
ghost use Rattle.gix_hash_core.specs.Oid.{oid_bytes};
ghost use Rattle.graph_commands.specs.Ancestor.{MayAnswerIn, MayRelate, ancestor_text};
ghost use Rattle.graph_commands.specs.Ancestor.{MayHaveWalk, ancestor_status, step_text};
ghost use Rattle.graph_commands.specs.Ancestor.{visits_line};
ghost use Rattle.graph_commands.specs.WrittenAnswer.{IsToldOf, WritesAnswer};
ghost use Rattle.graph_commands.specs.Buffer.{with_buffer};
ghost use Rattle.graph_commands.specs.OpenerAnswer.{MayOpenIn};
ghost use Rattle.graph_commands.specs.Text.{newline};

use crate::buffer::Buffer;
use crate::line::{WriteFailed, refuse, write_line};
use crate::refusal::Refusal;
use crate::status::Status;
use gix_commitgraph::opening::open_in;
use gix_commitgraph::{Graph, Position};
use gix_hash_core::{ObjectId, oid};
use graph_ancestors::{Reached, Searcher, check};
use graph_folder::folder::Folder;
use std::alloc::Global;
use std::io::Write;

/// Looks for a shortest walk along parents from the commit with the first id to the one with the
/// second, both given in hexadecimal digits of either case, in the graph that the path opens. The
/// graph is checked first.
///
/// It writes the walk by its positions, or that there is none, and in a second line how many
/// commits were visited; or which id is not in the graph; or why the query is refused. A text that
/// is no id opens nothing. The answer is the exit status. `WriteFailed` comes where the writer
/// fails.
pub fn run_ancestor<T: Folder, W: Write>(
    alloc: Global,
    folder: &mut T,
    path: &str,
    first: &str,
    second: &str,
    writer: &mut W,
) -> Result<u8, WriteFailed>
    ensures written { IfOk result (WritesAnswer ancestor_text ancestor_status
        (MayRelate first.now second.now (folder.new ≡ folder.old)
        (MayOpenIn T.Folder folder.old folder.new path.now))
        (W.contents writer.old) (W.contents writer.new)) }
    ensures tree { T.tree folder.new ≡ T.tree folder.old }
{
    match ancestor(alloc, folder, path, first, second) {
        Ok(ancestry) => tell(alloc, writer, &ancestry),
        Err(refusal) => refuse(writer, &refusal),
    }
}

/// The answer to the query between the commits whose ids the digits spell, in the graph that the
/// path opens.
fn ancestor<T: Folder>(
    alloc: Global,
    folder: &mut T,
    path: &str,
    first: &str,
    second: &str,
) -> Result<Ancestry, Refusal>
    ensures may { MayRelate first.now second.now (folder.new ≡ folder.old)
        (MayOpenIn T.Folder folder.old folder.new path.now) result }
    ensures tree { T.tree folder.new ≡ T.tree folder.old }
{
    let first = ObjectId::from_hex(first.as_bytes())?;
    let second = ObjectId::from_hex(second.as_bytes())?;
    let graph = open_in(alloc, folder, path)?;
    ancestry_in(alloc, &graph, first.as_oid(), second.as_oid())
}

/// The answer to the query between the commits with these ids in the graph, which is checked first.
fn ancestry_in(
    alloc: Global,
    graph: &Graph,
    first: oid<'_>,
    second: oid<'_>,
) -> Result<Ancestry, Refusal>
    ensures { MayAnswerIn graph.now (oid_bytes first.entry) (oid_bytes second.entry) result }
{
    check(alloc, graph)?;
    let Some(from) = graph.lookup(first) else {
        return Ok(Ancestry::FirstUnknown);
    };
    let Some(to) = graph.lookup(second) else {
        return Ok(Ancestry::SecondUnknown);
    };
    match Searcher::new(alloc, graph).ancestor_walk(from, to) {
        Ok(reached) => Ok(Ancestry::Known(reached)),
        Err(_) => Err(Refusal::Walk),
    }
}

/// What a query for a walk from the commit with one id to the commit with another found.
#[derive(Debug, Drop)]
pub enum Ancestry {
    /// The first id is not in the graph.
    FirstUnknown,
    /// The first id is in the graph, and the second is not.
    SecondUnknown,
    /// Both are, and this is the answer.
    Known(Reached),
}

/// Writes what a query found, and answers the exit status.
fn tell<W: Write>(alloc: Global, writer: &mut W, ancestry: &Ancestry) -> Result<u8, WriteFailed>
    ensures { IfOk result (WritesAnswer ancestor_text ancestor_status
        (IsToldOf MayHaveWalk ancestry.now) (W.contents writer.old) (W.contents writer.new)) }
{
    match ancestry {
        Ancestry::FirstUnknown => {
            write_line(writer, "unknown 1")?;
            Ok(Status::No as u8)
        }
        Ancestry::SecondUnknown => {
            write_line(writer, "unknown 2")?;
            Ok(Status::No as u8)
        }
        Ancestry::Known(reached) => tell_reached(alloc, writer, reached),
    }
}

/// Writes the line of the walk and how many commits were visited, and answers the exit status. A
/// walk goes through a buffer, and where there is no memory for one, that is told in its place.
fn tell_reached<W: Write>(
    alloc: Global,
    writer: &mut W,
    reached: &Reached,
) -> Result<u8, WriteFailed>
    ensures { IfOk result (WritesAnswer ancestor_text ancestor_status
        (IsToldOf MayHaveWalk (Ancestry.Known reached.now))
        (W.contents writer.old) (W.contents writer.new)) }
{
    match &reached.walk {
        Some(walk) => match Buffer::new(alloc) {
            Ok(mut buffer) => {
                write_walk(&mut buffer, writer, walk)?;
                write_visits(writer, reached.visits)?;
                Ok(Status::Yes as u8)
            }
            Err(_) => refuse(writer, &Refusal::Walk),
        },
        None => {
            write_line(writer, "none")?;
            write_visits(writer, reached.visits)?;
            Ok(Status::No as u8)
        }
    }
}

/// Writes how many commits were visited.
fn write_visits<W: Write>(writer: &mut W, visits: u32) -> Result<(), WriteFailed>
    ensures { OnOk result
        (Appends (W.contents writer.old) (W.contents writer.new) (visits_line visits)) }
{
    write_line(writer, format_args!("visits {visits}"))
}

/// Writes the positions of a walk.
fn write_walk<W: Write>(
    buffer: &mut Buffer,
    writer: &mut W,
    walk: &[Position],
) -> Result<(), WriteFailed>
    requires { buffer.old ≡ [] }
    ensures { OnOk result (Appends (W.contents writer.old) (W.contents writer.new)
        (codes "walk" ++ flat_map step_text walk.now ++ newline)) }
{
    buffer.push_text(writer, "walk")?;
    for Position(position) in walk {
        buffer.push_byte(writer, b' ')?;
        buffer.push_decimal(writer, *position as u64)?;
    }
    buffer.push_byte(writer, b'\n')?;
    buffer.write_out(writer)
}
