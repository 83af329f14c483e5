//! The commands of `graphtool`.

ghost use Rattle.std.specs.Prelude.{◌≡◌, IfOk};
ghost use Rattle.graph_commands.specs.Ancestor.{MayRelate, ancestor_status, ancestor_text};
ghost use Rattle.graph_commands.specs.Find.{MayFind, find_status, find_text};
ghost use Rattle.graph_commands.specs.OpenerAnswer.{MayOpen};
ghost use Rattle.graph_commands.specs.WrittenAnswer.{WritesAnswer};

use crate::bounds;
use graph_commands::run;
use graph_commands::run::WriteFailed;
use graph_folder::folder::Folder;
use std::alloc::Global;
use std::io;
use std::io::{Read, Write};

fn run_list<R: Read, W: Write>(
    alloc: Global,
    reader: &mut R,
    writer: &mut W,
) -> Result<u8, WriteFailed> {
    run::run_list(alloc, reader, writer)
}

fn run_verify<T: Folder, W: Write>(
    alloc: Global,
    folder: &mut T,
    path: &str,
    writer: &mut W,
) -> Result<u8, WriteFailed> {
    run::run_verify(alloc, folder, path, writer)
}

fn run_distinct<T: Folder, W: Write>(
    alloc: Global,
    folder: &mut T,
    path: &str,
    writer: &mut W,
) -> Result<u8, WriteFailed> {
    run::run_distinct(alloc, folder, path, writer)
}

fn run_find<T: Folder, W: Write>(
    alloc: Global,
    folder: &mut T,
    path: &str,
    hex: &str,
    writer: &mut W,
) -> Result<u8, WriteFailed>
    ensures { IfOk result (WritesAnswer find_text find_status
        (MayFind hex.now (folder.new ≡ folder.old)
        (MayOpen (T.tree folder.old) path.now (T.failure_count folder.old)
        (T.failure_count folder.new)))
        (W.contents writer.old) (W.contents writer.new)) }
{
    run::run_find(alloc, folder, path, hex, writer)
}

fn run_ancestor<T: Folder, W: Write>(
    alloc: Global,
    folder: &mut T,
    path: &str,
    first: &str,
    second: &str,
    writer: &mut W,
) -> Result<u8, WriteFailed>
    ensures { IfOk result (WritesAnswer ancestor_text ancestor_status
        (MayRelate first.now second.now (folder.new ≡ folder.old)
        (MayOpen (T.tree folder.old) path.now (T.failure_count folder.old)
        (T.failure_count folder.new)))
        (W.contents writer.old) (W.contents writer.new)) }
{
    run::run_ancestor(alloc, folder, path, first, second, writer)
}

fn write_failed() -> WriteFailed {
    bounds::plain::<WriteFailed>();
    bounds::from::<io::Error, WriteFailed>();
    WriteFailed
}
