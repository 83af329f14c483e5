//! Parts of a file, read from a folder.

ghost use Rattle.std.specs.Prelude.{◌≡◌, ◌+◌, ◌≤◌, length, slice_range, IfOk, IfSome, IsSomeAnd};
ghost use Rattle.std.specs.Prelude.{◌==◌, ◌&&◌, if◌then◌else◌, IsErrOf, Some, None};
ghost use Rattle.std.specs.Option.{ForSome};
ghost use Rattle.graph_folder.specs.Tree.{file_at};
ghost use Rattle.graph_folder.specs.Failures.{failures_after};
ghost use Rattle.graph_format.specs.Head.{BeginsWith};
ghost use Rattle.graph_find.specs.PartsRead.{BytesWereRead, HeadWasRead};
ghost use Rattle.graph_find.specs.ReadHead.{IsHead};

use crate::head::{Head, head_of};
use graph_folder::folder::{Folder, Part, ReadError};
use std::alloc::Global;

/// How many bytes are read first: the header, a table of chunks of the greatest number of chunks,
/// and the fan behind it.
const FRONT_LEN: usize = 8 + 256 * 12 + 1024;

/// The head of the file at the path, if it is read by parts and accepted.
///
/// # Errors
///
/// Those of a read of the file: `NotOpened`, `Device` and `OutOfMemory`.
pub fn read_head<T: Folder>(
    alloc: Global,
    folder: &mut T,
    path: &str,
) -> Result<Option<Head>, ReadError>
    ensures head { IfOk result (λ answer. IfSome answer IsHead) }
    ensures begins { ForSome (T.tree folder.old) (λ tree.
        IfOk result (λ answer. IfSome answer (λ head. IsSomeAnd (file_at tree path.now) (λ file.
        BeginsWith file head.front.items head.len)))) }
    ensures given { IfOk result (λ answer.
        IfSome answer (HeadWasRead T.gives_part path.now)) }
    ensures not_opened { ForSome (T.tree folder.old) (λ tree.
        IsErrOf result ReadError.NotOpened → file_at tree path.now ≡ None) }
    ensures tree { T.tree folder.new ≡ T.tree folder.old }
    ensures failures { T.failure_count folder.new
        ≡ failures_after result (T.failure_count folder.old) }
{
    match folder.read_part(alloc, path, 0, FRONT_LEN)? {
        Some(part) => Ok(head_of(part.bytes, part.file_len as usize)),
        None => Ok(None),
    }
}

/// So many bytes of the file at the path, if the file still has its length.
///
/// # Errors
///
/// Those of a read of the file: `NotOpened`, `Device` and `OutOfMemory`.
pub fn read_range<T: Folder>(
    alloc: Global,
    folder: &mut T,
    path: &str,
    file_len: usize,
    start: usize,
    len: usize,
) -> Result<Option<Vec<u8>>, ReadError>
    ensures size { IfOk result (λ answer. IfSome answer (λ bytes. length bytes.items ≡ len)) }
    ensures part { ForSome (T.tree folder.old) (λ tree.
        IfOk result (λ answer. IfSome answer (λ bytes. IsSomeAnd (file_at tree path.now) (λ file.
        slice_range file start (start + len) ≡ bytes.items)))) }
    ensures given { IfOk result (λ answer. IfSome answer (λ bytes.
        BytesWereRead T.gives_part path.now file_len start bytes.items)) }
    ensures not_opened { ForSome (T.tree folder.old) (λ tree.
        IsErrOf result ReadError.NotOpened → file_at tree path.now ≡ None) }
    ensures tree { T.tree folder.new ≡ T.tree folder.old }
    ensures failures { T.failure_count folder.new
        ≡ failures_after result (T.failure_count folder.old) }
{
    match folder.read_part(alloc, path, start as u64, len)? {
        Some(part) => Ok(bytes_of(part, file_len, len)),
        None => Ok(None),
    }
}

/// The bytes of a part, if there are so many, and the file has this length.
fn bytes_of(part: Part, file_len: usize, len: usize) -> Option<Vec<u8>>
    ensures { result ≡ (if (part.file_len == file_len) && (length part.bytes.items == len)
        then Some part.bytes else None) }
{
    if part.file_len == file_len as u64 && part.bytes.len() == len {
        Some(part.bytes)
    } else {
        None
    }
}
