//! The search for an id in one layer, by its head.

ghost use Rattle.std.specs.Prelude.{◌≡◌, ◌+◌, length, IfOk, IsErrOf, None};
ghost use Rattle.std.specs.Option.{ForSome};
ghost use Rattle.gix_hash_core.specs.Kind.{id_len};
ghost use Rattle.gix_hash_core.specs.Oid.{oid_bytes};
ghost use Rattle.graph_folder.specs.Tree.{file_at};
ghost use Rattle.graph_folder.specs.Failures.{failures_after};
ghost use Rattle.graph_format.specs.Format.{record_of};
ghost use Rattle.graph_find.specs.ReadHead.{IsHead, BeginsAt};
ghost use Rattle.graph_find.specs.LayerFinding.{FindsInLayer};

use crate::answer::{FoundCommit, SearchAnswer};
use crate::bucket::find_in_bucket;
use crate::head::Head;
use crate::reading::read_range;
use gix_hash_core::{Kind, oid};
use graph_folder::folder::{Folder, ReadError};
use graph_format::chunks::record_len;
use graph_format::records::generation_and_time;
use std::alloc::Global;

/// Searches the layer of a file that begins with this head: it reads the ids that begin with the
/// same byte, and one record.
pub(crate) fn find_in_layer<T: Folder>(
    alloc: Global,
    folder: &mut T,
    path: &str,
    head: &Head,
    id: oid<'_>,
) -> Result<SearchAnswer, ReadError>
    requires head { IsHead head.now }
    requires begins { BeginsAt (T.tree folder.old) path.now head.now }
    ensures found { IfOk result
        (FindsInLayer (T.tree folder.old) path.now head.now (oid_bytes id.entry)) }
    ensures not_opened { ForSome (T.tree folder.old) (λ tree.
        IsErrOf result ReadError.NotOpened → file_at tree path.now ≡ None) }
    ensures tree { T.tree folder.new ≡ T.tree folder.old }
    ensures failures { T.failure_count folder.new
        ≡ failures_after result (T.failure_count folder.old) }
{
    let (layout, file_len) = (head.layout, head.len);
    let wanted = id.as_bytes();
    let size = layout.kind.len_in_bytes();
    if wanted.len() != size {
        return Ok(SearchAnswer::Missing);
    }
    let span = head.span(id.first_byte());
    if span.end < span.start || layout.commits < span.end {
        return Ok(SearchAnswer::NotByParts);
    }
    let start = layout.chunks.ids.start + size * span.start as usize;
    let len = size * (span.end - span.start) as usize;
    let Some(ids) = read_range(alloc, folder, path, file_len, start, len)? else {
        return Ok(SearchAnswer::NotByParts);
    };
    let (found, _) = find_in_bucket(&ids, span, wanted);
    let Some(pos) = found else {
        return Ok(SearchAnswer::Missing);
    };
    let len = record_len(layout.kind);
    let start = layout.chunks.records.start + len * pos as usize;
    let Some(record) = read_range(alloc, folder, path, file_len, start, len)? else {
        return Ok(SearchAnswer::NotByParts);
    };
    Ok(SearchAnswer::Found(commit_of(layout.kind, pos, &record)))
}

/// What the bytes of a record say of the commit at a position.
fn commit_of(kind: Kind, pos: u32, fields: &[u8]) -> FoundCommit
    requires { length fields.now ≡ id_len kind + 16 }
    ensures pos { result.pos ≡ pos }
    ensures generation { result.generation ≡ (record_of kind fields.now).generation }
    ensures time { result.time ≡ (record_of kind fields.now).time }
{
    let (generation, time) = generation_and_time(kind, fields);
    FoundCommit {
        pos,
        generation,
        time,
    }
}
