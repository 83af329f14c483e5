//! The filters of a graph against trees that are asked for.

ghost use Rattle.std.specs.Prelude.{◌≡◌, ◌≢◌, [], Err, IfErr, OnOk, Some, length};
ghost use Rattle.gix_commitgraph.specs.Graph.{total};
ghost use Rattle.gix_commitgraph.specs.Sound.{Sound};
ghost use Rattle.object_stream.specs.declared.object_type.ObjectType.TheVariants.{Tree};
ghost use Rattle.tree_requests.specs.TakenTree.{AreRequestLines};
ghost use Rattle.path_checks.specs.RightByStream.{AreRightByStream, AreRightOfKind};
ghost use Rattle.path_checks.specs.RightByStream.{MayRefuseByStream, MayRefuseOfKind, limits_for};
ghost use Rattle.path_checks.specs.ToldFault.{IsToldBy};

use crate::error::PathsError;
use crate::lent::{LentReader, LentWriter};
use crate::told::error_of;
use filter_checks::{RefusedFilter, check_filters};
use gix_commitgraph::Graph;
use graph_chunks::filters::GraphFilters;
use object_stream::ObjectType;
use std::alloc::Global;
use std::io::{Read, Write};
use std::marker::Brand;
use tree_changes::Limits;
use tree_requests::{Exchange, RequestError, Requests, TreeRequestError, TreeRequests};

/// Checks the filters of a right graph, as [`check_filters`] does, by trees for which it asks.
///
/// It writes the id of a tree that it needs as a line, and reads the entry that answers. A tree
/// that was read is kept, and asked for again only where there was no room to keep it. For each
/// commit, only so many trees are read.
///
/// # Errors
///
/// `WriteFailed` where the writer fails; else `Filter` with the first commit whose filter is
/// refused, also where the stream ends the way; `Device` where a read fails, and `OutOfMemory`
/// where memory runs out.
pub fn check_by_requests<R: Read, W: Write>(
    alloc: Global,
    graph: &Graph,
    filters: &GraphFilters<'_>,
    trees: usize,
    reader: &mut R,
    writer: &mut W,
) -> Result<(), PathsError>
    requires sound { Sound graph.now }
    requires filters { length filters.now.filters ≡ total graph.now }
    ensures written { result ≢ Err PathsError.WriteFailed
        → AreRequestLines (W.contents writer.old) (W.contents writer.new) }
    ensures right { OnOk result
        (AreRightByStream (R.remaining reader.old) graph.now filters.now) }
    ensures refused { IfErr result
        (MayRefuseByStream (R.remaining reader.old) trees graph.now filters.now) }
{
    let kind = graph.object_hash();
    let Ok(requests) = Requests::new(alloc, kind, ObjectType::Tree) else {
        return Err(PathsError::OutOfMemory);
    };
    let (reader, writer, told) = check_owned::<Brand, LentReader<'_, R>, LentWriter<'_, W>>(
        alloc,
        graph,
        filters,
        limits_for(trees),
        requests,
        LentReader { reader },
        LentWriter { writer },
    );
    // They are taken apart, so that it is known what has become of the writer.
    let LentReader { reader: _reader } = reader;
    let LentWriter { writer: _writer } = writer;
    told
}

/// The same by requests that have asked for nothing. Answers the reader and the writer too.
fn check_owned<E: Exchange, R: Read, W: Write>(
    alloc: Global,
    graph: &Graph,
    filters: &GraphFilters<'_>,
    limits: Limits,
    requests: Requests,
    reader: R,
    writer: W,
) -> (R, W, Result<(), PathsError>)
    requires sound { Sound graph.now }
    requires filters { length filters.now.filters ≡ total graph.now }
    requires trees { requests.type ≡ Tree }
    requires asked { requests.asked ≡ [] }
    requires ahead { requests.ahead ≡ [] }
    requires stream { E.stream ≡ R.remaining reader }
    requires before { E.written ≡ W.contents writer }
    ensures written { result.2 ≢ Err PathsError.WriteFailed
        → AreRequestLines E.written (W.contents result.1) }
    ensures right { OnOk result.2
        (AreRightOfKind requests.kind E.stream graph.now filters.now) }
    ensures refused { IfErr result.2
        (MayRefuseOfKind requests.kind E.stream limits graph.now filters.now) }
{
    let mut source = TreeRequests::<E, R, W>::new(alloc, requests, reader, writer);
    let checked = check_filters(alloc, graph, filters, &mut source, limits);
    let (reader, writer, broken) = source.finish();
    (reader, writer, told_of(checked, broken))
}

/// What is told of a check, once it is known why no more trees could be read, if that is so.
pub(crate) fn told_of(
    checked: Result<(), RefusedFilter<TreeRequestError>>,
    broken: Option<RequestError>,
) -> Result<(), PathsError>
    ensures failed { result ≢ Err PathsError.WriteFailed → broken ≢ Some RequestError.WriteFailed }
    ensures told { IsToldBy checked result }
{
    if let Some(RequestError::WriteFailed) = broken {
        return Err(PathsError::WriteFailed);
    }
    match checked {
        Ok(()) => Ok(()),
        Err(RefusedFilter { pos, why }) => Err(error_of(pos, why)),
    }
}

/// The limits of a check by which so many trees may be read for a commit.
fn limits_for(trees: usize) -> Limits
    ensures { result ≡ limits_for trees }
{
    Limits {
        paths: usize::MAX,
        names: 2048,
        trees,
    }
}
