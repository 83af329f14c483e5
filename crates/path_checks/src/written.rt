//! The filters of a graph against those that Git writes, by trees that are asked for.

ghost use Rattle.std.specs.Prelude.{◌≡◌, ◌≢◌, [], Err, IfErr, OnOk, length};
ghost use Rattle.gix_commitgraph.specs.Graph.{total};
ghost use Rattle.gix_commitgraph.specs.Sound.{Sound};
ghost use Rattle.object_stream.specs.declared.object_type.ObjectType.TheVariants.{Tree};
ghost use Rattle.tree_requests.specs.TakenTree.{AreRequestLines};
ghost use Rattle.path_checks.specs.WrittenByStream.{AreWrittenByStream, AreWrittenOfKind};
ghost use Rattle.path_checks.specs.WrittenByStream.{MayDifferByStream, MayDifferOfKind, bounds_for};

use crate::check::told_of;
use crate::error::PathsError;
use crate::lent::{LentReader, LentWriter};
use crate::settings::git_settings;
use filter_checks::check_written_filters;
use gix_commitgraph::Graph;
use graph_chunks::filters::GraphFilters;
use object_stream::ObjectType;
use path_filters::{Bounds, Settings};
use std::alloc::Global;
use std::io::{Read, Write};
use std::marker::Brand;
use tree_requests::{Exchange, Requests, TreeRequests};

/// Checks the filters of a right graph, as [`check_written_filters`] does, by trees for which it
/// asks: whether each that was computed is the one that Git writes, to the last bit.
///
/// Git makes filters beside those of a graph by the version, the number of hashes and the bits for
/// each path of the lowest layer that has filters, and for 512 paths at most. Trees are asked for
/// as [`check_by_requests`](crate::check_by_requests) asks, but also for filters that have all
/// bits.
///
/// # Errors
///
/// `WriteFailed` where the writer fails; else `Filter` with the first commit whose filter is
/// refused, also where the stream ends the way; `Device` where a read fails, and `OutOfMemory`
/// where memory runs out.
pub fn check_written_by_requests<R: Read, W: Write>(
    alloc: Global,
    graph: &Graph,
    filters: &GraphFilters<'_>,
    trees: usize,
    reader: &mut R,
    writer: &mut W,
) -> Result<(), PathsError>
    requires sound { Sound graph.now }
    requires filters { length filters.now.filters ≡ total graph.now }
    ensures written { result ≢ Err PathsError.WriteFailed
        → AreRequestLines (W.contents writer.old) (W.contents writer.new) }
    ensures same { OnOk result
        (AreWrittenByStream (R.remaining reader.old) graph.now filters.now) }
    ensures refused { IfErr result
        (MayDifferByStream (R.remaining reader.old) trees graph.now filters.now) }
{
    let kind = graph.object_hash();
    let Ok(requests) = Requests::new(alloc, kind, ObjectType::Tree) else {
        return Err(PathsError::OutOfMemory);
    };
    let (reader, writer, told) = check_owned::<Brand, LentReader<'_, R>, LentWriter<'_, W>>(
        alloc,
        graph,
        filters,
        git_settings(graph, filters),
        bounds_for(trees),
        requests,
        LentReader { reader },
        LentWriter { writer },
    );
    // They are taken apart, so that it is known what has become of the writer.
    let LentReader { reader: _reader } = reader;
    let LentWriter { writer: _writer } = writer;
    told
}

/// The same by requests that have asked for nothing. Answers the reader and the writer too.
fn check_owned<E: Exchange, R: Read, W: Write>(
    alloc: Global,
    graph: &Graph,
    filters: &GraphFilters<'_>,
    settings: Settings,
    bounds: Bounds,
    requests: Requests,
    reader: R,
    writer: W,
) -> (R, W, Result<(), PathsError>)
    requires sound { Sound graph.now }
    requires filters { length filters.now.filters ≡ total graph.now }
    requires trees { requests.type ≡ Tree }
    requires asked { requests.asked ≡ [] }
    requires ahead { requests.ahead ≡ [] }
    requires stream { E.stream ≡ R.remaining reader }
    requires before { E.written ≡ W.contents writer }
    ensures written { result.2 ≢ Err PathsError.WriteFailed
        → AreRequestLines E.written (W.contents result.1) }
    ensures same { OnOk result.2
        (AreWrittenOfKind requests.kind E.stream settings graph.now filters.now) }
    ensures refused { IfErr result.2
        (MayDifferOfKind requests.kind E.stream settings bounds graph.now filters.now) }
{
    let mut source = TreeRequests::<E, R, W>::new(alloc, requests, reader, writer);
    let checked = check_written_filters(alloc, graph, filters, &mut source, settings, bounds);
    let (reader, writer, broken) = source.finish();
    (reader, writer, told_of(checked, broken))
}

/// The bounds of a check by which so many trees may be read for a commit.
fn bounds_for(trees: usize) -> Bounds
    ensures { result ≡ bounds_for trees }
{
    Bounds { names: 2048, trees }
}
