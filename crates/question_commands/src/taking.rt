//! The graph at a path, opened anew beside one that stands.

ghost use Rattle.std.specs.Prelude.{◌≡◌, All, IfErr, IfOk, IfSome, IsSomeAnd, IsTrue, MatchOption};
ghost use Rattle.std.specs.Prelude.{Ok, length, map, true, ◌++◌, ℕ};
ghost use Rattle.std.specs.Option.{ForSome};
ghost use Rattle.std.specs.Str.{is_utf8};
ghost use Rattle.std.specs.Str.Lines.{lines};
ghost use Rattle.graph_format.specs.Layer.{IsOpened};
ghost use Rattle.graph_commands.specs.OpenerAnswer.{OpensStopping};
ghost use Rattle.graph_history.specs.RightGraph.{plain_options};
ghost use Rattle.graph_layer.specs.LayerOpening.{LayerWasRead};
ghost use Rattle.graph_layer.specs.OpenAnswer.{failures_after_opening};
ghost use Rattle.gix_commitgraph.specs.Opening.{chain_opened, file_opened, layer_of_line};
ghost use Rattle.gix_commitgraph.specs.Opening.{layers_from};
ghost use Rattle.gix_commitgraph.specs.Paths.{layer_path};
ghost use Rattle.gix_commitgraph.specs.WasRead.{ChainWasRead, FileWasRead, PathWasRead};
ghost use Rattle.question_commands.specs.ReadOpening.{MayOpenAsRead, OpensAsRead};
ghost use Rattle.question_commands.specs.TakenAnew.{IsDeviceOrMemory, IsThisGraph, OpensAbove};
ghost use Rattle.question_commands.specs.TakenAnew.{PutsAbove, Takes, TakesBy, layers_with};
ghost use Rattle.question_commands.specs.TakenAnew.{lines_opened};

use gix_commitgraph::opening::path::layer_path;
use gix_commitgraph::opening::{
    OpenError, Opener, open_by, open_chain_dir_in, open_file_in, open_lines, read_chain, text_of,
};
use gix_commitgraph::verify::VerifyError;
use gix_commitgraph::{File, Graph, GraphError};
use graph_ancestors::NoFault;
use graph_commands::refusal::Refusal;
use graph_folder::chain::Lines;
use graph_folder::folder::{Folder, ReadError};
use graph_history::{CheckedGraph, PushError};
use std::alloc::{AllocError, Global};

/// What the check of an opened graph says: how many commits were checked, or why it is refused.
type Checked = Result<u32, VerifyError<NoFault>>;

/// Opens the graph at the path anew, and puts it in the place of the one that stands, unless it is
/// refused. It answers how many commits were checked.
///
/// Its lowest layers are not checked again as far as they are those of the graph that stands. If
/// all layers of that graph are among them, these are only compared with their files, and stay.
/// Others may write meanwhile: each layer of the new graph, also one that stays, is a file that was
/// there, as a read of its path gave it in this call.
///
/// # Errors
///
/// `Open` where no graph was opened, and `Verify` where the check refused it. The graph is the one
/// of before then.
pub fn take_anew<T: Folder>(
    alloc: Global,
    folder: &mut T,
    path: &str,
    graph: &mut CheckedGraph,
) -> Result<u32, Refusal>
    requires { graph.old.options ≡ plain_options }
    ensures taken { Takes (MayOpenAsRead (T.tree folder.old) T.gives path.now
        (T.failure_count folder.old) (T.failure_count folder.new))
        graph.old.layers graph.new.layers result }
    ensures given { IfOk result (λ _. PathWasRead T.gives path.now graph.new.layers) }
    ensures options { graph.new.options ≡ plain_options }
    ensures tree { T.tree folder.new ≡ T.tree folder.old }
{
    let mut taking = Taking { graph };
    let checked = open_by(alloc, folder, path, &mut taking)?;
    Ok(checked?)
}

/// Puts the graphs of files and of chain folders in the place of the one that stands. A graph that
/// its check refuses was opened, so that no other is tried.
#[derive(Drop)]
struct Taking<'g> {
    graph: &'g mut CheckedGraph,
}

impl Opener for Taking<'_> {
    ghost use Rattle.std.specs.Prelude.{◌≡◌, ℕ};
    ghost use Rattle.gix_commitgraph.specs.Opening.{chain_opened, file_opened};
    ghost use Rattle.gix_commitgraph.specs.WasRead.{ChainWasRead, FileWasRead};
    ghost use Rattle.graph_commands.specs.OpenerAnswer.{OpensStopping};
    ghost use Rattle.graph_history.specs.RightGraph.{plain_options};
    ghost use Rattle.question_commands.specs.ReadOpening.{OpensAsRead};
    ghost use Rattle.question_commands.specs.TakenAnew.{TakesBy};

    type Opened = Checked;

    ghost Known = { ℕ };

    ghost known = { λ taking. taking.graph.ghost_name };

    ghost is_ready = { λ taking. taking.graph.now.options ≡ plain_options };

    ghost of_file = { λ _ known gives _ path old new before after.
        TakesBy (OpensAsRead (OpensStopping known (λ tree. file_opened tree path) old new)
        (FileWasRead gives path)) before.graph.now.layers after.graph.now.layers };

    ghost of_chain = { λ _ known gives _ path old new before after.
        TakesBy (OpensAsRead (OpensStopping known (λ tree. chain_opened tree path) old new)
        (ChainWasRead gives path)) before.graph.now.layers after.graph.now.layers };

    fn file<T: Folder>(
        &mut self,
        alloc: Global,
        folder: &mut T,
        path: &str,
    ) -> Result<Checked, OpenError> {
        take_file(alloc, folder, path, self.graph)
    }

    fn chain<T: Folder>(
        &mut self,
        alloc: Global,
        folder: &mut T,
        path: &str,
    ) -> Result<Checked, OpenError> {
        take_chain(alloc, folder, path, self.graph)
    }
}

/// Takes the graph of a file.
fn take_file<T: Folder>(
    alloc: Global,
    folder: &mut T,
    path: &str,
    graph: &mut CheckedGraph,
) -> Result<Checked, OpenError>
    requires { graph.old.options ≡ plain_options }
    ensures taken { TakesBy (OpensAsRead (OpensStopping (T.tree folder.old)
        (λ tree. file_opened tree path.now) (T.failure_count folder.old)
        (T.failure_count folder.new)) (FileWasRead T.gives path.now))
        graph.old.layers graph.new.layers result }
    ensures options { graph.new.options ≡ plain_options }
    ensures tree { T.tree folder.new ≡ T.tree folder.old }
{
    let opened = open_file_in(alloc, folder, path)?;
    Ok(take_opened(alloc, opened, graph))
}

/// Takes the graph of a chain folder.
fn take_chain<T: Folder>(
    alloc: Global,
    folder: &mut T,
    path: &str,
    graph: &mut CheckedGraph,
) -> Result<Checked, OpenError>
    requires { graph.old.options ≡ plain_options }
    ensures taken { TakesBy (OpensAsRead (OpensStopping (T.tree folder.old)
        (λ tree. chain_opened tree path.now) (T.failure_count folder.old)
        (T.failure_count folder.new)) (ChainWasRead T.gives path.now))
        graph.old.layers graph.new.layers result }
    ensures options { graph.new.options ≡ plain_options }
    ensures tree { T.tree folder.new ≡ T.tree folder.old }
{
    let above = open_above(alloc, folder, path, graph.as_checked().graph().layers())?;
    if let Some(answer) = put_above(alloc, above, graph) {
        return answer;
    }
    let opened = open_chain_dir_in(alloc, folder, path)?;
    Ok(take_opened(alloc, opened, graph))
}

/// Puts these layers on top of the graph, and answers what came of it; or `None`, where all layers
/// are to be opened anew: no layers are given, or they make no graph with those below.
fn put_above(
    alloc: Global,
    above: Option<Vec<File>>,
    graph: &mut CheckedGraph,
) -> Option<Result<Checked, OpenError>>
    requires { graph.old.options ≡ plain_options }
    ensures put { MatchOption result (graph.new.layers ≡ graph.old.layers)
        (λ answer. IsSomeAnd above (λ files.
        PutsAbove graph.old.layers files.items graph.new.layers answer)) }
    ensures options { graph.new.options ≡ plain_options }
{
    match graph.push_all(alloc, above?) {
        Ok(checked) => Some(Ok(Ok(checked))),
        Err(PushError::Check(error)) => Some(Ok(Err(error))),
        Err(PushError::Graph(GraphError::OutOfMemory)) => Some(Err(OpenError::OutOfMemory)),
        Err(PushError::Graph(_)) => None,
    }
}

/// Takes a graph that was opened.
fn take_opened(alloc: Global, opened: Graph, graph: &mut CheckedGraph) -> Checked
    requires { graph.old.options ≡ plain_options }
    ensures taken { TakesBy (IsThisGraph opened) graph.old.layers graph.new.layers (Ok result) }
    ensures options { graph.new.options ≡ plain_options }
{
    let taken = graph.as_checked().reload(alloc, opened)?;
    *graph = taken.graph;
    Ok(taken.checked)
}

/// The layers of a chain folder above some that stand, if these are its lowest, with the same bytes
/// and the same paths.
fn open_above<T: Folder>(
    alloc: Global,
    folder: &mut T,
    path: &str,
    standing: &[File],
) -> Result<Option<Vec<File>>, OpenError>
    requires { All IsOpened standing.now }
    ensures opens { ForSome (T.tree folder.old) (λ tree.
        OpensAbove (chain_opened tree path.now) standing.now result) }
    ensures given { IfOk result (λ above. IfSome above (λ files.
        ChainWasRead T.gives path.now (standing.now ++ files.items))) }
    ensures tree { T.tree folder.new ≡ T.tree folder.old }
    ensures failures { T.failure_count folder.new
        ≡ failures_after_opening result (T.failure_count folder.old) }
{
    let text = read_chain(alloc, folder, path)?;
    open_lines_above(alloc, folder, path, text.as_slice(), standing)
}

/// The layers that the lines of a chain name above some that stand, if these are the lowest. Names
/// are compared before any bytes.
fn open_lines_above<T: Folder>(
    alloc: Global,
    folder: &mut T,
    path: &str,
    text: &[u8],
    standing: &[File],
) -> Result<Option<Vec<File>>, OpenError>
    requires { All IsOpened standing.now }
    ensures opens { ForSome (T.tree folder.old) (λ tree.
        OpensAbove (lines_opened tree path.now (lines text.now)) standing.now result) }
    ensures named { IfOk result (λ above. IfSome above (λ files.
        map (λ layer. layer.path) (standing.now ++ files.items)
        ≡ map (layer_path path.now) (lines text.now))) }
    ensures given { IfOk result (λ above. IfSome above (λ files.
        All (LayerWasRead T.gives) (standing.now ++ files.items))) }
    ensures tree { T.tree folder.new ≡ T.tree folder.old }
    ensures failures { T.failure_count folder.new
        ≡ failures_after_opening result (T.failure_count folder.old) }
{
    if !are_named(alloc, path, Lines::new(text), standing)? {
        return Ok(None);
    }
    let mut lines = Lines::new(text);
    if !are_lowest(alloc, folder, path, &mut lines, standing)? {
        return Ok(None);
    }
    Ok(Some(open_lines(alloc, folder, path, standing, lines)?))
}

/// Whether the first lines of a chain name these layers.
fn are_named(
    alloc: Global,
    path: &str,
    lines: Lines<'_>,
    standing: &[File],
) -> Result<bool, AllocError> {
    let mut lines = lines;
    for file in standing {
        let Some(line) = lines.next() else {
            return Ok(false);
        };
        if !is_name_of(alloc, path, line, file)? {
            return Ok(false);
        }
    }
    Ok(true)
}

/// Whether the first lines of a chain name these layers, and their files have the same bytes. Those
/// lines are gone over then.
fn are_lowest<T: Folder>(
    alloc: Global,
    folder: &mut T,
    path: &str,
    lines: &mut Lines<'_>,
    standing: &[File],
) -> Result<bool, OpenError>
    requires { All IsOpened standing.now }
    ensures lowest { ForSome (T.tree folder.old) (λ tree. IfOk result (λ lowest. IsTrue lowest
        → layers_from tree path.now 0 lines.old
        ≡ layers_with standing.now tree path.now (length standing.now) lines.new)) }
    ensures named { IfOk result (λ lowest. IsTrue lowest
        → map (layer_path path.now) lines.old
        ≡ map (λ layer. layer.path) standing.now ++ map (layer_path path.now) lines.new) }
    ensures given { IfOk result (λ lowest. IsTrue lowest
        → All (LayerWasRead T.gives) standing.now) }
    ensures errors { IfErr result IsDeviceOrMemory }
    ensures tree { T.tree folder.new ≡ T.tree folder.old }
    ensures failures { T.failure_count folder.new
        ≡ failures_after_opening result (T.failure_count folder.old) }
{
    for file in standing {
        let Some(line) = lines.next() else {
            return Ok(false);
        };
        if !is_file_of(alloc, folder, path, line, file)? {
            return Ok(false);
        }
    }
    Ok(true)
}

/// Whether a line of a chain names this layer, and its file has the same bytes.
fn is_file_of<T: Folder>(
    alloc: Global,
    folder: &mut T,
    path: &str,
    line: &[u8],
    file: &File,
) -> Result<bool, OpenError>
    requires { IsOpened file.now }
    ensures same { ForSome (T.tree folder.old) (λ tree. IfOk result (λ same. IsTrue same
        → (i : ℕ) → Ok file.now ≡ layer_of_line tree path.now i line.now)) }
    ensures named { IfOk result (λ same. IsTrue same
        → file.now.path ≡ layer_path path.now line.now) }
    ensures given { IfOk result (λ same. IsTrue same → LayerWasRead T.gives file.now) }
    ensures errors { IfErr result IsDeviceOrMemory }
    ensures tree { T.tree folder.new ≡ T.tree folder.old }
    ensures failures { T.failure_count folder.new
        ≡ failures_after_opening result (T.failure_count folder.old) }
{
    if !is_name_of(alloc, path, line, file)? {
        return Ok(false);
    }
    match folder.has_bytes(alloc, file.path(), file.bytes()) {
        Ok(same) => Ok(same),
        Err(ReadError::NotOpened) => Ok(false),
        Err(ReadError::Device) => Err(OpenError::Device),
        Err(ReadError::OutOfMemory) => Err(OpenError::OutOfMemory),
    }
}

/// Whether a line of a chain names this layer.
fn is_name_of(alloc: Global, path: &str, line: &[u8], file: &File) -> Result<bool, AllocError>
    ensures text { IfOk result (λ named. IsTrue named → is_utf8 line.now ≡ true) }
    ensures path { IfOk result (λ named. IsTrue named
        → file.now.path ≡ layer_path path.now line.now) }
{
    let Some(name) = text_of(line) else {
        return Ok(false);
    };
    let at = layer_path(alloc, path, name)?;
    Ok(at.as_str() == file.path())
}
