//! Opening a graph by parts.

ghost use Rattle.std.specs.Prelude.{◌≡◌, All, IfErr, IfOk, IfSome, IsErrOf, None};
ghost use Rattle.std.specs.Option.{ForSome};
ghost use Rattle.graph_folder.specs.Tree.{file_at};
ghost use Rattle.graph_folder.specs.Failures.{failures_after};
ghost use Rattle.gix_commitgraph.specs.OpenAlways.{IsFromChain, IsFromFile, IsFromInfo};
ghost use Rattle.gix_commitgraph.specs.OpenAlways.{IsFromPath};
ghost use Rattle.gix_commitgraph.specs.Opening.{chain_opened, file_opened, info_opened};
ghost use Rattle.graph_find.specs.ReadHead.{IsHead};
ghost use Rattle.graph_parts.specs.OpenedParts.{ChainPartsWereRead, FilePartsWereRead};
ghost use Rattle.graph_parts.specs.OpenedParts.{InfoPartsWereRead, PathPartsWereRead};
ghost use Rattle.graph_parts.specs.PathOpening.{opened_at, parts_answer};
ghost use Rattle.graph_parts.specs.Shown.{ArePartsOf, AreUnread};

use crate::layer::LayerParts;
use crate::parts::GraphParts;
use gix_commitgraph::opening::{OpenError, Opener, open_by, open_info_by};
use graph_find::chain::{ChainLayer, make_graph, read_layers};
use graph_find::reading::read_head;
use graph_folder::folder::{Folder, ReadError};
use std::alloc::Global;

/// The parts of the file at the path, as a graph of this file alone: its first bytes are read.
/// `None` where the file is refused or is to be read whole: the graph is to be opened whole then.
///
/// # Errors
///
/// Those of a read of the file: `NotOpened`, `Device` and `OutOfMemory`. The folder's count of
/// failures rises with `Device`.
pub fn open_file_parts<T: Folder>(
    alloc: Global,
    folder: &mut T,
    path: &str,
) -> Result<Option<GraphParts>, ReadError>
    ensures opened { IfOk result (λ answer. IfSome answer (ArePartsOf (T.tree folder.old)
        (λ tree. file_opened tree path.now) (IsFromFile path.now))) }
    ensures given { IfOk result (λ answer. IfSome answer
        (FilePartsWereRead T.gives_part path.now)) }
    ensures not_opened { ForSome (T.tree folder.old) (λ tree.
        IsErrOf result ReadError.NotOpened → file_at tree path.now ≡ None) }
    ensures tree { T.tree folder.new ≡ T.tree folder.old }
    ensures failures { T.failure_count folder.new
        ≡ failures_after result (T.failure_count folder.old) }
{
    let Some(head) = read_head(alloc, folder, path)? else {
        return Ok(None);
    };
    let path = String::from_str(alloc, path).map_err(|_| ReadError::OutOfMemory)?;
    let mut layers = Vec::new(alloc);
    let layer = LayerParts::new(alloc, ChainLayer { path, head });
    layers.push(layer).map_err(|_| ReadError::OutOfMemory)?;
    Ok(Some(GraphParts { layers }))
}

/// The parts of the layers of the chain folder at the path: the chain file and the first bytes of
/// each layer are read. `None` where a layer is refused or is to be read whole, or the layers make
/// no graph: the chain is to be opened whole then.
///
/// # Errors
///
/// Those of a read of the chain file or of a layer: `NotOpened`, `Device` and `OutOfMemory`. The
/// folder's count of failures rises with `Device`.
pub fn open_chain_parts<T: Folder>(
    alloc: Global,
    folder: &mut T,
    path: &str,
) -> Result<Option<GraphParts>, ReadError>
    ensures opened { IfOk result (λ answer. IfSome answer (ArePartsOf (T.tree folder.old)
        (λ tree. chain_opened tree path.now) (IsFromChain path.now))) }
    ensures given { IfOk result (λ answer. IfSome answer
        (ChainPartsWereRead T.gives T.gives_part path.now)) }
    ensures tree { T.tree folder.new ≡ T.tree folder.old }
    ensures failures { T.failure_count folder.new
        ≡ failures_after result (T.failure_count folder.old) }
{
    let Some(files) = read_layers(alloc, folder, path)? else {
        return Ok(None);
    };
    if !make_graph(&files) {
        return Ok(None);
    }
    let layers = parts_of(alloc, files)?;
    Ok(Some(GraphParts { layers }))
}

/// The parts of the info folder at the path: those of its file, or where there is none of its
/// chain. `None` where the file is refused or is to be read whole, or the chain is: the folder is
/// to be opened whole then.
///
/// # Errors
///
/// Those of a read of a file: `NotOpened`, `Device` and `OutOfMemory`. The folder's count of
/// failures rises with `Device`.
pub fn open_info_parts<T: Folder>(
    alloc: Global,
    folder: &mut T,
    path: &str,
) -> Result<Option<GraphParts>, ReadError>
    ensures opened { IfOk result (λ answer. IfSome answer (ArePartsOf (T.tree folder.old)
        (λ tree. info_opened tree path.now) (IsFromInfo path.now))) }
    ensures given { IfOk result (λ answer. IfSome answer
        (InfoPartsWereRead T.gives T.gives_part path.now)) }
    ensures tree { T.tree folder.new ≡ T.tree folder.old }
    ensures failures { T.failure_count folder.new
        ≡ failures_after result (T.failure_count folder.old) }
{
    parts_of_answer(open_info_by(alloc, folder, path, &mut PartOpener))
}

/// The parts of what stands at the path: of a file as [`open_file_parts`] has them, of a folder in
/// which a file `commit-graph-chain` stands as [`open_chain_parts`] does, and of any other folder
/// as [`open_info_parts`] does. `None` also where neither a file nor a folder stands there.
///
/// # Errors
///
/// Those of a read of a file: `NotOpened`, `Device` and `OutOfMemory`. The folder's count of
/// failures rises with `Device`.
pub fn open_parts<T: Folder>(
    alloc: Global,
    folder: &mut T,
    path: &str,
) -> Result<Option<GraphParts>, ReadError>
    ensures opened { IfOk result (λ answer. IfSome answer (ArePartsOf (T.tree folder.old)
        (λ tree. opened_at tree path.now) (IsFromPath path.now))) }
    ensures given { IfOk result (λ answer. IfSome answer
        (PathPartsWereRead T.gives T.gives_part path.now)) }
    ensures tree { T.tree folder.new ≡ T.tree folder.old }
    ensures failures { T.failure_count folder.new
        ≡ failures_after result (T.failure_count folder.old) }
{
    parts_of_answer(open_by(alloc, folder, path, &mut PartOpener))
}

/// Opens files and chain folders by parts. Only where no file is opened is the chain folder of an
/// info folder tried.
#[derive(Drop)]
struct PartOpener;

impl Opener for PartOpener {
    ghost use Rattle.std.specs.Prelude.{⊤};
    ghost use Rattle.graph_parts.specs.OpenedParts.{ChainPartsWereRead, FilePartsWereRead};
    ghost use Rattle.graph_parts.specs.OpenedParts.{IfPartsOpened};
    ghost use Rattle.graph_parts.specs.PathOpening.{ChainPartsCome, FilePartsCome};

    type Opened = Result<Option<GraphParts>, ReadError>;

    ghost Known = { ⊤ };

    ghost known = { λ _. tt };

    ghost is_ready = { λ _. ⊤ };

    ghost of_file = { λ _ known _ gives_part path old new _ _ answer.
        FilePartsCome known path old new answer
        × IfPartsOpened (FilePartsWereRead gives_part path) answer };

    ghost of_chain = { λ _ known gives gives_part path old new _ _ answer.
        ChainPartsCome known path old new answer
        × IfPartsOpened (ChainPartsWereRead gives gives_part path) answer };

    fn file<T: Folder>(
        &mut self,
        alloc: Global,
        folder: &mut T,
        path: &str,
    ) -> Result<Result<Option<GraphParts>, ReadError>, OpenError> {
        match open_file_parts(alloc, folder, path) {
            Err(ReadError::NotOpened) => Err(OpenError::NotOpened),
            answer => Ok(answer),
        }
    }

    fn chain<T: Folder>(
        &mut self,
        alloc: Global,
        folder: &mut T,
        path: &str,
    ) -> Result<Result<Option<GraphParts>, ReadError>, OpenError> {
        Ok(open_chain_parts(alloc, folder, path))
    }
}

/// The answer of what was opened by parts. Where nothing stands at the path, it is `None`.
fn parts_of_answer(
    answer: Result<Result<Option<GraphParts>, ReadError>, OpenError>,
) -> Result<Option<GraphParts>, ReadError>
    ensures { result ≡ parts_answer answer }
{
    match answer {
        Ok(answer) => answer,
        Err(OpenError::NotOpened) => Err(ReadError::NotOpened),
        Err(OpenError::OutOfMemory) => Err(ReadError::OutOfMemory),
        Err(_) => Ok(None),
    }
}

/// The parts of files, of which none was read.
fn parts_of(alloc: Global, files: Vec<ChainLayer>) -> Result<Vec<LayerParts>, ReadError>
    requires { All (λ file. IsHead file.head) files.items }
    ensures parts { IfOk result (λ layers. AreUnread files.items layers.items) }
    ensures memory { IfErr result (λ error. error ≡ ReadError.OutOfMemory) }
{
    let mut layers = Vec::new(alloc);
    for file in files {
        layers
            .push(LayerParts::new(alloc, file))
            .map_err(|_| ReadError::OutOfMemory)?;
    }
    Ok(layers)
}
