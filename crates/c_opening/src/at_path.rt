//! What is opened at a path, of what a caller knows of paths: the openers see the files that were
//! read, and where one is missing, what is known of its path decides.

ghost use Rattle.std.specs.Prelude.{◌≡◌, ◌∷◌, Err, IfErr, IfNone, IfOk, IfSome, None, Some, find};
ghost use Rattle.std.specs.Prelude.{not, option_and_then, option_map, slice_get, string_bytes};
ghost use Rattle.graph_folder.specs.Tree.{file_at, is_file};
ghost use Rattle.graph_format.specs.Refusal.{refusal};
ghost use Rattle.graph_layer.specs.OpenRefusals.{OutOfMemoryStandsAlone};
ghost use Rattle.gix_commitgraph.specs.Graph.{IsGraph};
ghost use Rattle.gix_commitgraph.specs.OpenAlways.{IsFileError, IsFolderError, IsFromChain};
ghost use Rattle.gix_commitgraph.specs.OpenAlways.{IsFromFile, IsFromInfo, IsFromPath, IsPathError};
ghost use Rattle.gix_commitgraph.specs.Paths.{chain_path};
ghost use Rattle.c_opening.specs.AtPath.{IsGraphAt, IsUnopenedAt};
ghost use Rattle.c_opening.specs.KnownPaths.{known_at, known_tree};
ghost use Rattle.c_opening.specs.KnownOpening.{AnswersAs, ByError, IfRefused, IsObstacle};
ghost use Rattle.c_opening.specs.KnownOpening.{chain_answer, file_answer, first_unread};
ghost use Rattle.c_opening.specs.KnownOpening.{folder_answer, info_answer, is_final, known_opened};
ghost use Rattle.c_opening.specs.KnownOpening.{layer_files, path_answer, refused_file};

use crate::known::{
    CgKnown, FOLDER, KnownFiles, NO_MEMORY, NOTHING, find, is_known_file, is_read, read_bytes,
};
use gix_commitgraph::opening::path::{chain_path, info_chain_path, info_file_path, layer_path};
use gix_commitgraph::opening::{OpenError, open_chain_dir_in, open_file_in};
use gix_commitgraph::{FileError, Graph};
use graph_folder::chain::Lines;
use graph_format::layout::layout_of;
use std::alloc::{AllocError, Global};

/// Why no graph is opened at a path.
#[derive(Drop)]
pub(crate) enum Unopened {
    /// The file at this path was not read, or nothing is known of the path.
    Unread(String),
    /// An error, and the path of the file that it is about; empty, where it is about none.
    Refused(OpenError, String),
    /// An allocation failed.
    NoMemory,
}

impl From<AllocError> for Unopened {
    ghost use Rattle.c_opening.specs.declared.at_path.Unopened.TheVariants.{NoMemory};

    ghost from_gives = { λ _ unopened. unopened ≡ NoMemory };

    fn from(_: AllocError) -> Unopened {
        Unopened::NoMemory
    }
}

/// Opens a file where `what` is 1, a chain folder where it is 2, an info folder where it is 3, and
/// else what stands at the path.
#[tactic(auto, unfolding(crate::specs::KnownOpening::known_opened))]
pub(crate) fn open_as(
    alloc: Global,
    known: &[CgKnown<'_>],
    path: &str,
    what: u32,
) -> Result<Graph, Unopened>
    ensures answer { AnswersAs (known_opened what known.now path.now) result }
    ensures opened { IfOk result (IsGraphAt what path.now) }
    ensures refused { IfErr result (IsUnopenedAt what) }
{
    match what {
        1 => open_file(alloc, known, path),
        2 => open_chain(alloc, known, path),
        3 => open_info(alloc, known, path),
        _ => open_any(alloc, known, path),
    }
}

/// Opens what stands at a path.
#[tactic(auto, unfolding(crate::specs::KnownOpening::path_answer))]
fn open_any(alloc: Global, known: &[CgKnown<'_>], path: &str) -> Result<Graph, Unopened>
    ensures answer { AnswersAs (path_answer known.now path.now (known_at known.now path.now))
        result }
    ensures from { IfOk result (IsFromPath path.now) }
    ensures graph { IfOk result IsGraph }
    ensures errors { IfErr result (λ why. IfRefused why IsPathError) }
    ensures memory { IfErr result (λ why. IfRefused why OutOfMemoryStandsAlone) }
{
    let Some(there) = find(known, path.as_bytes()) else {
        return Err(Unopened::Unread(String::from_str(alloc, path)?));
    };
    if there.kind == NOTHING {
        return Err(Unopened::Refused(OpenError::NothingFound, String::new(alloc)));
    }
    if there.kind == FOLDER {
        return open_folder(alloc, known, path);
    }
    open_file(alloc, known, path)
}

/// Opens a folder, as a chain folder where a file stands at the path of its chain file.
#[tactic(auto, unfolding(crate::specs::KnownOpening::folder_answer))]
fn open_folder(alloc: Global, known: &[CgKnown<'_>], path: &str) -> Result<Graph, Unopened>
    ensures answer { AnswersAs (folder_answer known.now path.now
        (known_at known.now (chain_path path.now))) result }
    ensures from { IfOk result (IsFromPath path.now) }
    ensures graph { IfOk result IsGraph }
    ensures errors { IfErr result (λ why. IfRefused why IsFolderError) }
    ensures memory { IfErr result (λ why. IfRefused why OutOfMemoryStandsAlone) }
{
    let chain = chain_path(alloc, path)?;
    let Some(there) = find(known, chain.as_bytes()) else {
        return Err(Unopened::Unread(chain));
    };
    if is_known_file(there) {
        open_chain(alloc, known, path)
    } else {
        open_info(alloc, known, path)
    }
}

/// Opens an info folder.
#[tactic(auto, unfolding(crate::specs::KnownOpening::info_answer))]
fn open_info(alloc: Global, known: &[CgKnown<'_>], path: &str) -> Result<Graph, Unopened>
    ensures answer { AnswersAs (info_answer known.now path.now) result }
    ensures from { IfOk result (IsFromInfo path.now) }
    ensures graph { IfOk result IsGraph }
    ensures errors { IfErr result (λ why. IfRefused why IsFolderError) }
    ensures memory { IfErr result (λ why. IfRefused why OutOfMemoryStandsAlone) }
{
    let file = info_file_path(alloc, path)?;
    let answer = open_file(alloc, known, file.as_str());
    if is_final(known, &answer) {
        return answer;
    }
    let chain = info_chain_path(alloc, path)?;
    open_chain(alloc, known, chain.as_str())
}

/// Whether this answer of an info folder's file is that of the folder: its chain is not tried where
/// there is a graph, where memory ran out, and where nothing is known of the file.
fn is_final(known: &[CgKnown<'_>], answer: &Result<Graph, Unopened>) -> bool
    ensures { result ≡ is_final known.now answer.now }
{
    match answer {
        Ok(_) | Err(Unopened::NoMemory) => true,
        Err(Unopened::Unread(path)) => match find(known, path.as_bytes()) {
            Some(there) => there.kind == NO_MEMORY,
            None => true,
        },
        Err(Unopened::Refused(..)) => false,
    }
}

/// Opens a chain folder.
#[tactic(auto, unfolding(crate::specs::KnownOpening::chain_answer))]
fn open_chain(alloc: Global, known: &[CgKnown<'_>], path: &str) -> Result<Graph, Unopened>
    ensures answer { AnswersAs (chain_answer (known_tree known.now) path.now) result }
    ensures from { IfOk result (IsFromChain path.now) }
    ensures graph { IfOk result IsGraph }
    ensures errors { IfErr result (λ why. IfRefused why IsFolderError) }
    ensures memory { IfErr result (λ why. IfRefused why OutOfMemoryStandsAlone) }
{
    let mut files = KnownFiles::new(known);
    match open_chain_dir_in(alloc, &mut files, path) {
        Ok(graph) => Ok(graph),
        Err(OpenError::OutOfMemory) => Err(Unopened::NoMemory),
        Err(OpenError::NotOpened) => Err(unread_of_chain(alloc, known, path)?),
        Err(error) => {
            let file = refused_file(alloc, known, path, &error)?;
            Err(Unopened::Refused(error, file))
        }
    }
}

/// The first file of a chain folder that was not read.
fn unread_of_chain(alloc: Global, known: &[CgKnown<'_>], path: &str) -> Result<Unopened, AllocError>
    ensures obstacle { IfOk result (λ why. let chain = chain_path path.now in
        let tree = known_tree known.now in
        IsObstacle (first_unread tree (chain ∷ layer_files path.now (file_at tree chain))) why) }
    ensures errors { IfOk result (λ why. IfRefused why IsFolderError) }
    ensures memory { IfOk result (λ why. IfRefused why OutOfMemoryStandsAlone) }
{
    let chain = chain_path(alloc, path)?;
    let Some(text) = read_bytes(known, chain.as_bytes()) else {
        return Ok(Unopened::Unread(chain));
    };
    match unread_layer(alloc, known, path, text)? {
        Some(layer) => Ok(Unopened::Unread(layer)),
        None => Ok(Unopened::Refused(OpenError::NotOpened, String::new(alloc))),
    }
}

/// The path of the first layer that the lines of a chain file name and that was not read, if there
/// is one before the first line that is not UTF-8.
fn unread_layer(
    alloc: Global,
    known: &[CgKnown<'_>],
    folder: &str,
    text: &[u8],
) -> Result<Option<String>, AllocError>
    ensures { IfOk result (λ layer. option_map string_bytes layer
        ≡ find (λ path. not (is_file (known_tree known.now) path))
        (layer_files folder.now (Some text.now))) }
{
    for line in Lines::new(text) {
        let Ok(name) = str::from_utf8(line) else {
            return Ok(None);
        };
        let path = layer_path(alloc, folder, name)?;
        if !is_read(known, path.as_bytes()) {
            return Ok(Some(path));
        }
    }
    Ok(None)
}

/// The path of the file that an error of a chain folder is about: of the layer that is refused, and
/// else of the chain file.
fn refused_file(
    alloc: Global,
    known: &[CgKnown<'_>],
    folder: &str,
    error: &OpenError,
) -> Result<String, AllocError>
    ensures { IfOk result (λ file.
        string_bytes file ≡ refused_file (known_tree known.now) folder.now error.now) }
{
    let chain = chain_path(alloc, folder)?;
    let OpenError::Layer { layer, .. } = error else {
        return Ok(chain);
    };
    let Some(text) = read_bytes(known, chain.as_bytes()) else {
        return Ok(chain);
    };
    match layer_file(alloc, folder, text, *layer)? {
        Some(file) => Ok(file),
        None => Ok(chain),
    }
}

/// The path of the file of a layer, which counts from the lowest, if the lines of a chain file name
/// it before the first that is not UTF-8.
fn layer_file(
    alloc: Global,
    folder: &str,
    text: &[u8],
    layer: usize,
) -> Result<Option<String>, AllocError>
    ensures { IfOk result (λ file. option_map string_bytes file
        ≡ slice_get (layer_files folder.now (Some text.now)) layer) }
{
    let mut below = layer;
    for line in Lines::new(text) {
        let Ok(name) = str::from_utf8(line) else {
            return Ok(None);
        };
        if below == 0 {
            return Ok(Some(layer_path(alloc, folder, name)?));
        }
        below -= 1;
    }
    Ok(None)
}

/// Opens a file.
#[tactic(auto, unfolding(crate::specs::KnownOpening::file_answer))]
fn open_file(alloc: Global, known: &[CgKnown<'_>], path: &str) -> Result<Graph, Unopened>
    ensures answer { AnswersAs (file_answer (known_tree known.now) path.now) result }
    ensures from { IfOk result (IsFromFile path.now) }
    ensures graph { IfOk result IsGraph }
    ensures errors { IfErr result (λ why. IfRefused why IsFileError) }
    ensures memory { IfErr result (λ why. IfRefused why OutOfMemoryStandsAlone) }
{
    // Nothing is copied of what is no layer.
    if let Some(error) = refused_bytes(known, path) {
        return Err(Unopened::Refused(error, String::from_str(alloc, path)?));
    }
    let mut files = KnownFiles::new(known);
    match open_file_in(alloc, &mut files, path) {
        Ok(graph) => Ok(graph),
        Err(OpenError::OutOfMemory) => Err(Unopened::NoMemory),
        Err(OpenError::NotOpened) => Err(Unopened::Unread(String::from_str(alloc, path)?)),
        Err(error) => Err(Unopened::Refused(error, String::from_str(alloc, path)?)),
    }
}

/// Why the opener refuses the file at a path for its bytes, if it was read and they are no layer.
/// `OutOfMemory` never comes: nothing is copied.
#[tactic(auto, unfolding(crate::specs::KnownOpening::file_answer))]
fn refused_bytes(known: &[CgKnown<'_>], path: &str) -> Option<OpenError>
    ensures answer { IfSome result (λ error.
        file_answer (known_tree known.now) path.now ≡ Err (ByError error path.now)) }
    ensures accepted { IfNone result
        (option_and_then refusal (file_at (known_tree known.now) path.now) ≡ None) }
    ensures errors { IfSome result IsFileError }
    ensures memory { IfSome result OutOfMemoryStandsAlone }
{
    let bytes = read_bytes(known, path.as_bytes())?;
    match layout_of(bytes) {
        Ok(_) => None,
        Err(FileError::OutOfMemory) => Some(OpenError::OutOfMemory),
        Err(error) => Some(OpenError::Layer { layer: 0, error }),
    }
}
