//! Opening a graph by a path, of what a caller knows of paths.

ghost use Rattle.std.specs.Prelude.{◌≡◌, ◌≢◌, IfErr, IfOk, IsSomeAnd, None, false, option_copied};
ghost use Rattle.std.specs.Str.{IsUtf8};
ghost use Rattle.graph_layer.specs.OpenAnswer.{result_map};
ghost use Rattle.c_opening.specs.Answers.{written};
ghost use Rattle.c_opening.specs.AtPath.{IsGraphAt, IsUnknown, IsUnopenedAt, RefusesPath};
ghost use Rattle.c_opening.specs.AtPath.{TellsOpening, TellsUnopened, WantsPath};
ghost use Rattle.c_opening.specs.AtPath.{only_code, told_open, told_unread};
ghost use Rattle.c_opening.specs.Codes.{out_of_memory, path_not_utf8, path_wanted};
ghost use Rattle.c_opening.specs.KnownPaths.{unread};
ghost use Rattle.c_opening.specs.KnownOpening.{AnswersAs, known_opened};

use crate::at_path::{Unopened, open_as};
use crate::codes::{PATH_NOT_UTF8, PATH_WANTED, open_code};
use crate::handle::CgOwner;
use crate::known::{CgKnown, NO_MEMORY, UNREAD, find};
use crate::open::boxed;
use crate::opened::Opened;
use gix_commitgraph::GraphError;
use gix_commitgraph::opening::OpenError;
use std::alloc::Global;

/// What was answered: 0, or why not.
#[repr(C)]
#[derive(Clone, Copy)]
pub struct CgPathError {
    /// 0 where there is no error, else the number of the cause.
    pub code: u32,
    /// The layer that is refused, or the line of the chain file.
    pub layer: u64,
    /// How many bytes the path has that is told.
    pub length: u64,
}

/// Opens the graph at a path: a file where `what` is 1, a chain folder where it is 2, an info
/// folder where it is 3, and else what stands there. Where something has to be known of one more
/// path, that is told, and nothing is opened: the call is made again then. Where the graph is
/// refused, the path of the file that the error is about is told.
pub fn cg_open_known(
    alloc: Global,
    path: &[u8],
    what: u32,
    known: &[CgKnown<'_>],
    file: &mut [u8],
    out: &mut CgOwner,
) -> CgPathError
    ensures opened { result.code ≡ 0 → IsSomeAnd out.new.address.held (λ held.
        (held.1 ≡ false) × IsGraphAt what path.now held.0) }
    ensures graph { result.code ≡ 0 → IsSomeAnd out.new.address.held (λ held.
        known_opened what known.now path.now ≡ Ok held.0) }
    ensures told { result.code ≡ 0 → (result ≡ only_code 0) × (file.new ≡ file.old) }
    ensures kept { result.code ≢ 0 → out.new ≡ out.old }
    ensures text { ¬ IsUtf8 path.now
        → (result ≡ only_code path_not_utf8) × (file.new ≡ file.old) }
    ensures answer { IsUtf8 path.now → result ≢ only_code out_of_memory
        → TellsOpening known.now (known_opened what known.now path.now) result file.old file.new }
    ensures wanted { result.code ≡ path_wanted
        → WantsPath known.now (known_opened what known.now path.now) result file.old file.new }
    ensures refused { result.code ≢ 0 → result.code ≢ path_not_utf8
        → result.code ≢ path_wanted → RefusesPath what result file.old file.new }
{
    let Ok(path) = str::from_utf8(path) else {
        return only(PATH_NOT_UTF8);
    };
    match open_boxed(alloc, known, path, what) {
        Ok(opened) => {
            out.write(opened);
            only(0)
        }
        Err(why) => tell(known, &why, file),
    }
}

/// The graph at a path, in a block of its own.
fn open_boxed(
    alloc: Global,
    known: &[CgKnown<'_>],
    path: &str,
    what: u32,
) -> Result<Box<Opened>, Unopened>
    ensures answer { AnswersAs (known_opened what known.now path.now)
        (result_map (λ opened. opened.value.0) result) }
    ensures opened { IfOk result (λ opened. IsGraphAt what path.now opened.value.0) }
    ensures unchecked { IfOk result (λ opened. opened.value.1 ≡ false) }
    ensures refused { IfErr result (IsUnopenedAt what) }
{
    match open_as(alloc, known, path, what) {
        Ok(graph) => match boxed(alloc, Opened::unchecked(graph)) {
            Ok(opened) => Ok(opened),
            Err(_) => Err(Unopened::NoMemory),
        },
        Err(why) => Err(why),
    }
}

/// Tells why no graph was opened, and a path.
fn tell(known: &[CgKnown<'_>], why: &Unopened, file: &mut [u8]) -> CgPathError
    ensures told { TellsUnopened known.now why.now result file.old file.new }
    ensures code { result.code ≢ 0 }
    ensures wanted { result.code ≡ path_wanted → IsUnknown known.now why.now }
{
    match why {
        Unopened::Unread(path) => tell_unread(find(known, path.as_bytes()), path.as_bytes(), file),
        Unopened::Refused(error, about) => tell_error(error, about.as_bytes(), file),
        Unopened::NoMemory => tell_error(&OpenError::OutOfMemory, &[], file),
    }
}

/// Tells that the file at a path was not read, or that nothing is known of the path.
fn tell_unread(there: Option<&CgKnown<'_>>, path: &[u8], file: &mut [u8]) -> CgPathError
    ensures told { result ≡ told_unread (option_copied there.entry) path.now }
    ensures room { file.new ≡ written path.now file.old }
    ensures code { result.code ≢ 0 }
    ensures wanted { result.code ≡ path_wanted → option_copied there.entry ≡ None }
{
    let Some(there) = there else {
        write_bytes(path, file);
        return CgPathError {
            length: path.len() as u64,
            ..only(PATH_WANTED)
        };
    };
    tell_error(&unread(there.kind), path, file)
}

/// Why a file of this kind was not read.
fn unread(kind: u32) -> OpenError
    ensures { result ≡ unread kind }
{
    match kind {
        UNREAD => OpenError::Device,
        NO_MEMORY => OpenError::OutOfMemory,
        _ => OpenError::NotOpened,
    }
}

/// Tells an error, and the path of a file.
fn tell_error(error: &OpenError, path: &[u8], file: &mut [u8]) -> CgPathError
    ensures told { result ≡ told_open error.now path.now }
    ensures room { file.new ≡ written path.now file.old }
    ensures code { result.code ≢ 0 }
    ensures known { result.code ≢ path_wanted }
{
    write_bytes(path, file);
    let layer = match error {
        OpenError::ChainNotText { line } => *line as u64,
        OpenError::Layer { layer, .. } => *layer as u64,
        OpenError::Graph(GraphError::HashMismatch { layer }) => *layer as u64,
        _ => 0,
    };
    CgPathError {
        code: open_code(error),
        layer,
        length: path.len() as u64,
    }
}

/// Tells a code alone.
fn only(code: u32) -> CgPathError
    ensures { result ≡ only_code code }
{
    CgPathError {
        code,
        layer: 0,
        length: 0,
    }
}

/// Writes bytes, as many as there is room for.
pub fn write_bytes(bytes: &[u8], out: &mut [u8])
    ensures { out.new ≡ written bytes.now out.old }
{
    let count = bytes.len().min(out.len());
    out[..count].copy_from_slice(&bytes[..count]);
}
