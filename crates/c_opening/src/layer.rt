//! Opening one file for C, whose bytes are copied or stay where they are.

ghost use Rattle.std.specs.Prelude.{◌≡◌, ◌≢◌, IfErr, IfOk, IfSome, None, string_bytes};
ghost use Rattle.std.specs.Str.{IsUtf8};
ghost use Rattle.graph_format.specs.Layer.{IsLayer};
ghost use Rattle.graph_format.specs.Refusal.{refusal};
ghost use Rattle.c_opening.specs.Files.{RefusesFile};

use crate::codes::PATH_NOT_UTF8;
use crate::open::{CgError, CgFile, error, file_error};
use gix_commitgraph::{File, FileError};
use graph_format::layout::layout_of;
use graph_layer::opening::share_layer;
use std::alloc::{AllocError, Global};

/// Opens a file, which is to be the layer of this place, with a copy of its bytes.
#[tactic(auto, using(crate::proofs::Files::refused_bytes))]
pub(crate) fn open_layer(alloc: Global, file: CgFile<'_>, place: u64) -> Result<File, CgError>
    ensures layer { IfOk result (IsLayer file.entry.bytes.now file.entry.path.now) }
    ensures text { IfOk result (λ _. IsUtf8 file.entry.path.now) }
    ensures accepted { IfOk result (λ _. refusal file.entry.bytes.now ≡ None) }
    ensures refused { IfErr result (RefusesFile place file.entry) }
    ensures code { IfErr result (λ e. e.code ≢ 0) }
{
    let path = path_of(file, place)?;
    let Ok((bytes, path)) = copies(alloc, file.bytes, path) else {
        return Err(file_error(&FileError::OutOfMemory, place));
    };
    match File::new(alloc, bytes, path) {
        Ok(file) => Ok(file),
        Err(refusal) => Err(file_error(&refusal, place)),
    }
}

/// Opens a file, which is to be the layer of this place, with its bytes where they are.
#[tactic(auto, using(crate::proofs::Files::refused_bytes))]
pub(crate) fn open_lent_layer(
    alloc: Global,
    file: CgFile<'static>,
    place: u64,
) -> Result<File, CgError>
    ensures layer { IfOk result (IsLayer file.entry.bytes.now file.entry.path.now) }
    ensures text { IfOk result (λ _. IsUtf8 file.entry.path.now) }
    ensures accepted { IfOk result (λ _. refusal file.entry.bytes.now ≡ None) }
    ensures refused { IfErr result (RefusesFile place file.entry) }
    ensures code { IfErr result (λ e. e.code ≢ 0) }
{
    let path = path_of(file, place)?;
    let Ok(path) = String::from_str(alloc, path) else {
        return Err(file_error(&FileError::OutOfMemory, place));
    };
    match File::from_static(alloc, file.bytes, path) {
        Ok(file) => Ok(file),
        Err(refusal) => Err(file_error(&refusal, place)),
    }
}

/// Opens a file as `open_lent_layer` does, or has the layer once more that is known to be its own:
/// then nothing is decoded, and both share all that is kept.
#[tactic(auto, using(crate::proofs::Files::refused_bytes))]
pub(crate) fn open_known_layer(
    alloc: Global,
    file: CgFile<'static>,
    known: Option<&File>,
    place: u64,
) -> Result<File, CgError>
    requires { IfSome known (λ layer. IsLayer file.bytes.now file.path.now layer.now) }
    ensures layer { IfOk result (IsLayer file.entry.bytes.now file.entry.path.now) }
    ensures text { IfOk result (λ _. IsUtf8 file.entry.path.now) }
    ensures accepted { IfOk result (λ _. refusal file.entry.bytes.now ≡ None) }
    ensures refused { IfErr result (RefusesFile place file.entry) }
    ensures code { IfErr result (λ e. e.code ≢ 0) }
{
    let Some(layer) = known else {
        return open_lent_layer(alloc, file, place);
    };
    path_of(file, place)?;
    match share_layer(layer) {
        Ok(layer) => Ok(layer),
        Err(_) => Err(file_error(&FileError::OutOfMemory, place)),
    }
}

/// The path of a file, which is to be the layer of this place. Nothing is copied of what is no
/// layer.
#[tactic(auto, using(crate::proofs::Files::refused_bytes))]
fn path_of(file: CgFile<'_>, place: u64) -> Result<&str, CgError>
    ensures path { IfOk result (λ path. path.now ≡ file.entry.path.now) }
    ensures text { IfOk result (λ _. IsUtf8 file.entry.path.now) }
    ensures accepted { IfOk result (λ _. refusal file.entry.bytes.now ≡ None) }
    ensures refused { IfErr result (RefusesFile place file.entry) }
    ensures code { IfErr result (λ e. e.code ≢ 0) }
{
    let Ok(path) = str::from_utf8(file.path) else {
        return Err(error(PATH_NOT_UTF8, place));
    };
    match layout_of(file.bytes) {
        Ok(_) => Ok(path),
        Err(fault) => Err(file_error(&fault, place)),
    }
}

/// Copies of the bytes and of the path, if there is memory.
fn copies(alloc: Global, bytes: &[u8], path: &str) -> Result<(Vec<u8>, String), AllocError>
    ensures bytes { IfOk result (λ r. r.0.items ≡ bytes.now) }
    ensures path { IfOk result (λ r. string_bytes r.1 ≡ path.now) }
{
    let mut copy = Vec::with_capacity(alloc, bytes.len())?;
    copy.extend_from_slice(bytes)?;
    Ok((copy, String::from_str(alloc, path)?))
}
