//! What a caller knows of paths, in the place of a file system.

ghost use Rattle.std.specs.Prelude.{◌≡◌, Some, option_copied};
ghost use Rattle.graph_folder.specs.Tree.{file_at, is_file};
ghost use Rattle.c_opening.specs.KnownPaths.{is_known_file, known_at, known_tree};

use graph_folder::folder::{Folder, ReadError};
use std::alloc::{AllocError, Global};

/// Nothing stands at the path.
pub(crate) const NOTHING: u32 = 0;

/// A file that was read.
const READ: u32 = 1;

/// A folder.
pub(crate) const FOLDER: u32 = 2;

/// A file of which a read failed.
pub(crate) const UNREAD: u32 = 4;

/// A file that found no memory.
pub(crate) const NO_MEMORY: u32 = 5;

/// What stands at a path: for C two pointers, each with a length, and a number.
#[repr(C)]
#[derive(Clone, Copy)]
pub struct CgKnown<'a> {
    pub path: &'a [u8],
    /// The bytes of a file that was read.
    pub bytes: &'a [u8],
    /// What it is, by its number; any that is not named stands for a file that could not be opened.
    pub kind: u32,
}

/// What is known of a path: of two that are known of it, the first.
pub(crate) fn find<'k, 'a>(known: &'k [CgKnown<'a>], path: &[u8]) -> Option<&'k CgKnown<'a>>
    ensures { option_copied result ≡ known_at known.now path.now }
{
    known.iter().find(|there| there.path == path)
}

/// Whether this is known of a file, which was read or was not.
pub(crate) fn is_known_file(known: &CgKnown<'_>) -> bool
    ensures { result ≡ is_known_file known.now }
{
    known.kind != NOTHING && known.kind != FOLDER
}

/// The bytes of the file at a path, if it was read.
#[tactic(auto, using(crate::proofs::KnownTree::known_laws))]
pub(crate) fn read_bytes<'a>(known: &[CgKnown<'a>], path: &[u8]) -> Option<&'a [u8]>
    ensures { option_copied result ≡ file_at (known_tree known.now) path.now }
{
    let there = find(known, path)?;
    if there.kind == READ {
        Some(there.bytes)
    } else {
        None
    }
}

/// Whether the file at a path was read.
pub(crate) fn is_read(known: &[CgKnown<'_>], path: &[u8]) -> bool
    ensures { result ≡ is_file (known_tree known.now) path.now }
{
    read_bytes(known, path).is_some()
}

/// The files that were read, for the openers.
#[derive(Drop)]
pub(crate) struct KnownFiles<'k, 'a> {
    known: &'k [CgKnown<'a>],
}

impl<'k, 'a> KnownFiles<'k, 'a> {
    /// Those among what is known.
    pub fn new(known: &'k [CgKnown<'a>]) -> KnownFiles<'k, 'a>
        ensures { result.known.now ≡ known.now }
    {
        KnownFiles { known }
    }
}

impl<'k, 'a> Folder for KnownFiles<'k, 'a> {
    ghost tree = { λ files. Some (known_tree files.known.now) };

    ghost failure_count = { λ _. 0 };

    /// None fails: a file of which a read failed does not stand here.
    fn failures(&self) -> u64 {
        0
    }

    /// Whether the file at the path was read. `AllocError` never comes.
    fn is_file(&mut self, _alloc: Global, path: &str) -> Result<bool, AllocError> {
        Ok(is_read(self.known, path.as_bytes()))
    }

    /// No folder stands here.
    #[tactic(auto, using(crate::proofs::KnownTree::known_laws))]
    fn is_dir(&mut self, _alloc: Global, _path: &str) -> Result<bool, AllocError> {
        Ok(false)
    }

    /// A copy of the bytes of the file at the path. `NotOpened` comes where it was not read.
    fn read(&mut self, alloc: Global, path: &str) -> Result<Vec<u8>, ReadError> {
        match read_bytes(self.known, path.as_bytes()) {
            Some(bytes) => match Vec::from_slice(alloc, bytes) {
                Ok(copy) => Ok(copy),
                Err(_) => Err(ReadError::OutOfMemory),
            },
            None => Err(ReadError::NotOpened),
        }
    }
}
