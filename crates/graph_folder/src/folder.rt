//! Files and folders by their paths, on a device that may fail a read.

ghost use Rattle.std.specs.Prelude.{◌≡◌, ◌↔◌, ◌-◌, ℕ, Option, Some, None, IfOk, IsErrOf, IsTrue};
ghost use Rattle.std.specs.Prelude.{min, length};
ghost use Rattle.std.specs.Option.{ForSome};
ghost use Rattle.graph_folder.specs.Tree.{Tree, is_file, is_folder, file_at};
ghost use Rattle.graph_folder.specs.Failures.{failures_after};
ghost use Rattle.graph_folder.specs.Parts.{IfPart, IsPartAt};

mod exact;
mod in_memory;
mod on_disk;
mod whole;

pub use in_memory::Memory;
pub use on_disk::Disk;
use std::alloc::{AllocError, Global};
use thiserror::Error;
pub use whole::read_all;

/// Why a file could not be read whole.
///
/// It is displayed as the name of the variant.
#[derive(Debug, PartialEq, Eq, Drop, Error)]
pub enum ReadError {
    /// No file stands at the path, or it may not be read.
    #[error("NotOpened")]
    NotOpened,
    /// A read of the file failed.
    #[error("Device")]
    Device,
    /// There is no memory for the bytes.
    #[error("OutOfMemory")]
    OutOfMemory,
}

/// A part of a file, and how long the file is.
#[derive(Drop)]
pub struct Part {
    /// The bytes of the part.
    pub bytes: Vec<u8>,
    /// How many bytes the whole file has.
    pub file_len: u64,
}

/// Files and folders by their paths, which are texts. Where it is known what stands at each path,
/// the calls answer by that, and none of them changes it. Where it is not known, others may write
/// between two calls: then `gives` and `gives_part` say what each read answered with.
pub trait Folder {
    ghost use Rattle.std.specs.Prelude.{ℕ, List, Option};
    ghost use Rattle.graph_folder.specs.Tree.{Tree};
    ghost use Rattle.graph_folder.specs.declared.folder.Part.{Part};

    /// What stands at each path, where that is known.
    ghost tree: { Self → Option Tree };

    /// These bytes were the whole file at this path when some read of it answered with them,
    /// whatever stood there before that read or after it.
    ghost gives: { List ℕ → List ℕ → Type 0 } = { λ _ _. Unit };

    /// This was a part of the file at this path, from this offset on, when some read of it
    /// answered with that part.
    ghost gives_part: { List ℕ → ℕ → Part → Type 0 } = { λ _ _ _. Unit };

    /// How many reads the device has failed so far; the count stays at the greatest `u64`.
    ghost failure_count: { Self → ℕ };

    /// How many reads the device has failed so far: the reads that answered `Device`, counted up
    /// to the greatest `u64`.
    fn failures(&self) -> u64
        ensures { result ≡ failure_count self.now };

    /// Whether a file stands at the path. `AllocError` comes only where an allocation failed.
    fn is_file(&mut self, alloc: Global, path: &str) -> Result<bool, AllocError>
        ensures answer { ForSome (tree self.old) (λ t.
            IfOk result (λ found. found ≡ is_file t path.now)) }
        ensures tree { tree self.new ≡ tree self.old }
        ensures failures { failure_count self.new ≡ failure_count self.old };

    /// Whether a folder stands at the path. `AllocError` comes only where an allocation failed.
    fn is_dir(&mut self, alloc: Global, path: &str) -> Result<bool, AllocError>
        ensures answer { ForSome (tree self.old) (λ t.
            IfOk result (λ found. found ≡ is_folder t path.now)) }
        ensures tree { tree self.new ≡ tree self.old }
        ensures failures { failure_count self.new ≡ failure_count self.old };

    /// All bytes of the file at the path. `NotOpened` comes where no file stands there or it may
    /// not be read, `Device` where a read of it failed, and `OutOfMemory` where there is no memory
    /// for the bytes. The count of failures rises by one with each `Device`, and with nothing else.
    fn read(&mut self, alloc: Global, path: &str) -> Result<Vec<u8>, ReadError>
        ensures bytes { ForSome (tree self.old) (λ t.
            IfOk result (λ bytes. file_at t path.now ≡ Some bytes.items)) }
        ensures not_opened { ForSome (tree self.old) (λ t.
            IsErrOf result ReadError.NotOpened → file_at t path.now ≡ None) }
        ensures given { IfOk result (λ bytes. gives path.now bytes.items) }
        ensures tree { tree self.new ≡ tree self.old }
        ensures failures { failure_count self.new
            ≡ failures_after result (failure_count self.old) };

    /// Whether the file at the path has these bytes, and no others. The errors are those of
    /// [`Folder::read`], and counted as there.
    fn has_bytes(&mut self, alloc: Global, path: &str, bytes: &[u8]) -> Result<bool, ReadError>
        ensures same { ForSome (tree self.old) (λ t.
            IfOk result (λ same. IsTrue same ↔ (file_at t path.now ≡ Some bytes.now))) }
        ensures not_opened { ForSome (tree self.old) (λ t.
            IsErrOf result ReadError.NotOpened → file_at t path.now ≡ None) }
        ensures given { IfOk result (λ same. IsTrue same → gives path.now bytes.now) }
        ensures tree { tree self.new ≡ tree self.old }
        ensures failures { failure_count self.new
            ≡ failures_after result (failure_count self.old) }
    {
        let found = self.read(alloc, path)?;
        Ok(found.as_slice() == bytes)
    }

    /// The bytes of the file at the path from `start` on, at most `len` of them and none past the
    /// file's end, and the file's length. It is `None` where this file is to be read whole. The
    /// errors are those of [`Folder::read`], and counted as there.
    fn read_part(
        &mut self,
        _alloc: Global,
        path: &str,
        start: u64,
        len: usize,
    ) -> Result<Option<Part>, ReadError>
        ensures part { ForSome (tree self.old) (λ t.
            IfPart result (IsPartAt t path.now start len)) }
        ensures size { IfPart result (λ part.
            length part.bytes.items ≡ min len (part.file_len - start)) }
        ensures not_opened { ForSome (tree self.old) (λ t.
            IsErrOf result ReadError.NotOpened → file_at t path.now ≡ None) }
        ensures given { IfPart result (gives_part path.now start) }
        ensures tree { tree self.new ≡ tree self.old }
        ensures failures { failure_count self.new
            ≡ failures_after result (failure_count self.old) }
    {
        Ok(None)
    }
}
