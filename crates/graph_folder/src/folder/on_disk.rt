//! The file system as a folder.

ghost use Rattle.std.specs.Prelude.{◌≡◌, ◌-◌, None, IsOk, IfOk, IsTrue, min, length};
ghost use Rattle.graph_folder.specs.Failures.{failures_after};
ghost use Rattle.graph_folder.specs.Parts.{IfPart};
ghost use Rattle.graph_folder.specs.Reads.{AreAllOfFile, AreOfFileFrom};

use super::exact::read_part_from;
use super::whole::{gives_bytes, read_expected};
use super::{Folder, Part, ReadError};
use std::alloc::{AllocError, Global};
use std::fs;
use std::fs::OpenFile;
use std::rt::Files;

/// A file of which a part was read, at its path, and its length as the host said it.
#[derive(Drop)]
struct OpenedFile<F: Drop> {
    path: String,
    file: F,
    file_len: u64,
}

/// The file system of a host. What stands in it is not known.
///
/// The file of which a part was read last stays open, and its next parts are read from it, also
/// where another file has taken its place. A part from the beginning of a file opens it anew.
#[derive(Drop)]
pub struct Disk<'r, R: Files> {
    rt: &'r R,
    failures: u64,
    opened: Option<OpenedFile<R::File>>,
}

impl<'r, R: Files> Disk<'r, R> {
    /// The file system that the runtime gives. No read of it has failed yet.
    pub fn new(rt: &'r R) -> Disk<'r, R>
        ensures { ⟦<Disk<'r, R> as Folder>⟧.failure_count result ≡ 0 }
    {
        Disk {
            rt,
            failures: 0,
            opened: None,
        }
    }

    /// All bytes of the file at the path. A host may open a folder as it opens a file.
    fn read_file(&self, alloc: Global, path: &str) -> Result<Vec<u8>, ReadError>
        ensures { IfOk result (λ bytes. AreAllOfFile R.File.remaining bytes.items) }
    {
        let mut file = fs::open(self.rt, path).map_err(|_| ReadError::NotOpened)?;
        let expected = match file.metadata() {
            Ok(metadata) if metadata.is_dir() => return Err(ReadError::NotOpened),
            Ok(metadata) => usize::try_from(metadata.len()).unwrap_or(usize::MAX),
            Err(_) => 0,
        };
        read_expected(alloc, &mut file, expected)
    }

    /// Whether the file at the path has these bytes. It has not where the host says another length.
    fn compare_file(&self, alloc: Global, path: &str, bytes: &[u8]) -> Result<bool, ReadError>
        ensures { IfOk result (λ same. IsTrue same
            → AreAllOfFile R.File.remaining bytes.now) }
    {
        let mut file = fs::open(self.rt, path).map_err(|_| ReadError::NotOpened)?;
        match file.metadata() {
            Ok(metadata) if metadata.is_dir() => return Err(ReadError::NotOpened),
            Ok(metadata) if metadata.is_file() && metadata.len() != bytes.len() as u64 => {
                return Ok(false);
            }
            _ => {}
        }
        gives_bytes(alloc, &mut file, bytes)
    }

    /// A part of the file at the path, if the host says how long it is. If there is one, the file
    /// stays open.
    fn read_part_of(
        &mut self,
        alloc: Global,
        path: &str,
        start: u64,
        len: usize,
    ) -> Result<Option<Part>, ReadError>
        ensures bytes { IfPart result (λ part. AreOfFileFrom R.File.stream_position
            R.File.stream_bytes R.File.remaining start part.bytes.items) }
        ensures size { IfPart result (λ part.
            length part.bytes.items ≡ min len (part.file_len - start)) }
        ensures failures { self.new.failures ≡ self.old.failures }
    {
        let Some(mut opened) = self.opened_file(alloc, path, start)? else {
            return Ok(None);
        };
        let part = read_part_from(alloc, &mut opened.file, opened.file_len, start, len)?;
        if part.is_some() {
            self.opened = Some(opened);
        }
        Ok(part)
    }

    /// The file at the path, if the host says how long it is: the one that is open, unless its
    /// beginning is to be read.
    fn opened_file(
        &mut self,
        alloc: Global,
        path: &str,
        start: u64,
    ) -> Result<Option<OpenedFile<R::File>>, ReadError>
        ensures failures { self.new.failures ≡ self.old.failures }
    {
        if let Some(opened) = self.opened.take() {
            if start > 0 && opened.path.as_str() == path {
                return Ok(Some(opened));
            }
        }
        self.open_measured(alloc, path)
    }

    /// The file at the path, opened, if the host says how long it is.
    fn open_measured(
        &self,
        alloc: Global,
        path: &str,
    ) -> Result<Option<OpenedFile<R::File>>, ReadError> {
        let metadata = fs::metadata(self.rt, path).map_err(|_| ReadError::NotOpened)?;
        if metadata.is_dir() {
            return Err(ReadError::NotOpened);
        }
        if !metadata.is_file() || metadata.len() == 0 {
            return Ok(None);
        }
        let file = fs::open(self.rt, path).map_err(|_| ReadError::NotOpened)?;
        let path = String::from_str(alloc, path).map_err(|_| ReadError::OutOfMemory)?;
        Ok(Some(OpenedFile {
            path,
            file,
            file_len: metadata.len(),
        }))
    }

    /// Counts a read with this answer, if it is one that the device failed.
    fn count_failure<T>(&mut self, answer: &Result<T, ReadError>)
        ensures { self.new ≡ record self.old {
          failures = failures_after answer.now self.old.failures;
        } }
    {
        if let Err(ReadError::Device) = answer {
            self.failures = self.failures.saturating_add(1);
        }
    }
}

impl<'r, R: Files> Folder for Disk<'r, R> {
    ghost tree = { λ _. None };

    ghost gives = { λ _ bytes. AreAllOfFile R.File.remaining bytes };

    ghost gives_part = { λ _ start part. AreOfFileFrom R.File.stream_position R.File.stream_bytes
        R.File.remaining start part.bytes.items };

    ghost failure_count = { λ disk. disk.failures };

    /// How many reads the device has failed so far.
    fn failures(&self) -> u64 {
        self.failures
    }

    /// Whether the host calls the path a file. Where the host does not say, the answer is no.
    /// `AllocError` never comes.
    fn is_file(&mut self, _alloc: Global, path: &str) -> Result<bool, AllocError>
        ensures answered { IsOk result }
        ensures unchanged { self.new ≡ self.old }
    {
        Ok(fs::metadata(self.rt, path).is_ok_and(|metadata| metadata.is_file()))
    }

    /// Whether the host calls the path a folder. Where the host does not say, the answer is no.
    /// `AllocError` never comes.
    fn is_dir(&mut self, _alloc: Global, path: &str) -> Result<bool, AllocError>
        ensures answered { IsOk result }
        ensures unchanged { self.new ≡ self.old }
    {
        Ok(fs::metadata(self.rt, path).is_ok_and(|metadata| metadata.is_dir()))
    }

    /// All bytes of the file at the path. `NotOpened` comes where the host does not open it or
    /// calls it a folder, `Device` where a later read fails, and `OutOfMemory` where there is no
    /// memory for the bytes.
    fn read(&mut self, alloc: Global, path: &str) -> Result<Vec<u8>, ReadError>
        ensures bytes { IfOk result (λ bytes. AreAllOfFile R.File.remaining bytes.items) }
        ensures failures { ⟦<Disk<'r, R> as Folder>⟧.failure_count self.new
            ≡ failures_after result (⟦<Disk<'r, R> as Folder>⟧.failure_count self.old) }
    {
        let answer = self.read_file(alloc, path);
        self.count_failure(&answer);
        answer
    }

    /// Whether the file at the path has these bytes. `NotOpened` comes where the host does not open
    /// it or calls it a folder, and `Device` where a later read fails.
    fn has_bytes(&mut self, alloc: Global, path: &str, bytes: &[u8]) -> Result<bool, ReadError>
        ensures same { IfOk result (λ same. IsTrue same
            → AreAllOfFile R.File.remaining bytes.now) }
        ensures failures { ⟦<Disk<'r, R> as Folder>⟧.failure_count self.new
            ≡ failures_after result (⟦<Disk<'r, R> as Folder>⟧.failure_count self.old) }
    {
        let answer = self.compare_file(alloc, path, bytes);
        self.count_failure(&answer);
        answer
    }

    /// These bytes of the file at the path, and its length as the host says it. `None` where the
    /// host calls it no regular file, or empty, where it cannot be set to `start`, or where the
    /// file ends before that length. `NotOpened` comes where the host knows nothing at the path,
    /// does not open it or calls it a folder, and `Device` where a later read fails.
    fn read_part(
        &mut self,
        alloc: Global,
        path: &str,
        start: u64,
        len: usize,
    ) -> Result<Option<Part>, ReadError>
        ensures bytes { IfPart result (λ part. AreOfFileFrom R.File.stream_position
            R.File.stream_bytes R.File.remaining start part.bytes.items) }
        ensures size { IfPart result (λ part.
            length part.bytes.items ≡ min len (part.file_len - start)) }
        ensures failures { ⟦<Disk<'r, R> as Folder>⟧.failure_count self.new
            ≡ failures_after result (⟦<Disk<'r, R> as Folder>⟧.failure_count self.old) }
    {
        let answer = self.read_part_of(alloc, path, start, len);
        self.count_failure(&answer);
        answer
    }
}
