//! Folders, whole reads and the lines of a chain file.

use crate::bounds;
use graph_folder::chain::Lines;
use graph_folder::folder::{Disk, Folder, Memory, Part, ReadError, read_all};
use std::alloc::{AllocError, Global};
use std::io::Read;
use std::rt::Files;

fn failures<T: Folder>(folder: &T) -> u64 {
    Folder::failures(folder)
}

fn is_file<T: Folder>(folder: &mut T, alloc: Global, path: &str) -> Result<bool, AllocError> {
    Folder::is_file(folder, alloc, path)
}

fn is_dir<T: Folder>(folder: &mut T, alloc: Global, path: &str) -> Result<bool, AllocError> {
    Folder::is_dir(folder, alloc, path)
}

fn read<T: Folder>(folder: &mut T, alloc: Global, path: &str) -> Result<Vec<u8>, ReadError> {
    Folder::read(folder, alloc, path)
}

fn has_bytes<T: Folder>(
    folder: &mut T,
    alloc: Global,
    path: &str,
    bytes: &[u8],
) -> Result<bool, ReadError> {
    Folder::has_bytes(folder, alloc, path, bytes)
}

fn read_part<T: Folder>(
    folder: &mut T,
    alloc: Global,
    path: &str,
    start: u64,
    len: usize,
) -> Result<Option<Part>, ReadError> {
    Folder::read_part(folder, alloc, path, start, len)
}

fn parts(part: Part) -> (Vec<u8>, u64) {
    bounds::droppable::<Part>();
    let Part { bytes, file_len } = part;
    (bytes, file_len)
}

fn read_errors(error: &ReadError) {
    bounds::error::<ReadError>();
    match error {
        ReadError::NotOpened | ReadError::Device | ReadError::OutOfMemory => {}
    }
}

fn disks<'r, R: Files>(rt: &'r R) -> Disk<'r, R> {
    bounds::folder::<Disk<'r, R>>();
    Disk::new(rt)
}

fn memories(alloc: Global) -> Memory {
    bounds::folder::<Memory>();
    Memory::new(alloc)
}

fn put_file(folder: &mut Memory, path: String, bytes: Vec<u8>) -> Result<(), AllocError> {
    Memory::put_file(folder, path, bytes)
}

fn put_dir(folder: &mut Memory, path: String) -> Result<(), AllocError> {
    Memory::put_dir(folder, path)
}

fn fail_read(folder: &mut Memory, n: u32) {
    Memory::fail_read(folder, n)
}

fn all_bytes<R: Read>(alloc: Global, reader: &mut R) -> Result<Vec<u8>, ReadError> {
    read_all(alloc, reader)
}

fn lines<'a>(text: &'a [u8]) -> Lines<'a> {
    bounds::iterator::<&'a [u8], Lines<'a>>();
    Lines::new(text)
}
