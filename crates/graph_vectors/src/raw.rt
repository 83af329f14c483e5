//! Files that no plan makes, part by part.

use std::alloc::{AllocError, Global};

/// The id of the entry that ends a table of chunks.
pub const END: &[u8; 4] = b"\0\0\0\0";

/// An entry of a table of chunks: an id, and where its chunk begins.
pub type Entry = (&'static [u8; 4], u64);

/// A file: a header, the entries of a table of chunks, and what follows the table.
///
/// # Errors
///
/// `AllocError` where an allocation failed.
pub fn file_of_parts(
    alloc: Global,
    header: &[u8; 8],
    entries: &[(&[u8; 4], u64)],
    parts: &[&[u8]],
) -> Result<Vec<u8>, AllocError> {
    let mut bytes = Vec::from_slice(alloc, header)?;
    for (id, offset) in entries {
        bytes.extend_from_slice(*id)?;
        bytes.extend_from_slice(&offset.to_be_bytes())?;
    }
    for part in parts {
        bytes.extend_from_slice(part)?;
    }
    Ok(bytes)
}

/// A file of this header, these entries of its table, and so many bytes 0.
///
/// # Errors
///
/// `AllocError` where an allocation failed.
pub fn file_of_zeros(
    alloc: Global,
    header: &[u8; 8],
    entries: &[(&[u8; 4], u64)],
    zeros: usize,
) -> Result<Vec<u8>, AllocError> {
    let rest = vec![in alloc; 0; zeros]?;
    file_of_parts(alloc, header, entries, &[&rest])
}

/// Numbers of four bytes each.
///
/// # Errors
///
/// `AllocError` where an allocation failed.
pub fn words(alloc: Global, numbers: &[u32]) -> Result<Vec<u8>, AllocError> {
    let mut bytes = Vec::new(alloc);
    for number in numbers {
        bytes.extend_from_slice(&number.to_be_bytes())?;
    }
    Ok(bytes)
}
