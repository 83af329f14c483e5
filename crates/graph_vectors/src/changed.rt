//! Files with bytes that are written over those of a plan.

use crate::plan::build;
use crate::rows::{DIAMOND, Row, plan_of_rows};
use crate::trailer::reseal;
use gix_hash_core::Kind;
use std::alloc::{AllocError, Global};

/// Bytes that are written over those of a file, from a place on.
pub type Change<'a> = (usize, &'a [u8]);

/// The SHA-1 file of these commits with these changes and with the right checksum, or `None` where
/// no file can hold the commits, or a change does not fit in it.
///
/// # Errors
///
/// `AllocError` where an allocation failed.
pub fn changed_file(
    alloc: Global,
    rows: &[Row<'_>],
    changes: &[Change<'_>],
) -> Result<Option<Vec<u8>>, AllocError> {
    let plan = plan_of_rows(alloc, &[], rows)?;
    if !plan.is_buildable() {
        return Ok(None);
    }
    let mut file = build(alloc, &plan)?;
    for (from, bytes) in changes {
        let to = from.saturating_add(bytes.len());
        if to - *from != bytes.len() || to > file.len() {
            return Ok(None);
        }
        file[*from..to].copy_from_slice(bytes);
    }
    if file.len() < Kind::Sha1.len_in_bytes() {
        return Ok(None);
    }
    reseal(Kind::Sha1, &mut file);
    Ok(Some(file))
}

/// The file of the diamond with this change, or `None` where it does not fit.
///
/// # Errors
///
/// `AllocError` where an allocation failed.
pub fn changed_diamond(alloc: Global, change: Change<'_>) -> Result<Option<Vec<u8>>, AllocError> {
    changed_file(alloc, DIAMOND, &[change])
}

/// A fan of the diamond whose number for the byte 0x11 is 0, though an id begins with it.
pub const WRONG_FAN: Change<'static> = (124, &[0; 4]);

/// A null id for the root tree of the diamond's third commit.
pub const NULL_TREE: Change<'static> = (1232, &[0; 20]);

/// The parents of the diamond's merge: none as the first, and one as the second.
pub const SECOND_WITHOUT_FIRST: Change<'static> = (1288, b"\x70\0\0\0\0\0\0\x02");

/// The same with an index into the extra edge list as the first.
pub const FIRST_IS_EDGE_INDEX: Change<'static> = (1288, b"\x80\0\0\0\x70\0\0\0");

/// The same with an index into the extra edge list, which is not there, as the second.
pub const NO_EDGE_LIST: Change<'static> = (1288, b"\0\0\0\x01\x80\0\0\0");

/// The commits of a layer, the position of the first one whose generation number is wrong, and the
/// number that is wanted there.
pub type WrongGeneration = (&'static [Row<'static>], u32, u32);

/// Each wrong in another way.
pub const WRONG_GENERATIONS: &[WrongGeneration] = &[
    (
        &[
            (0x11, &[], 1),
            (0x22, &[0], 2),
            (0x33, &[1], 3),
            (0x44, &[0, 0, 2], 2),
        ],
        3,
        4,
    ),
    (&[(0x11, &[], 0)], 0, 1),
    (&[(0x11, &[0], 1)], 0, 2),
    (
        &[(0x11, &[1], 1073741823), (0x22, &[0], 1073741822)],
        1,
        1073741823,
    ),
    (&[(0x11, &[1], 5), (0x22, &[0], 5)], 0, 6),
    (&[(0x11, &[], 1073741823)], 0, 1),
];
