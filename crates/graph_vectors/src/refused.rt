//! Files that opening refuses, each with its refusal.

use crate::raw::{END, Entry};
use graph_format::error::FileError;

/// A header, the entries of a table, the number of bytes 0 after it, and the refusal of that file.
pub type Refused = (&'static [u8; 8], &'static [Entry], usize, FileError);

/// The header of a SHA-1 file of three chunks.
pub const THREE: &[u8; 8] = b"CGPH\x01\x01\x03\x00";

/// The table of a file without commits. A fan of 1024 bytes 0 follows it, and 20 for a checksum.
pub const ENTRIES: &[Entry] = &[(b"OIDF", 56), (b"OIDL", 1080), (b"CDAT", 1080), (END, 1080)];

/// Files with a wrong header, or with one that does not fit what follows.
pub const REFUSED_HEADERS: &[Refused] = &[
    (b"CGPX\x01\x01\x03\x00", ENTRIES, 1044, FileError::Signature),
    (
        b"CGPH\x02\x01\x03\x00",
        ENTRIES,
        1044,
        FileError::Version(2),
    ),
    (b"CGPH\x01\x03\x03\x00", ENTRIES, 1044, FileError::Hash(3)),
    (
        b"CGPH\x01\x01\x03\x01",
        ENTRIES,
        1044,
        FileError::BaseMissing,
    ),
    (b"CGPH\x01\x02\x03\x00", ENTRIES, 1044, FileError::Trailer),
];

/// Files without one of the three chunks that each file has.
pub const MISSING_CHUNKS: &[Refused] = &[
    (
        THREE,
        &[(b"OIDF", 56), (b"OIDL", 1080), (b"XTRA", 1080), (END, 1080)],
        1044,
        FileError::NoCommitData,
    ),
    (
        THREE,
        &[(b"XTRA", 56), (b"OIDL", 1080), (b"CDAT", 1080), (END, 1080)],
        1044,
        FileError::NoFan,
    ),
    (
        THREE,
        &[(b"OIDF", 56), (b"XTRA", 1080), (b"CDAT", 1080), (END, 1080)],
        1044,
        FileError::NoIds,
    ),
];

/// Files with a chunk or a checksum of a wrong size.
pub const WRONG_SIZES: &[Refused] = &[
    (
        THREE,
        &[(b"OIDF", 56), (b"OIDL", 1080), (b"CDAT", 1080), (END, 1115)],
        1079,
        FileError::CommitDataSize,
    ),
    (
        THREE,
        &[(b"OIDF", 56), (b"OIDL", 1081), (b"CDAT", 1081), (END, 1081)],
        1045,
        FileError::FanSize,
    ),
    (
        THREE,
        &[(b"OIDF", 56), (b"OIDL", 1080), (b"CDAT", 1099), (END, 1099)],
        1063,
        FileError::IdsSize,
    ),
    (
        THREE,
        &[(b"OIDF", 56), (b"OIDL", 1080), (b"CDAT", 1080), (END, 1080)],
        1045,
        FileError::Trailer,
    ),
    (
        THREE,
        &[(b"OIDF", 56), (b"OIDL", 1080), (b"CDAT", 1100), (END, 1100)],
        1064,
        FileError::IdCount,
    ),
    (
        THREE,
        &[(b"OIDF", 56), (b"OIDL", 1080), (b"CDAT", 1080), (END, 1116)],
        1080,
        FileError::RecordCount,
    ),
];

/// Files with base ids of a wrong size or number.
pub const WRONG_BASES: &[Refused] = &[
    (
        b"CGPH\x01\x01\x04\x01",
        &[
            (b"OIDF", 68),
            (b"OIDL", 1092),
            (b"CDAT", 1092),
            (b"BASE", 1092),
            (END, 1111),
        ],
        1063,
        FileError::BaseSize,
    ),
    (
        b"CGPH\x01\x01\x04\x02",
        &[
            (b"OIDF", 68),
            (b"OIDL", 1092),
            (b"CDAT", 1092),
            (b"BASE", 1092),
            (END, 1112),
        ],
        1064,
        FileError::BaseCount,
    ),
];
