//! Why bytes are no layer, and why layers are no graph.

use gix_chunk_core::ChunkError;
use thiserror::Error;

/// Why `File::new` refuses bytes: the first of these kinds, in this order, whose
/// rule they break, and `OutOfMemory` only where they break none. Its text is the name of the
/// variant alone.
///
/// The rules are those of Git's commit-graph format, whose sections are named here. A rule may use
/// what the ones before it say. H is the number of bytes in an id: 20 of SHA-1, or 32 of SHA-256.
#[derive(Debug, PartialEq, Eq, Drop, Error)]
pub enum FileError {
    /// The bytes are fewer than 1100. No file is smaller: 8 bytes of the section "HEADER", 48 of a
    /// table of three chunks and its end ("CHUNK LOOKUP"), 1024 of "OID Fanout", and 20 of
    /// "TRAILER".
    #[error("TooSmall")]
    TooSmall,
    /// The first four bytes are not `CGPH` ("HEADER").
    #[error("Signature")]
    Signature,
    /// The version, byte 4, is this number and not 1 ("HEADER").
    #[error("Version")]
    Version(u8),
    /// The kind of hash, byte 5, is this number: neither 1 for SHA-1 nor 2 for SHA-256 ("HEADER").
    #[error("Hash")]
    Hash(u8),
    /// The table of chunks, at byte 8, is refused for this fault. Byte 6 is the number of its
    /// chunks ("CHUNK LOOKUP").
    #[error("Chunks")]
    Chunks(ChunkError),
    /// The chunk `BASE` is there, and its length is no multiple of H ("Base Graphs List").
    #[error("BaseSize")]
    BaseSize,
    /// The chunk `BASE` is there, and holds another number of ids than byte 7 says ("Base Graphs
    /// List").
    #[error("BaseCount")]
    BaseCount,
    /// The chunk `CDAT` is missing ("Commit Data").
    #[error("NoCommitData")]
    NoCommitData,
    /// The length of the chunk `CDAT` is no multiple of a record's, H + 16 ("Commit Data").
    #[error("CommitDataSize")]
    CommitDataSize,
    /// The chunk `OIDF` is missing ("OID Fanout").
    #[error("NoFan")]
    NoFan,
    /// The length of the chunk `OIDF` is not that of 256 numbers, 1024 bytes ("OID Fanout").
    #[error("FanSize")]
    FanSize,
    /// The chunk `OIDL` is missing ("OID Lookup").
    #[error("NoIds")]
    NoIds,
    /// The length of the chunk `OIDL` is no multiple of H ("OID Lookup").
    #[error("IdsSize")]
    IdsSize,
    /// The chunk `EDGE` has more than 4294967294 whole words of four bytes, so that a commit's
    /// number of parents might not fit 32 bits ("Extra Edge List").
    #[error("TooManyEdges")]
    TooManyEdges,
    /// What follows the last chunk has another length than a checksum, which has H bytes
    /// ("TRAILER").
    #[error("Trailer")]
    Trailer,
    /// Byte 7 says that there are base ids, and the chunk `BASE` is missing ("Base Graphs List").
    #[error("BaseMissing")]
    BaseMissing,
    /// The fan's number at this first byte is less than the number before it. It is the least such
    /// byte ("OID Fanout").
    #[error("FanFalls")]
    FanFalls { at: u8 },
    /// The chunk `OIDL` holds another number of ids than the fan's last number says ("OID Lookup").
    #[error("IdCount")]
    IdCount,
    /// The chunk `CDAT` holds another number of records than the fan's last number says ("Commit
    /// Data").
    #[error("RecordCount")]
    RecordCount,
    /// Memory ran out. The bytes break none of the rules above.
    #[error("OutOfMemory")]
    OutOfMemory,
}

/// Why files make no graph: the first of these conditions that holds.
#[derive(Debug, PartialEq, Eq, Drop, Error)]
pub enum GraphError {
    /// There is no file.
    #[error("NoFiles")]
    NoFiles,
    /// The files have this many commits together, which is more than
    /// [`MAX_COMMITS`](crate::MAX_COMMITS).
    #[error("TooManyCommits")]
    TooManyCommits(u128),
    /// The file of this layer, counted from 0, has ids of another kind than the file before it, and
    /// no earlier one has.
    #[error("HashMismatch")]
    HashMismatch { layer: usize },
    /// An allocation failed, and the files would make a graph.
    #[error("OutOfMemory")]
    OutOfMemory,
}
