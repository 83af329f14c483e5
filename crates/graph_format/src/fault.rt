//! What the checks of a layer and of a graph find wrong with a layer, and with a commit.

use thiserror::Error;

/// What is wrong with a layer as a whole.
#[derive(Clone, Copy, Debug, PartialEq, Eq, Error)]
pub enum LayerFault {
    /// The checksum is not the digest of the bytes before it ("TRAILER").
    #[error("Checksum")]
    Checksum,
    /// The file is named as a layer of a chain, and not after its checksum ("Commit-Graphs Chains"
    /// of Git's commit-graph design).
    #[error("FileName")]
    FileName,
    /// The fan's number at this byte is not the number of ids whose first byte is at most that. It
    /// is the least such byte ("OID Fanout").
    #[error("Fan")]
    Fan { byte: u8 },
}

/// What is wrong with the ids of a commit.
#[derive(Clone, Copy, Debug, PartialEq, Eq, Error)]
pub enum CommitFault {
    /// The id is null ("OID Lookup").
    #[error("NullId")]
    NullId,
    /// The id is not above the one before it in the layer ("OID Lookup").
    #[error("Order")]
    Order,
    /// The id of the root tree is null ("Commit Data").
    #[error("NullTree")]
    NullTree,
}
