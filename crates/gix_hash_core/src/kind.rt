//! The kinds of hash.
ghost use Rattle.std.specs.Prelude.{◌≡◌, replicate, MatchResult, Some, None};
ghost use Rattle.gix_hash_core.specs.Kind.{id_len, kind_of};

use crate::object_id::ObjectId;

/// The kind of hash that names the objects of a repository.
#[derive(Clone, Copy, Debug, PartialEq, Eq)]
pub enum Kind {
    /// SHA-1, whose ids have 20 bytes.
    Sha1,
    /// SHA-256, whose ids have 32 bytes.
    Sha256,
}

/// The kind that a byte of a file's header stands for: 1 is SHA-1 and 2 is SHA-256
/// (gitformat-commit-graph, "HEADER"). Any other byte comes back as the error.
impl TryFrom<u8> for Kind {
    type Error = u8;

    ghost try_from_gives = { λ byte r. MatchResult r (λ kind. kind_of byte ≡ Some kind)
        (λ e. (e ≡ byte) × (kind_of byte ≡ None)) };

    fn try_from(byte: u8) -> Result<Kind, u8> {
        match byte {
            1 => Ok(Kind::Sha1),
            2 => Ok(Kind::Sha256),
            _ => Err(byte),
        }
    }
}

impl Kind {
    /// The number of bytes in an id of this kind, 20 or 32.
    pub fn len_in_bytes(self) -> usize
        ensures { result ≡ id_len self }
    {
        match self {
            Kind::Sha1 => 20,
            Kind::Sha256 => 32,
        }
    }

    /// The kind with the shortest ids, SHA-1.
    pub fn shortest() -> Kind
        ensures { result ≡ Kind.Sha1 }
    {
        Kind::Sha1
    }

    /// The null id of this kind, whose bytes are all zero.
    pub fn null(self) -> ObjectId
        ensures { result ≡ replicate (id_len self) 0 }
    {
        ObjectId::null(self)
    }
}
