//! Digests of messages.
ghost use Rattle.std.specs.Prelude.{◌≡◌};
ghost use Rattle.gix_hash_core.specs.Digest.{digest_of};

use crate::kind::Kind;
use crate::object_id::ObjectId;
use sha1::Sha1;
use sha2::{Digest, Sha256};

/// The digest of the bytes, an id of the kind: SHA-1 or SHA-256 as FIPS 180-4 defines them.
pub fn digest(kind: Kind, bytes: &[u8]) -> ObjectId
    ensures { result ≡ digest_of kind bytes.now }
{
    match kind {
        Kind::Sha1 => ObjectId::from(Sha1::digest(bytes)),
        Kind::Sha256 => ObjectId::from(Sha256::digest(bytes)),
    }
}
