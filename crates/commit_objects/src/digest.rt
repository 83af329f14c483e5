//! The ids of commits.

ghost use Rattle.std.specs.Prelude.{◌≡◌, ◌++◌, ◌∷◌, codes};
ghost use Rattle.sha1.specs.Sha1.{sha1};
ghost use Rattle.sha2.specs.Sha256.{sha256};
ghost use Rattle.commit_objects.specs.Object.{object_id_of};

use gix_hash_core::{Kind, ObjectId};
use itoa::Buffer;
use sha1::Sha1;
use sha2::{Digest, Sha256};

/// The id of the commit with these contents: the digest, by the hash of the kind, of `commit`, a
/// space, how many bytes they are in decimal, a byte 00, and the contents, which are not copied.
pub fn object_id(kind: Kind, contents: &[u8]) -> ObjectId
    ensures { result ≡ object_id_of kind contents.now }
{
    let mut buffer = Buffer::new();
    let size = buffer.format(contents.len()).as_bytes();
    match kind {
        Kind::Sha1 => ObjectId::from(sha1_of(size, contents)),
        Kind::Sha256 => ObjectId::from(sha256_of(size, contents)),
    }
}

/// The SHA-1 digest of a commit whose size has these digits.
fn sha1_of(size: &[u8], contents: &[u8]) -> [u8; 20]
    ensures { result ≡ sha1 (codes "commit " ++ size.now ++ 0 ∷ contents.now) }
{
    let mut hasher = Sha1::new();
    hasher.update(b"commit ");
    hasher.update(size);
    hasher.update(b"\0");
    hasher.update(contents);
    hasher.finalize()
}

/// The SHA-256 digest of a commit whose size has these digits.
fn sha256_of(size: &[u8], contents: &[u8]) -> [u8; 32]
    ensures { result ≡ sha256 (codes "commit " ++ size.now ++ 0 ∷ contents.now) }
{
    let mut hasher = Sha256::new();
    hasher.update(b"commit ");
    hasher.update(size);
    hasher.update(b"\0");
    hasher.update(contents);
    hasher.finalize()
}
