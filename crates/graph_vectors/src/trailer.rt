//! The right checksum for a file whose bytes were changed.

ghost use Rattle.std.specs.Prelude.{◌≡◌, ◌-◌, ◌≤◌, length, take, drop};
ghost use Rattle.gix_hash_core.specs.Digest.{digest_of};
ghost use Rattle.gix_hash_core.specs.Kind.{id_len};

use gix_hash_core::{Kind, digest};

/// Sets the last bytes, 20 for SHA-1 or 32 for SHA-256, to the digest of the bytes before them, so
/// that a file of this kind whose bytes were changed has the right checksum again
/// (gitformat-commit-graph, "TRAILER"). There have to be at least that many bytes. The other bytes
/// are left as they are, and nothing is allocated.
pub fn reseal(kind: Kind, bytes: &mut Vec<u8>)
    requires { id_len kind ≤ length bytes.old.items }
    ensures len { length bytes.new.items ≡ length bytes.old.items }
    ensures front { let front = length bytes.old.items - id_len kind in
        take front bytes.new.items ≡ take front bytes.old.items }
    ensures trailer { let front = length bytes.old.items - id_len kind in
        drop front bytes.new.items ≡ digest_of kind (take front bytes.old.items) }
{
    let end = bytes.len() - kind.len_in_bytes();
    let checksum = digest(kind, &bytes[..end]);
    bytes[end..].copy_from_slice(checksum.as_oid().as_bytes());
}
