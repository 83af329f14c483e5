//! The lookup of an id whose kind is known, for the crates above: a function, so that [`File`] has
//! the methods of the Rust crate alone.

ghost use Rattle.std.specs.Prelude.{◌≡◌, length};
ghost use Rattle.gix_hash_core.specs.Kind.{id_len};
ghost use Rattle.gix_hash_core.specs.Oid.{oid_bytes};
ghost use Rattle.graph_format.specs.Lookup.{Found, file_position_number};

use crate::file::{File, Position};
use gix_hash_core::{Kind, oid};

/// The answer of `File::lookup` for an id of this kind ("OID Lookup"). It is compiled into its
/// callers: where these name the kind, the number of an id's bytes is a constant.
#[inline(always)]
pub fn lookup_of_kind(file: &File, id: oid<'_>, kind: Kind) -> Option<Position>
    requires { length (oid_bytes id) ≡ id_len kind }
    ensures { Found file.now (oid_bytes id.entry) (file_position_number result) }
{
    file.lookup_of_kind(id, kind).0
}
