//! Kinds, ids and digests.

use crate::bounds;
use gix_hash_core::{IdError, Kind, ObjectId, oid};

fn kinds(kind: Kind) {
    bounds::plain::<Kind>();
    match kind {
        Kind::Sha1 | Kind::Sha256 => {}
    }
}

/// The error is the byte.
fn kind_of_byte(byte: u8) -> Result<Kind, u8> {
    bounds::try_from::<u8, Kind>();
    Kind::try_from(byte)
}

fn len_in_bytes(kind: Kind) -> usize {
    Kind::len_in_bytes(kind)
}

fn shortest() -> Kind {
    Kind::shortest()
}

fn null_of_kind(kind: Kind) -> ObjectId {
    Kind::null(kind)
}

fn borrowed_ids() {
    bounds::ordered::<oid<'_>>();
}

fn try_from_bytes<'a>(bytes: &'a [u8]) -> Option<oid<'a>> {
    oid::try_from_bytes(bytes)
}

fn kind_of_id(id: oid<'_>) -> Kind {
    oid::kind(id)
}

fn as_bytes<'a>(id: oid<'a>) -> &'a [u8] {
    oid::as_bytes(id)
}

fn first_byte(id: oid<'_>) -> u8 {
    oid::first_byte(id)
}

fn front(id: oid<'_>) -> u64 {
    oid::front(id)
}

fn is_null(id: oid<'_>) -> bool {
    oid::is_null(id)
}

fn to_owned(id: oid<'_>) -> ObjectId {
    oid::to_owned(id)
}

fn owned_ids() {
    bounds::ordered::<ObjectId>();
    bounds::from::<[u8; 20], ObjectId>();
    bounds::from::<[u8; 32], ObjectId>();
}

fn null(kind: Kind) -> ObjectId {
    ObjectId::null(kind)
}

fn from_hex(text: &[u8]) -> Result<ObjectId, IdError> {
    ObjectId::from_hex(text)
}

fn as_oid<'a>(id: &'a ObjectId) -> oid<'a> {
    ObjectId::as_oid(id)
}

fn id_errors(error: &IdError) {
    bounds::plain_error::<IdError>();
    match error {
        IdError::Length | IdError::Digit => {}
    }
}

fn digest_of(kind: Kind, bytes: &[u8]) -> ObjectId {
    gix_hash_core::digest(kind, bytes)
}
