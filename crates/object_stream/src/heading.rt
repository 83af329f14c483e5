//! What the line before the contents says.

use crate::object_type::ObjectType;

/// What a line says behind the id.
#[derive(Clone, Copy, Debug, PartialEq, Eq)]
pub enum Heading {
    /// The object is not there.
    Missing,
    /// It is an object of this type and size.
    Object(ObjectType, u64),
}
