//! What a type has to be: a function compiles with the types that have its traits, and does
//! nothing.

use graph_folder::folder::Folder;
use std::error::Error;
use std::fmt::{Debug, Display};
use std::hash::Hash;

/// A value that may be dropped.
pub fn droppable<T: Drop>() {}

/// A value with a debug text.
pub fn shown<T: Debug + Drop>() {}

/// A value with a debug text that is compared.
pub fn compared<T: Debug + Drop + Eq + PartialEq>() {}

/// A value with a debug text that is compared and copied.
pub fn plain<T: Clone + Copy + Debug + Eq + PartialEq>() {}

/// An id or a position.
pub fn ordered<T: Clone + Copy + Debug + Display + Eq + Hash + Ord + PartialEq + PartialOrd>() {}

/// An error that is compared.
pub fn error<T: Debug + Display + Drop + Eq + Error + PartialEq>() {}

/// An error that is compared and copied.
pub fn plain_error<T: Clone + Copy + Debug + Display + Eq + Error + PartialEq>() {}

/// An iterator over items of a type.
pub fn iterator<T, I: Iterator<Item = T> + Drop>() {}

/// A type and one that is made of it.
pub fn from<S, T: From<S>>() {}

/// A type and one that some of its values make.
pub fn try_from<S, T: TryFrom<S>>() {}

/// A folder that files are read from.
pub fn folder<T: Drop + Folder>() {}

/// A value of exactly this type.
pub fn of_type<T>(_value: &T) {}

/// Two values of exactly these types.
pub fn of_types<T, U>(_first: &T, _second: &U) {}
