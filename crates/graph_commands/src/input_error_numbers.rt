//! The numbers that stand in the program's lines for errors of ids and of reading.

ghost use Rattle.std.specs.Prelude.{◌≡◌};
ghost use Rattle.graph_commands.specs.InputErrorNumbers.{id_number, read_number};

use gix_hash_core::IdError;
use graph_folder::folder::ReadError;

/// The number of the reason for which a text is no id.
pub fn id_number(error: IdError) -> u8
    ensures { result ≡ id_number error }
{
    match error {
        IdError::Length => 1,
        IdError::Digit => 2,
    }
}

/// The number of the reason for which the input could not be read.
pub fn read_number(error: &ReadError) -> u8
    ensures { result ≡ read_number error.now }
{
    match error {
        ReadError::NotOpened => 1,
        ReadError::Device => 2,
        ReadError::OutOfMemory => 3,
    }
}
