//! Of which kind the ids in a stream are that is not known before.

ghost use Rattle.std.specs.Prelude.{◌≡◌, None};
ghost use Rattle.write_commands.specs.NewStream.{kind_of_stream};

use gix_hash_core::Kind;
use object_stream::are_digits;

/// How many digits the longest id has.
pub(crate) const MOST_DIGITS: usize = 64;

/// The kind of the ids of a stream that begins with these bytes.
pub(crate) fn kind_in_front(bytes: &[u8]) -> Kind
    ensures { result ≡ kind_of_stream None bytes.now }
{
    let Some((digits, _)) = bytes.split_at_checked(MOST_DIGITS) else {
        return Kind::Sha1;
    };
    if are_digits(digits) {
        Kind::Sha256
    } else {
        Kind::Sha1
    }
}
