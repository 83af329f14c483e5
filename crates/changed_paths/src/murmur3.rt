//! The 32-bit murmur3 hash, in both readings of bytes that "Bloom Filter Data" has.

ghost use Rattle.std.specs.Prelude.{◌≡◌, ◌+◌, ◌-◌, ◌<◌, ◌≤◌, length};
ghost use Rattle.changed_paths.specs.Murmur3.{word_of, word_at, last_word, scrambled, with_word};
ghost use Rattle.changed_paths.specs.Murmur3.{xor_shifted, finished, murmur3};

/// How a hash reads the bytes of a text.
#[derive(Clone, Copy, Debug, PartialEq, Eq)]
pub enum ByteReading {
    /// As signed numbers, whose sign fills the upper bits of a word.
    Signed,
    /// As unsigned numbers: murmur3 as it is published.
    Unsigned,
}

/// A byte as a word.
fn word_of(reading: ByteReading, byte: u8) -> u32
    ensures { result ≡ word_of reading byte }
{
    match reading {
        ByteReading::Signed if byte >= 128 => byte as u32 + 0xffff_ff00,
        _ => byte as u32,
    }
}

/// The word of the four bytes from one on.
fn word_at(reading: ByteReading, bytes: &[u8], at: usize) -> u32
    requires { at + 4 ≤ length bytes.now }
    ensures { result ≡ word_at reading bytes.now at }
{
    word_of(reading, bytes[at])
        | word_of(reading, bytes[at + 1]) << 8
        | word_of(reading, bytes[at + 2]) << 16
        | word_of(reading, bytes[at + 3]) << 24
}

/// The word of the bytes from one on, fewer than four.
fn last_word(reading: ByteReading, bytes: &[u8], at: usize) -> u32
    requires at { at ≤ length bytes.now }
    requires few { length bytes.now < at + 4 }
    ensures { result ≡ last_word reading bytes.now at (length bytes.now - at) }
{
    match bytes.len() - at {
        0 => 0,
        1 => word_of(reading, bytes[at]),
        2 => word_of(reading, bytes[at + 1]) << 8 ^ word_of(reading, bytes[at]),
        _ => {
            word_of(reading, bytes[at + 2]) << 16
                ^ word_of(reading, bytes[at + 1]) << 8
                ^ word_of(reading, bytes[at])
        }
    }
}

/// A word, scrambled before it goes into the hash.
fn scrambled(word: u32) -> u32
    ensures { result ≡ scrambled word }
{
    word.wrapping_mul(0xcc9e_2d51)
        .rotate_left(15)
        .wrapping_mul(0x1b87_3593)
}

/// The hash with one more word in it.
fn with_word(hash: u32, word: u32) -> u32
    ensures { result ≡ with_word hash word }
{
    (hash ^ scrambled(word))
        .rotate_left(13)
        .wrapping_mul(5)
        .wrapping_add(0xe654_6b64)
}

/// A hash and its upper bits, put together.
fn xor_shifted(hash: u32, bits: u32) -> u32
    requires { bits < 32 }
    ensures { result ≡ xor_shifted hash bits }
{
    hash ^ hash >> bits
}

/// The last steps, by which each bit bears upon all.
fn finished(hash: u32) -> u32
    ensures { result ≡ finished hash }
{
    let hash = xor_shifted(hash, 16).wrapping_mul(0x85eb_ca6b);
    let hash = xor_shifted(hash, 13).wrapping_mul(0xc2b2_ae35);
    xor_shifted(hash, 16)
}

/// The hash of bytes.
#[tactic(auto, unfolding(crate::specs::Murmur3::murmur3, crate::specs::Murmur3::with_words))]
pub fn murmur3(reading: ByteReading, seed: u32, bytes: &[u8]) -> u32
    ensures { result ≡ murmur3 reading seed bytes.now }
{
    let words = bytes.len() / 4;
    let mut hash = seed;
    for n in 0..words {
        hash = with_word(hash, word_at(reading, bytes, 4 * n));
    }
    finished(
        hash ^ scrambled(last_word(reading, bytes, 4 * words)) ^ (bytes.len() % (1 << 32)) as u32,
    )
}
