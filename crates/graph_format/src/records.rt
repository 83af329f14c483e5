//! The records and the extra edge list of a file, decoded.

ghost use Rattle.std.specs.Prelude.{◌≡◌, ◌∷◌, ◌++◌, [], List, ℕ, length, map, option_map, IfOk};
ghost use Rattle.std.specs.Prelude.{OnOk};
ghost use Rattle.graph_format.specs.Format.{Record, record_of, record_len, pieces, words};
ghost use Rattle.graph_format.specs.Layer.{decoded_layer};
ghost use Rattle.graph_format.specs.DecodedRecords.{AreDecoded};
ghost use Rattle.graph_format.specs.Layout.{IsLayout};

use crate::chunks::record_len;
use crate::integers::{long_at, word_at};
use crate::layout::Layout;
use gix_hash_core::Kind;
use std::alloc::{AllocError, Global};

/// How many bits of a record's last eight bytes are the committer's time; the generation number is
/// in the others, above them.
pub const TIME_BITS: u32 = 34;

/// How many bytes a word of the extra edge list has.
const WORD_LEN: usize = 4;

/// What records say, but for their root trees: a vector for each field, in the order of the
/// positions, and one for both parent fields, which are read together.
#[derive(Drop)]
pub struct Records {
    pub generations: Vec<u32>,
    pub times: Vec<u64>,
    pub parent_fields: Vec<(u32, u32)>,
}

impl Records {
    /// Decodes the records that stand in the bytes, one after another.
    #[tactic(auto, using(crate::proofs::DecodedRecordLemmas::decoding_laws))]
    pub(crate) fn decode(alloc: Global, kind: Kind, bytes: &[u8]) -> Result<Records, AllocError>
        ensures { IfOk result
            (AreDecoded (map (record_of kind) (pieces (record_len kind) bytes.now))) }
    {
        let size = record_len(kind);
        let count = bytes.len() / size;
        let mut records = Records::with_capacity(alloc, count)?;
        for pos in 0..count {
            records.push(kind, &bytes[size * pos..size * pos + size])?;
        }
        Ok(records)
    }

    /// No records yet, with room for so many.
    fn with_capacity(alloc: Global, count: usize) -> Result<Records, AllocError>
        ensures { IfOk result (AreDecoded []) }
    {
        Ok(Records {
            generations: Vec::with_capacity(alloc, count)?,
            times: Vec::with_capacity(alloc, count)?,
            parent_fields: Vec::with_capacity(alloc, count)?,
        })
    }

    /// Adds the record that the bytes are.
    #[tactic(auto, using(crate::proofs::DecodedRecordLemmas::decoding_laws), unfolding(crate::specs::Format::record_of))]
    fn push(&mut self, kind: Kind, bytes: &[u8]) -> Result<(), AllocError>
        requires { length bytes.now ≡ record_len kind }
        ensures { OnOk result ((records : List Record) → AreDecoded records self.old
            → AreDecoded (records ++ record_of kind bytes.now ∷ []) self.new) }
    {
        let fields = kind.len_in_bytes();
        let (first, second) = (word_at(bytes, fields), word_at(bytes, fields + 4));
        self.parent_fields.push((first, second))?;
        let (generation, time) = generation_and_time(kind, bytes);
        self.generations.push(generation)?;
        self.times.push(time)?;
        Ok(())
    }
}

/// The generation number and the committer's time that the bytes of a record say, the last eight.
#[tactic(auto, unfolding(crate::specs::Format::record_of))]
pub fn generation_and_time(kind: Kind, bytes: &[u8]) -> (u32, u64)
    requires { length bytes.now ≡ record_len kind }
    ensures generation { result.0 ≡ (record_of kind bytes.now).generation }
    ensures time { result.1 ≡ (record_of kind bytes.now).time }
{
    let word = long_at(bytes, kind.len_in_bytes() + 8);
    ((word >> TIME_BITS) as u32, word % (1 << TIME_BITS))
}

/// Decodes the words that stand in the bytes, one after another.
#[tactic(auto, using(crate::proofs::DecodedRecordLemmas::decoding_laws))]
pub(crate) fn decode_words(alloc: Global, bytes: &[u8]) -> Result<Vec<u32>, AllocError>
    ensures { IfOk result (λ decoded. decoded.items ≡ words bytes.now) }
{
    let count = bytes.len() / WORD_LEN;
    let mut words = Vec::with_capacity(alloc, count)?;
    for index in 0..count {
        words.push(word_at(bytes, WORD_LEN * index))?;
    }
    Ok(words)
}

/// The records of the bytes, and the words of their extra edge list, if they have one.
#[tactic(auto, using(crate::proofs::LayoutLemmas::decoded_laws))]
pub fn decode_records_and_edges(
    alloc: Global,
    bytes: &[u8],
    layout: &Layout,
) -> Result<(Records, Option<Vec<u32>>), AllocError>
    requires { IsLayout bytes.now layout.now }
    ensures records { (path : List ℕ) → IfOk result (λ decoded.
        AreDecoded (decoded_layer bytes.now path).records decoded.0) }
    ensures edges { (path : List ℕ) → IfOk result (λ decoded.
        option_map (λ edges. edges.items) decoded.1
        ≡ option_map words (decoded_layer bytes.now path).edges) }
{
    let chunk = layout.chunks.records;
    let records = Records::decode(alloc, layout.kind, &bytes[chunk.start..chunk.end])?;
    let extra_edges = match layout.chunks.edges {
        Some(chunk) => Some(decode_words(alloc, &bytes[chunk.start..chunk.end])?),
        None => None,
    };
    Ok((records, extra_edges))
}
