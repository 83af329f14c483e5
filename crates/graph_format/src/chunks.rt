//! Where the chunks of a file lie, and whether their sizes are right.

ghost use Rattle.std.specs.Prelude.{◌≡◌, ◌+◌, ◌≤◌, length, slice_index, Some};
ghost use Rattle.std.specs.Prelude.{IfOk, IfSome, option_map};
ghost use Rattle.gix_hash_core.specs.Kind.{id_len};
ghost use Rattle.gix_chunk_core.specs.FirstBytes.{filled};
ghost use Rattle.gix_chunk_core.specs.Table.{Chunks};
ghost use Rattle.graph_format.specs.Reports.{Reports};
ghost use Rattle.graph_format.specs.RefusalGroups.{bases_refusal, records_refusal, fan_refusal};
ghost use Rattle.graph_format.specs.RefusalGroups.{ids_refusal, edges_refusal, sizes_refusal};
ghost use Rattle.graph_format.specs.ChunkRanges.{IsChunkRange, AreChunkRanges};
ghost use Rattle.graph_format.specs.ChunkRanges.{size_at, chunk_start};

use crate::error::FileError;
use crate::header::BASE_COUNT_AT;
use gix_chunk_core::Index;
use gix_hash_core::Kind;

/// The bytes of a file from `start` up to but not including `end`.
#[derive(Clone, Copy)]
pub struct ChunkRange {
    pub start: usize,
    pub end: usize,
}

impl ChunkRange {
    /// How many bytes there are.
    pub(crate) fn size(self) -> usize
        requires { self.start ≤ self.end }
        ensures { result ≡ size_at self }
    {
        self.end - self.start
    }
}

/// Where the chunks lie.
#[derive(Clone, Copy)]
pub struct ChunkRanges {
    pub fan: ChunkRange,
    pub ids: ChunkRange,
    pub records: ChunkRange,
    pub edges: Option<ChunkRange>,
    pub bases: Option<ChunkRange>,
}

/// Where a chunk begins, 0 where it is missing.
pub fn start_of(range: Option<ChunkRange>) -> usize
    ensures { result ≡ chunk_start range }
{
    match range {
        Some(range) => range.start,
        None => 0,
    }
}

/// The chunk of the section "OID Fanout".
const OID_FAN_CHUNK_ID: [u8; 4] = *b"OIDF";

/// The chunk of the section "OID Lookup".
const OID_LOOKUP_CHUNK_ID: [u8; 4] = *b"OIDL";

/// The chunk of the section "Commit Data".
const COMMIT_DATA_CHUNK_ID: [u8; 4] = *b"CDAT";

/// The chunk of the section "Extra Edge List".
const EXTENDED_EDGES_LIST_CHUNK_ID: [u8; 4] = *b"EDGE";

/// The chunk of the section "Base Graphs List".
const BASE_GRAPHS_LIST_CHUNK_ID: [u8; 4] = *b"BASE";

/// How many numbers the fan has.
const FAN_LEN: usize = 256;

/// How many bytes a word of the extra edge list and a number of the fan have.
const WORD_LEN: usize = 4;

/// The greatest number of words in the extra edge list. With two more, a number of parents fits 32
/// bits.
const MAX_EDGES: usize = 4294967294;

/// How many bytes a record has beside the id of its root tree: two parent fields, and 64 bits of
/// generation number and time.
const RECORD_LEN_WITHOUT_ID: usize = 2 * WORD_LEN + 8;

/// How many bytes a record has.
pub fn record_len(kind: Kind) -> usize
    ensures { result ≡ id_len kind + 16 }
{
    kind.len_in_bytes() + RECORD_LEN_WITHOUT_ID
}

/// Refuses a list of base ids that ends within an id, or has another number of ids than the header
/// says.
#[tactic(auto, unfolding(crate::specs::RefusalGroups::bases_refusal))]
fn check_bases(kind: Kind, count: u8, range: Option<ChunkRange>) -> Result<(), FileError>
    requires { IfSome range (λ p. p.start ≤ p.end) }
    ensures { Reports result (bases_refusal kind count (option_map size_at range)) }
{
    if let Some(range) = range {
        if range.size() % kind.len_in_bytes() != 0 {
            return Err(FileError::BaseSize);
        }
        if range.size() / kind.len_in_bytes() != count as usize {
            return Err(FileError::BaseCount);
        }
    }
    Ok(())
}

/// Refuses records that are missing, or that end within a record.
#[tactic(auto, unfolding(crate::specs::RefusalGroups::records_refusal))]
fn check_records(kind: Kind, range: Option<ChunkRange>) -> Result<ChunkRange, FileError>
    requires { IfSome range (λ p. p.start ≤ p.end) }
    ensures refusal { Reports result (records_refusal kind (option_map size_at range)) }
    ensures same { IfOk result (λ p. range ≡ Some p) }
{
    match range {
        None => Err(FileError::NoCommitData),
        Some(range) if range.size() % record_len(kind) != 0 => Err(FileError::CommitDataSize),
        Some(range) => Ok(range),
    }
}

/// Refuses a fan that is missing, or that does not have 256 numbers.
#[tactic(auto, unfolding(crate::specs::RefusalGroups::fan_refusal))]
fn check_fan(range: Option<ChunkRange>) -> Result<ChunkRange, FileError>
    requires { IfSome range (λ p. p.start ≤ p.end) }
    ensures refusal { Reports result (fan_refusal (option_map size_at range)) }
    ensures same { IfOk result (λ p. range ≡ Some p) }
    ensures size { IfOk result (λ p. p.end ≡ p.start + 1024) }
{
    match range {
        None => Err(FileError::NoFan),
        Some(range) if range.size() != FAN_LEN * WORD_LEN => Err(FileError::FanSize),
        Some(range) => Ok(range),
    }
}

/// Refuses ids that are missing, or that end within an id.
#[tactic(auto, unfolding(crate::specs::RefusalGroups::ids_refusal))]
fn check_ids(kind: Kind, range: Option<ChunkRange>) -> Result<ChunkRange, FileError>
    requires { IfSome range (λ p. p.start ≤ p.end) }
    ensures refusal { Reports result (ids_refusal kind (option_map size_at range)) }
    ensures same { IfOk result (λ p. range ≡ Some p) }
{
    match range {
        None => Err(FileError::NoIds),
        Some(range) if range.size() % kind.len_in_bytes() != 0 => Err(FileError::IdsSize),
        Some(range) => Ok(range),
    }
}

/// Refuses an extra edge list that has too many words.
#[tactic(auto, unfolding(crate::specs::RefusalGroups::edges_refusal))]
fn check_edges(range: Option<ChunkRange>) -> Result<(), FileError>
    requires { IfSome range (λ p. p.start ≤ p.end) }
    ensures { Reports result (edges_refusal (option_map size_at range)) }
{
    match range {
        Some(range) if range.size() / WORD_LEN > MAX_EDGES => Err(FileError::TooManyEdges),
        _ => Ok(()),
    }
}

/// Where the chunk with an id lies, by a table that was read.
#[tactic(auto, using(crate::proofs::ChunkLemmas::chunk_laws))]
pub(crate) fn chunk_range(
    front: &[u8],
    len: usize,
    index: &Index<'_>,
    id: [u8; 4],
) -> Option<ChunkRange>
    requires { Chunks (filled front.now len) 8 (slice_index (filled front.now len) 6) index.now }
    ensures { IsChunkRange (filled front.now len) id result }
{
    match index.range_by_id(id) {
        Some(range) => Some(ChunkRange {
            start: range.start,
            end: range.end,
        }),
        None => None,
    }
}

/// Where the chunks lie, if those that have to be there are there, and each has a right size.
#[tactic(auto, using(crate::proofs::ChunkLemmas::size_laws, gix_chunk_core::proofs::HeadLemmas::head_laws), unfolding(crate::specs::RefusalGroups::sizes_refusal))]
pub(crate) fn chunk_ranges(
    front: &[u8],
    len: usize,
    index: &Index<'_>,
    kind: Kind,
) -> Result<ChunkRanges, FileError>
    requires header { 8 ≤ length front.now }
    requires table { Chunks (filled front.now len) 8 (slice_index (filled front.now len) 6)
        index.now }
    ensures chunks { IfOk result (AreChunkRanges (filled front.now len)) }
    ensures fan { IfOk result (λ chunks. chunks.fan.end ≡ chunks.fan.start + 1024) }
    ensures refusal { Reports result (sizes_refusal kind (filled front.now len)) }
{
    let bases = chunk_range(front, len, index, BASE_GRAPHS_LIST_CHUNK_ID);
    check_bases(kind, front[BASE_COUNT_AT], bases)?;
    let records = check_records(kind, chunk_range(front, len, index, COMMIT_DATA_CHUNK_ID))?;
    let fan = check_fan(chunk_range(front, len, index, OID_FAN_CHUNK_ID))?;
    let ids = check_ids(kind, chunk_range(front, len, index, OID_LOOKUP_CHUNK_ID))?;
    let edges = chunk_range(front, len, index, EXTENDED_EDGES_LIST_CHUNK_ID);
    check_edges(edges)?;
    Ok(ChunkRanges {
        fan,
        ids,
        records,
        edges,
        bases,
    })
}
