//! The filters of a layer.

ghost use Rattle.std.specs.Prelude.{◌≡◌, ◌↔◌, ◌*◌, ◌<◌, ◌≤◌, ◌^◌, List, length, slice_get, Some};
ghost use Rattle.std.specs.Prelude.{IfOk, true, false};
ghost use Rattle.graph_format.specs.Reports.{Reports};
ghost use Rattle.graph_format.specs.Integers.{word_in};
ghost use Rattle.changed_paths.specs.Filter.{IsPossible, IsAbsent};
ghost use Rattle.changed_paths.specs.Filters.{version_of, start_of, filters_of, places_refusal};
ghost use Rattle.changed_paths.specs.Filters.{filters_refusal, IsRising};
ghost use Rattle.changed_paths.specs.declared.filters.Answer.TheVariants as answer;

use crate::key::PathKey;
use crate::murmur3::ByteReading;
use graph_format::file::Position;
use graph_format::integers::word_at;
use std::marker::Model;
use thiserror::Error;

/// How many bytes the three numbers have that stand before the filters.
const HEADER_LEN: usize = 12;

/// The greatest number of hashes. (Git writes 7.)
const MAX_HASHES: u32 = 65535;

/// The version of the hash.
#[derive(Clone, Copy, Debug, PartialEq, Eq)]
pub enum HashVersion {
    /// 1: bytes are read as the machine of the writer reads them, mostly as signed numbers. A path
    /// whose bytes are all below 128 has one hash in either reading.
    One,
    /// 2: bytes are unsigned.
    Two,
}

/// Why the chunks `BIDX` and `BDAT` of a layer are refused: the first of these that holds, where
/// `Falls` and `PastEnd` are looked for together, commit by commit. Its text is the name of the
/// variant alone.
#[derive(Clone, Copy, Debug, PartialEq, Eq, Error)]
pub enum LayerFiltersError {
    /// The index has not four bytes for each commit ("Bloom Filter Index").
    #[error("IndexSize")]
    IndexSize,
    /// The data has fewer than twelve bytes ("Bloom Filter Data").
    #[error("DataSize")]
    DataSize,
    /// The version of the hash is this number, and neither 1 nor 2.
    #[error("Version")]
    Version(u32),
    /// The number of hashes is this number: 0, or more than 65535.
    #[error("Hashes")]
    Hashes(u32),
    /// The number of bits per entry is 0.
    #[error("NoBits")]
    NoBits,
    /// The filter of this commit ends before it begins.
    #[error("Falls")]
    Falls(Position),
    /// The filter of this commit ends past the end of the data.
    #[error("PastEnd")]
    PastEnd(Position),
    /// There are bytes after the last filter.
    #[error("LeftOver")]
    LeftOver,
}

/// What the filter of a commit says of a path.
#[derive(Clone, Copy, Debug, PartialEq, Eq)]
pub enum Answer {
    /// The filter was not computed.
    NotComputed,
    /// The path is none of those for which bits of the filter were set.
    Absent,
    /// The path may be one of them.
    Possible,
}

/// The filters of a layer, lent by the chunks `BIDX` and `BDAT`, which were not refused. A contract
/// sees the filters one by one.
#[derive(Drop)]
pub struct PathFilters<'a> {
    index: &'a [u8],
    body: &'a [u8],
    version: HashVersion,
    hashes: u32,
}

impl<'a> Model for PathFilters<'a> {
    ghost use Rattle.std.specs.Prelude.{◌≡◌, ◌/◌, length, None};
    ghost use Rattle.changed_paths.specs.Filters.{Filters, filters_of, filters_refusal};

    ghost Value = { Filters };

    ghost view = { λ a. record {
      version = a.version;
      hashes = a.hashes;
      filters = filters_of a.index.now a.body.now;
    } };

    ghost invariant = { λ a.
        filters_refusal (length a.index.now / 4) a.index.now a.body.now ≡ None };
}

/// The version that a number names.
fn version_of(number: u32) -> Option<HashVersion>
    ensures { result ≡ version_of number }
{
    match number {
        1 => Some(HashVersion::One),
        2 => Some(HashVersion::Two),
        _ => None,
    }
}

/// Where the filter of a commit begins, counted from the first filter.
fn start_of(index: &[u8], pos: u32) -> u32
    requires { 4 * pos ≤ length index.now }
    ensures { result ≡ start_of index.now pos }
{
    match pos {
        0 => 0,
        _ => word_at(index, 4 * (pos as usize - 1)),
    }
}

/// Whether no filter ends before it begins.
///
/// It goes over all of them, whatever it finds, so that the compiler may compare several at once.
#[tactic(auto, using(crate::proofs::PlaceLemmas::rising_laws))]
fn is_rising(commits: u32, index: &[u8]) -> bool
    requires { length index.now ≡ 4 * commits }
    ensures rising { result ≡ true → IsRising commits index.now }
    ensures falling { result ≡ false → ¬ IsRising commits index.now }
{
    let mut start = 0;
    let mut rising = true;
    for pos in 0..commits as usize {
        let end = word_at(index, 4 * pos);
        rising &= start <= end;
        start = end;
    }
    rising
}

/// What [`check_places`] answers, commit by commit.
#[tactic(auto, using(crate::proofs::PlaceLemmas::found_laws), unfolding(crate::specs::Filters::places_refusal))]
fn check_each_place(commits: u32, index: &[u8], room: usize) -> Result<u32, LayerFiltersError>
    requires { length index.now ≡ 4 * commits }
    ensures refusal { Reports result (places_refusal commits index.now room) }
    ensures end { IfOk result (λ end. end ≡ start_of index.now commits) }
{
    let mut start = 0;
    for pos in 0..commits {
        let end = word_at(index, 4 * pos as usize);
        if end < start {
            return Err(LayerFiltersError::Falls(Position(pos)));
        }
        if end as usize > room {
            return Err(LayerFiltersError::PastEnd(Position(pos)));
        }
        start = end;
    }
    Ok(start)
}

/// Where the last filter ends, if none ends before it begins, or past so many bytes. Where that is
/// so, one comparison a commit tells it.
#[tactic(auto, using(crate::proofs::PlaceLemmas::all_fit))]
fn check_places(commits: u32, index: &[u8], room: usize) -> Result<u32, LayerFiltersError>
    requires { length index.now ≡ 4 * commits }
    ensures refusal { Reports result (places_refusal commits index.now room) }
    ensures end { IfOk result (λ end. end ≡ start_of index.now commits) }
{
    let end = start_of(index, commits);
    if end as usize <= room && is_rising(commits, index) {
        return Ok(end);
    }
    check_each_place(commits, index, room)
}

impl<'a> PathFilters<'a> {
    /// The filters that two chunks of a layer with so many commits hold: `BIDX`, and then `BDAT`.
    ///
    /// # Errors
    ///
    /// The first of [`LayerFiltersError`] that holds.
    #[tactic(auto, using(crate::proofs::FiltersLemmas::by_index), unfolding(crate::specs::Filters::filters_refusal))]
    pub fn from_chunks(
        commits: u32,
        index: &'a [u8],
        body: &'a [u8],
    ) -> Result<PathFilters<'a>, LayerFiltersError>
        ensures refusal { Reports result (filters_refusal commits index.now body.now) }
        ensures version { IfOk result (λ found.
            version_of (word_in body.now 0) ≡ Some found.version) }
        ensures hashes { IfOk result (λ found. found.hashes ≡ word_in body.now 1) }
        ensures filters { IfOk result (λ found.
            found.filters ≡ filters_of index.now body.now) }
        ensures commits { IfOk result (λ found. length found.filters ≡ commits) }
    {
        if index.len() != 4 * commits as usize {
            return Err(LayerFiltersError::IndexSize);
        }
        if body.len() < HEADER_LEN {
            return Err(LayerFiltersError::DataSize);
        }
        let number = word_at(body, 0);
        let Some(version) = version_of(number) else {
            return Err(LayerFiltersError::Version(number));
        };
        let hashes = word_at(body, 4);
        if hashes == 0 || hashes > MAX_HASHES {
            return Err(LayerFiltersError::Hashes(hashes));
        }
        if word_at(body, 8) == 0 {
            return Err(LayerFiltersError::NoBits);
        }
        let room = body.len() - HEADER_LEN;
        let end = check_places(commits, index, room)?;
        if (end as usize) < room {
            return Err(LayerFiltersError::LeftOver);
        }
        Ok(PathFilters {
            index,
            body,
            version,
            hashes,
        })
    }

    /// The version of the hash by which the filters were written.
    pub fn version(&self) -> HashVersion
        ensures { result ≡ self.now.version }
    {
        self.version
    }

    /// How many probes a path has.
    pub fn hashes(&self) -> u32
        ensures { result ≡ self.now.hashes }
    {
        self.hashes
    }

    /// The bytes of the filter of a commit of the layer. There are none where it was not computed.
    pub fn filter_at(&self, pos: Position) -> &'a [u8]
        requires { pos.0 < length self.now.filters }
        ensures bytes { slice_get self.now.filters pos.0 ≡ Some result.now }
        ensures small { length result.now < 2 ^ 32 }
    {
        let start = start_of(self.index, pos.0);
        let end = word_at(self.index, 4 * pos.0 as usize);
        &self.body[HEADER_LEN + start as usize..HEADER_LEN + end as usize]
    }

    /// What the filter of a commit of the layer says of a path: `Absent` only where the path is
    /// none of those for which the filter's bits were set, whichever way version 1 read their
    /// bytes.
    pub fn probe(&self, pos: Position, path: &PathKey<'_>) -> Answer
        requires { pos.0 < length self.now.filters }
        ensures not_computed { (filter : List _) → slice_get self.now.filters pos.0 ≡ Some filter
            → (result ≡ answer.NotComputed) ↔ (length filter ≡ 0) }
        ensures possible { (filter : List _) → slice_get self.now.filters pos.0 ≡ Some filter
            → result ≡ answer.Possible
            → IsPossible self.now.version self.now.hashes filter path.now }
        ensures absent { (filter : List _) → slice_get self.now.filters pos.0 ≡ Some filter
            → result ≡ answer.Absent
            → IsAbsent self.now.version self.now.hashes filter path.now }
    {
        let filter = self.filter_at(pos);
        if filter.is_empty() {
            return Answer::NotComputed;
        }
        let unsigned = path.all_hit(ByteReading::Unsigned, self.hashes, filter);
        let possible = match self.version {
            HashVersion::One => unsigned || path.all_hit(ByteReading::Signed, self.hashes, filter),
            HashVersion::Two => unsigned,
        };
        if possible {
            Answer::Possible
        } else {
            Answer::Absent
        }
    }
}
