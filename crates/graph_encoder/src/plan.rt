//! What a file is to hold.

ghost use Rattle.std.specs.Prelude.{◌≡◌, ◌↔◌, IsTrue, IfOk, IfSome, All, length, Option, None};
ghost use Rattle.gix_hash_core.specs.Kind.{id_len};
ghost use Rattle.gix_hash_core.specs.Oid.{oid_bytes};
ghost use Rattle.graph_encoder.specs.DateOffsets.{offsets_of};
ghost use Rattle.graph_encoder.specs.Plan.{IsPlan, IsPlannedCommit, AreOffsets, AreFilters};
ghost use Rattle.graph_encoder.specs.Rows.{IsRowOf};
ghost use Rattle.graph_encoder.specs.declared.plan.PlanCommit.{PlanCommit};

use crate::edges::has_few_extra_words;
use crate::filters::PlanFilters;
use crate::row::PlanRow;
use crate::view::PlanView;
use gix_hash_core::{Kind, ObjectId, oid};
use graph_format::parents::NO_PARENT;
use graph_format::records::TIME_BITS;
use std::alloc::{AllocError, Global};

/// What one file is to hold: the commits of a layer, and the checksums of the layers below it. It
/// may be anything that the format has room for: ids need not ascend, ids and trees may be null,
/// parents need not exist, and generation numbers may be wrong.
#[derive(Debug, Drop)]
pub struct FilePlan {
    /// The kind of all ids.
    pub kind: Kind,
    /// The checksums of the files below, the lowest first ("Base Graphs List").
    pub bases: Vec<ObjectId>,
    /// The commits in the order of the file.
    pub commits: Vec<PlanCommit>,
    /// For each commit how many seconds its corrected date is past its time, or `None` for a layer
    /// without corrected dates ("Generation Data").
    pub date_offsets: Option<Vec<u64>>,
    /// The changed-path filters of the commits, or `None` for a layer without filters ("Bloom
    /// Filter Index", "Bloom Filter Data").
    pub filters: Option<PlanFilters>,
}

/// What a file is to hold for one commit ("Commit Data").
#[derive(Debug, Drop)]
pub struct PlanCommit {
    /// The commit's own id.
    pub id: ObjectId,
    /// The id of its root tree.
    pub tree: ObjectId,
    /// The graph positions of its parents, in order.
    pub parents: Vec<u32>,
    /// The generation number, which may be wrong.
    pub generation: u32,
    /// The committer's time, in seconds since 1970-01-01 00:00:00 UTC.
    pub time: u64,
}

/// The greatest generation number that fits in 30 bits.
const MAX_GENERATION: u32 = 1073741823;

/// The greatest time that fits in 34 bits.
const MAX_TIME: u64 = (1 << TIME_BITS) - 1;

/// The most bases that the header's byte can count.
const MAX_BASES: usize = 255;

/// A file has fewer commits than this.
const COMMITS_LIMIT: usize = 2147483648;

/// A file has fewer bytes of filters than this.
const FILTER_BYTES_LIMIT: usize = 0x100000000;

impl FilePlan {
    ghost use Rattle.graph_encoder.specs.Plan.{IsPlan};

    /// The plan of a layer of this kind on these bases, without commits, dates and filters.
    ///
    /// # Errors
    ///
    /// `AllocError` where an allocation failed.
    pub fn new(alloc: Global, kind: Kind, bases: &[ObjectId]) -> Result<FilePlan, AllocError>
        ensures kind { IfOk result (λ plan. plan.kind ≡ kind) }
        ensures bases { IfOk result (λ plan. plan.bases.items ≡ bases.now) }
        ensures commits { IfOk result (λ plan. length plan.commits.items ≡ 0) }
        ensures dates { IfOk result (λ plan. plan.date_offsets ≡ None) }
        ensures filters { IfOk result (λ plan. plan.filters ≡ None) }
    {
        Ok(FilePlan {
            kind,
            bases: Vec::from_slice(alloc, bases)?,
            commits: Vec::new(alloc),
            date_offsets: None,
            filters: None,
        })
    }

    /// Whether a file can hold all of it: all ids are of the plan's kind, there are at most 255
    /// bases and fewer than 2147483648 commits, each generation number is at most 1073741823 and
    /// each time at most 17179869183, each parent is below 0x70000000, and there are fewer than
    /// 2147483648 extra words, which are the parents from the second on of each commit that has
    /// more than two. Where there are date offsets, there is one for each commit. Where there are
    /// filters, there is an end for each commit, and they have fewer than 4294967296 bytes.
    pub fn is_buildable(&self) -> bool
        ensures { IsTrue result ↔ IsPlan self.now }
    {
        is_buildable(self)
    }
}

/// A plan is read off itself.
impl PlanView for FilePlan {
    ghost use Rattle.graph_encoder.specs.declared.plan.FilePlan.{FilePlan};

    ghost as_plan = { λ plan. plan };

    fn kind(&self) -> Kind {
        self.kind
    }

    fn bases(&self) -> &[ObjectId] {
        &self.bases
    }

    fn commit_count(&self) -> usize {
        self.commits.len()
    }

    fn row(&self, place: usize) -> PlanRow<'_> {
        let commit = &self.commits[place];
        PlanRow {
            id: commit.id.as_oid(),
            tree: commit.tree.as_oid(),
            parents: &commit.parents,
            generation: commit.generation,
            time: commit.time,
        }
    }

    fn offsets(&self) -> Option<&[u64]> {
        match &self.date_offsets {
            Some(offsets) => Some(offsets),
            None => None,
        }
    }

    fn filters(&self) -> Option<&PlanFilters> {
        self.filters.as_ref()
    }
}

/// Whether a file can hold all that a plan lists, as [`FilePlan::is_buildable`] says.
pub fn is_buildable<P: PlanView>(plan: &P) -> bool
    ensures { IsTrue result ↔ IsPlan (P.as_plan plan.now) }
{
    plan.bases().len() <= MAX_BASES
        && are_of_kind(plan.bases(), plan.kind())
        && plan.commit_count() < COMMITS_LIMIT
        && all_fit(plan)
        && has_few_extra_words(plan)
        && has_offsets_of_all(plan)
        && has_filters_of_all(plan)
}

/// Whether records can hold all commits.
fn all_fit<P: PlanView>(plan: &P) -> bool
    ensures { IsTrue result ↔ All (IsPlannedCommit (P.as_plan plan.now).kind)
        (P.as_plan plan.now).commits.items }
{
    let kind = plan.kind();
    for place in 0..plan.commit_count() {
        if !fits(plan.row(place), kind) {
            return false;
        }
    }
    true
}

/// Whether a record can hold a commit.
fn fits(row: PlanRow<'_>, kind: Kind) -> bool
    ensures { (commit : PlanCommit) → IsRowOf commit row.entry
        → (IsTrue result ↔ IsPlannedCommit kind commit) }
{
    is_of_kind(row.id, kind)
        && is_of_kind(row.tree, kind)
        && row.parents.iter().all(|parent| *parent < NO_PARENT)
        && row.generation <= MAX_GENERATION
        && row.time <= MAX_TIME
}

/// Whether there is an offset for each commit, if there are any.
fn has_offsets_of_all<P: PlanView>(plan: &P) -> bool
    ensures { IsTrue result ↔ (IfSome (offsets_of (P.as_plan plan.now))
        (AreOffsets (length (P.as_plan plan.now).commits.items))) }
{
    match plan.offsets() {
        Some(offsets) => are_offsets(offsets, plan.commit_count()),
        None => true,
    }
}

/// Whether there is an offset for each of so many commits.
fn are_offsets(offsets: &[u64], commits: usize) -> bool
    ensures { IsTrue result ↔ AreOffsets commits offsets.now }
{
    offsets.len() == commits
}

/// Whether there is a filter for each commit, if there are any.
fn has_filters_of_all<P: PlanView>(plan: &P) -> bool
    ensures { IsTrue result ↔ (IfSome (P.as_plan plan.now).filters
        (AreFilters (length (P.as_plan plan.now).commits.items))) }
{
    match plan.filters() {
        Some(filters) => are_filters(filters, plan.commit_count()),
        None => true,
    }
}

/// Whether there is a filter for each of so many commits, and there is room for all.
fn are_filters(filters: &PlanFilters, commits: usize) -> bool
    ensures { IsTrue result ↔ AreFilters commits filters.now }
{
    filters.ends.len() == commits && filters.bytes.len() < FILTER_BYTES_LIMIT
}

fn is_of_kind(id: oid<'_>, kind: Kind) -> bool
    ensures { IsTrue result ↔ (length (oid_bytes id.entry) ≡ id_len kind) }
{
    id.as_bytes().len() == kind.len_in_bytes()
}

fn are_of_kind(ids: &[ObjectId], kind: Kind) -> bool
    ensures { IsTrue result ↔ All (λ id. length id ≡ id_len kind) ids.now }
{
    ids.iter().all(|id| is_of_kind(id.as_oid(), kind))
}
