//! One commit of a plan.

use gix_hash_core::oid;

/// What a file is to hold for one commit, wherever it stands ("Commit Data").
#[derive(Clone, Copy, Drop)]
pub struct PlanRow<'a> {
    /// The commit's own id.
    pub id: oid<'a>,
    /// The id of its root tree.
    pub tree: oid<'a>,
    /// The graph positions of its parents, in order.
    pub parents: &'a [u32],
    /// The generation number.
    pub generation: u32,
    /// The committer's time, in seconds since 1970-01-01 00:00:00 UTC.
    pub time: u64,
}
