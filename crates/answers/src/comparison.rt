//! What commits have in common, by ids.

use graph_bases::Comparison;

/// What a commit and some others have in common, how far they have come apart, and the ids of the
/// merge bases, which `I` is a list of.
#[derive(Debug, Drop)]
pub struct IdComparison<I> {
    /// The merge bases by their positions, and how far the commits have come apart.
    pub comparison: Comparison,
    /// The ids of the merge bases, in the order of their positions.
    pub base_ids: I,
}
