//! How many parents commits have, and from each word of an extra edge list on.
//!
//! Commits may share a list, or parts of one. So the list is gone over once for all of them.

ghost use Rattle.std.specs.Prelude.{◌≡◌, ◌+◌, ◌/◌, ◌<◌, ◌≤◌, IfSome, IfOk, length, option_map};

use crate::file::{Commit, File};
use graph_format::parents::{ExtraEdge, ParentEdge, ParentError};
use std::alloc::{AllocError, Global};

impl File {
    ghost use Rattle.graph_layer.specs.ListedParents.{AreListed, IsCount};

    /// For each word of the extra edge list, the number of the parents that are listed from it on,
    /// and `None` exactly where they cannot be decoded. Memory is asked for only where there are
    /// words.
    pub(super) fn count_lists(&self, alloc: Global) -> Result<Vec<Option<u32>>, AllocError>
        requires { IfSome self.now.edges (λ chunk. length chunk / 4 ≤ 4294967294) }
        ensures { IfOk result (λ counts. AreListed IsCount self.now.edges counts.items) }
    {
        let mut counts = Vec::new(alloc);
        if let Some(words) = self.extra_edges() {
            counts.reserve(words.len())?;
            let mut listed = None;
            for word in words.iter().rev() {
                listed = match ExtraEdge::from_raw(*word) {
                    ExtraEdge::Internal(_) => one_more(listed),
                    ExtraEdge::Last(_) => Some(1),
                };
                counts.push(listed)?;
            }
            counts.reverse();
        }
        Ok(counts)
    }
}

impl<'a> Commit<'a> {
    ghost use Rattle.std.specs.Prelude.{◌^◌, MatchResult, Some, None};
    ghost use Rattle.graph_layer.specs.Commit.{commit_layer, commit_parents};
    ghost use Rattle.graph_layer.specs.ListedParents.{AreListed, IsCount};

    /// The number of the commit's parents, repeats counted, or the error that ends their decoding,
    /// by the counts of its layer's extra edge list.
    pub(super) fn count_parents_by(&self, counts: &[Option<u32>]) -> Result<u32, ParentError>
        requires few { length (commit_parents self.now).positions < 2 ^ 32 }
        requires counts { AreListed IsCount (commit_layer self.now).edges counts.now }
        ensures { MatchResult result
            (λ count.
            (count ≡ length (commit_parents self.now).positions)
            × ((commit_parents self.now).fault ≡ None))
            (λ error. (commit_parents self.now).fault ≡ Some error) }
    {
        match self.count_listed(counts) {
            Some(count) => Ok(count),
            None => self.count_parents(),
        }
    }

    /// The number of the commit's parents, and `None` exactly where they cannot be decoded.
    fn count_listed(&self, counts: &[Option<u32>]) -> Option<u32>
        requires few { length (commit_parents self.now).positions < 2 ^ 32 }
        requires counts { AreListed IsCount (commit_layer self.now).edges counts.now }
        ensures { IsCount (commit_parents self.now) result }
    {
        let (first, second) = self.parent_fields();
        match (ParentEdge::from_raw(first), ParentEdge::from_raw(second)) {
            (ParentEdge::None, ParentEdge::None) => Some(0),
            (ParentEdge::GraphPosition(_), ParentEdge::None) => Some(1),
            (ParentEdge::GraphPosition(_), ParentEdge::GraphPosition(_)) => Some(2),
            (ParentEdge::GraphPosition(_), ParentEdge::ExtraEdgeIndex(index)) => {
                one_more(*counts.get(index as usize)?)
            }
            _ => None,
        }
    }
}

/// The number of others and one more.
fn one_more(others: Option<u32>) -> Option<u32>
    requires { IfSome others (λ count. count < 4294967295) }
    ensures { result ≡ option_map (λ count. count + 1) others }
{
    Some(others? + 1)
}
