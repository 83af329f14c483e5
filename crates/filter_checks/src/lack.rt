//! What the filter of a commit answers of a path, and of the directories that lead to it.

ghost use Rattle.std.specs.Prelude.{◌≡◌, ◌<◌, ◌≤◌, ◌↔◌, All, IsTrue, MatchOption, true, false};
ghost use Rattle.std.specs.Prelude.{length, take, List, ℕ};
ghost use Rattle.filter_checks.specs.RightFilters.{IsComputedAt, IsPossibleAt, IsAbsentAt};
ghost use Rattle.filter_checks.specs.Refused.{ArePossibleAlong, IsFirstAbsent, HasClearBitAt};

use changed_paths::filters::Answer;
use changed_paths::key::PathKey;
use gix_commitgraph::Position;
use graph_chunks::filters::GraphFilters;

/// Whether the filter of a commit answers a path as absent. That of a filter that was not computed
/// answers nothing.
fn is_absent(filters: &GraphFilters<'_>, pos: Position, path: &[u8]) -> bool
    requires { pos.0 < length filters.now.filters }
    ensures absent { result ≡ true → IsAbsentAt filters.now pos.0 path.now }
    ensures possible { result ≡ false → IsComputedAt filters.now pos.0
        → IsPossibleAt filters.now pos.0 path.now }
{
    match filters.probe(pos, &PathKey::new(path)) {
        Answer::Absent => true,
        Answer::Possible => false,
        Answer::NotComputed => false,
    }
}

/// How many bytes of a path the first has that the filter of a commit answers as absent: of the
/// directories that lead to the path, from the top on, and then of the path itself.
pub(crate) fn first_absent(filters: &GraphFilters<'_>, pos: Position, path: &[u8]) -> Option<usize>
    requires within { pos.0 < length filters.now.filters }
    requires computed { IsComputedAt filters.now pos.0 }
    ensures { MatchOption result (ArePossibleAlong filters.now pos.0 path.now)
        (λ len. (len ≤ length path.now)
        × IsFirstAbsent filters.now pos.0 path.now (take len path.now)) }
{
    for len in 0..path.len() {
        if path[len] != b'/' {
            continue;
        }
        if is_absent(filters, pos, &path[..len]) {
            return Some(len);
        }
    }
    if is_absent(filters, pos, path) {
        return Some(path.len());
    }
    None
}

/// Whether the filter of a commit may answer some path as absent: it was computed, and has a bit
/// that is not set.
pub(crate) fn may_lack(filters: &GraphFilters<'_>, pos: Position) -> bool
    requires { pos.0 < length filters.now.filters }
    ensures lacks { result ≡ true → HasClearBitAt filters.now pos.0 }
    ensures possible { result ≡ false → IsComputedAt filters.now pos.0
        → (path : List ℕ) → IsPossibleAt filters.now pos.0 path }
{
    // What was computed answers any path.
    match filters.probe(pos, &PathKey::new(b"")) {
        Answer::NotComputed => false,
        Answer::Absent => true,
        Answer::Possible => !is_full(filters.filter_at(pos)),
    }
}

/// Whether all bits of a filter are set.
fn is_full(filter: &[u8]) -> bool
    ensures { IsTrue result ↔ All (λ byte. byte ≡ 255) filter.now }
{
    filter.iter().all(|byte| *byte == 0xff)
}
