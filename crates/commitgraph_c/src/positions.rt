//! Positions of a graph, as C passes their numbers and is told them.

ghost use Rattle.std.specs.Prelude.{◌≡◌, ◌<◌, ◌≤◌, false, All, Any, IfOk, IsTrue};
ghost use Rattle.commit_search.specs.Positions.{numbers_of};
ghost use Rattle.c_opening.specs.Answers.{written};

use gix_commitgraph::Position;
use std::alloc::{AllocError, Global};

/// Whether all numbers are below a limit.
pub(crate) fn are_below(numbers: &[u32], limit: u32) -> bool
    ensures below { IsTrue result → All (λ number. number < limit) numbers.now }
    ensures not_below { result ≡ false → Any (λ number. limit ≤ number) numbers.now }
{
    numbers.iter().all(|number| *number < limit)
}

/// The positions of these numbers, if there is memory.
pub(crate) fn positions_of(alloc: Global, numbers: &[u32]) -> Result<Vec<Position>, AllocError>
    ensures { IfOk result (λ found. numbers_of found.items ≡ numbers.now) }
{
    let mut found = Vec::with_capacity(alloc, numbers.len())?;
    for number in numbers {
        found.push(Position(*number))?;
    }
    Ok(found)
}

/// Writes positions, as many as there is room for.
#[tactic(auto, using(c_opening::proofs::Written::position_laws))]
pub(crate) fn write_positions(positions: &[Position], out: &mut [u32])
    ensures { out.new ≡ written (numbers_of positions.now) out.old }
{
    for place in 0..positions.len() {
        if place < out.len() {
            out[place] = positions[place].0;
        }
    }
}
