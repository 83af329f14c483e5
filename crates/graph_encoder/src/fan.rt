//! The fan: for each byte, how many ids have a first byte that is at most that.

ghost use Rattle.std.specs.Prelude.{◌≡◌, ◌+◌, ◌<◌, ◌^◌, ◌++◌, ℕ, OnOk, length, All, slice_index};
ghost use Rattle.graph_encoder.specs.Written.{ids_of, ids_with, exact_fan, words_bytes};

use crate::push::push_word;
use crate::view::PlanView;
use std::alloc::AllocError;

/// How many ids have each first byte. Those of a run of ids with one first byte are added at once:
/// the processor then waits for no count before it reads the next id.
fn first_bytes<P: PlanView>(plan: &P) -> [u32; 256]
    requires { length (P.as_plan plan.now).commits.items < 2 ^ 32 }
    ensures counted { (byte : ℕ) → byte < 256
        → slice_index result byte ≡ ids_with byte (ids_of (P.as_plan plan.now).commits.items) }
    ensures bytes { All (λ id. slice_index id 0 < 256)
        (ids_of (P.as_plan plan.now).commits.items) }
{
    let mut counts = [0; 256];
    let mut byte = 0;
    let mut run = 0;
    for place in 0..plan.commit_count() {
        let next = plan.row(place).id.first_byte();
        if next != byte {
            counts[byte as usize] += run;
            byte = next;
            run = 0;
        }
        run += 1;
    }
    counts[byte as usize] += run;
    counts
}

/// The fan of the commits' ids.
fn fan_of<P: PlanView>(plan: &P) -> [u32; 256]
    requires { length (P.as_plan plan.now).commits.items < 2 ^ 32 }
    ensures fan { result ≡ exact_fan (ids_of (P.as_plan plan.now).commits.items) }
    ensures bytes { All (λ id. slice_index id 0 < 256)
        (ids_of (P.as_plan plan.now).commits.items) }
{
    let mut fan = first_bytes(plan);
    for byte in 1..256 {
        fan[byte] += fan[byte - 1];
    }
    fan
}

/// Adds the fan of the commits' ids.
pub(crate) fn push_fan<P: PlanView>(file: &mut Vec<u8>, plan: &P) -> Result<(), AllocError>
    requires { length (P.as_plan plan.now).commits.items < 2 ^ 32 }
    ensures fan { OnOk result (file.new.items ≡ file.old.items
        ++ words_bytes (exact_fan (ids_of (P.as_plan plan.now).commits.items))) }
    ensures bytes { All (λ id. slice_index id 0 < 256)
        (ids_of (P.as_plan plan.now).commits.items) }
{
    for count in &fan_of(plan) {
        push_word(file, *count)?;
    }
    Ok(())
}
