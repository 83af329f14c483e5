//! Flags that stop a search or a check, and limits.

ghost use Rattle.std.specs.Prelude.{◌≡◌, ◌≢◌, ◌⊎◌, IsSome, None, is_some};
ghost use Rattle.c_opening.specs.Codes.{out_of_memory};

use crate::codes::OUT_OF_MEMORY;
use crate::flag::KeptFlag;
use crate::flag_handle::{CgFlag, CgFlagOwner};
use graph_history::Limit;
use std::alloc::Global;

/// When a search or a check stops before its end.
#[repr(C)]
#[derive(Drop)]
pub struct CgLimit {
    /// How many commits it may visit.
    pub visits: u64,
    /// A flag that stops it once it is raised, or none.
    pub flag: CgFlag,
}

impl CgLimit {
    /// The limit.
    pub fn limit(self) -> Limit<'static>
        ensures visits { result.visits ≡ self.visits }
        ensures flag { is_some result.flag ≡ is_some self.flag.address.held }
    {
        let CgLimit { visits, flag } = self;
        let flag = match flag.kept() {
            Some(kept) => Some(kept.flag()),
            None => None,
        };
        Limit { visits, flag }
    }
}

/// Makes a flag that is not raised. The answer is 0, or that memory ran out, and then nothing is
/// written.
pub fn cg_flag_new(alloc: Global, out: &mut CgFlagOwner) -> u32
    ensures made { result ≡ 0 → IsSome out.new.address.held }
    ensures codes { (result ≡ 0) ⊎ (result ≡ out_of_memory) }
    ensures kept { result ≢ 0 → out.new ≡ out.old }
{
    match Box::new(alloc, KeptFlag::new()) {
        Ok(flag) => {
            out.write(flag);
            0
        }
        Err(_) => OUT_OF_MEMORY,
    }
}

/// Raises a flag, which stops what looks at it, and answers whether there is one.
pub fn cg_flag_raise(flag: CgFlag) -> bool
    ensures { result ≡ is_some flag.address.held }
{
    let Some(kept) = flag.kept() else {
        return false;
    };
    kept.flag().raise();
    true
}

/// Frees a flag, leaves none where it was, and answers whether there was one to free.
pub fn cg_flag_free(alloc: Global, flag: &mut CgFlagOwner) -> bool
    ensures freed { result ≡ is_some flag.old.address.held }
    ensures taken { flag.new.address.held ≡ None }
{
    match flag.take(alloc) {
        Some(kept) => {
            drop(kept);
            true
        }
        None => false,
    }
}
