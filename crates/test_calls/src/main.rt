//! Makes one call that no command makes: `test_calls CALL`, or `test_calls filters LAYER..`.
//!
//! `suites/refused_memory` refuses each allocation of a call in turn: it lays out the files that
//! the call needs, and counts allocations from the line on that is written right before it. What
//! was answered is written after it, without any further allocation. `suites/sizes` makes calls
//! over large histories, and `suites/costs` counts what they cost from the same line on.
//! `suites/real_data` asks the filters.
#![tactic(auto)]

mod calls;
mod filters;
mod told;

use anyhow::{Result, bail};
use std::alloc::Global;
use std::env;

fn main(rt: HostRuntime) -> Result<()> {
    let words: Vec<String> = env::args(&rt)?.collect(rt.alloc())?;
    make(&rt, rt.alloc(), &words)
}

/// Makes the call that the words name after the name of the program.
fn make(rt: &HostRuntime, alloc: Global, words: &[String]) -> Result<()> {
    match words {
        [_, name] => match name.as_str() {
            "File::at" => calls::open_layer(rt, alloc),
            "traverse" => calls::traverse(rt, alloc),
            "verify_integrity" => calls::verify_integrity(rt, alloc),
            "Checked::new" => calls::check(rt, alloc),
            "merge_bases" => calls::merge_bases(rt, alloc),
            "CheckedGraph::push" => calls::push(rt, alloc),
            "build" => calls::build_file(rt, alloc),
            "put_file" => calls::put_file(rt, alloc),
            "put_dir" => calls::put_dir(rt, alloc),
            _ => bail!("no such call"),
        },
        [_, name, ..] if name.as_str() == "filters" => filters::ask(rt, alloc, words),
        _ => bail!("no such call"),
    }
}
