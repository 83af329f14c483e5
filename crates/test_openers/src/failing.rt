//! Openers over a folder in memory, of which a read fails.

use crate::fixtures::{Answer, Opener, answer, graphs};
use gix_commitgraph::opening::OpenError;
use graph_folder::folder::{Folder, Memory};
use std::alloc::Global;
use std::process::Abort;

/// What a path is opened as, and what is answered where its first read fails, where its second one
/// does and so on, each with the number of failures that are counted then.
type Failing = (Opener, &'static str, &'static [(Answer, u64)]);

/// A file is read once, also one that three lines name; a chain file is read before the files of
/// its layers.
const READS: &[Failing] = &[
    (
        Opener::File,
        "file",
        &[(Err(OpenError::Device), 1), (Ok(4), 0)],
    ),
    (
        Opener::Any,
        "file",
        &[(Err(OpenError::Device), 1), (Ok(4), 0)],
    ),
    (
        Opener::Chain,
        "chain",
        &[
            (Err(OpenError::Device), 1),
            (Err(OpenError::Device), 1),
            (Err(OpenError::Device), 1),
            (Err(OpenError::Device), 1),
            (Ok(7), 0),
        ],
    ),
    (
        Opener::Any,
        "chain",
        &[
            (Err(OpenError::Device), 1),
            (Err(OpenError::Device), 1),
            (Err(OpenError::Device), 1),
            (Err(OpenError::Device), 1),
            (Ok(7), 0),
        ],
    ),
    (
        Opener::Chain,
        "repeated",
        &[
            (Err(OpenError::Device), 1),
            (Err(OpenError::Device), 1),
            (Err(OpenError::Device), 1),
            (Ok(12), 0),
        ],
    ),
];

/// The first read is that of the info folder's own file: where it fails, the chain decides.
const READS_OF_INFO: &[Failing] = &[
    (
        Opener::Info,
        "chained",
        &[
            (Ok(7), 1),
            (Err(OpenError::Device), 1),
            (Err(OpenError::Device), 1),
            (Err(OpenError::Device), 1),
            (Err(OpenError::Device), 1),
            (Ok(7), 0),
        ],
    ),
    (
        Opener::Any,
        "chained",
        &[
            (Ok(7), 1),
            (Err(OpenError::Device), 1),
            (Err(OpenError::Device), 1),
            (Err(OpenError::Device), 1),
            (Err(OpenError::Device), 1),
            (Ok(7), 0),
        ],
    ),
    (Opener::Info, "good", &[(Ok(7), 1), (Ok(4), 0)]),
    (Opener::Info, "damaged", &[(Ok(7), 1)]),
    // The read of a chain file that is not there may fail as well.
    (
        Opener::Info,
        "bare",
        &[
            (Err(OpenError::NotOpened), 1),
            (Err(OpenError::Device), 1),
            (Err(OpenError::NotOpened), 0),
        ],
    ),
];

/// Compares what is answered where each read fails in turn, and how many failures are counted more
/// than before.
fn compare_reads(rt: &impl Abort, alloc: Global, memory: &mut Memory, rows: &[Failing]) {
    for (opener, path, answers) in rows {
        let mut read = 0u32;
        for (want, risen) in *answers {
            let before = memory.failures();
            memory.fail_read(read);
            assert!(rt; answer(alloc, memory, *opener, path) == *want);
            assert!(rt; memory.failures() == before.saturating_add(*risen));
            read = read.saturating_add(1);
        }
    }
}

#[test]
fn each_read_of_an_opener_may_fail(rt: HostRuntime) {
    let mut memory = graphs(&rt, rt.alloc());
    compare_reads(&rt, rt.alloc(), &mut memory, READS);
    compare_reads(&rt, rt.alloc(), &mut memory, READS_OF_INFO);
}
