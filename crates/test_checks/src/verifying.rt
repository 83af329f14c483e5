//! Checks of right graphs, of wrong ones, and with processors that refuse.

use crate::fixtures::{
    EACH, Fault, Layers, Options, Processor, Refused, Summary, built, checked, compare_calls,
    compare_refusal, compare_right, compare_unchecked, graph, graph_of, graph_of_one, id_of,
    opened, right,
};
use gix_commitgraph::verify::VerifyError;
use gix_commitgraph::{
    File, GENERATION_NUMBER_INFINITY, GENERATION_NUMBER_MAX, Graph, MAX_COMMITS, Position,
};
use gix_hash_core::{Kind, ObjectId};
use graph_vectors::refused::{ENTRIES, THREE};
use graph_vectors::{
    DIAMOND, OCTOPUS, Row, TEN, file_of_rows, file_of_zeros, plan_of_rows, reseal,
};
use std::alloc::Global;
use std::process::Abort;

/// The greatest generation number.
const MAX: u32 = 1073741823;

/// A parent that stands after its child.
const PARENT_AFTER: &[Row<'static>] = &[(0x11, &[1], 2), (0x22, &[], 1)];

/// A commit that is its own parent.
const OWN_PARENT: &[Row<'static>] = &[(0x11, &[0], MAX)];

/// Two commits that are each other's parent.
const CYCLE: &[Row<'static>] = &[(0x11, &[1], MAX), (0x22, &[0], MAX)];

/// A commit that is its own parent, one on it, and a root.
const ON_OWN_PARENT: &[Row<'static>] = &[(0x11, &[0], MAX), (0x22, &[0], MAX), (0x33, &[], 1)];

/// The layers of a graph that is right, the number of its commits, and what the check says.
type Right = (Layers, usize, Summary);

const RIGHT: &[Right] = &[
    (&[DIAMOND], 4, (Some(2), &[(0, 1), (1, 2), (2, 1)])),
    (&[OCTOPUS], 4, (Some(3), &[(0, 1), (1, 2), (3, 1)])),
    (&[PARENT_AFTER], 2, (Some(1), &[(0, 1), (1, 1)])),
    (&[TEN], 10, (Some(9), &[(0, 1), (1, 9)])),
];

/// Graphs with a generation number at the cap.
const AT_CAP: &[Right] = &[
    (&[OWN_PARENT], 1, (None, &[(1, 1)])),
    (&[CYCLE], 2, (None, &[(1, 2)])),
    (&[ON_OWN_PARENT], 3, (None, &[(0, 1), (1, 2)])),
];

/// Two commits, and three more that stand on some of them.
const TWO_AND_THREE: Layers = &[
    &[(0x33, &[1], 2), (0x44, &[], 1)],
    &[(0x11, &[4], 4), (0x22, &[0, 2, 4], 5), (0x55, &[0], 3)],
];

const IN_LAYERS: &[Right] = &[
    (&[&[], &[]], 0, (Some(0), &[])),
    (TWO_AND_THREE, 5, (Some(4), &[(0, 1), (1, 3), (3, 1)])),
];

/// Compares the outcomes of right graphs, checked each way. There is a checked graph of each.
fn compare_outcomes(rt: &impl Abort, alloc: Global, rows: &[Right]) {
    for (layers, commits, want) in rows {
        let graph = graph(rt, alloc, layers);
        for options in EACH {
            compare_right(rt, alloc, (&graph, layers), *options, (*commits, *want));
        }
        assert!(rt; right(rt, alloc, &graph).num_commits() as usize == *commits);
    }
}

/// The file without commits that is as small as one can be: a header, a table of three chunks, a
/// fan of zeros, and the checksum.
fn smallest_file(rt: &impl Abort, alloc: Global) -> Vec<u8> {
    let mut bytes = file_of_zeros(alloc, THREE, ENTRIES, 1044).expect(rt, "memory");
    assert!(rt; bytes.len() == 1100);
    reseal(Kind::Sha1, &mut bytes);
    bytes
}

/// Compares the outcome of the smallest file, whose commits, if it had any, this processor would
/// be called on.
fn compare_smallest(rt: &impl Abort, alloc: Global, options: Options, processor: Processor) {
    let layer = opened(rt, alloc, smallest_file(rt, alloc), "commit-graph");
    let graph = graph_of_one(rt, alloc, layer);
    assert!(rt; graph.num_commits() == 0);
    let (answer, calls) = checked(alloc, &graph, options, processor);
    let outcome = answer.ok().expect(rt, "a right graph");
    assert!(rt; outcome.num_commits == 0 && outcome.longest_path_length == Some(0));
    assert!(rt; outcome.parent_counts.is_empty() && calls.is_empty());
}

/// Compares it each way, with a processor that accepts and with one that refuses.
fn compare_empty(rt: &impl Abort, alloc: Global) {
    for options in EACH {
        compare_smallest(rt, alloc, *options, Processor::Accepts);
        compare_smallest(rt, alloc, *options, Processor::RefusesAll);
    }
}

/// Commits, and the size of their file.
const SIZES: &[(&[Row<'static>], usize)] = &[(DIAMOND, 1324), (OCTOPUS, 1344)];

/// Compares the sizes of files.
fn compare_sizes(rt: &impl Abort, alloc: Global, rows: &[(&[Row<'_>], usize)]) {
    for (commits, size) in rows {
        let bytes = file_of_rows(alloc, &[], commits).expect(rt, "a file");
        assert!(rt; bytes.len() == *size);
    }
}

/// Compares the limits of graphs.
fn compare_limits(rt: &impl Abort) {
    assert!(rt; GENERATION_NUMBER_INFINITY == 4294967295);
    assert!(rt; GENERATION_NUMBER_MAX == 1073741823);
    assert!(rt; MAX_COMMITS == 1879048191);
}

#[test]
fn right_graphs_pass_with_their_statistics(rt: HostRuntime) {
    compare_limits(&rt);
    compare_sizes(&rt, rt.alloc(), SIZES);
    compare_empty(&rt, rt.alloc());
    compare_outcomes(&rt, rt.alloc(), RIGHT);
    compare_outcomes(&rt, rt.alloc(), AT_CAP);
    compare_outcomes(&rt, rt.alloc(), IN_LAYERS);
}

/// The layers of a graph, the first of its commits whose generation number is wrong, and the number
/// that is wanted there.
type Wrong = (Layers, u32, u32);

const WRONG: &[Wrong] = &[
    (&[&[(0x11, &[0], 1)]], 0, 2),
    (
        &[&[
            (0x11, &[], 1),
            (0x22, &[0], 2),
            (0x33, &[1], 3),
            (0x44, &[0, 0, 2], 2),
        ]],
        3,
        4,
    ),
    (&[&[(0x11, &[], 0)]], 0, 1),
    (&[&[(0x11, &[], MAX)]], 0, 1),
    (&[&[(0x11, &[1], MAX), (0x22, &[0], 1073741822)]], 1, MAX),
    (&[&[(0x11, &[1], 5), (0x22, &[0], 5)]], 0, 6),
    // the second parent, which stands in a layer below, has the greater number
    (
        &[
            &[(0x11, &[], 1), (0x22, &[0], 2)],
            &[(0x33, &[0], 2), (0x44, &[0, 1], 2)],
        ],
        3,
        3,
    ),
];

/// Compares the refusals of graphs with a wrong generation number, checked each way. The processor
/// is called on the commits before it alone.
fn compare_wrong(rt: &impl Abort, alloc: Global, rows: &[Wrong]) {
    for (layers, pos, expected) in rows {
        let graph = graph(rt, alloc, layers);
        let want = VerifyError::Generation {
            pos: Position(*pos),
            expected: *expected,
        };
        for options in EACH {
            let refusal = (&want, *pos as usize);
            compare_refusal(rt, alloc, (&graph, layers), *options, refusal);
        }
        compare_unchecked(rt, alloc, &graph);
    }
}

/// A parent in a later layer, and one in no layer at all.
const NO_PARENTS: &[(Layers, u32, u32)] = &[
    (&[&[(0x11, &[1], 2)], &[(0x22, &[], 1)]], 0, 1),
    (
        &[&[(0x11, &[], 1)], &[(0x22, &[0, 2], 3)], &[(0x33, &[], 2)]],
        1,
        2,
    ),
    (&[&[(0x11, &[], 1), (0x22, &[0, 9], 2)]], 1, 9),
];

/// Compares the refusals of graphs of which a commit has a parent at a position that it may not
/// have, checked each way.
fn compare_parents(rt: &impl Abort, alloc: Global, rows: &[(Layers, u32, u32)]) {
    for (layers, pos, parent) in rows {
        let graph = graph(rt, alloc, layers);
        let want = VerifyError::ParentOutOfRange {
            pos: Position(*pos),
            parent: Position(*parent),
        };
        for options in EACH {
            let refusal = (&want, *pos as usize);
            compare_refusal(rt, alloc, (&graph, layers), *options, refusal);
        }
        compare_unchecked(rt, alloc, &graph);
    }
}

/// The layer without commits on these bases.
fn empty_layer(rt: &impl Abort, alloc: Global, bases: &[ObjectId]) -> File {
    let plan = plan_of_rows(alloc, bases, &[]).expect(rt, "memory");
    opened(rt, alloc, built(rt, alloc, &plan), "commit-graph")
}

/// The graph of so many such layers.
fn empty_layers(rt: &impl Abort, alloc: Global, count: u32, bases: &[ObjectId]) -> Graph {
    let mut files = Vec::new(alloc);
    for _ in 0..count {
        files
            .push(empty_layer(rt, alloc, bases))
            .expect(rt, "memory");
    }
    graph_of(rt, alloc, files)
}

/// How many layers without commits a graph has, how many bases each has, of which none is there,
/// and why it is refused.
const WRONG_BASES: &[(u32, usize, Fault)] = &[
    (1, 1, VerifyError::BaseCount { layer: 0 }),
    (2, 0, VerifyError::BaseCount { layer: 1 }),
    (256, 0, VerifyError::BaseCount { layer: 1 }),
    (257, 0, VerifyError::TooManyFiles),
    (257, 1, VerifyError::TooManyFiles),
];

/// Compares the refusals of such graphs, checked each way. The processor is not called.
fn compare_bases(rt: &impl Abort, alloc: Global, rows: &[(u32, usize, Fault)]) {
    let base = [id_of(0x33)];
    for (count, bases, want) in rows {
        let bases = base.get(..*bases).unwrap_or(&[]);
        let graph = empty_layers(rt, alloc, *count, bases);
        for options in EACH {
            compare_refusal(rt, alloc, (&graph, &[]), *options, (want, 0));
        }
        compare_unchecked(rt, alloc, &graph);
    }
}

#[test]
fn a_wrong_graph_is_refused_for_its_first_fault(rt: HostRuntime) {
    compare_wrong(&rt, rt.alloc(), WRONG);
    compare_parents(&rt, rt.alloc(), NO_PARENTS);
    compare_bases(&rt, rt.alloc(), WRONG_BASES);
}

/// The layers of a right graph, a processor, and the position of the commit that it refuses.
type Refusing = (Layers, Processor, u32);

const REFUSING: &[Refusing] = &[
    (&[DIAMOND], Processor::RefusesCall(2), 2),
    (&[DIAMOND], Processor::RefusesAll, 0),
    (&[TEN], Processor::RefusesCall(9), 9),
    (TWO_AND_THREE, Processor::RefusesCall(2), 2),
    (TWO_AND_THREE, Processor::RefusesCall(4), 4),
];

/// Compares the refusals of processors, each way. The refused commit is the last that the processor
/// is called on.
fn compare_refusing(rt: &impl Abort, alloc: Global, rows: &[Refusing]) {
    for (layers, processor, pos) in rows {
        let graph = graph(rt, alloc, layers);
        let want = VerifyError::Processor {
            pos: Position(*pos),
            error: Refused::Commit,
        };
        for options in EACH {
            let (answer, calls) = checked(alloc, &graph, *options, *processor);
            assert!(rt; answer.as_ref().err() == Some(&want));
            assert!(rt; calls.len() == (*pos as usize).saturating_add(1));
            compare_calls(rt, &calls, layers);
        }
    }
}

#[test]
fn what_a_processor_refuses_is_handed_back(rt: HostRuntime) {
    compare_refusing(&rt, rt.alloc(), REFUSING);
}
