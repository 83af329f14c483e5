//! What checks of graphs tell.

use crate::asking::{Asked, FIVES, ONES, Told, expect};
use crate::folders::{built, id_of, put, put_layer, put_lines, with_chain, with_commits};
use gix_commitgraph::GENERATION_NUMBER_MAX;
use graph_folder::folder::Memory;
use graph_vectors::changed::{
    Change, FIRST_IS_EDGE_INDEX, NO_EDGE_LIST, NULL_TREE, SECOND_WITHOUT_FIRST, WRONG_FAN,
    changed_diamond, changed_file,
};
use graph_vectors::{DIAMOND, OCTOPUS, Row};
use std::alloc::Global;
use std::process::Abort;

/// Asserts what both checks tell of the graph at the path `g`, and that a query for a walk tells
/// the same where that is a refusal.
fn compare_check(rt: &impl Abort, alloc: Global, folder: &mut Memory, told: Told<'_>) {
    expect(rt, alloc, folder, Asked::Verify("g"), told);
    expect(rt, alloc, folder, Asked::Distinct("g"), told);
    if told.0 != 0 {
        let query = Asked::Ancestor("g", FIVES, ONES);
        expect(rt, alloc, folder, query, told);
    }
}

/// The commits of a file, and what a check of it tells.
type Checked = (&'static [Row<'static>], Told<'static>);

/// Right files.
const RIGHT: &[Checked] = &[
    (&[], (0, "ok commits 0 longest 0\n")),
    (
        DIAMOND,
        (
            0,
            "ok commits 4 longest 2\n\
            parents 0 commits 1\n\
            parents 1 commits 2\n\
            parents 2 commits 1\n",
        ),
    ),
    (
        OCTOPUS,
        (
            0,
            "ok commits 4 longest 3\n\
            parents 0 commits 1\n\
            parents 1 commits 2\n\
            parents 3 commits 1\n",
        ),
    ),
    (
        &[(0x11, &[1], 2), (0x22, &[], 1)],
        (
            0,
            "ok commits 2 longest 1\n\
            parents 0 commits 1\n\
            parents 1 commits 1\n",
        ),
    ),
    (
        &[(0x11, &[0], GENERATION_NUMBER_MAX)],
        (0, "ok commits 1 longest none\nparents 1 commits 1\n"),
    ),
];

/// Files with wrong commits.
const WRONG: &[Checked] = &[
    (
        &[(0x11, &[0], 1)],
        (1, "refused verify 8 position 0 expected 2\n"),
    ),
    (
        &[
            (0x11, &[], 1),
            (0x22, &[0], 2),
            (0x33, &[1], 3),
            (0x44, &[0, 0, 2], 2),
        ],
        (1, "refused verify 8 position 3 expected 4\n"),
    ),
    (
        &[(0x11, &[], 0)],
        (1, "refused verify 8 position 0 expected 1\n"),
    ),
    (
        &[(0x11, &[1], 1)],
        (1, "refused verify 7 position 0 parent 1\n"),
    ),
    (
        &[(0x00, &[], 1)],
        (1, "refused verify 5 position 0 fault 1\n"),
    ),
    (
        &[(0x11, &[], 1), (0x11, &[], 1)],
        (1, "refused verify 5 position 1 fault 2\n"),
    ),
];

/// Compares what checks of files tell.
fn compare_files(rt: &impl Abort, alloc: Global, rows: &[Checked]) {
    for (commits, told) in rows {
        let mut folder = with_commits(rt, alloc, commits);
        compare_check(rt, alloc, &mut folder, *told);
    }
}

/// A change of the diamond's file, and what a check tells then.
type Damaged = (Change<'static>, &'static str);

const DAMAGED: &[Damaged] = &[
    (WRONG_FAN, "refused verify 4 layer 0 fault 3 byte 17\n"),
    (NULL_TREE, "refused verify 5 position 2 fault 3\n"),
    (
        SECOND_WITHOUT_FIRST,
        "refused verify 6 position 3 error 1\n",
    ),
    (FIRST_IS_EDGE_INDEX, "refused verify 6 position 3 error 2\n"),
    (NO_EDGE_LIST, "refused verify 6 position 3 error 3\n"),
];

/// Compares what checks of the diamond's file tell, where it was changed.
fn compare_damaged(rt: &impl Abort, alloc: Global, rows: &[Damaged]) {
    for (change, want) in rows {
        let file = changed_diamond(alloc, *change).expect(rt, "memory");
        let mut folder = Memory::new(alloc);
        put(rt, alloc, &mut folder, "g", file.expect(rt, "a file"));
        compare_check(rt, alloc, &mut folder, (1, want));
    }
}

/// An index past the words of the extra edge list, in the record of the last commit of four whose
/// records begin at byte 1172.
const PAST_THE_WORDS: Change<'static> = (1304, b"\x80\0\0\x02");

/// Compares what is told where an index lies past the extra edge list.
fn compare_overflow(rt: &impl Abort, alloc: Global) {
    let file = changed_file(alloc, OCTOPUS, &[PAST_THE_WORDS]).expect(rt, "memory");
    let mut folder = Memory::new(alloc);
    put(rt, alloc, &mut folder, "g", file.expect(rt, "a file"));
    let told = (1, "refused verify 6 position 3 error 4\n");
    compare_check(rt, alloc, &mut folder, told);
}

/// Compares what is told of a file with a base that it cannot have, and of one with a wrong
/// checksum.
fn compare_layers(rt: &impl Abort, alloc: Global) {
    let mut folder = Memory::new(alloc);
    let based = built(rt, alloc, &[id_of(0xab)], &[]);
    put(rt, alloc, &mut folder, "g", based);
    compare_check(rt, alloc, &mut folder, (1, "refused verify 2 layer 0\n"));
    let mut changed = built(rt, alloc, &[], DIAMOND);
    if let Some(last) = changed.last_mut() {
        *last ^= 1;
    }
    put(rt, alloc, &mut folder, "g", changed);
    let told = (1, "refused verify 4 layer 0 fault 1\n");
    compare_check(rt, alloc, &mut folder, told);
}

/// Compares what is told of a file that is not named after its checksum.
fn compare_name(rt: &impl Abort, alloc: Global) {
    let mut folder = Memory::new(alloc);
    let path = "x/graph-.graph";
    put(rt, alloc, &mut folder, path, built(rt, alloc, &[], DIAMOND));
    let told = (1, "refused verify 4 layer 0 fault 2\n");
    expect(rt, alloc, &mut folder, Asked::Verify(path), told);
    expect(rt, alloc, &mut folder, Asked::Distinct(path), told);
}

/// Compares what is told of a chain whose second layer names another base than the first.
fn compare_stranger(rt: &impl Abort, alloc: Global) {
    let (mut folder, mut lines) = (Memory::new(alloc), String::new(alloc));
    let lower = built(rt, alloc, &[], &[(0x11, &[], 1)]);
    let upper = built(rt, alloc, &[id_of(0xab)], &[(0x22, &[], 1)]);
    let first = put_layer(rt, alloc, &mut folder, lower, &mut lines);
    let second = put_layer(rt, alloc, &mut folder, upper, &mut lines);
    assert!(rt; first != second);
    put_lines(rt, alloc, &mut folder, lines);
    let told = (1, "refused verify 3 layer 1 index 0\n");
    compare_check(rt, alloc, &mut folder, told);
}

#[test]
fn a_check_tells_its_counts_or_the_first_fault(rt: HostRuntime) {
    compare_files(&rt, rt.alloc(), RIGHT);
    compare_files(&rt, rt.alloc(), WRONG);
    compare_damaged(&rt, rt.alloc(), DAMAGED);
    compare_overflow(&rt, rt.alloc());
    compare_layers(&rt, rt.alloc());
    compare_name(&rt, rt.alloc());
    compare_stranger(&rt, rt.alloc());
}

/// The layers of a chain, the lowest first, and what a check tells of them, without and with the
/// rule that no id stands in two layers.
type Chain = (
    &'static [&'static [Row<'static>]],
    Told<'static>,
    Told<'static>,
);

const APART: Told<'static> = (
    0,
    "ok commits 5 longest 2\n\
    parents 0 commits 2\n\
    parents 1 commits 3\n",
);

const IN_A_LINE: Told<'static> = (
    0,
    "ok commits 4 longest 3\n\
    parents 0 commits 1\n\
    parents 1 commits 3\n",
);

const OUT_OF_ORDER: Told<'static> = (1, "refused verify 5 position 3 fault 2\n");

const LATER_PARENT: Told<'static> = (1, "refused verify 7 position 0 parent 1\n");

const CHAINS: &[Chain] = &[
    (
        &[
            &[(0x11, &[], 1), (0x22, &[0], 2)],
            &[(0x15, &[1], 3), (0x33, &[1], 3), (0x44, &[], 1)],
        ],
        APART,
        APART,
    ),
    // The second id of the first layer is also the first of the second.
    (
        &[
            &[(0x11, &[], 1), (0x33, &[0], 2)],
            &[(0x33, &[], 1), (0x44, &[0], 2), (0x55, &[1], 3)],
        ],
        APART,
        (1, "refused verify 11 position 2 earlier 1\n"),
    ),
    // An id of the lowest layer is also one of the highest, but not of that between.
    (
        &[
            &[(0x11, &[], 1), (0x33, &[0], 2)],
            &[(0x22, &[1], 3)],
            &[(0x11, &[2], 4)],
        ],
        IN_A_LINE,
        (1, "refused verify 11 position 3 earlier 0\n"),
    ),
    // An id that stands in both layers, and is not above the one before.
    (
        &[
            &[(0x11, &[], 1), (0x22, &[0], 2)],
            &[(0x33, &[], 1), (0x11, &[], 1), (0x44, &[], 1)],
        ],
        OUT_OF_ORDER,
        OUT_OF_ORDER,
    ),
    // A parent in a later layer.
    (
        &[&[(0x11, &[1], 2)], &[(0x22, &[], 1)]],
        LATER_PARENT,
        LATER_PARENT,
    ),
];

/// Compares what both checks tell of chains.
fn compare_chains(rt: &impl Abort, alloc: Global, rows: &[Chain]) {
    for (layers, without, with) in rows {
        let mut folder = with_chain(rt, alloc, layers);
        expect(rt, alloc, &mut folder, Asked::Verify("g"), *without);
        expect(rt, alloc, &mut folder, Asked::Distinct("g"), *with);
    }
}

#[test]
fn an_id_may_stand_in_two_layers_unless_that_is_asked(rt: HostRuntime) {
    compare_chains(&rt, rt.alloc(), CHAINS);
}
