//! The parents of a commit, one after another, with the bounds on how many are left; and what the
//! words say that they are read from.

use crate::fixtures::{commit_of, layer_of_one};
use gix_commitgraph::Position;
use gix_commitgraph::file::commit::{ExtraEdge, ParentEdge, ParentError, Parents};
use std::alloc::Global;
use std::process::Abort;

/// A word of four bytes, and what it says as a parent field and in the extra edge list.
type Word = (u32, ParentEdge, ExtraEdge);

/// Words below the one that stands for no parent, that word, and those up to the top bit.
const POSITIONS: &[Word] = &[
    (
        0,
        ParentEdge::GraphPosition(Position(0)),
        ExtraEdge::Internal(Position(0)),
    ),
    (
        0x6fff_ffff,
        ParentEdge::GraphPosition(Position(1879048191)),
        ExtraEdge::Internal(Position(1879048191)),
    ),
    (
        0x7000_0000,
        ParentEdge::None,
        ExtraEdge::Internal(Position(1879048192)),
    ),
    (
        0x7000_0001,
        ParentEdge::GraphPosition(Position(1879048193)),
        ExtraEdge::Internal(Position(1879048193)),
    ),
    (
        0x7fff_ffff,
        ParentEdge::GraphPosition(Position(2147483647)),
        ExtraEdge::Internal(Position(2147483647)),
    ),
];

/// Words with the top bit.
const MARKED: &[Word] = &[
    (
        0x8000_0000,
        ParentEdge::ExtraEdgeIndex(0),
        ExtraEdge::Last(Position(0)),
    ),
    (
        0xf000_0000,
        ParentEdge::ExtraEdgeIndex(1879048192),
        ExtraEdge::Last(Position(1879048192)),
    ),
    (
        0xffff_ffff,
        ParentEdge::ExtraEdgeIndex(2147483647),
        ExtraEdge::Last(Position(2147483647)),
    ),
];

/// Compares what words say.
fn compare_words(rt: &impl Abort, rows: &[Word]) {
    for (raw, parent, extra) in rows {
        assert!(rt; ParentEdge::from_raw(*raw) == *parent);
        assert!(rt; ExtraEdge::from_raw(*raw) == *extra);
    }
}

/// How many items are left at least and at most.
type Bounds = (usize, Option<usize>);

/// The bounds before an item of the parents, and the item.
type Step = (Bounds, Result<Position, ParentError>);

/// Both parent fields of a commit, its extra edge list, and the items of its parents.
type Listed = (&'static [u8; 8], Option<&'static [u8]>, &'static [Step]);

/// Parents that both stand in the fields.
const IN_FIELDS: &[Listed] = &[
    (b"\x70\0\0\0\x70\0\0\0", None, &[]),
    (
        b"\0\0\0\x05\x70\0\0\0",
        None,
        &[((1, Some(1)), Ok(Position(5)))],
    ),
    (
        b"\0\0\0\x05\0\0\0\x07",
        None,
        &[
            ((2, Some(2)), Ok(Position(5))),
            ((1, Some(1)), Ok(Position(7))),
        ],
    ),
];

/// Why there is no first parent but a second, and what comes of an index as the first.
const SECOND_ALONE: &[Step] = &[((1, Some(1)), Err(ParentError::SecondWithoutFirst))];

const INDEX_FIRST: &[Step] = &[((1, Some(1)), Err(ParentError::FirstIsEdgeIndex))];

/// Fields without a first parent.
const WITHOUT_FIRST: &[Listed] = &[
    (b"\x70\0\0\0\0\0\0\x07", None, SECOND_ALONE),
    (b"\x70\0\0\0\x80\0\0\0", None, SECOND_ALONE),
    (b"\x70\0\0\0\x80\0\0\0", Some(b""), SECOND_ALONE),
    (b"\x70\0\0\0\x80\0\0\0", Some(b"\x80\0\0\x02"), SECOND_ALONE),
    (b"\x80\0\0\0\x70\0\0\0", None, INDEX_FIRST),
    (b"\x80\0\0\0\0\0\0\x07", None, INDEX_FIRST),
    (b"\x80\0\0\0\x80\0\0\0", Some(b"\x80\0\0\x02"), INDEX_FIRST),
];

/// The first parent 5, with those that begin at the first word of the extra edge list.
const FROM_FIRST_WORD: &[u8; 8] = b"\0\0\0\x05\x80\0\0\0";

/// The same from the second word and from the third, and from a word far off.
const FROM_SECOND_WORD: &[u8; 8] = b"\0\0\0\x05\x80\0\0\x01";

const FROM_THIRD_WORD: &[u8; 8] = b"\0\0\0\x05\x80\0\0\x02";

const FROM_LAST_INDEX: &[u8; 8] = b"\0\0\0\x05\xff\xff\xff\xff";

/// An extra edge list of two words: the parent 3, and the last parent 2.
const TWO_WORDS: &[u8] = b"\0\0\0\x03\x80\0\0\x02";

/// Parents in an extra edge list that says which is the last.
const IN_LIST: &[Listed] = &[
    (
        FROM_FIRST_WORD,
        Some(TWO_WORDS),
        &[
            ((2, None), Ok(Position(5))),
            ((1, None), Ok(Position(3))),
            ((1, None), Ok(Position(2))),
        ],
    ),
    (
        FROM_SECOND_WORD,
        Some(TWO_WORDS),
        &[((2, None), Ok(Position(5))), ((1, None), Ok(Position(2)))],
    ),
    // the word that stands for no parent in a field is a position in the list
    (
        FROM_FIRST_WORD,
        Some(b"\x70\0\0\0\x80\0\0\x01"),
        &[
            ((2, None), Ok(Position(5))),
            ((1, None), Ok(Position(1879048192))),
            ((1, None), Ok(Position(1))),
        ],
    ),
];

/// A first parent, of which the others cannot be decoded.
const RUNS_OUT: &[Step] = &[
    ((2, None), Ok(Position(5))),
    ((1, None), Err(ParentError::EdgeOverflow)),
];

/// An extra edge list that is missing, or does not say which parent is the last.
const LIST_RUNS_OUT: &[Listed] = &[
    (
        FROM_FIRST_WORD,
        None,
        &[
            ((2, None), Ok(Position(5))),
            ((1, None), Err(ParentError::NoEdgeList)),
        ],
    ),
    (FROM_THIRD_WORD, Some(TWO_WORDS), RUNS_OUT),
    (FROM_LAST_INDEX, Some(TWO_WORDS), RUNS_OUT),
    (FROM_FIRST_WORD, Some(b""), RUNS_OUT),
    (FROM_FIRST_WORD, Some(b"\x80\0\0"), RUNS_OUT),
    (
        FROM_FIRST_WORD,
        Some(b"\0\0\0\x03\x80\0\0"),
        &[
            ((2, None), Ok(Position(5))),
            ((1, None), Ok(Position(3))),
            ((1, None), Err(ParentError::EdgeOverflow)),
        ],
    ),
];

/// Compares the items of some parents, each with the bounds before it. After the last one nothing
/// is left for good.
fn compare_steps(rt: &impl Abort, mut parents: Parents<'_>, steps: &[Step]) {
    for (bounds, want) in steps {
        assert!(rt; parents.size_hint() == *bounds);
        let item = parents.next();
        assert!(rt; item == Some(*want));
    }
    for _ in 0..2 {
        assert!(rt; parents.size_hint() == (0, Some(0)));
        let item = parents.next();
        assert!(rt; item.is_none());
    }
}

/// The first item of some parents.
fn first_of(steps: &[Step]) -> Result<Option<Position>, ParentError> {
    match steps.first() {
        Some((_, Ok(parent))) => Ok(Some(*parent)),
        Some((_, Err(error))) => Err(*error),
        None => Ok(None),
    }
}

/// A record's last sixteen bytes: these parent fields, the generation number 1 and the time 0.
fn with_date(fields: &[u8; 8]) -> [u8; 16] {
    let mut record = *b"\0\0\0\0\0\0\0\0\0\0\0\x04\0\0\0\0";
    for (place, byte) in record.iter_mut().zip(fields) {
        *place = *byte;
    }
    record
}

/// Compares the parents of commits. The last comparison calls the trait's `next`, where a call on
/// `Parents` is one of its own `next`.
fn compare_parents(rt: &impl Abort, alloc: Global, rows: &[Listed]) {
    for (fields, edges, steps) in rows {
        let file = layer_of_one(rt, alloc, &with_date(fields), *edges);
        let commit = commit_of(rt, &file, 0);
        compare_steps(rt, commit.iter_parents(), steps);
        assert!(rt; commit.parent1() == first_of(steps));
        assert!(rt;
            commit
                .iter_parents()
                .eq(steps.iter().map(|(_, item)| *item))
        );
    }
}

#[test]
fn parents_are_those_of_the_fields_and_of_the_extra_edge_list(rt: HostRuntime) {
    compare_words(&rt, POSITIONS);
    compare_words(&rt, MARKED);
    compare_parents(&rt, rt.alloc(), IN_FIELDS);
    compare_parents(&rt, rt.alloc(), WITHOUT_FIRST);
    compare_parents(&rt, rt.alloc(), IN_LIST);
    compare_parents(&rt, rt.alloc(), LIST_RUNS_OUT);
}
