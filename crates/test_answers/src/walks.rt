//! What queries for walks tell.

use crate::asking::{Asked, FIVES, FOURS, ONES, SIXES, Told, ZS, answer, expect};
use crate::folders::{id_of, text_of, with_commits};
use gix_commitgraph::GENERATION_NUMBER_MAX;
use graph_vectors::{DIAMOND, OCTOPUS, Row, Sink, TEN};
use std::alloc::Global;
use std::process::Abort;

/// The greatest generation number.
const MAX: u32 = GENERATION_NUMBER_MAX;

/// A line of two steps, and a merge of its last and its first commit.
const SHORTCUT: &[Row<'static>] = &[(0x11, &[], 1), (0x22, &[0], 2), (0x33, &[1, 0], 3)];

/// Two roots, and two commits on one of them.
const APART: &[Row<'static>] = &[
    (0x11, &[], 1),
    (0x22, &[], 1),
    (0x33, &[1], 2),
    (0x44, &[2], 3),
];

/// Three commits, each the parent of the next, in a ring.
const RING: &[Row<'static>] = &[(0x11, &[2], MAX), (0x22, &[0], MAX), (0x33, &[1], MAX)];

/// Which first line is right.
#[derive(Clone, Copy)]
enum Line {
    /// This one alone.
    Is(&'static str),
    /// Each walk of so many commits.
    WalkOf(usize),
}

/// The commits of a file, the positions between which a walk is asked for, the status and the first
/// line, and the fewest and the most visits.
type Query = (&'static [Row<'static>], (u32, u32), u8, Line, u32, u32);

const QUERIES: &[Query] = &[
    (DIAMOND, (3, 0), 0, Line::WalkOf(3), 2, 4),
    (DIAMOND, (1, 2), 1, Line::Is("none"), 0, 1),
    (DIAMOND, (2, 2), 0, Line::Is("walk 2"), 0, 1),
    (OCTOPUS, (3, 0), 0, Line::Is("walk 3 0"), 1, 4),
    (SHORTCUT, (2, 0), 0, Line::Is("walk 2 0"), 1, 3),
    (DIAMOND, (0, 3), 1, Line::Is("none"), 0, 0),
    (APART, (3, 0), 1, Line::Is("none"), 2, 3),
    (TEN, (9, 0), 0, Line::Is("walk 9 8 7 6 5 4 3 2 1 0"), 9, 10),
    (RING, (0, 1), 0, Line::Is("walk 0 2 1"), 2, 3),
];

/// Whether the commit at one position has that at another as a parent.
fn is_parent(rows: &[Row<'_>], child: u32, parent: u32) -> bool {
    match rows.get(child as usize) {
        Some((_, parents, _)) => parents.contains(&parent),
        None => false,
    }
}

/// Whether a line is a walk of so many commits between two positions, each a parent of the one
/// before.
fn is_walk(rows: &[Row<'_>], line: &str, (from, to): (u32, u32), len: usize) -> bool {
    let Some(positions) = line.strip_prefix("walk ") else {
        return false;
    };
    let (mut before, mut count) = (None, 0usize);
    for position in positions.split(' ') {
        let Ok(position) = position.parse::<u32>() else {
            return false;
        };
        let follows = match before {
            Some(child) => is_parent(rows, child, position),
            None => position == from,
        };
        if !follows {
            return false;
        }
        before = Some(position);
        count = count.saturating_add(1);
    }
    before == Some(to) && count == len
}

/// Whether a line tells a number of visits within these bounds.
fn tells_visits(line: &str, least: u32, most: u32) -> bool {
    match line.strip_prefix("visits ") {
        Some(number) => match number.parse::<u32>() {
            Ok(visits) => least <= visits && visits <= most,
            Err(_) => false,
        },
        None => false,
    }
}

/// Whether a text tells what is right of a query.
fn is_right(text: &str, (rows, between, _, line, least, most): &Query) -> bool {
    let Some((first, rest)) = text.split_once('\n') else {
        return false;
    };
    let Some((second, rest)) = rest.split_once('\n') else {
        return false;
    };
    let is_told = match *line {
        Line::Is(want) => first == want,
        Line::WalkOf(len) => is_walk(rows, first, *between, len),
    };
    is_told && rest.is_empty() && tells_visits(second, *least, *most)
}

/// The text of the id at a position.
fn id_text(rt: &impl Abort, alloc: Global, rows: &[Row<'_>], position: u32) -> String {
    let row = rows.get(position as usize).expect(rt, "a commit");
    text_of(rt, alloc, id_of(row.0))
}

/// Compares what queries tell.
fn compare_queries(rt: &impl Abort, alloc: Global, queries: &[Query]) {
    for query in queries {
        let (rows, (from, to), status, ..) = *query;
        let mut folder = with_commits(rt, alloc, rows);
        let first = id_text(rt, alloc, rows, from);
        let second = id_text(rt, alloc, rows, to);
        let mut out = Sink::new(alloc, usize::MAX, None);
        let asked = Asked::Ancestor("g", &first, &second);
        let answered = answer(alloc, &mut folder, asked, &mut out);
        assert!(rt; answered == Ok(status) && is_right(out.text(), query));
    }
}

#[test]
fn a_query_tells_a_shortest_walk_or_that_there_is_none(rt: HostRuntime) {
    compare_queries(&rt, rt.alloc(), QUERIES);
}

/// A path, texts of two ids, and what is told: the first that holds of a text that is no id, a
/// graph that does not open, a wrong one, and an id that is not in it. At `g` is the diamond.
const REFUSED: &[(&str, &str, &str, Told<'static>)] = &[
    ("nothing", ZS, "", (2, "refused id 2\n")),
    ("nothing", "zz", ZS, (2, "refused id 1\n")),
    ("nothing", ONES, "zz", (2, "refused id 1\n")),
    ("g", FIVES, ZS, (2, "refused id 2\n")),
    ("nothing", FIVES, ONES, (1, "refused open 1\n")),
    ("g", FIVES, ONES, (1, "unknown 1\n")),
    ("g", ONES, FIVES, (1, "unknown 2\n")),
    ("g", FIVES, SIXES, (1, "unknown 1\n")),
];

/// Compares why no walk is looked for.
fn compare_refused(rt: &impl Abort, alloc: Global, rows: &[(&str, &str, &str, Told<'_>)]) {
    let mut folder = with_commits(rt, alloc, DIAMOND);
    for (path, first, second, told) in rows {
        let asked = Asked::Ancestor(path, first, second);
        expect(rt, alloc, &mut folder, asked, *told);
    }
}

/// Compares what is told of a wrong graph.
fn compare_wrong(rt: &impl Abort, alloc: Global) {
    let mut folder = with_commits(rt, alloc, &[(0x11, &[], 1), (0x44, &[0], 3)]);
    let told = (1, "refused verify 8 position 1 expected 2\n");
    for (first, second) in [(FOURS, ONES), (FIVES, SIXES)] {
        let asked = Asked::Ancestor("g", first, second);
        expect(rt, alloc, &mut folder, asked, told);
    }
}

#[test]
fn a_query_tells_why_no_walk_is_looked_for(rt: HostRuntime) {
    compare_refused(&rt, rt.alloc(), REFUSED);
    compare_wrong(&rt, rt.alloc());
}
