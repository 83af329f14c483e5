//! Questions about commits that were asked for.

use crate::asking::id_of;
use crate::completing::{OnNone, completed, ids_of, on_none};
use crate::history::{ALL, COMPARED, Compared, TOLD, Told, WALKS, Walk};
use answers::Answer;
use commit_search::FewSearcher;
use graph_bases::FewComparer;
use newer_answers::{ancestor_walk, compare, is_ancestor};
use std::alloc::Global;
use std::process::Abort;

/// Commits on top of none: each that an entry has, but those whose parents are missing.
fn all_commits(rt: &impl Abort, alloc: Global) -> OnNone {
    let mut newer = on_none(alloc);
    let (question, asked) = ALL;
    assert!(rt; completed(rt, alloc, &mut newer, question, asked) == Ok(()));
    newer
}

/// Compares what is told of whether one commit is an ancestor of another.
fn compare_told(rt: &impl Abort, alloc: Global, newer: &mut OnNone, row: &Told) {
    let (first, second, told) = *row;
    let (first, second) = (id_of(rt, first), id_of(rt, second));
    let mut searcher = FewSearcher::new(alloc);
    let found = is_ancestor(newer, &mut searcher, first.as_oid(), second.as_oid());
    let found = match found.ok().expect(rt, "memory") {
        Answer::Unknown(number) => Err(number),
        Answer::Known(found) => Ok(found),
    };
    assert!(rt; found == told);
}

/// Compares the ids on a walk from one commit to another, of which there are none where there is no
/// walk.
fn compare_walk(rt: &impl Abort, alloc: Global, newer: &mut OnNone, row: &Walk) {
    let (first, second, digits) = *row;
    let (first, second) = (id_of(rt, first), id_of(rt, second));
    let mut searcher = FewSearcher::new(alloc);
    let found = ancestor_walk(alloc, newer, &mut searcher, first.as_oid(), second.as_oid());
    let Answer::Known(walk) = found.ok().expect(rt, "memory") else {
        rt.abort()
    };
    let ids = walk.unwrap_or(Vec::new(alloc));
    assert!(rt; ids.as_slice() == ids_of(rt, alloc, digits).as_slice());
}

/// Compares merge bases, and how many commits are on one side alone.
fn compare_bases(rt: &impl Abort, alloc: Global, newer: &mut OnNone, row: &Compared) {
    let (first, others, bases, ahead, behind) = *row;
    let first = id_of(rt, first);
    let others = ids_of(rt, alloc, others);
    let mut comparer = FewComparer::new(alloc);
    let found = compare(alloc, newer, &mut comparer, None, first.as_oid(), &others);
    let Answer::Known(known) = found.ok().expect(rt, "memory") else {
        rt.abort()
    };
    assert!(rt; known.base_ids.len() == bases.len());
    for id in &ids_of(rt, alloc, bases) {
        assert!(rt; known.base_ids.contains(id));
    }
    assert!(rt; known.comparison.divergence.ahead == ahead);
    assert!(rt; known.comparison.divergence.behind == behind);
}

#[test]
fn questions_about_them_are_answered(rt: HostRuntime) {
    let alloc = rt.alloc();
    let mut newer = all_commits(&rt, alloc);
    for row in TOLD {
        compare_told(&rt, alloc, &mut newer, row);
    }
    for row in WALKS {
        compare_walk(&rt, alloc, &mut newer, row);
    }
    for row in COMPARED {
        compare_bases(&rt, alloc, &mut newer, row);
    }
}
