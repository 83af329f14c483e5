//! The entries of two trees, side by side.

ghost use Rattle.std.specs.Prelude.{◌≡◌, ◌≢◌, ◌<◌, ◌+◌, ◌↔◌, ℕ, List, [], MatchOption, IfSome};
ghost use Rattle.std.specs.Prelude.{IsTrue, length, option_map};
ghost use Rattle.gix_hash_core.specs.declared.kind.Kind.{Kind as HashKind};
ghost use Rattle.tree_objects.specs.Entry.{entry_of};
ghost use Rattle.tree_objects.specs.Tree.{TreeEntry, BeginsWithTreeEntry, AreEntriesAnd};
ghost use Rattle.tree_objects.specs.Tree.{AreInOrder};
ghost use Rattle.tree_changes.specs.Stands.{World, item_of, is_directory};
ghost use Rattle.tree_changes.specs.Walk.{Change, IsChange, IsSide, IsNext, IsEnd};
ghost use Rattle.tree_objects.specs.Tree.{IsName};

use gix_hash_core::Kind;
use std::cmp::Ordering;
use tree_objects::{Entry, EntryKind, SplitEntry, order, split_entry};

/// What stands at one name in two trees, directories or what is none, and what follows it.
#[derive(Clone, Copy)]
pub(crate) struct Pair<'a> {
    pub(crate) old: Option<Entry<'a>>,
    pub(crate) new: Option<Entry<'a>>,
    pub(crate) old_rest: &'a [u8],
    pub(crate) new_rest: &'a [u8],
    pub(crate) name: &'a [u8],
    pub(crate) directory: bool,
}

/// The next name of two trees at which they are not alike. `None` where there is none.
pub(crate) fn next_difference<'a>(kind: Kind, old: &'a [u8], new: &'a [u8]) -> Option<Pair<'a>>
    ensures pair { (olds news : List TreeEntry) → AreEntriesAnd kind old.now olds []
        → AreEntriesAnd kind new.now news [] → AreInOrder olds → AreInOrder news
        → MatchOption result ((world : World) (c : Change) → ¬ IsChange world olds news c)
        (λ p. IsNext kind olds news (option_map entry_of p.old) (option_map entry_of p.new)
        p.old_rest.now p.new_rest.now p.name.now p.directory) }
    ensures old_end { IfSome result (λ p. IsEnd old.now p.old_rest.now) }
    ensures new_end { IfSome result (λ p. IsEnd new.now p.new_rest.now) }
    ensures differ { IfSome result (λ p. option_map item_of (option_map entry_of p.old)
        ≢ option_map item_of (option_map entry_of p.new)) }
{
    let mut old_rest = old;
    let mut new_rest = new;
    while let Some(pair) = next_pair(kind, old_rest, new_rest) {
        if !are_alike(pair.old, pair.new) {
            return Some(pair);
        }
        old_rest = pair.old_rest;
        new_rest = pair.new_rest;
    }
    None
}

/// What stands in two trees at their next name, the least. `None` where both have ended.
fn next_pair<'a>(kind: Kind, old: &'a [u8], new: &'a [u8]) -> Option<Pair<'a>>
    ensures pair { (olds news : List TreeEntry) → AreEntriesAnd kind old.now olds []
        → AreEntriesAnd kind new.now news [] → AreInOrder olds → AreInOrder news
        → MatchOption result ((olds ≡ []) × (news ≡ []))
        (λ p. IsSide kind olds (option_map entry_of p.old) p.old_rest.now p.name.now p.directory
        × IsSide kind news (option_map entry_of p.new) p.new_rest.now p.name.now p.directory
        × IsName p.name.now) }
    ensures shorter { IfSome result (λ p. length p.old_rest.now + length p.new_rest.now
        < length old.now + length new.now) }
    ensures old_end { IfSome result (λ p. IsEnd old.now p.old_rest.now) }
    ensures new_end { IfSome result (λ p. IsEnd new.now p.new_rest.now) }
{
    let Some(a) = split_entry(kind, old) else {
        let Some(b) = split_entry(kind, new) else {
            return None;
        };
        return Some(Pair {
            old: None,
            new: Some(b.entry),
            old_rest: old,
            new_rest: b.next,
            name: b.entry.name,
            directory: is_directory(b.entry.kind),
        });
    };
    let Some(b) = split_entry(kind, new) else {
        return Some(Pair {
            old: Some(a.entry),
            new: None,
            old_rest: a.next,
            new_rest: new,
            name: a.entry.name,
            directory: is_directory(a.entry.kind),
        });
    };
    Some(first_of(old, a, new, b))
}

/// Which of two entries stands first, with which two trees begin, or both at one name.
fn first_of<'a>(old: &'a [u8], a: SplitEntry<'a>, new: &'a [u8], b: SplitEntry<'a>) -> Pair<'a>
    ensures pair { (kind : HashKind)
        → BeginsWithTreeEntry kind old.now (entry_of a.entry.entry) a.entry.next.now
        → BeginsWithTreeEntry kind new.now (entry_of b.entry.entry) b.entry.next.now
        → (olds news : List TreeEntry) → AreEntriesAnd kind old.now olds []
        → AreEntriesAnd kind new.now news [] → AreInOrder olds → AreInOrder news
        → IsSide kind olds (option_map entry_of result.old) result.old_rest.now result.name.now
        result.directory
        × IsSide kind news (option_map entry_of result.new) result.new_rest.now result.name.now
        result.directory
        × IsName result.name.now }
    ensures shorter { length a.entry.next.now < length old.now
        → length b.entry.next.now < length new.now
        → length result.old_rest.now + length result.new_rest.now
        < length old.now + length new.now }
    ensures old_end { IsEnd old.now a.entry.next.now → IsEnd old.now result.old_rest.now }
    ensures new_end { IsEnd new.now b.entry.next.now → IsEnd new.now result.new_rest.now }
{
    match order(a.entry, b.entry) {
        Ordering::Less => Pair {
            old: Some(a.entry),
            new: None,
            old_rest: a.next,
            new_rest: new,
            name: a.entry.name,
            directory: is_directory(a.entry.kind),
        },
        Ordering::Greater => Pair {
            old: None,
            new: Some(b.entry),
            old_rest: old,
            new_rest: b.next,
            name: b.entry.name,
            directory: is_directory(b.entry.kind),
        },
        Ordering::Equal => Pair {
            old: Some(a.entry),
            new: Some(b.entry),
            old_rest: a.next,
            new_rest: b.next,
            name: a.entry.name,
            directory: is_directory(a.entry.kind),
        },
    }
}

/// Whether an entry is a directory.
fn is_directory(kind: EntryKind) -> bool
    ensures { result ≡ is_directory kind }
{
    match kind {
        EntryKind::Directory => true,
        _ => false,
    }
}

/// Whether two entries are alike, or neither is there.
fn are_alike(old: Option<Entry<'_>>, new: Option<Entry<'_>>) -> bool
    ensures { IsTrue result ↔ (option_map item_of (option_map entry_of old.entry)
        ≡ option_map item_of (option_map entry_of new.entry)) }
{
    match (old, new) {
        (Some(old), Some(new)) => old.kind == new.kind && old.id == new.id,
        (None, None) => true,
        _ => false,
    }
}
