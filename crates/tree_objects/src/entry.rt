//! Entries.

ghost use Rattle.std.specs.Prelude.{◌≡◌, ◌≢◌, ◌<◌, ◌≤◌, ◌↔◌, ◌++◌, ◌∷◌, ℕ, List, All};
ghost use Rattle.std.specs.Prelude.{IsTrue, MatchOption, length, slice_index, take};
ghost use Rattle.std.specs.Ordering.{nat_cmp};
ghost use Rattle.std.specs.Cmp.Lexicographic.{slice_cmp};
ghost use Rattle.std.specs.List.{AllPass};
ghost use Rattle.tree_objects.specs.Mode.{is_octal};
ghost use Rattle.tree_objects.specs.Entry.{entry_of};
ghost use Rattle.tree_objects.specs.Tree.{TreeEntry, BeginsWithTreeEntry, IsName, key_end, key_of};

use crate::mode::{EntryKind, are_octal, kind_by_mode, lower_bits};
use gix_hash_core::Kind;
use std::cmp::Ordering;

/// An entry of a tree, borrowed from the tree's bytes.
#[derive(Clone, Copy)]
pub struct Entry<'a> {
    /// What it is.
    pub kind: EntryKind,
    /// Its name.
    pub name: &'a [u8],
    /// Its id.
    pub id: &'a [u8],
}

/// An entry, and what follows it.
#[derive(Clone, Copy)]
pub struct SplitEntry<'a> {
    /// The entry.
    pub entry: Entry<'a>,
    /// What follows it.
    pub next: &'a [u8],
}

/// The entry with which the bytes begin, and what follows it. `None` where they begin with none.
pub fn split_entry<'a>(kind: Kind, bytes: &'a [u8]) -> Option<SplitEntry<'a>>
    ensures { MatchOption result
        ((entry : TreeEntry) (next : List ℕ) → ¬ BeginsWithTreeEntry kind bytes.now entry next)
        (λ found. BeginsWithTreeEntry kind bytes.now (entry_of found.entry) found.next.now) }
{
    let Some(mode) = split_at_byte(b' ', bytes) else {
        return None;
    };
    if !is_mode(mode.front) {
        return None;
    }
    let Some(name) = split_at_byte(0, mode.behind) else {
        return None;
    };
    if !is_name(name.front) {
        return None;
    }
    let Some((id, next)) = name.behind.split_at_checked(kind.len_in_bytes()) else {
        return None;
    };
    let kind = kind_by_mode(lower_bits(mode.front));
    let entry = Entry {
        kind,
        name: name.front,
        id,
    };
    Some(SplitEntry { entry, next })
}

/// Whether bytes are a mode: octal digits.
fn is_mode(digits: &[u8]) -> bool
    ensures { IsTrue result ↔ ((0 < length digits.now) × AllPass is_octal digits.now) }
{
    !digits.is_empty() && are_octal(digits)
}

/// Whether bytes without a NUL are a name.
fn is_name(name: &[u8]) -> bool
    requires { All (λ b. b ≢ 0) name.now }
    ensures { IsTrue result ↔ IsName name.now }
{
    if name.is_empty() {
        return false;
    }
    match place_of(b'/', name) {
        Some(_) => false,
        None => true,
    }
}

/// What stands before and behind the first byte with a value.
#[derive(Clone, Copy)]
struct Parts<'a> {
    front: &'a [u8],
    behind: &'a [u8],
}

/// What stands before and behind the first byte with this value.
fn split_at_byte<'a>(value: u8, bytes: &'a [u8]) -> Option<Parts<'a>>
    ensures { MatchOption result (All (λ b. b ≢ value) bytes.now)
        (λ parts. (bytes.now ≡ parts.front.now ++ value ∷ parts.behind.now)
        × All (λ b. b ≢ value) parts.front.now) }
{
    let Some(place) = place_of(value, bytes) else {
        return None;
    };
    Some(Parts {
        front: &bytes[..place],
        behind: &bytes[place + 1..],
    })
}

/// Where the first byte with this value stands.
fn place_of(value: u8, bytes: &[u8]) -> Option<usize>
    ensures { MatchOption result (All (λ b. b ≢ value) bytes.now)
        (λ place. (place < length bytes.now) × (slice_index bytes.now place ≡ value)
        × All (λ b. b ≢ value) (take place bytes.now)) }
{
    for (i, byte) in bytes.iter().enumerate() {
        if *byte == value {
            return Some(i);
        }
    }
    None
}

/// Which of two entries stands before the other in Git's order.
#[tactic(auto, unfolding(crate::specs::Tree::key_of))]
pub fn order(a: Entry<'_>, b: Entry<'_>) -> Ordering
    ensures { result ≡ slice_cmp nat_cmp (key_of (entry_of a.entry)) (key_of (entry_of b.entry)) }
{
    order_of_keys(a.name, a.kind, b.name, b.kind)
}

/// Which of two names of entries of these kinds stands before the other.
fn order_of_keys(a: &[u8], a_kind: EntryKind, b: &[u8], b_kind: EntryKind) -> Ordering
    ensures { result ≡ slice_cmp nat_cmp (a.now ++ key_end a_kind) (b.now ++ key_end b_kind) }
{
    let common = a.len().min(b.len());
    for i in 0..common {
        if a[i] < b[i] {
            return Ordering::Less;
        }
        if b[i] < a[i] {
            return Ordering::Greater;
        }
    }
    order_of_ends(&a[common..], a_kind, &b[common..], b_kind)
}

/// The same, byte by byte with the slashes of directories. One of both names has mostly no byte
/// here.
fn order_of_ends(a: &[u8], a_kind: EntryKind, b: &[u8], b_kind: EntryKind) -> Ordering
    ensures { result ≡ slice_cmp nat_cmp (a.now ++ key_end a_kind) (b.now ++ key_end b_kind) }
{
    let mut i = 0;
    while let Some(first) = byte_at(a, a_kind, i) {
        let Some(second) = byte_at(b, b_kind, i) else {
            return Ordering::Greater;
        };
        if first < second {
            return Ordering::Less;
        }
        if second < first {
            return Ordering::Greater;
        }
        i += 1;
    }
    match byte_at(b, b_kind, i) {
        Some(_) => Ordering::Less,
        None => Ordering::Equal,
    }
}

/// The byte at a place of a name, behind which a directory's goes on with a slash.
fn byte_at(name: &[u8], kind: EntryKind, i: usize) -> Option<u8>
    ensures { let key = name.now ++ key_end kind in
        MatchOption result (length key ≤ i)
        (λ byte. (i < length key) × (byte ≡ slice_index key i)) }
{
    if i < name.len() {
        return Some(name[i]);
    }
    match kind {
        EntryKind::Directory => { if i == name.len() { Some(b'/') } else { None } }
        _ => None,
    }
}
