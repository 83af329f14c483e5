//! Lines with ids.

ghost use Rattle.std.specs.Prelude.{◌≡◌, ◌++◌, ℕ, List, MatchOption, option_map};
ghost use Rattle.commit_objects.specs.CommitContents.{parent_word};
ghost use Rattle.commit_objects.specs.Lines.{BeginsWithWord, BeginsWithLine, AreParentLines};
ghost use Rattle.commit_objects.specs.Time as spec;

use crate::hex_id::HexId;
use gix_hash_core::Kind;

/// What follows a word, where the bytes begin with it.
pub(crate) fn behind_word<'a>(word: &[u8], bytes: &'a [u8]) -> Option<&'a [u8]>
    ensures cases { MatchOption result (¬ BeginsWithWord bytes.now word.now)
        (λ next. bytes.now ≡ word.now ++ next.now) }
    ensures value { option_map (λ x. x.now) result ≡ spec.behind_word word.now bytes.now }
{
    bytes.strip_prefix(word)
}

/// An id, and what follows its line.
#[derive(Drop)]
pub(crate) struct IdLine<'a> {
    pub(crate) id: HexId<'a>,
    pub(crate) next: &'a [u8],
}

/// The id in the line that begins with a word, and what follows the line.
pub(crate) fn split_id_line<'a>(kind: Kind, word: &[u8], bytes: &'a [u8]) -> Option<IdLine<'a>>
    ensures { MatchOption result
        ((id next : List ℕ) → ¬ BeginsWithLine kind word.now bytes.now id next)
        (λ line. BeginsWithLine kind word.now bytes.now line.id line.next.now) }
{
    let Some(line) = behind_word(word, bytes) else {
        return None;
    };
    let Some((digits, end)) = line.split_at_checked(2 * kind.len_in_bytes()) else {
        return None;
    };
    let Some(next) = behind_word(b"\n", end) else {
        return None;
    };
    let Some(id) = HexId::from_text(digits) else {
        return None;
    };
    Some(IdLine { id, next })
}

/// The id in the first of some lines of parents, and what follows that line, where there is one.
pub(crate) fn first_parent<'a>(kind: Kind, lines: &'a [u8]) -> Option<IdLine<'a>>
    requires { (ids : List (List ℕ)) × AreParentLines kind ids lines.now }
    ensures { MatchOption result
        ((id next : List ℕ) → ¬ BeginsWithLine kind parent_word lines.now id next)
        (λ line. BeginsWithLine kind parent_word lines.now line.id line.next.now) }
{
    let start = b"parent ".len();
    let end = start + 2 * kind.len_in_bytes();
    if lines.len() <= end {
        return None;
    }
    Some(IdLine {
        id: HexId::of_digits(&lines[start..end]),
        next: &lines[end + 1..],
    })
}
