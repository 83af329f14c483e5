//! Which line asks which question.

ghost use Rattle.std.specs.Prelude.{◌≡◌, ◌≢◌, ◌≤◌, [], ◌∷◌, ℕ, List, true, false, length};
ghost use Rattle.std.specs.Prelude.{IfOk, IfSome, IsNone, MatchOption, OnErr};
ghost use Rattle.std.specs.List.{AllZip};
ghost use Rattle.gix_hash_core.specs.Hexadecimal.{SpellsId};
ghost use Rattle.question_lines.specs.Questions.{Asks, AsksNothing, AsksForBases, name_text};
ghost use Rattle.question_lines.specs.Questions.{HasAllIds, question_ids, question_name};
ghost use Rattle.question_lines.specs.declared.question.Name as named;
ghost use Rattle.question_lines.specs.WordsLeft.{BeginWithId, BeginWithNoId, FitName};

use crate::lines::MOST_LINE_BYTES;
use crate::words::Words;
use gix_hash_core::ObjectId;
use std::alloc::{AllocError, Global};

/// A question about a graph, by the ids of its commits.
#[derive(Debug, Drop)]
pub enum Question {
    /// Where a commit is, and what its record says.
    Find(ObjectId),
    /// Whether the first commit is an ancestor of the second, or the same.
    IsAncestor(ObjectId, ObjectId),
    /// A shortest walk along parents from the first commit to the second.
    Walk(ObjectId, ObjectId),
    /// What the first commit and the others, of which there is one at least, have in common.
    MergeBase(ObjectId, Vec<ObjectId>),
    /// The parents of a commit.
    Parents(ObjectId),
    /// No question: the graph is to be opened anew.
    Reload,
}

/// The question that a line asks, or `None` where it asks none: its name, and then its ids in
/// hexadecimal digits of either case, with one space before each. A line of more than a megabyte
/// asks none.
///
/// # Errors
///
/// The line asks for merge bases, and an allocation failed.
pub fn read_question(alloc: Global, line: &[u8]) -> Result<Option<Question>, AllocError>
    ensures asked { IfOk result (λ found. IfSome found (Asks line.now)) }
    ensures nothing { IfOk result (λ found. IsNone found → AsksNothing line.now) }
    ensures memory { OnErr result (AsksForBases line.now) }
{
    if line.len() > MOST_LINE_BYTES {
        return Ok(None);
    }
    let mut words = Words::new(line);
    let Some(name) = words.next() else {
        return Ok(None);
    };
    match name_of(name) {
        Some(name) => ask(alloc, name, words),
        None => Ok(None),
    }
}

/// The question with a name about the ids that the words spell, where they are as many as it takes.
/// `AllocError` comes where they are those of a question for merge bases, and an allocation failed.
fn ask(alloc: Global, name: Name, mut words: Words<'_>) -> Result<Option<Question>, AllocError>
    ensures asked { IfOk result (λ found. IfSome found (λ asked. (question_name asked ≡ name)
        × AllZip SpellsId words.entry (question_ids asked) × HasAllIds asked)) }
    ensures nothing { IfOk result (λ found. IsNone found → (ids : List (List ℕ))
        → FitName name ids → ¬ AllZip SpellsId words.entry ids) }
    ensures memory { OnErr result ((name ≡ Name.MergeBase)
        × ((ids : List (List ℕ)) × AllZip SpellsId words.entry ids × (2 ≤ length ids))) }
{
    match name {
        Name::Find => {
            let Some(id) = read_one(words) else {
                return Ok(None);
            };
            Ok(Some(Question::Find(id)))
        }
        Name::IsAncestor => {
            let Some((first, second)) = read_two(words) else {
                return Ok(None);
            };
            Ok(Some(Question::IsAncestor(first, second)))
        }
        Name::Walk => {
            let Some((first, second)) = read_two(words) else {
                return Ok(None);
            };
            Ok(Some(Question::Walk(first, second)))
        }
        Name::MergeBase => {
            let Some((first, others)) = read_many(alloc, words)? else {
                return Ok(None);
            };
            Ok(Some(Question::MergeBase(first, others)))
        }
        Name::Parents => {
            let Some(id) = read_one(words) else {
                return Ok(None);
            };
            Ok(Some(Question::Parents(id)))
        }
        Name::Reload => match words.next() {
            None => Ok(Some(Question::Reload)),
            Some(_) => Ok(None),
        },
    }
}

/// The name of a question.
#[derive(Clone, Copy)]
pub enum Name {
    Find,
    IsAncestor,
    Walk,
    MergeBase,
    Parents,
    Reload,
}

/// The name that a word is, if it is one.
fn name_of(word: &[u8]) -> Option<Name>
    ensures { MatchOption result ((name : named.Name) → word.now ≢ name_text name)
        (λ name. word.now ≡ name_text name) }
{
    if word == b"find".as_slice() {
        Some(Name::Find)
    } else if word == b"is-ancestor".as_slice() {
        Some(Name::IsAncestor)
    } else if word == b"walk".as_slice() {
        Some(Name::Walk)
    } else if word == b"merge-base".as_slice() {
        Some(Name::MergeBase)
    } else if word == b"parents".as_slice() {
        Some(Name::Parents)
    } else if word == b"reload".as_slice() {
        Some(Name::Reload)
    } else {
        None
    }
}

/// The id that the words spell, where they are one word that spells an id.
fn read_one(mut words: Words<'_>) -> Option<ObjectId>
    ensures some { IfSome result (λ id. AllZip SpellsId words.entry (id ∷ [])) }
    ensures none { IsNone result → (id : List ℕ) → ¬ AllZip SpellsId words.entry (id ∷ []) }
{
    let id = next_id(&mut words)?;
    match words.next() {
        None => Some(id),
        Some(_) => None,
    }
}

/// The ids that the words spell, where they are two words that each spell an id.
fn read_two(mut words: Words<'_>) -> Option<(ObjectId, ObjectId)>
    ensures some { IfSome result (λ ids. AllZip SpellsId words.entry (ids.0 ∷ ids.1 ∷ [])) }
    ensures none { IsNone result → (first second : List ℕ)
        → ¬ AllZip SpellsId words.entry (first ∷ second ∷ []) }
{
    let first = next_id(&mut words)?;
    let second = next_id(&mut words)?;
    match words.next() {
        None => Some((first, second)),
        Some(_) => None,
    }
}

/// The ids that the words spell, the first and the others, where they are two words at least that
/// each spell an id. `AllocError` comes where they are, and an allocation failed.
fn read_many(
    alloc: Global,
    mut words: Words<'_>,
) -> Result<Option<(ObjectId, Vec<ObjectId>)>, AllocError>
    ensures some { IfOk result (λ found. IfSome found (λ ids.
        AllZip SpellsId words.entry (ids.0 ∷ ids.1.items) × (ids.1.items ≢ []))) }
    ensures none { IfOk result (λ found. IsNone found → (first : List ℕ) (others : List (List ℕ))
        → others ≢ [] → ¬ AllZip SpellsId words.entry (first ∷ others)) }
    ensures memory { OnErr result ((ids : List (List ℕ)) × AllZip SpellsId words.entry ids
        × (2 ≤ length ids)) }
{
    if !are_ids(words.again()) {
        return Ok(None);
    }
    let Some(first) = next_id(&mut words) else {
        return Ok(None);
    };
    let mut others = Vec::new(alloc);
    while let Some(id) = next_id(&mut words) {
        others.push(id)?;
    }
    if others.is_empty() {
        return Ok(None);
    }
    Ok(Some((first, others)))
}

/// Whether each word spells an id.
fn are_ids(mut words: Words<'_>) -> bool
    ensures yes { result ≡ true → (ids : List (List ℕ)) × AllZip SpellsId words.entry ids }
    ensures no { result ≡ false → (ids : List (List ℕ)) → ¬ AllZip SpellsId words.entry ids }
{
    while let Some(word) = words.next() {
        if ObjectId::from_hex(word).is_err() {
            return false;
        }
    }
    true
}

/// The id that the next word spells, if there is a word and it spells one.
fn next_id(words: &mut Words<'_>) -> Option<ObjectId>
    ensures { MatchOption result (BeginWithNoId words.old) (BeginWithId words.old words.new) }
{
    let word = words.next()?;
    ObjectId::from_hex(word).ok()
}
