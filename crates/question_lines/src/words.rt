//! The words of a line.

ghost use Rattle.std.specs.Prelude.{◌≡◌, ◌∷◌, [], MatchOption};
ghost use Rattle.question_lines.specs.Questions.{words_of};
ghost use Rattle.question_lines.specs.WordsLeft.{words_left};

use crate::place::place_of;
use std::marker::Model;

/// An iterator over the words of a line, which stand apart by one space. A contract sees it as the
/// list of those to come.
#[derive(Drop)]
pub(crate) struct Words<'a> {
    // what stands behind the last space, if there is a word to come
    left: Option<&'a [u8]>,
}

impl<'a> Model for Words<'a> {
    ghost use Rattle.std.specs.Prelude.{List, ℕ};
    ghost use Rattle.question_lines.specs.WordsLeft.{words_left};

    ghost Value = { List (List ℕ) };

    ghost view = { λ words. words_left words.left };
}

impl<'a> Words<'a> {
    /// Those of a line.
    pub(crate) fn new(line: &'a [u8]) -> Words<'a>
        ensures { result ≡ words_of line.now }
    {
        Words { left: Some(line) }
    }

    /// The same once more.
    pub(crate) fn again(&self) -> Words<'a>
        ensures { result ≡ self.now }
    {
        Words { left: self.left }
    }
}

impl<'a> Iterator for Words<'a> {
    ghost use Rattle.std.specs.Iterator.{YieldsFirstRef, item_count};
    ghost use Rattle.std.specs.Prelude.{List, ℕ};

    type Item = &'a [u8];

    ghost next_gives = { YieldsFirstRef {S = List (List ℕ)} (λ left. left) };

    ghost remaining = { item_count {S = List (List ℕ)} (λ left. left) };

    fn next(&mut self) -> Option<&'a [u8]> {
        let text = self.left?;
        let (word, left) = split_word(text);
        self.left = left;
        Some(word)
    }
}

/// The first word of a text, and what stands behind the space after it, if there is one.
fn split_word(text: &[u8]) -> (&[u8], Option<&[u8]>)
    ensures { words_of text.now ≡ result.0.now ∷ words_left result.1 }
{
    match place_of(b' ', text) {
        Some(place) => (&text[..place], Some(&text[place + 1..])),
        None => (text, None),
    }
}
