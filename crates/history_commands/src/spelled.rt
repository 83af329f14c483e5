//! A question that asks for a search, as the words of a command have it.

ghost use Rattle.std.specs.Prelude.{◌≡◌, Err, IfErr, IfOk};
ghost use Rattle.std.specs.List.{AllZip};
ghost use Rattle.gix_hash_core.specs.Hexadecimal.{SpellsId};
ghost use Rattle.history_commands.specs.AskedOnce.{MayNotReadTexts};
ghost use Rattle.history_commands.specs.CheckedReplies.{IsSearched};
ghost use Rattle.history_commands.specs.SpelledQuestions.{spelled_name, spelled_texts};
ghost use Rattle.question_lines.specs.Questions.{question_ids, question_name};

use crate::words::{read_group, read_two};
use graph_commands::refusal::Refusal;
use question_lines::question::Question;
use std::alloc::Global;

/// A question that asks for a search, whose ids are texts yet.
#[derive(Clone, Copy, Debug)]
pub enum SpelledQuestion<'a> {
    /// Whether the commit with the first id is an ancestor of the one with the second, or the same.
    IsAncestor(&'a str, &'a str),
    /// A shortest walk along parents from the commit with the first id to the one with the second.
    Walk(&'a str, &'a str),
    /// What the commit with the first id and those with the others have in common: the merge bases,
    /// as `git merge-base --all` names them, and how far the commits have come apart.
    MergeBase(&'a str, &'a [String]),
}

impl SpelledQuestion<'_> {
    /// The question about the ids that the texts spell, in hexadecimal digits of either case.
    ///
    /// # Errors
    ///
    /// `Id` for the first text that spells none, or `Walk`, where all of them are ids and an
    /// allocation failed.
    pub fn read(self, alloc: Global) -> Result<Question, Refusal>
        ensures searched { IfOk result IsSearched }
        ensures named { IfOk result (λ asked. question_name asked ≡ spelled_name self.entry) }
        ensures spelled { IfOk result (λ asked.
            AllZip SpellsId (spelled_texts self.entry) (question_ids asked)) }
        ensures refused { IfErr result (λ refusal. MayNotReadTexts (spelled_name self.entry)
            (spelled_texts self.entry) (Err refusal)) }
    {
        match self {
            SpelledQuestion::IsAncestor(first, second) => match read_two(first, second) {
                Ok(ids) => Ok(Question::IsAncestor(ids.0, ids.1)),
                Err(error) => Err(Refusal::Id(error)),
            },
            SpelledQuestion::Walk(first, second) => match read_two(first, second) {
                Ok(ids) => Ok(Question::Walk(ids.0, ids.1)),
                Err(error) => Err(Refusal::Id(error)),
            },
            SpelledQuestion::MergeBase(first, others) => {
                let ids = read_group(alloc, first, others)?;
                Ok(Question::MergeBase(ids.0, ids.1))
            }
        }
    }
}
