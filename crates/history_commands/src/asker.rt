//! Questions over one graph that was checked.

ghost use Rattle.std.specs.Prelude.{◌≡◌, ◌≢◌, ◌<◌, ℕ, List, All, IfErr, IfOk, OnOk};
ghost use Rattle.std.specs.Io.KnownBytes.{Appends};
ghost use Rattle.gix_hash_core.specs.Oid.{oid_bytes};
ghost use Rattle.gix_commitgraph.specs.Graph.{total};
ghost use Rattle.gix_commitgraph.specs.IdWalks.{ids_at};
ghost use Rattle.graph_format.specs.StoredHistory.{history_of};
ghost use Rattle.graph_walks.specs.History.{parents_at};
ghost use Rattle.answer_lines.specs.AnswerLines.{parents_line};
ghost use Rattle.answer_lines.specs.Replies.{listed_reply};
ghost use Rattle.graph_commands.specs.Ancestor.{IsThere};
ghost use Rattle.graph_commands.specs.Buffer.{with_buffer};
ghost use Rattle.history_commands.specs.CheckedReplies.{IsReplyTo, IsSearched, TellsOver};
ghost use Rattle.question_lines.specs.Questions.{question_ids};

use crate::dates::KnownDates;
use crate::found::{compare, is_ancestor, walk};
use answer_lines::push::{push_found, push_missing, push_parent};
use answer_lines::reply::{Form, Reply};
use gix_commitgraph::Position;
use gix_hash_core::{ObjectId, oid};
use graph_commands::buffer::Buffer;
use graph_commands::find::found_in;
use graph_commands::line::WriteFailed;
use graph_commands::refusal::Refusal;
use graph_history::{Checked, Comparer, Searcher};
use question_lines::question::Question;
use std::alloc::Global;
use std::io::Write;
use std::marker::Model;

/// Answers questions over one graph that was checked, and keeps its memory from one question to the
/// next: that of a [`Searcher`] and of a [`Comparer`], and the corrected dates, from the first
/// question on that asks for merge bases, or from the second that asks for another search. A
/// contract sees it as the graph's layers.
#[derive(Drop)]
pub struct CheckedAsker<'c, 'g> {
    alloc: Global,
    graph: &'c Checked<'g>,
    searcher: Searcher<'g>,
    comparer: Comparer<'c, 'g>,
    dates: KnownDates,
}

impl<'c, 'g> Model for CheckedAsker<'c, 'g> {
    ghost use Rattle.std.specs.Prelude.{◌≡◌, List, IfSome};
    ghost use Rattle.graph_format.specs.Layer.{Layer};
    ghost use Rattle.graph_history.specs.GraphComparison.{AreDatesOf};

    ghost Value = { List Layer };

    ghost view = { λ asker. asker.graph.now.layers };

    ghost invariant = { λ asker. (asker.searcher ≡ asker.graph.now.layers)
        × (asker.comparer ≡ asker.graph.now)
        × IfSome asker.dates.found (AreDatesOf asker.comparer.layers) };
}

impl<'c, 'g> CheckedAsker<'c, 'g> {
    /// For questions over a graph. Nothing is allocated yet.
    pub fn new(alloc: Global, graph: &'c Checked<'g>) -> CheckedAsker<'c, 'g>
        ensures { result ≡ graph.now.layers }
    {
        CheckedAsker {
            alloc,
            graph,
            searcher: graph.searcher(alloc),
            comparer: Comparer::new(alloc, graph),
            dates: KnownDates::new(),
        }
    }

    /// What is answered to a question that asks for a search.
    ///
    /// # Errors
    ///
    /// `Walk`, where an allocation failed. All ids of the question are in the graph then.
    pub fn search(&mut self, question: &Question) -> Result<Reply<Vec<ObjectId>>, Refusal>
        requires { IsSearched question.now }
        ensures graph { self.new ≡ self.old }
        ensures reply { IfOk result (λ reply.
            IsReplyTo self.old question.now (listed_reply reply)) }
        ensures refused { IfErr result (λ refusal. (refusal ≡ Refusal.Walk)
            × All (IsThere self.old) (question_ids question.now)) }
    {
        match question {
            Question::IsAncestor(first, second) => {
                let (first, second) = (first.as_oid(), second.as_oid());
                let (searcher, dates) = (&mut self.searcher, &mut self.dates);
                match is_ancestor(self.alloc, self.graph, searcher, dates, first, second) {
                    Ok(told) => Ok(Reply::Told(told)),
                    Err(refusal) => Err(refusal),
                }
            }
            Question::Walk(first, second) => {
                let (first, second) = (first.as_oid(), second.as_oid());
                let (searcher, dates) = (&mut self.searcher, &mut self.dates);
                match walk(self.alloc, self.graph, searcher, dates, first, second) {
                    Ok(walk) => Ok(Reply::Walk(walk)),
                    Err(refusal) => Err(refusal),
                }
            }
            Question::MergeBase(first, others) => {
                let (comparer, dates) = (&mut self.comparer, &mut self.dates);
                match compare(self.alloc, comparer, dates, first.as_oid(), others) {
                    Ok(compared) => Ok(Reply::Compared(compared)),
                    Err(refusal) => Err(refusal),
                }
            }
            Question::Find(_) => unreachable!(),
            Question::Parents(_) => unreachable!(),
            Question::Reload => unreachable!(),
        }
    }

    /// Adds the lines of the answer to a question, which does not ask for the graph to be opened
    /// anew. Where memory runs out in a search, that is told in their place. `WriteFailed` comes
    /// where the writer fails.
    pub fn tell<W: Write>(
        &mut self,
        question: &Question,
        buffer: &mut Buffer,
        writer: &mut W,
    ) -> Result<(), WriteFailed>
        requires { question.now ≢ Question.Reload }
        ensures graph { self.new ≡ self.old }
        ensures told { OnOk result ((told : List ℕ) × TellsOver self.old question.now told
            × Appends (with_buffer (W.contents writer.old) buffer.old)
            (with_buffer (W.contents writer.new) buffer.new) told) }
    {
        match question {
            Question::Find(id) => tell_found(self.graph, id.as_oid(), buffer, writer),
            Question::Parents(id) => tell_parents(self.graph, id.as_oid(), buffer, writer),
            Question::IsAncestor(_, _) => self.tell_searched(question, buffer, writer),
            Question::Walk(_, _) => self.tell_searched(question, buffer, writer),
            Question::MergeBase(_, _) => self.tell_searched(question, buffer, writer),
            Question::Reload => unreachable!(),
        }
    }

    /// Adds the lines of the answer to a question that asks for a search, or that memory ran out.
    fn tell_searched<W: Write>(
        &mut self,
        question: &Question,
        buffer: &mut Buffer,
        writer: &mut W,
    ) -> Result<(), WriteFailed>
        requires { IsSearched question.now }
        ensures graph { self.new ≡ self.old }
        ensures told { OnOk result ((told : List ℕ) × TellsOver self.old question.now told
            × Appends (with_buffer (W.contents writer.old) buffer.old)
            (with_buffer (W.contents writer.new) buffer.new) told) }
    {
        match self.search(question) {
            Ok(reply) => reply.push(Form::Whole, buffer, writer),
            Err(_) => buffer.push_text(writer, "refused walk\n"),
        }
    }
}

/// Adds the line of the commit with an id, or that there is none.
fn tell_found<W: Write>(
    graph: &Checked<'_>,
    id: oid<'_>,
    buffer: &mut Buffer,
    writer: &mut W,
) -> Result<(), WriteFailed>
    ensures { OnOk result ((told : List ℕ)
        × TellsOver graph.now.layers (Question.Find (oid_bytes id.entry)) told
        × Appends (with_buffer (W.contents writer.old) buffer.old)
        (with_buffer (W.contents writer.new) buffer.new) told) }
{
    let found = found_in(graph.graph(), id);
    push_found(buffer, writer, found)
}

/// Adds the line of the parents of the commit with an id, or that it is missing.
fn tell_parents<W: Write>(
    graph: &Checked<'_>,
    id: oid<'_>,
    buffer: &mut Buffer,
    writer: &mut W,
) -> Result<(), WriteFailed>
    ensures { OnOk result ((told : List ℕ)
        × TellsOver graph.now.layers (Question.Parents (oid_bytes id.entry)) told
        × Appends (with_buffer (W.contents writer.old) buffer.old)
        (with_buffer (W.contents writer.new) buffer.new) told) }
{
    match graph.find(id) {
        Some(pos) => push_parents_of(buffer, writer, graph, pos),
        None => push_missing(buffer, writer, 1),
    }
}

/// Adds the line of the parents of the commit at a position. It allocates nothing.
fn push_parents_of<W: Write>(
    buffer: &mut Buffer,
    writer: &mut W,
    graph: &Checked<'_>,
    pos: Position,
) -> Result<(), WriteFailed>
    requires { pos.0 < total graph.now.layers }
    ensures { OnOk result (Appends (with_buffer (W.contents writer.old) buffer.old)
        (with_buffer (W.contents writer.new) buffer.new)
        (parents_line (ids_at graph.now.layers
        (parents_at (history_of graph.now.layers) pos.0)))) }
{
    buffer.push_text(writer, "parents")?;
    for parent in graph.parents(pos) {
        push_parent(buffer, writer, graph.id(parent))?;
    }
    buffer.push_byte(writer, b'\n')
}
