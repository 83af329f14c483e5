//! Who answers questions about the commits of a graph.

ghost use Rattle.std.specs.Prelude.{◌≡◌, ◌≢◌, ℕ, List, Option, OnOk};
ghost use Rattle.std.specs.Io.KnownBytes.{Appends};
ghost use Rattle.graph_commands.specs.Buffer.{with_buffer};
ghost use Rattle.graph_folder.specs.Tree.{Tree};
ghost use Rattle.question_lines.specs.declared.question.Question as asked;

use graph_commands::buffer::Buffer;
use graph_commands::line::WriteFailed;
use graph_folder::folder::Folder;
use history_commands::asker::CheckedAsker;
use question_lines::question::Question;
use std::io::Write;

/// Answers questions about the commits of a graph: one that was checked, or one of whose files
/// parts are read.
pub trait Asker {
    /// What a contract knows of an asker, which no call changes.
    ghost Known: { Type 0 };

    /// That of this asker.
    ghost known: { Self → Known };

    /// The asker may be asked in a folder with this tree, where that is known.
    ghost is_of: { Self → Option Tree → Type 0 };

    /// This may be told for a question in such a folder, while the count of failed reads goes from
    /// the first number to the second.
    ghost may_tell: { Known → Option Tree → ℕ → ℕ → asked.Question → List ℕ → Type 0 };

    /// Adds the lines of the answer to a question, which does not ask for the graph to be opened
    /// anew. `WriteFailed` comes where the writer fails.
    fn answer<T: Folder, W: Write>(
        &mut self,
        folder: &mut T,
        question: &Question,
        buffer: &mut Buffer,
        writer: &mut W,
    ) -> Result<(), WriteFailed>
        requires asks { question.now ≢ Question.Reload }
        requires of { is_of self.old (T.tree folder.old) }
        ensures told { OnOk result ((told : List ℕ)
            × may_tell (known self.old) (T.tree folder.old)
            (T.failure_count folder.old) (T.failure_count folder.new) question.now told
            × Appends (with_buffer (W.contents writer.old) buffer.old)
            (with_buffer (W.contents writer.new) buffer.new) told) }
        ensures known { known self.new ≡ known self.old }
        ensures of { is_of self.new (T.tree folder.old) }
        ensures tree { T.tree folder.new ≡ T.tree folder.old };
}

impl Asker for CheckedAsker<'_, '_> {
    ghost use Rattle.std.specs.Prelude.{List, ⊤};
    ghost use Rattle.graph_format.specs.Layer.{Layer};
    ghost use Rattle.question_answers.specs.AnsweredLines.{TellsStill};

    ghost Known = { List Layer };

    ghost known = { λ asker. asker };

    ghost is_of = { λ _ _. ⊤ };

    ghost may_tell = { λ layers _. TellsStill layers };

    fn answer<T: Folder, W: Write>(
        &mut self,
        _folder: &mut T,
        question: &Question,
        buffer: &mut Buffer,
        writer: &mut W,
    ) -> Result<(), WriteFailed> {
        self.tell(question, buffer, writer)
    }
}
