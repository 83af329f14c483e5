//! Questions over one graph that is trusted, which are answered by parts of its files.

ghost use Rattle.std.specs.Prelude.{◌≡◌, ◌≢◌, ℕ, List, IfOk, Ok, option_map};
ghost use Rattle.answer_lines.specs.Replies.{listed_reply};
ghost use Rattle.graph_commands.specs.OpenerAnswer.{MayOpen};
ghost use Rattle.graph_unchecked.specs.Trusted.{IsTrustedAt};
ghost use Rattle.graph_unchecked.specs.Unread.{failures_after_reads};
ghost use Rattle.unchecked_commands.specs.OnlyAnswer.{IsReadByParts};
ghost use Rattle.unchecked_commands.specs.TrustedReplies.{IsReplyByParts, reported};

use answer_lines::reply::Reply;
use gix_commitgraph::Position;
use gix_hash_core::ObjectId;
use graph_commands::report::Found;
use graph_folder::folder::Folder;
use graph_parts::parts::StoredCommit;
use graph_unchecked::trusted::TrustedGraph;
use graph_unchecked::unread::Unread;
use question_lines::question::Question;

/// What parts of the files answer to a question, which does not ask for the graph to be opened
/// anew.
///
/// # Errors
///
/// Those of [`TrustedGraph`]: `Device` where a read failed, `OutOfMemory`, and `NotByParts` where
/// the graph is to be opened whole and checked.
pub fn ask_by_parts<T: Folder>(
    folder: &mut T,
    graph: &mut TrustedGraph,
    question: &Question,
) -> Result<Reply<Vec<ObjectId>>, Unread>
    requires asks { question.now ≢ Question.Reload }
    requires graph { (path : List ℕ) × IsTrustedAt (T.tree folder.old) path graph.old }
    ensures graph { (path : List ℕ) → IsTrustedAt (T.tree folder.old) path graph.old
        → IsTrustedAt (T.tree folder.old) path graph.new }
    ensures reply { (path : List ℕ) → IsTrustedAt (T.tree folder.old) path graph.old
        → IfOk result (λ reply. IsReadByParts (MayOpen (T.tree folder.old) path)
        (T.failure_count folder.old) (T.failure_count folder.new)
        (λ layers. IsReplyByParts layers question.now) (Ok (listed_reply reply))) }

    // A failed device is answered where a read failed, and nothing else is answered there.
    ensures failures { T.failure_count folder.new
        ≡ failures_after_reads result (T.failure_count folder.old) }
    ensures tree { T.tree folder.new ≡ T.tree folder.old }
{
    match question {
        Question::Find(id) => match graph.find(folder, id.as_oid()) {
            Ok(found) => Ok(Reply::Found(describe(found))),
            Err(why) => Err(why),
        },
        Question::IsAncestor(first, second) => {
            match graph.is_ancestor(folder, first.as_oid(), second.as_oid()) {
                Ok(told) => Ok(Reply::Told(told)),
                Err(why) => Err(why),
            }
        }
        Question::Walk(first, second) => {
            match graph.ancestor_walk(folder, first.as_oid(), second.as_oid()) {
                Ok(walk) => Ok(Reply::Walk(walk)),
                Err(why) => Err(why),
            }
        }
        Question::MergeBase(first, others) => {
            match graph.compare(folder, first.as_oid(), others) {
                Ok(compared) => Ok(Reply::Compared(compared)),
                Err(why) => Err(why),
            }
        }
        Question::Parents(id) => match graph.parents(folder, id.as_oid()) {
            Ok(parents) => Ok(Reply::Parents(parents)),
            Err(why) => Err(why),
        },
        Question::Reload => unreachable!(),
    }
}

/// What is reported of a commit, if there is one.
fn describe(found: Option<(Position, StoredCommit)>) -> Option<Found>
    ensures { result ≡ option_map reported found }
{
    match found {
        Some((pos, commit)) => Some(Found {
            pos,
            generation: commit.generation,
            time: commit.time,
        }),
        None => None,
    }
}
