//! A question over parts of the files of a trusted graph, and over commits that are asked for.

ghost use Rattle.std.specs.Prelude.{◌≡◌, ◌+◌, ◌<◌, ◌^◌, ℕ, Err, IfOk, List, OnErr, Some};
ghost use Rattle.std.specs.Io.KnownBytes.{Appends};
ghost use Rattle.std.specs.Option.{ForSome};
ghost use Rattle.graph_commands.specs.declared.refusal.Refusal.TheVariants.{Open};
ghost use Rattle.graph_layer.specs.declared.opening.error.OpenError.TheVariants.{Device};
ghost use Rattle.graph_unchecked.specs.Trusted.{IsTrustedAt};
ghost use Rattle.graph_unchecked.specs.Unchecked.{IsAnswerAt};
ghost use Rattle.commit_requests.specs.Requested.{request_lines};
ghost use Rattle.history_commands.specs.CheckedReplies.{IsSearched};
ghost use Rattle.newer_unchecked.specs.TrustedOnTop.{IsFailureCounted, IsToldOfParts};
ghost use Rattle.newer_unchecked.specs.TrustedOnTop.{MayComeByParts, listed_found};

use answer_lines::reply::Reply;
use commit_requests::CompleteError;
use gix_commitgraph::opening::OpenError;
use gix_hash_core::ObjectId;
use graph_commands::line::WriteFailed;
use graph_commands::refusal::Refusal;
use graph_folder::folder::Folder;
use graph_unchecked::source::TrustedCommits;
use graph_unchecked::trusted::TrustedGraph;
use graph_unchecked::unread::Unread;
use newer_commands::NewerRefusal;
use newer_commands::verdict::{Verdict, verdict_of};
use newer_questions::answer_on_top;
use question_lines::question::Question;
use std::alloc::Global;
use std::io::{Read, Write};

/// What comes of a question that asks for a search, over a trusted graph and over the commits that
/// it lacks, for which it asks; none, where parts of the files do not suffice. `WriteFailed` comes
/// where the writer fails.
pub(crate) fn find_by_parts<T: Folder, R: Read, W: Write>(
    alloc: Global,
    folder: &mut T,
    graph: &mut TrustedGraph,
    question: &Question,
    reader: &mut R,
    writer: &mut W,
) -> Result<Option<Verdict>, WriteFailed>
    requires asks { IsSearched question.now }
    requires graph { (path : List ℕ) × IsTrustedAt (T.tree folder.old) path graph.old }
    ensures found { IfOk result (λ found. (asked : List (List ℕ))
        × Appends (W.contents writer.old) (W.contents writer.new) (request_lines asked)
        × ((path : List ℕ) → IsTrustedAt (T.tree folder.old) path graph.old
        → ForSome (T.tree folder.old) (λ tree. IsAnswerAt tree path
        (λ layers. MayComeByParts layers (R.remaining reader.old) question.now asked)
        (listed_found found)))) }
    ensures counted { IfOk result (λ found. IsFailureCounted (T.failure_count folder.old)
        (T.failure_count folder.new) (listed_found found)) }
    ensures tree { T.tree folder.new ≡ T.tree folder.old }
{
    let kind = graph.kind();
    let mut commits = TrustedCommits::new(alloc, folder, graph.parts());
    let outcome = answer_on_top(alloc, &mut commits, kind, None, question, reader, writer);
    let found = told_of(outcome)?;
    Ok(told_unless(commits.unless_failed(Ok(found))))
}

/// What was found is told, unless a read of the files failed.
fn told_unless(found: Result<Option<Verdict>, Unread>) -> Option<Verdict>
    ensures found { IfOk found (λ found. result ≡ found) }
    ensures failed { OnErr found
        (listed_found result ≡ Some (Err (NewerRefusal.Common (Open Device)))) }
{
    match found {
        Ok(found) => found,
        Err(_) => refused(Refusal::Open(OpenError::Device)),
    }
}

/// What is told where a question is refused.
fn refused(refusal: Refusal) -> Option<Verdict>
    ensures { listed_found result ≡ Some (Err (NewerRefusal.Common refusal)) }
{
    Some(Err(NewerRefusal::Common(refusal)))
}

/// What is told of what came of a question; none, where parts of the files do not suffice.
/// `WriteFailed` comes exactly where a write failed.
fn told_of(
    outcome: Result<Reply<Vec<ObjectId>>, CompleteError<Unread>>,
) -> Result<Option<Verdict>, WriteFailed>
    requires few { (number : ℕ) → outcome ≡ Err (CompleteError.Unknown number)
        → number + 1 < 2 ^ 64 }
    ensures told { IfOk result (λ found. IsToldOfParts outcome (listed_found found)) }
    ensures failed { OnErr result (outcome ≡ Err CompleteError.WriteFailed) }
{
    match outcome {
        Ok(reply) => Ok(Some(Ok(reply))),
        Err(CompleteError::Lost(_)) => Ok(None),
        Err(error) => match verdict_of(error)? {
            Ok(verdict) => Ok(Some(verdict)),
            Err(Unread::OutOfMemory) => Ok(refused(Refusal::Walk)),
            Err(_) => Ok(None),
        },
    }
}
