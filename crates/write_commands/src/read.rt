//! Reading the commits of a stream.

ghost use Rattle.std.specs.Prelude.{◌≡◌, ◌<◌, IfErr, IfOk, IfSome, OnOk};
ghost use Rattle.std.specs.Prelude.{[], ◌∷◌, ◌++◌, length};
ghost use Rattle.std.specs.Io.KnownBytes.{IsAtEnd, Keeps, prepend_known};
ghost use Rattle.write_commands.specs.NewEntries.{IsReadFailure, MayStopAt, TakesCommit};
ghost use Rattle.write_commands.specs.NewEntries.{commits_error_at};
ghost use Rattle.write_commands.specs.NewStream.{MayRefuseCommits, SaysCommits, kind_of_stream};

use crate::commit::new_commit;
use crate::error::CommitsError;
use crate::line::{MOST_DIGITS, kind_in_front};
use gix_hash_core::Kind;
use graph_writer::NewCommit;
use object_stream::{Buffer, ObjectType, StreamError, next_entry};
use std::alloc::{AllocError, Global};
use std::io::Read;

/// The commits that a stream says, in its order, which `git cat-file --batch` wrote for their ids:
/// of each its id, which is the digest of its contents, and the tree, the parents and the time that
/// they say, as Git from 2.41 on reads it. The ids are of the kind that is asked for; else of
/// SHA-256 where the stream begins with 64 digits, and of SHA-1 where it does not. The reader is
/// read to its end, and of the stream nothing is kept but these commits.
///
/// # Errors
///
/// The first entry that is not one of a commit, and the first of
/// [`EntryError`](object_stream::EntryError) that holds of it, or `Unreadable` where none does.
/// `Device` comes where a read failed, and `OutOfMemory` where an allocation did.
pub fn read_commits<R: Read>(
    alloc: Global,
    asked: Option<Kind>,
    reader: &mut R,
) -> Result<Vec<NewCommit>, CommitsError>
    ensures said { IfOk result (λ commits. IfSome (R.remaining reader.old)
        (λ bytes. SaysCommits asked bytes commits.items)) }
    ensures end { OnOk result (IsAtEnd (R.remaining reader.new)) }
    ensures refused { IfErr result (λ error. IfSome (R.remaining reader.old)
        (λ bytes. MayRefuseCommits asked bytes error)) }
{
    let mut buffer = Buffer::new(alloc)?;
    let kind = kind_ahead(asked, &mut buffer, reader)?;
    let mut commits = Vec::new(alloc);
    for number in 0..usize::MAX {
        if !buffer.fill(reader, 0, 0)? {
            return Ok(commits);
        }
        let commit = read_commit(alloc, kind, number, &mut buffer, reader)?;
        keep(&mut commits, commit)?;
    }
    Err(CommitsError::OutOfMemory)
}

/// Adds a commit to others.
fn keep(commits: &mut Vec<NewCommit>, commit: NewCommit) -> Result<(), AllocError>
    ensures { OnOk result (commits.new.items ≡ commits.old.items ++ commit ∷ []) }
{
    commits.push(commit)?;
    Ok(())
}

/// The kind that is asked for, or else that of the ids in the bytes that are read next.
fn kind_ahead<R: Read>(
    asked: Option<Kind>,
    buffer: &mut Buffer,
    reader: &mut R,
) -> Result<Kind, CommitsError>
    ensures kind { IfOk result (λ kind. IfSome (prepend_known buffer.old (R.remaining reader.old))
        (λ bytes. kind ≡ kind_of_stream asked bytes)) }
    ensures kept { OnOk result (Keeps (prepend_known buffer.old (R.remaining reader.old))
        (prepend_known buffer.new (R.remaining reader.new))) }
    ensures error { IfErr result IsReadFailure }
{
    match asked {
        Some(kind) => Ok(kind),
        None => {
            buffer.fill(reader, 0, MOST_DIGITS - 1)?;
            Ok(kind_in_front(buffer.bytes()))
        }
    }
}

/// Takes the entry of a commit, which has this number, from the bytes that are read next, of which
/// there are some.
fn read_commit<R: Read>(
    alloc: Global,
    kind: Kind,
    number: usize,
    buffer: &mut Buffer,
    reader: &mut R,
) -> Result<NewCommit, CommitsError>
    requires { 0 < length buffer.old }
    ensures ok { IfOk result (λ commit. TakesCommit kind commit
        (prepend_known buffer.old (R.remaining reader.old))
        (prepend_known buffer.new (R.remaining reader.new))) }
    ensures err { IfErr result (λ error. IfSome (prepend_known buffer.old (R.remaining reader.old))
        (λ bytes. MayStopAt kind number bytes error)) }
{
    let entry = match next_entry(kind, ObjectType::Commit, None, buffer, reader) {
        Ok(entry) => entry,
        Err(error) => return Err(error_at(number, error)),
    };
    let contents = &buffer.bytes()[..entry.size];
    let commit = new_commit(alloc, kind, number, entry.id, contents)?;
    buffer.consume(entry.size + 1);
    Ok(commit)
}

/// Why the stream gives no entry of this number.
fn error_at(number: usize, error: StreamError) -> CommitsError
    ensures { result ≡ commits_error_at number error }
{
    match error {
        StreamError::Entry(error) => CommitsError::Entry(number, error),
        StreamError::Read(failure) => CommitsError::from(failure),
    }
}
