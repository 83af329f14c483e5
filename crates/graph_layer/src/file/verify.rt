//! Checks of what one layer says.

mod lists;
mod statistics;

ghost use Rattle.std.specs.Prelude.{◌≡◌, ◌≢◌, ◌<◌, ◌^◌, length, IfOk, MatchResult};
ghost use Rattle.gix_hash_core.specs.Digest.{digest_of};

use crate::file::verify::statistics::Statistics;
use crate::file::{Commit, File, Position};
use gix_hash_core::{ObjectId, digest};
use graph_format::fault::{CommitFault, LayerFault};
use graph_format::parents::ParentError;
use std::alloc::{AllocError, Global};
use std::collections::HashMap;
use thiserror::Error;

/// The checksum of a layer is not the digest of the bytes before it: the section "TRAILER".
#[derive(Debug, Clone, Copy, PartialEq, Eq, Error)]
#[error("ChecksumMismatch")]
pub struct ChecksumMismatch;

impl File {
    /// The digest of all bytes before the checksum, by the file's kind of hash, where it equals the
    /// checksum: the section "TRAILER". Where they differ, the error is `ChecksumMismatch`.
    #[tactic(auto, using(crate::proofs::ChecksumLemmas::checksum_laws))]
    pub fn verify_checksum(&self) -> Result<ObjectId, ChecksumMismatch>
        ensures digest { IfOk result (λ id. id ≡ digest_of self.now.kind self.now.body) }
        ensures trailer { MatchResult result
            (λ _. self.now.checksum ≡ digest_of self.now.kind self.now.body)
            (λ _. self.now.checksum ≢ digest_of self.now.kind self.now.body) }
    {
        let shared = self.shared();
        let bytes = shared.bytes.as_slice();
        let actual = digest(self.object_hash(), &bytes[..shared.layout.trailer_start]);
        if actual.as_oid() == self.checksum() {
            Ok(actual)
        } else {
            Err(ChecksumMismatch)
        }
    }
}

/// The statistics of a layer, gathered by [`File::traverse`].
#[derive(Debug, Drop, PartialEq, Eq)]
pub struct Outcome {
    /// The greatest generation number, 0 where there is no commit.
    pub max_generation: u32,
    /// The least generation number, 0 where there is no commit.
    pub min_generation: u32,
    /// The greatest number of parents, 0 where there is no commit.
    pub max_parents: u32,
    /// The number of commits.
    pub num_commits: u32,
    /// For each number of parents that some commit has, the number of commits that have it.
    pub parent_counts: HashMap<u32, u32>,
}

impl Outcome {
    ghost use Rattle.graph_layer.specs.Traverse.{IsCopyOfLayer};

    /// An equal outcome. The error is that an allocation failed.
    pub fn try_clone(&self) -> Result<Outcome, AllocError>
        ensures { IfOk result (IsCopyOfLayer self.now) }
    {
        Ok(Outcome {
            parent_counts: self.parent_counts.clone()?,
            ..*self
        })
    }
}

/// Why a layer is refused: the first of its checks that fails, in their order, or a failed
/// allocation. Positions are those of the layer.
#[derive(Debug, Drop, PartialEq, Eq, Error)]
pub enum TraverseError<E> {
    /// The checksum is not the digest of the bytes before it ("TRAILER").
    #[error("Checksum")]
    Checksum,
    /// The file is named as a layer of a chain, and not after its checksum.
    #[error("FileName")]
    FileName,
    /// The fan's number at this byte is not the number of ids whose first byte is at most that. It
    /// is the least such byte ("OID Fanout").
    #[error("Fan")]
    Fan { byte: u8 },
    /// The id at this position is null ("OID Lookup").
    #[error("NullId")]
    NullId { pos: Position },
    /// The id at this position is not above the one before it ("OID Lookup").
    #[error("Order")]
    Order { pos: Position },
    /// The root tree of the commit at this position is null ("Commit Data").
    #[error("NullTree")]
    NullTree { pos: Position },
    /// The processor answered this error on the commit at this position.
    #[error("Processor")]
    Processor { pos: Position, error: E },
    /// The parents of the commit at this position cannot be decoded ("Commit Data", "Extra Edge
    /// List").
    #[error("Parent")]
    Parent { pos: Position, error: ParentError },
    /// An allocation failed.
    #[error("OutOfMemory")]
    OutOfMemory,
}

impl<E> TraverseError<E> {
    ghost use Rattle.graph_layer.specs.Traverse.{layer_refusal, commit_refusal};

    /// The error for a fault of the layer as a whole.
    fn of_layer(fault: LayerFault) -> TraverseError<E>
        ensures { result ≡ layer_refusal fault }
    {
        match fault {
            LayerFault::Checksum => TraverseError::Checksum,
            LayerFault::FileName => TraverseError::FileName,
            LayerFault::Fan { byte } => TraverseError::Fan { byte },
        }
    }

    /// The error for a fault of the ids of the commit at a position.
    fn of_commit(pos: Position, fault: CommitFault) -> TraverseError<E>
        ensures { result ≡ commit_refusal pos.0 fault }
    {
        match fault {
            CommitFault::NullId => TraverseError::NullId { pos },
            CommitFault::Order => TraverseError::Order { pos },
            CommitFault::NullTree => TraverseError::NullTree { pos },
        }
    }
}

impl<E> From<AllocError> for TraverseError<E> {
    ghost use Rattle.std.specs.Prelude.{◌≡◌};
    ghost use Rattle.graph_layer.specs.declared.file.verify.TraverseError.TheVariants.{OutOfMemory};

    ghost from_gives = { λ _ error. error ≡ OutOfMemory };

    fn from(_: AllocError) -> TraverseError<E> {
        TraverseError::OutOfMemory
    }
}

impl<'a> Commit<'a> {
    ghost use Rattle.std.specs.Fn.{TakesAt};
    ghost use Rattle.graph_layer.specs.Called.{CalledOn, InLayer};
    ghost use Rattle.graph_layer.specs.Commit.{commit_layer, commit_pos, commit_parents};
    ghost use Rattle.graph_format.specs.Points.{Agrees};
    ghost use Rattle.graph_layer.specs.Traverse.{traverse_points_at, traverse_cause};
    ghost use Rattle.graph_layer.specs.ListedParents.{AreListed, IsCount};

    /// Checks the commit's ids, calls the processor on it, and decodes its parents, by what was
    /// counted in the extra edge list of its layer. The answer is the number of its parents.
    fn check<F, E>(
        &self,
        counts: &[Option<u32>],
        processor: &mut F,
    ) -> Result<u32, TraverseError<E>>
    where
        F: FnMut(&Commit<'a>) -> Result<(), E>,
        requires counts { AreListed IsCount (commit_layer self.now).edges counts.now }
        requires callable { (state : F) → TakesAt F.FnMut state self.now }
        requires few { length (commit_parents self.now).positions < 2 ^ 32 }
        ensures agrees { Agrees (CalledOn F.FnMut (InLayer (commit_layer self.now)))
            (traverse_points_at (commit_layer self.now) (commit_pos self.now))
            processor.old processor.new traverse_cause result }
        ensures parents { IfOk result (λ parents.
            parents ≡ length (commit_parents self.now).positions) }
    {
        let pos = self.position();
        if let Some(fault) = self.fault() {
            return Err(TraverseError::of_commit(pos, fault));
        }
        if let Err(error) = processor(self) {
            return Err(TraverseError::Processor { pos, error });
        }
        match self.count_parents_by(counts) {
            Ok(parents) => Ok(parents),
            Err(error) => Err(TraverseError::Parent { pos, error }),
        }
    }
}

impl File {
    ghost use Rattle.graph_layer.specs.Called.{MayBeCalled, CalledOn, InLayer};
    ghost use Rattle.graph_format.specs.Points.{Agrees};
    ghost use Rattle.graph_layer.specs.Traverse.{traverse_points, traverse_cause, FileStats};

    /// Checks the layer, and calls the processor on its commits, in the order of their positions.
    ///
    /// The checks come in this order: the checksum ("TRAILER"), the name of the file, and the fan
    /// ("OID Fanout"); then of each commit its id, which is not null and is above the one before it
    /// ("OID Lookup"), the id of its root tree, which is not null ("Commit Data"), the processor,
    /// and the decoding of its parents ("Extra Edge List"). The error names the first that fails. A
    /// file whose name is `graph-`, some text and `.graph` is named right where the text is the
    /// checksum in hexadecimal, and any other name is right.
    ///
    /// Where the answer is `Ok`, the processor accepted every commit, and the outcome holds the
    /// statistics of all of them. Otherwise it was called once on each commit of a prefix of the
    /// layer, and accepted them; only with `Processor` did it refuse the last of them. With
    /// `Processor` and `Parent` the last call was on the commit that the error names, and with
    /// `NullId`, `Order` and `NullTree` on the one before that commit. With `Checksum`, `FileName`
    /// and `Fan` there was no call. `OutOfMemory` means that an allocation failed; no check that
    /// comes before the last call failed then.
    pub fn traverse<'a, F, E>(
        &'a self,
        alloc: Global,
        processor: &mut F,
    ) -> Result<Outcome, TraverseError<E>>
    where
        F: FnMut(&Commit<'a>) -> Result<(), E>,
        requires { MayBeCalled F.FnMut (InLayer self.now) }
        ensures agrees { Agrees (CalledOn F.FnMut (InLayer self.now)) (traverse_points self.now)
            processor.old processor.new traverse_cause result }
        ensures outcome { IfOk result (FileStats self.now) }
    {
        if let Some(fault) = self.layer_fault() {
            return Err(TraverseError::of_layer(fault));
        }
        let commits = self.num_commits();
        let counts = self.count_lists(alloc)?;
        let mut statistics = Statistics::new(alloc);
        for number in 0..commits {
            let commit = self.commit_at(Position(number));
            let parents = commit.check(&counts, processor)?;
            statistics.add(&commit, parents)?;
        }
        Ok(statistics.outcome(alloc)?)
    }
}
