//! Parts of files, as a source of commits.

ghost use Rattle.std.proofs.Props.{props};
ghost use Rattle.std.specs.Prelude.{◌≡◌, ◌≢◌, ◌⊎◌, ℕ, Err, IfErr, IfOk, List, Ok};
ghost use Rattle.graph_parts.specs.OfTree.{AreOfTree};
ghost use Rattle.graph_parts.specs.PartFiles.{commits_in_all};
ghost use Rattle.graph_parts.specs.Shown.{AreGraphParts, files_of};
ghost use Rattle.graph_parts.specs.Spots.{LiesInFile};
ghost use Rattle.graph_unchecked.specs.AtMostOne.{graph_parts_prop};
ghost use Rattle.graph_parts.specs.declared.parts.GraphParts.{GraphParts};
ghost use Rattle.graph_unchecked.specs.PartSource.{IsWordOf, KnownParts, PartsTell, known_parts};
ghost use Rattle.graph_unchecked.specs.PartSource.{word_total};
ghost use Rattle.graph_unchecked.specs.Trusted.{IsTrustedAt};
ghost use Rattle.graph_unchecked.specs.Unread.{failures_after_reads, failures_met};
ghost use Rattle.graph_unchecked.specs.declared.unread.Unread.TheVariants.{Device};

use crate::fields::words_in;
use crate::reads::{read_fields, read_number, read_word};
use crate::unread::Unread;
use commit_search::CommitSource;
use gix_commitgraph::Position;
use gix_commitgraph::file::commit::{ExtraEdge, ParentEdge};
use gix_commitgraph::law::graph::the_history_of_a_graph_is_that_of_its_layers;
use graph_folder::folder::Folder;
use graph_parts::parts::GraphParts;
use std::alloc::Global;

/// The commits of a trusted graph, of whose files parts are read. Where it is known what stands in
/// the folder, the parts that are kept are of its files.
///
/// No call answers `Device`: that a read failed is kept, and nothing more is read then.
/// [`TrustedCommits::unless_failed`] answers it. The parents of so many commits are read alone, and
/// then no more.
#[derive(Drop)]
pub struct TrustedCommits<'a, T: Folder> {
    pub(crate) alloc: Global,
    /// The folder in which the graph was opened.
    pub folder: &'a mut T,
    /// The parts that were read.
    pub parts: &'a mut GraphParts,
    /// How many reads the folder had failed before.
    pub(crate) failures: u64,
    /// Whether one has failed since. Nothing more is read then.
    pub(crate) failed: bool,
    /// The parents of how many more commits are read.
    pub(crate) left: u32,
    ghost right: { AreGraphParts parts.now } by { graph_parts_prop parts.now },
    ghost of: { AreOfTree (T.tree folder.now) parts.now } by { Prim.hlevel props },
    ghost counted: { T.failure_count folder.now ≡ failures_met failed failures },
}

impl<'a, T: Folder> TrustedCommits<'a, T> {
    /// The commits of the graph of which these are parts, in the folder in which it was opened.
    pub fn new(alloc: Global, folder: &'a mut T, parts: &'a mut GraphParts) -> TrustedCommits<'a, T>
        requires { (path : List ℕ) × IsTrustedAt (T.tree folder.old) path parts.old }
        ensures known { ⟦<TrustedCommits<'a, T> as CommitSource>⟧.known result
            ≡ known_parts (T.tree folder.old) parts.old (T.failure_count folder.old)
            folder.entry.ghost_name parts.entry.ghost_name }
        ensures parts { result.parts.now ≡ parts.old }
    {
        let failures = folder.failures();
        TrustedCommits {
            alloc,
            folder,
            parts,
            failures,
            failed: false,
            left: u32::MAX,
        }
    }

    /// What a search over the commits answers, unless a read failed.
    ///
    /// # Errors
    ///
    /// `Device` where a read of the files has failed since these commits were made, and else the
    /// error of the answer.
    pub fn unless_failed<A: Drop>(&self, answer: Result<A, Unread>) -> Result<A, Unread>
        requires { IfErr answer (λ error. error ≢ Device) }
        ensures answer { IfOk result (λ found. answer ≡ Ok found) }
        ensures error { IfErr result (λ error. (error ≡ Device) ⊎ (answer ≡ Err error)) }
        ensures failures { T.failure_count self.now.folder.now
            ≡ failures_after_reads result
            (⟦<TrustedCommits<'a, T> as CommitSource>⟧.known self.now).failures }

        // More was read of the same files: the parts are those of the same graph.
        ensures graph { (path : List ℕ) (before : GraphParts)
            → files_of before ≡ files_of self.now.parts.now
            → IsTrustedAt (T.tree self.now.folder.now) path before
            → IsTrustedAt (T.tree self.now.folder.now) path self.now.parts.now }
    {
        if !self.failed {
            return answer;
        }
        Err(Unread::Device)
    }
}

impl<'a, T: Folder> CommitSource for TrustedCommits<'a, T> {
    type Error = Unread;

    ghost Known = { KnownParts };

    ghost known = { λ s. known_parts (T.tree s.folder.now) s.parts.now s.failures
        s.folder.ghost_name s.parts.ghost_name };

    ghost says = { λ s t. PartsTell (T.tree s.folder.now) s.parts.now t };

    ghost count = { λ k. commits_in_all k.files };

    ghost lies = { λ k p l. LiesInFile k.files p l };

    ghost words = { λ k l. word_total k.files l };

    ghost is_listed = { λ k p index. IsWordOf k.files p index };

    ghost may_fail = { λ _ error. error ≢ Device };

    #[tactic(auto, using(crate::proofs::SourceLemmas::as_many))]
    fn num_commits(&self) -> u32 {
        the_history_of_a_graph_is_that_of_its_layers();
        self.parts.commits()
    }

    fn generation_number(&mut self, pos: Position) -> Result<u32, Unread> {
        if self.failed {
            return Err(Unread::NotByParts);
        }
        match read_number(self.alloc, self.folder, self.parts, pos) {
            Err(Unread::Device) => {
                self.failed = true;
                Err(Unread::NotByParts)
            }
            answer => answer,
        }
    }

    fn parent_fields(&mut self, pos: Position) -> Result<(ParentEdge, ParentEdge), Unread> {
        if self.failed || self.left == 0 {
            return Err(Unread::NotByParts);
        }
        self.left -= 1;
        match read_fields(self.alloc, self.folder, self.parts, pos) {
            Err(Unread::Device) => {
                self.failed = true;
                Err(Unread::NotByParts)
            }
            answer => answer,
        }
    }

    #[tactic(auto, using(crate::proofs::SourceLemmas::as_many))]
    fn layer_of(&self, pos: Position) -> usize {
        self.parts.layer_of(pos)
    }

    fn words_of(&self, _: Position, layer: usize, _: u32) -> u32 {
        words_in(self.parts, layer)
    }

    fn listed_parent(
        &mut self,
        pos: Position,
        layer: usize,
        index: u32,
    ) -> Result<ExtraEdge, Unread> {
        if self.failed {
            return Err(Unread::NotByParts);
        }
        match read_word(self.alloc, self.folder, self.parts, pos, layer, index) {
            Err(Unread::Device) => {
                self.failed = true;
                Err(Unread::NotByParts)
            }
            answer => answer,
        }
    }
}
