//! Many questions about one graph, of whose files parts are read and kept.

ghost use Rattle.std.specs.Prelude.{◌≡◌, ◌∷◌, ℕ, All, List, IfOk, Option};
ghost use Rattle.std.specs.Borrow.{sem};
ghost use Rattle.std.specs.Option.{ForSome};
ghost use Rattle.gix_hash_core.specs.Oid.{oid_bytes};
ghost use Rattle.gix_commitgraph.specs.Graph.{total};
ghost use Rattle.graph_folder.specs.Tree.{Tree};
ghost use Rattle.graph_parts.specs.OpenedParts.{PathPartsWereRead};
ghost use Rattle.graph_unchecked.specs.Lending.{LendsParts};
ghost use Rattle.graph_unchecked.specs.Trusted.{AreParentsFound, IsCommitFound, IsTrustedAt};
ghost use Rattle.graph_unchecked.specs.Unchecked.{IsAnswerAt, IsComparedUnchecked, IsFoundAmong};
ghost use Rattle.graph_unchecked.specs.Unchecked.{IsFoundBetween, IsToldUnchecked};
ghost use Rattle.graph_unchecked.specs.Unchecked.{IsWalkUnchecked};
ghost use Rattle.graph_unchecked.specs.Unread.{failures_after_reads};

use crate::record::{found_commit, found_parents};
use crate::search::{compared_among, told_between, walk_between_ids};
use crate::unread::Unread;
use answers::{Answer, IdComparison};
use commit_search::FewSearcher;
use gix_commitgraph::Position;
use gix_hash_core::{Kind, ObjectId, oid};
use graph_bases::FewComparer;
use graph_folder::folder::Folder;
use graph_parts::opening::open_parts;
use graph_parts::parts::{GraphParts, StoredCommit};
use std::alloc::Global;
use std::marker::Model;

/// A graph that is trusted, for many questions: its files are read by parts, which are kept from
/// one question to the next, as is the memory of the searches.
///
/// The graph is not checked. In one that is right the answers are exact. In any other a yes and a
/// walk still name what is there, merge bases are common ancestors, and a no promises nothing.
///
/// The folder of each question is the one in which the graph was opened. Each question may answer
/// `Device` where a read failed, `OutOfMemory`, and `NotByParts` where the graph is to be opened
/// whole and checked. More can be asked after each of them.
///
/// A contract sees it as the parts of the files that were read.
#[derive(Drop)]
pub struct TrustedGraph {
    alloc: Global,
    parts: GraphParts,
    searcher: FewSearcher,
    comparer: FewComparer,
}

impl Model for TrustedGraph {
    ghost use Rattle.graph_parts.specs.contracts.parts.GraphParts.{the_row};
    ghost use Rattle.graph_parts.specs.declared.parts.GraphParts.{GraphParts};

    ghost Value = { GraphParts };

    ghost coded = { the_row.coded };

    ghost view = { λ graph. graph.parts };
}

impl TrustedGraph {
    /// The graph of what stands at the path: of each layer the first bytes are read.
    ///
    /// # Errors
    ///
    /// `Device` where a read failed, `OutOfMemory`, and `NotByParts` where the graph is to be
    /// opened whole and checked.
    pub fn open<T: Folder>(
        alloc: Global,
        folder: &mut T,
        path: &str,
    ) -> Result<TrustedGraph, Unread>
        ensures graph { IfOk result (IsTrustedAt (T.tree folder.old) path.now) }
        ensures given { IfOk result (PathPartsWereRead T.gives T.gives_part path.now) }

        // A failed device is answered where a read failed, and nothing else is answered there.
        ensures failures { T.failure_count folder.new
            ≡ failures_after_reads result (T.failure_count folder.old) }
        ensures tree { T.tree folder.new ≡ T.tree folder.old }
    {
        let opened = open_parts(alloc, folder, path)?;
        match opened {
            Some(parts) => Ok(TrustedGraph {
                alloc,
                parts,
                searcher: FewSearcher::new(alloc),
                comparer: FewComparer::new(alloc),
            }),
            None => Err(Unread::NotByParts),
        }
    }

    /// How many commits the graph has.
    pub fn num_commits(&self) -> u32
        requires { (known : Option Tree) × (path : List ℕ) × IsTrustedAt known path self.now }
        ensures { (known : Option Tree) (path : List ℕ) → IsTrustedAt known path self.now
            → ForSome known (λ tree. IsAnswerAt tree path (λ layers count. count ≡ total layers)
            result) }
    {
        self.parts.commits()
    }

    /// The kind of the ids.
    pub fn kind(&self) -> Kind
        requires { (known : Option Tree) × (path : List ℕ) × IsTrustedAt known path self.now }
        ensures { (known : Option Tree) (path : List ℕ) → IsTrustedAt known path self.now
            → ForSome known (λ tree. IsAnswerAt tree path
            (λ layers kind. All (λ layer. layer.kind ≡ kind) layers) result) }
    {
        self.parts.kind()
    }

    /// The parts that were read, to be read on.
    pub fn parts(&mut self) -> &mut GraphParts
        ensures* lends { sem 𝓛 (LendsParts self.entry result) }
        ensures parts { result.now ≡ self.old }
    {
        &mut self.parts
    }

    /// Whether the commit with the first id is an ancestor of the one with the second, or the same.
    pub fn is_ancestor<T: Folder>(
        &mut self,
        folder: &mut T,
        first: oid<'_>,
        second: oid<'_>,
    ) -> Result<Answer<bool>, Unread>
        requires { (path : List ℕ) × IsTrustedAt (T.tree folder.old) path self.old }
        ensures graph { (path : List ℕ) → IsTrustedAt (T.tree folder.old) path self.old
            → IsTrustedAt (T.tree folder.old) path self.new }
        ensures answer { (path : List ℕ) → IsTrustedAt (T.tree folder.old) path self.old
            → ForSome (T.tree folder.old) (λ tree. IfOk result
            (IsAnswerAt tree path (IsFoundBetween IsToldUnchecked
            (oid_bytes first.entry) (oid_bytes second.entry)))) }

        // A failed device is answered where a read failed, and nothing else is answered there.
        ensures failures { T.failure_count folder.new
            ≡ failures_after_reads result (T.failure_count folder.old) }
        ensures tree { T.tree folder.new ≡ T.tree folder.old }
    {
        let (searcher, parts) = (&mut self.searcher, &mut self.parts);
        told_between(searcher, self.alloc, folder, parts, first, second)
    }

    /// The ids on a shortest walk along parents from the commit with the first id to the one with
    /// the second, both included; `None` where there is no walk. Which of several shortest walks is
    /// answered is left open.
    pub fn ancestor_walk<T: Folder>(
        &mut self,
        folder: &mut T,
        first: oid<'_>,
        second: oid<'_>,
    ) -> Result<Answer<Option<Vec<ObjectId>>>, Unread>
        requires { (path : List ℕ) × IsTrustedAt (T.tree folder.old) path self.old }
        ensures graph { (path : List ℕ) → IsTrustedAt (T.tree folder.old) path self.old
            → IsTrustedAt (T.tree folder.old) path self.new }
        ensures answer { (path : List ℕ) → IsTrustedAt (T.tree folder.old) path self.old
            → ForSome (T.tree folder.old) (λ tree. IfOk result
            (IsAnswerAt tree path (IsFoundBetween IsWalkUnchecked
            (oid_bytes first.entry) (oid_bytes second.entry)))) }

        // A failed device is answered where a read failed, and nothing else is answered there.
        ensures failures { T.failure_count folder.new
            ≡ failures_after_reads result (T.failure_count folder.old) }
        ensures tree { T.tree folder.new ≡ T.tree folder.old }
    {
        let (searcher, parts) = (&mut self.searcher, &mut self.parts);
        walk_between_ids(searcher, self.alloc, folder, parts, first, second)
    }

    /// The merge bases of the commit with the first id and those with the others, the least
    /// position first, and how far they have come apart.
    pub fn compare<T: Folder>(
        &mut self,
        folder: &mut T,
        first: oid<'_>,
        others: &[ObjectId],
    ) -> Result<Answer<IdComparison<Vec<ObjectId>>>, Unread>
        requires { (path : List ℕ) × IsTrustedAt (T.tree folder.old) path self.old }
        ensures graph { (path : List ℕ) → IsTrustedAt (T.tree folder.old) path self.old
            → IsTrustedAt (T.tree folder.old) path self.new }
        ensures answer { (path : List ℕ) → IsTrustedAt (T.tree folder.old) path self.old
            → ForSome (T.tree folder.old) (λ tree. IfOk result
            (IsAnswerAt tree path (IsFoundAmong IsComparedUnchecked
            (oid_bytes first.entry ∷ others.now)))) }

        // A failed device is answered where a read failed, and nothing else is answered there.
        ensures failures { T.failure_count folder.new
            ≡ failures_after_reads result (T.failure_count folder.old) }
        ensures tree { T.tree folder.new ≡ T.tree folder.old }
    {
        let (comparer, parts) = (&mut self.comparer, &mut self.parts);
        compared_among(comparer, self.alloc, folder, parts, first, others)
    }

    /// The position of the commit with an id, and what is stored of it, in any graph.
    pub fn find<T: Folder>(
        &mut self,
        folder: &mut T,
        id: oid<'_>,
    ) -> Result<Option<(Position, StoredCommit)>, Unread>
        requires { (path : List ℕ) × IsTrustedAt (T.tree folder.old) path self.old }
        ensures graph { (path : List ℕ) → IsTrustedAt (T.tree folder.old) path self.old
            → IsTrustedAt (T.tree folder.old) path self.new }
        ensures answer { (path : List ℕ) → IsTrustedAt (T.tree folder.old) path self.old
            → ForSome (T.tree folder.old) (λ tree. IfOk result
            (IsAnswerAt tree path (IsCommitFound (oid_bytes id.entry)))) }

        // A failed device is answered where a read failed, and nothing else is answered there.
        ensures failures { T.failure_count folder.new
            ≡ failures_after_reads result (T.failure_count folder.old) }
        ensures tree { T.tree folder.new ≡ T.tree folder.old }
    {
        found_commit(self.alloc, folder, &mut self.parts, id)
    }

    /// The ids of the parents of the commit with an id, first parent first, in any graph.
    pub fn parents<T: Folder>(
        &mut self,
        folder: &mut T,
        id: oid<'_>,
    ) -> Result<Answer<Vec<ObjectId>>, Unread>
        requires { (path : List ℕ) × IsTrustedAt (T.tree folder.old) path self.old }
        ensures graph { (path : List ℕ) → IsTrustedAt (T.tree folder.old) path self.old
            → IsTrustedAt (T.tree folder.old) path self.new }
        ensures answer { (path : List ℕ) → IsTrustedAt (T.tree folder.old) path self.old
            → ForSome (T.tree folder.old) (λ tree. IfOk result
            (IsAnswerAt tree path (AreParentsFound (oid_bytes id.entry)))) }

        // A failed device is answered where a read failed, and nothing else is answered there.
        ensures failures { T.failure_count folder.new
            ≡ failures_after_reads result (T.failure_count folder.old) }
        ensures tree { T.tree folder.new ≡ T.tree folder.old }
    {
        found_parents(self.alloc, folder, &mut self.parts, id)
    }
}
