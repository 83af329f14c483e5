//! The positions of parents: those of the commits that are handed in follow those of the graph
//! below, in the order of their ids.

ghost use Rattle.std.specs.Prelude.{◌≡◌, ◌↔◌, ◌⊎◌, ◌<◌, ◌+◌, ◌++◌, ℕ, List, All, IfOk, IfErr};
ghost use Rattle.std.specs.Prelude.{IsTrue, IfSome, IfNone, is_none, Some, None, length, position};
ghost use Rattle.std.specs.Prelude.{slice_get};
ghost use Rattle.gix_chunk_core.specs.FirstFault.{first_below};
ghost use Rattle.gix_hash_core.specs.Oid.{oid_bytes};
ghost use Rattle.graph_levels.specs.ParentLists.{commit_count, parent_list};
ghost use Rattle.graph_format.specs.Lookup.{scan};
ghost use Rattle.graph_writer.specs.NewCommits.{new_ids, AreFirst};
ghost use Rattle.graph_writer.specs.NewLayers.{times_in_order};
ghost use Rattle.graph_writer.specs.WriteRefusal.{parent_at};
ghost use Rattle.graph_writer.specs.declared.commit.NewCommit.{NewCommit};

use crate::commit::WriteError;
use crate::guide::{Guesses, Guide};
use crate::handed::{Handed, HandedCommit};
use crate::ids::{are_one, compare};
use crate::view::CommitView;
use gix_hash_core::oid;
use graph_history::Checked;
use graph_levels::ParentLists;
use std::alloc::{AllocError, Global};
use std::cmp::Ordering;

/// Where each commit stands whose id a parent may have.
#[derive(Drop)]
pub(crate) struct Known<'a, C: CommitView> {
    /// The graph below, if there is one.
    pub(crate) below: Option<&'a Checked<'a>>,
    /// The number of its commits.
    pub(crate) start: u32,
    /// The commits that are handed in.
    pub(crate) commits: &'a Handed<'a, C>,
    /// Their numbers, in the order of their ids.
    pub(crate) order: &'a [usize],
}

impl<C: CommitView> Known<'_, C> {
    ghost use Rattle.graph_writer.specs.Known.{IsKnown, ids_below, new_ids_in_order};
    ghost use Rattle.graph_writer.specs.Known.{is_unknown_to, all_ids};
    ghost use Rattle.graph_writer.specs.declared.commit.WriteError.TheVariants.{Parent};

    /// The id of the commit at a place in the order of ids.
    #[inline(always)]
    fn id_at(&self, place: usize) -> oid<'_>
        requires known { IsKnown self.now }
        requires place { place < length self.now.order.now }
        ensures { slice_get (new_ids_in_order self.now) place ≡ Some (oid_bytes result) }
    {
        let commit = self.commits.at(self.order[place]);
        commit.id()
    }

    /// The place of the commit with an id among those that are handed in, in the order of ids.
    fn search(&self, id: oid<'_>) -> Option<usize>
        requires { IsKnown self.now }
        ensures some { IfSome result (λ place.
            slice_get (new_ids_in_order self.now) place ≡ Some (oid_bytes id.entry)) }
        ensures none { is_none result
            ≡ is_none (scan (new_ids self.now.commits.now) (oid_bytes id.entry)) }
    {
        let mut low = 0;
        let mut high = self.order.len();
        while low < high {
            let middle = low + (high - low) / 2;
            match compare(self.id_at(middle), id) {
                Ordering::Equal => return Some(middle),
                Ordering::Less => low = middle + 1,
                Ordering::Greater => high = middle,
            }
        }
        None
    }

    /// The same, where this place is looked at first.
    #[inline(always)]
    fn place_of(&self, id: oid<'_>, guess: u32) -> Option<usize>
        requires { IsKnown self.now }
        ensures some { IfSome result (λ place.
            slice_get (new_ids_in_order self.now) place ≡ Some (oid_bytes id.entry)) }
        ensures none { is_none result
            ≡ is_none (scan (new_ids self.now.commits.now) (oid_bytes id.entry)) }
    {
        let place = guess as usize;
        if place < self.order.len() && are_one(self.id_at(place), id) {
            Some(place)
        } else {
            self.search(id)
        }
    }

    /// The position of the commit with an id.
    #[inline(always)]
    fn position_of(&self, id: oid<'_>, guess: u32) -> Option<u32>
        requires { IsKnown self.now }
        ensures none { is_none result ≡ is_unknown_to self.now (oid_bytes id.entry) }
        ensures within { IfSome result (λ p. p < self.now.start + length self.now.commits.now) }
        ensures first { IfSome result (λ p.
            scan (all_ids self.now) (oid_bytes id.entry) ≡ Some p) }
    {
        match self.place_of(id, guess) {
            Some(place) => Some(self.start + place as u32),
            None => self.position_below(id),
        }
    }

    /// The position in the graph below of the commit with an id.
    fn position_below(&self, id: oid<'_>) -> Option<u32>
        ensures { result ≡ scan (ids_below self.now) (oid_bytes id.entry) }
    {
        let graph = self.below?;
        let pos = graph.find(id)?;
        Some(pos.0)
    }

    /// Puts the positions of a commit's parents in place of those that are there. The answer is the
    /// number of the first parent that is not known, if there is one. The guesses are taken one by
    /// one.
    fn put_parents(
        &self,
        commit: &HandedCommit<'_, C>,
        guesses: &mut Guesses<'_, C>,
        positions: &mut Vec<u32>,
    ) -> Result<Option<usize>, AllocError>
        requires { IsKnown self.now }
        ensures unknown { IfOk result (λ unknown.
            unknown ≡ position (is_unknown_to self.now) commit.now.parents.items) }
        ensures within { IfOk result (λ unknown. IfNone unknown
            (All (λ p. p < self.now.start + length self.now.commits.now) positions.new.items)) }
        ensures ids { IfOk result (λ unknown. IfNone unknown
            (AreFirst (all_ids self.now) positions.new.items commit.now.parents.items)) }
    {
        positions.clear();
        for number in 0..commit.parent_count() {
            match self.position_of(commit.parent(number), guesses.next()) {
                Some(position) => positions.push(position)?,
                None => return Ok(Some(number)),
            }
        }
        Ok(None)
    }

    /// The number of the first parent of a commit that is not known, if there is one.
    fn unknown_parent(&self, commit: &HandedCommit<'_, C>) -> Option<usize>
        requires { IsKnown self.now }
        ensures { result ≡ position (is_unknown_to self.now) commit.now.parents.items }
    {
        for number in 0..commit.parent_count() {
            match self.position_of(commit.parent(number), 0) {
                Some(_) => {}
                None => return Some(number),
            }
        }
        None
    }

    /// The refusal of the first parent that is not known, in the order in which the commits came:
    /// one of an earlier commit than this, or else this parent of this commit, which is not known.
    fn first_unknown(&self, number: usize, parent: usize) -> WriteError
        requires known { IsKnown self.now }
        requires number { number < length self.now.commits.now }
        requires unknown { parent_at (ids_below self.now) self.now.commits.now number
            ≡ Some (Parent number parent) }
        ensures { first_below (parent_at (ids_below self.now) self.now.commits.now)
            (length self.now.commits.now) ≡ Some result }
    {
        for earlier in 0..number {
            let commit = self.commits.at(earlier);
            match self.unknown_parent(&commit) {
                Some(parent) => return WriteError::Parent(earlier, parent),
                None => {}
            }
        }
        WriteError::Parent(number, parent)
    }

    /// The positions of the parents of each commit, in the order of ids, and the times of the
    /// commits: they lie beside the parents in memory.
    pub(crate) fn resolve(
        &self,
        alloc: Global,
        guide: &Guide,
    ) -> Result<(ParentLists, Vec<u64>), WriteError>
        requires { IsKnown self.now }
        ensures count { IfOk result (λ found.
            commit_count found.0 ≡ length self.now.order.now) }
        ensures within { IfOk result (λ found. (p : ℕ) → p < commit_count found.0
            → All (λ q. q < self.now.start + length self.now.commits.now) (parent_list found.0 p)) }
        ensures ids { IfOk result (λ found. (p i : ℕ) (commit : NewCommit)
            → slice_get self.now.order.now p ≡ Some i
            → slice_get self.now.commits.now i ≡ Some commit
            → AreFirst (all_ids self.now) (parent_list found.0 p) commit.parents.items) }
        ensures times { IfOk result (λ found. found.1.items
            ≡ times_in_order self.now.commits.now self.now.order.now) }
        ensures found { IfOk result (λ _.
            first_below (parent_at (ids_below self.now) self.now.commits.now)
            (length self.now.commits.now) ≡ None) }
        ensures unknown { IfErr result (λ e. (e ≡ WriteError.OutOfMemory)
            ⊎ (first_below (parent_at (ids_below self.now) self.now.commits.now)
            (length self.now.commits.now) ≡ Some e)) }
    {
        let mut guesses = Guesses::of(alloc, guide, self.commits, self.order);
        let mut lists = ParentLists::new(alloc);
        let mut times = Vec::with_capacity(alloc, self.order.len())?;
        let mut positions = Vec::new(alloc);
        for place in 0..self.order.len() {
            guesses.advance_to(place)?;
            let number = self.order[place];
            let commit = self.commits.at(number);
            match self.put_parents(&commit, &mut guesses, &mut positions)? {
                Some(parent) => return Err(self.first_unknown(number, parent)),
                None => lists.push(&positions)?,
            }
            times.push_reserved(commit.time());
        }
        Ok((lists, times))
    }
}
