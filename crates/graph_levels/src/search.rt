//! A search depth first, without recursion: it goes through the parents of a commit before it
//! computes the level of that commit. Older commits are visited first, so that parents mostly have
//! their levels already.

ghost use Rattle.std.specs.Prelude.{◌≡◌, ◌<◌, ◌≤◌, ◌+◌, ◌^◌, ℕ, List, length, All, Contains};
ghost use Rattle.std.specs.Prelude.{IfOk, IfErr, IsErrOf, OnOk, IfSome, IfNone, slice_index};
ghost use Rattle.std.specs.Prelude.{true, false, slice_index_or, slice_get, Some, ◌-◌};
ghost use Rattle.graph_walks.specs.History.{Node};
ghost use Rattle.graph_walks.specs.Generations.{AreLocal};
ghost use Rattle.graph_walks.specs.Dates.{AreRight};
ghost use Rattle.graph_levels.specs.OnTop.{FitTogether, IsLevelsRefusal, HasOnTop};
ghost use Rattle.graph_levels.specs.OnTop.{HasLevelGenerations, HasLevelDates, AreClosedBelow};
ghost use Rattle.graph_levels.specs.OnTop.{HasNoCycleOnTop, level_at};
ghost use Rattle.graph_levels.specs.ParentLists.{commit_count, parent_list};
ghost use Rattle.graph_levels.specs.SearchStates.{has_level, is_unseen, level_date, frame_at};
ghost use Rattle.graph_levels.specs.SearchStates.{FollowsFrom};
ghost use Rattle.graph_levels.specs.Searching.{state_in, HasLevel, IsUnderWay, HasFittingInput};
ghost use Rattle.graph_levels.specs.Searching.{steps_left, frame_on_top, parents_on_top};
ghost use Rattle.graph_levels.specs.Searching.{ContinuesSearch, IsVisit};
ghost use Rattle.graph_levels.specs.declared.level.State.TheVariants.{Unseen, Done};

use crate::level::{Frame, Level, LevelsError, State, Visit};
use crate::lists::ParentLists;
use crate::oldest::oldest_first;
use graph_walks::GENERATION_NUMBER_MAX;
use std::alloc::{AllocError, Global};

/// For how many visits is read at a time.
const BLOCK: usize = 64;

/// A search for levels. New commits are known by their numbers among themselves.
#[derive(Drop)]
pub(crate) struct Search<'a> {
    below: &'a [Level],
    parents: &'a ParentLists,
    times: &'a [u64],
    states: Vec<State>,
    stack: Vec<Frame>,
}

impl Search<'_> {
    /// What is known of the commit at a position.
    fn state_of(&self, position: u32) -> State
        requires { position < length self.now.below.now + length self.now.states.items }
        ensures { result ≡ state_in self.now position }
    {
        let position = position as usize;
        if position < self.below.len() {
            State::Done(self.below[position])
        } else {
            self.states[position - self.below.len()]
        }
    }

    /// The first of these parents, from a number on, that has no level yet.
    fn next_pending(&self, parents: &[u32], from: usize) -> Option<usize>
        requires { All (λ q. q < length self.now.below.now + length self.now.states.items)
            parents.now }
        ensures within { IfSome result (λ k. k < length parents.now) }
        ensures pending { IfSome result (λ k. ¬ HasLevel self.now (slice_index parents.now k)) }
        ensures before { IfSome result (λ k. (j : ℕ) → from ≤ j → j < k
            → HasLevel self.now (slice_index parents.now j)) }
        ensures none { IfNone result ((j : ℕ) → from ≤ j → j < length parents.now
            → HasLevel self.now (slice_index parents.now j)) }
    {
        for index in from..parents.len() {
            match self.state_of(parents[index]) {
                State::Done(_) => {}
                _ => return Some(index),
            }
        }
        None
    }

    /// The level of a commit with these parents, which all have theirs.
    fn level_of(&self, parents: &[u32], time: u64) -> Level
        requires within { All (λ q. q < length self.now.below.now + length self.now.states.items)
            parents.now }
        requires done { (k : ℕ) → k < length parents.now
            → HasLevel self.now (slice_index parents.now k) }
        requires dates { (k : ℕ) → k < length parents.now
            → level_date (state_in self.now (slice_index parents.now k)) < 2 ^ 64 - 1 }
        ensures { FollowsFrom self.now.below.now self.now.states.items parents.now time result }
    {
        let mut generation = 0;
        let mut date = 0;
        for parent in parents {
            if let State::Done(level) = self.state_of(*parent) {
                generation = generation.max(level.generation);
                date = date.max(level.date);
            }
        }
        Level {
            generation: generation.min(GENERATION_NUMBER_MAX - 1) + 1,
            date: time.max(date + 1),
        }
    }

    /// Begins to go through the parents of a commit.
    fn open(&mut self, commit: usize) -> Result<(), AllocError>
        requires going { IsUnderWay self.old }
        requires within { commit < commit_count self.old.parents.now }
        requires unseen { slice_index_or self.old.states.items commit Unseen ≡ Unseen }
        requires link { (j : ℕ) → j + 1 ≡ length self.old.stack.items
            → Contains (parent_list self.old.parents.now (frame_at self.old.stack.items j).commit)
            (length self.old.below.now + commit) }
        ensures going { OnOk result (IsUnderWay self.new) }
        ensures input { OnOk result (ContinuesSearch self.old self.new) }
        ensures left { OnOk result (steps_left self.new + 1 ≡ steps_left self.old) }
        ensures seen { OnOk result
            (is_unseen (slice_index_or self.new.states.items commit Unseen) ≡ false) }
    {
        self.stack.push(Frame { commit, next: 0 })?;
        self.states[commit] = State::Open;
        Ok(())
    }

    /// Gives the commit on top of the stack its level, since all its parents have theirs.
    fn close(&mut self)
        requires going { IsUnderWay self.old }
        requires input { HasFittingInput self.old }
        requires some { 0 < length self.old.stack.items }
        requires done { (k : ℕ) → k < length (parents_on_top self.old)
            → HasLevel self.old (slice_index (parents_on_top self.old) k) }
        ensures going { IsUnderWay self.new }
        ensures input { ContinuesSearch self.old self.new }
        ensures left { steps_left self.new + 1 ≡ steps_left self.old }
    {
        if let Some(frame) = self.stack.pop() {
            let level = self.level_of(self.parents.of(frame.commit), self.times[frame.commit]);
            self.states[frame.commit] = State::Done(level);
        }
    }

    /// Notes that the first parents of the commit on top of the stack have their levels.
    fn advance(&mut self, next: usize)
        requires going { IsUnderWay self.old }
        requires some { 0 < length self.old.stack.items }
        requires before { (k : ℕ) → k < next
            → k < length (parents_on_top self.old)
            → HasLevel self.old (slice_index (parents_on_top self.old) k) }
        ensures going { IsUnderWay self.new }
        ensures input { ContinuesSearch self.old self.new }
        ensures left { steps_left self.new ≡ steps_left self.old }
        ensures states { self.new.states ≡ self.old.states }
        ensures len { length self.new.stack.items ≡ length self.old.stack.items }
        ensures top { (frame_on_top self.new).commit ≡ (frame_on_top self.old).commit }
    {
        let top = self.stack.len() - 1;
        self.stack[top].next = next;
    }

    /// Takes a step with the commit on top of the stack: goes to its first parent that has no level
    /// yet, or gives the commit its level.
    fn step(&mut self) -> Result<(), LevelsError>
        requires going { IsUnderWay self.old }
        requires input { HasFittingInput self.old }
        requires some { 0 < length self.old.stack.items }
        ensures going { OnOk result (IsUnderWay self.new) }
        ensures input { OnOk result (ContinuesSearch self.old self.new) }
        ensures left { OnOk result (steps_left self.new < steps_left self.old) }
        ensures cycle { IfErr result
            (IsLevelsRefusal (length self.old.below.now) self.old.parents.now) }
    {
        let top = self.stack[self.stack.len() - 1];
        let parents = self.parents.of(top.commit);
        match self.next_pending(parents, top.next) {
            None => self.close(),
            Some(index) => self.go_to(index, parents[index])?,
        }
        Ok(())
    }

    /// Goes to a parent of the commit on top of the stack, which has no level yet, and those before
    /// it have theirs.
    fn go_to(&mut self, index: usize, parent: u32) -> Result<(), LevelsError>
        requires going { IsUnderWay self.old }
        requires input { HasFittingInput self.old }
        requires some { 0 < length self.old.stack.items }
        requires parent { slice_get (parents_on_top self.old) index
            ≡ Some parent }
        requires pending { has_level (state_in self.old parent) ≡ false }
        requires before { (k : ℕ) → k < index
            → HasLevel self.old (slice_index (parents_on_top self.old) k) }
        ensures going { OnOk result (IsUnderWay self.new) }
        ensures input { OnOk result (ContinuesSearch self.old self.new) }
        ensures left { OnOk result (steps_left self.new < steps_left self.old) }
        ensures cycle { IfErr result
            (IsLevelsRefusal (length self.old.below.now) self.old.parents.now) }
    {
        if let State::Open = self.state_of(parent) {
            return Err(LevelsError::Cycle(parent));
        }
        self.advance(index);
        self.open(parent as usize - self.below.len())?;
        Ok(())
    }

    /// Gives each commit on the stack its level.
    fn finish(&mut self) -> Result<(), LevelsError>
        requires going { IsUnderWay self.old }
        requires input { HasFittingInput self.old }
        ensures going { OnOk result (IsUnderWay self.new) }
        ensures input { OnOk result (ContinuesSearch self.old self.new) }
        ensures empty { OnOk result (length self.new.stack.items ≡ 0) }
        ensures cycle { IfErr result
            (IsLevelsRefusal (length self.old.below.now) self.old.parents.now) }
    {
        while self.stack.len() > 0 {
            self.step()?;
        }
        Ok(())
    }

    /// Gives a commit its level, since all its parents have theirs. None is being gone through.
    fn give(&mut self, visit: Visit<'_>)
        requires going { IsUnderWay self.old }
        requires input { HasFittingInput self.old }
        requires empty { length self.old.stack.items ≡ 0 }
        requires visit { IsVisit self.old.parents.now self.old.times.now visit }
        requires unseen { slice_index_or self.old.states.items visit.commit Unseen ≡ Unseen }
        requires done { (k : ℕ) → k < length visit.parents.now
            → HasLevel self.old (slice_index visit.parents.now k) }
        ensures going { IsUnderWay self.new }
        ensures input { ContinuesSearch self.old self.new }
        ensures empty { length self.new.stack.items ≡ 0 }
        ensures seen { is_unseen
            (slice_index_or self.new.states.items visit.entry.commit Unseen) ≡ false }
    {
        let level = self.level_of(visit.parents, visit.time);
        self.states[visit.commit] = State::Done(level);
    }

    /// Sees to it that a commit has its level.
    fn visit(&mut self, visit: Visit<'_>) -> Result<(), LevelsError>
        requires going { IsUnderWay self.old }
        requires input { HasFittingInput self.old }
        requires visit { IsVisit self.old.parents.now self.old.times.now visit }
        requires empty { length self.old.stack.items ≡ 0 }
        ensures going { OnOk result (IsUnderWay self.new) }
        ensures input { OnOk result (ContinuesSearch self.old self.new) }
        ensures empty { OnOk result (length self.new.stack.items ≡ 0) }
        ensures seen { OnOk result
            (is_unseen (slice_index_or self.new.states.items visit.entry.commit Unseen) ≡ false) }
        ensures cycle { IfErr result
            (IsLevelsRefusal (length self.old.below.now) self.old.parents.now) }
    {
        if let State::Unseen = self.states[visit.commit] {
            match self.next_pending(visit.parents, 0) {
                None => self.give(visit),
                Some(_) => {
                    self.open(visit.commit)?;
                    self.finish()?;
                }
            }
        }
        Ok(())
    }

    /// Visits commits in this order of their numbers, leaving out numbers past the last commit. It
    /// need not name all.
    fn visit_each(&mut self, alloc: Global, order: &[u32]) -> Result<(), LevelsError>
        requires going { IsUnderWay self.old }
        requires input { HasFittingInput self.old }
        requires empty { length self.old.stack.items ≡ 0 }
        ensures going { OnOk result (IsUnderWay self.new) }
        ensures input { OnOk result (ContinuesSearch self.old self.new) }
        ensures empty { OnOk result (length self.new.stack.items ≡ 0) }
        ensures cycle { IfErr result
            (IsLevelsRefusal (length self.old.below.now) self.old.parents.now) }
    {
        for block in order.chunks(BLOCK) {
            self.visit_block(alloc, block)?;
        }
        Ok(())
    }

    /// The same, where what all visits read is read first: commits in the order of their times
    /// stand anywhere in memory, and the processor waits for many of them at once.
    fn visit_block(&mut self, alloc: Global, block: &[u32]) -> Result<(), LevelsError>
        requires going { IsUnderWay self.old }
        requires input { HasFittingInput self.old }
        requires empty { length self.old.stack.items ≡ 0 }
        ensures going { OnOk result (IsUnderWay self.new) }
        ensures input { OnOk result (ContinuesSearch self.old self.new) }
        ensures empty { OnOk result (length self.new.stack.items ≡ 0) }
        ensures cycle { IfErr result
            (IsLevelsRefusal (length self.old.below.now) self.old.parents.now) }
    {
        let visits = visits_of(alloc, self.parents, self.times, block)?;
        for visit in &visits {
            self.visit(*visit)?;
        }
        Ok(())
    }

    /// The levels, in the order of the commits.
    fn found(&self, alloc: Global) -> Result<Vec<Level>, AllocError>
        requires { (i : ℕ) → i < length self.now.states.items
            → has_level (slice_index_or self.now.states.items i Unseen) ≡ true }
        ensures len { IfOk result (λ own. length own.items ≡ length self.now.states.items) }
        ensures each { IfOk result (λ own. (i : ℕ) → i < length self.now.states.items
            → slice_index_or self.now.states.items i Unseen ≡ Done (level_at own.items i)) }
    {
        let mut own = Vec::with_capacity(alloc, self.states.len())?;
        for state in &self.states {
            if let State::Done(level) = state {
                own.push(*level)?;
            }
        }
        Ok(own)
    }
}

/// What a visit to a commit reads of it.
fn visit_to<'a>(parents: &'a ParentLists, times: &'a [u64], commit: usize) -> Visit<'a>
    requires within { commit < commit_count parents.now }
    requires timed { length times.now ≡ commit_count parents.now }
    ensures visit { IsVisit parents.now times.now result }
    ensures commit { result.commit ≡ commit }
{
    Visit {
        commit,
        parents: parents.of(commit),
        time: times[commit],
    }
}

/// What visits to the commits of these numbers read, leaving out numbers past the last commit.
fn visits_of<'a>(
    alloc: Global,
    parents: &'a ParentLists,
    times: &'a [u64],
    block: &[u32],
) -> Result<Vec<Visit<'a>>, AllocError>
    requires { length times.now ≡ commit_count parents.now }
    ensures { IfOk result (λ visits. All (IsVisit parents.now times.now) visits.items) }
{
    let mut visits = Vec::with_capacity(alloc, block.len())?;
    for number in block {
        let commit = *number as usize;
        if commit < parents.len() {
            visits.push(visit_to(parents, times, commit))?;
        }
    }
    Ok(visits)
}

/// The level of each new commit: `below` has those of the commits below, `parents` and `times` what
/// the new ones say. Positions count the commits below first. Times are in seconds since 1970-01-01
/// 00:00:00 UTC.
///
/// Each parent is looked at four times at most.
///
/// # Errors
///
/// `Cycle` with a new commit that is its own proper ancestor, where there is one, or `OutOfMemory`
/// where an allocation failed. Where there are no new commits, nothing is allocated.
pub fn levels(
    alloc: Global,
    below: &[Level],
    parents: &ParentLists,
    times: &[u64],
) -> Result<Vec<Level>, LevelsError>
    requires { FitTogether below.now parents.now times.now }
    ensures len { IfOk result (λ own. length own.items ≡ commit_count parents.now) }
    ensures bounds { IfOk result (λ own. (i : ℕ) → i < length own.items
        → ((level_at own.items i).generation ≤ GENERATION_NUMBER_MAX)
        × (slice_index times.now i ≤ (level_at own.items i).date)) }
    ensures generations { IfOk result (λ own. (history : List Node)
        → HasOnTop history (length below.now) parents.now
        → HasLevelGenerations history below.now own.items → AreLocal history) }
    ensures dates { IfOk result (λ own. (history : List Node) (all dates : List ℕ)
        → HasOnTop history (length below.now) parents.now
        → HasLevelDates history all dates below.now own.items times.now
        → AreRight history all dates) }
    ensures acyclic { IfOk result (λ own. (history : List Node)
        → HasOnTop history (length below.now) parents.now
        → AreClosedBelow history (length below.now)
        → HasNoCycleOnTop history (length below.now)) }
    ensures cycle { IfErr result (IsLevelsRefusal (length below.now) parents.now) }
    ensures memory { IsErrOf result LevelsError.OutOfMemory → 0 < commit_count parents.now }
{
    if times.is_empty() {
        return Ok(Vec::new(alloc));
    }
    let mut search = Search {
        below,
        parents,
        times,
        states: vec![in alloc; State::Unseen; parents.len()]?,
        stack: Vec::new(alloc),
    };
    search.visit_each(alloc, &oldest_first(alloc, times)?)?;
    for commit in 0..parents.len() {
        search.visit(visit_to(parents, times, commit))?;
    }
    Ok(search.found(alloc)?)
}
