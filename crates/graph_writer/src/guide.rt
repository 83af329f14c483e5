//! Where a commit may stand in the order of ids. Nothing is promised of that: what is found there
//! is compared with the whole id.

use crate::handed::Handed;
use crate::order::FrontPlace;
use crate::view::CommitView;
use std::alloc::{AllocError, Global};

/// About how many ids share a start.
const IDS_EACH: usize = 2;

/// How many tips are looked at from a start on. More than these hardly ever share one.
const MOST_EACH: usize = 8;

/// The tips of ids in their order, and where to begin to look for one. They take four bytes each,
/// so that a search needs few lines of the processor's cache.
#[derive(Drop)]
pub(crate) struct Guide {
    tips: Vec<u32>,
    starts: Vec<u32>,
}

impl Guide {
    /// The guide to ids that have these places.
    pub(crate) fn of(alloc: Global, places: &[FrontPlace]) -> Result<Guide, AllocError> {
        let mut tips = Vec::with_capacity(alloc, places.len())?;
        for place in places {
            tips.push(tip(place.front))?;
        }
        let mut starts = vec![in alloc; 0; places.len() / IDS_EACH + 1]?;
        let mut place = tips.len();
        for tip in tips.iter().rev() {
            place = place.saturating_sub(1);
            let bucket = bucket_of(*tip, starts.len());
            if let Some(start) = starts.get_mut(bucket) {
                *start = place.min(u32::MAX as usize) as u32;
            }
        }
        Ok(Guide { tips, starts })
    }

    /// Where to begin to look for a front.
    fn start_of(&self, wanted: u64) -> u32 {
        match self.starts.get(bucket_of(tip(wanted), self.starts.len())) {
            Some(start) => *start,
            None => 0,
        }
    }

    /// Where the commit stands whose id has this front if there is one, unless another id has the
    /// same tip, or many ids have tips that are near to each other. It is found by counting from
    /// the start on, without a choice for which the processor would have to wait.
    fn guess(&self, wanted: u64, start: u32) -> u32 {
        let from = (start as usize).min(self.tips.len());
        let to = (from + MOST_EACH).min(self.tips.len());
        let wanted = tip(wanted);
        let mut place = start;
        for tip in &self.tips[from..to] {
            place = place.wrapping_add(u32::from(*tip < wanted));
        }
        place
    }
}

/// The number that the first four bytes of an id make, of its front.
fn tip(front: u64) -> u32 {
    (front >> 32) as u32
}

/// Which of so many buckets of equal size a tip falls into.
fn bucket_of(tip: u32, buckets: usize) -> usize {
    (u64::from(tip).wrapping_mul(buckets as u64) >> 32) as usize
}

/// How many commits have their parents guessed at a time.
const BLOCK: usize = 128;

/// Guessed places of the parents of commits in the order of ids, which are taken one by one. They
/// are guessed for a block of commits at a time, each step for all of them, so that the processor
/// waits for many reads at once. Its cache has what they read when the guesses are taken.
#[derive(Drop)]
pub(crate) struct Guesses<'a, C: CommitView> {
    guide: &'a Guide,
    commits: &'a Handed<'a, C>,
    order: &'a [usize],
    wanted: Vec<u64>,
    guessed: Vec<u32>,
    places: Vec<u32>,
    next: usize,
}

impl<'a, C: CommitView> Guesses<'a, C> {
    /// Guesses for the parents of these commits, by the guide to them.
    pub(crate) fn of(
        alloc: Global,
        guide: &'a Guide,
        commits: &'a Handed<'a, C>,
        order: &'a [usize],
    ) -> Guesses<'a, C> {
        Guesses {
            guide,
            commits,
            order,
            wanted: Vec::new(alloc),
            guessed: Vec::new(alloc),
            places: Vec::new(alloc),
            next: 0,
        }
    }

    /// Makes the guesses of a block, if one begins at this place.
    pub(crate) fn advance_to(&mut self, place: usize) -> Result<(), AllocError> {
        if place % BLOCK == 0 {
            self.guess_block(place)?;
        }
        Ok(())
    }

    /// Makes the guesses of the block that begins at this place.
    fn guess_block(&mut self, place: usize) -> Result<(), AllocError> {
        self.wanted.clear();
        self.guessed.clear();
        self.places.clear();
        self.next = 0;
        let commits = self.commits;
        let order = self.order;
        for number in order.iter().skip(place).take(BLOCK) {
            push_fronts(commits, *number, &mut self.wanted)?;
        }
        let guide = self.guide;
        for front in &self.wanted {
            self.guessed.push(guide.start_of(*front))?;
        }
        for (front, place) in self.wanted.iter().zip(self.guessed.iter_mut()) {
            *place = guide.guess(*front, *place);
        }
        for (place, front) in self.guessed.iter().zip(self.wanted.iter()) {
            let found = front_at(commits, order, *place) == *front;
            self.places.push(if found { *place } else { u32::MAX })?;
        }
        Ok(())
    }

    /// The next one, 0 past the last.
    pub(crate) fn next(&mut self) -> u32 {
        match self.places.get(self.next) {
            Some(place) => {
                self.next += 1;
                *place
            }
            None => 0,
        }
    }
}

/// Adds the fronts of the ids of a commit's parents, none past the last commit.
fn push_fronts<C: CommitView>(
    commits: &Handed<'_, C>,
    number: usize,
    fronts: &mut Vec<u64>,
) -> Result<(), AllocError> {
    if number < commits.len() {
        let commit = commits.at(number);
        for parent in 0..commit.parent_count() {
            fronts.push(commit.parent(parent).front())?;
        }
    }
    Ok(())
}

/// The front of the id at a place of the commits in this order, 0 past the last.
fn front_at<C: CommitView>(commits: &Handed<'_, C>, order: &[usize], place: u32) -> u64 {
    match order.get(place as usize) {
        Some(number) if *number < commits.len() => {
            let commit = commits.at(*number);
            commit.id().front()
        }
        _ => 0,
    }
}
