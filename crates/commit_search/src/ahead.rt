//! Reading ahead of a search breadth first, so that it waits for many records at once.

ghost use Rattle.std.specs.Prelude.{◌≡◌, ◌⊎◌, ◌<◌, ◌++◌, ◌∷◌, [], ℕ, length, slice_get, Some};
ghost use Rattle.std.specs.Prelude.{OnOk, IfOk, IfErr, alloc_error};
ghost use Rattle.commit_search.specs.Queue.{commit_in};
ghost use Rattle.commit_search.specs.Search.{queued_by, IsSearching, AreAhead};
ghost use Rattle.commit_search.specs.Search.{IsParentNumber, AreParentNumbers};
ghost use Rattle.commit_search.specs.Source.{Told, AreFieldsRead, IsFieldWithin};

use crate::marks::Marks;
use crate::search::Search;
use crate::source::CommitSource;
use graph_format::parents::ParentEdge;
use std::alloc::{AllocError, Global};

/// Of how many commits the parent fields are read at once.
const MOST: usize = 64;

/// What was read of commits that stand one after another in the queue of a search.
#[derive(Drop)]
pub(crate) struct Ahead {
    /// The place of the first of these commits.
    pub(crate) first: u32,
    /// What both parent fields of each say.
    pub(crate) fields: Vec<(ParentEdge, ParentEdge)>,
    /// The generation number of the parent that the first of these fields names, and 0 where it
    /// names none itself.
    pub(crate) numbers: Vec<u32>,
}

impl Ahead {
    /// That of no commits. Nothing is allocated.
    pub(crate) fn new(alloc: Global) -> Ahead
        ensures fields { length result.fields.items ≡ 0 }
        ensures numbers { length result.numbers.items ≡ 0 }
    {
        Ahead {
            first: 0,
            fields: Vec::new(alloc),
            numbers: Vec::new(alloc),
        }
    }

    /// Adds what both parent fields of the next commit say.
    fn push_fields(&mut self, fields: (ParentEdge, ParentEdge)) -> Result<(), AllocError>
        ensures first { self.new.first ≡ self.old.first }
        ensures fields { OnOk result
            (self.new.fields.items ≡ self.old.fields.items ++ fields ∷ []) }
    {
        self.fields.push(fields)?;
        Ok(())
    }
}

impl<M: Marks> Search<M> {
    /// What both parent fields of the commit at a place of the queue say, and the generation number
    /// of the parent that the first of them names. Where they were not read yet, those of the
    /// commits after it are read too.
    pub(crate) fn fields_at<S: CommitSource>(
        &self,
        commits: &mut S,
        place: u32,
        ahead: &mut Ahead,
    ) -> Result<((ParentEdge, ParentEdge), u32), S::Error>
        requires search { IsSearching (S.count (S.known commits.old)) (S.says commits.old)
            self.now }
        requires place { place < length (queued_by self.now) }
        requires ahead { let k = S.known commits.old in
            AreAhead (S.count k) (S.is_listed k) (S.lies k) (S.says commits.old) self.now
            ahead.old }
        ensures known { S.known commits.new ≡ S.known commits.old }
        ensures kept { (t : Told) → S.says commits.new t → S.says commits.old t }
        ensures ahead { OnOk result (let k = S.known commits.old in
            AreAhead (S.count k) (S.is_listed k) (S.lies k) (S.says commits.new) self.now
            ahead.new) }
        ensures fields { IfOk result (λ read. let k = S.known commits.old in
            AreFieldsRead (S.count k) (S.is_listed k) (S.lies k) (S.says commits.new)
            (commit_in (queued_by self.now) place) read.0) }
        ensures number { IfOk result (λ read.
            IsParentNumber (S.says commits.new) read.0.0 read.1) }
        ensures failed { IfErr result (λ e. S.may_fail (S.known commits.old) e
            ⊎ S.Error.from_gives alloc_error e) }
    {
        if ahead.first <= place && ((place - ahead.first) as usize) < ahead.fields.len() {
            let index = (place - ahead.first) as usize;
            return Ok((ahead.fields[index], ahead.numbers[index]));
        }
        self.read_from(commits, place, ahead)?;
        Ok((ahead.fields[0], ahead.numbers[0]))
    }

    /// Reads the parent fields of the commits from a place of the queue on, and the generation
    /// numbers of their first parents.
    fn read_from<S: CommitSource>(
        &self,
        commits: &mut S,
        place: u32,
        ahead: &mut Ahead,
    ) -> Result<(), S::Error>
        requires search { IsSearching (S.count (S.known commits.old)) (S.says commits.old)
            self.now }
        requires place { place < length (queued_by self.now) }
        ensures known { S.known commits.new ≡ S.known commits.old }
        ensures kept { (t : Told) → S.says commits.new t → S.says commits.old t }
        ensures ahead { OnOk result (let k = S.known commits.old in
            AreAhead (S.count k) (S.is_listed k) (S.lies k) (S.says commits.new) self.now
            ahead.new) }
        ensures first { OnOk result (ahead.new.first ≡ place) }
        ensures some { OnOk result (0 < length ahead.new.fields.items) }
        ensures failed { IfErr result (λ e. S.may_fail (S.known commits.old) e
            ⊎ S.Error.from_gives alloc_error e) }
    {
        ahead.first = place;
        ahead.fields.clear();
        let end = self.len().min(place as usize + MOST);
        for next in place..end as u32 {
            let fields = commits.parent_fields(self.commit_at(next))?;
            ahead.push_fields(fields)?;
        }
        read_numbers(commits, &ahead.fields, &mut ahead.numbers)?;
        Ok(())
    }
}

/// Reads the generation numbers of the parents that the first of these fields name. This is a loop
/// of its own, so that the fields of many commits are asked for before it waits for one.
fn read_numbers<S: CommitSource>(
    commits: &mut S,
    fields: &[(ParentEdge, ParentEdge)],
    numbers: &mut Vec<u32>,
) -> Result<(), S::Error>
    requires { (i : ℕ) (both : ParentEdge × ParentEdge) → slice_get fields.now i ≡ Some both
        → (p : ℕ) × (let k = S.known commits.old in
        IsFieldWithin (S.count k) (S.is_listed k p) both.0) }
    ensures known { S.known commits.new ≡ S.known commits.old }
    ensures kept { (t : Told) → S.says commits.new t → S.says commits.old t }
    ensures as_many { OnOk result (length numbers.new.items ≡ length fields.now) }
    ensures numbers { OnOk result
        (AreParentNumbers (S.says commits.new) fields.now numbers.new.items) }
    ensures failed { IfErr result (λ e. S.may_fail (S.known commits.old) e
        ⊎ S.Error.from_gives alloc_error e) }
{
    numbers.clear();
    for (first, _) in fields {
        let number = number_of(commits, *first)?;
        push_number(numbers, number)?;
    }
    Ok(())
}

/// Adds a number.
fn push_number(numbers: &mut Vec<u32>, number: u32) -> Result<(), AllocError>
    ensures { OnOk result (numbers.new.items ≡ numbers.old.items ++ number ∷ []) }
{
    numbers.push(number)?;
    Ok(())
}

/// The generation number of the parent that the parent field of a commit names, and 0 where it
/// names none itself.
fn number_of<S: CommitSource>(commits: &mut S, field: ParentEdge) -> Result<u32, S::Error>
    requires { (p : ℕ) × (let k = S.known commits.old in
        IsFieldWithin (S.count k) (S.is_listed k p) field) }
    ensures known { S.known commits.new ≡ S.known commits.old }
    ensures kept { (t : Told) → S.says commits.new t → S.says commits.old t }
    ensures number { IfOk result (IsParentNumber (S.says commits.new) field) }
    ensures failed { IfErr result (S.may_fail (S.known commits.old)) }
{
    match field {
        ParentEdge::GraphPosition(parent) => commits.generation_number(parent),
        _ => Ok(0),
    }
}
