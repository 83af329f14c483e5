//! Going through two trees.

ghost use Rattle.std.specs.Prelude.{◌≡◌, ◌+◌, ℕ, List, [], IfOk, IfErr, MatchOption, Option, Some};
ghost use Rattle.std.specs.Prelude.{option_map};
ghost use Rattle.gix_hash_core.specs.Oid.{oid_bytes};
ghost use Rattle.tree_objects.specs.Entry.{entry_of};
ghost use Rattle.tree_changes.specs.Stands.{World, item_of, item_id};
ghost use Rattle.tree_changes.specs.Changes.{one_if_some};
ghost use Rattle.tree_changes.specs.Walk.{Change, IsFoundSoFar};
ghost use Rattle.tree_changes.specs.Reads.{IsReadTree, IsTreeReadRefusal};
ghost use Rattle.tree_changes.specs.Reads.{IsReadLevel, IsReadRefusal};
ghost use Rattle.tree_changes.specs.Reads.{IsFoundThen, IsStopped};

use crate::changes::{Limits, Refusal};
use crate::level::next_difference;
use crate::source::TreeSource;
use crate::trees::Level;
use gix_hash_core::oid;
use std::alloc::{AllocError, Global};
use tree_objects::Entry;

/// Among how many names that differ in two trees directories are looked for, whose trees will be
/// wanted.
const MOST_HINTED: usize = 8;

/// Two trees that are gone through, and how far.
#[derive(Drop)]
pub(crate) struct Walk {
    /// The trees that lead to the next path, from the top, with what is left of each.
    levels: Vec<Level>,
    /// The path that was found last.
    path: Vec<u8>,
    /// How many trees may still be read.
    trees: usize,
    /// The most names that a path may have.
    names: usize,
}

impl Walk {
    /// The beginning of the way through two trees. `None` where both have one id.
    pub(crate) fn begin<S: TreeSource>(
        alloc: Global,
        source: &mut S,
        old: Option<oid<'_>>,
        new: oid<'_>,
        limits: Limits,
    ) -> Result<Option<Walk>, Refusal<S::Error>>
        ensures kind { S.kind_is source.new ≡ S.kind_is source.old }
        ensures kept { (world : World) → S.says source.new world → S.says source.old world }
        ensures found { IfOk result (λ found. MatchOption found
            (option_map oid_bytes old.entry ≡ Some (oid_bytes new.entry))
            (λ walk. IsFoundSoFar (S.kind_is source.old) (S.says source.new)
            (option_map oid_bytes old.entry) (Some (oid_bytes new.entry)) limits.trees []
            walk.path.items walk.levels.items walk.trees × (walk.names ≡ limits.names))) }
        ensures refused { IfErr result (λ refusal. (world : World) → S.says source.new world
            → IsStopped (S.has_refused source.new) limits.names limits.trees world
            (option_map oid_bytes old.entry) (Some (oid_bytes new.entry)) refusal) }
    {
        let old = bytes_of(old);
        let new = new.as_bytes();
        if let Some(old) = old
            && old == new
        {
            return Ok(None);
        }
        let mut trees = limits.trees;
        let level = read_level(alloc, source, old, Some(new), 0, &mut trees)?;
        let mut levels = Vec::new(alloc);
        levels.push(level).map_err(AllocError::from)?;
        Ok(Some(Walk {
            levels,
            path: Vec::new(alloc),
            trees,
            names: limits.names,
        }))
    }

    /// The path that was found last.
    pub(crate) fn path(&self) -> &[u8]
        ensures { result.now ≡ self.now.path.items }
    {
        &self.path
    }

    /// Goes on to the next path that is changed. Answers `false` where there is none.
    pub(crate) fn next<S: TreeSource>(
        &mut self,
        alloc: Global,
        source: &mut S,
    ) -> Result<bool, Refusal<S::Error>>
        ensures kind { S.kind_is source.new ≡ S.kind_is source.old }
        ensures kept { (world : World) → S.says source.new world → S.says source.old world }
        ensures names { self.new.names ≡ self.old.names }
        ensures found { IfOk result (λ more. (old new : Option (List ℕ)) (budget : ℕ)
            (found : List Change)
            → IsFoundSoFar (S.kind_is source.old) (S.says source.old) old new budget found
            self.old.path.items self.old.levels.items self.old.trees
            → IsFoundThen (S.kind_is source.old) (S.says source.new) old new budget found more
            self.new.path.items self.new.levels.items self.new.trees) }
        ensures refused { IfErr result (λ refusal. (old new : Option (List ℕ)) (budget : ℕ)
            (found : List Change)
            → IsFoundSoFar (S.kind_is source.old) (S.says source.old) old new budget found
            self.old.path.items self.old.levels.items self.old.trees
            → (world : World) → S.says source.new world
            → IsStopped (S.has_refused source.new) self.old.names budget world old new refusal) }
    {
        let kind = source.kind();
        while let Some(level) = self.levels.pop() {
            let old = &level.old[level.old_at..];
            let new = &level.new[level.new_at..];
            let Some(pair) = next_difference(kind, old, new) else {
                continue;
            };
            let (old_left, new_left) = (pair.old_rest.len(), pair.new_rest.len());
            self.path.truncate(level.prefix);
            self.path.extend_from_slice(pair.name)?;
            if !pair.directory {
                let level = level.with_left(old_left, new_left);
                self.levels.push(level).map_err(AllocError::from)?;
                return Ok(true);
            }
            if self.levels.len() + 1 >= self.names {
                return Err(Refusal::TooDeep);
            }
            self.path.extend_from_slice(b"/")?;
            let prefix = self.path.len();
            let trees = &mut self.trees;
            let (old, new) = (id_in(pair.old), id_in(pair.new));
            let below = match read_level(alloc, source, old, new, prefix, trees) {
                Ok(below) => below,
                Err(refusal) => return Err(refusal),
            };
            let level = level.with_left(old_left, new_left);
            self.levels.push(level).map_err(AllocError::from)?;
            self.levels.push(below).map_err(AllocError::from)?;
        }
        Ok(false)
    }
}

/// The bytes of an id, where there is one.
fn bytes_of(id: Option<oid<'_>>) -> Option<&[u8]>
    ensures { option_map (λ bytes. bytes.now) result ≡ option_map oid_bytes id.entry }
{
    match id {
        Some(id) => Some(id.as_bytes()),
        None => None,
    }
}

/// The id of an entry, where there is one.
fn id_in(entry: Option<Entry<'_>>) -> Option<&[u8]>
    ensures { option_map (λ id. id.now) result
        ≡ item_id (option_map item_of (option_map entry_of entry.entry)) }
{
    match entry {
        Some(entry) => Some(entry.id),
        None => None,
    }
}

/// Reads two trees, the old one first, of which one may be missing. Their paths begin with so many
/// bytes. Takes them from the number of trees that may be read.
fn read_level<S: TreeSource>(
    alloc: Global,
    source: &mut S,
    old: Option<&[u8]>,
    new: Option<&[u8]>,
    prefix: usize,
    trees: &mut usize,
) -> Result<Level, Refusal<S::Error>>
    ensures kind { S.kind_is source.new ≡ S.kind_is source.old }
    ensures kept { (world : World) → S.says source.new world → S.says source.old world }
    ensures trees { IfOk result (λ _. trees.new + one_if_some old.entry + one_if_some new.entry
        ≡ trees.old) }
    ensures read { IfOk result (λ level. IsReadLevel (S.kind_is source.old) (S.says source.new)
        (option_map (λ id. id.now) old.entry) (option_map (λ id. id.now) new.entry) prefix level) }
    ensures refused { IfErr result (IsReadRefusal (S.has_refused source.new)
        (option_map (λ id. id.now) old.entry) (option_map (λ id. id.now) new.entry) trees.old) }
{
    hint_pair(source, old, new);
    let old_tree = read_tree(alloc, source, old, trees)?;
    let new_tree = read_tree(alloc, source, new, trees)?;
    hint_below(source, &old_tree, &new_tree);
    Ok(Level {
        old: old_tree,
        new: new_tree,
        old_at: 0,
        new_at: 0,
        prefix,
    })
}

/// Says that the trees of a pair will be wanted, the old one first, of which one may be missing.
fn hint_pair<S: TreeSource>(source: &mut S, old: Option<&[u8]>, new: Option<&[u8]>)
    ensures kind { S.kind_is source.new ≡ S.kind_is source.old }
    ensures kept { (world : World) → S.says source.new world → S.says source.old world }
{
    if let Some(old) = old {
        source.hint(old);
    }
    if let Some(new) = new {
        source.hint(new);
    }
}

/// Says that the trees below two trees will be wanted, as far as the first names go at which these
/// differ.
fn hint_below<S: TreeSource>(source: &mut S, old: &[u8], new: &[u8])
    ensures kind { S.kind_is source.new ≡ S.kind_is source.old }
    ensures kept { (world : World) → S.says source.new world → S.says source.old world }
{
    let kind = source.kind();
    let (mut old, mut new) = (old, new);
    for _ in 0..MOST_HINTED {
        let Some(pair) = next_difference(kind, old, new) else {
            return;
        };
        if pair.directory {
            hint_pair(source, id_in(pair.old), id_in(pair.new));
        }
        old = pair.old_rest;
        new = pair.new_rest;
    }
}

/// Reads a tree, where there is one. Takes it from the number of trees that may be read.
fn read_tree<S: TreeSource>(
    alloc: Global,
    source: &mut S,
    id: Option<&[u8]>,
    trees: &mut usize,
) -> Result<Vec<u8>, Refusal<S::Error>>
    ensures kind { S.kind_is source.new ≡ S.kind_is source.old }
    ensures kept { (world : World) → S.says source.new world → S.says source.old world }
    ensures trees { IfOk result (λ _. trees.new + one_if_some id.entry ≡ trees.old) }
    ensures tree { IfOk result (λ contents. IsReadTree (S.kind_is source.old) (S.says source.new)
        (option_map (λ i. i.now) id.entry) contents.items) }
    ensures refused { IfErr result (IsTreeReadRefusal (S.has_refused source.new)
        (option_map (λ i. i.now) id.entry) trees.old) }
{
    let mut contents = Vec::new(alloc);
    let Some(id) = id else {
        return Ok(contents);
    };
    if *trees == 0 {
        return Err(Refusal::TooMuch);
    }
    *trees -= 1;
    match source.read(id, &mut contents) {
        Ok(()) => Ok(contents),
        Err(error) => Err(Refusal::Source(error)),
    }
}
