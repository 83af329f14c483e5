//! The paths for which a filter has bits.

ghost use Rattle.std.specs.Prelude.{◌≡◌, ◌≤◌, ◌<◌, ◌↔◌, Contains, IfOk, IsTrue, length, map};
ghost use Rattle.std.specs.Prelude.{MatchOption, take};
ghost use Rattle.path_filters.specs.Touched.{AreTouched, AreMoreTouched};
ghost use Rattle.path_filters.specs.Steps.{IsPathGathered, IsGatheredWhole};

use std::alloc::{AllocError, Global};
use std::collections::BTreeSet;

/// The paths that are touched where these are changed: each of them, and each directory that leads
/// to one, without a `/` at the end. Each comes once, in the order of their bytes. `None` where
/// more are touched than so many.
///
/// Where the changed paths stand in the order of their bytes, each directory is looked at once.
///
/// # Errors
///
/// Memory ran out.
pub fn touched_paths<'a>(
    alloc: Global,
    changed: &'a [Vec<u8>],
    most: usize,
) -> Result<Option<Vec<&'a [u8]>>, AllocError>
    ensures { let is_one_changed = Contains (map (λ path. path.items) changed.now) in
        IfOk result (λ found. MatchOption found (AreMoreTouched is_one_changed most)
        (λ paths. AreTouched is_one_changed (map (λ path. path.now) paths.items)
        × (length paths.items ≤ most))) }
{
    let mut touched = BTreeSet::new(alloc);
    let mut last: &[u8] = &[];
    for path in changed {
        let path = path.as_slice();
        gather(&mut touched, last, path)?;
        if touched.len() > most {
            return Ok(None);
        }
        last = path;
    }
    Ok(Some(touched.into_iter().collect(alloc)?))
}

/// Puts a path to those that are touched, and the directories that lead to it, but none that leads
/// to the last path.
fn gather<'a>(
    touched: &mut BTreeSet<&'a [u8]>,
    last: &[u8],
    path: &'a [u8],
) -> Result<(), AllocError>
    ensures { IfOk result (λ _. IsPathGathered path.now (map (λ p. p.now) touched.old.keys)
        (map (λ p. p.now) touched.new.keys)
        × IsGatheredWhole last.now path.now (map (λ p. p.now) touched.old.keys)
        (map (λ p. p.now) touched.new.keys)) }
{
    let common = common_length(last, path);
    for i in common..path.len() {
        if path[i] != b'/' {
            continue;
        }
        touched.insert(&path[..i])?;
    }
    touched.insert(path)?;
    Ok(())
}

/// With how many bytes both texts begin that are alike.
fn common_length(a: &[u8], b: &[u8]) -> usize
    ensures in_a { result ≤ length a.now }
    ensures in_b { result ≤ length b.now }
    ensures alike { take result a.now ≡ take result b.now }
{
    let mut count = 0;
    while count < a.len() && count < b.len() && a[count] == b[count] {
        count += 1;
    }
    count
}
