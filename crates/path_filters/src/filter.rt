//! The filter that Git writes for a commit.

ghost use Rattle.std.specs.Prelude.{◌≡◌, ◌≢◌, ◌∷◌, [], Contains, IfErr, IfOk, Some, map};
ghost use Rattle.std.specs.Prelude.{option_map};
ghost use Rattle.gix_hash_core.specs.Oid.{oid_bytes};
ghost use Rattle.tree_changes.specs.Stands.{World};
ghost use Rattle.tree_changes.specs.Changes.{IsChangedText, IsChangeRefusal};
ghost use Rattle.tree_changes.specs.declared.changes.Refusal.TheVariants.{TooMany};
ghost use Rattle.path_filters.specs.Made.{IsWritten, reading_of};

use crate::bits::filter_of;
use crate::settings::Settings;
use crate::touched::touched_paths;
use changed_paths::filters::HashVersion;
use changed_paths::murmur3::ByteReading;
use gix_hash_core::oid;
use std::alloc::{AllocError, Global};
use tree_changes::{Limits, Refusal, TreeSource, changed_paths};

/// How far two trees are gone through.
#[derive(Clone, Copy, Debug)]
pub struct Bounds {
    /// The most names that a path may have.
    pub names: usize,
    /// The most trees that may be read.
    pub trees: usize,
}

/// The filter that Git writes for a commit that changes these paths.
///
/// # Errors
///
/// Memory ran out.
pub fn filter_of_paths(
    alloc: Global,
    changed: &[Vec<u8>],
    settings: Settings,
) -> Result<Vec<u8>, AllocError>
    ensures { IfOk result (λ filter. IsWritten settings
        (Contains (map (λ path. path.items) changed.now)) filter.items) }
{
    let Some(paths) = touched_paths(alloc, changed, settings.most as usize)? else {
        return full_filter(alloc);
    };
    let reading = reading_of(settings.version);
    filter_of(alloc, reading, settings.bits, settings.hashes, &paths)
}

/// The filter that Git writes for a commit that has the new tree, and whose first parent has the
/// old one, however many paths are changed. A commit without parents has no old tree.
///
/// # Errors
///
/// Those of [`changed_paths`], but not `TooMany`.
pub fn path_filter<S: TreeSource>(
    alloc: Global,
    source: &mut S,
    old: Option<oid<'_>>,
    new: oid<'_>,
    settings: Settings,
    bounds: Bounds,
) -> Result<Vec<u8>, Refusal<S::Error>>
    ensures kind { S.kind_is source.new ≡ S.kind_is source.old }
    ensures kept { (world : World) → S.says source.new world → S.says source.old world }
    ensures written { IfOk result (λ filter. (world : World) → S.says source.new world
        → IsWritten settings
        (IsChangedText world (option_map oid_bytes old.entry) (Some (oid_bytes new.entry)))
        filter.items) }
    ensures refused { IfErr result (λ refusal. (refusal ≢ TooMany)
        × ((world : World) → S.says source.new world
        → IsChangeRefusal (S.has_refused source.new) settings.most bounds.names bounds.trees world
        (option_map oid_bytes old.entry) (Some (oid_bytes new.entry)) refusal)) }
{
    let limits = Limits {
        paths: settings.most as usize,
        names: bounds.names,
        trees: bounds.trees,
    };
    match changed_paths(alloc, source, old, new, limits) {
        Ok(changed) => Ok(filter_of_paths(alloc, &changed, settings)?),
        Err(Refusal::TooMany) => Ok(full_filter(alloc)?),
        Err(refusal) => Err(refusal),
    }
}

/// The filter of a commit that changes more paths than a filter is made for.
fn full_filter(alloc: Global) -> Result<Vec<u8>, AllocError>
    ensures { IfOk result (λ filter. filter.items ≡ 255 ∷ []) }
{
    Vec::from_slice(alloc, &[0xff])
}

/// How the bytes of a path are read for a filter of this version.
fn reading_of(version: HashVersion) -> ByteReading
    ensures { result ≡ reading_of version }
{
    match version {
        HashVersion::One => ByteReading::Signed,
        HashVersion::Two => ByteReading::Unsigned,
    }
}
