//! The ids that the words of a command spell, in hexadecimal digits of either case.

ghost use Rattle.std.specs.Prelude.{◌∷◌, [], List, IfErr, IfOk, OnOk, map, string_bytes};
ghost use Rattle.std.specs.List.{AllZip};
ghost use Rattle.gix_hash_core.specs.Hexadecimal.{SpellsId};
ghost use Rattle.history_commands.specs.AskedOnce.{MayNotReadIds, SpellNotAll};

use gix_hash_core::{IdError, ObjectId};
use graph_commands::refusal::Refusal;
use std::alloc::Global;

/// The ids that two texts spell. The error is that of the first text that spells none.
pub(crate) fn read_two(first: &str, second: &str) -> Result<(ObjectId, ObjectId), IdError>
    ensures spelled { IfOk result (λ ids.
        AllZip SpellsId (first.now ∷ second.now ∷ []) (ids.0 ∷ ids.1 ∷ [])) }
    ensures refused { IfErr result (SpellNotAll (first.now ∷ second.now ∷ [])) }
{
    let first = ObjectId::from_hex(first.as_bytes())?;
    let second = ObjectId::from_hex(second.as_bytes())?;
    Ok((first, second))
}

/// The ids that a first text and some others spell. The error is `Id` for the first text that
/// spells none, or `Walk`, where all of them are ids and an allocation failed.
pub(crate) fn read_group(
    alloc: Global,
    first: &str,
    others: &[String],
) -> Result<(ObjectId, Vec<ObjectId>), Refusal>
    ensures spelled { IfOk result (λ ids.
        AllZip SpellsId (first.now ∷ map string_bytes others.now) (ids.0 ∷ ids.1.items)) }
    ensures refused { IfErr result (MayNotReadIds (first.now ∷ map string_bytes others.now)) }
{
    let first = ObjectId::from_hex(first.as_bytes())?;
    let others = read_ids(alloc, others)?;
    Ok((first, others))
}

/// The ids that the texts spell. The error is `Id` for the first text that spells none, or `Walk`,
/// where all of them are ids and an allocation failed.
fn read_ids(alloc: Global, texts: &[String]) -> Result<Vec<ObjectId>, Refusal>
    ensures spelled { IfOk result (λ ids.
        AllZip SpellsId (map string_bytes texts.now) ids.items) }
    ensures refused { IfErr result (MayNotReadIds (map string_bytes texts.now)) }
{
    check_ids(texts)?;
    let mut ids = Vec::new(alloc);
    for text in texts {
        let id = ObjectId::from_hex(text.as_bytes())?;
        if ids.push(id).is_err() {
            return Err(Refusal::Walk);
        }
    }
    Ok(ids)
}

/// Tests that each text spells an id. The error is that of the first that spells none.
fn check_ids(texts: &[String]) -> Result<(), IdError>
    ensures spelled { OnOk result
        ((ids : List _) × AllZip SpellsId (map string_bytes texts.now) ids) }
    ensures refused { IfErr result (SpellNotAll (map string_bytes texts.now)) }
{
    for text in texts {
        let _id = ObjectId::from_hex(text.as_bytes())?;
    }
    Ok(())
}
