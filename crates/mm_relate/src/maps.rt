//! Mapping rows.

ghost use Rattle.std.specs.Prelude.{◌≡◌, None};
ghost use Rattle.std.specs.FinMap.{get, contains_key, insert, remove};
ghost use Rattle.mm_definitions.specs.Conditions.{least, piece_reasons};
ghost use Rattle.mm_definitions.specs.Keys.{pairing};
ghost use Rattle.mm_definitions.specs.declared.commands.Command.TheVariants as commands;
ghost use Rattle.mm_definitions.specs.declared.commands.Piece.TheVariants as pieces;
ghost use Rattle.mm_store.specs.Handed.{Tells, Changes, ChangesWhere, Applies};

use crate::ends::{ends_of, ends_refusal};
use mm_definitions::answers::{Fault, Outcome};
use mm_definitions::names::Name;
use mm_definitions::refusals::Reason;
use mm_layout::has_relation;
use mm_store::statements::{exists, run};
use sqlite::{Alter, Transaction, params};

/// Whether a mapping has a row of these two ids.
fn has_pairing<S: Alter>(
    tx: &mut Transaction<'_, S>,
    mapping: &str,
    base_id: i64,
    related_id: i64,
) -> Result<bool, Fault>
    ensures { Tells S.Store tx.old tx.new (λ p. contains_key p.pairings
        (pairing mapping.now base_id related_id)) result }
{
    exists(
        tx,
        "SELECT 1 FROM mm_map WHERE mapping = ?1 AND base_id = ?2 AND related_id = ?3 LIMIT 1",
        params![mapping, base_id, related_id],
    )
}

/// Why a mapping row is not added, if it is not.
fn map_refusal<S: Alter>(
    tx: &mut Transaction<'_, S>,
    mapping: &str,
    base_id: i64,
    related_id: i64,
) -> Result<Option<Reason>, Fault>
    ensures { Tells S.Store tx.old tx.new (λ p. least
        (piece_reasons p (pieces.Map mapping.now base_id related_id))) result }
{
    let Some((base, related)) = ends_of(tx, mapping)? else {
        return Ok(Some(Reason::NO_RELATION));
    };
    if let Some(number) = ends_refusal(tx, base.as_str(), base_id, related.as_str(), related_id)? {
        return Ok(Some(number));
    }
    if has_pairing(tx, mapping, base_id, related_id)? {
        Ok(Some(Reason::MAPPING_ROW_EXISTS))
    } else {
        Ok(None)
    }
}

/// Puts a new mapping row.
fn insert_pairing<S: Alter>(
    tx: &mut Transaction<'_, S>,
    mapping: &str,
    base_id: i64,
    related_id: i64,
) -> Result<(), Fault>
    ensures { ChangesWhere S.Store tx.old tx.new
        (λ p. get p.pairings (pairing mapping.now base_id related_id) ≡ None)
        (λ p. record p { pairings = insert p.pairings (pairing mapping.now base_id related_id) tt })
        result }
{
    run(
        tx,
        "INSERT INTO mm_map (mapping, base_id, related_id) VALUES (?1, ?2, ?3)",
        params![mapping, base_id, related_id],
    )
}

/// The command `map`: relates an item of a relation's base table to one of its related table. Refused 40 where one of the
/// two tables is of attribute rows and has no such row, 41 where one is of media and has no such medium, 44 where no
/// relation has the mapping's name, 45 where the mapping row stands already. (User Defined Mapping Tables.)
pub fn add_map<S: Alter>(
    tx: &mut Transaction<'_, S>,
    mapping: &Name,
    base_id: i64,
    related_id: i64,
) -> Result<Outcome, Fault>
    ensures { Applies S.Store tx.old tx.new
        (commands.Edit (pieces.Map mapping.now base_id related_id)) result }
{
    let mapping = mapping.as_str();
    if let Some(number) = map_refusal(tx, mapping, base_id, related_id)? {
        return Ok(Outcome::refused(number));
    }
    insert_pairing(tx, mapping, base_id, related_id)?;
    Ok(Outcome::Done)
}

/// Why a mapping row is not removed, if it is not.
fn map_drop_refusal<S: Alter>(
    tx: &mut Transaction<'_, S>,
    mapping: &str,
    base_id: i64,
    related_id: i64,
) -> Result<Option<Reason>, Fault>
    ensures { Tells S.Store tx.old tx.new (λ p. least
        (piece_reasons p (pieces.MapDrop mapping.now base_id related_id))) result }
{
    if !has_relation(tx, mapping)? {
        return Ok(Some(Reason::NO_RELATION));
    }
    if has_pairing(tx, mapping, base_id, related_id)? {
        Ok(None)
    } else {
        Ok(Some(Reason::NO_MAPPING_ROW))
    }
}

/// Removes a mapping row.
fn delete_pairing<S: Alter>(
    tx: &mut Transaction<'_, S>,
    mapping: &str,
    base_id: i64,
    related_id: i64,
) -> Result<(), Fault>
    ensures { Changes S.Store tx.old tx.new
        (λ p. record p { pairings = remove p.pairings (pairing mapping.now base_id related_id) })
        result }
{
    run(
        tx,
        "DELETE FROM mm_map WHERE mapping = ?1 AND base_id = ?2 AND related_id = ?3",
        params![mapping, base_id, related_id],
    )
}

/// The command `map-drop`: removes a mapping row. Refused 44 where no relation has the mapping's name, 46 where it has no such
/// row. (User Defined Mapping Tables.)
pub fn drop_map<S: Alter>(
    tx: &mut Transaction<'_, S>,
    mapping: &Name,
    base_id: i64,
    related_id: i64,
) -> Result<Outcome, Fault>
    ensures { Applies S.Store tx.old tx.new
        (commands.Edit (pieces.MapDrop mapping.now base_id related_id))
        result }
{
    let mapping = mapping.as_str();
    if let Some(number) = map_drop_refusal(tx, mapping, base_id, related_id)? {
        return Ok(Outcome::refused(number));
    }
    delete_pairing(tx, mapping, base_id, related_id)?;
    Ok(Outcome::Done)
}
