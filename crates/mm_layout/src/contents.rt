//! The rows of `gpkg_contents`.

ghost use Rattle.std.specs.Prelude.{◌≡◌, None, option_map, string_bytes, IsTrue};
ghost use Rattle.std.specs.FinMap.{get, contains_key, insert};
ghost use Rattle.mm_definitions.specs.Conditions.{is_identified};
ghost use Rattle.mm_definitions.specs.Conditions as conditions;
ghost use Rattle.mm_definitions.specs.Effects as effects;
ghost use Rattle.mm_definitions.specs.Package.{Contents};
ghost use Rattle.mm_layout.specs.Rows.{plain_contents};
ghost use Rattle.mm_layout.specs.Touched.{IsStampedAs};
ghost use Rattle.mm_store.specs.Handed.{Looks, Tells, Changes, ChangesWhere};
ghost use Rattle.mm_layout.specs.Handed.{Touches};

use crate::relations::has_relation;
use mm_definitions::answers::{Fault, Outcome};
use mm_definitions::names::Name;
use mm_definitions::refusals::Reason;
use mm_store::statements::{exists, first_text, run};
use sqlite::{Alter, Transaction, params};

/// Whether a table has this name.
pub(crate) fn has_table<S: Alter>(tx: &mut Transaction<'_, S>, table: &str) -> Result<bool, Fault>
    ensures { Tells S.Store tx.old tx.new (λ p. contains_key p.contents table.now) result }
{
    exists(
        tx,
        "SELECT 1 FROM gpkg_contents WHERE table_name = ?1 LIMIT 1",
        params![table],
    )
}

/// Whether a contents row has this identifier.
pub(crate) fn has_identifier<S: Alter>(
    tx: &mut Transaction<'_, S>,
    identifier: &str,
) -> Result<bool, Fault>
    ensures { Tells S.Store tx.old tx.new (λ p. is_identified p identifier.now) result }
{
    exists(
        tx,
        "SELECT 1 FROM gpkg_contents WHERE identifier = ?1 LIMIT 1",
        params![identifier],
    )
}

/// Whether a table or a mapping has this name.
pub fn is_taken<S: Alter>(tx: &mut Transaction<'_, S>, name: &str) -> Result<bool, Fault>
    ensures { Tells S.Store tx.old tx.new (λ p. conditions.is_taken p name.now) result }
{
    if has_table(tx, name)? {
        Ok(true)
    } else {
        has_relation(tx, name)
    }
}

/// What last_change of a table is, where it has a contents row.
fn last_change_of<S: Alter>(
    tx: &mut Transaction<'_, S>,
    table: &str,
) -> Result<Option<String>, Fault>
    ensures { Looks S.Store tx.old tx.new
        (λ p text. option_map (λ (c : Contents). c.last_change) (get p.contents table.now)
        ≡ option_map string_bytes text) result }
{
    first_text(
        tx,
        "SELECT last_change FROM gpkg_contents WHERE table_name = ?1 LIMIT 1",
        params![table],
    )
}

/// Whether last_change of a table is this text already.
fn is_stamped<S: Alter>(
    tx: &mut Transaction<'_, S>,
    table: &str,
    last_change: &str,
) -> Result<bool, Fault>
    ensures { Looks S.Store tx.old tx.new
        (λ p it. IsTrue it → IsStampedAs p table.now last_change.now) result }
{
    match last_change_of(tx, table)? {
        Some(text) => Ok(text.as_str() == last_change),
        None => Ok(false),
    }
}

/// Sets last_change of a table to this text, the stamp of a moment, and changes nothing else. Where no table has the
/// name, nothing is changed at all. It is for commands that have looked at the table. It looks first, since a list of
/// commands has one moment. (Contents: last_change.)
pub fn set_last_change<S: Alter>(
    tx: &mut Transaction<'_, S>,
    table: &str,
    last_change: &str,
) -> Result<(), Fault>
    ensures { Changes S.Store tx.old tx.new (λ p. effects.touch p table.now last_change.now)
        result }
{
    if is_stamped(tx, table, last_change)? {
        return Ok(());
    }
    run(
        tx,
        "UPDATE gpkg_contents SET last_change = ?2 WHERE table_name = ?1 AND last_change <> ?2",
        params![table, last_change],
    )
}

/// Sets last_change of a table to this text, the stamp of a moment, and changes nothing else. Refused 25 where no table
/// has the name. (Contents: last_change.)
pub fn touch<S: Alter>(
    tx: &mut Transaction<'_, S>,
    table: &Name,
    last_change: &str,
) -> Result<Outcome, Fault>
    ensures { Touches S.Store tx.old tx.new table.now last_change.now result }
{
    let table = table.as_str();
    if !has_table(tx, table)? {
        return Ok(Outcome::refused(Reason::NO_TABLE));
    }
    set_last_change(tx, table, last_change)?;
    Ok(Outcome::Done)
}

/// Puts the contents row of a new table that is no pyramid.
pub(crate) fn insert_plain_contents<S: Alter>(
    tx: &mut Transaction<'_, S>,
    table: &str,
    identifier: &str,
    last_change: &str,
) -> Result<(), Fault>
    ensures { ChangesWhere S.Store tx.old tx.new (λ p. get p.contents table.now ≡ None)
        (λ p. record p {
          contents = insert p.contents table.now
              (plain_contents identifier.now last_change.now);
        }) result }
{
    run(
        tx,
        "INSERT INTO gpkg_contents (table_name, data_type, identifier, description, last_change) VALUES (?1, 'attributes', ?2, '', ?3)",
        params![table, identifier, last_change],
    )
}
