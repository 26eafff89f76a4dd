//! Attribute rows.

ghost use Rattle.std.specs.Prelude.{◌≡◌, None, true};
ghost use Rattle.std.specs.FinMap.{get, contains_key, insert, remove};
ghost use Rattle.mm_definitions.specs.Conditions.{piece_reasons};
ghost use Rattle.mm_definitions.specs.Keys.{item};
ghost use Rattle.mm_definitions.specs.declared.commands.Command.TheVariants as commands;
ghost use Rattle.mm_definitions.specs.declared.commands.Piece.TheVariants as pieces;
ghost use Rattle.mm_store.specs.Handed.{Changes, ChangesWhere, FindsRefusal};
ghost use Rattle.mm_layout.specs.Handed.{Lends};

use crate::kinds::plain_refusal;
use crate::mapped::is_mapped;
use mm_definitions::answers::{Fault, Outcome};
use mm_definitions::commands::PlainKind;
use mm_definitions::names::Name;
use mm_definitions::refusals::Reason;
use mm_layout::{has_row, set_last_change};
use mm_store::statements::run;
use sqlite::{Alter, Transaction, params};

/// Puts a row at an id that is free.
fn insert_row<S: Alter>(
    tx: &mut Transaction<'_, S>,
    table: &str,
    id: i64,
    title: &str,
    note: &str,
    amount: i64,
) -> Result<(), Fault>
    ensures { ChangesWhere S.Store tx.old tx.new (λ p. get p.rows (item table.now id) ≡ None)
        (λ p. record p {
          rows = insert p.rows (item table.now id)
              (record { title = title.now; note = note.now; amount = amount });
        }) result }
{
    run(
        tx,
        "INSERT INTO mm_rows (table_name, id, title, note, amount) VALUES (?1, ?2, ?3, ?4, ?5)",
        params![table, id, title, note, amount],
    )
}

/// Puts a row in place of the one that stands.
fn update_row<S: Alter>(
    tx: &mut Transaction<'_, S>,
    table: &str,
    id: i64,
    title: &str,
    note: &str,
    amount: i64,
) -> Result<(), Fault>
    ensures { ChangesWhere S.Store tx.old tx.new
        (λ p. contains_key p.rows (item table.now id) ≡ true)
        (λ p. record p {
          rows = insert p.rows (item table.now id)
              (record { title = title.now; note = note.now; amount = amount });
        }) result }
{
    run(
        tx,
        "UPDATE mm_rows SET title = ?3, note = ?4, amount = ?5 WHERE table_name = ?1 AND id = ?2",
        params![table, id, title, note, amount],
    )
}

/// Puts a row, in place of the one that stands or as a new one.
fn write_row<S: Alter>(
    tx: &mut Transaction<'_, S>,
    table: &str,
    id: i64,
    title: &str,
    note: &str,
    amount: i64,
) -> Result<(), Fault>
    ensures { Changes S.Store tx.old tx.new
        (λ p. record p {
          rows = insert p.rows (item table.now id)
              (record { title = title.now; note = note.now; amount = amount });
        }) result }
{
    if has_row(tx, table, id)? {
        update_row(tx, table, id, title, note, amount)
    } else {
        insert_row(tx, table, id, title, note, amount)
    }
}

/// The command `row`: puts a row of an attribute table, in place of the one that has its id if there is one.
/// `last_change` is the stamp of the moment, which becomes the last_change of the table. Refused 25 where no table has
/// the name, 26 where it is no attribute table. (Attributes.)
pub fn put_row<S: Alter>(
    tx: &mut Transaction<'_, S>,
    table: &Name,
    id: i64,
    title: &str,
    note: &str,
    amount: i64,
    last_change: &str,
) -> Result<Outcome, Fault>
    ensures { Lends S.Store tx.old tx.new
        (commands.Edit (pieces.Row table.now id title.now note.now amount))
        last_change.now result }
{
    let table = table.as_str();
    if let Some(number) = plain_refusal(tx, table, PlainKind::Attributes)? {
        return Ok(Outcome::refused(number));
    }
    write_row(tx, table, id, title, note, amount)?;
    set_last_change(tx, table, last_change)?;
    Ok(Outcome::Done)
}

/// Removes the row of an id.
fn delete_row<S: Alter>(tx: &mut Transaction<'_, S>, table: &str, id: i64) -> Result<(), Fault>
    ensures { Changes S.Store tx.old tx.new
        (λ p. record p { rows = remove p.rows (item table.now id) }) result }
{
    run(
        tx,
        "DELETE FROM mm_rows WHERE table_name = ?1 AND id = ?2",
        params![table, id],
    )
}

/// Why a row is not removed, if it is not.
fn row_drop_refusal<S: Alter>(
    tx: &mut Transaction<'_, S>,
    table: &str,
    id: i64,
) -> Result<Option<Reason>, Fault>
    ensures { FindsRefusal S.Store tx.old tx.new
        (λ p. piece_reasons p (pieces.RowDrop table.now id)) result }
{
    if let Some(number) = plain_refusal(tx, table, PlainKind::Attributes)? {
        return Ok(Some(number));
    }
    if !has_row(tx, table, id)? {
        return Ok(Some(Reason::NO_ROW));
    }
    if is_mapped(tx, table, id)? {
        Ok(Some(Reason::STILL_MAPPED))
    } else {
        Ok(None)
    }
}

/// The command `row-drop`: removes a row of an attribute table. `last_change` is the stamp of the moment, which becomes
/// the last_change of the table. Refused 25 where no table has the name, 26 where it is no attribute table, 40 where it
/// has no row of the id, 42 where a mapping row has the row as an end. (Attributes; User Defined Mapping Tables.)
pub fn drop_row<S: Alter>(
    tx: &mut Transaction<'_, S>,
    table: &Name,
    id: i64,
    last_change: &str,
) -> Result<Outcome, Fault>
    ensures { Lends S.Store tx.old tx.new (commands.Edit (pieces.RowDrop table.now id))
        last_change.now result }
{
    let table = table.as_str();
    if let Some(number) = row_drop_refusal(tx, table, id)? {
        return Ok(Outcome::refused(number));
    }
    delete_row(tx, table, id)?;
    set_last_change(tx, table, last_change)?;
    Ok(Outcome::Done)
}
