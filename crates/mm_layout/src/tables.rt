//! Tables that are no pyramids, and the removal of any table.

ghost use Rattle.std.specs.Prelude.{◌≡◌};
ghost use Rattle.mm_definitions.specs.Conditions.{least, own_reasons};
ghost use Rattle.mm_definitions.specs.Effects.{is_other};
ghost use Rattle.mm_definitions.specs.declared.commands.Command.TheVariants as commands;
ghost use Rattle.mm_blobs.specs.Views.{ListsEach};
ghost use Rattle.mm_store.specs.Kept.{tile_id, medium_id};
ghost use Rattle.mm_store.specs.Removals.{without_table_rows, Freed, FreedByTable};
ghost use Rattle.mm_store.specs.Handed.{Looks, Tells, Changes, Applies};
ghost use Rattle.mm_blobs.specs.Handed.{Finds, Frees};
ghost use Rattle.mm_layout.specs.Handed.{Lends};

use crate::contents::{has_identifier, has_table, insert_plain_contents, is_taken};
use crate::extensions::delete_zoom_row;
use crate::kinds::{insert_kind, text_of_kind};
use crate::relations::uses_table;
use mm_blobs::blobs::release_each;
use mm_definitions::answers::{Fault, Outcome};
use mm_definitions::commands::PlainKind;
use mm_definitions::names::Name;
use mm_definitions::refusals::Reason;
use mm_store::statements::{all, run};
use sqlite::{Alter, Row, Transaction, params};

/// Why a table is not added, if it is not.
fn table_refusal<S: Alter>(
    tx: &mut Transaction<'_, S>,
    table: &str,
    identifier: &str,
) -> Result<Option<Reason>, Fault>
    ensures { Looks S.Store tx.old tx.new (λ p why. (kind : PlainKind) → why ≡ least
        (own_reasons p (commands.Table table.now kind identifier.now))) result }
{
    if is_taken(tx, table)? {
        return Ok(Some(Reason::TABLE_NAME_TAKEN));
    }
    if has_identifier(tx, identifier)? {
        Ok(Some(Reason::IDENTIFIER_TAKEN))
    } else {
        Ok(None)
    }
}

/// The command `table`: adds a table of attribute rows or of media. `last_change` is the stamp of the moment, which
/// becomes its last_change. Refused 23 where a table or mapping has the name, 24 where a table has the identifier.
pub fn add_table<S: Alter>(
    tx: &mut Transaction<'_, S>,
    table: &Name,
    kind: PlainKind,
    identifier: &str,
    last_change: &str,
) -> Result<Outcome, Fault>
    ensures { Lends S.Store tx.old tx.new (commands.Table table.now kind identifier.now)
        last_change.now result }
{
    let table = table.as_str();
    if let Some(number) = table_refusal(tx, table, identifier)? {
        return Ok(Outcome::refused(number));
    }
    insert_plain_contents(tx, table, identifier, last_change)?;
    insert_kind(tx, table, text_of_kind(kind))?;
    Ok(Outcome::Done)
}

/// The ids of the blobs that the tiles of a table name.
fn blobs_of_tiles<S: Alter>(tx: &mut Transaction<'_, S>, table: &str) -> Result<Vec<Row>, Fault>
    ensures { Finds S.Store tx.old tx.new (λ y rows. ListsEach rows.items
        (Freed tile_id y.kept.tiles (λ k. is_other table.now k.table))) result }
{
    all(
        tx,
        "SELECT blob FROM mm_tiles WHERE table_name = ?1",
        params![table],
    )
}

/// The ids of the blobs that the media of a table name.
fn blobs_of_media<S: Alter>(tx: &mut Transaction<'_, S>, table: &str) -> Result<Vec<Row>, Fault>
    ensures { Finds S.Store tx.old tx.new (λ y rows. ListsEach rows.items
        (Freed medium_id y.kept.media (λ k. is_other table.now k.table))) result }
{
    all(
        tx,
        "SELECT blob FROM mm_media WHERE table_name = ?1",
        params![table],
    )
}

/// Removes the contents row of a table, and by its keys the rows of the registry, the matrix sets, the matrices, the tiles,
/// the attribute rows and the media that have its name. Blobs stay that nothing names any more.
fn delete_contents<S: Alter>(tx: &mut Transaction<'_, S>, table: &str) -> Result<(), Fault>
    ensures { Frees S.Store tx.old tx.new (FreedByTable table.now) (without_table_rows table.now) result }
{
    run(
        tx,
        "DELETE FROM gpkg_contents WHERE table_name = ?1",
        params![table],
    )
}

/// Removes what `delete_contents` removes, and the blobs that nothing names any more.
fn delete_table<S: Alter>(tx: &mut Transaction<'_, S>, table: &str) -> Result<(), Fault>
    ensures { Changes S.Store tx.old tx.new (without_table_rows table.now) result }
{
    let tiles = blobs_of_tiles(tx, table)?;
    let media = blobs_of_media(tx, table)?;
    delete_contents(tx, table)?;
    release_each(tx, tiles.as_slice())?;
    release_each(tx, media.as_slice())
}

/// Why a table is not removed, if it is not.
fn drop_refusal<S: Alter>(tx: &mut Transaction<'_, S>, table: &str) -> Result<Option<Reason>, Fault>
    ensures { Tells S.Store tx.old tx.new (λ p. least (own_reasons p (commands.Drop table.now)))
        result }
{
    if !has_table(tx, table)? {
        return Ok(Some(Reason::NO_TABLE));
    }
    if uses_table(tx, table)? {
        Ok(Some(Reason::USED_BY_A_RELATION))
    } else {
        Ok(None)
    }
}

/// The command `drop`: removes a table or pyramid with all that is kept under its name. Staged pieces stay. Refused 25
/// where no table has the name, 48 where a relation uses the table.
pub fn drop_table<S: Alter>(tx: &mut Transaction<'_, S>, table: &Name) -> Result<Outcome, Fault>
    ensures { Applies S.Store tx.old tx.new (commands.Drop table.now) result }
{
    let table = table.as_str();
    if let Some(number) = drop_refusal(tx, table)? {
        return Ok(Outcome::refused(number));
    }
    delete_table(tx, table)?;
    delete_zoom_row(tx, table)?;
    Ok(Outcome::Done)
}
