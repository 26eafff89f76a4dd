//! Media.

ghost use Rattle.std.specs.Prelude.{None};
ghost use Rattle.std.specs.FinMap.{insert, remove};
ghost use Rattle.mm_definitions.specs.Conditions.{piece_reasons};
ghost use Rattle.mm_definitions.specs.Keys.{item};
ghost use Rattle.mm_definitions.specs.declared.commands.Command.TheVariants as commands;
ghost use Rattle.mm_definitions.specs.declared.commands.Piece.TheVariants as pieces;
ghost use Rattle.mm_blobs.specs.Entries.{medium_of, with_medium, without_medium, medium_names};
ghost use Rattle.mm_store.specs.Handed.{Changes, FindsRefusal};
ghost use Rattle.mm_layout.specs.Handed.{Lends};
ghost use Rattle.mm_blobs.specs.Handed.{Names, Renames, Unnames, Gives};

use crate::kinds::plain_refusal;
use crate::mapped::is_mapped;
use mm_blobs::blobs::{keep, release_freed};
use mm_blobs::entries::blob_of_medium;
use mm_definitions::answers::{Fault, Outcome};
use mm_definitions::commands::PlainKind;
use mm_definitions::names::Name;
use mm_definitions::refusals::Reason;
use mm_layout::{has_medium, set_last_change};
use mm_store::statements::run;
use sqlite::{Alter, Transaction, params};

/// Puts a medium that names a blob, at an id that is free.
fn insert_medium<S: Alter>(
    tx: &mut Transaction<'_, S>,
    table: &str,
    id: i64,
    content_type: &str,
    blob: i64,
) -> Result<(), Fault>
    ensures { Names S.Store tx.old tx.new blob (medium_names (item table.now id)) None
        (with_medium (item table.now id) (medium_of blob content_type.now)) result }
{
    run(
        tx,
        "INSERT INTO mm_media (table_name, id, blob, content_type) VALUES (?1, ?2, ?3, ?4)",
        params![table, id, blob, content_type],
    )
}

/// Lets a medium that stands name another blob, with another content type. The blob that it named may stand unnamed then.
fn update_medium<S: Alter>(
    tx: &mut Transaction<'_, S>,
    table: &str,
    id: i64,
    content_type: &str,
    blob: i64,
) -> Result<(), Fault>
    ensures { Renames S.Store tx.old tx.new blob (medium_names (item table.now id))
        (with_medium (item table.now id) (medium_of blob content_type.now)) result }
{
    run(
        tx,
        "UPDATE mm_media SET blob = ?3, content_type = ?4 WHERE table_name = ?1 AND id = ?2",
        params![table, id, blob, content_type],
    )
}

/// Lets the medium of an id name a blob: the one that stands, which names `stands`, or a new one.
fn name_medium<S: Alter>(
    tx: &mut Transaction<'_, S>,
    table: &str,
    id: i64,
    content_type: &str,
    blob: i64,
    stands: Option<i64>,
) -> Result<(), Fault>
    ensures { Names S.Store tx.old tx.new blob (medium_names (item table.now id)) stands
        (with_medium (item table.now id) (medium_of blob content_type.now)) result }
{
    match stands {
        Some(_was) => update_medium(tx, table, id, content_type, blob),
        None => insert_medium(tx, table, id, content_type, blob),
    }
}

/// Puts a medium that names a blob, in place of the one that stands or as a new one. The blob goes that the medium named
/// before, if nothing else names it.
pub(crate) fn give_medium<S: Alter>(
    tx: &mut Transaction<'_, S>,
    table: &str,
    id: i64,
    content_type: &str,
    blob: i64,
) -> Result<(), Fault>
    ensures { Gives S.Store tx.old tx.new blob
        (λ bytes p. record p {
          media = insert p.media (item table.now id)
              (record { bytes = bytes; content_type = content_type.now });
        }) result }
{
    let stands = blob_of_medium(tx, table, id)?;
    name_medium(tx, table, id, content_type, blob, stands)?;
    release_freed(tx, stands)
}

/// Puts a medium, in place of the one that stands or as a new one: its bytes are kept, and it names their blob. No bytes are
/// a fault, 91, since no command has a medium without them.
fn write_medium<S: Alter>(
    tx: &mut Transaction<'_, S>,
    table: &str,
    id: i64,
    content_type: &str,
    bytes: &[u8],
) -> Result<(), Fault>
    ensures { Changes S.Store tx.old tx.new
        (λ p. record p {
          media = insert p.media (item table.now id)
              (record { bytes = bytes.now; content_type = content_type.now });
        }) result }
{
    if bytes.is_empty() {
        return Err(Fault::STORE);
    }
    let blob = keep(tx, bytes)?;
    give_medium(tx, table, id, content_type, blob)
}

/// The command `media`: puts a medium of a media table, in place of the one that has its id if there is one.
/// `last_change` is the stamp of the moment, which becomes the last_change of the table. Refused 25 where no table has
/// the name, 26 where it is no media table. (Media.)
pub fn put_media<S: Alter>(
    tx: &mut Transaction<'_, S>,
    table: &Name,
    id: i64,
    content_type: &str,
    bytes: &[u8],
    last_change: &str,
) -> Result<Outcome, Fault>
    ensures { Lends S.Store tx.old tx.new
        (commands.Edit (pieces.Media table.now id content_type.now bytes.now))
        last_change.now result }
{
    let table = table.as_str();
    if let Some(number) = plain_refusal(tx, table, PlainKind::Media)? {
        return Ok(Outcome::refused(number));
    }
    write_medium(tx, table, id, content_type, bytes)?;
    set_last_change(tx, table, last_change)?;
    Ok(Outcome::Done)
}

/// Removes the row of a medium. The blob that it named may stand unnamed then.
fn delete_medium_row<S: Alter>(
    tx: &mut Transaction<'_, S>,
    table: &str,
    id: i64,
) -> Result<(), Fault>
    ensures { Unnames S.Store tx.old tx.new (medium_names (item table.now id))
        (without_medium (item table.now id)) result }
{
    run(
        tx,
        "DELETE FROM mm_media WHERE table_name = ?1 AND id = ?2",
        params![table, id],
    )
}

/// Removes the medium of an id, and its blob if nothing else names it.
fn delete_medium<S: Alter>(tx: &mut Transaction<'_, S>, table: &str, id: i64) -> Result<(), Fault>
    ensures { Changes S.Store tx.old tx.new
        (λ p. record p { media = remove p.media (item table.now id) }) result }
{
    let stands = blob_of_medium(tx, table, id)?;
    delete_medium_row(tx, table, id)?;
    release_freed(tx, stands)
}

/// Why a medium is not removed, if it is not.
fn medium_drop_refusal<S: Alter>(
    tx: &mut Transaction<'_, S>,
    table: &str,
    id: i64,
) -> Result<Option<Reason>, Fault>
    ensures { FindsRefusal S.Store tx.old tx.new
        (λ p. piece_reasons p (pieces.MediaDrop table.now id)) result }
{
    if let Some(number) = plain_refusal(tx, table, PlainKind::Media)? {
        return Ok(Some(number));
    }
    if !has_medium(tx, table, id)? {
        return Ok(Some(Reason::NO_MEDIA_ITEM));
    }
    if is_mapped(tx, table, id)? {
        Ok(Some(Reason::STILL_MAPPED))
    } else {
        Ok(None)
    }
}

/// The command `media-drop`: removes a medium of a media table. `last_change` is the stamp of the moment, which becomes
/// the last_change of the table. Refused 25 where no table has the name, 26 where it is no media table, 41 where it has
/// no medium of the id, 42 where a mapping row has the medium as an end. (Media; User Defined Mapping Tables.)
pub fn drop_media<S: Alter>(
    tx: &mut Transaction<'_, S>,
    table: &Name,
    id: i64,
    last_change: &str,
) -> Result<Outcome, Fault>
    ensures { Lends S.Store tx.old tx.new (commands.Edit (pieces.MediaDrop table.now id))
        last_change.now result }
{
    let table = table.as_str();
    if let Some(number) = medium_drop_refusal(tx, table, id)? {
        return Ok(Outcome::refused(number));
    }
    delete_medium(tx, table, id)?;
    set_last_change(tx, table, last_change)?;
    Ok(Outcome::Done)
}
