//! A medium.

ghost use Rattle.std.specs.Prelude.{◌≡◌, Some, false, option_map, string_bytes, IfOk, IfErr};
ghost use Rattle.std.specs.FinMap.{get};
ghost use Rattle.mm_definitions.specs.Keys.{item};
ghost use Rattle.mm_store.specs.Blobs.{Told, bytes_at};
ghost use Rattle.mm_definitions.specs.Faults.{IsStoreFault};
ghost use Rattle.mm_store.specs.Kept.{medium_id, medium_with};
ghost use Rattle.mm_store.specs.Rows.{MediumRow};
ghost use Rattle.mm_reads.specs.Told.{ShowsMedium, IsMediumRow, shown_medium};
ghost use Rattle.mm_store.specs.Handed.{Looks};
ghost use Rattle.mm_blobs.specs.Handed.{Finds};
ghost use Rattle.mm_store.specs.Seen.{ReadsOn};

use mm_blobs::blobs::bytes_of;
use mm_definitions::answers::Fault;
use mm_definitions::bytes::MediaBytes;
use mm_definitions::content_types::ContentType;
use mm_definitions::entries::Media;
use mm_definitions::names::Name;
use mm_store::columns::{number_in, text_in};
use mm_store::statements::first;
use sqlite::{Alter, Connection, Row, Transaction, params};

/// The medium with these bytes and this content type. What no medium has is a fault, 91.
fn medium(bytes: Vec<u8>, content_type: String) -> Result<Media, Fault>
    ensures shown { IfOk result
        (λ m. (m.bytes ≡ bytes.items) × (m.content_type ≡ string_bytes content_type)) }
    ensures fault { IfErr result IsStoreFault }
{
    match (MediaBytes::new(bytes), ContentType::new(content_type)) {
        (Some(bytes), Some(content_type)) => Ok(Media {
            bytes,
            content_type,
        }),
        _ => Err(Fault::STORE),
    }
}

/// The row of a medium: the blob that it names, and its content type.
fn row_of_medium<S: Alter>(
    tx: &mut Transaction<'_, S>,
    table: &str,
    id: i64,
) -> Result<Option<Row>, Fault>
    ensures { Finds S.Store tx.old tx.new (λ y row. IsMediumRow
        (get y.kept.media (item table.now id)) row × Told medium_id medium_with y.kept.shelf
        (get y.kept.media (item table.now id)) (get y.content.media (item table.now id))) result }
{
    first(
        tx,
        "SELECT blob, content_type FROM mm_media WHERE table_name = ?1 AND id = ?2 LIMIT 1",
        params![table, id],
    )
}

/// The medium of a row, with the bytes of the blob that it names.
fn medium_in<S: Alter>(tx: &mut Transaction<'_, S>, row: &Row) -> Result<Media, Fault>
    ensures { Finds S.Store tx.old tx.new (λ y m. (r : MediumRow) → ShowsMedium row.now r
        → (bytes_at y.kept.shelf r.blob ≡ Some m.bytes) × (r.content_type ≡ m.content_type))
        result }
{
    let blob = number_in(row, 0)?;
    let content_type = text_in(row, 1)?;
    let bytes = bytes_of(tx, blob)?;
    medium(bytes, content_type)
}

/// The medium of an id, inside a transaction.
fn medium_at<S: Alter>(
    tx: &mut Transaction<'_, S>,
    table: &str,
    id: i64,
) -> Result<Option<Media>, Fault>
    ensures { Looks S.Store tx.old tx.new (λ p found. get p.media (item table.now id) ≡ option_map
        shown_medium found) result }
{
    match row_of_medium(tx, table, id)? {
        Some(row) => Ok(Some(medium_in(tx, &row)?)),
        None => Ok(None),
    }
}

/// The medium of a media table that has an id, or None where none has it. (Media.) A fault is 90 where memory was refused, and
/// else 91, also where bytes or a content type stand that no package has; the connection is then as settled as before.
pub fn media<S: Alter>(
    conn: &mut Connection<S>,
    table: &Name,
    id: i64,
) -> Result<Option<Media>, Fault>
    requires { conn.old.in_transaction ≡ false }
    ensures mode { conn.new.in_transaction ≡ false }
    ensures read { ReadsOn S.Store conn.old conn.new
        (λ p found. get p.media (item table.now id) ≡ option_map shown_medium found) result }
{
    let mut tx = conn.transaction();
    let found = medium_at(&mut tx, table.as_str(), id);
    tx.rollback();
    found
}
