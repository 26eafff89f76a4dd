//! A blob is kept, and released where nothing names it.

ghost use Rattle.std.specs.Prelude.{◌≡◌, ◌≢◌, IfOk, [], ◌∷◌, Some};
ghost use Rattle.sqlite.specs.declared.types.Value.TheVariants.{Blob as Bytes};
ghost use Rattle.sqlite.specs.Order.{column};
ghost use Rattle.sqlite.specs.Values.{bound};
ghost use Rattle.mm_store.specs.Blobs.{bytes_at, NamesBlob};
ghost use Rattle.mm_store.specs.Blobs as spec;
ghost use Rattle.mm_store.specs.Kept.{no_spare, IsNamed, tile_id, medium_id, piece_id};
ghost use Rattle.mm_blobs.specs.Views.{spare_but, spare_each, IsFound, TellsWhether};
ghost use Rattle.mm_blobs.specs.Entries.{spare_freed};
ghost use Rattle.mm_blobs.specs.Moves.{GivesNumber, ShowsBytes};
ghost use Rattle.mm_store.specs.Handed.{Asks};
ghost use Rattle.mm_blobs.specs.Handed.{Finds, Puts, Keeps, Removes, Releases, ReleasesOpen, ListsUnnamed};

use crate::digests::{digest_of, text_of};
use mm_definitions::answers::Fault;
use mm_store::columns::number_in;
use mm_store::faults::fault_of;
use mm_store::statements::{all, exists, first, run};
use sqlite::types::ValueRef;
use sqlite::{Alter, Error, Row, Transaction, params};

/// The number in the first column of the first row.
pub fn first_number<S: Alter>(
    tx: &mut Transaction<'_, S>,
    sql: &str,
    params: &[ValueRef<'_>],
) -> Result<Option<i64>, Fault>
    ensures { Asks S.Store tx.old tx.new sql.now (bound params.now) GivesNumber result }
{
    match first(tx, sql, params)? {
        Some(row) => Ok(Some(number_in(&row, 0)?)),
        None => Ok(None),
    }
}

/// The blob of these bytes: one of their digest, that is compared byte by byte.
fn find_blob<S: Alter>(
    tx: &mut Transaction<'_, S>,
    digest: &str,
    bytes: &[u8],
) -> Result<Option<i64>, Fault>
    requires { digest.now ≡ spec.digest_of bytes.now }
    ensures { Finds S.Store tx.old tx.new (λ y it. IsFound y.kept.shelf bytes.now it) result }
{
    first_number(
        tx,
        "SELECT id FROM mm_blobs WHERE digest = ?1 AND data = ?2 LIMIT 1",
        params![digest, bytes],
    )
}

/// Puts a blob of bytes that no other holds. The store chooses its id.
fn insert_blob<S: Alter>(
    tx: &mut Transaction<'_, S>,
    digest: &str,
    bytes: &[u8],
) -> Result<i64, Fault>
    requires digest { digest.now ≡ spec.digest_of bytes.now }
    requires some { bytes.now ≢ [] }
    ensures { Puts S.Store tx.old tx.new bytes.now result }
{
    run(
        tx,
        "INSERT INTO mm_blobs (digest, data) VALUES (?1, ?2)",
        params![digest, bytes],
    )?;
    Ok(tx.last_insert_rowid())
}

/// The id of the blob of these bytes, which is put where none stands. Until an entry names it, it may stand unnamed.
pub fn keep<S: Alter>(tx: &mut Transaction<'_, S>, bytes: &[u8]) -> Result<i64, Fault>
    requires { bytes.now ≢ [] }
    ensures { Keeps S.Store tx.old tx.new bytes.now result }
{
    let digits = digest_of(bytes);
    let digest = text_of(&digits);
    match find_blob(tx, digest, bytes)? {
        Some(id) => Ok(id),
        None => insert_blob(tx, digest, bytes),
    }
}

/// The row of a blob, which shows its bytes, if one stands.
fn row_of_blob<S: Alter>(tx: &mut Transaction<'_, S>, id: i64) -> Result<Option<Row>, Fault>
    ensures { Finds S.Store tx.old tx.new (λ y row. ShowsBytes (bytes_at y.kept.shelf id) row)
        result }
{
    first(
        tx,
        "SELECT data FROM mm_blobs WHERE id = ?1 LIMIT 1",
        params![id],
    )
}

/// The bytes in the first column of a row.
fn bytes_in(row: &Row) -> Result<Vec<u8>, Error>
    ensures { IfOk result (λ bytes. column row.now 0 ≡ Bytes bytes.items) }
{
    row.get(0)
}

/// The bytes of a blob that stands. Where none does, that is a fault, 91.
pub fn bytes_of<S: Alter>(tx: &mut Transaction<'_, S>, id: i64) -> Result<Vec<u8>, Fault>
    ensures { Finds S.Store tx.old tx.new (λ y bytes. bytes_at y.kept.shelf id ≡ Some bytes.items)
        result }
{
    match row_of_blob(tx, id)? {
        Some(row) => match bytes_in(&row) {
            Ok(bytes) => Ok(bytes),
            Err(error) => Err(fault_of(error)),
        },
        None => Err(Fault::STORE),
    }
}

/// Whether a tile names a blob.
fn tile_names<S: Alter>(tx: &mut Transaction<'_, S>, id: i64) -> Result<bool, Fault>
    ensures { Finds S.Store tx.old tx.new (λ y it. TellsWhether (NamesBlob tile_id y.kept.tiles id)
        it) result }
{
    exists(
        tx,
        "SELECT 1 FROM mm_tiles WHERE blob = ?1 LIMIT 1",
        params![id],
    )
}

/// Whether a medium names a blob.
fn medium_names<S: Alter>(tx: &mut Transaction<'_, S>, id: i64) -> Result<bool, Fault>
    ensures { Finds S.Store tx.old tx.new (λ y it. TellsWhether
        (NamesBlob medium_id y.kept.media id) it) result }
{
    exists(
        tx,
        "SELECT 1 FROM mm_media WHERE blob = ?1 LIMIT 1",
        params![id],
    )
}

/// Whether a staged piece names a blob.
fn piece_names<S: Alter>(tx: &mut Transaction<'_, S>, id: i64) -> Result<bool, Fault>
    ensures { Finds S.Store tx.old tx.new (λ y it. TellsWhether
        (NamesBlob piece_id y.kept.pieces id) it) result }
{
    exists(
        tx,
        "SELECT 1 FROM mm_pieces WHERE blob = ?1 LIMIT 1",
        params![id],
    )
}

/// Whether a tile, a medium or a staged piece names a blob.
fn is_named<S: Alter>(tx: &mut Transaction<'_, S>, id: i64) -> Result<bool, Fault>
    ensures { Finds S.Store tx.old tx.new (λ y it. TellsWhether (IsNamed y.kept id) it) result }
{
    if tile_names(tx, id)? {
        return Ok(true);
    }
    if medium_names(tx, id)? {
        return Ok(true);
    }
    piece_names(tx, id)
}

/// Removes a blob that nothing names.
fn delete_blob<S: Alter>(tx: &mut Transaction<'_, S>, id: i64) -> Result<(), Fault>
    ensures { Removes S.Store tx.old tx.new id result }
{
    run(tx, "DELETE FROM mm_blobs WHERE id = ?1", params![id])
}

/// Removes the blob of an id if nothing names it any more.
pub fn release<S: Alter>(tx: &mut Transaction<'_, S>, id: i64) -> Result<(), Fault>
    ensures { Releases S.Store tx.old tx.new (λ spare. spare) (spare_but id) result }
{
    if is_named(tx, id)? {
        Ok(())
    } else {
        delete_blob(tx, id)
    }
}

/// Releases the blob that an entry named which went, if one stood.
pub fn release_freed<S: Alter>(tx: &mut Transaction<'_, S>, freed: Option<i64>) -> Result<(), Fault>
    ensures { ReleasesOpen S.Store tx.old tx.new (spare_freed freed) result }
{
    match freed {
        Some(id) => release(tx, id),
        None => Ok(()),
    }
}

/// Releases the blob whose id a row begins with.
fn release_in<S: Alter>(tx: &mut Transaction<'_, S>, row: &Row) -> Result<(), Fault>
    ensures { Releases S.Store tx.old tx.new (spare_each (row.now ∷ [])) (λ spare. spare) result }
{
    let id = number_in(row, 0)?;
    release(tx, id)
}

/// Releases each of the blobs whose ids these rows begin with.
pub fn release_each<S: Alter>(tx: &mut Transaction<'_, S>, rows: &[Row]) -> Result<(), Fault>
    ensures { ReleasesOpen S.Store tx.old tx.new (spare_each rows.now) result }
{
    for row in rows {
        release_in(tx, row)?;
    }
    Ok(())
}

/// The ids of the blobs that nothing names.
fn unnamed_blobs<S: Alter>(tx: &mut Transaction<'_, S>) -> Result<Vec<Row>, Fault>
    ensures { ListsUnnamed S.Store tx.old tx.new (λ rows. rows.items) result }
{
    all(
        tx,
        "SELECT b.id FROM mm_blobs AS b WHERE NOT EXISTS (SELECT 1 FROM mm_tiles AS t WHERE t.blob = b.id) AND NOT EXISTS (SELECT 1 FROM mm_media AS m WHERE m.blob = b.id) AND NOT EXISTS (SELECT 1 FROM mm_pieces AS p WHERE p.blob = b.id)",
        &[],
    )
}

/// Removes every blob that nothing names.
pub fn sweep<S: Alter>(tx: &mut Transaction<'_, S>) -> Result<(), Fault>
    ensures { Releases S.Store tx.old tx.new (λ spare. spare) (λ spare. no_spare) result }
{
    let rows = unnamed_blobs(tx)?;
    release_each(tx, rows.as_slice())
}
