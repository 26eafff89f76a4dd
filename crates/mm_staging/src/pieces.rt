//! One staged piece by its number.

ghost use Rattle.std.specs.Prelude.{◌≡◌, None, option_map, pos, IfOk, IfErr};
ghost use Rattle.std.specs.FinMap.{get, contains_key, insert};
ghost use Rattle.mm_definitions.specs.Keys as keys;
ghost use Rattle.sqlite.specs.Order.{column};
ghost use Rattle.mm_store.specs.Blobs.{Told};
ghost use Rattle.mm_definitions.specs.Faults.{IsStoreFault};
ghost use Rattle.mm_store.specs.Kept.{piece_id, piece_with};
ghost use Rattle.mm_store.specs.Removals.{FreedByEdition};
ghost use Rattle.mm_store.specs.Rows.{maybe};
ghost use Rattle.mm_blobs.specs.Views.{ListsEach};
ghost use Rattle.mm_staging.specs.Alone.{FreedByPiecesAlone};
ghost use Rattle.mm_staging.specs.Kept.{kept_row, written_row, bytes_or_none, IsKeptRow, IsPieceRow};
ghost use Rattle.mm_staging.specs.Outlines.{IsOutlined};
ghost use Rattle.mm_store.specs.Handed.{Looks, Tells, ChangesWhere};
ghost use Rattle.mm_layout.specs.Handed.{FindsByRules};
ghost use Rattle.mm_blobs.specs.Handed.{Finds};
ghost use Rattle.mm_staging.specs.Handed.{PutsPiece, TellsBytesOf};

use crate::kept::{Kept, Written, kept_in};
use crate::outlines::Outline;
use crate::spelling::spelled;
use mm_blobs::blobs::{bytes_of, keep};
use mm_definitions::answers::Fault;
use mm_definitions::names::Name;
use mm_store::faults::fault_of;
use mm_store::statements::{all, exists, first, run};
use sqlite::{Alter, Row, Transaction, params};

/// Whether an edition has a piece of this number.
pub(crate) fn has_piece<S: Alter>(
    tx: &mut Transaction<'_, S>,
    edition: &str,
    number: i64,
) -> Result<bool, Fault>
    ensures { Tells S.Store tx.old tx.new (λ p. contains_key p.pieces
        (keys.piece edition.now number)) result }
{
    exists(
        tx,
        "SELECT 1 FROM mm_pieces WHERE edition = ?1 AND piece_no = ?2 LIMIT 1",
        params![edition, number],
    )
}

/// The row of a piece by its number, if the edition has one.
fn row_of_piece<S: Alter>(
    tx: &mut Transaction<'_, S>,
    edition: &str,
    number: i64,
) -> Result<Option<Row>, Fault>
    ensures { Finds S.Store tx.old tx.new (λ y row. IsPieceRow
        (get y.kept.pieces (keys.piece edition.now number)) row × Told piece_id piece_with
        y.kept.shelf (get y.kept.pieces (keys.piece edition.now number))
        (get y.content.pieces (keys.piece edition.now number))) result }
{
    first(
        tx,
        "SELECT kind, name, k1, k2, k3, k4, k5, k6, k7, t1, t2, blob FROM mm_pieces WHERE edition = ?1 AND piece_no = ?2 LIMIT 1",
        params![edition, number],
    )
}

/// The blob that the row of a piece names, if it names one.
fn blob_in(row: &Row) -> Result<Option<i64>, Fault>
    ensures shown { IfOk result (λ blob. column row.now 11 ≡ maybe blob) }
    ensures fault { IfErr result IsStoreFault }
{
    row.get(11).map_err(fault_of)
}

/// The bytes of the blob that the row of a piece names, if it names one.
fn bytes_of_row<S: Alter>(tx: &mut Transaction<'_, S>, row: &Row) -> Result<Option<Vec<u8>>, Fault>
    ensures { TellsBytesOf S.Store tx.old tx.new row.now bytes_or_none result }
{
    match blob_in(row)? {
        Some(blob) => Ok(Some(bytes_of(tx, blob)?)),
        None => Ok(None),
    }
}

/// A piece by its number as its row holds it, if the edition has one, with its bytes.
pub(crate) fn kept_piece<S: Alter>(
    tx: &mut Transaction<'_, S>,
    edition: &str,
    number: i64,
) -> Result<Option<Kept>, Fault>
    ensures { Looks S.Store tx.old tx.new (λ p kept. get p.pieces (keys.piece edition.now number)
        ≡ option_map kept_row kept) result }
{
    let Some(row) = row_of_piece(tx, edition, number)? else {
        return Ok(None);
    };
    let bytes = bytes_of_row(tx, &row)?;
    match kept_in(&row, bytes) {
        Ok(kept) => Ok(Some(kept)),
        Err(error) => Err(fault_of(error)),
    }
}

/// A piece by its number as its row holds it, if the edition has one. Its bytes are not read.
fn kept_but_bytes<S: Alter>(
    tx: &mut Transaction<'_, S>,
    edition: &str,
    number: i64,
) -> Result<Option<Kept>, Fault>
    ensures { Finds S.Store tx.old tx.new (λ v kept. IsKeptRow v.kept.shelf
        (get v.content.pieces (keys.piece edition.now number)) kept) result }
{
    let Some(row) = row_of_piece(tx, edition, number)? else {
        return Ok(None);
    };
    match kept_in(&row, None) {
        Ok(kept) => Ok(Some(kept)),
        Err(error) => Err(fault_of(error)),
    }
}

/// The piece of a number with its blob in place of its bytes, which are not read, if the edition has one. A row that
/// spells none is a fault, 91.
pub fn outline_of<S: Alter>(
    tx: &mut Transaction<'_, S>,
    edition: &Name,
    number: u32,
) -> Result<Option<Outline>, Fault>
    ensures { FindsByRules S.Store tx.old tx.new (λ v found. IsOutlined v.kept.shelf
        (get v.content.pieces (keys.piece edition.now (pos number))) found) result }
{
    let edition = edition.as_str();
    match kept_but_bytes(tx, edition, i64::from(number))? {
        Some(kept) => match spelled(kept) {
            Some(outline) => Ok(Some(outline)),
            None => Err(Fault::STORE),
        },
        None => Ok(None),
    }
}

/// Puts the row of a piece at a number that is free.
fn insert_row<S: Alter>(
    tx: &mut Transaction<'_, S>,
    edition: &str,
    number: i64,
    written: Written<'_>,
    blob: Option<i64>,
) -> Result<(), Fault>
    ensures { PutsPiece S.Store tx.old tx.new (keys.piece edition.now number)
        (written_row written.entry) blob result }
{
    run(
        tx,
        "INSERT INTO mm_pieces (edition, piece_no, kind, name, k1, k2, k3, k4, k5, k6, k7, t1, t2, blob) VALUES (?1, ?2, ?3, ?4, ?5, ?6, ?7, ?8, ?9, ?10, ?11, ?12, ?13, ?14)",
        params![
            edition,
            number,
            written.kind,
            written.name,
            written.k1,
            written.k2,
            written.k3,
            written.k4,
            written.k5,
            written.k6,
            written.k7,
            written.t1,
            written.t2,
            blob
        ],
    )
}

/// Puts a piece at a number that is free. Its bytes are kept, if it has any.
pub(crate) fn insert_piece<S: Alter>(
    tx: &mut Transaction<'_, S>,
    edition: &str,
    number: i64,
    written: Written<'_>,
) -> Result<(), Fault>
    ensures { ChangesWhere S.Store tx.old tx.new
        (λ p. get p.pieces (keys.piece edition.now number) ≡ None)
        (λ p. record p {
          pieces = insert p.pieces (keys.piece edition.now number)
              (written_row written.entry);
        }) result }
{
    if written.bytes.is_empty() {
        return insert_row(tx, edition, number, written, None);
    }
    let blob = keep(tx, written.bytes)?;
    insert_row(tx, edition, number, written, Some(blob))
}

/// The ids of the blobs that the pieces of an edition name.
pub(crate) fn blobs_of_pieces<S: Alter>(
    tx: &mut Transaction<'_, S>,
    edition: &str,
) -> Result<Vec<Row>, Fault>
    ensures { Finds S.Store tx.old tx.new (λ y rows. ListsEach rows.items
        (FreedByEdition edition.now y.kept)) result }
{
    all(
        tx,
        "SELECT blob FROM mm_pieces WHERE edition = ?1 AND blob IS NOT NULL",
        params![edition],
    )
}

/// The ids of the blobs that the pieces of an edition name, and no tile and no medium.
pub fn blobs_of_pieces_alone<S: Alter>(
    tx: &mut Transaction<'_, S>,
    edition: &str,
) -> Result<Vec<Row>, Fault>
    ensures { Finds S.Store tx.old tx.new (λ y rows. ListsEach rows.items
        (FreedByPiecesAlone edition.now y.kept)) result }
{
    all(
        tx,
        "SELECT p.blob FROM mm_pieces AS p WHERE p.edition = ?1 AND p.blob IS NOT NULL AND NOT EXISTS (SELECT 1 FROM mm_tiles AS t WHERE t.blob = p.blob) AND NOT EXISTS (SELECT 1 FROM mm_media AS m WHERE m.blob = p.blob)",
        params![edition],
    )
}
