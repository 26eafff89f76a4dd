//! The rules of editions and of their pieces.

ghost use Rattle.std.specs.Prelude.{◌↔◌, IsTrue};
ghost use Rattle.mm_definitions.specs.Rules.{Editions};
ghost use Rattle.mm_column_limits.specs.EditionParts.{EditionStates, PiecesOfOpen, PiecesNumbered, PiecesSpelled};
ghost use Rattle.mm_definitions.specs.Units.{profile_of};
ghost use Rattle.mm_column_limits.specs.PieceRows.{IsStateRow, IsOpenRow, IsNumberedRow, IsSpelledRow, AreSides, AreUnused, IsContent, IsMatrix, HasNoTexts, HasNoBytes, IsPlaceOfTile, IsItem, IsPair, IsTile, IsTileDrop, PutsRow, IsItemDrop, IsMedia, IsMap, PutsEntry, IsDrop};
ghost use Rattle.mm_walk.specs.Check.{DecidesWithin, DecidesWithinUnder};

use crate::column_tests::{
    is_blob_within, is_content_type_at, is_name_at, is_pixel_size, is_text_at, is_within,
};
use mm_definitions::answers::Fault;
use mm_definitions::limits::{
    LAST_ID, LAST_PLACE, LAST_ZOOM, MOST_AMOUNT, MOST_MEDIA_BYTES, MOST_PIECES, MOST_PIXELS,
    MOST_TEXT_BYTES, MOST_TILE_BYTES, MOST_TILES,
};
use mm_definitions::units::Unit;
use mm_walk::columns::{number_is, stands, text_is};
use mm_walk::row_tests::{RowTest, each_passes};
use sqlite::{Alter, Connection, Row};

/// An edition with its state.
struct State;

impl State {
    const STATE: usize = 0;
}

impl RowTest for State {
    ghost good = { λ _ row. IsStateRow row };

    fn passes(&self, row: &Row) -> bool {
        text_is(row, Self::STATE, "open") || text_is(row, Self::STATE, "published")
    }
}

/// Of rule 15, that each edition is open or published.
pub fn edition_states<S: Alter>(conn: &mut Connection<S>) -> Result<bool, Fault>
    ensures { DecidesWithin S.Store conn.old conn.new (λ p. EditionStates p) result }
{
    each_passes(
        conn,
        "SELECT e.state FROM mm_editions AS e ORDER BY e.name",
        &[],
        &State,
    )
}

/// A piece with the state of its edition.
struct OfOpen;

impl OfOpen {
    const STATE: usize = 0;
}

impl RowTest for OfOpen {
    ghost good = { λ _ row. IsOpenRow row };

    fn passes(&self, row: &Row) -> bool {
        text_is(row, Self::STATE, "open")
    }
}

/// Of rule 15, that each piece is one of an open edition.
pub fn pieces_of_open<S: Alter>(conn: &mut Connection<S>) -> Result<bool, Fault>
    ensures { DecidesWithin S.Store conn.old conn.new (λ p. PiecesOfOpen p) result }
{
    each_passes(
        conn,
        "SELECT e.state FROM mm_pieces AS p LEFT JOIN mm_editions AS e ON e.name = p.edition ORDER BY p.edition, p.piece_no",
        &[],
        &OfOpen,
    )
}

/// A piece with the one before it.
struct Numbered;

impl Numbered {
    const NUMBER: usize = 0;

    const BEFORE: usize = 1;
}

impl RowTest for Numbered {
    ghost good = { λ _ row. IsNumberedRow row };

    fn passes(&self, row: &Row) -> bool {
        is_within(row, Self::NUMBER, 1, MOST_PIECES as i64)
            && (number_is(row, Self::NUMBER, 1) || stands(row, Self::BEFORE))
    }
}

/// Of rule 15, where rule 16 holds, that each piece follows another or is the first, and is one of the first 4,096.
pub fn pieces_numbered<S: Alter>(conn: &mut Connection<S>) -> Result<bool, Fault>
    ensures { DecidesWithin S.Store conn.old conn.new (λ p. PiecesNumbered p) result }
{
    each_passes(
        conn,
        "SELECT p.piece_no, q.piece_no FROM mm_pieces AS p LEFT JOIN mm_pieces AS q ON q.edition = p.edition AND q.piece_no = p.piece_no - 1 ORDER BY p.edition, p.piece_no",
        &[],
        &Numbered,
    )
}

fn are_unused(row: &Row) -> bool
    ensures { IsTrue result ↔ AreUnused row.now }
{
    number_is(row, Spelled::K4, 0)
        && number_is(row, Spelled::K5, 0)
        && number_is(row, Spelled::K6, 0)
        && number_is(row, Spelled::K7, 0)
}

fn has_no_texts(row: &Row) -> bool
    ensures { IsTrue result ↔ HasNoTexts row.now }
{
    text_is(row, Spelled::FIRST_TEXT, "") && text_is(row, Spelled::SECOND_TEXT, "")
}

fn has_no_bytes(row: &Row) -> bool
    ensures { IsTrue result ↔ HasNoBytes row.now }
{
    !stands(row, Spelled::BYTES)
}

fn is_place(row: &Row) -> bool
    ensures { IsTrue result ↔ IsPlaceOfTile row.now }
{
    is_within(row, Spelled::K1, 0, LAST_ZOOM as i64)
        && is_within(row, Spelled::K2, 0, LAST_PLACE as i64)
        && is_within(row, Spelled::K3, 0, LAST_PLACE as i64)
}

fn is_item(row: &Row) -> bool
    ensures { IsTrue result ↔ IsItem row.now }
{
    is_within(row, Spelled::K1, 1, LAST_ID as i64)
        && number_is(row, Spelled::K2, 0)
        && number_is(row, Spelled::K3, 0)
}

fn is_pair(row: &Row) -> bool
    ensures { IsTrue result ↔ IsPair row.now }
{
    is_within(row, Spelled::K1, 1, LAST_ID as i64)
        && is_within(row, Spelled::K2, 1, LAST_ID as i64)
        && number_is(row, Spelled::K3, 0)
}

fn is_tile(row: &Row) -> bool
    ensures { IsTrue result ↔ IsTile row.now }
{
    text_is(row, Spelled::KIND, "tile")
        && is_place(row)
        && has_no_texts(row)
        && is_blob_within(row, Spelled::BYTES, MOST_TILE_BYTES)
}

fn is_tile_drop(row: &Row) -> bool
    ensures { IsTrue result ↔ IsTileDrop row.now }
{
    text_is(row, Spelled::KIND, "tile-drop")
        && is_place(row)
        && has_no_texts(row)
        && has_no_bytes(row)
}

fn is_row(row: &Row) -> bool
    ensures { IsTrue result ↔ PutsRow row.now }
{
    text_is(row, Spelled::KIND, "row")
        && is_within(row, Spelled::K1, 1, LAST_ID as i64)
        && is_within(row, Spelled::K2, -(MOST_AMOUNT as i64), MOST_AMOUNT as i64)
        && number_is(row, Spelled::K3, 0)
        && is_text_at(row, Spelled::FIRST_TEXT, 0, MOST_TEXT_BYTES)
        && is_text_at(row, Spelled::SECOND_TEXT, 0, MOST_TEXT_BYTES)
        && has_no_bytes(row)
}

fn is_item_drop(row: &Row, kind: &str) -> bool
    ensures { IsTrue result ↔ IsItemDrop kind.now row.now }
{
    text_is(row, Spelled::KIND, kind) && is_item(row) && has_no_texts(row) && has_no_bytes(row)
}

fn is_media(row: &Row) -> bool
    ensures { IsTrue result ↔ IsMedia row.now }
{
    text_is(row, Spelled::KIND, "media")
        && is_item(row)
        && is_content_type_at(row, Spelled::FIRST_TEXT)
        && text_is(row, Spelled::SECOND_TEXT, "")
        && is_blob_within(row, Spelled::BYTES, MOST_MEDIA_BYTES)
}

fn is_map(row: &Row, kind: &str) -> bool
    ensures { IsTrue result ↔ IsMap kind.now row.now }
{
    text_is(row, Spelled::KIND, kind) && is_pair(row) && has_no_texts(row) && has_no_bytes(row)
}

fn is_put(row: &Row) -> bool
    ensures { IsTrue result ↔ PutsEntry row.now }
{
    is_tile(row) || is_row(row) || is_media(row) || is_map(row, "map")
}

fn is_drop(row: &Row) -> bool
    ensures { IsTrue result ↔ IsDrop row.now }
{
    is_tile_drop(row)
        || is_item_drop(row, "row-drop")
        || is_item_drop(row, "media-drop")
        || is_map(row, "map-drop")
}

fn is_content(row: &Row) -> bool
    ensures { IsTrue result ↔ IsContent row.now }
{
    are_unused(row) && (is_put(row) || is_drop(row))
}

fn are_sides(row: &Row) -> bool
    ensures { IsTrue result ↔ AreSides row.now }
{
    is_within(row, Spelled::K2, 1, MOST_TILES as i64)
        && is_within(row, Spelled::K3, 1, MOST_TILES as i64)
        && is_within(row, Spelled::K4, 1, MOST_PIXELS as i64)
        && is_within(row, Spelled::K5, 1, MOST_PIXELS as i64)
}

fn is_matrix(row: &Row, unit: Unit) -> bool
    ensures { IsTrue result ↔ IsMatrix (profile_of unit) row.now }
{
    unit.takes_matrices()
        && text_is(row, Spelled::KIND, "matrix")
        && is_within(row, Spelled::K1, 0, LAST_ZOOM as i64)
        && are_sides(row)
        && is_pixel_size(row, Spelled::K6, unit)
        && is_pixel_size(row, Spelled::K7, unit)
        && has_no_texts(row)
        && has_no_bytes(row)
}

/// A row of a staged piece, column by column.
#[derive(Clone, Copy)]
struct Spelled {
    unit: Unit,
}

impl Spelled {
    const KIND: usize = 0;

    const NAME: usize = 1;

    const K1: usize = 2;

    const K2: usize = 3;

    const K3: usize = 4;

    const K4: usize = 5;

    const K5: usize = 6;

    const K6: usize = 7;

    const K7: usize = 8;

    const FIRST_TEXT: usize = 9;

    const SECOND_TEXT: usize = 10;

    const BYTES: usize = 11;
}

impl RowTest for Spelled {
    ghost good = { λ it row. IsSpelledRow (profile_of it.unit) row };

    fn passes(&self, row: &Row) -> bool {
        is_name_at(row, Self::NAME) && (is_content(row) || is_matrix(row, self.unit))
    }
}

/// Of rule 15, that each row spells a piece within the limits.
pub fn pieces_spelled<S: Alter>(conn: &mut Connection<S>, unit: Unit) -> Result<bool, Fault>
    ensures { DecidesWithinUnder S.Store conn.old conn.new (profile_of unit)
        (λ p. PiecesSpelled (profile_of unit) p) result }
{
    each_passes(
        conn,
        "SELECT p.kind, p.name, p.k1, p.k2, p.k3, p.k4, p.k5, p.k6, p.k7, p.t1, p.t2, b.data FROM mm_pieces AS p LEFT JOIN mm_blobs AS b ON b.id = p.blob ORDER BY p.edition, p.piece_no",
        &[],
        &Spelled { unit },
    )
}

/// Of rule 15, what it asks of each piece but its edition.
pub fn pieces_alone<S: Alter>(conn: &mut Connection<S>, unit: Unit) -> Result<bool, Fault>
    ensures { DecidesWithinUnder S.Store conn.old conn.new (profile_of unit)
        (λ p. PiecesSpelled (profile_of unit) p × PiecesNumbered p) result }
{
    if pieces_spelled(conn, unit)? {
        pieces_numbered(conn)
    } else {
        Ok(false)
    }
}

/// Of rule 15, what it asks of each piece.
pub fn pieces<S: Alter>(conn: &mut Connection<S>, unit: Unit) -> Result<bool, Fault>
    ensures { DecidesWithinUnder S.Store conn.old conn.new (profile_of unit)
        (λ p. PiecesOfOpen p × (PiecesSpelled (profile_of unit) p × PiecesNumbered p)) result }
{
    if pieces_of_open(conn)? {
        pieces_alone(conn, unit)
    } else {
        Ok(false)
    }
}

/// Rule 15, where rule 16 holds: editions are open or published, and the pieces of open ones are numbered from 1 and spell what they should.
pub fn editions<S: Alter>(conn: &mut Connection<S>, unit: Unit) -> Result<bool, Fault>
    ensures { DecidesWithinUnder S.Store conn.old conn.new (profile_of unit)
        (λ p. Editions (profile_of unit) p.editions p.pieces) result }
{
    if edition_states(conn)? {
        pieces(conn, unit)
    } else {
        Ok(false)
    }
}
