//! The limits of the columns of a row, one for each in turn.

ghost use Rattle.std.specs.Prelude.{◌↔◌, IsTrue};
ghost use Rattle.mm_definitions.specs.Units.{profile_of};
ghost use Rattle.mm_column_limits.specs.LimitRows.{IsWithin, IsWithinRow};

use crate::column_tests::{
    are_system_numbers, is_blob_within, is_clean_at, is_clean_if_any, is_content_type_at,
    is_coordinate, is_coordinate_if_any, is_identifier_at, is_name_at, is_pixel_size, is_stamp_at,
    is_text_at, is_within, is_within_if_any,
};
use mm_definitions::limits::{
    LAST_ID, LAST_PLACE, LAST_ZOOM, MOST_AMOUNT, MOST_DEFINITION_BYTES, MOST_MEDIA_BYTES,
    MOST_PIXELS, MOST_TEXT_BYTES, MOST_TILE_BYTES, MOST_TILES,
};
use mm_definitions::units::Unit;
use mm_walk::columns::text_is;
use mm_walk::row_tests::RowTest;
use sqlite::Row;

/// What a column holds, within its limits; one that may be empty is named so.
#[derive(Clone, Copy)]
pub(crate) enum Limit {
    Name,
    Identifier,
    ContentType,
    Stamp,
    SystemName,
    Definition,
    Remark,
    Clean,
    CleanIfAny,
    NoText,
    Id,
    /// The number of a system, whose number at its organization stands in the given column.
    SystemNumbers(usize),
    /// What another column's limit asks of this one.
    Any,
    SystemNumber,
    SystemNumberIfAny,
    Coordinate,
    CoordinateIfAny,
    PixelSize,
    Zoom,
    MatrixSide,
    TileSide,
    TilePlace,
    Amount,
    TileBytes,
    MediaBytes,
}

impl Limit {
    /// Whether a column of a shown row is within this limit.
    fn is_met(self, row: &Row, at: usize, unit: Unit) -> bool
        ensures { IsTrue result ↔ IsWithin (profile_of unit) self row.now at }
    {
        match self {
            Limit::Name => is_name_at(row, at),
            Limit::Identifier => is_identifier_at(row, at),
            Limit::ContentType => is_content_type_at(row, at),
            Limit::Stamp => is_stamp_at(row, at),
            Limit::SystemName => is_text_at(row, at, 1, MOST_TEXT_BYTES),
            Limit::Definition => is_text_at(row, at, 1, MOST_DEFINITION_BYTES),
            Limit::Remark => is_text_at(row, at, 0, MOST_TEXT_BYTES),
            Limit::Clean => is_clean_at(row, at),
            Limit::CleanIfAny => is_clean_if_any(row, at),
            Limit::NoText => text_is(row, at, ""),
            Limit::Id => is_within(row, at, 1, LAST_ID as i64),
            Limit::SystemNumbers(other) => are_system_numbers(row, at, other),
            Limit::Any => true,
            Limit::SystemNumber => is_within(row, at, -1, LAST_ID as i64),
            Limit::SystemNumberIfAny => is_within_if_any(row, at, -1, LAST_ID as i64),
            Limit::Coordinate => is_coordinate(row, at, unit),
            Limit::CoordinateIfAny => is_coordinate_if_any(row, at, unit),
            Limit::PixelSize => is_pixel_size(row, at, unit),
            Limit::Zoom => is_within(row, at, 0, LAST_ZOOM as i64),
            Limit::MatrixSide => is_within(row, at, 1, MOST_TILES as i64),
            Limit::TileSide => is_within(row, at, 1, MOST_PIXELS as i64),
            Limit::TilePlace => is_within(row, at, 0, LAST_PLACE as i64),
            Limit::Amount => is_within(row, at, -(MOST_AMOUNT as i64), MOST_AMOUNT as i64),
            Limit::TileBytes => is_blob_within(row, at, MOST_TILE_BYTES),
            Limit::MediaBytes => is_blob_within(row, at, MOST_MEDIA_BYTES),
        }
    }
}

/// Whether each column of a shown row is within its limit.
fn are_met(limits: &[Limit], row: &Row, unit: Unit) -> bool
    ensures { IsTrue result ↔ IsWithinRow (profile_of unit) limits.now row.now }
{
    'columns: for at in 0..limits.len() {
        if !limits[at].is_met(row, at, unit) {
            return false;
        }
    }
    true
}

/// The test of a row whose columns have these limits.
#[derive(Clone, Copy)]
pub(crate) struct Limited {
    pub(crate) limits: &'static [Limit],
    pub(crate) unit: Unit,
}

impl RowTest for Limited {
    ghost good = { λ it row. IsWithinRow (profile_of it.unit) it.limits.now row };

    fn passes(&self, row: &Row) -> bool {
        are_met(self.limits, row, self.unit)
    }
}
