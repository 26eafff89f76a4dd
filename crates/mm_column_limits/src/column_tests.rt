//! Whether a column of a shown row is within its limits. A text that is no UTF-8 is within none.

ghost use Rattle.std.specs.Prelude.{◌≡◌, ◌↔◌, IsTrue};
ghost use Rattle.std.specs.Str.{IsUtf8};
ghost use Rattle.sqlite.specs.Order.{column};
ghost use Rattle.mm_definitions.specs.Bounds.{IsCoordinate, IsPixelSize, IsFrom, IsLong, IsText, IsName, IsClean, IsIdentifier, IsContentType};
ghost use Rattle.mm_definitions.specs.Rules.{IsGiven};
ghost use Rattle.mm_definitions.specs.Stamp.{IsSomeStamp};
ghost use Rattle.mm_definitions.specs.Units.{profile_of};
ghost use Rattle.mm_walk.specs.Columns.{number_of};
ghost use Rattle.mm_column_limits.specs.LimitRows.{text_by, text_if_any, number_by, number_if_any, numbers_by, bytes_by};

use mm_definitions::content_types::is_content_type;
use mm_definitions::identifiers::is_identifier;
use mm_definitions::limits::LAST_ID;
use mm_definitions::moments::is_stamp;
use mm_definitions::names::is_name;
use mm_definitions::texts::{is_clean, is_text};
use mm_definitions::units::Unit;
use mm_walk::columns::{blob, number, text, words};
use sqlite::Row;

/// Whether a column of a shown row holds the text of a name.
#[tactic(auto, using(crate::proofs::Texts::unread))]
pub fn is_name_at(row: &Row, at: usize) -> bool
    ensures { IsTrue result ↔ text_by IsName (column row.now at) }
{
    match text(row, at) {
        Some(text) => is_name(text),
        None => false,
    }
}

#[tactic(auto, using(crate::proofs::Texts::unread))]
pub(crate) fn is_clean_at(row: &Row, at: usize) -> bool
    ensures { IsTrue result ↔ text_by IsClean (column row.now at) }
{
    match text(row, at) {
        Some(text) => is_clean(text),
        None => false,
    }
}

#[tactic(auto, using(crate::proofs::Texts::unread))]
pub(crate) fn is_identifier_at(row: &Row, at: usize) -> bool
    ensures { IsTrue result ↔ text_by IsIdentifier (column row.now at) }
{
    match text(row, at) {
        Some(text) => is_identifier(text),
        None => false,
    }
}

/// Whether a column of a shown row holds the text of a content type.
#[tactic(auto, using(crate::proofs::Texts::unread))]
pub fn is_content_type_at(row: &Row, at: usize) -> bool
    ensures { IsTrue result ↔ text_by IsContentType (column row.now at) }
{
    match text(row, at) {
        Some(text) => is_content_type(text),
        None => false,
    }
}

#[tactic(auto, using(crate::proofs::Texts::unread))]
pub(crate) fn is_stamp_at(row: &Row, at: usize) -> bool
    ensures { IsTrue result ↔ text_by IsSomeStamp (column row.now at) }
{
    match text(row, at) {
        Some(text) => is_stamp(text),
        None => false,
    }
}

/// Whether a column of a shown row holds a text of so many bytes, from the least to the most.
#[tactic(auto, using(crate::proofs::Texts::unread))]
pub fn is_text_at(row: &Row, at: usize, least: usize, most: usize) -> bool
    ensures { IsTrue result ↔ text_by (IsText least most) (column row.now at) }
{
    match text(row, at) {
        Some(text) => is_text(text, least, most),
        None => false,
    }
}

/// The same of a column that may be empty.
pub(crate) fn is_clean_if_any(row: &Row, at: usize) -> bool
    ensures { IsTrue result ↔ text_if_any IsClean (column row.now at) }
{
    match words(row, at) {
        Some(bytes) => is_clean_utf8(bytes),
        None => true,
    }
}

fn is_clean_utf8(bytes: &[u8]) -> bool
    ensures { IsTrue result ↔ (IsUtf8 bytes.now × IsClean bytes.now) }
{
    match std::str::from_utf8(bytes) {
        Ok(text) => is_clean(text),
        Err(_) => false,
    }
}

pub(crate) fn is_from(number: i64, low: i64, high: i64) -> bool
    ensures { IsTrue result ↔ IsFrom low high number }
{
    low <= number && number <= high
}

/// Whether a column of a shown row holds a number from the low to the high one.
pub fn is_within(row: &Row, at: usize, low: i64, high: i64) -> bool
    ensures { IsTrue result ↔ number_by (IsFrom low high) (column row.now at) }
{
    match number(row, at) {
        Some(number) => is_from(number, low, high),
        None => false,
    }
}

pub(crate) fn is_within_if_any(row: &Row, at: usize, low: i64, high: i64) -> bool
    ensures { IsTrue result ↔ number_if_any (IsFrom low high) (column row.now at) }
{
    match number(row, at) {
        Some(number) => is_from(number, low, high),
        None => true,
    }
}

pub(crate) fn is_coordinate(row: &Row, at: usize, unit: Unit) -> bool
    ensures { IsTrue result ↔ number_by (IsCoordinate (profile_of unit)) (column row.now at) }
{
    is_within(row, at, -unit.farthest(), unit.farthest())
}

pub(crate) fn is_coordinate_if_any(row: &Row, at: usize, unit: Unit) -> bool
    ensures { IsTrue result ↔ number_if_any (IsCoordinate (profile_of unit)) (column row.now at) }
{
    is_within_if_any(row, at, -unit.farthest(), unit.farthest())
}

/// Whether a column of a shown row holds a pixel size, in the unit of the profile.
pub fn is_pixel_size(row: &Row, at: usize, unit: Unit) -> bool
    ensures { IsTrue result ↔ number_by (IsPixelSize (profile_of unit)) (column row.now at) }
{
    is_within(row, at, 1, unit.largest_pixel())
}

fn is_long(bytes: &[u8], most: usize) -> bool
    ensures { IsTrue result ↔ IsLong 1 most bytes.now }
{
    1 <= bytes.len() && bytes.len() <= most
}

/// Whether a blob has 1 to `most` bytes, which are not copied.
pub fn is_blob_within(row: &Row, at: usize, most: usize) -> bool
    ensures { IsTrue result ↔ bytes_by (IsLong 1 most) (column row.now at) }
{
    match blob(row, at) {
        Some(bytes) => is_long(bytes, most),
        None => false,
    }
}

fn is_given(id: i64) -> bool
    ensures { IsTrue result ↔ IsGiven id }
{
    id == 4326 || id == -1 || id == 0
}

/// Whether the numbers of a system are within their limits, which are wider for a given one.
pub(crate) fn are_system_numbers(row: &Row, at: usize, other: usize) -> bool
    ensures { IsTrue result ↔ numbers_by (number_of (column row.now at))
        (number_of (column row.now other)) }
{
    match (number(row, at), number(row, other)) {
        (Some(id), Some(organization_id)) => {
            is_from(id, 1, LAST_ID as i64) && is_from(organization_id, 1, LAST_ID as i64)
                || is_given(id) && is_from(organization_id, -1, LAST_ID as i64)
        }
        _ => false,
    }
}
