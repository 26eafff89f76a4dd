//! The values of a shown row. A value of another kind than asked for is none.

ghost use Rattle.std.specs.Prelude.{◌≡◌, ◌↔◌, Some, None, IsTrue, MatchOption};
ghost use Rattle.sql_forms.specs.Value.{owned};
ghost use Rattle.sqlite.specs.Order.{column};
ghost use Rattle.mm_walk.specs.Columns.{number_of, is_there, text_bytes, IsPyramidKind, same_words_by, bytes_of, Unread};

use sqlite::Row;
use sqlite::types::ValueRef;

/// The value in a column.
fn value(row: &Row, at: usize) -> ValueRef<'_>
    ensures { owned result ≡ column row.now at }
{
    match row.get_ref(at) {
        Ok(value) => value,
        Err(_) => ValueRef::Null,
    }
}

/// The number in a column.
pub fn number(row: &Row, at: usize) -> Option<i64>
    ensures { result ≡ number_of (column row.now at) }
{
    match value(row, at) {
        ValueRef::Int(number) => Some(number),
        _ => None,
    }
}

/// Whether a column holds a value.
pub fn stands(row: &Row, at: usize) -> bool
    ensures { result ≡ is_there (column row.now at) }
{
    match value(row, at) {
        ValueRef::Null => false,
        _ => true,
    }
}

/// Whether two columns hold the same number, or neither holds one.
pub fn same_number(row: &Row, at: usize, other: usize) -> bool
    ensures { IsTrue result ↔ number_of (column row.now at) ≡ number_of (column row.now other) }
{
    number(row, at) == number(row, other)
}

/// Whether a column holds this text.
pub fn text_is(row: &Row, at: usize, text: &str) -> bool
    ensures { IsTrue result ↔ text_bytes (column row.now at) ≡ Some text.now }
{
    match value(row, at) {
        ValueRef::Text(bytes) => bytes == text.as_bytes(),
        _ => false,
    }
}

/// Whether two columns hold the same text.
pub fn same_text(row: &Row, at: usize, other: usize) -> bool
    ensures { IsTrue result ↔ same_words_by (column row.now at) (column row.now other) }
{
    match (value(row, at), value(row, other)) {
        (ValueRef::Text(one), ValueRef::Text(two)) => one == two,
        _ => false,
    }
}

/// Whether a column holds the kind of a pyramid.
pub fn is_pyramid(row: &Row, at: usize) -> bool
    ensures { IsTrue result ↔ IsPyramidKind (column row.now at) }
{
    text_is(row, at, "two") || text_is(row, at, "other")
}

/// The bytes of the text in a column.
pub fn words(row: &Row, at: usize) -> Option<&[u8]>
    ensures { MatchOption result (text_bytes (column row.now at) ≡ None)
        (λ bytes. text_bytes (column row.now at) ≡ Some bytes.now) }
{
    match value(row, at) {
        ValueRef::Text(bytes) => Some(bytes),
        _ => None,
    }
}

/// The text in a column, where it is UTF-8.
pub fn text(row: &Row, at: usize) -> Option<&str>
    ensures { MatchOption result (Unread (text_bytes (column row.now at)))
        (λ text. text_bytes (column row.now at) ≡ Some text.now) }
{
    match words(row, at) {
        Some(bytes) => match std::str::from_utf8(bytes) {
            Ok(text) => Some(text),
            Err(_) => None,
        },
        None => None,
    }
}

/// The bytes of the blob in a column.
pub fn blob(row: &Row, at: usize) -> Option<&[u8]>
    ensures { MatchOption result (bytes_of (column row.now at) ≡ None)
        (λ bytes. bytes_of (column row.now at) ≡ Some bytes.now) }
{
    match value(row, at) {
        ValueRef::Blob(bytes) => Some(bytes),
        _ => None,
    }
}

/// Whether a column holds this number.
pub fn number_is(row: &Row, at: usize, wanted: i64) -> bool
    ensures { IsTrue result ↔ number_of (column row.now at) ≡ Some wanted }
{
    number(row, at) == Some(wanted)
}
