//! The rows that a query shows, a line each, with a bar behind each value.

use sqlite::types::ValueRef;
use sqlite::{Alter, Connection, Row};
use std::fmt::Write;

pub(crate) fn add_bytes(text: &mut String, bytes: &[u8]) -> Option<()> {
    for byte in bytes {
        write!(text, "{byte:02x}").ok()?;
    }
    Some(())
}

fn add_value(text: &mut String, value: ValueRef<'_>) -> Option<()> {
    match value {
        ValueRef::Null => text.push_str("null").ok(),
        ValueRef::Int(number) => write!(text, "{number}").ok(),
        ValueRef::Text(bytes) => text.push_str(std::str::from_utf8(bytes).ok()?).ok(),
        ValueRef::Blob(bytes) => add_bytes(text, bytes),
        ValueRef::Real(_) => text.push_str("?").ok(),
    }
}

fn add_row(text: &mut String, row: &Row) -> Option<()> {
    for at in 0..row.column_count() {
        add_value(text, row.get_ref(at).ok()?)?;
        text.push_str("|").ok()?;
    }
    text.push_str("\n").ok()
}

pub(crate) fn add_rows<S: Alter>(
    text: &mut String,
    conn: &mut Connection<S>,
    sql: &str,
) -> Option<()> {
    let rows = conn.query_all(sql, &[]).ok()?;
    for row in &rows {
        add_row(text, row)?;
    }
    Some(())
}
